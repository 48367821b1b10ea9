//! Renders problems, and the line that counts them.
ghost use Rattle.std.specs.Prelude.{OnOk, Some};
ghost use Rattle.lists.specs.Texts.{Adds};
ghost use Rattle.paths.specs.BusAddresses.{bus_address_of};
ghost use Rattle.model_findings.specs.{Problems.{not_forwarded, contended, not_found}, AuditText.{agent_text, problem_text, total_text, audit_line}};
ghost use Rattle.findings.specs.Findings.{problem_of};
ghost use Rattle.findings_render.specs.Lines.{problem_lines};
ghost use Rattle.model_guests.specs.Text.{ended};

use crate::counts::Counted;
use crate::region_texts::{Hexadecimal, Reached, ShownRegion, space_name};
use findings::{Agent, Bdf, LiveBar, Problem};
use paths::Path;
use report::{Numbers, ShownPath};
use std::alloc::AllocError;
use std::fmt;

/// Displays the path of a responder, with the index of its BAR unless it is a bridge.
#[derive(Clone, Copy)]
struct ShownAgent<'a>(&'a Agent);

impl<'a> fmt::Display for ShownAgent<'a> {
    ghost output = { λ a. Some (agent_text a.0.now) };

    fn fmt<W: fmt::Write>(&self, f: &mut fmt::Formatter<W>) -> fmt::Result {
        let agent = self.0;
        write!(f, "{}", ShownPath(&agent.path))?;
        match agent.register {
            Some(index) => write!(f, " bar{index}"),
            None => Ok(()),
        }
    }
}

/// Appends the description of a BAR that a bridge doesn't forward.
fn push_not_forwarded(
    text: &mut String,
    region: &LiveBar,
    bridge: &Path,
    address: u64,
) -> Result<(), AllocError>
    ensures { OnOk result (Adds text.old text.new
        (problem_text (not_forwarded region.now bridge.now address))) }
{
    write!(text, "{}", ShownRegion(region))?;
    write!(text, ": 0x{address:x}")?;
    write!(text, " is not forwarded by bridge {}", ShownPath(bridge))
}

/// Appends the description of an address conflict between two responders.
fn push_contended(
    text: &mut String,
    one: &Agent,
    other: &Agent,
    address: u64,
) -> Result<(), AllocError>
    ensures { OnOk result (Adds text.old text.new
        (problem_text (contended one.now other.now address))) }
{
    let space = space_name(one.space);
    let one = ShownAgent(one);
    let other = ShownAgent(other);
    let address = Hexadecimal(address);
    write!(
        text,
        "{one} and {other}: address conflict at {space} {address}"
    )
}

/// Appends the description of a function that isn't reached by its BDF.
fn push_not_reached_by_bdf(
    text: &mut String,
    path: &Path,
    at: Bdf,
    instead: &Option<Path>,
) -> Result<(), AllocError>
    ensures { OnOk result (Adds text.old text.new
        (problem_text (not_found path.now (bus_address_of at) instead.now))) }
{
    let path = ShownPath(path);
    let number = Numbers {
        bus: at.bus,
        device: at.device,
        function: at.function,
    };
    let reached = Reached(instead);
    write!(
        text,
        "{path}: a configuration cycle to {number} reaches {reached}"
    )
}

/// Appends the description of a problem.
fn push_description(text: &mut String, problem: &Problem) -> Result<(), AllocError>
    ensures { OnOk result (Adds text.old text.new (problem_text (problem_of problem.now))) }
{
    match problem {
        Problem::NotForwarded {
            region,
            bridge,
            address,
        } => push_not_forwarded(text, region, bridge, *address),
        Problem::Contended {
            one,
            other,
            address,
        } => push_contended(text, one, other, *address),
        Problem::NotFound {
            path,
            address,
            instead,
        } => push_not_reached_by_bdf(text, path, *address, instead),
    }
}

/// Appends the line of a problem.
pub fn push_problem_line(text: &mut String, problem: &Problem) -> Result<(), AllocError>
    ensures { OnOk result (Adds text.old text.new
        (ended (audit_line (problem_text (problem_of problem.now))))) }
{
    text.push_str("audit: ")?;
    push_description(text, problem)?;
    text.push('\n')
}

/// Appends the lines of all problems.
pub(crate) fn push_problem_lines(text: &mut String, problems: &[Problem]) -> Result<(), AllocError>
    ensures { OnOk result (Adds text.old text.new (problem_lines problems.now)) }
{
    for problem in problems {
        push_problem_line(text, problem)?;
    }
    Ok(())
}

/// Displays the number of problems, or `ok` if there are none.
#[derive(Clone, Copy)]
pub(crate) struct ProblemCount(pub(crate) usize);

impl fmt::Display for ProblemCount {
    ghost output = { λ n. Some (total_text n.0) };

    fn fmt<W: fmt::Write>(&self, f: &mut fmt::Formatter<W>) -> fmt::Result {
        let problems = Counted {
            count: self.0,
            one: " problem",
            more: " problems",
        };
        match self.0 {
            0 => write!(f, "ok"),
            _ => write!(f, "{problems}"),
        }
    }
}

/// Appends the line that counts the problems.
pub(crate) fn push_problem_count_line(text: &mut String, count: usize) -> Result<(), AllocError>
    ensures { OnOk result (Adds text.old text.new (ended (audit_line (total_text count)))) }
{
    writeln!(text, "audit: {}", ProblemCount(count))
}
