//! Renders readiness issues, and the line that counts them and the problems.
ghost use Rattle.std.specs.Prelude.{OnOk};
ghost use Rattle.lists.specs.Texts.{Adds};
ghost use Rattle.model_findings.specs.{ReadinessIssues.prefetched_by, ReadyText.{issue_text, ready_total, ready_line}};
ghost use Rattle.findings.specs.Findings.{issue_of};
ghost use Rattle.findings_render.specs.Lines.{issue_lines};
ghost use Rattle.model_guests.specs.Text.{ended};

use crate::problem_lines::ProblemCount;
use crate::region_texts::{Hexadecimal, ShownRegion, space_name};
use findings::{LiveBar, ReadinessIssue};
use paths::Path;
use report::{ShownPath, TwoHexDigits};
use std::alloc::AllocError;

/// Appends the description of a BAR that a bridge forwards as prefetchable but isn't.
fn push_prefetched(
    text: &mut String,
    region: &LiveBar,
    bridge: &Path,
    address: u64,
) -> Result<(), AllocError>
    ensures { OnOk result (Adds text.old text.new
        (issue_text (prefetched_by region.now bridge.now address))) }
{
    let region = ShownRegion(region);
    let bridge = ShownPath(bridge);
    let address = Hexadecimal(address);
    write!(
        text,
        "{region}: bridge {bridge} forwards {address} as prefetchable"
    )
}

/// Appends the description of a readiness issue.
fn push_description(text: &mut String, issue: &ReadinessIssue) -> Result<(), AllocError>
    ensures { OnOk result (Adds text.old text.new (issue_text (issue_of issue.now))) }
{
    match issue {
        ReadinessIssue::NotOpen { region } => {
            let space = space_name(region.region.kind.space());
            write!(text, "{}: {space} decode is disabled", ShownRegion(region))
        }
        ReadinessIssue::OutsideApertures { region, address } => {
            write!(text, "{}", ShownRegion(region))?;
            write!(text, ": 0x{address:x} is outside the apertures")
        }
        ReadinessIssue::Prefetched {
            region,
            bridge,
            address,
        } => push_prefetched(text, region, bridge, *address),
        ReadinessIssue::OtherPrimary { path, held, number } => {
            let path = ShownPath(path);
            let held = TwoHexDigits(*held);
            let number = TwoHexDigits(*number);
            write!(
                text,
                "{path}: Primary Bus Number is {held}, but the bridge is on bus {number}"
            )
        }
    }
}

/// Appends the line of a readiness issue.
fn push_issue_line(text: &mut String, issue: &ReadinessIssue) -> Result<(), AllocError>
    ensures { OnOk result (Adds text.old text.new
        (ended (ready_line (issue_text (issue_of issue.now))))) }
{
    text.push_str("ready: ")?;
    push_description(text, issue)?;
    text.push('\n')
}

/// Appends the lines of all readiness issues.
pub(crate) fn push_issue_lines(
    text: &mut String,
    readiness_issues: &[ReadinessIssue],
) -> Result<(), AllocError>
    ensures { OnOk result (Adds text.old text.new (issue_lines readiness_issues.now)) }
{
    for issue in readiness_issues {
        push_issue_line(text, issue)?;
    }
    Ok(())
}

/// Appends the line that counts the problems and the readiness issues.
pub(crate) fn push_ready_total_line(
    text: &mut String,
    problems: usize,
    readiness_issues: usize,
) -> Result<(), AllocError>
    ensures { OnOk result (Adds text.old text.new
        (ended (ready_line (ready_total problems readiness_issues)))) }
{
    let found = ProblemCount(problems);
    match (problems, readiness_issues) {
        (_, 0) => writeln!(text, "ready: {found}"),
        (0, _) => writeln!(text, "ready: {readiness_issues} left to do"),
        _ => writeln!(text, "ready: {found}, {readiness_issues} left to do"),
    }
}
