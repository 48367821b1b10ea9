//! The report of a refused handover.
ghost use Rattle.std.specs.Prelude.{◌≡◌, OnOk, IfOk, IfSome, IsSome, string_bytes};
ghost use Rattle.lists.specs.Texts.{Adds};
ghost use Rattle.model_lines.specs.Sessions.{closed_text, refused_line, handover_output};
ghost use Rattle.model_guests.specs.Text.{ended};
ghost use Rattle.monitor.specs.Handovers.{number_of, words_of, handoff_fault};
ghost use Rattle.session.specs.Tellings.{cause_text};

use findings::LiveBar;
use findings_render::push_problem_line;
use monitor::HandoverFault;
use report::ShownPath;
use std::alloc::{AllocError, Global};

/// Appends the line for a disabled region.
fn push_disabled_region(text: &mut String, closed: &LiveBar) -> Result<(), AllocError>
    ensures { OnOk result (Adds text.old text.new (ended (closed_text closed.now))) }
{
    let path = ShownPath(&closed.path);
    let index = closed.region.index;
    writeln!(text, "closed: {path} bar{index}")
}

/// Appends the line for the reason of the refusal. Fails if the reason is that memory was
/// exhausted.
fn push_refusal_cause(text: &mut String, fault: &HandoverFault) -> Result<(), AllocError>
    ensures line { OnOk result (IfSome (handoff_fault fault.now) (λ told.
        Adds text.old text.new (ended (cause_text told)))) }
    ensures told { OnOk result (IsSome (handoff_fault fault.now)) }
{
    match fault {
        HandoverFault::NotInOrder(problem) => push_problem_line(text, problem),
        HandoverFault::Closed(closed) => push_disabled_region(text, closed),
        HandoverFault::Memory => Err(AllocError),
    }
}

/// Appends the line with the number and the message of the refusal.
fn push_refusal_line(text: &mut String, fault: &HandoverFault) -> Result<(), AllocError>
    ensures { OnOk result (Adds text.old text.new
        (ended (refused_line (number_of fault.now) (words_of fault.now)))) }
{
    let number = fault.number();
    let words = fault.words();
    writeln!(text, "host: refused {number} {words}")
}

/// Returns the report of a refused handover, unless memory is exhausted.
pub(crate) fn handover_refusal_text(
    alloc: Global,
    fault: &HandoverFault,
) -> Result<String, AllocError>
    ensures text { IfOk result
        (λ t. string_bytes t ≡ handover_output (handoff_fault fault.now)) }
    ensures told { IfOk result (λ _. IsSome (handoff_fault fault.now)) }
{
    let mut text = String::new(alloc);
    push_refusal_cause(&mut text, fault)?;
    push_refusal_line(&mut text, fault)?;
    Ok(text)
}
