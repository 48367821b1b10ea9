//! The `check` command: all problems in a board file.
ghost use Rattle.std.specs.Prelude.{◌≡◌, ◌≢◌, ◌+◌, ◌-◌, ◌^◌, ◌<◌, None, OnOk, IfErr, IsErrOf};
ghost use Rattle.simulation.specs.{Faults.{write_faults, open_fault, IsOfList, IsRefusal}, Checking.{IsChecked, IsCheckedInPart}};

use crate::choice::print_and_flush;
use board_fit::WarningLevel;
use board_told::{Fault, check_board_file};
use diagnostics::MessageLayout;
use session::OpenFault;
use std::alloc::Global;
use streams::Writer;

/// Writes the text of [`check_board_file`] about a board file, and flushes once.
///
/// Returns the same result as `list`, except for faults in writing the report.
pub fn check<W: Writer>(
    alloc: Global,
    layout: MessageLayout,
    warned: WarningLevel,
    name: &str,
    board: &[u8],
    writer: &mut W,
) -> Result<(), Fault>
    requires { W.failures writer.old < 2 ^ 64 - 1 }

    // Either the file declares a board that can be set up, or the file or its board is refused and
    // a text was written.
    ensures fits { OnOk result
        (IsChecked board.now None (W.written writer.old) (W.written writer.new)) }
    ensures flushed { OnOk result (W.flushed writer.new ≡ W.written writer.new) }
    ensures told { IfErr result (λ f. IsRefusal f →
        IsChecked board.now (open_fault f) (W.written writer.old) (W.written writer.new)) }
    ensures told_flushed { IfErr result
        (λ f. IsRefusal f → W.flushed writer.new ≡ W.written writer.new) }

    ensures stopped { IsErrOf result Fault.Write →
        IsCheckedInPart (W.written writer.old) (W.written writer.new) }
    ensures faults { IfErr result IsOfList }
    ensures nothing { IfErr result
        (λ f. f ≢ Fault.Write → ¬ IsRefusal f → writer.new ≡ writer.old) }

    // A write fault is returned exactly if the writer failed during the call.
    ensures failures { W.failures writer.new ≡ W.failures writer.old + write_faults result }
{
    let checked = check_board_file(alloc, layout, warned, name, board)?;
    print_and_flush(checked.text.as_str(), writer)?;
    match checked.fault {
        None => Ok(()),
        Some(OpenFault::File(fault)) => Err(Fault::File(fault)),
        Some(OpenFault::SetUp(fault)) => Err(Fault::SetUp(fault)),
    }
}
