//! The `list` command: the report of a board.
ghost use Rattle.std.specs.Prelude.{◌≡◌, ◌≢◌, ◌+◌, ◌-◌, ◌^◌, ◌<◌, OnOk, IfErr, IsErrOf};
ghost use Rattle.session.specs.Files.{Refuses, Breaks};
ghost use Rattle.simulation.specs.{Faults.{write_faults, OnFile, OnSetUp, IsOfList}, Listing.{IsListed, IsListedInPart}};

use crate::choice::print_and_flush;
use board_told::{Fault, list_board_file};
use session::ReportForm;
use std::alloc::Global;
use streams::Writer;

/// Sets up the board that a board file declares, writes its report in the given format, and flushes
/// once.
///
/// Fails only if the file is refused (1xx), the board is refused (2xx), memory is
/// exhausted (199 or 299), or the output can't be written (`Write`). Only in the last case can part
/// of the report have been written.
pub fn list<W: Writer>(
    alloc: Global,
    board: &[u8],
    form: ReportForm,
    writer: &mut W,
) -> Result<(), Fault>
    requires { W.failures writer.old < 2 ^ 64 - 1 }

    // The file declares a board that can be set up, and only its report was written.
    ensures listed { OnOk result
        (IsListed form board.now (W.written writer.old) (W.written writer.new)) }
    ensures flushed { OnOk result (W.flushed writer.new ≡ W.written writer.new) }

    ensures file { IfErr result (OnFile (Refuses board.now)) }
    ensures placement { IfErr result (OnSetUp (Breaks board.now)) }
    ensures stopped { IsErrOf result Fault.Write →
        IsListedInPart form board.now (W.written writer.old) (W.written writer.new) }
    ensures faults { IfErr result IsOfList }
    ensures nothing { IfErr result (λ f. f ≢ Fault.Write → writer.new ≡ writer.old) }

    // A write fault is returned exactly if the writer failed during the call.
    ensures failures { W.failures writer.new ≡ W.failures writer.old + write_faults result }
{
    let text = list_board_file(alloc, board, form)?;
    print_and_flush(text.as_str(), writer)?;
    Ok(())
}
