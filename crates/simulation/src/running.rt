//! The `run` command: a script on the board of a board file.
ghost use Rattle.std.specs.Prelude.{◌≡◌, ◌&&◌, ◌+◌, ◌-◌, ◌^◌, ◌<◌, IfErr};
ghost use Rattle.lines.specs.Runs.{ends};
ghost use Rattle.simulation.specs.{Faults.{read_faults, write_faults, OnFile, OnSetUp, OnRun, IsToldLast, IsOfBoard, IsOfRun, IsOfRunAs}, Running.{IsRun, RunsAs}};
ghost use Rattle.session.specs.Files.{Refuses, Breaks};

use board_told::Fault;
use lines::{RunStats, run_watched};
use monitor::Monitor;
use script::Script;
use session::set_up_file_and_assign;
use std::alloc::Global;
use streams::{Reader, Writer};

/// Returns whether a run ends with a fault because a line was refused.
fn has_refusal_fault(strict: bool, seen: &RunStats) -> bool
    ensures { result ≡ (strict && seen.now.refused) }
{
    strict && seen.refused
}

/// Runs a script on the board of a board file, as [`whole`] does. If `strict`, a refused line is a
/// fault (209), which is returned once all lines have run and all output was written and flushed.
/// Then `seen` also receives the statistics about the lines.
pub(crate) fn run_script_with_stats<R: Reader, W: Writer>(
    alloc: Global,
    board: &[u8],
    strict: bool,
    seen: &mut RunStats,
    reader: &mut R,
    writer: &mut W,
) -> Result<(), Fault>
    requires reader_has_room { R.failures reader.old < 2 ^ 64 - 1 }
    requires writer_has_room { W.failures writer.old < 2 ^ 64 - 1 }

    // The effect of the script on the board of the file, and whether a line was refused.
    ensures runs { RunsAs strict seen.new board.now (ends (R.rest reader.old) (R.rest reader.new)
        (W.written writer.old) (W.written writer.new) (W.flushed writer.new)) result }

    ensures file { IfErr result (OnFile (Refuses board.now)) }
    ensures placement { IfErr result (OnSetUp (Breaks board.now)) }
    // `seen` changes only if all output was written.
    ensures unseen { IfErr result (λ f. ¬ IsToldLast f → seen.new ≡ seen.old) }

    ensures faults { IfErr result (IsOfRunAs strict) }
    ensures nothing { IfErr result
        (λ f. IsOfBoard f → (reader.new ≡ reader.old) × (writer.new ≡ writer.old)) }

    // A read or write fault is returned exactly if the reader or the writer failed during the call.
    ensures reads { R.failures reader.new ≡ R.failures reader.old + read_faults result }
    ensures writes { W.failures writer.new ≡ W.failures writer.old + write_faults result }
{
    let monitor = set_up_file_and_assign(alloc, board)?;
    let (_, lines_seen) = run_watched::<Script, Monitor, R, W>(monitor, reader, writer)?;
    let refused = has_refusal_fault(strict, &lines_seen);
    *seen = lines_seen;
    if refused {
        return Err(Fault::RefusedLine);
    }
    Ok(())
}

/// Sets up the board that a board file declares, assigns its functions to the guests of the file,
/// and runs a script on them, line by line as it is read.
///
/// The replies to a guest depend only on its own functions, each an isolated register file, on its
/// own lines, and on the moves that involve it.
///
/// Fails if the file is refused (1xx), its board is refused (2xx), or memory is
/// exhausted (199 or 299). In these cases nothing is read or written. Afterwards, only a read
/// (501), or a write or a flush (502), can fail.
pub fn whole<R: Reader, W: Writer>(
    alloc: Global,
    board: &[u8],
    reader: &mut R,
    writer: &mut W,
) -> Result<(), Fault>
    requires reader_has_room { R.failures reader.old < 2 ^ 64 - 1 }
    requires writer_has_room { W.failures writer.old < 2 ^ 64 - 1 }

    // The effect of the script on the board of the file.
    ensures runs { OnRun (IsRun board.now (ends (R.rest reader.old) (R.rest reader.new)
        (W.written writer.old) (W.written writer.new) (W.flushed writer.new))) result }

    ensures file { IfErr result (OnFile (Refuses board.now)) }
    ensures placement { IfErr result (OnSetUp (Breaks board.now)) }
    ensures faults { IfErr result IsOfRun }
    ensures nothing { IfErr result
        (λ f. IsOfBoard f → (reader.new ≡ reader.old) × (writer.new ≡ writer.old)) }

    // A read or write fault is returned exactly if the reader or the writer failed during the call.
    ensures reads { R.failures reader.new ≡ R.failures reader.old + read_faults result }
    ensures writes { W.failures writer.new ≡ W.failures writer.old + write_faults result }
{
    let mut seen = RunStats::new();
    run_script_with_stats(alloc, board, false, &mut seen, reader, writer)
}
