//! The `firmware`, `audit` and `ready` commands: a session on the board of a board file, and the
//! report after its lines.
ghost use Rattle.std.specs.{Prelude.{◌≡◌, ◌+◌, ◌-◌, ◌^◌, ◌<◌, ◌⊎◌, is_some, IfOk, IfErr, IsErrOf, IsTrue, OnOk}, Io.KnownBytes.Appends};
ghost use Rattle.model_lines.specs.Sessions.{session_functions};
ghost use Rattle.streams.specs.Ends.{AppendsPart};
ghost use Rattle.lines.specs.Runs.{ends};
ghost use Rattle.bus_scan.specs.declared.fault.Fault.TheVariants.{Memory};
ghost use Rattle.session.specs.Files.{Refuses};
ghost use Rattle.simulation.specs.{Faults.{read_faults, write_faults, OnFile, IsToldLast, IsOfFile}, Serving.{told, counted, fault_of_outcome, IsOfAnswer, IsOfServing, Serves}};

use crate::choice::print_and_flush;
use board_told::Fault;
use lines::{RunStats, run_watched};
use session::{Apertures, Board, Question, Report, Session, SessionLines};
use std::alloc::Global;
use streams::{Reader, Writer};

/// Writes the answer to a question about the board of a session, given the host's apertures, and
/// flushes once. Writes nothing if there is no question. Returns the number of reported problems
/// and readiness issues.
fn print_and_count_findings<W: Writer>(
    alloc: Global,
    question: Option<Question>,
    session: &mut Session,
    apertures: &Apertures,
    writer: &mut W,
) -> Result<usize, Fault>
    requires { W.failures writer.old < 2 ^ 64 - 1 }
    ensures text { OnOk result (Appends (W.written writer.old) (W.written writer.new)
        (told question apertures.now (session_functions session.old))) }
    ensures count { IfOk result (λ n. n
        ≡ counted question apertures.now (session_functions session.old)) }
    ensures flushed { OnOk result (W.flushed writer.old ≡ W.written writer.old
        → W.flushed writer.new ≡ W.written writer.new) }
    ensures stopped { IsErrOf result Fault.Write
        → AppendsPart (W.written writer.old) (W.written writer.new)
        (told question apertures.now (session_functions session.old)) }
    ensures lacking { IsErrOf result (Fault.SetUp Memory) → writer.new ≡ writer.old }
    ensures faults { IfErr result IsOfAnswer }
    ensures asked { IfErr result (λ _. IsTrue (is_some question)) }
    ensures failures { W.failures writer.new ≡ W.failures writer.old + write_faults result }
{
    let Some(question) = question else {
        return Ok(0);
    };
    let Ok(answer) = session.ask(alloc, question, apertures) else {
        return Err(Fault::SetUp(bus_scan::Fault::Memory));
    };
    print_and_flush(answer.text.as_str(), writer)?;
    Ok(answer.count)
}

/// Returns the fault to report once all output was written, if there is one. It depends on whether
/// a line was refused, and on how many problems and readiness issues were reported.
fn fault_of_outcome(
    question: Option<Question>,
    strict: bool,
    refused: bool,
    count: usize,
) -> Option<Fault>
    ensures { result ≡ fault_of_outcome question strict refused count }
{
    if strict && refused {
        return Some(Fault::RefusedLine);
    }
    match question?.report {
        Report::Audit if strict && count > 0 => Some(Fault::NotInOrder),
        Report::Ready if count > 0 => Some(Fault::NotReady),
        _ => None,
    }
}

/// Runs a session on the board that a board file declares, starting at reset: the built-in set-up
/// doesn't run. The lines are firmware's. Among them, `host audit` reports all problems in the
/// current registers, and `host ready` also reports all readiness issues. `host guests` assigns the
/// board's functions to the guests of the file, unless its audit reports a problem or a BAR of a
/// guest is disabled. From then on, the lines are a script's, and the replies to a guest depend
/// only on its own functions, each an isolated register file, on its own lines, and on the moves
/// that involve it.
///
/// If there is a question, its answer is written after the output of the lines: a line for each
/// problem and each readiness issue and a last line with their number, or a JSON object on one
/// line. The answer is about the final registers and the apertures of the file. After a handover,
/// it is about the guests' registers.
///
/// Fails if the file is refused (1xx), or memory is exhausted while the file is read (199).
/// In these cases nothing is read or written. Afterwards, a read (501), or a write or a flush
/// (502), can fail. If memory is exhausted by a line, by the handover or by the answer (299), the
/// output of the earlier lines was written and flushed, and nothing was written after it. If
/// `strict`, a refused line is a fault (209), and otherwise a problem in an audit (207). A board
/// that isn't ready is always a fault (208). These faults are returned once all output was written
/// and flushed. `seen` receives the statistics about the lines as soon as that is done, with or
/// without a fault.
pub fn run_firmware_session<R: Reader, W: Writer>(
    alloc: Global,
    board: &[u8],
    question: Option<Question>,
    strict: bool,
    seen: &mut RunStats,
    reader: &mut R,
    writer: &mut W,
) -> Result<(), Fault>
    requires reader_has_room { R.failures reader.old < 2 ^ 64 - 1 }
    requires writer_has_room { W.failures writer.old < 2 ^ 64 - 1 }

    // The output of the lines on the board of the file, and then the answer to the question about
    // the registers after them. The result says whether lines were refused, or problems or
    // readiness issues found.
    ensures serves { Serves question strict seen.new board.now
        (ends (R.rest reader.old) (R.rest reader.new)
        (W.written writer.old) (W.written writer.new) (W.flushed writer.new)) result }

    // `seen` changes only if all output was written.
    ensures unseen { IfErr result (λ f. ¬ IsToldLast f → seen.new ≡ seen.old) }

    ensures file { IfErr result (OnFile (Refuses board.now)) }
    ensures faults { IfErr result (IsOfServing question strict) }
    ensures nothing { IfErr result
        (λ f. IsOfFile f → (reader.new ≡ reader.old) × (writer.new ≡ writer.old)) }

    // If memory was exhausted by a line or by the answer, the output of the earlier lines was
    // flushed, if there was any.
    ensures lacking_flushed { IsErrOf result (Fault.SetUp Memory) →
        (W.flushed writer.new ≡ W.written writer.new) ⊎ (writer.new ≡ writer.old) }

    // A read or write fault is returned exactly if the reader or the writer failed during the call.
    ensures reads { R.failures reader.new ≡ R.failures reader.old + read_faults result }
    ensures writes { W.failures writer.new ≡ W.failures writer.old + write_faults result }
{
    let driven = Board::parse(alloc, board)?;
    let apertures = driven.apertures();
    let session = Session::from_board(alloc, driven);
    let (mut session, lines_seen) = run_watched::<SessionLines, Session, R, W>(
        session, reader, writer,
    )?;
    let count = print_and_count_findings(alloc, question, &mut session, &apertures, writer)?;
    let refused = lines_seen.refused;
    *seen = lines_seen;
    match fault_of_outcome(question, strict, refused, count) {
        Some(fault) => Err(fault),
        None => Ok(()),
    }
}
