//! Execution of the program's commands.
ghost use Rattle.std.specs.{Prelude.{◌≡◌, ◌≢◌, ◌+◌, ◌-◌, ◌^◌, ◌<◌, ◌⊎◌, OnOk, OnErr, IfErr}, Io.KnownBytes.Appends};
ghost use Rattle.streams.specs.Ends.{AppendsPart};
ghost use Rattle.lines.specs.Runs.{ends};
ghost use Rattle.simulation.specs.{Choices.{form_of, layout_of, warning_level_of, Does, IsUntold, IsTelling, IsLacking, IsOfChoice}, Faults.{read_faults, write_faults, IsToldLast}};

use crate::checking::check;
use crate::demonstration::demo;
use crate::listing::list;
use crate::running::run_script_with_stats;
use crate::serving::run_firmware_session;
use board_fit::WarningLevel;
use board_told::Fault;
use command_line::Choice;
use diagnostics::MessageLayout;
use lines::RunStats;
use session::{Question, ReportForm};
use std::alloc::Global;
use streams::{Reader, Writer, write_and_flush};

/// Returns the format of a report: JSON if `json`, otherwise lines.
fn form_of(json: bool) -> ReportForm
    ensures { result ≡ form_of json }
{
    if json {
        ReportForm::Json
    } else {
        ReportForm::Lines
    }
}

/// Returns the layout of a check's messages: single lines if `plain`, otherwise lines with
/// excerpts.
fn layout_of(plain: bool) -> MessageLayout
    ensures { result ≡ layout_of plain }
{
    if plain {
        MessageLayout::Plain
    } else {
        MessageLayout::WithExcerpts
    }
}

/// Returns which warnings a check reports: all of them if `all`, otherwise only the likely ones.
fn warning_level_of(all: bool) -> WarningLevel
    ensures { result ≡ warning_level_of all }
{
    if all {
        WarningLevel::All
    } else {
        WarningLevel::Likely
    }
}

/// Writes a text and flushes once.
pub(crate) fn print_and_flush<W: Writer>(text: &str, writer: &mut W) -> Result<(), Fault>
    requires { W.failures writer.old < 2 ^ 64 - 1 }
    ensures ok { OnOk result (Appends (W.written writer.old) (W.written writer.new) text.now) }
    ensures flushed { OnOk result (W.flushed writer.new ≡ W.written writer.new) }
    ensures stopped { OnErr result
        (AppendsPart (W.written writer.old) (W.written writer.new) text.now) }
    ensures fault { IfErr result (λ f. f ≡ Fault.Write) }
    ensures failures { W.failures writer.new ≡ W.failures writer.old + write_faults result }
{
    if write_and_flush(writer, text.as_bytes()).is_err() {
        return Err(Fault::Write);
    }
    Ok(())
}

/// Executes a command. A script is read from `reader`, and `board` is the content of the board
/// file, if the command needs one. `seen` receives the statistics about the lines, once all lines
/// have run and all output was written.
pub fn perform<R: Reader, W: Writer>(
    alloc: Global,
    choice: &Choice<'_>,
    board: &[u8],
    seen: &mut RunStats,
    reader: &mut R,
    writer: &mut W,
) -> Result<(), Fault>
    requires reader_has_room { R.failures reader.old < 2 ^ 64 - 1 }
    requires writer_has_room { W.failures writer.old < 2 ^ 64 - 1 }

    // What was written: the help text, the report of the board file, the text of its check, or the
    // output of all lines.
    ensures does { Does choice.now seen.new board.now (ends (R.rest reader.old) (R.rest reader.new)
        (W.written writer.old) (W.written writer.new) (W.flushed writer.new)) result }

    // `seen` changes only if all output was written, and only if the command runs a script or
    // firmware.
    ensures unseen { IfErr result (λ f. ¬ IsToldLast f → seen.new ≡ seen.old) }
    ensures untold { IsUntold choice.now → seen.new ≡ seen.old }

    // Output may precede only some faults: a failed read or write, a refusal that a check reports,
    // a fault that is reported at the end, and exhausted memory once lines have run.
    ensures unread { IfErr result (λ f.
        f ≢ Fault.Read → f ≢ Fault.Write → ¬ IsToldLast f
        → ¬ IsLacking choice.now f → reader.new ≡ reader.old) }
    ensures nothing { IfErr result (λ f.
        f ≢ Fault.Read → f ≢ Fault.Write → ¬ IsToldLast f
        → ¬ IsTelling choice.now f → ¬ IsLacking choice.now f
        → writer.new ≡ writer.old) }

    // If a question or a handover exhausted memory once lines had run, the output of the lines was
    // flushed.
    ensures lacking_flushed { IfErr result (λ f. IsLacking choice.now f →
        (W.flushed writer.new ≡ W.written writer.new) ⊎ (writer.new ≡ writer.old)) }

    ensures faults { IfErr result (IsOfChoice choice.now) }

    // A read or write fault is returned exactly if the reader or the writer failed during the call.
    ensures reads { R.failures reader.new ≡ R.failures reader.old + read_faults result }
    ensures writes { W.failures writer.new ≡ W.failures writer.old + write_faults result }
{
    match choice {
        Choice::Help(text) => print_and_flush(text.as_str(), writer),
        Choice::Demo => demo(alloc, reader, writer),
        Choice::List { json, .. } => list(alloc, board, form_of(*json), writer),
        Choice::Check { path, all, plain } => check(
            alloc,
            layout_of(*plain),
            warning_level_of(*all),
            path,
            board,
            writer,
        ),
        Choice::Run { strict, .. } => run_script_with_stats(
            alloc, board, *strict, seen, reader, writer,
        ),
        Choice::Firmware { strict, .. } => run_firmware_session(
            alloc, board, None, *strict, seen, reader, writer,
        ),
        Choice::Report {
            report,
            json,
            strict,
            ..
        } => {
            let (report, form) = (*report, form_of(*json));
            let question = Question { report, form };
            run_firmware_session(alloc, board, Some(question), *strict, seen, reader, writer)
        }
    }
}
