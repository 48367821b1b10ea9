//! Execution of the lines in a piece of a script.
ghost use Rattle.std.specs.{Prelude.{◌≡◌, ◌≤◌, ◌<◌, ◌+◌, ◌-◌, ◌^◌, ◌++◌, ◌∷◌, [], length, OnOk, OnErr, IfOk, IsErrOf, MatchOption, IsTrue, IsFalse, ◌⊎◌, option_map, string_bytes}, Io.KnownBytes.{Appends, Keeps}};
ghost use Rattle.streams.specs.Ends.{failures_of, AppendsPart};
ghost use Rattle.model_guests.specs.{Text.{Text, lines}, LineRuns.{output, after_lines, HasNoEnd, IsStopped}};
ghost use Rattle.lines.specs.{Faults.stop_failures_of, Pieces.{IsBefore, rest_of, with_more, Reaches, StopsWithin, LacksWithin}};

use crate::answers::Answers;
use crate::pending::Pending;
use crate::replies::LineText;
use crate::words::find_line_feed;
use streams::{Failed, Writer, write_all};

/// Returns the first line that ends with a line feed, without the line feed, and the text after it.
/// Inlined into the loop over lines.
#[inline(always)]
fn split_complete_line(text: &[u8]) -> Option<(&[u8], &[u8])>
    ensures line { MatchOption result (HasNoEnd text.now) (λ p.
        HasNoEnd p.0.now × (text.now ≡ p.0.now ++ 10 ∷ p.1.now)) }
{
    let end = find_line_feed(text)?;
    Some((&text[..end], &text[end + 1..]))
}

/// The state after the complete lines of a piece.
#[derive(Clone, Copy)]
struct Left {
    /// The number of bytes after the last line feed.
    length: usize,
    /// Whether these bytes belong to a long line whose earlier bytes were skipped.
    long: bool,
    /// Whether any line had output.
    wrote: bool,
}

/// The reason why a run stopped within a piece.
#[derive(Clone, Copy)]
pub(crate) enum Stop {
    /// A write or a flush failed.
    Failed,
    /// Memory was exhausted while a line was executed.
    Memory,
}

/// Writes the output of a line. Inlined into the loop over lines, which saves a call for each line.
#[inline(always)]
fn write_answer<W: Writer>(writer: &mut W, text: &[u8], more: &Option<String>) -> Result<(), Failed>
    requires { W.failures writer.old < 2 ^ 64 - 1 }
    ensures ok { OnOk result (Appends (W.written writer.old) (W.written writer.new)
        (with_more text.now (option_map string_bytes more.now))) }
    ensures err { OnErr result (AppendsPart (W.written writer.old) (W.written writer.new)
        (with_more text.now (option_map string_bytes more.now))) }
    ensures failures { W.failures writer.new ≡ W.failures writer.old + failures_of result }
{
    write_all(writer, text)?;
    match more {
        Some(more) => write_all(writer, more.as_bytes()),
        None => Ok(()),
    }
}

/// Executes a line, writes its output, and returns whether there was any.
#[inline(always)]
fn run_line_and_write<L, S: Answers<L>, W: Writer>(
    server: &mut S,
    line: &[u8],
    long: bool,
    writer: &mut W,
) -> Result<bool, Stop>
    requires { W.failures writer.old < 2 ^ 64 - 1 }
    ensures output { OnOk result ((before : Text) → IsBefore long before →
        Appends (W.written writer.old) (W.written writer.new) (S.protocol.writes server.old (before ++ line.now))) }
    ensures after { OnOk result ((before : Text) → IsBefore long before →
        server.new ≡ S.protocol.next server.old (before ++ line.now)) }
    ensures silent { IfOk result (λ wrote. IsFalse wrote → writer.new ≡ writer.old) }
    ensures failed { IsErrOf result Stop.Failed → (before : Text) → IsBefore long before →
        AppendsPart (W.written writer.old) (W.written writer.new) (S.protocol.writes server.old (before ++ line.now)) }
    ensures failed_after { IsErrOf result Stop.Failed → (before : Text) →
        IsBefore long before →
        server.new ≡ S.protocol.next server.old (before ++ line.now) }
    ensures lacking { IsErrOf result Stop.Memory →
        (server.new ≡ server.old) × (writer.new ≡ writer.old) }
    ensures memory { IsErrOf result Stop.Memory → S.TakesMemory }
    ensures failures { W.failures writer.new ≡ W.failures writer.old + stop_failures_of result }
{
    let mut reply = LineText::new();
    let Ok(answer) = server.answer(line, long, &mut reply) else {
        return Err(Stop::Memory);
    };
    let more = answer.more;
    if reply.as_slice().is_empty() && more.is_none() {
        return Ok(false);
    }
    if write_answer(writer, reply.as_slice(), &more).is_err() {
        return Err(Stop::Failed);
    }
    Ok(true)
}

/// Flushes the writer if anything was written.
fn flush_if<W: Writer>(writer: &mut W, wrote: bool) -> Result<(), Failed>
    requires { W.failures writer.old < 2 ^ 64 - 1 }
    ensures bytes { Keeps (W.written writer.old) (W.written writer.new) }
    ensures wrote { OnErr result (IsTrue wrote) }
    ensures flushed { OnOk result (IsTrue wrote → W.flushed writer.new ≡ W.written writer.new) }
    ensures kept { IsFalse wrote → writer.new ≡ writer.old }
    ensures failures { W.failures writer.new ≡ W.failures writer.old + failures_of result }
{
    if wrote {
        return writer.flush();
    }
    Ok(())
}

/// Flushes earlier output after memory was exhausted. Returns the reason for stopping: `Memory`, or
/// `Failed` if the flush failed.
fn flush_on_memory_stop<W: Writer>(writer: &mut W, wrote: bool) -> Stop
    requires { W.failures writer.old < 2 ^ 64 - 1 }
    ensures bytes { Keeps (W.written writer.old) (W.written writer.new) }
    ensures wrote { result ≡ Stop.Failed → IsTrue wrote }
    ensures flushed { result ≡ Stop.Memory → IsTrue wrote →
        W.flushed writer.new ≡ W.written writer.new }
    ensures kept { IsFalse wrote → writer.new ≡ writer.old }
    ensures failures { W.failures writer.new
        ≡ W.failures writer.old + stop_failures_of {T = Unit {0}} (Err result) }
{
    if flush_if(writer, wrote).is_err() {
        return Stop::Failed;
    }
    Stop::Memory
}

/// Executes the lines of a piece that end with a line feed, and writes the output of each line
/// before looking at the next one. If `long` is set, the first line is a long line whose earlier
/// bytes were skipped. If memory is exhausted, flushes the output of the earlier lines.
fn run_complete_lines<L, S: Answers<L>, W: Writer>(
    server: &mut S,
    text: &[u8],
    long: bool,
    writer: &mut W,
) -> Result<Left, Stop>
    requires { W.failures writer.old < 2 ^ 64 - 1 }
    ensures length { IfOk result (λ left. left.length ≤ length text.now) }
    ensures rest { IfOk result (λ left. HasNoEnd (rest_of left.length text.now)) }
    ensures runs { IfOk result (λ left.
        (before : Text) → HasNoEnd before → IsBefore long before →
        (run : Reaches S.protocol server.old (before ++ text.now) (rest_of left.length text.now) left.long
        (W.written writer.old) (W.written writer.new) server.new)
        × (IsTrue left.wrote → 0 < length run.whole)) }
    ensures silent { IfOk result (λ left. IsFalse left.wrote → writer.new ≡ writer.old) }
    ensures stops { IsErrOf result Stop.Failed → (before : Text) → HasNoEnd before →
        IsBefore long before →
        StopsWithin S.protocol server.old (before ++ text.now)
        (W.written writer.old) (W.written writer.new) server.new }
    ensures lacks { IsErrOf result Stop.Memory → (before : Text) → HasNoEnd before →
        IsBefore long before →
        LacksWithin S.protocol server.old (before ++ text.now)
        (W.written writer.old) (W.written writer.new) server.new }
    ensures memory { IsErrOf result Stop.Memory → S.TakesMemory }
    ensures flushed { IsErrOf result Stop.Memory →
        (W.flushed writer.new ≡ W.written writer.new) ⊎ (writer.new ≡ writer.old) }
    ensures failures { W.failures writer.new ≡ W.failures writer.old + stop_failures_of result }
{
    let mut rest = text;
    let mut long = long;
    let mut wrote = false;
    while let Some((line, after)) = split_complete_line(rest) {
        let answered = match run_line_and_write(server, line, long, writer) {
            Ok(answered) => answered,
            Err(Stop::Failed) => return Err(Stop::Failed),
            Err(Stop::Memory) => return Err(flush_on_memory_stop(writer, wrote)),
        };
        wrote = wrote || answered;
        long = false;
        rest = after;
    }
    Ok(Left {
        length: rest.len(),
        long,
        wrote,
    })
}

/// Executes the pending lines that end with a line feed, and keeps the rest. Flushes the output, so
/// that it can be read before more of the script is requested.
pub(crate) fn run_complete_and_flush<L, S: Answers<L>, W: Writer>(
    server: &mut S,
    pending: &mut Pending,
    writer: &mut W,
) -> Result<(), Stop>
    requires { W.failures writer.old < 2 ^ 64 - 1 }
    ensures few { OnOk result (length pending.new.text ≤ 200) }
    ensures rest { OnOk result (HasNoEnd pending.new.text) }
    ensures runs { OnOk result ((before : Text) → HasNoEnd before →
        IsBefore pending.old.long before →
        Reaches S.protocol server.old (before ++ pending.old.text) pending.new.text pending.new.long
        (W.written writer.old) (W.written writer.new) server.new) }
    ensures stops { IsErrOf result Stop.Failed → (before : Text) → HasNoEnd before →
        IsBefore pending.old.long before →
        StopsWithin S.protocol server.old (before ++ pending.old.text)
        (W.written writer.old) (W.written writer.new) server.new }
    ensures lacks { IsErrOf result Stop.Memory → (before : Text) → HasNoEnd before →
        IsBefore pending.old.long before →
        LacksWithin S.protocol server.old (before ++ pending.old.text)
        (W.written writer.old) (W.written writer.new) server.new }
    ensures memory { IsErrOf result Stop.Memory → S.TakesMemory }
    ensures flushed { OnOk result ((W.flushed writer.new ≡ W.written writer.new)
        ⊎ (writer.new ≡ writer.old)) }
    ensures lacking_flushed { IsErrOf result Stop.Memory →
        (W.flushed writer.new ≡ W.written writer.new) ⊎ (writer.new ≡ writer.old) }
    ensures failures { W.failures writer.new ≡ W.failures writer.old + stop_failures_of result }
{
    let left = run_complete_lines(server, pending.text(), pending.is_long(), writer)?;
    if flush_if(writer, left.wrote).is_err() {
        return Err(Stop::Failed);
    }
    pending.keep_last_or_skip(left.length, left.long);
    Ok(())
}

/// Returns whether a last line without a line feed is left at the end of a script.
fn has_unfinished_line(text: &[u8], long: bool) -> bool
    ensures some { IsTrue result → (before : Text) → IsBefore long before →
        0 < length (before ++ text.now) }
    ensures none { IsFalse result → (before : Text) → IsBefore long before →
        before ++ text.now ≡ [] }
{
    if long {
        return true;
    }
    !text.is_empty()
}

/// Executes the text left at the end of a script as its last line, if there is any.
fn answer_last_if_any<L, S: Answers<L>, W: Writer>(
    server: &mut S,
    text: &[u8],
    long: bool,
    writer: &mut W,
) -> Result<(), Stop>
    requires { W.failures writer.old < 2 ^ 64 - 1 }
    ensures output { OnOk result ((before : Text) → IsBefore long before →
        HasNoEnd (before ++ text.now) →
        Appends (W.written writer.old) (W.written writer.new)
        (output S.protocol server.old (lines (before ++ text.now)))) }
    ensures after { OnOk result ((before : Text) → IsBefore long before →
        HasNoEnd (before ++ text.now) →
        server.new ≡ after_lines S.protocol server.old (lines (before ++ text.now))) }
    ensures stopped { IsErrOf result Stop.Failed → (before : Text) → IsBefore long before →
        HasNoEnd (before ++ text.now) →
        IsStopped S.protocol server.old (lines (before ++ text.now))
        (W.written writer.old) (W.written writer.new) server.new }
    ensures lacking { IsErrOf result Stop.Memory →
        (server.new ≡ server.old) × (writer.new ≡ writer.old) }
    ensures some { IsErrOf result Stop.Memory → (before : Text) → IsBefore long before →
        0 < length (before ++ text.now) }
    ensures memory { IsErrOf result Stop.Memory → S.TakesMemory }
    ensures failures { W.failures writer.new ≡ W.failures writer.old + stop_failures_of result }
{
    if !has_unfinished_line(text, long) {
        return Ok(());
    }
    run_line_and_write(server, text, long, writer)?;
    Ok(())
}

/// Executes the text left at the end of a script as its last line, if there is any, and flushes the
/// output.
pub(crate) fn run_last_and_flush<L, S: Answers<L>, W: Writer>(
    server: &mut S,
    pending: &Pending,
    writer: &mut W,
) -> Result<(), Stop>
    requires { W.failures writer.old < 2 ^ 64 - 1 }
    ensures output { OnOk result ((before : Text) → IsBefore pending.now.long before →
        HasNoEnd (before ++ pending.now.text) →
        Appends (W.written writer.old) (W.written writer.new)
        (output S.protocol server.old (lines (before ++ pending.now.text)))) }
    ensures after { OnOk result ((before : Text) → IsBefore pending.now.long before →
        HasNoEnd (before ++ pending.now.text) →
        server.new ≡ after_lines S.protocol server.old (lines (before ++ pending.now.text))) }
    ensures flushed { OnOk result (W.flushed writer.new ≡ W.written writer.new) }
    ensures stopped { IsErrOf result Stop.Failed → (before : Text) →
        IsBefore pending.now.long before →
        HasNoEnd (before ++ pending.now.text) →
        IsStopped S.protocol server.old (lines (before ++ pending.now.text))
        (W.written writer.old) (W.written writer.new) server.new }
    ensures lacking { IsErrOf result Stop.Memory →
        (server.new ≡ server.old) × (writer.new ≡ writer.old) }
    ensures some { IsErrOf result Stop.Memory → (before : Text) →
        IsBefore pending.now.long before →
        0 < length (before ++ pending.now.text) }
    ensures memory { IsErrOf result Stop.Memory → S.TakesMemory }
    ensures failures { W.failures writer.new ≡ W.failures writer.old + stop_failures_of result }
{
    answer_last_if_any(server, pending.text(), pending.is_long(), writer)?;
    if writer.flush().is_err() {
        return Err(Stop::Failed);
    }
    Ok(())
}
