//! Runs that record whether a line was refused, and why lines were malformed.
ghost use Rattle.std.specs.Prelude.{◌≡◌, ◌+◌, ◌-◌, ◌^◌, ◌<◌, ◌⊎◌, ◌++◌, IsErrOf};
ghost use Rattle.model_guests.specs.Text.{Text};
ghost use Rattle.lines.specs.{Faults.{read_failures_of, write_failures_of}, Pieces.IsBefore, Refusals.{none_seen, with_bad, with_refused, with_line, watched, IsWatched}, Runs.ends};

use crate::answers::{Answer, Answers};
use crate::line::LONGEST_LINE;
use crate::reasons::{line_error_or_empty, starts_with_bom};
use crate::replies::LineText;
use crate::runs::{RunFault, run};
use accesses::Names;
use arrayvec::{ArrayString, ArrayVec};
use std::alloc::AllocError;
use std::marker::Model;
use streams::{Reader, Writer};

/// A refused line that is malformed or begins with a byte order mark.
#[derive(Drop)]
pub struct BadLine {
    /// The number of the line, counted from 1. Contracts see only this field.
    pub line: u64,
    pub reason: ArrayString<128>,
}

impl Model for BadLine {
    ghost use Rattle.std.specs.Prelude.{ℕ};

    ghost Value = { ℕ };

    ghost view = { λ b. b.line };
}

impl Default for BadLine {
    fn default() -> BadLine {
        BadLine {
            line: 0,
            reason: ArrayString::new(),
        }
    }
}

/// Statistics about the lines of a run. The counters wrap around after 2^64 - 1.
#[derive(Drop)]
pub struct RunStats {
    /// Whether any line was refused.
    pub refused: bool,
    /// The number of lines.
    pub lines: u64,
    /// The number of bad lines.
    pub bad: u64,
    /// The first bad lines.
    pub first: ArrayVec<BadLine, 20>,
}

impl RunStats {
    /// Returns the statistics of a run that has read no lines yet.
    pub fn new() -> RunStats
        ensures { result ≡ none_seen }
    {
        RunStats {
            refused: false,
            lines: 0,
            bad: 0,
            first: ArrayVec::new(),
        }
    }

    /// Records a bad line. `guests` are the names of the guests, or `None` for a firmware line.
    fn record_bad_line(&mut self, guests: Option<&Names>, line: &[u8])
        ensures { self.new ≡ with_bad self.old }
    {
        self.bad = self.bad.wrapping_add(1);
        if self.first.is_full() {
            return;
        }
        self.first.push(BadLine {
            line: self.lines,
            reason: line_error_or_empty(guests, line).text,
        });
    }

    /// Records that the current line was refused with `number`. If `long` is set, earlier bytes of
    /// the line were skipped.
    #[inline(never)]
    fn record_refusal(&mut self, guests: Option<&Names>, long: bool, line: &[u8], number: u16)
        ensures { (before : Text) → IsBefore long before →
            self.new ≡ with_refused (before ++ line.now) number self.old }
    {
        self.refused = true;
        if !long && line.len() <= LONGEST_LINE && (number == 401 || starts_with_bom(line)) {
            self.record_bad_line(guests, line);
        }
    }

    /// Records a line, and the number of its refusal if it was refused. If `long` is set, earlier
    /// bytes of the line were skipped. Inlined into the loop over lines, since few lines are
    /// refused.
    #[inline(always)]
    fn record_line(&mut self, guests: Option<&Names>, long: bool, line: &[u8], refused: Option<u16>)
        ensures { (before : Text) → IsBefore long before →
            self.new ≡ with_line (before ++ line.now) refused self.old }
    {
        self.lines = self.lines.wrapping_add(1);
        if let Some(number) = refused {
            self.record_refusal(guests, long, line, number);
        }
    }
}

/// A server, and the statistics about the lines that it answered.
#[derive(Drop)]
pub(crate) struct Counted<S> {
    server: S,
    seen: RunStats,
}

impl<L, S: Answers<L>> Answers<L> for Counted<S> {
    ghost protocol = { watched S.protocol S.refusal };

    ghost refusal = { λ w line. S.refusal w.server line };

    ghost TakesMemory = { S.TakesMemory };

    #[inline(always)]
    fn answer(
        &mut self,
        line: &[u8],
        long: bool,
        text: &mut LineText,
    ) -> Result<Answer, AllocError> {
        let answer = self.server.answer(line, long, text)?;
        self.seen
            .record_line(self.server.guests(), long, line, answer.refused);
        Ok(answer)
    }

    #[inline(always)]
    fn guests(&self) -> Option<&Names> {
        self.server.guests()
    }
}

/// Runs lines as [`run`] does. Returns the server in its final state, and the statistics about the
/// lines.
pub fn run_watched<L, S: Answers<L> + Drop, R: Reader, W: Writer>(
    server: S,
    reader: &mut R,
    writer: &mut W,
) -> Result<(S, RunStats), RunFault>
    requires reader_has_room { R.failures reader.old < 2 ^ 64 - 1 }
    requires writer_has_room { W.failures writer.old < 2 ^ 64 - 1 }
    ensures reads { R.failures reader.new ≡ R.failures reader.old + read_failures_of result }
    ensures writes { W.failures writer.new ≡ W.failures writer.old + write_failures_of result }
    ensures runs { IsWatched S.protocol S.refusal server
        (ends (R.rest reader.old) (R.rest reader.new)
        (W.written writer.old) (W.written writer.new) (W.flushed writer.new)) result }
    ensures lacking_flushed { IsErrOf result RunFault.Memory →
        (W.flushed writer.new ≡ W.written writer.new) ⊎ (writer.new ≡ writer.old) }
    ensures memory { IsErrOf result RunFault.Memory → S.TakesMemory }
{
    let mut watched = Counted {
        server,
        seen: RunStats::new(),
    };
    run::<L, Counted<S>, R, W>(&mut watched, reader, writer)?;
    let Counted { server, seen } = watched;
    Ok((server, seen))
}
