//! The bytes that a run has read but not processed yet.
ghost use Rattle.std.specs.{Prelude.{◌≡◌, ◌≤◌, ◌<◌, ◌+◌, ◌-◌, ◌^◌, ◌++◌, [], true, false, take, length, IfOk, OnErr, IsTrue, IsFalse}, Io.KnownBytes.{Consumes, IsAtEnd, Keeps}};
ghost use Rattle.streams.specs.Ends.{failures_of};
ghost use Rattle.model_guests.specs.{Text.Text, LineRuns.HasNoEnd};
ghost use Rattle.lines.specs.Pieces.{IsBefore, rest_of};

use crate::line::LONGEST_LINE;
use std::marker::Model;
use streams::{Failed, Reader};

/// The size of the read buffer in bytes.
const SIZE: usize = 65536;

/// The bytes that were read but not processed yet. If `long` is set, they continue a line of more
/// than 200 bytes whose earlier bytes were skipped.
#[derive(Drop)]
pub(crate) struct Pending {
    bytes: [u8; SIZE],
    length: usize,
    long: bool,
}

impl Model for Pending {
    ghost use Rattle.std.specs.Prelude.{◌≤◌, take};
    ghost use Rattle.lines.specs.Pieces.{Pending as PendingText};

    ghost Value = { PendingText };

    ghost view = { λ h. record { text = take h.length h.bytes; long = h.long } };

    ghost invariant = { λ h. h.length ≤ 65536 };
}

/// Reads some bytes into `buffer` from the index `start` on, and returns their number.
fn read_into_buffer_at<R: Reader>(
    reader: &mut R,
    buffer: &mut [u8],
    start: usize,
) -> Result<usize, Failed>
    requires start { start < length buffer.old }
    requires room { R.failures reader.old < 2 ^ 64 - 1 }
    ensures bound { IfOk result (λ n. start + n ≤ length buffer.new) }
    ensures length { length buffer.new ≡ length buffer.old }
    ensures bytes { IfOk result (λ n.
        (bytes : Text) × Consumes (R.rest reader.old) (R.rest reader.new) bytes
        × (length bytes ≡ n)
        × (take (start + n) buffer.new ≡ take start buffer.old ++ bytes)) }
    ensures kept { OnErr result (Keeps (R.rest reader.old) (R.rest reader.new)) }
    ensures end { IfOk result (λ n. n ≡ 0 → IsAtEnd (R.rest reader.new)) }
    ensures failures { R.failures reader.new ≡ R.failures reader.old + failures_of result }
    ensures falls { IfOk result (λ n.
        0 < n → R.reads_left reader.new < R.reads_left reader.old) }
{
    reader.read(&mut buffer[start..])
}

impl Pending {
    pub(crate) fn new() -> Pending
        ensures { result ≡ record { text = []; long = false } }
    {
        Pending {
            bytes: [0; SIZE],
            length: 0,
            long: false,
        }
    }

    /// Returns the pending bytes.
    pub(crate) fn text(&self) -> &[u8]
        ensures { result.now ≡ self.now.text }
    {
        &self.bytes[..self.length]
    }

    /// Returns whether earlier bytes of the same line were skipped.
    pub(crate) fn is_long(&self) -> bool
        ensures { result ≡ self.now.long }
    {
        self.long
    }

    /// Reads more bytes behind the pending ones. Returns whether any were read, which is false only
    /// at the end of the script.
    pub(crate) fn read_more<R: Reader>(&mut self, reader: &mut R) -> Result<bool, Failed>
        requires few { length self.old.text ≤ 200 }
        requires room { R.failures reader.old < 2 ^ 64 - 1 }
        ensures bytes { IfOk result (λ _.
            (bytes : Text) × Consumes (R.rest reader.old) (R.rest reader.new) bytes
            × (self.new ≡ record self.old { text = self.old.text ++ bytes })) }
        ensures end { IfOk result (λ more.
            IsFalse more → IsAtEnd (R.rest reader.new) × (self.new ≡ self.old)) }
        ensures kept { OnErr result (Keeps (R.rest reader.old) (R.rest reader.new)) }
        ensures failures { R.failures reader.new ≡ R.failures reader.old + failures_of result }
        ensures falls { IfOk result (λ more.
            IsTrue more → R.reads_left reader.new < R.reads_left reader.old) }
    {
        let n = read_into_buffer_at(reader, &mut self.bytes, self.length)?;
        self.length += n;
        Ok(n > 0)
    }

    /// Skips all pending bytes.
    fn skip_line_head(&mut self)
        ensures { self.new ≡ record { text = []; long = true } }
    {
        self.length = 0;
        self.long = true;
    }

    /// Keeps only the last `count` bytes.
    fn keep_last(&mut self, count: usize)
        requires { count ≤ length self.old.text }
        ensures { self.new ≡ record { text = rest_of count self.old.text; long = false } }
    {
        self.bytes.copy_within(self.length - count..self.length, 0);
        self.length = count;
        self.long = false;
    }

    /// Keeps only the last `count` bytes, which belong to one line, or skips them if the line is
    /// too long.
    pub(crate) fn keep_last_or_skip(&mut self, count: usize, long: bool)
        requires { count ≤ length self.old.text }
        ensures text { (before : Text) → IsBefore long before →
            (passed : Text) × IsBefore self.new.long passed
            × (passed ++ self.new.text ≡ before ++ rest_of count self.old.text) }
        ensures rest { HasNoEnd (rest_of count self.old.text) → HasNoEnd self.new.text }
        ensures few { length self.new.text ≤ 200 }
    {
        if long {
            self.skip_line_head();
        } else if count > LONGEST_LINE {
            self.skip_line_head();
        } else {
            self.keep_last(count);
        }
    }
}
