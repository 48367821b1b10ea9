//! A buffering writer.
ghost use Rattle.std.specs.{Prelude.{◌≡◌, ◌+◌, ◌-◌, ◌^◌, ◌<◌, [], false, true, length, IfOk, OnOk, OnErr, IsErr, IsTrue}, Io.{WritesAtMost, KnownBytes.{WriteAppends, Keeps, append_known}}};
ghost use Rattle.streams.specs.{Ends.{failures_of, write_failures_of}, Kept.{writer_behind, kept_back, is_stopped, refusals}};

use crate::ends::{Failed, Writer};
use crate::kept::Kept;
use std::alloc::{AllocError, Global};

/// A writer that buffers bytes until it is flushed or the buffer is full, so that small writes
/// don't call the inner writer.
///
/// It never retries a call of the inner writer. After the first failure, every call fails without
/// reaching the inner writer, and the bytes in the buffer are never written. Bytes that are in the
/// buffer when the writer is dropped are lost too.
#[derive(Drop)]
pub struct BufferedWriter<W: Writer + Drop> {
    inner: W,
    kept: Kept,
    /// Whether a call has failed.
    stopped: bool,
    /// The number of calls that failed without reaching `inner`.
    refusals: u64,
}

impl<W: Writer + Drop> BufferedWriter<W> {
    /// Returns a writer with an empty buffer of `capacity` bytes in front of `inner`.
    pub fn with_capacity(alloc: Global, capacity: usize, inner: W) -> Result<Self, AllocError>
        ensures behind { IfOk result (λ w. writer_behind w ≡ inner) }
        ensures kept { IfOk result (λ w. kept_back w ≡ []) }
        ensures goes_on { IfOk result (λ w. is_stopped w ≡ false) }
        ensures refusals { IfOk result (λ w. refusals w ≡ 0) }
    {
        Ok(BufferedWriter {
            inner,
            kept: Kept::with_capacity(alloc, capacity)?,
            stopped: false,
            refusals: 0,
        })
    }

    /// Returns the inner writer.
    pub fn get_ref(&self) -> &W
        ensures { result.now ≡ writer_behind self.now }
    {
        &self.inner
    }

    /// Fails without calling the inner writer, and counts the failure.
    fn stop_and_count_refusal(&mut self) -> Failed
        requires { self.old.refusals < 2 ^ 64 - 1 }
        ensures { self.new
            ≡ record self.old { stopped = true; refusals = self.old.refusals + 1 } }
    {
        self.stopped = true;
        self.refusals += 1;
        Failed
    }

    /// Writes some of the buffered bytes to the inner writer.
    fn flush_part_of_buf(&mut self) -> Result<(), Failed>
        requires room { W.failures self.old.inner < 2 ^ 64 - 1 }
        ensures bytes { Keeps (append_known (W.written self.old.inner) self.old.kept.bytes)
            (append_known (W.written self.new.inner) self.new.kept.bytes) }
        ensures less { OnOk result (length self.new.kept.bytes < length self.old.kept.bytes) }
        ensures same { self.new
            ≡ record self.old { inner = self.new.inner; kept = self.new.kept } }
        ensures failures { W.failures self.new.inner
            ≡ W.failures self.old.inner + failures_of result }
    {
        let n = self.inner.write(self.kept.bytes())?;
        if n == 0 {
            return Err(Failed);
        }
        self.kept.consume(n);
        Ok(())
    }

    /// Writes all buffered bytes to the inner writer. On failure, the writer stays stopped.
    fn flush_buf(&mut self) -> Result<(), Failed>
        requires room { W.failures self.old.inner < 2 ^ 64 - 1 }
        ensures bytes { Keeps (append_known (W.written self.old.inner) self.old.kept.bytes)
            (append_known (W.written self.new.inner) self.new.kept.bytes) }
        ensures empty { OnOk result (self.new.kept
            ≡ record self.new.kept { bytes = []; room = self.new.kept.capacity }) }
        ensures goes_on { OnOk result (self.new.stopped ≡ false) }
        ensures stops { OnErr result (self.new.stopped ≡ true) }
        ensures refusals { self.new.refusals ≡ self.old.refusals }
        ensures failures { W.failures self.new.inner
            ≡ W.failures self.old.inner + failures_of result }
    {
        self.stopped = true;
        while !self.kept.bytes().is_empty() {
            self.flush_part_of_buf()?;
        }
        self.kept.clear();
        self.stopped = false;
        Ok(())
    }

    /// Handles the rare cases of `write`. Fails if the writer is stopped or `bytes` is empty.
    /// Otherwise empties the buffer into the inner writer, and buffers as many of `bytes` as fit.
    #[cold]
    #[inline(never)]
    fn flush_buf_and_buffer(&mut self, bytes: &[u8]) -> Result<usize, Failed>
        requires { W.failures self.old.inner + self.old.refusals < 2 ^ 64 - 1 }
        ensures bound { WritesAtMost result bytes.now }
        ensures bytes { WriteAppends (append_known (W.written self.old.inner) (kept_back self.old))
            (append_known (W.written self.new.inner) (kept_back self.new)) result bytes.now }
        ensures some { IfOk result (λ n. 0 < n) }
        ensures goes_on { OnOk result (is_stopped self.new ≡ false) }
        ensures stops { OnErr result (is_stopped self.new ≡ true) }
        ensures stopped { IsTrue (is_stopped self.old) →
            IsErr result × (writer_behind self.new ≡ writer_behind self.old) }
        ensures failures { W.failures self.new.inner + self.new.refusals
            ≡ W.failures self.old.inner + self.old.refusals + failures_of result }
    {
        if self.stopped || bytes.is_empty() {
            return Err(self.stop_and_count_refusal());
        }
        self.flush_buf()?;
        let n = bytes.len().min(self.kept.capacity());
        if n == 0 {
            return Err(self.stop_and_count_refusal());
        }
        self.kept.append(&bytes[..n]);
        Ok(n)
    }
}

impl<W: Writer + Drop> Writer for BufferedWriter<W> {
    ghost written = { λ w. append_known (W.written (writer_behind w)) (kept_back w) };

    ghost flushed = { λ w. W.flushed (writer_behind w) };

    // The failures of the inner writer, and the calls that failed without reaching it. Failed
    // calls aren't retried.
    ghost failures = { λ w. W.failures (writer_behind w) + refusals w };

    #[inline(always)]
    fn write(&mut self, bytes: &[u8]) -> Result<usize, Failed>
        requires { W.failures (writer_behind self.old) + refusals self.old < 2 ^ 64 - 1 }
        ensures bound { WritesAtMost result bytes.now }
        ensures bytes { WriteAppends
            (append_known (W.written (writer_behind self.old)) (kept_back self.old))
            (append_known (W.written (writer_behind self.new)) (kept_back self.new)) result bytes.now }
        ensures failures { W.failures (writer_behind self.new) + refusals self.new
            ≡ W.failures (writer_behind self.old) + refusals self.old + write_failures_of result }
        ensures goes_on { OnOk result (is_stopped self.new ≡ false) }
        ensures stops { OnErr result (is_stopped self.new ≡ true) }
        ensures stopped { IsTrue (is_stopped self.old) →
            IsErr result × (writer_behind self.new ≡ writer_behind self.old) }
    {
        let room = self.kept.spare_capacity();
        if self.stopped || bytes.is_empty() || bytes.len() > room {
            return self.flush_buf_and_buffer(bytes);
        }
        self.kept.append(bytes);
        Ok(bytes.len())
    }

    fn flush(&mut self) -> Result<(), Failed>
        requires { W.failures (writer_behind self.old) + refusals self.old < 2 ^ 64 - 1 }
        ensures bytes { Keeps
            (append_known (W.written (writer_behind self.old)) (kept_back self.old))
            (append_known (W.written (writer_behind self.new)) (kept_back self.new)) }
        ensures flushed { OnOk result (W.flushed (writer_behind self.new)
            ≡ append_known (W.written (writer_behind self.new)) (kept_back self.new)) }
        ensures failures { W.failures (writer_behind self.new) + refusals self.new
            ≡ W.failures (writer_behind self.old) + refusals self.old + failures_of result }
        ensures goes_on { OnOk result (is_stopped self.new ≡ false) }
        ensures stops { OnErr result (is_stopped self.new ≡ true) }
        ensures stopped { IsTrue (is_stopped self.old) →
            IsErr result × (writer_behind self.new ≡ writer_behind self.old) }
    {
        if self.stopped {
            return Err(self.stop_and_count_refusal());
        }
        self.flush_buf()?;
        self.stopped = true;
        self.inner.flush()?;
        self.stopped = false;
        Ok(())
    }
}
