//! A reader and a writer in memory that transfer a few bytes a call and can be made to fail.

ghost use Rattle.std.specs.Prelude.{◌≡◌, ◌+◌, ◌-◌, ◌^◌, ◌<◌, ◌≤◌, [], Some, length, take};
ghost use Rattle.streams.specs.Ends.{failures_of};

use arrayvec::ArrayVec;
use streams::{Failed, Reader, Writer};

/// The call that is to fail, and the number of failures so far.
#[derive(Drop)]
struct Faults {
    /// The number of calls that succeed before one fails, or `None` if none is to fail.
    calls_left: Option<u32>,
    failures: u64,
}

impl Faults {
    /// Counts a call. Returns `Err` for the call that is to fail; later calls succeed again.
    fn count_call_or_fail_once(&mut self) -> Result<(), Failed>
        requires { self.old.failures < 2 ^ 64 - 1 }
        ensures { self.new.failures ≡ self.old.failures + failures_of result }
    {
        match self.calls_left {
            None => Ok(()),
            Some(0) => {
                self.calls_left = None;
                self.failures += 1;
                Err(Failed)
            }
            Some(n) => {
                self.calls_left = Some(n - 1);
                Ok(())
            }
        }
    }
}

/// A reader of a script in memory.
#[derive(Drop)]
pub struct FakeReader<'a> {
    script: &'a [u8],
    per_call: usize,
    faults: Faults,
    ghost has_step: { 0 < per_call },
}

impl<'a> FakeReader<'a> {
    /// Returns a reader that gives at most `per_call` bytes a call. The call `failing_call`, counted
    /// from 0, fails.
    pub fn new(script: &'a [u8], per_call: usize, failing_call: Option<u32>) -> Self
        requires { 0 < per_call }
        ensures script { ⟦<FakeReader<'a> as Reader>⟧.rest result ≡ Some script.now }
        ensures failures { ⟦<FakeReader<'a> as Reader>⟧.failures result ≡ 0 }
    {
        let faults = Faults {
            calls_left: failing_call,
            failures: 0,
        };
        FakeReader {
            script,
            per_call,
            faults,
        }
    }
}

impl Reader for FakeReader<'_> {
    ghost rest = { λ r. Some r.script.now };

    ghost failures = { λ r. r.faults.failures };

    ghost reads_left = { λ r. length r.script.now };

    fn read(&mut self, buf: &mut [u8]) -> Result<usize, Failed> {
        self.faults.count_call_or_fail_once()?;
        let n = self.per_call.min(buf.len()).min(self.script.len());
        let (front, rest) = self.script.split_at(n);
        buf[..n].copy_from_slice(front);
        self.script = rest;
        Ok(n)
    }
}

/// A writer into an array, which accepts no more bytes once the array is full. Written bytes count
/// as flushed only after a flush.
#[derive(Drop)]
pub struct FakeWriter<const N: usize> {
    bytes: ArrayVec<u8, N>,
    /// The number of bytes that were flushed.
    flushed: usize,
    per_call: usize,
    faults: Faults,
    ghost has_flushed: { flushed ≤ length bytes.items },
}

impl<const N: usize> FakeWriter<N> {
    /// Returns a writer that accepts at most `per_call` bytes a call. The write or flush
    /// `failing_call`, counted from 0, fails.
    pub fn new(per_call: usize, failing_call: Option<u32>) -> Self
        ensures written { ⟦<FakeWriter<N> as Writer>⟧.written result ≡ Some [] }
        ensures flushed { ⟦<FakeWriter<N> as Writer>⟧.flushed result ≡ Some [] }
        ensures failures { ⟦<FakeWriter<N> as Writer>⟧.failures result ≡ 0 }
    {
        let faults = Faults {
            calls_left: failing_call,
            failures: 0,
        };
        FakeWriter {
            bytes: ArrayVec::new(),
            flushed: 0,
            per_call,
            faults,
        }
    }

    /// Returns the written bytes.
    pub fn bytes(&self) -> &[u8]
        ensures { ⟦<FakeWriter<N> as Writer>⟧.written self.now ≡ Some result.now }
    {
        self.bytes.as_slice()
    }

    /// Returns the flushed bytes.
    pub fn flushed(&self) -> &[u8]
        ensures { ⟦<FakeWriter<N> as Writer>⟧.flushed self.now ≡ Some result.now }
    {
        &self.bytes.as_slice()[..self.flushed]
    }
}

impl<const N: usize> Writer for FakeWriter<N> {
    ghost written = { λ w. Some w.bytes.items };

    ghost flushed = { λ w. Some (take w.flushed w.bytes.items) };

    ghost failures = { λ w. w.faults.failures };

    fn write(&mut self, bytes: &[u8]) -> Result<usize, Failed> {
        self.faults.count_call_or_fail_once()?;
        let room = self.bytes.remaining_capacity();
        let n = self.per_call.min(bytes.len()).min(room);
        if n == 0 {
            self.faults.failures += 1;
        }
        let _ = self.bytes.try_extend_from_slice(&bytes[..n]);
        Ok(n)
    }

    fn flush(&mut self) -> Result<(), Failed> {
        self.faults.count_call_or_fail_once()?;
        self.flushed = self.bytes.len();
        Ok(())
    }
}
