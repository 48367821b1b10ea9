//! Readers and writers that count their failures, so that a contract can attribute each fault to
//! one of them.
ghost use Rattle.std.specs.{Prelude.{◌≡◌, ℕ, ◌+◌, ◌-◌, ◌^◌, ◌<◌, List, Option, OnOk, IfOk}, Io.{ReadsAtMost, WritesAtMost, KnownBytes.{ReadConsumes, WriteAppends, Keeps}}};
ghost use Rattle.streams.specs.Ends.{failures_of, write_failures_of};

/// The error of a failed read, write or flush.
#[derive(Clone, Copy, Debug, PartialEq, Eq)]
pub struct Failed;

/// A source of bytes.
pub trait Reader {
    /// The bytes that are still to be read, if they are known.
    ghost rest: { Self → Option (List ℕ) };

    /// The number of failed reads. Each call requires room for one more in the count.
    ghost failures: { Self → ℕ };

    /// An upper bound on the number of reads that still return bytes. It proves that reading to the
    /// end terminates.
    ghost reads_left: { Self → ℕ };

    /// Reads some bytes into the start of `buf` and returns their number. The number is 0 only at
    /// the end of the source or if `buf` is empty.
    fn read(&mut self, buf: &mut [u8]) -> Result<usize, Failed>
        requires { failures self.old < 2 ^ 64 - 1 }
        ensures bound { ReadsAtMost result buf.new }
        ensures bytes { ReadConsumes (rest self.old) (rest self.new) result buf.new }
        ensures failures { failures self.new ≡ failures self.old + failures_of result }
        ensures falls { IfOk result (λ n. 0 < n → reads_left self.new < reads_left self.old) };
}

/// A destination for bytes.
pub trait Writer {
    /// The bytes that were accepted, if they are known.
    ghost written: { Self → Option (List ℕ) };

    /// The accepted bytes that were flushed, if they are known. The others may be buffered until a
    /// flush.
    ghost flushed: { Self → Option (List ℕ) };

    /// The number of failed writes and flushes. A write that accepts no byte counts as a failure.
    /// Each call requires room for one more in the count.
    ghost failures: { Self → ℕ };

    /// Writes some bytes from the start of `bytes` and returns their number.
    fn write(&mut self, bytes: &[u8]) -> Result<usize, Failed>
        requires { failures self.old < 2 ^ 64 - 1 }
        ensures bound { WritesAtMost result bytes.now }
        ensures bytes { WriteAppends (written self.old) (written self.new) result bytes.now }
        ensures failures { failures self.new ≡ failures self.old + write_failures_of result };

    /// Flushes all accepted bytes, so that the receiver can read them.
    fn flush(&mut self) -> Result<(), Failed>
        requires { failures self.old < 2 ^ 64 - 1 }
        ensures bytes { Keeps (written self.old) (written self.new) }
        ensures flushed { OnOk result (flushed self.new ≡ written self.new) }
        ensures failures { failures self.new ≡ failures self.old + failures_of result };
}
