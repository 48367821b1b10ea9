//! Standard input and output, with a count of their failures.
ghost use Rattle.std.specs.Prelude.{◌≡◌, ◌↔◌, ◌-◌, ◌^◌, ◌<◌, false, IsOk, IfOk, IfErr};
ghost use Rattle.bus_scan.specs.declared.fault.Fault.TheVariants.{Memory};
ghost use Rattle.streams.specs.Kept.{is_stopped};

use board_told::Fault;
use std::alloc::Global;
use std::io::{Read, Write};
use streams::{BufferedWriter, Failed, Reader, Writer};

/// A reader that counts its failures. It gives up after 2^64 - 1 reads and counts that as a
/// failure, so a script that never ends is a failure of its reader.
#[derive(Drop)]
pub struct InputStream<R> {
    inner: R,
    reads_left: u64,
    failures: u64,
}

impl<R: Read> InputStream<R> {
    /// Returns a reader of the remaining bytes of `inner`, with no failures yet.
    pub fn new(inner: R) -> Self
        ensures rest { ⟦<InputStream<R> as Reader>⟧.rest result ≡ R.remaining inner }
        ensures failures { ⟦<InputStream<R> as Reader>⟧.failures result ≡ 0 }
        ensures reads_left { ⟦<InputStream<R> as Reader>⟧.reads_left result ≡ 2 ^ 64 - 1 }
    {
        InputStream {
            inner,
            reads_left: u64::MAX,
            failures: 0,
        }
    }

    /// Counts a read, or fails if there are none left.
    fn count_read_or_fail(&mut self) -> Result<(), Failed>
        ensures ok { IsOk result ↔ (0 < self.old.reads_left) }
        ensures left { self.new ≡ record self.old { reads_left = self.old.reads_left - 1 } }
    {
        if self.reads_left == 0 {
            return Err(Failed);
        }
        self.reads_left -= 1;
        Ok(())
    }
}

impl<R: Read> Reader for InputStream<R> {
    ghost rest = { λ s. R.remaining s.inner };

    ghost failures = { λ s. s.failures };

    ghost reads_left = { λ s. s.reads_left };

    fn read(&mut self, buf: &mut [u8]) -> Result<usize, Failed> {
        if self.count_read_or_fail().is_err() {
            self.failures += 1;
            return Err(Failed);
        }
        match self.inner.read(buf) {
            Ok(n) => Ok(n),
            Err(_) => {
                self.failures += 1;
                Err(Failed)
            }
        }
    }
}

/// The size of the output buffer in bytes, which is also the size of the read buffer of a run. A
/// system call costs as much as some tens of lines.
const CAPACITY: usize = 65536;

/// A writer that counts its failures. Each write or flush is one call of `inner`.
#[derive(Drop)]
pub struct OutputStream<W> {
    inner: W,
    failures: u64,
}

impl<W: Write + Drop> OutputStream<W> {
    /// Returns a buffered writer that appends to `inner`, with no failures yet. Fails only if
    /// memory is exhausted.
    pub fn buffered(alloc: Global, inner: W) -> Result<BufferedWriter<Self>, Fault>
        ensures written { IfOk result
            (λ s. ⟦<BufferedWriter<Self> as Writer>⟧.written s ≡ W.contents inner) }
        ensures flushed { IfOk result
            (λ s. ⟦<BufferedWriter<Self> as Writer>⟧.flushed s ≡ W.contents inner) }
        ensures failures { IfOk result
            (λ s. ⟦<BufferedWriter<Self> as Writer>⟧.failures s ≡ 0) }
        ensures goes_on { IfOk result (λ s. is_stopped s ≡ false) }
        ensures memory { IfErr result (λ f. f ≡ Fault.SetUp Memory) }
    {
        let stream = OutputStream { inner, failures: 0 };
        match BufferedWriter::with_capacity(alloc, CAPACITY, stream) {
            Ok(buffered) => Ok(buffered),
            Err(_) => Err(Fault::SetUp(bus_scan::Fault::Memory)),
        }
    }
}

impl<W: Write> Writer for OutputStream<W> {
    ghost written = { λ s. W.contents s.inner };

    // This writer doesn't buffer anything.
    ghost flushed = { λ s. W.contents s.inner };

    ghost failures = { λ s. s.failures };

    fn write(&mut self, bytes: &[u8]) -> Result<usize, Failed> {
        match self.inner.write(bytes) {
            Ok(n) => {
                if n == 0 {
                    self.failures += 1;
                }
                Ok(n)
            }
            Err(_) => {
                self.failures += 1;
                Err(Failed)
            }
        }
    }

    fn flush(&mut self) -> Result<(), Failed> {
        if self.inner.flush().is_err() {
            self.failures += 1;
            return Err(Failed);
        }
        Ok(())
    }
}
