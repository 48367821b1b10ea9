use simulation::OutputStream;
use std::cell::Cell;
use std::io::Write;
use std::test::Fail;
use streams::{BufferedWriter, Writer, write_all};
use test_fakes::FakeWriter;

/// Buffered bytes are written when the buffer has no room for more, and at a flush.
#[test]
fn bytes_are_kept_back(rt: HostRuntime) -> Result<(), Fail> {
    let fake = FakeWriter::<32>::new(4, None);
    let mut writer = BufferedWriter::with_capacity(rt.alloc(), 10, fake)?;
    assert!(rt; write_all(&mut writer, b"abcdefg").is_ok());
    assert!(rt; write_all(&mut writer, b"hij").is_ok());
    assert_eq!(rt; writer.get_ref().bytes(), b"".as_slice());
    assert!(rt; write_all(&mut writer, b"k").is_ok());
    assert_eq!(rt; writer.get_ref().bytes(), b"abcdefghij".as_slice());
    assert!(rt; writer.flush().is_ok());
    assert_eq!(rt; writer.get_ref().flushed(), b"abcdefghijk".as_slice());
    Ok(())
}

/// A write of no bytes fails, and so does any write to a writer without a buffer.
#[test]
fn writes_that_take_nothing_fail(rt: HostRuntime) -> Result<(), Fail> {
    let fake = FakeWriter::<8>::new(4, None);
    let mut writer = BufferedWriter::with_capacity(rt.alloc(), 4, fake)?;
    assert!(rt; writer.write(b"ab").is_ok());
    assert!(rt; writer.write(b"").is_err());
    assert!(rt; writer.flush().is_err());
    assert_eq!(rt; writer.get_ref().bytes(), b"".as_slice());
    let fake = FakeWriter::<8>::new(4, None);
    let mut without_room = BufferedWriter::with_capacity(rt.alloc(), 0, fake)?;
    assert!(rt; without_room.write(b"a").is_err());
    Ok(())
}

/// A system writer that keeps all bytes until a flush, and records how many it has passed on.
#[derive(Drop)]
struct KeepsBack<'a> {
    kept: usize,
    flushed: &'a Cell<usize>,
}

impl Write for KeepsBack<'_> {
    fn write(&mut self, buf: &[u8]) -> std::io::Result<usize> {
        self.kept = self.kept.saturating_add(buf.len());
        Ok(buf.len())
    }

    fn flush(&mut self) -> std::io::Result<()> {
        self.flushed.set(self.kept);
        Ok(())
    }
}

/// A flush of standard output also flushes the writer below it, so that an answer is visible before
/// more is read.
#[test]
fn a_flush_reaches_the_inner_writer(rt: HostRuntime) -> Result<(), Fail> {
    let flushed = Cell::new(0);
    let behind = KeepsBack {
        kept: 0,
        flushed: &flushed,
    };
    let mut writer = OutputStream::buffered(rt.alloc(), behind).expect(&rt, "memory");
    assert!(rt; write_all(&mut writer, b"a: ok\n").is_ok());
    assert_eq!(rt; flushed.get(), 0);
    assert!(rt; writer.flush().is_ok());
    assert_eq!(rt; flushed.get(), 6);
    Ok(())
}
