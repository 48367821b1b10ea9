//! Functions that write a whole text.
ghost use Rattle.std.specs.{Prelude.{◌≡◌, ◌+◌, ◌-◌, ◌^◌, ◌<◌, OnOk, OnErr}, Io.KnownBytes.Appends};
ghost use Rattle.streams.specs.Ends.{failures_of, AppendsPart};

use crate::ends::{Failed, Writer};

/// Writes all of `text`, or stops at the first failure.
pub fn write_all<W: Writer>(writer: &mut W, text: &[u8]) -> Result<(), Failed>
    requires { W.failures writer.old < 2 ^ 64 - 1 }
    ensures ok { OnOk result (Appends (W.written writer.old) (W.written writer.new) text.now) }
    ensures err { OnErr result
        (AppendsPart (W.written writer.old) (W.written writer.new) text.now) }
    ensures failures { W.failures writer.new ≡ W.failures writer.old + failures_of result }
{
    let mut rest = text;
    while !rest.is_empty() {
        let n = writer.write(rest)?;
        if n == 0 {
            return Err(Failed);
        }
        rest = &rest[n..];
    }
    Ok(())
}

/// Writes all of `text` and flushes, or stops at the first failure.
pub fn write_and_flush<W: Writer>(writer: &mut W, text: &[u8]) -> Result<(), Failed>
    requires { W.failures writer.old < 2 ^ 64 - 1 }
    ensures ok { OnOk result (Appends (W.written writer.old) (W.written writer.new) text.now) }
    ensures flushed { OnOk result (W.flushed writer.new ≡ W.written writer.new) }
    ensures err { OnErr result
        (AppendsPart (W.written writer.old) (W.written writer.new) text.now) }
    ensures failures { W.failures writer.new ≡ W.failures writer.old + failures_of result }
{
    write_all(writer, text)?;
    writer.flush()
}
