//! Accesses of 1 to 8 adjacent bytes of a function, by its device or its guest. They are made byte
//! by byte, from the lowest offset up.
ghost use Rattle.std.specs.Prelude.{◌≡◌, ◌+◌, ◌^◌, ◌<◌, ◌≤◌, IfNone, IfOk, length};
ghost use Rattle.accesses.specs.Accesses.{reply_of};
ghost use Rattle.pciguest_c.specs.DevicesTold.{byte_of, read_byte, bytes_from, read_le_bytes, after_bytes, read_reply, after_byte, find_access_error, wide_read, after_wide};

use crate::values::arguments::{Byte, Side};
use accesses::{Op, Refusal, Reply};
use monitor::Monitor;

/// Returns the error number of an access with this offset and width: 302 if the width isn't 1 to 8,
/// or 303 if offset plus width doesn't fit in 64 bits.
fn find_access_error(offset: u64, width: u32) -> Option<u32>
    ensures fault { result ≡ find_access_error offset width }
    ensures few { IfNone result (width ≤ 8) }
    ensures end { IfNone result (offset + width < 2 ^ 64) }
{
    if width == 0 || width > 8 {
        return Some(u32::from(Refusal::Width.number()));
    }
    match offset.checked_add(u64::from(width)) {
        Some(_) => None,
        None => Some(u32::from(Refusal::Range.number())),
    }
}

/// Returns the reply to a read of one byte. Nothing changes.
fn read_byte_reply(machine: &mut Monitor, guest: usize, byte: Byte) -> Reply
    requires { guest < length machine.old.world.guests }
    ensures reply { reply_of result
        ≡ read_reply byte.side machine.old.world guest (byte_of byte) }
    ensures kept { machine.new ≡ machine.old }
{
    match byte.side {
        Side::Device => machine.device_read(guest, byte.slot, byte.place, byte.offset),
        Side::Guest => { machine.region_byte(guest, byte.slot, byte.place, byte.offset, Op::Read) }
    }
}

/// Writes one byte. A refused write has no effect.
fn write_byte_or_skip(machine: &mut Monitor, guest: usize, byte: Byte, value: u8)
    requires { guest < length machine.old.world.guests }
    ensures { machine.new ≡ after_byte byte.side machine.old guest (byte_of byte) value }
{
    match byte.side {
        Side::Device => {
            machine.device_write(guest, byte.slot, byte.place, byte.offset, value);
        }
        Side::Guest => {
            let op = Op::Write(u32::from(value));
            machine.region_byte(guest, byte.slot, byte.place, byte.offset, op);
        }
    }
}

/// Reads one byte, or returns the error number. Nothing changes.
fn read_byte(machine: &mut Monitor, guest: usize, byte: Byte) -> Result<u8, u32>
    requires { guest < length machine.old.world.guests }
    ensures read { result ≡ read_byte byte.side machine.old.world guest (byte_of byte) }
    ensures kept { machine.new ≡ machine.old }
{
    match read_byte_reply(machine, guest, byte) {
        Reply::Value(value, _) => Ok((value % 256) as u8),
        Reply::Done => Ok(0),
        Reply::Refused(why) => Err(u32::from(why.number())),
    }
}

/// Returns the byte at the next offset.
fn next_byte(byte: Byte) -> Byte
    requires { byte.offset + 1 < 2 ^ 64 }
    ensures { result ≡ record byte { offset = byte.offset + 1 } }
{
    Byte {
        offset: byte.offset + 1,
        ..byte
    }
}

/// Reads up to 8 bytes as a little-endian number, or returns the error number of the first byte
/// that is refused. Nothing changes.
fn read_le_bytes(machine: &mut Monitor, guest: usize, byte: Byte, count: u32) -> Result<u64, u32>
    requires there { guest < length machine.old.world.guests }
    requires few { count ≤ 8 }
    requires end { byte.offset + count < 2 ^ 64 }
    ensures read { result
        ≡ read_le_bytes byte.side machine.old.world guest (bytes_from (byte_of byte) count) }
    ensures small { IfOk result (λ n. n < 256 ^ count) }
    ensures kept { machine.new ≡ machine.old }
{
    if count == 0 {
        return Ok(0);
    }
    let lowest = read_byte(machine, guest, byte)?;
    let above = read_le_bytes(machine, guest, next_byte(byte), count - 1)?;
    Ok(u64::from(lowest) + 256 * above)
}

/// Writes the low `count` bytes of a number, lowest first. A refused byte is skipped.
fn write_le_bytes_or_skip(machine: &mut Monitor, guest: usize, byte: Byte, count: u32, value: u64)
    requires there { guest < length machine.old.world.guests }
    requires end { byte.offset + count < 2 ^ 64 }
    ensures { machine.new
        ≡ after_bytes byte.side machine.old guest (bytes_from (byte_of byte) count) value }
{
    if count == 0 {
        return;
    }
    write_byte_or_skip(machine, guest, byte, (value % 256) as u8);
    write_le_bytes_or_skip(machine, guest, next_byte(byte), count - 1, value / 256);
}

/// Reads 1 to 8 bytes as a little-endian number, or returns the error number. Nothing changes.
pub fn wide_read(machine: &mut Monitor, guest: usize, byte: Byte, width: u32) -> Result<u64, u32>
    requires { guest < length machine.old.world.guests }
    ensures read { result
        ≡ wide_read byte.side machine.old.world guest (byte_of byte) width }
    ensures kept { machine.new ≡ machine.old }
{
    match find_access_error(byte.offset, width) {
        Some(number) => Err(number),
        None => read_le_bytes(machine, guest, byte, width),
    }
}

/// Writes the low 1 to 8 bytes of a number, and returns the value that the bytes had before. If one
/// byte can't be read, returns its error number and writes nothing.
pub fn replace_bytes(
    machine: &mut Monitor,
    guest: usize,
    byte: Byte,
    width: u32,
    value: u64,
) -> Result<u64, u32>
    requires { guest < length machine.old.world.guests }
    ensures read { result
        ≡ wide_read byte.side machine.old.world guest (byte_of byte) width }
    ensures after { machine.new
        ≡ after_wide byte.side machine.old guest (byte_of byte) width value }
{
    if let Some(number) = find_access_error(byte.offset, width) {
        return Err(number);
    }
    let before = read_le_bytes(machine, guest, byte, width)?;
    write_le_bytes_or_skip(machine, guest, byte, width, value);
    Ok(before)
}
