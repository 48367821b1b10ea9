//! Accesses by a guest, status bits set by a device, and the look-up of a guest by name. Each call
//! returns 0 or an error number.
ghost use Rattle.std.specs.Prelude.{◌≡◌, ◌<◌, length};
ghost use Rattle.model_guests.specs.Accesses.{access, reads};
ghost use Rattle.accesses.specs.Accesses.{reply_of, target_of};
ghost use Rattle.pciguest_c.specs.{Told.reply_asked, Calls.{Answers, read, write, raise, guest_named, nothing, number}};

use crate::handle::Handle;
use crate::values::arguments::{find_guest, parse_guest_part, parse_guest_target};
use crate::values::numbers::{ARGUMENT, status_of_reply, store_result_if_ok, store_value_if_ok};
use accesses::{Access, At, Op, Reply};
use monitor::Monitor;
use std::alloc::Global;

/// Reads as a guest. Nothing changes.
fn read_as_guest(machine: &mut Monitor, guest: usize, at: At, width: u64) -> Reply
    requires { guest < length machine.old.world.guests }
    ensures reply { let e = access (record { target = target_of at; width = width; op = reads }) in
        reply_of result ≡ reply_asked machine.old.world guest e }
    ensures kept { machine.new ≡ machine.old }
{
    let op = Op::Read;
    machine.step(guest, Access { at, width, op })
}

/// Reads 1, 2 or 4 bytes as a guest. Only the guest's own functions respond.
#[unsafe(no_mangle)]
pub extern "C" fn pciguest_raw_read(
    alloc: Global,
    handle: &mut Handle,
    guest: usize,
    space: u32,
    slot: u64,
    place: u64,
    width: u32,
    value: &mut u32,
) -> u32
    ensures { Answers (read guest space slot place width) handle.old handle.new result
        (number value.old) (number value.new) }
{
    let answer = handle.with_machine(alloc, |machine| {
        let at = parse_guest_target(machine, guest, space, slot, place)?;
        Ok(read_as_guest(machine, guest, at, u64::from(width)))
    });
    store_value_if_ok(answer, value)
}

/// Writes the low 1, 2 or 4 bytes of a value as a guest.
#[unsafe(no_mangle)]
pub extern "C" fn pciguest_raw_write(
    alloc: Global,
    handle: &mut Handle,
    guest: usize,
    space: u32,
    slot: u64,
    place: u64,
    width: u32,
    value: u32,
) -> u32
    ensures { Answers (write guest space slot place width value) handle.old handle.new result
        nothing nothing }
{
    status_of_reply(handle.with_machine(alloc, |machine| {
        let at = parse_guest_target(machine, guest, space, slot, place)?;
        let width = u64::from(width);
        let op = Op::Write(value);
        Ok(machine.step(guest, Access { at, width, op }))
    }))
}

/// Sets bits in one byte of a guest's function, as its device does. The part is a BAR, 0 to 5, or 6
/// for configuration space.
#[unsafe(no_mangle)]
pub extern "C" fn pciguest_raw_raise(
    alloc: Global,
    handle: &mut Handle,
    guest: usize,
    slot: u64,
    part: u32,
    offset: u64,
    mask: u8,
) -> u32
    ensures { Answers (raise guest slot part offset mask) handle.old handle.new result
        nothing nothing }
{
    status_of_reply(handle.with_machine(alloc, |machine| {
        let place = parse_guest_part(machine, guest, part)?;
        Ok(machine.raise(guest, slot, place, offset, mask))
    }))
}

/// Stores the index of the guest with a name. Returns 902 if there is no such guest.
#[unsafe(no_mangle)]
pub extern "C" fn pciguest_raw_guest(
    alloc: Global,
    handle: &mut Handle,
    name: &[u8],
    guest: &mut usize,
) -> u32
    ensures { Answers (guest_named name.now) handle.old handle.new result
        (number guest.old) (number guest.new) }
{
    let answer = handle.with_machine(alloc, |machine| match find_guest(machine, name) {
        Some(index) => Ok(index),
        None => Err(ARGUMENT),
    });
    store_result_if_ok(answer, guest)
}
