//! Accesses of 1 to 8 bytes of a guest's function, by the device or by the guest. The guest's
//! accesses address a region by slot and BAR, as a hypervisor that maps the regions itself forwards
//! them.
ghost use Rattle.pciguest_c.specs.{Calls.{Answers, read_wide, write_wide, nothing, number}, declared.values.arguments.Side.TheVariants.{Device, Guest}};

use crate::handle::Handle;
use crate::values::arguments::{Side, byte_at, parse_guest_part};
use crate::values::bytes::{replace_bytes, wide_read};
use crate::values::numbers::{status_of_result, store_result_if_ok};
use std::alloc::Global;

/// Reads 1 to 8 bytes of one part of a guest's function, as its device does, as a little-endian
/// number. Nothing changes.
#[unsafe(no_mangle)]
pub extern "C" fn pciguest_raw_device_read_wide(
    alloc: Global,
    handle: &mut Handle,
    guest: usize,
    slot: u64,
    part: u32,
    offset: u64,
    width: u32,
    value: &mut u64,
) -> u32
    ensures { Answers (read_wide Device guest slot part offset width) handle.old handle.new result
        (number value.old) (number value.new) }
{
    let answer = handle.with_machine(alloc, |machine| {
        let place = parse_guest_part(machine, guest, part)?;
        let byte = byte_at(Side::Device, slot, place, offset);
        wide_read(machine, guest, byte, width)
    });
    store_result_if_ok(answer, value)
}

/// Writes the low 1 to 8 bytes of a value to one part of a guest's function, as its device does, so
/// that the write masks don't apply. If one of the bytes can't be read, writes none of them.
#[unsafe(no_mangle)]
pub extern "C" fn pciguest_raw_device_write_wide(
    alloc: Global,
    handle: &mut Handle,
    guest: usize,
    slot: u64,
    part: u32,
    offset: u64,
    width: u32,
    value: u64,
) -> u32
    ensures { Answers (write_wide Device guest slot part offset width value)
        handle.old handle.new result nothing nothing }
{
    status_of_result(handle.with_machine(alloc, |machine| {
        let place = parse_guest_part(machine, guest, part)?;
        let byte = byte_at(Side::Device, slot, place, offset);
        replace_bytes(machine, guest, byte, width, value)
    }))
}

/// Reads 1 to 8 bytes of a region as the guest does, as a little-endian number. The region is
/// addressed by slot, BAR and offset, wherever its base address is. Nothing changes.
#[unsafe(no_mangle)]
pub extern "C" fn pciguest_raw_region_read(
    alloc: Global,
    handle: &mut Handle,
    guest: usize,
    slot: u64,
    part: u32,
    offset: u64,
    width: u32,
    value: &mut u64,
) -> u32
    ensures { Answers (read_wide Guest guest slot part offset width) handle.old handle.new result
        (number value.old) (number value.new) }
{
    let answer = handle.with_machine(alloc, |machine| {
        let place = parse_guest_part(machine, guest, part)?;
        let byte = byte_at(Side::Guest, slot, place, offset);
        wide_read(machine, guest, byte, width)
    });
    store_result_if_ok(answer, value)
}

/// Writes the low 1 to 8 bytes of a value to a region as the guest does, within the write masks.
/// The region is addressed by slot, BAR and offset. If one byte is refused, no byte is written.
#[unsafe(no_mangle)]
pub extern "C" fn pciguest_raw_region_write(
    alloc: Global,
    handle: &mut Handle,
    guest: usize,
    slot: u64,
    part: u32,
    offset: u64,
    width: u32,
    value: u64,
) -> u32
    ensures { Answers (write_wide Guest guest slot part offset width value)
        handle.old handle.new result nothing nothing }
{
    status_of_result(handle.with_machine(alloc, |machine| {
        let place = parse_guest_part(machine, guest, part)?;
        let byte = byte_at(Side::Guest, slot, place, offset);
        replace_bytes(machine, guest, byte, width, value)
    }))
}
