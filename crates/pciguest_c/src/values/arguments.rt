//! Converts the arguments of calls from C into guests, accesses, parts of functions, and bytes.
ghost use Rattle.std.specs.{Prelude.{◌≡◌, ◌<◌, ◌≤◌, Some, None, IfOk, IfErr, length, position}, Str.bytes_eq};
ghost use Rattle.accesses.specs.Accesses.{target_of, part_of};
ghost use Rattle.pciguest_c.specs.{Calls.where_guest, Told.{index_asked, target_told, part_told}};

use crate::values::numbers::ARGUMENT;
use accesses::{At, Names, Place};
use monitor::Monitor;

/// Who accesses a function's byte: the function's device, or, through a BAR, the guest that the
/// function is assigned to.
#[derive(Clone, Copy)]
pub enum Side {
    Device,
    Guest,
}

/// A byte of the function in a slot, with the side that reads or writes it.
#[derive(Clone, Copy)]
pub struct Byte {
    pub side: Side,
    pub slot: u64,
    pub place: Place,
    pub offset: u64,
}

/// Returns the byte at an offset in one part of a slot's function.
pub fn byte_at(side: Side, slot: u64, place: Place, offset: u64) -> Byte
    ensures { result ≡ record { side = side; slot = slot; place = place; offset = offset } }
{
    Byte {
        side,
        slot,
        place,
        offset,
    }
}

/// Returns the number of guests.
pub fn guest_count(machine: &Monitor) -> usize
    ensures { result ≡ length machine.now.world.guests }
{
    machine.names().len()
}

/// Checks that there is a guest with this index, or returns 902.
pub fn check_guest(machine: &Monitor, guest: usize) -> Result<(), u32>
    ensures there { IfOk result (λ _. guest < length machine.now.world.guests) }
    ensures none { IfErr result (λ n. (n ≡ 902) × (length machine.now.world.guests ≤ guest)) }
{
    if guest < guest_count(machine) {
        Ok(())
    } else {
        Err(ARGUMENT)
    }
}

/// Returns the target of a guest's access. Returns 902 if there is no such guest or space.
pub fn parse_guest_target(
    machine: &Monitor,
    guest: usize,
    space: u32,
    slot: u64,
    place: u64,
) -> Result<At, u32>
    ensures there { IfOk result (λ _. guest < length machine.now.world.guests) }
    ensures told { IfOk result (λ at.
        where_guest machine.now guest (target_told space slot place) ≡ Some (target_of at)) }
    ensures none { IfErr result (λ n. n ≡ 902) }
    ensures nowhere { IfErr result (λ _.
        where_guest machine.now guest (target_told space slot place) ≡ None) }
{
    check_guest(machine, guest)?;
    match space {
        0 => Ok(At::Config { slot, off: place }),
        1 => Ok(At::Io { port: place }),
        2 => Ok(At::Mem { addr: place }),
        _ => Err(ARGUMENT),
    }
}

/// Returns the part of a function that a raise or a device's access addresses: a BAR for 0 to 5,
/// configuration space for 6. Returns 902 if there is no such guest or part.
pub fn parse_guest_part(machine: &Monitor, guest: usize, part: u32) -> Result<Place, u32>
    ensures there { IfOk result (λ _. guest < length machine.now.world.guests) }
    ensures told { IfOk result (λ p.
        where_guest machine.now guest (part_told part) ≡ Some (part_of p)) }
    ensures none { IfErr result (λ n. n ≡ 902) }
    ensures nowhere { IfErr result (λ _.
        where_guest machine.now guest (part_told part) ≡ None) }
{
    check_guest(machine, guest)?;
    match part {
        0..=5 => Ok(Place::Bar(part as u8)),
        6 => Ok(Place::Cfg),
        _ => Err(ARGUMENT),
    }
}

/// Returns the index of the first occurrence of a name.
fn index_of_name(name: &[u8], names: &Names) -> Option<usize>
    ensures { result ≡ position (λ n. bytes_eq n.bytes name.now) names.now.items }
{
    names.iter().position(|known| known.as_bytes() == name)
}

/// Returns the index of the first guest with this name.
pub fn find_guest(machine: &Monitor, name: &[u8]) -> Option<usize>
    ensures { result ≡ index_asked machine.now.world name.now }
{
    index_of_name(name, machine.names())
}
