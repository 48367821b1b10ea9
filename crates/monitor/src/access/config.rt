//! Configuration accesses by guests.
ghost use Rattle.std.specs.Prelude.{◌≡◌, ◌%◌, IfErr, IfNone, IfOk, IfSome, Some, None, slice_get, unwrap_or};
ghost use Rattle.model_registers.specs.{Registers.{config, number}, ByteEnables.IsWidth};
ghost use Rattle.accesses.specs.Refusals.{number_of};
ghost use Rattle.monitor.specs.{InSlots.{IsInSlot, IsSlotFault}, Counts.{counts_of, counted_nth}, Configs.{IsSeen, IsHolding, WritesOwn, HoldsAt, WritesGuest}};

use crate::access::change_count::increment_if;
use crate::guest::{AssignedFunction, Guest};
use accesses::Refusal;
use config_bytes::{enables_of, shift_lanes_down};
use host_bridge::Host;

/// Reads 1, 2 or 4 bytes at a configuration offset of a function as its guest sees it: Command,
/// Header Type and the base address registers from the guest's copies, and all other bytes from the
/// board.
pub(crate) fn read_as_guest(host: &mut Host, held: &AssignedFunction, off: u8, width: u64) -> u32
    requires seen { IsSeen host.old held.now }
    requires width { IsWidth width }
    requires aligned { off % width ≡ 0 }
    ensures value { (seen : IsSeen host.old held.now) →
        result ≡ number seen.file (config off) width }
    ensures after { host.new ≡ host.old }
{
    let from = u64::from(off);
    let word = off / 4 * 4;
    let (own, others) = held
        .own
        .config_read(u16::from(word), enables_of(from, width));
    let rest = host.config_read_nth(held.index, word, others);
    shift_lanes_down(from, own + rest)
}

/// Returns the function in a slot.
pub(crate) fn function_in_slot(
    slots: &[Option<AssignedFunction>],
    slot: usize,
) -> Option<&AssignedFunction>
    ensures empty { IfNone result (unwrap_or (slice_get slots.now slot) None ≡ None) }
    ensures there { IfSome result (λ r. slice_get slots.now slot ≡ Some (Some r.now)) }
{
    match slots.get(slot) {
        Some(Some(held)) => Some(held),
        _ => None,
    }
}

/// Returns the function in a slot, or the reason why there is none: 303 for a slot above 31, 601
/// for an empty slot.
pub(crate) fn function_or_refusal(
    slots: &[Option<AssignedFunction>],
    slot: u64,
) -> Result<&AssignedFunction, Refusal>
    ensures there { IfOk result (λ r. IsInSlot slots.now slot r.now) }
    ensures refused { IfErr result (λ why. IsSlotFault slots.now slot (number_of why)) }
{
    if slot > 31 {
        return Err(Refusal::Range);
    }
    match function_in_slot(slots, slot as usize) {
        Some(held) => Ok(held),
        None => Err(Refusal::EmptySlot),
    }
}

/// Writes those enabled bytes of a configuration word that the guest has copies of. Returns the
/// function's index on the host, and the byte enables of the bytes to write on the board.
pub(crate) fn write_guest_copies(
    slots: &mut [Option<AssignedFunction>],
    slot: usize,
    word: u8,
    enables: u8,
    value: u32,
) -> (usize, u8)
    requires holds { IsHolding slots.old slot }
    requires aligned { word % 4 ≡ 0 }
    ensures { (holds : IsHolding slots.old slot) →
        WritesOwn slots.old slot holds word enables value slots.new result }
{
    match &mut slots[slot] {
        Some(held) => {
            let others = held.own.config_write(u16::from(word), enables, value);
            (held.index, others)
        }
        None => unreachable!(),
    }
}

/// Calls `write_guest_copies` for a guest's slot, and increments the guest's change count if `changes` is
/// set.
pub(crate) fn write_guest_copies_and_count(
    guests: &mut [Guest],
    guest: usize,
    slot: usize,
    word: u8,
    enables: u8,
    value: u32,
    changes: bool,
) -> (usize, u8)
    requires holds { HoldsAt guests.old guest slot }
    requires aligned { word % 4 ≡ 0 }
    ensures written { (holds : HoldsAt guests.old guest slot)
        → WritesGuest guests.old guest slot holds word enables value guests.new result }
    ensures counts { counts_of guests.new ≡ counted_nth guest changes (counts_of guests.old) }
{
    let guest = &mut guests[guest];
    guest.changed = increment_if(guest.changed, changes);
    write_guest_copies(&mut guest.slots, slot, word, enables, value)
}
