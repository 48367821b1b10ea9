//! Moves of functions between slots.
ghost use Rattle.std.specs.Prelude.{◌≡◌, ◌<◌, Some, length, option_map, slice_get, slice_set};
ghost use Rattle.accesses.specs.Refusals.{number_of};
ghost use Rattle.monitor.specs.{Configs.HoldsAt, Counts.{counts_of, counted_both, counted_nth}, Moves.{is_taken, fault_between, HasSlot, IsExchanged, HandsOver}};

use crate::access::change_count::increment_if;
use crate::access::config::function_in_slot;
use crate::guest::{AssignedFunction, Guest};
use accesses::Refusal;
use host_bridge::Host;
use std::mem::replace;

/// Returns whether a slot is occupied.
pub(crate) fn is_slot_occupied(slots: &[Option<AssignedFunction>], slot: usize) -> bool
    ensures { result ≡ is_taken slots.now slot }
{
    function_in_slot(slots, slot).is_some()
}

/// Returns why a move is refused: 303 if a slot is above 31, else 601 if the source slot is empty,
/// else 602 if the target slot is occupied. Returns None for any other move.
pub(crate) fn find_move_refusal(
    from: &[Option<AssignedFunction>],
    slot: u64,
    to: &[Option<AssignedFunction>],
    target: u64,
) -> Option<Refusal>
    ensures { option_map number_of result ≡ fault_between from.now slot to.now target }
{
    if slot > 31 || target > 31 {
        Some(Refusal::Range)
    } else if !is_slot_occupied(from, slot as usize) {
        Some(Refusal::EmptySlot)
    } else if is_slot_occupied(to, target as usize) {
        Some(Refusal::SlotTaken)
    } else {
        None
    }
}

/// Replaces the contents of a slot, and returns the previous contents.
fn replace_slot(
    slots: &mut [Option<AssignedFunction>],
    slot: usize,
    held: Option<AssignedFunction>,
) -> Option<AssignedFunction>
    requires { slot < length slots.old }
    ensures slots { slots.new ≡ slice_set slots.old slot held }
    ensures was { slice_get slots.old slot ≡ Some result }
{
    replace(&mut slots[slot], held)
}

/// Replaces the contents of a guest's slot, and returns the previous contents. Increments the
/// guest's change count if `changes` is set.
pub(crate) fn replace_guest_slot(
    guests: &mut [Guest],
    guest: usize,
    slot: usize,
    held: Option<AssignedFunction>,
    changes: bool,
) -> Option<AssignedFunction>
    requires { HasSlot guests.old guest slot }
    ensures exchanged { IsExchanged guests.old guest slot result held guests.new }
    ensures counts { counts_of guests.new ≡ counted_nth guest changes (counts_of guests.old) }
{
    let guest = &mut guests[guest];
    guest.changed = increment_if(guest.changed, changes);
    replace_slot(&mut guest.slots, slot, held)
}

/// Moves a function to another slot and resets it: the guest's copies in the slot record, and all
/// other registers on the board. Increments the change counts of the source guest and the target
/// guest, only once if they are the same guest.
pub(crate) fn move_and_reset(
    host: &mut Host,
    guests: &mut [Guest],
    from: usize,
    slot: usize,
    to: usize,
    target: usize,
)
    requires holds { HoldsAt guests.old from slot }
    requires has { HasSlot guests.old to target }
    ensures over { HandsOver host.old guests.old from slot to target host.new guests.new }
    ensures counts { counts_of guests.new ≡ counted_both from to (counts_of guests.old) }
{
    let Some(mut held) = replace_guest_slot(guests, from, slot, None, true) else {
        unreachable!()
    };
    held.own.reset();
    host.reset_except_routing_nth(held.index);
    let _empty = replace_guest_slot(guests, to, target, Some(held), to != from);
}
