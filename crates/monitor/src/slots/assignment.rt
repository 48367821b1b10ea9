//! Finds the guest's slot to which a function is assigned.
ghost use Rattle.std.specs.Prelude.{◌≡◌, ◌+◌, ◌<◌, ◌^◌, length, option_map, position};
ghost use Rattle.monitor.specs.{FunctionsTold.{seat_named, seat_kept}, InSlots.is_at};

use crate::guest::{AssignedFunction, Guest};

/// A guest's slot: the guest's index and the slot's number.
#[derive(Clone, Copy, Debug, PartialEq, Eq)]
pub struct Assignment {
    pub guest: usize,
    pub slot: usize,
}

/// Returns whether the function at an index is in a slot.
pub(crate) fn slot_has_function(slot: &Option<AssignedFunction>, index: usize) -> bool
    ensures { result ≡ is_at index slot.now }
{
    match slot {
        Some(held) => held.index == index,
        None => false,
    }
}

/// Returns the first slot that contains the function at an index.
fn find_slot_of_function(slots: &[Option<AssignedFunction>], index: usize) -> Option<usize>
    ensures { result ≡ position (is_at index) slots.now }
{
    slots.iter().position(|slot| slot_has_function(slot, index))
}

/// Returns the guest and the slot to which the function at an index is assigned. `first` is the
/// index of the first guest in the slice.
pub(crate) fn find_assignment(guests: &[Guest], index: usize, first: usize) -> Option<Assignment>
    requires { first + length guests.now < 2 ^ 63 }
    ensures { option_map seat_named result ≡ seat_kept index first guests.now }
{
    match guests {
        [] => None,
        [guest, rest @ ..] => match find_slot_of_function(&guest.slots, index) {
            Some(slot) => Some(Assignment { guest: first, slot }),
            None => find_assignment(rest, index, first + 1),
        },
    }
}
