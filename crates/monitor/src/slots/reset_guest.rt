//! Resets a guest: all functions in its slots, and its CONFIG_ADDRESS.
ghost use Rattle.std.specs.Prelude.{◌≡◌, ◌≤◌, ◌<◌, ℕ, List, Some, true, length, slice_get, slice_set};
ghost use Rattle.model_guests.specs.{Text.Text, WorldNow.WorldNow, DeviceEvents.reset_in};
ghost use Rattle.model_handoff.specs.Changes.{after_change};
ghost use Rattle.model_images.specs.{Images.at_reset, Requests.restarts, RequestLaws.after_request_on_machine};
ghost use Rattle.monitor.specs.{declared.guest.Guest.Guest, ByIndex.{lone_nth, name_nth, with_lone_nth}, Counts.{counts_of, counted_nth}, Keeping.IsKept, Moves.HasSlot, Restarts.slots_at_reset};

use crate::access::change_count::increment_if;
use crate::engine::Engine;
use crate::guest::Guest;
use crate::slots::moving::replace_guest_slot;
use guest_functions::Latch;
use host_bridge::{Host, Route};

/// Resets the function in a guest's slot, if there is one. Doesn't touch the change count.
fn reset_slot(host: &mut Host, guests: &mut [Guest], guest: usize, slot: usize)
    requires has { HasSlot guests.old guest slot }
    requires low { slot ≤ 31 }
    ensures kept { (w : WorldNow) (names : List Text) → IsKept w host.old names guests.old
        → IsKept (with_lone_nth guest (reset_in slot (lone_nth w guest)) w) host.new names
        guests.new }
    ensures still { (i n : ℕ) → HasSlot guests.old i n → HasSlot guests.new i n }
    ensures counts { counts_of guests.new ≡ counts_of guests.old }
{
    let Some(mut held) = replace_guest_slot(guests, guest, slot, None, false) else {
        return;
    };
    held.own.reset();
    host.reset_except_routing_nth(held.index);
    let _empty = replace_guest_slot(guests, guest, slot, Some(held), false);
}

/// Resets the functions in all slots of a guest.
fn reset_slots(host: &mut Host, guests: &mut [Guest], guest: usize)
    requires { HasSlot guests.old guest 31 }
    ensures kept { (w : WorldNow) (names : List Text) → IsKept w host.old names guests.old
        → IsKept (slots_at_reset guest w) host.new names guests.new }
    ensures counts { counts_of guests.new ≡ counts_of guests.old }
{
    for slot in 0..32 {
        reset_slot(host, guests, guest, slot);
    }
}

/// Clears a guest's CONFIG_ADDRESS, and adds one to its change count.
fn clear_latch_and_count_change(guests: &mut [Guest], guest: usize)
    requires { guest < length guests.old }
    ensures { (g : Guest) → slice_get guests.old guest ≡ Some g
        → guests.new
        ≡ slice_set guests.old guest
        (record g { latch = 0; changed = after_change true g.changed }) }
{
    let guest = &mut guests[guest];
    guest.latch = Latch::new();
    guest.changed = increment_if(guest.changed, true);
}

/// Resets all functions of a guest, clears its CONFIG_ADDRESS, and adds one to its change count.
pub(crate) fn reset_guest_and_count(host: &mut Host, guests: &mut [Guest], guest: usize)
    requires { HasSlot guests.old guest 31 }
    ensures kept { (w : WorldNow) (names : List Text) → IsKept w host.old names guests.old
        → IsKept (with_lone_nth guest (at_reset (lone_nth w guest)) w) host.new names guests.new }
    ensures counts { counts_of guests.new ≡ counted_nth guest true (counts_of guests.old) }
{
    clear_latch_and_count_change(guests, guest);
    reset_slots(host, guests, guest);
}

impl<R: Route> Engine<R> {
    /// Resets all functions in a guest's slots, and clears the guest's CONFIG_ADDRESS. Adds one to
    /// the guest's change count. Allocates no memory.
    pub fn reset_guest(&mut self, guest: usize)
        requires { guest < length self.old.world.guests }
        ensures { self.new
            ≡ after_request_on_machine self.old (restarts (name_nth self.old.world guest)) }
    {
        let _ = &self.names;
        reset_guest_and_count(&mut self.host, &mut self.guests, guest);
    }
}
