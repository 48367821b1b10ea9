//! Loads a guest's saved state: its slots in order, and then CONFIG_ADDRESS. Bytes that don't fit
//! the guest are refused with 905, 906 or 908. No call allocates memory.
ghost use Rattle.std.specs.Prelude.{◌≡◌, ◌<◌, List, ℕ, None, Ok, IfSome, IsSome, true, length, map, option_map, take, drop};
ghost use Rattle.model_guests.specs.{Slots.slot_at, Guests.lone_of};
ghost use Rattle.model_images.specs.{Images.lone_of_image, ImageBytes.image_of, LoadedBytes.{after_latch, load_fault}, TakenBytes.{le_number, slot_size, taken_image}};
ghost use Rattle.images.specs.Faults.{number_of};
ghost use Rattle.monitor.specs.{ByIndex.{lone_nth, name_nth, with_lone_nth}, Counts.{counts_of, counted_nth}, Keeping.IsKept, Moves.HasSlot, Views.slot_shown, Loads.{AreLoadable, CanLoad, IsLoaded, KeepsWorld, Takes, slot_loaded, slots_loaded, value_span}};

use crate::access::config_address::write_latch;
use crate::engine::Engine;
use crate::guest::{AssignedFunction, Guest};
use crate::saved::load_function::load_function;
use crate::saved::save::{check_image_fits, endpoint_and_guest_copies};
use crate::slots::reset_guest::reset_guest_and_count;
use host_bridge::{Host, Route};
use images::{ImageFault, count_endpoint_cells, encoded_declaration_size, split_off_latch};
use model_images::saved_bytes_are_accepted;

/// Returns the bytes after the first `count`, or none if there are fewer.
fn skip_up_to(bytes: &[u8], count: usize) -> &[u8]
    ensures { result.now ≡ drop count bytes.now }
{
    if bytes.len() < count {
        return &[];
    }
    &bytes[count..]
}

/// Returns the first `count` bytes, or all if there are fewer.
fn take_up_to(bytes: &[u8], count: usize) -> &[u8]
    ensures { result.now ≡ take count bytes.now }
{
    if bytes.len() < count {
        return bytes;
    }
    &bytes[..count]
}

/// Returns how many bytes of a slot precede its register values, and how many values there are.
/// Returns None for an empty slot.
fn values_offset_and_count(
    host: &Host,
    slots: &[Option<AssignedFunction>],
    slot: usize,
) -> Option<(usize, usize)>
    ensures { let fs = map (slot_shown host.now.state.functions) slots.now in
        result ≡ option_map value_span (slot_at fs slot) }
{
    let (endpoint, _) = endpoint_and_guest_copies(host, slots.get(slot)?)?;
    let decl = endpoint.decl();
    Some((
        1 + encoded_declaration_size(decl),
        count_endpoint_cells(decl),
    ))
}

/// Loads the function in a slot from the front of `bytes`, and returns the bytes after the slot.
/// Doesn't touch the change count.
fn load_slot_and_advance<'a>(
    host: &mut Host,
    guests: &mut [Guest],
    guest: usize,
    slot: usize,
    bytes: &'a [u8],
) -> &'a [u8]
    requires there { guest < length guests.old }
    requires can { (k : KeepsWorld host.old guests.old)
        × CanLoad (slot_at (lone_nth k.world guest).slots slot) bytes.now }
    ensures kept { (k : KeepsWorld host.old guests.old)
        → CanLoad (slot_at (lone_nth k.world guest).slots slot) bytes.now
        → let loaded = slot_loaded slot bytes.now (lone_nth k.world guest) in
        IsKept (with_lone_nth guest loaded k.world) host.new k.names guests.new }
    ensures behind { (k : KeepsWorld host.old guests.old)
        → result.now ≡ drop
        (slot_size (slot_at (lone_nth k.world guest).slots slot)) bytes.now }
    ensures counts { counts_of guests.new ≡ counts_of guests.old }
{
    let Some((first, count)) = values_offset_and_count(host, &guests[guest].slots, slot) else {
        return skip_up_to(bytes, 1);
    };
    let bytes = skip_up_to(bytes, first);
    load_function(host, guests, guest, slot, take_up_to(bytes, count));
    skip_up_to(bytes, count)
}

/// Loads all slots of a guest.
fn load_slots(host: &mut Host, guests: &mut [Guest], guest: usize, bytes: &[u8])
    requires there { guest < length guests.old }
    requires can { (k : KeepsWorld host.old guests.old)
        × AreLoadable (lone_nth k.world guest).slots bytes.now }
    ensures kept { (k : KeepsWorld host.old guests.old)
        → AreLoadable (lone_nth k.world guest).slots bytes.now
        → let loaded = slots_loaded bytes.now (lone_nth k.world guest) in
        IsKept (with_lone_nth guest loaded k.world) host.new k.names guests.new }
    ensures counts { counts_of guests.new ≡ counts_of guests.old }
{
    let mut left = bytes;
    for slot in 0..32 {
        left = load_slot_and_advance(host, guests, guest, slot, left);
    }
}

/// Returns the value of CONFIG_ADDRESS at the front of the bytes, or 0 if there is no valid one.
fn latch_or_zero(bytes: &[u8]) -> u32
    ensures { (rest : List ℕ) → after_latch bytes.now ≡ Ok rest
        → result ≡ le_number (take 4 bytes.now) }
{
    match split_off_latch(bytes) {
        Ok((latch, _)) => latch,
        Err(_) => 0,
    }
}

/// Resets the guest, which adds one to its change count, and then loads its functions and its
/// CONFIG_ADDRESS from bytes that fit the guest.
fn reset_and_load_image(host: &mut Host, guests: &mut [Guest], guest: usize, bytes: &[u8])
    requires has { HasSlot guests.old guest 31 }
    requires takes { (k : KeepsWorld host.old guests.old)
        × Takes (lone_nth k.world guest) bytes.now }
    ensures kept { (k : KeepsWorld host.old guests.old)
        → Takes (lone_nth k.world guest) bytes.now
        → let loaded = lone_of_image (taken_image (lone_nth k.world guest) bytes.now) in
        IsKept (with_lone_nth guest loaded k.world) host.new k.names guests.new }
    ensures counts { counts_of guests.new ≡ counted_nth guest true (counts_of guests.old) }
{
    reset_guest_and_count(host, guests, guest);
    load_slots(host, guests, guest, skip_up_to(bytes, 12));
    write_latch(guests, guest, latch_or_zero(skip_up_to(bytes, 8)));
}

impl<R: Route> Engine<R> {
    /// Loads bytes that `check_image_fits` accepts for the guest.
    fn load_accepted_image(&mut self, guest: usize, bytes: &[u8])
        requires there { guest < length self.old.world.guests }
        requires accepted { let g = lone_of self.old.world.guests (name_nth self.old.world guest) in
            load_fault g bytes.now ≡ None }
        ensures { IsLoaded self.old (name_nth self.old.world guest) bytes.now self.new }
    {
        let _ = &self.names;
        reset_and_load_image(&mut self.host, &mut self.guests, guest, bytes);
    }

    /// Loads a guest's saved state: sets the guest's functions and its CONFIG_ADDRESS to the saved
    /// values, by a reset and by writes that the guest and its devices could make themselves. Adds
    /// one to the guest's change count, and doesn't affect other guests. Refuses with 905 if the
    /// bytes aren't a saved state, 906 if the guest has different functions in its slots, or 908 if
    /// the bytes have a different version of the format. The first byte that doesn't fit determines
    /// the number. A refusal changes nothing. Allocates no memory.
    pub fn load(&mut self, guest: usize, bytes: &[u8]) -> Option<ImageFault>
        requires { guest < length self.old.world.guests }
        ensures fault { let g = lone_of self.old.world.guests (name_nth self.old.world guest) in
            option_map number_of result ≡ load_fault g bytes.now }
        ensures no_image { IfSome result (λ why.
            number_of why ≡ 905 → image_of bytes.now ≡ None) }
        ensures refused { IsSome result → self.new ≡ self.old }
        ensures loaded { result ≡ None
            → IsLoaded self.old (name_nth self.old.world guest) bytes.now self.new }
    {
        saved_bytes_are_accepted();
        let _ = &self.names;
        if let Err(why) = check_image_fits(&self.host, &self.guests[guest], bytes) {
            return Some(why);
        }
        self.load_accepted_image(guest, bytes);
        None
    }
}
