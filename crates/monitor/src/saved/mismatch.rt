//! Finds the first mismatch in bytes that a guest refuses to load with 906 or 908. No call
//! allocates memory.
ghost use Rattle.std.specs.{Prelude.{◌≡◌, ◌≢◌, ◌≤◌, ◌<◌, ◌==◌, IfSome, Some, false, is_some, length, map}, Option.option_map_or};
ghost use Rattle.model_guests.specs.Guests.{lone_of};
ghost use Rattle.model_images.specs.{LoadedBytes.load_fault, Stops.{StopsAt, is_told, slots_read, stop_slot}};
ghost use Rattle.monitor.specs.{ByIndex.name_nth, ShownImages.lone_shown, Views.slot_shown};

use crate::engine::Engine;
use crate::guest::{AssignedFunction, Guest};
use crate::saved::save::{check_image_fits, strip_slot};
use host_bridge::{Host, Route};
use images::{split_off_latch, strip_image_header};

/// The position of the first byte that doesn't fit: its slot (0 to 31, or 32 if the byte is in
/// front of the slots), and its offset in the bytes.
#[derive(Clone, Copy, Debug, PartialEq, Eq)]
pub struct ImageStop {
    pub slot: usize,
    pub offset: usize,
}

/// Returns how many slots fit before the first one that doesn't.
fn slots_before_mismatch(host: &Host, slots: &[Option<AssignedFunction>], bytes: &[u8]) -> usize
    requires { length slots.now ≤ 32 }
    ensures { let fs = map (slot_shown host.now.state.functions) slots.now in
        result ≡ slots_read fs bytes.now }
{
    let mut left = slots;
    let mut bytes = bytes;
    let mut number = 0;
    while let Some((slot, rest)) = left.split_first() {
        let Ok(next) = strip_slot(host, slot, bytes) else {
            return number;
        };
        bytes = next;
        number += 1;
        left = rest;
    }
    number
}

/// Returns the slot that contains the first mismatch, or 32 if it is in front of the first slot.
fn mismatch_slot_or_32(host: &Host, guest: &Guest, bytes: &[u8]) -> usize
    requires { length guest.now.slots.items ≤ 32 }
    ensures { result ≡ stop_slot (lone_shown host.now.state.functions guest.now) bytes.now }
{
    let Ok(bytes) = strip_image_header(bytes) else {
        return 32;
    };
    let Ok((_, bytes)) = split_off_latch(bytes) else {
        return 32;
    };
    slots_before_mismatch(host, &guest.slots, bytes)
}

/// Returns whether the guest refuses the bytes with this fault number.
fn is_refused_with(host: &Host, guest: &Guest, bytes: &[u8], number: u16) -> bool
    ensures { let g = lone_shown host.now.state.functions guest.now in
        result ≡ option_map_or (λ n. n == number) (load_fault g bytes.now) false }
{
    match check_image_fits(host, guest, bytes) {
        Ok(()) => false,
        Err(why) => why.number() == number,
    }
}

/// Returns the offset of the first mismatch in bytes that the guest refuses with this fault number.
/// A binary search finds the shortest prefix that is refused with it; the mismatch is the prefix's
/// last byte.
fn first_mismatch_offset(host: &Host, guest: &Guest, bytes: &[u8], number: u16) -> usize
    requires refused { let g = lone_shown host.now.state.functions guest.now in
        load_fault g bytes.now ≡ Some number }
    requires enough { number ≢ 905 }
    ensures at { StopsAt (lone_shown host.now.state.functions guest.now) bytes.now result }
    ensures within { result < length bytes.now }
{
    let mut low = 0;
    let mut high = bytes.len();
    while high - low > 1 {
        let middle = low + (high - low) / 2;
        if is_refused_with(host, guest, &bytes[..middle], number) {
            high = middle;
        } else {
            low = middle;
        }
    }
    low
}

fn find_first_mismatch(host: &Host, guest: &Guest, bytes: &[u8]) -> Option<ImageStop>
    requires { length guest.now.slots.items ≤ 32 }
    ensures at { let g = lone_shown host.now.state.functions guest.now in
        IfSome result (λ s. StopsAt g bytes.now s.offset) }
    ensures slot { let g = lone_shown host.now.state.functions guest.now in
        IfSome result (λ s. s.slot ≡ stop_slot g bytes.now) }
    ensures within { IfSome result (λ s. s.offset < length bytes.now) }
    ensures told { let g = lone_shown host.now.state.functions guest.now in
        is_some result ≡ is_told (load_fault g bytes.now) }
{
    let Err(why) = check_image_fits(host, guest, bytes) else {
        return None;
    };
    let number = why.number();
    if number == 905 {
        return None;
    }
    let slot = mismatch_slot_or_32(host, guest, bytes);
    let offset = first_mismatch_offset(host, guest, bytes, number);
    Some(ImageStop { slot, offset })
}

impl<R: Route> Engine<R> {
    /// Returns the position of the first mismatch in bytes that a guest refuses because they were
    /// saved from different functions (906), or have a different version of the format (908).
    /// Returns None for all other bytes.
    pub fn image_stop(&self, guest: usize, bytes: &[u8]) -> Option<ImageStop>
        requires { guest < length self.now.world.guests }
        ensures at { let g = lone_of self.now.world.guests (name_nth self.now.world guest) in
            IfSome result (λ s. StopsAt g bytes.now s.offset) }
        ensures slot { let g = lone_of self.now.world.guests (name_nth self.now.world guest) in
            IfSome result (λ s. s.slot ≡ stop_slot g bytes.now) }
        ensures within { IfSome result (λ s. s.offset < length bytes.now) }
        ensures told { let g = lone_of self.now.world.guests (name_nth self.now.world guest) in
            is_some result ≡ is_told (load_fault g bytes.now) }
    {
        let _ = &self.names;
        find_first_mismatch(&self.host, &self.guests[guest], bytes)
    }
}
