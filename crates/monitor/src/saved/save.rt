//! Saves guests' states, and checks whether a guest can load saved bytes: 905, 906 and 908 say why
//! it can't. No call allocates memory.
ghost use Rattle.std.specs.Prelude.{◌≡◌, ◌≤◌, ◌<◌, ◌+◌, ◌*◌, [], Ok, Err, IfErr, IfOk, length, map, option_map};
ghost use Rattle.model_images.specs.{Images.{image_of_guest, image_of_lone}, ImageBytes.{image_bytes, greatest_function, greatest_image}, LoadedBytes.{after_image, after_slot, after_slots}, SavedLaws.IsTakenByEach};
ghost use Rattle.images.specs.{Faults.number_of, Puts.put, Shown.seen};
ghost use Rattle.monitor.specs.{ByIndex.name_nth, Views.slot_shown, ShownImages.{HasPlaces, HavePlaces, lone_shown, slot_image, slots_image}};

use crate::engine::Engine;
use crate::guest::{AssignedFunction, Guest};
use bridge_forward::EndpointFn;
use guest_functions::VirtualFunction;
use host_bridge::{Host, Route};
use images::{
    ImageFault, image_header_bytes, put_bytes_and_advance, put_function_and_advance,
    refuse_trailing_bytes, saved_function_size, split_off_latch, strip_fitting_slot,
    strip_image_header, strip_slot_tag, u32_to_le_bytes,
};

/// Returns the function in a slot as its guest sees it: the endpoint on the board, and the guest's
/// copies.
pub(crate) fn endpoint_and_guest_copies<'a>(
    host: &'a Host,
    slot: &'a Option<AssignedFunction>,
) -> Option<(&'a EndpointFn, &'a VirtualFunction)>
    ensures { option_map (λ f. seen f.0.now f.1.now) result
        ≡ slot_shown host.now.state.functions slot.now }
{
    let Some(held) = slot else {
        return None;
    };
    let endpoint = host.endpoint_ref_nth(held.index)?;
    Some((endpoint, &held.own))
}

/// Returns how many bytes a slot occupies in a saved state.
fn saved_slot_size(host: &Host, slot: &Option<AssignedFunction>) -> usize
    requires { HasPlaces (slot_shown host.now.state.functions slot.now) }
    ensures size { result ≡ length (slot_image host.now.state.functions slot.now) }
    ensures bound { result ≤ 1 + greatest_function }
{
    match endpoint_and_guest_copies(host, slot) {
        Some((endpoint, _)) => 1 + saved_function_size(endpoint),
        None => 1,
    }
}

fn saved_slots_size(host: &Host, slots: &[Option<AssignedFunction>]) -> usize
    requires places { HavePlaces host.now.state.functions slots.now }
    requires few { length slots.now ≤ 32 }
    ensures size { result ≡ length (slots_image host.now.state.functions slots.now) }
    ensures bound { result ≤ 32 * (1 + greatest_function) }
{
    let mut left = slots;
    let mut size = 0;
    while let Some((slot, rest)) = left.split_first() {
        size += saved_slot_size(host, slot);
        left = rest;
    }
    size
}

/// Writes a slot into a buffer from index `at`, and returns the index after it.
fn put_slot_and_advance(
    host: &Host,
    slot: &Option<AssignedFunction>,
    out: &mut [u8],
    at: usize,
) -> usize
    requires places { HasPlaces (slot_shown host.now.state.functions slot.now) }
    requires room { at + length (slot_image host.now.state.functions slot.now) ≤ length out.old }
    ensures bytes { out.new
        ≡ put at (slot_image host.now.state.functions slot.now) out.old }
    ensures end { result ≡ at + length (slot_image host.now.state.functions slot.now) }
{
    match endpoint_and_guest_copies(host, slot) {
        Some((endpoint, own)) => {
            let next = put_bytes_and_advance(out, at, &[1]);
            put_function_and_advance(endpoint, own, out, next)
        }
        None => put_bytes_and_advance(out, at, &[0]),
    }
}

fn put_slots_and_advance(
    host: &Host,
    slots: &[Option<AssignedFunction>],
    out: &mut [u8],
    at: usize,
) -> usize
    requires places { HavePlaces host.now.state.functions slots.now }
    requires room { at + length (slots_image host.now.state.functions slots.now)
        ≤ length out.old }
    ensures bytes { out.new
        ≡ put at (slots_image host.now.state.functions slots.now) out.old }
    ensures end { result ≡ at + length (slots_image host.now.state.functions slots.now) }
{
    let mut left = slots;
    let mut next = at;
    while let Some((slot, rest)) = left.split_first() {
        next = put_slot_and_advance(host, slot, out, next);
        left = rest;
    }
    next
}

/// Writes the saved state of a guest to the start of a buffer.
fn put_image(host: &Host, guest: &Guest, out: &mut [u8])
    requires places { HavePlaces host.now.state.functions guest.now.slots.items }
    requires room { let g = lone_shown host.now.state.functions guest.now in
        length (image_bytes (image_of_lone g)) ≤ length out.old }
    ensures { let g = lone_shown host.now.state.functions guest.now in
        out.new ≡ put 0 (image_bytes (image_of_lone g)) out.old }
{
    let next = put_bytes_and_advance(out, 0, &image_header_bytes());
    let next = put_bytes_and_advance(out, next, &u32_to_le_bytes(guest.latch.value()));
    put_slots_and_advance(host, &guest.slots, out, next);
}

/// Strips a slot from the front of `bytes`, and returns the rest. Refuses with 906 if the saved
/// slot has different contents, or with 905 if the bytes end early or a register can't hold its
/// saved value.
pub(crate) fn strip_slot<'a>(
    host: &Host,
    slot: &Option<AssignedFunction>,
    bytes: &'a [u8],
) -> Result<&'a [u8], ImageFault>
    ensures left { let f = slot_shown host.now.state.functions slot.now in
        IfOk result (λ rest. after_slot f bytes.now ≡ Ok rest.now) }
    ensures refused { let f = slot_shown host.now.state.functions slot.now in
        IfErr result (λ why. after_slot f bytes.now ≡ Err (number_of why)) }
{
    match endpoint_and_guest_copies(host, slot) {
        Some((endpoint, _)) => strip_fitting_slot(endpoint, bytes),
        None => strip_slot_tag(false, bytes),
    }
}

/// Refuses bytes that aren't saved slots of these functions, with 905 or 906. Accepts all values
/// that the registers can hold.
fn check_bytes_are_slots(
    host: &Host,
    slots: &[Option<AssignedFunction>],
    bytes: &[u8],
) -> Result<(), ImageFault>
    ensures all { let fs = map (slot_shown host.now.state.functions) slots.now in
        IfOk result (λ _. after_slots fs bytes.now ≡ Ok []) }
    ensures refused { let fs = map (slot_shown host.now.state.functions) slots.now in
        IfErr result (λ why. after_slots fs bytes.now ≡ Err (number_of why)) }
{
    let mut left = slots;
    let mut bytes = bytes;
    while let Some((slot, rest)) = left.split_first() {
        bytes = strip_slot(host, slot, bytes)?;
        left = rest;
    }
    refuse_trailing_bytes(bytes)
}

/// Refuses bytes that aren't a saved state for this guest, with 905, 906 or 908. Accepts all values
/// that CONFIG_ADDRESS and the other registers can hold.
pub(crate) fn check_image_fits(host: &Host, guest: &Guest, bytes: &[u8]) -> Result<(), ImageFault>
    ensures all { let g = lone_shown host.now.state.functions guest.now in
        IfOk result (λ _. after_image g bytes.now ≡ Ok []) }
    ensures refused { let g = lone_shown host.now.state.functions guest.now in
        IfErr result (λ why. after_image g bytes.now ≡ Err (number_of why)) }
{
    let bytes = strip_image_header(bytes)?;
    let (_, bytes) = split_off_latch(bytes)?;
    check_bytes_are_slots(host, &guest.slots, bytes)
}

impl<R: Route> Engine<R> {
    /// Returns the size of a guest's saved state in bytes.
    pub fn image_size(&self, guest: usize) -> usize
        requires { guest < length self.now.world.guests }
        ensures size { let image = image_of_guest (name_nth self.now.world guest) self.now.world in
            result ≡ length (image_bytes image) }
        ensures bound { result ≤ greatest_image }
    {
        let _ = &self.names;
        12 + saved_slots_size(&self.host, &self.guests[guest].slots)
    }

    /// Saves a guest's state to the start of a buffer, which must be large enough. The rest of the
    /// buffer isn't changed. Any guest with equal declarations, on any machine, can load the bytes.
    /// Its accesses are then answered as this guest's would have been.
    pub fn save(&self, guest: usize, out: &mut [u8])
        requires there { guest < length self.now.world.guests }
        requires room { let image = image_of_guest (name_nth self.now.world guest) self.now.world in
            length (image_bytes image) ≤ length out.old }
        ensures bytes { let image = image_of_guest (name_nth self.now.world guest) self.now.world in
            out.new ≡ put 0 (image_bytes image) out.old }
        ensures taken { IsTakenByEach self.now.world (name_nth self.now.world guest) }
    {
        let _ = &self.names;
        put_image(&self.host, &self.guests[guest], out)
    }
}
