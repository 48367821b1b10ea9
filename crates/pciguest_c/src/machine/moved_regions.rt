//! The call that finds the regions of a guest that have moved since the last call.
ghost use Rattle.std.specs.Prelude.{◌≡◌, ◌<◌, ◌==◌, Some, count_by, length};
ghost use Rattle.pciguest_c.specs.{Calls.{Answers, IsAnswer, answer, moved, place_buffer}, MovesTold.{is_same_region, region_of_row_or_zeros, region_change_row, places_from}};

use crate::handle::Handle;
use crate::machine::regions::{NO_REGION, RegionTold, region_to_c};
use crate::values::arguments::check_guest;
use crate::values::numbers::NO_MACHINE;
use monitor::Monitor;
use session::Session;
use std::alloc::Global;

/// A region's current description, and its description when the row was last updated. A description
/// is all 0 if there was no region.
#[repr(C)]
#[derive(Clone, Copy)]
pub struct PlaceRow {
    pub now: RegionTold,
    pub before: RegionTold,
    pub has_moved: u32,
    pub reserved: u32,
}

/// Returns whether two descriptions of a region agree in all fields, including whether decode is
/// enabled.
fn is_same_region(one: &RegionTold, other: &RegionTold) -> bool
    ensures { result ≡ is_same_region one.now other.now }
{
    one.first == other.first
        && one.size == other.size
        && one.space == other.space
        && one.prefetchable == other.prefetchable
        && one.is_open == other.is_open
}

/// Returns the row of a region from its current and its previous description.
fn region_change_row(now: RegionTold, before: RegionTold) -> PlaceRow
    ensures { result ≡ region_change_row now before }
{
    let has_moved = u32::from(!is_same_region(&now, &before));
    PlaceRow {
        now,
        before,
        has_moved,
        reserved: 0,
    }
}

/// Returns the current description of a guest's region by its number, which is 6 times the slot
/// plus the register.
fn region_of_row_or_zeros(machine: &Monitor, guest: usize, number: usize) -> RegionTold
    requires { guest < length machine.now.world.guests }
    ensures { result ≡ region_of_row_or_zeros machine.now.world guest number }
{
    match machine.region(guest, (number / 6) as u64, (number % 6) as u64) {
        Ok(region) => region_to_c(region),
        Err(_) => NO_REGION,
    }
}

/// Updates each row from the guest's current registers.
fn update_rows(machine: &Monitor, guest: usize, places: &mut [PlaceRow])
    requires { guest < length machine.now.world.guests }
    ensures { places.new ≡ places_from machine.now.world guest 0 places.old }
{
    for number in 0..places.len() {
        let now = region_of_row_or_zeros(machine, guest, number);
        places[number] = region_change_row(now, places[number].now);
    }
}

/// Returns how many of the rows have moved.
fn count_moved_rows(places: &[PlaceRow]) -> usize
    ensures { result ≡ count_by (λ p. p.has_moved == 1) places.now }
{
    places.iter().filter(|place| place.has_moved == 1).count()
}

/// Updates the rows for a guest of the session's machine. Returns 901 if the session has no
/// machine, or 902 if there is no such guest.
fn update_and_count_moved_rows(
    session: &mut Session,
    guest: usize,
    places: &mut [PlaceRow],
    count: &mut usize,
) -> u32
    ensures { IsAnswer
        (answer (moved guest places.old) (Some session.old) (place_buffer places.old count.old))
        (Some session.new) result (place_buffer places.new count.new) }
{
    let Some(machine) = session.monitor() else {
        return NO_MACHINE;
    };
    match check_guest(machine, guest) {
        Ok(()) => {
            update_rows(machine, guest, places);
            *count = count_moved_rows(places);
            0
        }
        Err(number) => number,
    }
}

/// Updates rows that describe the guest's regions, six for each slot, and stores how many have
/// changed since the rows were last updated. A region changes if it moves, or if its decode is
/// enabled or disabled. No memory is allocated.
#[unsafe(no_mangle)]
pub extern "C" fn pciguest_raw_moved(
    alloc: Global,
    handle: &mut Handle,
    guest: usize,
    places: &mut [PlaceRow],
    count: &mut usize,
) -> u32
    ensures { Answers (moved guest places.old) handle.old handle.new result
        (place_buffer places.old count.old) (place_buffer places.new count.new) }
{
    let Some(mut session) = handle.take(alloc) else {
        return NO_MACHINE;
    };
    let number = update_and_count_moved_rows(&mut session, guest, places, count);
    *handle = Handle::of(session);
    number
}
