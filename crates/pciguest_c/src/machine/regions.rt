//! The calls that locate the regions of a guest, count how often they may have moved, and find the
//! target of a guest's access.
ghost use Rattle.std.specs.Prelude.{◌≡◌, Some, IfSome, option_map, slice_get};
ghost use Rattle.monitor.specs.Queries.{region_named, hit_named};
ghost use Rattle.pciguest_c.specs.{Handles.machine_of, Calls.{Answers, region, changed, locate, number, a_region, a_hit}, QueriesTold.{region_told, hit_told}};

use crate::handle::Handle;
use crate::values::arguments::{check_guest, parse_guest_target};
use crate::values::numbers::store_result_if_ok;
use accesses::Place;
use monitor::{DecodedByte, GuestRegion, Space};
use std::alloc::Global;

/// A region of a guest's function, in the layout of the C struct. `space` is 1 for I/O and 2 for
/// memory.
#[repr(C)]
#[derive(Clone, Copy)]
pub struct RegionTold {
    pub first: u64,
    pub size: u64,
    pub space: u32,
    pub prefetchable: u32,
    pub is_open: u32,
}

/// The byte that an access reaches, in the layout of the C struct. `part` is a BAR, 0 to 5, or 6
/// for configuration space. All fields are 0 if the access reaches nothing.
#[repr(C)]
#[derive(Clone, Copy)]
pub struct HitTold {
    pub slot: u64,
    pub offset: u64,
    pub part: u32,
    pub found: u32,
}

/// The description of a missing region.
pub const NO_REGION: RegionTold = RegionTold {
    first: 0,
    size: 0,
    space: 0,
    prefetchable: 0,
    is_open: 0,
};

/// Converts a region to its C struct.
pub fn region_to_c(region: GuestRegion) -> RegionTold
    ensures { result ≡ region_told (region_named region) }
{
    RegionTold {
        first: region.first,
        size: region.size,
        space: match region.space {
            Space::Io => 1,
            Space::Mem => 2,
        },
        prefetchable: u32::from(region.prefetchable),
        is_open: u32::from(region.is_open),
    }
}

/// Converts the target of an access to its C struct.
fn hit_to_c(hit: Option<DecodedByte>) -> HitTold
    ensures { result ≡ hit_told (option_map hit_named hit) }
{
    match hit {
        None => HitTold {
            slot: 0,
            offset: 0,
            part: 0,
            found: 0,
        },
        Some(hit) => HitTold {
            slot: hit.slot as u64,
            offset: hit.offset,
            part: match hit.place {
                Place::Cfg => 6,
                Place::Bar(register) => u32::from(register),
            },
            found: 1,
        },
    }
}

/// Stores the current address and size of the region that begins at a BAR, according to the guest's
/// own registers.
#[unsafe(no_mangle)]
pub extern "C" fn pciguest_raw_region(
    alloc: Global,
    handle: &mut Handle,
    guest: usize,
    slot: u64,
    bar: u32,
    told: &mut RegionTold,
) -> u32
    ensures { Answers (region guest slot bar) handle.old handle.new result
        (a_region told.old) (a_region told.new) }
{
    let answer = handle.with_machine(alloc, |machine| {
        check_guest(machine, guest)?;
        match machine.region(guest, slot, u64::from(bar)) {
            Ok(region) => Ok(region_to_c(region)),
            Err(why) => Err(u32::from(why.number())),
        }
    });
    store_result_if_ok(answer, told)
}

/// Stores a guest's change count, which increases whenever a result of `pciguest_raw_region` for
/// this guest may have changed.
#[unsafe(no_mangle)]
pub extern "C" fn pciguest_raw_changed(
    alloc: Global,
    handle: &mut Handle,
    guest: usize,
    count: &mut u64,
) -> u32
    ensures told { Answers (changed guest) handle.old handle.new result
        (number count.old) (number count.new) }
    ensures counted { result ≡ 0 → IfSome (machine_of handle.old) (λ m.
        slice_get m.counts guest ≡ Some count.new) }
{
    let answer = handle.with_machine(alloc, |machine| {
        check_guest(machine, guest)?;
        Ok(machine.changed(guest))
    });
    store_result_if_ok(answer, count)
}

/// Stores the byte of the guest's functions that an access reaches, or zeros if it reaches nothing.
#[unsafe(no_mangle)]
pub extern "C" fn pciguest_raw_locate(
    alloc: Global,
    handle: &mut Handle,
    guest: usize,
    space: u32,
    slot: u64,
    place: u64,
    told: &mut HitTold,
) -> u32
    ensures { Answers (locate guest space slot place) handle.old handle.new result
        (a_hit told.old) (a_hit told.new) }
{
    let answer = handle.with_machine(alloc, |machine| {
        let at = parse_guest_target(machine, guest, space, slot, place)?;
        match machine.locate(guest, at) {
            Ok(hit) => Ok(hit_to_c(hit)),
            Err(why) => Err(u32::from(why.number())),
        }
    });
    store_result_if_ok(answer, told)
}
