//! The description of a function as a C struct without pointers.
ghost use Rattle.std.specs.{Prelude.{◌≡◌, ◌≤◌, length, option_map}, Option.option_map_or};
ghost use Rattle.model_board.specs.Routing.{regions};
ghost use Rattle.model_guests.specs.PathTexts.{path_text};
ghost use Rattle.model_handoff.specs.GuestRegions.{is_prefetchable};
ghost use Rattle.bars.specs.{Kinds.kind_of, Slots.{placed, bases_from}};
ghost use Rattle.bridge_forward.specs.{RoutingRows.window_of, ByIndex.ranges_told};
ghost use Rattle.monitor.specs.FunctionsTold.{function_named};
ghost use Rattle.pciguest_c.specs.{QueriesTold.one_if, FunctionsTold.{no_region, region_row, region_rows, window_row, window_rows, bridge_flag, zero_padded_text, function_row}};

use crate::texts::reports::copy_whole_to_front;
use crate::values::interrupts::Interrupt;
use bars::{BarWithBase, Kind, Space};
use bridge_forward::Window;
use findings::path_text;
use host_bridge::ProgrammedRanges;
use monitor::{Assignment, LiveFunction};

/// The region of a BAR, in the layout of the C struct. `space` is 1 for I/O and 2 for memory. All
/// fields are 0 if no region begins at the register.
#[repr(C)]
#[derive(Clone, Copy)]
pub struct RegionRow {
    pub first: u64,
    pub size: u64,
    pub space: u32,
    pub prefetchable: u32,
    pub is_64_bit: u32,
}

/// A bridge window, in the layout of the C struct. All fields are 0 if there is no such window.
#[repr(C)]
#[derive(Clone, Copy)]
pub struct WindowRow {
    pub first: u64,
    pub last: u64,
    pub is_there: u32,
}

/// A function of the board, in the layout of the C struct. `guest` and `slot` are 0 if the function
/// is unassigned.
#[repr(C)]
#[derive(Clone, Copy)]
pub struct FunctionTold {
    pub path: [u8; 80],
    pub path_length: usize,
    pub bus: u32,
    pub device: u32,
    pub function: u32,
    pub vendor_id: u32,
    pub device_id: u32,
    pub revision_id: u32,
    pub class_code: u32,
    pub subsystem_vendor_id: u32,
    pub subsystem_id: u32,
    pub is_bridge: u32,
    pub regions: [RegionRow; 6],
    pub windows: [WindowRow; 3],
    pub guest: usize,
    pub slot: u64,
    pub is_given: u32,
    pub interrupt: Interrupt,
    pub reserved: [u64; 4],
}

/// The entry for a register at which no region begins.
const NO_REGION: RegionRow = RegionRow {
    first: 0,
    size: 0,
    space: 0,
    prefetchable: 0,
    is_64_bit: 0,
};

/// Returns 1 for prefetchable memory, 0 for other kinds of region.
fn prefetchable_flag(kind: Kind) -> u32
    ensures { result ≡ one_if (is_prefetchable (kind_of kind)) }
{
    match kind {
        Kind::Io => 0,
        Kind::Mem32 { pref } | Kind::Mem64 { pref } => u32::from(pref),
    }
}

/// Converts the region that begins at a register to its C struct.
fn region_row(slot: Option<BarWithBase>) -> RegionRow
    ensures { result
        ≡ option_map_or (λ (r : BarWithBase). region_row (placed 0 r)) slot no_region }
{
    let Some(region) = slot else {
        return NO_REGION;
    };
    let kind = region.decl.kind();
    RegionRow {
        first: region.base,
        size: region.decl.size(),
        space: match kind.space() {
            Space::Io => 1,
            Space::Mem => 2,
        },
        prefetchable: prefetchable_flag(kind),
        is_64_bit: u32::from(kind.uses_two_registers()),
    }
}

/// Converts the regions of six registers to an array of C structs.
fn region_rows_of_bars(slots: &[Option<BarWithBase>; 6]) -> [RegionRow; 6]
    ensures { result ≡ region_rows (regions (bases_from 0 slots.now)) }
{
    [
        region_row(slots[0]),
        region_row(slots[1]),
        region_row(slots[2]),
        region_row(slots[3]),
        region_row(slots[4]),
        region_row(slots[5]),
    ]
}

/// Converts a window to its C struct.
fn window_row(window: Option<Window>) -> WindowRow
    ensures { result ≡ window_row (option_map window_of window) }
{
    match window {
        Some(window) => WindowRow {
            first: window.first,
            last: window.last,
            is_there: 1,
        },
        None => WindowRow {
            first: 0,
            last: 0,
            is_there: 0,
        },
    }
}

/// Returns an endpoint's regions by register, or six empty entries for a bridge.
fn region_rows(ranges: ProgrammedRanges) -> [RegionRow; 6]
    ensures { result ≡ region_rows (ranges_told ranges) }
{
    match ranges {
        ProgrammedRanges::Regions(slots) => region_rows_of_bars(&slots),
        ProgrammedRanges::Windows { .. } => [NO_REGION; 6],
    }
}

/// Returns a bridge's I/O, memory and prefetchable windows, or three empty entries for an endpoint.
fn window_rows(ranges: ProgrammedRanges) -> [WindowRow; 3]
    ensures { result ≡ window_rows (ranges_told ranges) }
{
    match ranges {
        ProgrammedRanges::Regions(_) => [window_row(None); 3],
        ProgrammedRanges::Windows { io, mem, pref } => {
            [window_row(io), window_row(mem), window_row(pref)]
        }
    }
}

/// Returns 1 for a bridge, 0 for an endpoint.
fn bridge_flag(ranges: ProgrammedRanges) -> u32
    ensures { result ≡ bridge_flag (ranges_told ranges) }
{
    match ranges {
        ProgrammedRanges::Regions(_) => 0,
        ProgrammedRanges::Windows { .. } => 1,
    }
}

/// Copies a text to the front of an 80-byte array and fills the rest with 0.
pub fn zero_padded_text(text: &[u8]) -> [u8; 80]
    requires { length text.now ≤ 80 }
    ensures { result ≡ zero_padded_text text.now }
{
    let mut bytes = [0; 80];
    copy_whole_to_front(&mut bytes, text);
    bytes
}

/// Converts a function's description and its interrupt to the C struct.
pub fn function_row(function: &LiveFunction, interrupt: Interrupt) -> FunctionTold
    ensures { result ≡ function_row (function_named function.now) interrupt }
{
    let text = path_text(&function.path);
    let identity = function.identity;
    let seat = function.seat.unwrap_or(Assignment { guest: 0, slot: 0 });
    FunctionTold {
        path: zero_padded_text(&text),
        path_length: text.len(),
        bus: u32::from(function.at.bus),
        device: u32::from(function.at.device),
        function: u32::from(function.at.function),
        vendor_id: identity.vendor,
        device_id: identity.device,
        revision_id: identity.revision,
        class_code: identity.class,
        subsystem_vendor_id: identity.subvendor,
        subsystem_id: identity.subsystem,
        is_bridge: bridge_flag(function.ranges),
        regions: region_rows(function.ranges),
        windows: window_rows(function.ranges),
        guest: seat.guest,
        slot: seat.slot as u64,
        is_given: u32::from(function.seat.is_some()),
        interrupt,
        reserved: [0; 4],
    }
}
