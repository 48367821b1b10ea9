//! The report lines of one function and of one guest.
ghost use Rattle.std.specs.Prelude.{◌≡◌, ◌++◌, ◌≤◌, OnOk, map};
ghost use Rattle.lists.specs.Texts.{Adds};
ghost use Rattle.model_guests.specs.Text.{ended, text_of_lines};
ghost use Rattle.model_handoff.specs.{Report.{base_line, pin_text, pin_line, range_text, slot_line, slot_lines}, FoundReport.{base_lines, known_pin_lines, named_window_lines, written_windows, row_head, endpoint_text, windows_text, function_text}};
ghost use Rattle.bars.specs.Slots.{placed, bases_from};
ghost use Rattle.window_packing.specs.Plans.{writes_of};

use crate::fields::{FourHexDigits, Numbers, ShownPath, TwoHexDigits, kind_text};
use accesses::GuestDecl;
use bars::BarWithBase;
use bus_scan::{Enumerated, EnumeratedFunction};
use intx_swizzle::swizzle_to_root;
use paths::Path;
use std::alloc::AllocError;
use window_packing::{RegisterValues, WindowSetting};

/// Appends the line of the region whose first BAR register has this index.
fn push_region(text: &mut String, index: usize, region: &BarWithBase) -> Result<(), AllocError>
    ensures { OnOk result (Adds text.old text.new (ended (base_line (placed index region.now)))) }
{
    let kind = kind_text(region.decl.kind());
    let base = region.base;
    let size = region.decl.size();
    writeln!(text, "  bar{index} {kind} at 0x{base:x} size 0x{size:x}")
}

/// Appends the lines of regions. Each region is at the index of its first BAR register.
fn push_regions(text: &mut String, bases: &[Option<BarWithBase>]) -> Result<(), AllocError>
    ensures { OnOk result (Adds text.old text.new
        (text_of_lines (map base_line (bases_from 0 bases.now)))) }
{
    for (index, slot) in bases.iter().enumerate() {
        if let Some(region) = slot {
            push_region(text, index, region)?;
        }
    }
    Ok(())
}

/// Returns the name of an interrupt pin: INTA to INTD for 1 to 4.
pub fn pin_text(pin: u8) -> &'static str
    requires least { 1 ≤ pin }
    requires most { pin ≤ 4 }
    ensures { result.now ≡ pin_text pin }
{
    match pin {
        1 => "INTA",
        2 => "INTB",
        3 => "INTC",
        _ => "INTD",
    }
}

/// Appends the line of an interrupt pin, with the device and pin on bus 0 that it is routed to.
fn push_pin_route(text: &mut String, path: &Path, pin: u8) -> Result<(), AllocError>
    requires least { 1 ≤ pin }
    requires most { pin ≤ 4 }
    ensures { OnOk result (Adds text.old text.new (ended (pin_line path.now pin))) }
{
    let (device, root) = swizzle_to_root(path, pin);
    let pin = pin_text(pin);
    let root = pin_text(root);
    writeln!(text, "  irq {pin} at {device} {root}")
}

/// Appends the line of an interrupt pin. Appends nothing for pin 0, which means that the function
/// has no interrupt pin, or for a reserved value above 4.
fn push_pin_route_if_valid(text: &mut String, path: &Path, pin: u8) -> Result<(), AllocError>
    ensures { OnOk result (Adds text.old text.new (text_of_lines (known_pin_lines path.now pin))) }
{
    if pin == 0 || pin > 4 {
        return Ok(());
    }
    push_pin_route(text, path, pin)
}

/// Appends the line of a window, unless the window is disabled.
fn push_window_if_enabled(
    text: &mut String,
    name: &str,
    window: &WindowSetting,
) -> Result<(), AllocError>
    ensures { OnOk result (Adds text.old text.new
        (text_of_lines (named_window_lines name.now window.now))) }
{
    let first = window.first;
    let last = window.last;
    if first > last {
        return Ok(());
    }
    writeln!(text, "  {name} 0x{first:x} 0x{last:x}")
}

/// Appends the lines of an endpoint's regions at the base addresses that set-up wrote.
fn push_bars_if_endpoint(text: &mut String, writes: &RegisterValues) -> Result<(), AllocError>
    ensures { OnOk result (Adds text.old text.new
        (text_of_lines (base_lines (writes_of writes.now)))) }
{
    match writes {
        RegisterValues::Endpoint { bases, .. } => push_regions(text, bases),
        RegisterValues::Bridge { .. } => Ok(()),
    }
}

/// Appends a line for each enabled window of a bridge, as set-up programmed it. Appends nothing for
/// an endpoint.
fn push_windows_if_bridge(text: &mut String, writes: &RegisterValues) -> Result<(), AllocError>
    ensures { OnOk result (Adds text.old text.new
        (text_of_lines (written_windows (writes_of writes.now)))) }
{
    match writes {
        RegisterValues::Endpoint { .. } => Ok(()),
        RegisterValues::Bridge { io, mem, pref } => {
            push_window_if_enabled(text, "io", io)?;
            push_window_if_enabled(text, "mem", mem)?;
            push_window_if_enabled(text, "pref", pref)
        }
    }
}

/// Appends the Primary, Secondary and Subordinate Bus Numbers of a bridge.
fn push_bus_numbers(
    text: &mut String,
    primary: u8,
    secondary: u8,
    subordinate: u8,
) -> Result<(), AllocError>
    ensures { OnOk result (Adds text.old text.new (range_text primary secondary subordinate)) }
{
    let primary = TwoHexDigits(primary);
    let secondary = TwoHexDigits(secondary);
    let subordinate = TwoHexDigits(subordinate);
    write!(text, " buses {primary} {secondary} {subordinate}")
}

/// Appends the BDF of a function, its path, its header type, and its Vendor ID and Device ID.
fn push_bdf_path_and_ids(
    text: &mut String,
    row: &EnumeratedFunction,
    kind: &str,
) -> Result<(), AllocError>
    ensures { OnOk result (Adds text.old text.new (row_head row.now kind.now)) }
{
    let part = row.path.last();
    let numbers = Numbers {
        bus: row.bus,
        device: part.device(),
        function: part.function(),
    };
    let path = ShownPath(&row.path);
    let vendor = FourHexDigits(row.vendor);
    let device = FourHexDigits(row.device);
    write!(text, "{numbers} {path}{kind}{vendor}:{device}")
}

/// Ends the first line of an endpoint, and appends the lines of its regions and its interrupt pin.
fn push_rest_of_endpoint(
    text: &mut String,
    path: &Path,
    pin: u8,
    writes: &RegisterValues,
) -> Result<(), AllocError>
    ensures { OnOk result (Adds text.old text.new
        (endpoint_text path.now pin (writes_of writes.now))) }
{
    text.push_str("\n")?;
    push_bars_if_endpoint(text, writes)?;
    push_pin_route_if_valid(text, path, pin)
}

/// Ends the first line of a bridge with its bus numbers, and appends the lines of its windows.
fn push_rest_of_bridge(
    text: &mut String,
    bus: u8,
    secondary: u8,
    subordinate: u8,
    writes: &RegisterValues,
) -> Result<(), AllocError>
    ensures { OnOk result (Adds text.old text.new
        (range_text bus secondary subordinate ++ windows_text (writes_of writes.now))) }
{
    push_bus_numbers(text, bus, secondary, subordinate)?;
    text.push_str("\n")?;
    push_windows_if_bridge(text, writes)
}

/// Appends the lines of a function.
pub(crate) fn push_function(
    text: &mut String,
    row: &EnumeratedFunction,
    writes: &RegisterValues,
) -> Result<(), AllocError>
    ensures { OnOk result (Adds text.old text.new (function_text row.now (writes_of writes.now))) }
{
    match &row.found {
        Enumerated::Endpoint { pin, .. } => {
            push_bdf_path_and_ids(text, row, " endpoint ")?;
            push_rest_of_endpoint(text, &row.path, *pin, writes)
        }
        Enumerated::Bridge {
            secondary,
            subordinate,
            ..
        } => {
            push_bdf_path_and_ids(text, row, " bridge ")?;
            push_rest_of_bridge(text, row.bus, *secondary, *subordinate, writes)
        }
    }
}

/// Appends the line for one slot of a guest.
fn push_slot(text: &mut String, name: &str, slot: usize, path: &Path) -> Result<(), AllocError>
    ensures { OnOk result (Adds text.old text.new (ended (slot_line name.now slot path.now))) }
{
    writeln!(text, "guest {name} slot {slot} {}", ShownPath(path))
}

/// Appends the lines for all slots of a guest.
pub(crate) fn push_slots_of_guest(text: &mut String, guest: &GuestDecl) -> Result<(), AllocError>
    ensures { OnOk result (Adds text.old text.new
        (text_of_lines (slot_lines guest.now.name 0 guest.now.slots))) }
{
    let name = guest.name.as_str();
    for (slot, path) in guest.slots.iter().enumerate() {
        push_slot(text, name, slot, path)?;
    }
    Ok(())
}
