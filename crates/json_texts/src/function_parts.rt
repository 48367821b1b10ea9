//! BARs, capability lists, interrupts and windows as JSON.
ghost use Rattle.std.specs.Prelude.{◌≡◌, ◌≤◌, IfOk, map, option_map};
ghost use Rattle.serde_json.specs.View.{view};
ghost use Rattle.model_registers.specs.Capabilities.{Listed};
ghost use Rattle.bars.specs.Slots.{placed, bases_from};
ghost use Rattle.bridge_forward.specs.RoutingRows.{window_of};
ghost use Rattle.window_packing.specs.Plans.{writes_of};
ghost use Rattle.json_texts.specs.{ReportValue.{region_value, capability_value, pin_route_value, range_value, windows_value}, WhyValue.window_or_null, FoundValue.{pin_route_or_null, open_window_or_null, region_values_if_endpoint, windows_of_bridge_or_null, capability_values_nth}};

use crate::has_value::{HasValue, values};
use bars::BarWithBase;
use bridge_forward::Window;
use headers::ListedCapability;
use host_bridge::Host;
use intx_swizzle::swizzle_to_root;
use paths::Path;
use report::{kind_text, pin_text};
use serde_json::{Value, json};
use std::alloc::{AllocError, Global};
use window_packing::{RegisterValues, WindowSetting};

/// Returns a BAR as JSON. `index` is that of its first register.
fn region_value(alloc: Global, index: usize, region: &BarWithBase) -> Result<Value, AllocError>
    ensures { IfOk result (λ v. view v ≡ region_value (placed index region.now)) }
{
    let kind = kind_text(region.decl.kind());
    let base = region.base;
    let size = region.decl.size();
    json!(in alloc; {"bar": index, "kind": kind, "base": base, "size": size})
}

/// Returns a function's BARs as JSON, each with the index of its first register.
fn region_values(alloc: Global, bases: &[Option<BarWithBase>]) -> Result<Vec<Value>, AllocError>
    ensures { IfOk result (λ v. map view v.items ≡ map region_value (bases_from 0 bases.now)) }
{
    let mut values = Vec::new(alloc);
    for (index, slot) in bases.iter().enumerate() {
        if let Some(region) = slot {
            values.push(region_value(alloc, index, region)?)?;
        }
    }
    Ok(values)
}

/// Returns, as JSON, the BARs that set-up wrote into an endpoint. Returns none for a bridge.
pub(crate) fn region_values_if_endpoint(
    alloc: Global,
    writes: &RegisterValues,
) -> Result<Vec<Value>, AllocError>
    ensures { IfOk result (λ v.
        map view v.items ≡ region_values_if_endpoint (writes_of writes.now)) }
{
    match writes {
        RegisterValues::Endpoint { bases, .. } => region_values(alloc, bases),
        RegisterValues::Bridge { .. } => Ok(Vec::new(alloc)),
    }
}

impl HasValue for ListedCapability {
    ghost Told = { Listed };

    ghost told = { λ c. c };

    ghost shown = { capability_value };

    fn value(&self, alloc: Global) -> Result<Value, AllocError> {
        json!(in alloc; {"id": self.id, "off": self.off, "size": self.size})
    }
}

/// Returns, as JSON, the capability list of the function at an index. Returns none for a bridge.
pub(crate) fn capability_values_nth(
    alloc: Global,
    host: &Host,
    index: usize,
) -> Result<Vec<Value>, AllocError>
    ensures { let fs = host.now.state.functions in
        IfOk result (λ v. map view v.items ≡ capability_values_nth fs index) }
{
    let Some(endpoint) = host.endpoint_ref_nth(index) else {
        return Ok(Vec::new(alloc));
    };
    let listed = endpoint.decl().capabilities(alloc)?;
    values(alloc, &listed)
}

/// Returns an interrupt pin as JSON, with the device and the pin on bus 0 that it reaches.
fn pin_route_value(alloc: Global, path: &Path, pin: u8) -> Result<Value, AllocError>
    requires least { 1 ≤ pin }
    requires most { pin ≤ 4 }
    ensures { IfOk result (λ v. view v ≡ pin_route_value path.now pin) }
{
    let (device, root) = swizzle_to_root(path, pin);
    let pin = pin_text(pin);
    let root = pin_text(root);
    json!(in alloc; {"pin": pin, "root_device": device, "root_pin": root})
}

/// Returns an interrupt pin as JSON. Returns `null` for pin 0, which means no pin, and for the
/// invalid pins above 4.
pub(crate) fn pin_route_or_null(alloc: Global, path: &Path, pin: u8) -> Result<Value, AllocError>
    ensures { IfOk result (λ v. view v ≡ pin_route_or_null path.now pin) }
{
    if pin == 0 || pin > 4 {
        return Ok(Value::Null);
    }
    pin_route_value(alloc, path, pin)
}

/// Returns a range of addresses as JSON. `last` is inclusive.
fn range_value(alloc: Global, first: u64, last: u64) -> Result<Value, AllocError>
    ensures { IfOk result (λ v. view v ≡ range_value first last) }
{
    json!(in alloc; {"first": first, "last": last})
}

/// Returns the addresses of a window as JSON, or `null` if the window is closed.
pub(crate) fn window_or_null(alloc: Global, window: Option<Window>) -> Result<Value, AllocError>
    ensures { IfOk result (λ v. view v ≡ window_or_null (option_map window_of window)) }
{
    match window {
        Some(Window { first, last }) => range_value(alloc, first, last),
        None => Ok(Value::Null),
    }
}

/// Returns a window as JSON, or `null` if its base is above its limit.
fn open_window_or_null(alloc: Global, window: &WindowSetting) -> Result<Value, AllocError>
    ensures { IfOk result (λ v. view v ≡ open_window_or_null window.now) }
{
    let first = window.first;
    let last = window.last;
    if first > last {
        return Ok(Value::Null);
    }
    range_value(alloc, first, last)
}

/// Returns a bridge's windows as JSON.
fn windows_value(
    alloc: Global,
    io: &WindowSetting,
    mem: &WindowSetting,
    pref: &WindowSetting,
) -> Result<Value, AllocError>
    ensures { IfOk result (λ v. view v
        ≡ windows_value (open_window_or_null io.now) (open_window_or_null mem.now)
        (open_window_or_null pref.now)) }
{
    let io = open_window_or_null(alloc, io)?;
    let mem = open_window_or_null(alloc, mem)?;
    let pref = open_window_or_null(alloc, pref)?;
    json!(in alloc; {"io": io, "mem": mem, "pref": pref})
}

/// Returns, as JSON, the windows that set-up wrote into a bridge, or `null` for an endpoint.
pub(crate) fn windows_of_bridge_or_null(
    alloc: Global,
    writes: &RegisterValues,
) -> Result<Value, AllocError>
    ensures { IfOk result (λ v. view v ≡ windows_of_bridge_or_null (writes_of writes.now)) }
{
    match writes {
        RegisterValues::Endpoint { .. } => Ok(Value::Null),
        RegisterValues::Bridge { io, mem, pref } => windows_value(alloc, io, mem, pref),
    }
}
