//! Functions as JSON. The members of an object are added in small groups, because no proof was
//! found for all at once.
ghost use Rattle.std.specs.Prelude.{◌≡◌, IfOk, OnOk, map};
ghost use Rattle.serde_json.specs.View.{view, members_view};
ghost use Rattle.window_packing.specs.Plans.{writes_of};
ghost use Rattle.json_texts.specs.{ReportValue.{bus_numbers_value, endpoint_value, bridge_value}, FoundValue.{pin_route_or_null, region_values_if_endpoint, windows_of_bridge_or_null, function_value, function_values}, FunctionMembers.{bdf_and_path_members, with_identity, vendor_of, device_id_of}};

use crate::function_parts::{
    capability_values_nth, pin_route_or_null, region_values_if_endpoint, windows_of_bridge_or_null,
};
use crate::problem_parts::path_value;
use bus_scan::{Enumerated, EnumeratedFunction};
use host_bridge::Host;
use serde_json::{Map, Value, json, put};
use std::alloc::{AllocError, Global};
use window_packing::{FunctionProgram, RegisterValues};

/// Returns the members for a function's BDF and path.
fn bdf_and_path_members(
    alloc: Global,
    row: &EnumeratedFunction,
) -> Result<Map<String, Value>, AllocError>
    ensures { IfOk result
        (λ m. members_view m.entries ≡ bdf_and_path_members row.now.bus row.now.path) }
{
    let part = row.path.last();
    let device = part.device();
    let function = part.function();
    let path = path_value(alloc, &row.path)?;
    let mut members = Map::new(alloc);
    put(&mut members, alloc, "bus", Value::from(row.bus))?;
    put(&mut members, alloc, "device", Value::from(device))?;
    put(&mut members, alloc, "function", Value::from(function))?;
    put(&mut members, alloc, "path", path)?;
    Ok(members)
}

/// Adds a function's type, Vendor ID and Device ID to other members.
fn put_type_vendor_and_device(
    members: &mut Map<String, Value>,
    alloc: Global,
    row: &EnumeratedFunction,
    kind: &str,
) -> Result<(), AllocError>
    ensures { OnOk result (members_view members.new.entries
        ≡ with_identity kind.now (vendor_of row.now.decl) (device_id_of row.now.decl)
        (members_view members.old.entries)) }
{
    put(members, alloc, "type", Value::try_from_str(alloc, kind)?)?;
    put(members, alloc, "vendor", Value::from(row.vendor))?;
    put(members, alloc, "device_id", Value::from(row.device))
}

/// Returns an endpoint with this capability list and interrupt pin as JSON.
fn endpoint_value(
    alloc: Global,
    row: &EnumeratedFunction,
    capabilities: Vec<Value>,
    pin: u8,
    writes: &RegisterValues,
) -> Result<Value, AllocError>
    ensures { IfOk result (λ v. view v
        ≡ endpoint_value row.now.bus row.now.path (vendor_of row.now.decl)
        (device_id_of row.now.decl) (map view capabilities.items)
        (pin_route_or_null row.now.path pin) (region_values_if_endpoint (writes_of writes.now))) }
{
    let regions = region_values_if_endpoint(alloc, writes)?;
    let interrupt = pin_route_or_null(alloc, &row.path, pin)?;
    let mut members = bdf_and_path_members(alloc, row)?;
    put_type_vendor_and_device(&mut members, alloc, row, "endpoint")?;
    put(
        &mut members,
        alloc,
        "capabilities",
        Value::from(capabilities),
    )?;
    put(&mut members, alloc, "regions", Value::from(regions))?;
    put(&mut members, alloc, "interrupt", interrupt)?;
    Ok(Value::Object(members))
}

/// Returns a bridge's Primary, Secondary and Subordinate Bus Numbers as JSON.
fn bus_numbers_value(
    alloc: Global,
    primary: u8,
    secondary: u8,
    subordinate: u8,
) -> Result<Value, AllocError>
    ensures { IfOk result (λ v. view v ≡ bus_numbers_value primary secondary subordinate) }
{
    json!(in alloc; {"primary": primary, "secondary": secondary, "subordinate": subordinate})
}

/// Returns a bridge with these bus numbers as JSON.
fn bridge_value(
    alloc: Global,
    row: &EnumeratedFunction,
    secondary: u8,
    subordinate: u8,
    writes: &RegisterValues,
) -> Result<Value, AllocError>
    ensures { IfOk result (λ v. view v
        ≡ bridge_value row.now.bus row.now.path (vendor_of row.now.decl)
        (device_id_of row.now.decl) (bus_numbers_value row.now.bus secondary subordinate)
        (windows_of_bridge_or_null (writes_of writes.now))) }
{
    let buses = bus_numbers_value(alloc, row.bus, secondary, subordinate)?;
    let windows = windows_of_bridge_or_null(alloc, writes)?;
    let mut members = bdf_and_path_members(alloc, row)?;
    put_type_vendor_and_device(&mut members, alloc, row, "bridge")?;
    put(&mut members, alloc, "buses", buses)?;
    put(&mut members, alloc, "windows", windows)?;
    Ok(Value::Object(members))
}

/// Returns a function as JSON, with its capability list and with the register values that set-up
/// wrote into it. A bridge has no list.
fn function_value(
    alloc: Global,
    row: &EnumeratedFunction,
    capabilities: Vec<Value>,
    writes: &RegisterValues,
) -> Result<Value, AllocError>
    ensures { IfOk result (λ v. view v
        ≡ function_value row.now (map view capabilities.items) (writes_of writes.now)) }
{
    match &row.found {
        Enumerated::Endpoint { pin, .. } => endpoint_value(alloc, row, capabilities, *pin, writes),
        Enumerated::Bridge {
            secondary,
            subordinate,
            ..
        } => bridge_value(alloc, row, *secondary, *subordinate, writes),
    }
}

/// Returns all functions as JSON, each with the capability list that the host's board declares for
/// it and with the register values that set-up wrote into it.
pub(crate) fn function_values(
    alloc: Global,
    host: &Host,
    rows: &[EnumeratedFunction],
    settings: &[FunctionProgram],
) -> Result<Vec<Value>, AllocError>
    ensures { let fs = host.now.state.functions in
        IfOk result (λ v. map view v.items ≡ function_values fs 0 rows.now settings.now) }
{
    let mut values = Vec::new(alloc);
    for (row, setting) in rows.iter().zip(settings) {
        let capabilities = capability_values_nth(alloc, host, values.len())?;
        values.push(function_value(alloc, row, capabilities, &setting.writes)?)?;
    }
    Ok(values)
}
