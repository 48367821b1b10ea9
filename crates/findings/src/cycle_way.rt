//! Follows a configuration cycle from bridge to bridge (PCI-to-PCI Bridge Architecture 1.2, chapter
//! 3).
ghost use Rattle.std.specs.{Prelude.{◌≡◌, ◌++◌, [], false, map, slice_get, unwrap_or, IfOk, OnOk}, Option.{option_and_then, option_map_or, option_to_list}};
ghost use Rattle.model_board.specs.{Paths.{path_eq, parent}, State.BoardFunction, Cycles.{covers, taker}};
ghost use Rattle.model_lines.specs.Ways.{takers, takers_down, way_end};
ghost use Rattle.findings.specs.WhyOnWay.{end_told, is_taker, paths_taking, taken};

use bridge_forward::Path;
use host_bridge::Host;
use std::alloc::{AllocError, Global};

/// Where a configuration cycle ends: on its destination bus, or on a bus where no bridge claims it.
/// The bridge above a bus identifies the bus; `None` means bus 0.
#[derive(Drop)]
pub(crate) enum WayEnd {
    OnBus(Option<Path>),
    NoTaker(Option<Path>),
}

/// The bridges that claim a configuration cycle on each bus it passes, and the end of the cycle.
#[derive(Drop)]
pub(crate) struct Way {
    pub(crate) bridges: Vec<Path>,
    pub(crate) end: WayEnd,
}

/// A bridge that claims a configuration cycle. `is_last` is true if the bus behind it is the
/// cycle's destination.
#[derive(Drop)]
pub(crate) struct Taken {
    path: Path,
    is_last: bool,
}

/// Returns whether a function is on the bus.
fn is_on_bus(path: &Path, bus: &Option<Path>) -> bool
    ensures { result ≡ path_eq (parent path.now) (unwrap_or bus.now []) }
{
    match bus {
        Some(bus) => bus.equals_parts(path.parent()),
        None => path.parent().is_empty(),
    }
}

/// Returns whether the function at an index is a bridge that claims cycles for bus `number`.
fn nth_claims_bus_cycles(host: &Host, index: usize, number: u8) -> bool
    ensures { let fs = host.now.state.functions in
        result ≡ option_map_or (covers number) (slice_get fs index) false }
{
    let Some(secondary) = host.secondary_bus_nth(index) else {
        return false;
    };
    let Some(subordinate) = host.peek_config_nth(index, 0x1a, 1) else {
        return false;
    };
    secondary <= number && u32::from(number) <= subordinate
}

/// Returns whether the function at an index is on the bus and claims cycles for bus `number`.
fn nth_is_on_bus_and_claims(host: &Host, index: usize, bus: &Option<Path>, number: u8) -> bool
    ensures { let fs = host.now.state.functions in result
        ≡ option_map_or (is_taker (unwrap_or bus.now []) number) (slice_get fs index) false }
{
    match host.path_nth(index) {
        Some(path) => is_on_bus(&path, bus) && nth_claims_bus_cycles(host, index, number),
        None => false,
    }
}

/// Returns the index of the first bridge on the bus that claims cycles for bus `number`.
fn first_claiming_index(host: &Host, bus: &Option<Path>, number: u8) -> Option<usize>
    ensures { let fs = host.now.state.functions in
        option_and_then (slice_get fs) result ≡ taker fs (unwrap_or bus.now []) number }
{
    for index in 0..host.count() {
        if nth_is_on_bus_and_claims(host, index, bus, number) {
            return Some(index);
        }
    }
    None
}

/// Returns the first bridge on the bus that claims cycles for bus `number`.
fn next_bridge(host: &Host, bus: &Option<Path>, number: u8) -> Option<Taken>
    ensures { result ≡ taken host.now.state.functions (unwrap_or bus.now []) number }
{
    let index = first_claiming_index(host, bus, number)?;
    let path = host.path_nth(index)?;
    let secondary = host.peek_config_nth(index, 0x19, 1)?;
    Some(Taken {
        path,
        is_last: secondary == u32::from(number),
    })
}

/// Returns the path of the function at an index if it is on the bus and claims cycles for bus
/// `number`.
fn path_if_claims_bus(host: &Host, index: usize, bus: &Option<Path>, number: u8) -> Option<Path>
    ensures { let one = option_to_list (slice_get host.now.state.functions index) in
        option_to_list result ≡ paths_taking (unwrap_or bus.now []) number one }
{
    if !nth_is_on_bus_and_claims(host, index, bus, number) {
        return None;
    }
    host.path_nth(index)
}

/// Appends every bridge on the bus that claims cycles for bus `number`. The cycle passes through
/// the first one.
fn add_claiming_bridges(
    told: &mut Vec<Path>,
    host: &Host,
    bus: &Option<Path>,
    number: u8,
) -> Result<(), AllocError>
    ensures { let fs = host.now.state.functions in
        OnOk result (told.new.items ≡ told.old.items
        ++ map (λ (f : BoardFunction). f.path) (takers fs number (unwrap_or bus.now []))) }
{
    for index in 0..host.count() {
        if let Some(path) = path_if_claims_bus(host, index, bus, number) {
            told.push(path)?;
        }
    }
    Ok(())
}

/// Follows a configuration cycle for a bus other than bus 0, starting at bus 0, until the cycle
/// ends. Sixteen steps are enough, because at most 15 bridges are above a function.
pub(crate) fn follow_type_1_cycle(alloc: Global, host: &Host, number: u8) -> Result<Way, AllocError>
    ensures bridges { let fs = host.now.state.functions in IfOk result (λ w.
        w.bridges.items ≡ map (λ (f : BoardFunction). f.path) (takers_down fs number 16 [])) }
    ensures end { let fs = host.now.state.functions in
        IfOk result (λ w. end_told w.end ≡ way_end fs number 16 []) }
{
    let mut bridges = Vec::new(alloc);
    let mut bus = None;
    for _level in 0..16u8 {
        add_claiming_bridges(&mut bridges, host, &bus, number)?;
        let Some(Taken { path, is_last }) = next_bridge(host, &bus, number) else {
            return Ok(Way {
                bridges,
                end: WayEnd::NoTaker(bus),
            });
        };
        bus = Some(path);
        if is_last {
            return Ok(Way {
                bridges,
                end: WayEnd::OnBus(bus),
            });
        }
    }
    Ok(Way {
        bridges,
        end: WayEnd::NoTaker(bus),
    })
}
