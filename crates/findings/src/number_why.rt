//! Explains which function a configuration cycle reaches (PCI-to-PCI Bridge Architecture 1.2,
//! chapter 3).
ghost use Rattle.std.specs.Prelude.{◌≡◌, map, option_map, IfOk};
ghost use Rattle.model_board.specs.{Cycles.reached, State.BoardFunction, Routing.routing};
ghost use Rattle.model_lines.specs.Ways.{takers_on_way, end_of, missing_at, why_number};
ghost use Rattle.paths.specs.BusAddresses.{bus_address_of};
ghost use Rattle.findings.specs.{WhyOnWay.{end_told, missing_by, has_bdf_but_not_reached, unreached_at_bdf}, WhyTold.{missing_told, number_told}};

use crate::cycle_way::{Way, WayEnd, follow_type_1_cycle};
use crate::numbering::{current_bdf, is_reached_path};
use bridge_forward::{Path, RoutingRow};
use host_bridge::{Bdf, Host};
use std::alloc::{AllocError, Global};

/// What is missing at the end of a configuration cycle. The bridge above a bus identifies the bus;
/// `None` means bus 0.
#[derive(Debug, Drop)]
pub enum Missing {
    /// No bridge on the bus claims cycles for bus number `bus`.
    NoBridge {
        behind: Option<Path>,
        bus: u8,
    },
    /// The bus doesn't have this device and function.
    NoFunction {
        behind: Option<Path>,
        device: u8,
        function: u8,
    },
}

/// The explanation of a BDF: the function that it reaches, the bridges that claim its cycle, what
/// is missing if it reaches no function, and the functions that have this BDF but aren't reached by
/// it.
#[derive(Debug, Drop)]
pub struct WhyNumber {
    pub reached: Option<Path>,
    pub bridges: Vec<Path>,
    pub missing: Option<Missing>,
    pub not_found: Vec<Path>,
}

/// Follows the configuration cycle for a BDF from bus 0.
fn follow_cycle_to_bdf(alloc: Global, host: &Host, at: Bdf) -> Result<Way, AllocError>
    ensures bridges { let fs = host.now.state.functions in
        let bridges = takers_on_way fs (bus_address_of at) in
        IfOk result (λ w. w.bridges.items ≡ map (λ (f : BoardFunction). f.path) bridges) }
    ensures end { let fs = host.now.state.functions in
        IfOk result (λ w. end_told w.end ≡ end_of fs (bus_address_of at)) }
{
    if at.bus == 0 {
        return Ok(Way {
            bridges: Vec::new(alloc),
            end: WayEnd::OnBus(None),
        });
    }
    follow_type_1_cycle(alloc, host, at.bus)
}

/// Returns the path of the function that a BDF reaches, if any.
fn path_reached(host: &mut Host, at: Bdf) -> Option<Path>
    ensures path { let fs = host.old.state.functions in result
        ≡ option_map (λ (f : BoardFunction). f.path) (reached fs (bus_address_of at)) }
    ensures after { host.new ≡ host.old }
{
    let index = host.index_reached_by_bdf(at)?;
    host.path_nth(index)
}

/// Returns why no function answers a configuration cycle: its bus has no such function, or no
/// bridge forwards it any further.
fn missing_at(end: WayEnd, at: Bdf) -> Missing
    ensures { missing_told result ≡ missing_at (end_told end) (bus_address_of at) }
{
    match end {
        WayEnd::OnBus(behind) => Missing::NoFunction {
            behind,
            device: at.device,
            function: at.function,
        },
        WayEnd::NoTaker(path) => Missing::NoBridge {
            behind: path,
            bus: at.bus,
        },
    }
}

/// Returns what is missing, or `None` if a function is reached.
fn missing_unless_reached(reached: &Option<Path>, end: WayEnd, at: Bdf) -> Option<Missing>
    ensures { option_map missing_told result
        ≡ missing_by reached.now (end_told end) (bus_address_of at) }
{
    match reached {
        Some(_) => None,
        None => Some(missing_at(end, at)),
    }
}

/// Returns whether a function has this BDF according to the bridge above it, but isn't the function
/// that the BDF reaches.
fn has_bdf_but_not_reached(
    host: &Host,
    rows: &[RoutingRow],
    at: Bdf,
    reached: &Option<Path>,
    path: &Path,
) -> bool
    requires { rows.now ≡ routing host.now.state.functions }
    ensures { let fs = host.now.state.functions in
        result ≡ has_bdf_but_not_reached fs (bus_address_of at) reached.now path.now }
{
    current_bdf(host, rows, path) == at && !is_reached_path(reached, path)
}

/// Returns the functions that have this BDF according to the bridges above them, but aren't reached
/// by it.
fn unreached_at_bdf(
    alloc: Global,
    host: &Host,
    at: Bdf,
    reached: &Option<Path>,
) -> Result<Vec<Path>, AllocError>
    ensures { let fs = host.now.state.functions in
        IfOk result (λ v. v.items
        ≡ unreached_at_bdf fs (bus_address_of at) reached.now (routing fs)) }
{
    let rows = host.routing(alloc)?;
    let mut told = Vec::new(alloc);
    for row in &rows {
        if has_bdf_but_not_reached(host, &rows, at, reached, &row.path) {
            told.push(row.path.copied())?;
        }
    }
    Ok(told)
}

/// Explains which function a BDF reaches in the current registers. The result lists every bridge
/// that claims the cycle, starting at bus 0, what is missing if no function is reached, and the
/// functions that have this BDF but aren't reached by it. Leaves the host unchanged, even if memory
/// is exhausted.
pub fn why_number(alloc: Global, host: &mut Host, at: Bdf) -> Result<WhyNumber, AllocError>
    ensures told { let fs = host.old.state.functions in
        IfOk result (λ w. number_told w ≡ why_number fs (bus_address_of at)) }
    ensures after { host.new ≡ host.old }
{
    let way = follow_cycle_to_bdf(alloc, host, at)?;
    let reached = path_reached(host, at);
    let not_found = unreached_at_bdf(alloc, host, at, &reached)?;
    let missing = missing_unless_reached(&reached, way.end, at);
    Ok(WhyNumber {
        reached,
        bridges: way.bridges,
        missing,
        not_found,
    })
}
