//! Walks along the buses of the tree.
ghost use Rattle.std.specs.Prelude.{◌≡◌, ◌≤◌, ◌<◌, IfSome, IfNone, IsSome, None, length, find};
ghost use Rattle.model_board.specs.{Paths.{Path as PathValue, path_eq}, Cycles.taker, Claims.first_claim};
ghost use Rattle.bridge_forward.specs.{Layout.functions_of, Skips.IsTree, Search.{is_named, IsSide, IsAt}, Leading.{LeadsTo, LeadsNowhere, AreRoutes}, Cycled.reached_by, Lending.endpoint_nth, Locating.located_claim};
ghost use Rattle.bars.specs.Kinds.{named_space};

use crate::bus::{BarOffset, Node};
use crate::cycle::{Cycle, CycleType};
use crate::function::Function;
use crate::routes::Routes;
use bars::Space;
use paths::{Part, Path};
use std::cmp::Ordering;

/// Returns the first bridge on a bus that claims type 1 cycles for bus `number`. The nodes from
/// `from` up to, but not including, `to` are the functions on the bus and behind it. Each step
/// jumps to the next bridge on the bus, skipping endpoints and everything behind the previous
/// bridge.
fn find_bridge_covering_bus(nodes: &[Node], from: usize, to: usize, number: u8) -> Option<usize>
    requires tree { IsTree nodes.now }
    requires range { to ≤ length nodes.now }
    ensures within { IfSome result (λ i. (from ≤ i) × (i < to)) }
    ensures found { IfSome result (λ i. (bus : PathValue) → IsSide nodes.now bus from to
        → IsAt nodes.now i (taker (functions_of nodes.now) bus number)) }
    ensures none { IfNone result ((bus : PathValue) → IsSide nodes.now bus from to
        → taker (functions_of nodes.now) bus number ≡ None) }
{
    let mut i = from;
    while i < to {
        let here = &nodes[i];
        let at = here.bridge;
        if at >= to {
            return None;
        }
        let node = &nodes[at];
        if node.function.covers_bus(number) {
            return Some(at);
        }
        i = node.end;
    }
    None
}

/// Returns the function with this device and function number on a bus. The nodes from `from` up to,
/// but not including, `to` are the functions on the bus and behind it. They are in path order, so
/// this is a binary search.
fn find_function_on_bus(
    nodes: &[Node],
    bus: &[Part],
    from: usize,
    to: usize,
    device: u8,
    function: u8,
) -> Option<usize>
    requires tree { IsTree nodes.now }
    requires side { IsSide nodes.now bus.now from to }
    ensures found { IfSome result (λ i.
        IsAt nodes.now i (find (is_named bus.now device function) (functions_of nodes.now))) }
    ensures none { IfNone result (find (is_named bus.now device function) (functions_of nodes.now)
        ≡ None) }
{
    let mut low = from;
    let mut high = to;
    while low < high {
        let middle = low + (high - low) / 2;
        let node = &nodes[middle];
        match node.path.compare_to_function_on_bus(bus, device, function) {
            Ordering::Equal => return Some(middle),
            Ordering::Less => low = middle + 1,
            Ordering::Greater => high = middle,
        }
    }
    None
}

/// Returns the bridge that leads to a bus. The search examines only the bridges on the buses along
/// the way.
fn search_bridge_to_bus(nodes: &[Node], bus: u8) -> Option<usize>
    requires { IsTree nodes.now }
    ensures found { IfSome result (LeadsTo nodes.now bus) }
    ensures none { IfNone result (LeadsNowhere nodes.now bus) }
{
    let mut from = 0;
    let mut to = nodes.len();
    loop {
        let at = find_bridge_covering_bus(nodes, from, to, bus)?;
        let bridge = &nodes[at];
        from = at + 1;
        to = bridge.end;
        if bridge.function.has_secondary_bus(bus) {
            return Some(at);
        }
    }
}

/// Returns the bridge that leads to a bus, from the cache if possible. Caches a bridge that had to
/// be searched for.
fn find_bridge_with_cache(nodes: &[Node], known: &mut Routes, bus: u8) -> Option<usize>
    requires tree { IsTree nodes.now }
    requires routes { AreRoutes nodes.now known.old }
    ensures routes { AreRoutes nodes.now known.new }
    ensures found { IfSome result (LeadsTo nodes.now bus) }
    ensures none { IfNone result (LeadsNowhere nodes.now bus) }
{
    if let Some(at) = known.cached_bridge(bus) {
        return Some(at);
    }
    let found = search_bridge_to_bus(nodes, bus);
    known.set_cached_bridge(bus, found);
    found
}

/// Returns the function that a configuration cycle on bus 0 reaches.
pub(crate) fn find_reached_function(
    nodes: &[Node],
    known: &mut Routes,
    cycle: &Cycle,
) -> Option<usize>
    requires tree { IsTree nodes.now }
    requires routes { AreRoutes nodes.now known.old }
    ensures routes { AreRoutes nodes.now known.new }
    ensures found { IfSome result (λ i.
        IsAt nodes.now i (reached_by (functions_of nodes.now) cycle.now)) }
    ensures none { IfNone result (reached_by (functions_of nodes.now) cycle.now ≡ None) }
{
    let Cycle {
        kind,
        device,
        function,
        ..
    } = *cycle;
    let CycleType::Type1 { bus } = kind else {
        return find_function_on_bus(nodes, &[], 0, nodes.len(), device, function);
    };
    let at = find_bridge_with_cache(nodes, known, bus)?;
    let bridge = &nodes[at];
    find_function_on_bus(
        nodes,
        bridge.path.parts(),
        at + 1,
        bridge.end,
        device,
        function,
    )
}

/// Returns the first claim of an address, by path order and then by BAR register, with the index of
/// its endpoint. Skips everything behind a bridge that doesn't forward the address.
pub(crate) fn locate(nodes: &[Node], space: Space, addr: u64) -> Option<BarOffset>
    requires { IsTree nodes.now }
    ensures claim { located_claim (functions_of nodes.now) result
        ≡ first_claim (functions_of nodes.now) (named_space space) addr }
    ensures there { IfSome result (λ l. IsSome (endpoint_nth (functions_of nodes.now) l.index)) }
{
    let mut i = 0;
    while i < nodes.len() {
        let node = &nodes[i];
        i = match &node.function {
            Function::Endpoint(endpoint) => {
                if let Some((region, offset)) = endpoint.decode(space, addr) {
                    return Some(BarOffset {
                        index: i,
                        region,
                        offset,
                    });
                }
                node.end
            }
            Function::Bridge(bridge) => {
                if bridge.forwards(space, addr) {
                    i + 1
                } else {
                    node.end
                }
            }
        };
    }
    None
}

/// Returns the index of the function with this path. Uses binary search, because the nodes are in
/// path order.
pub(crate) fn find_index_of_path(nodes: &[Node], path: &Path) -> Option<usize>
    requires { IsTree nodes.now }
    ensures found { IfSome result (λ i.
        IsAt nodes.now i (find (λ f. path_eq f.path path.now) (functions_of nodes.now))) }
    ensures none { IfNone result (find (λ f. path_eq f.path path.now) (functions_of nodes.now)
        ≡ None) }
{
    let mut low = 0;
    let mut high = nodes.len();
    while low < high {
        let middle = low + (high - low) / 2;
        let node = &nodes[middle];
        match node.path.cmp(path) {
            Ordering::Equal => return Some(middle),
            Ordering::Less => low = middle + 1,
            Ordering::Greater => high = middle,
        }
    }
    None
}
