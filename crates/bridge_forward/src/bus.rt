//! The functions of a board as a tree of buses.
ghost use Rattle.std.specs.{Prelude.{◌≡◌, ◌%◌, ◌<◌, IfOk, IfSome, IsSome, IsTrue, find, length, slice_get}, Borrow.sem, Option.{option_and_then, option_copied_mut}};
ghost use Rattle.lists.specs.Elements.{EachPair};
ghost use Rattle.model_board.specs.{Routing.routing, Paths.{path_before, path_eq}, Board.IsBoard, Places.board_of, State.row_at, Claims.first_claim, AtReset.{board_at, reset_state, IsAtReset}};
ghost use Rattle.bars.specs.{Slots.bases_from, Kinds.named_space};
ghost use Rattle.bridge_forward.specs.{BasesNow.bases_nth, Cycled.reached_by, Layout.{function_of, functions_of}, RoutingRows.{primary_bus_nth, secondary_bus_nth}};

use crate::build::{link_into_tree, nodes_at_reset};
use crate::cycle::Cycle;
use crate::decl::Decl;
use crate::endpoint::EndpointFn;
use crate::function::Function;
use crate::routes::Routes;
use crate::routing::RoutingRow;
use crate::walk::{find_index_of_path, find_reached_function, locate};
use bars::{BarWithBase, Space};
use paths::Path;
use std::alloc::{AllocError, Global};
use std::marker::Model;

/// A function and its path. The functions behind it occupy the indices between its own index and
/// `end`. The nodes from its own index up to, but not including, `bridge` are endpoints with
/// nothing behind them.
#[derive(Drop)]
pub(crate) struct Node {
    pub(crate) end: usize,
    pub(crate) bridge: usize,
    pub(crate) function: Function,
    pub(crate) path: Path,
}

/// The functions of a board. The model is a list of paths, declarations and register contents in
/// path order.
///
/// The tree is stored flat, like a flattened device tree: all functions in path order, each with
/// the index where its subtree ends. A walk therefore reaches the next function on the same bus, or
/// skips everything behind a bridge, in one step and without allocating. A search for a bridge
/// skips the endpoints before it in one step as well. The bridge that leads to a bus number is
/// cached when a configuration cycle finds it; any write to a bridge clears the cache.
#[derive(Drop)]
pub struct Bus {
    pub(crate) nodes: Vec<Node>,
    known: Routes,
}

impl Model for Bus {
    ghost use Rattle.std.specs.Prelude.{List};
    ghost use Rattle.model_board.specs.State.{BoardFunction};

    ghost Value = { List BoardFunction };

    ghost use Rattle.bridge_forward.specs.{Layout.functions_of, Leading.IsBus};

    ghost view = { λ b. functions_of b.nodes.items };

    ghost invariant = { λ b. IsBus b.nodes.items b.known };
}

/// The target of an address: the path of the endpoint, the index of the region's first BAR register
/// (0 to 5), and the offset in the region.
#[derive(Debug, Drop)]
pub struct Claim {
    pub path: Path,
    pub region: u8,
    pub offset: u64,
}

impl Model for Claim {
    ghost use Rattle.model_board.specs.Claims.{Claim as ClaimValue};

    ghost Value = { ClaimValue };

    ghost view = { λ c. record { path = c.path; index = c.region; offset = c.offset } };
}

/// The target of an address: the index of the endpoint in the list of functions, the index of the
/// region's first BAR register (0 to 5), and the offset in the region.
#[derive(Clone, Copy, Debug)]
pub struct BarOffset {
    pub index: usize,
    pub region: u8,
    pub offset: u64,
}

impl Node {
    ghost use Rattle.bridge_forward.specs.Skips.{first_bridge_from};

    /// Returns the index of the first bridge at or after this node. `i` is the index of the node,
    /// and `next` the result for the node after it.
    pub(crate) fn first_bridge_from(&self, i: usize, next: usize) -> usize
        requires { i < next }
        ensures { result ≡ first_bridge_from self.now i next }
    {
        if !self.function.is_bridge() && self.end == i + 1 {
            next
        } else {
            i
        }
    }

    /// Returns the function's path and its declaration.
    fn copy_declaration(&self) -> Result<Decl, AllocError>
        ensures { IfOk result (λ d. d ≡ row_at (function_of self.now)) }
    {
        Ok(Decl {
            path: self.path.copied(),
            function: self.function.copy_declaration()?,
        })
    }
}

/// Returns the declarations of all functions with their paths.
fn copy_declarations(alloc: Global, nodes: &[Node]) -> Result<Vec<Decl>, AllocError>
    ensures { IfOk result (λ v. v.items ≡ board_at (functions_of nodes.now)) }
{
    let mut decls = Vec::with_capacity(alloc, nodes.len())?;
    for node in nodes {
        decls.push(node.copy_declaration()?)?;
    }
    Ok(decls)
}

impl Bus {
    ghost use Rattle.bridge_forward.specs.{Cycled.{cycle_reply, after_cycle}, Lending.{LendsEndpoint, LendsEndpointNth, endpoint_at, endpoint_nth, with_endpoint_reset}, Locating.located_claim};

    /// Builds a board of these functions, at reset. Their paths must form a valid board. Fails only
    /// if memory is exhausted. Later accesses to the board allocate nothing.
    pub fn build(alloc: Global, decls: Vec<Decl>) -> Result<Bus, AllocError>
        requires { IsBoard (board_of decls.items) }
        ensures functions { IfOk result (λ bus.
            bus ≡ (reset_state (board_of decls.items)).functions) }
        ensures at_reset { IfOk result (λ bus. IsAtReset (record { functions = bus; latch = 0 })) }
    {
        let mut nodes = nodes_at_reset(alloc, decls)?;
        link_into_tree(&mut nodes);
        let known = Routes::new_empty(alloc)?;
        Ok(Bus { nodes, known })
    }

    /// Builds the same board at reset, from the declarations of its functions.
    pub fn rebuild_at_reset(&self, alloc: Global) -> Result<Bus, AllocError>
        requires { IsBoard (board_at self.now) }
        ensures board { IfOk result (λ bus. board_at bus ≡ board_at self.now) }
        ensures at_reset { IfOk result (λ bus. IsAtReset (record { functions = bus; latch = 0 })) }
    {
        let decls = copy_declarations(alloc, &self.nodes)?;
        let bus = Bus::build(alloc, decls)?;
        Ok(bus)
    }

    /// Performs a configuration cycle on bus 0. Returns the enabled bytes for a read, and 0 for a
    /// write. Returns `None`, and changes nothing, if the cycle reaches no function.
    pub fn cycle(&mut self, cycle: Cycle) -> Option<u32>
        requires { cycle.offset % 4 ≡ 0 }
        ensures reply { result ≡ cycle_reply self.old cycle }
        ensures after { self.new ≡ after_cycle self.old cycle }
    {
        let at = find_reached_function(&self.nodes, &mut self.known, &cycle)?;
        let node = &mut self.nodes[at];
        let reply = node.function.access(cycle.op, cycle.offset, cycle.enables);
        let changes_routes = node.function.is_write_to_bridge(cycle.op);
        self.known.invalidate_all_if(changes_routes);
        Some(reply)
    }

    /// Returns the first claim of an address, by path order and then by BAR register. A claim is a
    /// region that decodes the address behind bridges that all forward it. The endpoint is
    /// identified by its index.
    pub fn locate(&self, space: Space, addr: u64) -> Option<BarOffset>
        ensures claim { located_claim self.now result
            ≡ first_claim self.now (named_space space) addr }
        ensures there { IfSome result (λ l. IsSome (endpoint_nth self.now l.index)) }
    {
        locate(&self.nodes, space, addr)
    }

    /// Returns the first claim of an address, with the path of its endpoint.
    pub fn claimant(&self, space: Space, addr: u64) -> Option<Claim>
        ensures { result ≡ first_claim self.now (named_space space) addr }
    {
        let BarOffset {
            index,
            region,
            offset,
        } = self.locate(space, addr)?;
        Some(Claim {
            path: self.nodes[index].path.copied(),
            region,
            offset,
        })
    }

    /// Returns the index of the function at a path, if there is one.
    pub fn index_of(&self, path: &Path) -> Option<usize>
        ensures function { option_and_then (slice_get self.now) result
            ≡ find (λ f. path_eq f.path path.now) self.now }
        ensures within { IfSome result (λ i. i < length self.now) }
    {
        find_index_of_path(&self.nodes, path)
    }

    /// Returns the routing registers of all functions in path order. Only an audit uses them;
    /// accesses don't.
    #[tactic(auto, using(crate::proofs::Changes::same_order, crate::proofs::Nodes::functions_in_order))]
    pub fn routing_rows(&self, alloc: Global) -> Result<Vec<RoutingRow>, AllocError>
        ensures rows { IfOk result (λ v. v.items ≡ routing self.now) }
        ensures in_order { EachPair (λ f g. IsTrue (path_before f.path g.path)) self.now }
    {
        let mut rows = Vec::with_capacity(alloc, self.nodes.len())?;
        for node in &self.nodes {
            rows.push(node.function.routing_row(alloc, &node.path)?)?;
        }
        Ok(rows)
    }

    /// Returns the Secondary Bus Number of the bridge at an index, or `None` if there is no bridge.
    pub fn secondary_bus_nth(&self, index: usize) -> Option<u8>
        ensures { result ≡ secondary_bus_nth self.now index }
    {
        if index >= self.nodes.len() {
            return None;
        }
        let node = &self.nodes[index];
        node.function.secondary()
    }

    /// Returns the Primary Bus Number of the bridge at an index, or `None` if there is no bridge.
    pub fn primary_bus_nth(&self, index: usize) -> Option<u8>
        ensures { result ≡ primary_bus_nth self.now index }
    {
        if index >= self.nodes.len() {
            return None;
        }
        let node = &self.nodes[index];
        node.function.primary()
    }

    /// Returns the regions of the endpoint at an index with their base addresses, each at the index
    /// of its first BAR register. All entries are `None` if there is no endpoint.
    pub fn bars_with_bases_nth(&self, index: usize) -> [Option<BarWithBase>; 6]
        ensures { bases_from 0 result ≡ bases_nth self.now index }
    {
        if index >= self.nodes.len() {
            return [None; 6];
        }
        let node = &self.nodes[index];
        node.function.bars_with_bases()
    }

    /// Returns the index of the function that a configuration cycle on bus 0 reaches. Doesn't
    /// perform the cycle.
    pub fn index_reached_by(&mut self, cycle: &Cycle) -> Option<usize>
        ensures function { option_and_then (slice_get self.old) result
            ≡ reached_by self.old cycle.now }
        ensures within { IfSome result (λ i. i < length self.old) }
        ensures after { self.new ≡ self.old }
    {
        find_reached_function(&self.nodes, &mut self.known, cycle)
    }

    /// Borrows the endpoint at a path, if there is one. Changes through the borrow affect no other
    /// function, because paths are unique.
    pub fn endpoint_mut(&mut self, path: &Path) -> Option<&mut EndpointFn>
        ensures* lends { sem 𝓛 (LendsEndpoint self.entry path.now result) }
        ensures value { option_copied_mut result ≡ endpoint_at self.old path.now }
        ensures in_order { EachPair (λ f g. IsTrue (path_before f.path g.path)) self.old }
    {
        let at = find_index_of_path(&self.nodes, path)?;
        if self.nodes[at].function.is_bridge() {
            return None;
        }
        let node = &mut self.nodes[at];
        node.function.endpoint_mut()
    }

    /// Resets the endpoint at a path, except for its Command register and BARs. Changes nothing if
    /// there is no endpoint at the path.
    pub fn reset_except_routing(&mut self, path: &Path)
        ensures { self.new ≡ with_endpoint_reset path.now self.old }
    {
        let Some(at) = find_index_of_path(&self.nodes, path) else {
            return;
        };
        let node = &mut self.nodes[at];
        node.function.reset_except_routing();
    }

    /// Borrows the endpoint at an index, if there is one. Changes through the borrow affect no
    /// other function.
    pub fn endpoint_nth(&mut self, index: usize) -> Option<&mut EndpointFn>
        ensures* lends { sem 𝓛 (LendsEndpointNth self.entry index result) }
        ensures value { option_copied_mut result ≡ endpoint_nth self.old index }
        ensures in_order { EachPair (λ f g. IsTrue (path_before f.path g.path)) self.old }
    {
        if index >= self.nodes.len() {
            return None;
        }
        if self.nodes[index].function.is_bridge() {
            return None;
        }
        let node = &mut self.nodes[index];
        node.function.endpoint_mut()
    }
}
