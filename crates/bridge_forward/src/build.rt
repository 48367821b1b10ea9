//! Builds the tree of a board from the declarations of its functions.
ghost use Rattle.std.specs.{Prelude.{◌≡◌, ◌<◌, IfOk, length, map}, BTreeSet.IsFromIterResult};
ghost use Rattle.model_board.specs.{Board.{IsBoard, has_multifunction_bit}, Lawful.{IsLawfulDecl, HasLawfulDecls}, Places.board_of};
ghost use Rattle.paths.specs.PathOrders.{path_cmp};
ghost use Rattle.bridge_forward.specs.{Devices.multifunction_device_paths, Layout.{function_of, functions_of, paths_of, AreInOrder, EndsAt, IsLaidOut}, Skips.IsTree, Functions.reset_cells, Resets.reset_functions};

use crate::bus::Node;
use crate::decl::Decl;
use crate::function::Function;
use paths::Path;
use std::alloc::{AllocError, Global};
use std::collections::BTreeSet;

/// Sorts the functions of a board into path order.
fn sort_by_path(decls: &mut Vec<Decl>)
    requires { IsBoard (board_of decls.old.items) }
    ensures { decls.new.items ≡ board_of decls.old.items }
{
    decls.sort_unstable_by(|a, b| a.compare(b));
}

/// Collects the path of function 0 of each multifunction device.
fn multifunction_device_paths(alloc: Global, decls: &[Decl]) -> Result<BTreeSet<Path>, AllocError>
    ensures { IfOk result (IsFromIterResult path_cmp (multifunction_device_paths decls.now)) }
{
    decls
        .iter()
        .filter(|decl| decl.is_nonzero_function())
        .map(|decl| decl.path.function_zero())
        .collect(alloc)
}

/// Returns, for each function, bit 7 of its header type. Every device has a function 0, so one set
/// lookup per function replaces a comparison with all other functions.
fn multifunction_bits(alloc: Global, decls: &[Decl]) -> Result<Vec<bool>, AllocError>
    requires { IsBoard decls.now }
    ensures { IfOk result (λ v.
        v.items ≡ map (λ r. has_multifunction_bit decls.now r.path) decls.now) }
{
    let shared = multifunction_device_paths(alloc, decls)?;
    decls
        .iter()
        .map(|decl| decl.has_multifunction_bit(&shared))
        .collect(alloc)
}

/// Creates the node of a function at reset. `link_into_tree` sets `end` and `bridge` later.
fn node_at_reset(alloc: Global, decl: Decl, multifunction: bool) -> Result<Node, AllocError>
    ensures made { IfOk result (λ n.
        function_of n
        ≡ record {
          path = decl.path;
          decl = decl.decl;
          file = reset_cells decl.decl multifunction;
        }) }
    ensures lawful { IfOk result (λ _. IsLawfulDecl decl.decl) }
{
    let Decl { path, function } = decl;
    Ok(Node {
        path,
        end: 0,
        bridge: 0,
        function: Function::new(alloc, function, multifunction)?,
    })
}

/// Creates the nodes of all functions at reset, in path order.
pub(crate) fn nodes_at_reset(alloc: Global, decls: Vec<Decl>) -> Result<Vec<Node>, AllocError>
    requires { IsBoard (board_of decls.items) }
    ensures made { IfOk result (λ v.
        functions_of v.items ≡ reset_functions (board_of decls.items)) }
    ensures lawful { IfOk result (λ _. HasLawfulDecls (board_of decls.items)) }
{
    let mut decls = decls;
    sort_by_path(&mut decls);
    let multifunction = multifunction_bits(alloc, &decls)?;
    let mut nodes = Vec::with_capacity(alloc, decls.len())?;
    for decl in decls {
        let has_multifunction_bit = multifunction[nodes.len()];
        nodes.push(node_at_reset(alloc, decl, has_multifunction_bit)?)?;
    }
    Ok(nodes)
}

/// Returns the end of the subtree behind node `i`: the index after its last descendant. The nodes
/// are in path order.
fn subtree_end(nodes: &[Node], i: usize) -> usize
    requires order { AreInOrder (paths_of nodes.now) }
    requires there { i < length nodes.now }
    ensures { EndsAt (paths_of nodes.now) i result }
{
    let mut end = i + 1;
    while end < nodes.len() && nodes[i].path.is_ancestor_of(&nodes[end].path) {
        end += 1;
    }
    end
}

/// Sets `end` in each of the nodes, which are in path order. Takes at most (number of nodes) ×
/// (depth) steps.
fn set_subtree_ends(nodes: &mut [Node])
    requires { AreInOrder (paths_of nodes.old) }
    ensures laid { IsLaidOut nodes.new }
    ensures functions { functions_of nodes.new ≡ functions_of nodes.old }
{
    for i in 0..nodes.len() {
        let end = subtree_end(nodes, i);
        let node = &mut nodes[i];
        node.end = end;
    }
}

/// Sets `bridge` in each node, from the last node to the first.
fn set_first_bridges(nodes: &mut [Node])
    requires { IsLaidOut nodes.old }
    ensures tree { IsTree nodes.new }
    ensures functions { functions_of nodes.new ≡ functions_of nodes.old }
{
    let mut i = nodes.len();
    let mut next = i;
    while i > 0 {
        i -= 1;
        let node = &mut nodes[i];
        next = node.first_bridge_from(i, next);
        node.bridge = next;
    }
}

/// Links nodes in path order into a tree.
pub(crate) fn link_into_tree(nodes: &mut [Node])
    requires { AreInOrder (paths_of nodes.old) }
    ensures tree { IsTree nodes.new }
    ensures functions { functions_of nodes.new ≡ functions_of nodes.old }
{
    set_subtree_ends(nodes);
    set_first_bridges(nodes);
}
