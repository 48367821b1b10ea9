//! A check that every function declared on a board can be saved: the value and the masks of each
//! register are bytes. They always are, since registers are stored as bytes. The theorems about
//! saved guests need this fact, and these calls establish it before a board is handed over. They
//! change nothing and allocate no memory.
ghost use Rattle.std.specs.Prelude.{◌≡◌, Some, slice_get};
ghost use Rattle.lists.specs.Elements.{Each};
ghost use Rattle.model_registers.specs.Cell.{IsCell};
ghost use Rattle.model_board.specs.State.{BoardFunction};
ghost use Rattle.model_images.specs.{ByteLaws.IsDeclared, SavedLaws.{AreDeclared, CanBeDeclared}};

use config_bytes::prove_cells_are_lawful;
use headers::{ConfigBlock, EndpointDecl, Region};
use host_bridge::Host;

fn prove_region_cells_are_lawful(regions: &[Region])
    ensures { Each (λ r. Each IsCell r.cells) regions.now }
{
    let mut left = regions;
    while let Some((region, rest)) = left.split_first() {
        prove_cells_are_lawful(&region.block);
        left = rest;
    }
}

fn prove_block_cells_are_lawful(blocks: &[ConfigBlock])
    ensures { Each (λ b. Each IsCell b.cells) blocks.now }
{
    let mut left = blocks;
    while let Some((block, rest)) = left.split_first() {
        prove_cells_are_lawful(&block.block);
        left = rest;
    }
}

fn prove_endpoint_can_be_saved(decl: &EndpointDecl)
    ensures { IsDeclared decl.now }
{
    let values = decl.values();
    prove_region_cells_are_lawful(&values.bar);
    prove_block_cells_are_lawful(&values.config);
}

/// Establishes that the declaration of the function at an index can be saved. For a bridge there is
/// nothing to check.
fn prove_function_can_be_saved(host: &Host, index: usize)
    ensures { (f : BoardFunction) → slice_get host.now.state.functions index ≡ Some f
        → CanBeDeclared f.decl }
{
    if let Some(endpoint) = host.endpoint_ref_nth(index) {
        prove_endpoint_can_be_saved(endpoint.decl());
    }
}

/// Establishes that every declaration on the board can be saved.
pub fn prove_board_can_be_saved(host: &Host)
    ensures { AreDeclared host.now.state.functions }
{
    for index in 0..host.count() {
        prove_function_can_be_saved(host, index);
    }
}
