//! The BARs and register blocks of an endpoint, indexed by BAR register.
ghost use Rattle.std.specs.{Prelude.{◌≡◌, ◌≤◌, ◌<◌, ℕ, IfOk, length, map, slice_get, Some, [], ◌∷◌}, Option.option_copied};
ghost use Rattle.lists.specs.Elements.{Each};
ghost use Rattle.model_registers.specs.{Registers.{config, cells_from}};
ghost use Rattle.bridge_forward.specs.EndpointParts.{region_at, declared_bar, declared_block, as_made, blocks_after};

use bars::BarDecl;
use config_bytes::{Cell, Cells};
use headers::Region;
use std::alloc::{AllocError, Global};

/// Returns the declared region whose first BAR register has this index.
fn find_region_at(regions: &[Region], index: u8) -> Option<&Region>
    ensures { option_copied result ≡ region_at regions.now index }
{
    regions.iter().find(|region| region.index == index)
}

fn bar_decl_at(regions: &[Region], index: u8) -> Option<BarDecl>
    ensures { result ≡ declared_bar regions.now index }
{
    match find_region_at(regions, index) {
        Some(region) => Some(region.bar),
        None => None,
    }
}

/// Returns the declared BAR of each of the six BAR registers, by index.
pub(crate) fn bar_decls(regions: &[Region]) -> [Option<BarDecl>; 6]
    ensures { result ≡ map (declared_bar regions.now) (0 ∷ 1 ∷ 2 ∷ 3 ∷ 4 ∷ 5 ∷ []) }
{
    [0, 1, 2, 3, 4, 5].map(|index| bar_decl_at(regions, index))
}

/// Creates the register block with these cells, which start at offset 0.
fn cells_of_block(alloc: Global, block: &[Cell]) -> Result<Cells, AllocError>
    requires { length block.now ≤ 4096 }
    ensures { IfOk result (λ f. f ≡ as_made (cells_from (config 0) block.now)) }
{
    let mut cells = Vec::with_capacity(alloc, block.len())?;
    for (off, cell) in block.iter().enumerate() {
        cells.push((off as u16, *cell))?;
    }
    Cells::new(alloc, &cells)
}

/// Creates the register block behind a BAR register. The block is empty if no region starts there.
fn cells_of_block_at(alloc: Global, regions: &[Region], index: u8) -> Result<Cells, AllocError>
    requires { Each (λ r. length r.cells ≤ 4096) regions.now }
    ensures { IfOk result (λ f. f ≡ as_made (declared_block regions.now index)) }
{
    match find_region_at(regions, index) {
        Some(region) => cells_of_block(alloc, &region.block),
        None => Cells::new(alloc, &[]),
    }
}

/// Creates the six register blocks of an endpoint, one for each BAR register. A block is empty if
/// no region starts at its BAR register.
pub(crate) fn cells_of_all_blocks(
    alloc: Global,
    regions: &[Region],
) -> Result<Vec<Cells>, AllocError>
    requires { Each (λ r. length r.cells ≤ 4096) regions.now }
    ensures blocks { IfOk result (λ v.
        (n : ℕ) → n < 6 →
        slice_get v.items n ≡ Some (as_made (declared_block regions.now n))) }
    ensures six { IfOk result (λ v. length v.items ≡ 6) }
{
    let mut blocks = Vec::with_capacity(alloc, 6)?;
    for index in 0..6 {
        blocks.push(cells_of_block_at(alloc, regions, index)?)?;
    }
    Ok(blocks)
}

/// Resets every register block.
pub(crate) fn reset_all(blocks: &mut [Cells])
    ensures { blocks.new ≡ blocks_after blocks.old }
{
    for block in blocks.iter_mut() {
        block.reset();
    }
}
