//! Sizes of declarations and register values in a saved state.
ghost use Rattle.std.specs.Prelude.{◌≡◌, ◌≤◌, false, flat_map, length};
ghost use Rattle.lists.specs.Elements.{Each};
ghost use Rattle.model_registers.specs.{DeclarationRules.IsConfigBlock, EndpointTable.{block_cells, endpoint_reset, region_cells}};
ghost use Rattle.model_images.specs.ImageBytes.{declaration_bytes, greatest_declaration, greatest_values};
ghost use Rattle.images.specs.Parts.{block_bytes, declared_bytes, region_bytes};

use headers::{ConfigBlock, EndpointDecl, Region, bar_width_in_bytes};

fn encoded_regions_size(regions: &[Region]) -> usize
    requires counts { Each (λ r. length r.cells ≤ 4096) regions.now }
    requires few { length regions.now ≤ 6 }
    ensures size { result ≡ length (flat_map region_bytes regions.now) }
    ensures bound { result ≤ 73800 }
{
    let mut left = regions;
    let mut size = 0;
    while let Some((region, rest)) = left.split_first() {
        size += 12 + 3 * region.block.len();
        left = rest;
    }
    size
}

fn encoded_blocks_size(blocks: &[ConfigBlock]) -> usize
    requires lawful { Each IsConfigBlock blocks.now }
    requires few { length (flat_map block_bytes blocks.now) ≤ 965 }
    ensures size { result ≡ length (flat_map block_bytes blocks.now) }
    ensures bound { result ≤ 965 }
{
    let mut left = blocks;
    let mut size = 0;
    while let Some((block, rest)) = left.split_first() {
        size += 2 + 3 * block.block.len();
        left = rest;
    }
    size
}

/// Returns the total size of the parts of a declaration, in bytes.
fn encoded_parts_size(decl: &EndpointDecl) -> usize
    ensures size { result ≡ length (declared_bytes decl.now) }
    ensures bound { result ≤ greatest_declaration }
{
    let values = decl.values();
    19 + encoded_regions_size(&values.bar) + encoded_blocks_size(&values.config)
}

/// Returns the size of a declaration in a saved state, in bytes.
#[tactic(auto, using(crate::proofs::DeclaredBytes::declared_is))]
pub fn encoded_declaration_size(decl: &EndpointDecl) -> usize
    ensures size { result ≡ length (declaration_bytes decl.now) }
    ensures bound { result ≤ greatest_declaration }
{
    encoded_parts_size(decl)
}

/// Returns how many register bytes the regions have, including their base address registers.
fn count_bar_and_region_cells(regions: &[Region]) -> usize
    requires counts { Each (λ r. length r.cells ≤ 4096) regions.now }
    requires few { length (flat_map (region_cells (λ r. 0)) regions.now) ≤ 24600 }
    ensures size { result ≡ length (flat_map (region_cells (λ r. 0)) regions.now) }
    ensures bound { result ≤ 24600 }
{
    let mut left = regions;
    let mut size = 0;
    while let Some((region, rest)) = left.split_first() {
        size += usize::from(bar_width_in_bytes(region.bar.kind())) + region.block.len();
        left = rest;
    }
    size
}

fn count_block_cells(blocks: &[ConfigBlock]) -> usize
    requires lawful { Each IsConfigBlock blocks.now }
    requires few { length (flat_map block_cells blocks.now) ≤ 193 }
    ensures size { result ≡ length (flat_map block_cells blocks.now) }
    ensures bound { result ≤ 193 }
{
    let mut left = blocks;
    let mut size = 0;
    while let Some((block, rest)) = left.split_first() {
        size += block.block.len();
        left = rest;
    }
    size
}

/// Returns how many register bytes a declared endpoint has. Each takes one byte in a saved state.
pub fn count_endpoint_cells(decl: &EndpointDecl) -> usize
    ensures size { result ≡ length (endpoint_reset decl.now false) }
    ensures bound { result ≤ greatest_values }
{
    let values = decl.values();
    23 + count_block_cells(&values.config) + count_bar_and_region_cells(&values.bar)
}
