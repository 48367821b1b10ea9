//! Serialization of declarations into a buffer.
ghost use Rattle.std.specs.Prelude.{◌≡◌, ◌≤◌, ◌+◌, length, flat_map};
ghost use Rattle.lists.specs.Elements.{Each};
ghost use Rattle.model_registers.specs.{Declarations.IsLawfulRegion, DeclarationRules.IsConfigBlock};
ghost use Rattle.model_images.specs.ImageBytes.{declaration_bytes};
ghost use Rattle.images.specs.{Parts.{block_bytes, cell_bytes, declared_bytes, region_bytes}, Puts.put};

use crate::parts::{block_head_bytes, cell_bytes, endpoint_head_bytes, region_head_bytes};
use config_bytes::Cell;
use headers::{ConfigBlock, EndpointDecl, Region};

/// Copies bytes into a buffer from index `at`, and returns the index after them.
pub fn put_bytes_and_advance(out: &mut [u8], at: usize, bytes: &[u8]) -> usize
    requires { at + length bytes.now ≤ length out.old }
    ensures bytes { out.new ≡ put at bytes.now out.old }
    ensures end { result ≡ at + length bytes.now }
{
    let end = at + bytes.len();
    out[at..end].copy_from_slice(bytes);
    end
}

fn put_cells_and_advance(out: &mut [u8], at: usize, cells: &[Cell]) -> usize
    requires { at + length (flat_map cell_bytes cells.now) ≤ length out.old }
    ensures bytes { out.new ≡ put at (flat_map cell_bytes cells.now) out.old }
    ensures end { result ≡ at + length (flat_map cell_bytes cells.now) }
{
    let mut left = cells;
    let mut next = at;
    while let Some((cell, rest)) = left.split_first() {
        next = put_bytes_and_advance(out, next, &cell_bytes(cell));
        left = rest;
    }
    next
}

fn put_region_and_advance(out: &mut [u8], at: usize, region: &Region) -> usize
    requires lawful { IsLawfulRegion region.now }
    requires count { length region.now.cells ≤ 4096 }
    requires room { at + length (region_bytes region.now) ≤ length out.old }
    ensures bytes { out.new ≡ put at (region_bytes region.now) out.old }
    ensures end { result ≡ at + length (region_bytes region.now) }
{
    let next = put_bytes_and_advance(out, at, &region_head_bytes(region));
    put_cells_and_advance(out, next, &region.block)
}

fn put_regions_and_advance(out: &mut [u8], at: usize, regions: &[Region]) -> usize
    requires lawful { Each IsLawfulRegion regions.now }
    requires counts { Each (λ r. length r.cells ≤ 4096) regions.now }
    requires room { at + length (flat_map region_bytes regions.now) ≤ length out.old }
    ensures bytes { out.new ≡ put at (flat_map region_bytes regions.now) out.old }
    ensures end { result ≡ at + length (flat_map region_bytes regions.now) }
{
    let mut left = regions;
    let mut next = at;
    while let Some((region, rest)) = left.split_first() {
        next = put_region_and_advance(out, next, region);
        left = rest;
    }
    next
}

fn put_block_and_advance(out: &mut [u8], at: usize, block: &ConfigBlock) -> usize
    requires lawful { IsConfigBlock block.now }
    requires room { at + length (block_bytes block.now) ≤ length out.old }
    ensures bytes { out.new ≡ put at (block_bytes block.now) out.old }
    ensures end { result ≡ at + length (block_bytes block.now) }
{
    let next = put_bytes_and_advance(out, at, &block_head_bytes(block));
    put_cells_and_advance(out, next, &block.block)
}

fn put_blocks_and_advance(out: &mut [u8], at: usize, blocks: &[ConfigBlock]) -> usize
    requires lawful { Each IsConfigBlock blocks.now }
    requires room { at + length (flat_map block_bytes blocks.now) ≤ length out.old }
    ensures bytes { out.new ≡ put at (flat_map block_bytes blocks.now) out.old }
    ensures end { result ≡ at + length (flat_map block_bytes blocks.now) }
{
    let mut left = blocks;
    let mut next = at;
    while let Some((block, rest)) = left.split_first() {
        next = put_block_and_advance(out, next, block);
        left = rest;
    }
    next
}

/// Writes the parts of a declaration one after the other.
fn put_parts_and_advance(out: &mut [u8], at: usize, decl: &EndpointDecl) -> usize
    requires { at + length (declared_bytes decl.now) ≤ length out.old }
    ensures bytes { out.new ≡ put at (declared_bytes decl.now) out.old }
    ensures end { result ≡ at + length (declared_bytes decl.now) }
{
    let values = decl.values();
    let next = put_bytes_and_advance(out, at, &endpoint_head_bytes(decl));
    let next = put_regions_and_advance(out, next, &values.bar);
    let next = put_bytes_and_advance(out, next, &[values.config.len() as u8]);
    put_blocks_and_advance(out, next, &values.config)
}

/// Writes a declaration into the buffer from index `at`, and returns the index after it.
#[tactic(auto, using(crate::proofs::DeclaredBytes::declared_is))]
pub(crate) fn put_declaration_and_advance(decl: &EndpointDecl, out: &mut [u8], at: usize) -> usize
    requires { at + length (declaration_bytes decl.now) ≤ length out.old }
    ensures bytes { out.new ≡ put at (declaration_bytes decl.now) out.old }
    ensures end { result ≡ at + length (declaration_bytes decl.now) }
{
    put_parts_and_advance(out, at, decl)
}
