//! Comparison of the bytes of a saved state with a function's declaration.
ghost use Rattle.std.specs.Prelude.{◌≡◌, ◌≤◌, ◌<◌, Ok, Err, IfErr, IfOk, flat_map, length};
ghost use Rattle.lists.specs.Elements.{Each};
ghost use Rattle.model_registers.specs.{Declarations.IsLawfulRegion, DeclarationRules.{IsConfigBlock, IsLawfulEndpoint}};
ghost use Rattle.model_images.specs.{ImageBytes.declaration_bytes, LoadedBytes.after_bytes};
ghost use Rattle.images.specs.{Faults.number_of, Parts.{block_bytes, cell_bytes, counted_blocks, declared_bytes, region_bytes, rest_bytes}};

use crate::fault::ImageFault;
use crate::parts::{block_head_bytes, cell_bytes, endpoint_head_bytes, region_head_bytes};
use config_bytes::Cell;
use headers::{ConfigBlock, EndpointDecl, EndpointValues, Region};

/// Strips the expected bytes from the front of `bytes`, and returns the rest. Refuses bytes that
/// end early (905) or differ (906).
pub(crate) fn strip_expected_bytes<'a>(own: &[u8], bytes: &'a [u8]) -> Result<&'a [u8], ImageFault>
    ensures left { IfOk result (λ rest. after_bytes 906 own.now bytes.now ≡ Ok rest.now) }
    ensures refused { IfErr result (λ why.
        after_bytes 906 own.now bytes.now ≡ Err (number_of why)) }
{
    match bytes.strip_prefix(own) {
        Some(rest) => Ok(rest),
        None => Err(if own.starts_with(bytes) {
            ImageFault::NoImage
        } else {
            ImageFault::OtherFunctions
        }),
    }
}

fn strip_cells<'a>(cells: &[Cell], bytes: &'a [u8]) -> Result<&'a [u8], ImageFault>
    ensures left { IfOk result (λ rest.
        after_bytes 906 (flat_map cell_bytes cells.now) bytes.now ≡ Ok rest.now) }
    ensures refused { IfErr result (λ why.
        after_bytes 906 (flat_map cell_bytes cells.now) bytes.now ≡ Err (number_of why)) }
{
    let mut left = cells;
    let mut bytes = bytes;
    while let Some((cell, rest)) = left.split_first() {
        bytes = strip_expected_bytes(&cell_bytes(cell), bytes)?;
        left = rest;
    }
    Ok(bytes)
}

fn strip_region_decl<'a>(region: &Region, bytes: &'a [u8]) -> Result<&'a [u8], ImageFault>
    requires lawful { IsLawfulRegion region.now }
    requires count { length region.now.cells ≤ 4096 }
    ensures left { IfOk result (λ rest.
        after_bytes 906 (region_bytes region.now) bytes.now ≡ Ok rest.now) }
    ensures refused { IfErr result (λ why.
        after_bytes 906 (region_bytes region.now) bytes.now ≡ Err (number_of why)) }
{
    let bytes = strip_expected_bytes(&region_head_bytes(region), bytes)?;
    strip_cells(&region.block, bytes)
}

fn strip_region_decls<'a>(regions: &[Region], bytes: &'a [u8]) -> Result<&'a [u8], ImageFault>
    requires lawful { Each IsLawfulRegion regions.now }
    requires counts { Each (λ r. length r.cells ≤ 4096) regions.now }
    ensures left { IfOk result (λ rest.
        after_bytes 906 (flat_map region_bytes regions.now) bytes.now ≡ Ok rest.now) }
    ensures refused { IfErr result (λ why.
        after_bytes 906 (flat_map region_bytes regions.now) bytes.now ≡ Err (number_of why)) }
{
    let mut left = regions;
    let mut bytes = bytes;
    while let Some((region, rest)) = left.split_first() {
        bytes = strip_region_decl(region, bytes)?;
        left = rest;
    }
    Ok(bytes)
}

fn strip_block_decl<'a>(block: &ConfigBlock, bytes: &'a [u8]) -> Result<&'a [u8], ImageFault>
    requires { IsConfigBlock block.now }
    ensures left { IfOk result (λ rest.
        after_bytes 906 (block_bytes block.now) bytes.now ≡ Ok rest.now) }
    ensures refused { IfErr result (λ why.
        after_bytes 906 (block_bytes block.now) bytes.now ≡ Err (number_of why)) }
{
    let bytes = strip_expected_bytes(&block_head_bytes(block), bytes)?;
    strip_cells(&block.block, bytes)
}

fn strip_block_decls<'a>(blocks: &[ConfigBlock], bytes: &'a [u8]) -> Result<&'a [u8], ImageFault>
    requires { Each IsConfigBlock blocks.now }
    ensures left { IfOk result (λ rest.
        after_bytes 906 (flat_map block_bytes blocks.now) bytes.now ≡ Ok rest.now) }
    ensures refused { IfErr result (λ why.
        after_bytes 906 (flat_map block_bytes blocks.now) bytes.now ≡ Err (number_of why)) }
{
    let mut left = blocks;
    let mut bytes = bytes;
    while let Some((block, rest)) = left.split_first() {
        bytes = strip_block_decl(block, bytes)?;
        left = rest;
    }
    Ok(bytes)
}

/// Strips the number of blocks and the blocks themselves.
fn strip_counted_blocks<'a>(blocks: &[ConfigBlock], bytes: &'a [u8]) -> Result<&'a [u8], ImageFault>
    requires lawful { Each IsConfigBlock blocks.now }
    requires count { length blocks.now < 256 }
    ensures left { IfOk result (λ rest.
        after_bytes 906 (counted_blocks blocks.now) bytes.now ≡ Ok rest.now) }
    ensures refused { IfErr result (λ why.
        after_bytes 906 (counted_blocks blocks.now) bytes.now ≡ Err (number_of why)) }
{
    let bytes = strip_expected_bytes(&[blocks.len() as u8], bytes)?;
    strip_block_decls(blocks, bytes)
}

/// Strips the regions and the blocks of a declaration.
fn strip_regions_and_blocks<'a>(
    values: &EndpointValues,
    bytes: &'a [u8],
) -> Result<&'a [u8], ImageFault>
    requires { IsLawfulEndpoint values.now }
    ensures left { IfOk result (λ rest.
        after_bytes 906 (rest_bytes values.now) bytes.now ≡ Ok rest.now) }
    ensures refused { IfErr result (λ why.
        after_bytes 906 (rest_bytes values.now) bytes.now ≡ Err (number_of why)) }
{
    let bytes = strip_region_decls(&values.bar, bytes)?;
    strip_counted_blocks(&values.config, bytes)
}

/// Strips all parts of a declaration.
fn strip_declaration_parts<'a>(decl: &EndpointDecl, bytes: &'a [u8]) -> Result<&'a [u8], ImageFault>
    ensures left { IfOk result (λ rest.
        after_bytes 906 (declared_bytes decl.now) bytes.now ≡ Ok rest.now) }
    ensures refused { IfErr result (λ why.
        after_bytes 906 (declared_bytes decl.now) bytes.now ≡ Err (number_of why)) }
{
    let values = decl.values();
    let bytes = strip_expected_bytes(&endpoint_head_bytes(decl), bytes)?;
    strip_regions_and_blocks(values, bytes)
}

/// Strips a declaration from the front of `bytes`, and returns the rest. Refuses bytes that end
/// early (905) or belong to a different declaration (906).
#[tactic(auto, using(crate::proofs::DeclaredBytes::declared_is))]
pub(crate) fn strip_declaration<'a>(
    decl: &EndpointDecl,
    bytes: &'a [u8],
) -> Result<&'a [u8], ImageFault>
    ensures left { IfOk result (λ rest.
        after_bytes 906 (declaration_bytes decl.now) bytes.now ≡ Ok rest.now) }
    ensures refused { IfErr result (λ why.
        after_bytes 906 (declaration_bytes decl.now) bytes.now ≡ Err (number_of why)) }
{
    strip_declaration_parts(decl, bytes)
}
