//! Serialization of a function's register values as its guest reads them.
ghost use Rattle.std.specs.Prelude.{◌≡◌, ◌≤◌, ◌<◌, ◌+◌, ◌^◌, flat_map, length};
ghost use Rattle.lists.specs.Elements.{Each};
ghost use Rattle.model_registers.specs.{Declarations.IsLawfulRegion, DeclarationRules.{IsConfigBlock, IsLawfulEndpoint}};
ghost use Rattle.headers.specs.{declared.place.Place.TheVariants.Cfg, Places.place_of};
ghost use Rattle.images.specs.{Puts.put, Shown.{block_values, bytes_from, header_values, region_values, shown_values}};

use crate::function_bytes::read_shown_byte;
use crate::writing::put_bytes_and_advance;
use bridge_forward::EndpointFn;
use guest_functions::VirtualFunction;
use headers::{ConfigBlock, Place, Region, bar_width_in_bytes};

/// Writes `count` register values from the offset `first` into the buffer, and returns the index
/// after them.
fn put_shown_and_advance(
    endpoint: &EndpointFn,
    own: &VirtualFunction,
    place: Place,
    first: u64,
    count: usize,
    out: &mut [u8],
    at: usize,
) -> usize
    requires config { place ≡ Cfg → first + count ≤ 256 }
    requires low { first + count < 2 ^ 63 }
    requires room { at + count ≤ length out.old }
    ensures bytes { out.new
        ≡ put at (bytes_from endpoint.now own.now (place_of place first) count) out.old }
    ensures end { result ≡ at + count }
{
    let mut next = at;
    let mut off = first;
    let mut left = count;
    while left > 0 {
        next = put_bytes_and_advance(out, next, &[read_shown_byte(endpoint, own, place, off)]);
        off += 1;
        left -= 1;
    }
    next
}

/// Writes the 23 bytes of the header that are outside the base address registers.
fn put_non_bar_header_and_advance(
    endpoint: &EndpointFn,
    own: &VirtualFunction,
    out: &mut [u8],
    at: usize,
) -> usize
    requires { at + 23 ≤ length out.old }
    ensures bytes { out.new ≡ put at (header_values endpoint.now own.now) out.old }
    ensures end { result ≡ at + 23 }
{
    let next = put_shown_and_advance(endpoint, own, Place::Cfg, 0, 15, out, at);
    let next = put_shown_and_advance(endpoint, own, Place::Cfg, 0x2c, 4, out, next);
    put_shown_and_advance(endpoint, own, Place::Cfg, 0x3c, 4, out, next)
}

fn put_values_of_block_and_advance(
    endpoint: &EndpointFn,
    own: &VirtualFunction,
    block: &ConfigBlock,
    out: &mut [u8],
    at: usize,
) -> usize
    requires lawful { IsConfigBlock block.now }
    requires room { at + length (block_values endpoint.now own.now block.now) ≤ length out.old }
    ensures bytes { out.new ≡ put at (block_values endpoint.now own.now block.now) out.old }
    ensures end { result ≡ at + length (block_values endpoint.now own.now block.now) }
{
    let first = u64::from(block.off);
    put_shown_and_advance(endpoint, own, Place::Cfg, first, block.block.len(), out, at)
}

fn put_values_of_blocks_and_advance(
    endpoint: &EndpointFn,
    own: &VirtualFunction,
    blocks: &[ConfigBlock],
    out: &mut [u8],
    at: usize,
) -> usize
    requires lawful { Each IsConfigBlock blocks.now }
    requires room { at + length (flat_map (block_values endpoint.now own.now) blocks.now)
        ≤ length out.old }
    ensures bytes { out.new
        ≡ put at (flat_map (block_values endpoint.now own.now) blocks.now) out.old }
    ensures end { result
        ≡ at + length (flat_map (block_values endpoint.now own.now) blocks.now) }
{
    let mut left = blocks;
    let mut next = at;
    while let Some((block, rest)) = left.split_first() {
        next = put_values_of_block_and_advance(endpoint, own, block, out, next);
        left = rest;
    }
    next
}

/// Writes the values of a region's base address register and of the declared bytes at its start.
fn put_values_of_region_and_advance(
    endpoint: &EndpointFn,
    own: &VirtualFunction,
    region: &Region,
    out: &mut [u8],
    at: usize,
) -> usize
    requires lawful { IsLawfulRegion region.now }
    requires count { length region.now.cells ≤ 4096 }
    requires room { at + length (region_values endpoint.now own.now region.now) ≤ length out.old }
    ensures bytes { out.new ≡ put at (region_values endpoint.now own.now region.now) out.old }
    ensures end { result ≡ at + length (region_values endpoint.now own.now region.now) }
{
    let first = 0x10 + 4 * u64::from(region.index);
    let kind = region.bar.kind();
    let width = usize::from(bar_width_in_bytes(kind));
    let next = put_shown_and_advance(endpoint, own, Place::Cfg, first, width, out, at);
    let place = Place::Bar(region.index);
    put_shown_and_advance(endpoint, own, place, 0, region.block.len(), out, next)
}

fn put_values_of_regions_and_advance(
    endpoint: &EndpointFn,
    own: &VirtualFunction,
    regions: &[Region],
    out: &mut [u8],
    at: usize,
) -> usize
    requires lawful { Each IsLawfulRegion regions.now }
    requires counts { Each (λ r. length r.cells ≤ 4096) regions.now }
    requires room { at + length (flat_map (region_values endpoint.now own.now) regions.now)
        ≤ length out.old }
    ensures bytes { out.new
        ≡ put at (flat_map (region_values endpoint.now own.now) regions.now) out.old }
    ensures end { result
        ≡ at + length (flat_map (region_values endpoint.now own.now) regions.now) }
{
    let mut left = regions;
    let mut next = at;
    while let Some((region, rest)) = left.split_first() {
        next = put_values_of_region_and_advance(endpoint, own, region, out, next);
        left = rest;
    }
    next
}

/// Writes a byte for each declared register byte of an endpoint, in the order of its reset values.
pub(crate) fn put_all_values_and_advance(
    endpoint: &EndpointFn,
    own: &VirtualFunction,
    out: &mut [u8],
    at: usize,
) -> usize
    requires { let values = shown_values endpoint.now own.now endpoint.now.decl in
        at + length values ≤ length out.old }
    ensures bytes { let values = shown_values endpoint.now own.now endpoint.now.decl in
        out.new ≡ put at values out.old }
    ensures end { let values = shown_values endpoint.now own.now endpoint.now.decl in
        result ≡ at + length values }
    ensures lawful { IsLawfulEndpoint endpoint.now.decl }
{
    let values = endpoint.decl().values();
    let next = put_non_bar_header_and_advance(endpoint, own, out, at);
    let next = put_values_of_blocks_and_advance(endpoint, own, &values.config, out, next);
    put_values_of_regions_and_advance(endpoint, own, &values.bar, out, next)
}
