//! Packs the items of one bus.
ghost use Rattle.std.specs.Prelude.{◌≡◌, ◌+◌, ◌<◌, ◌≤◌, ◌^◌, IfOk, IfSome, MatchOption};
ghost use Rattle.lists.specs.Elements.{Each};
ghost use Rattle.model_set_up.specs.Placement.{round_up, end_from, spots_from, in_order, alignment};
ghost use Rattle.window_packing.specs.Packs.{pack_items, IsPackable, HasLawfulAlign};

use crate::item::{PlacedItem, PlacementItem};
use crate::order::sort_by_placement;
use std::alloc::{AllocError, Global};
use std::marker::Model;

/// The upper limit of every aperture: no aperture ends above 2^63.
const LIMIT: u64 = 0x8000_0000_0000_0000;

/// A packed bus: its items with their offsets in ascending order, the alignment of the bus, and the
/// offset at which the last item ends.
#[derive(Debug, Drop)]
pub(crate) struct PackedBus {
    pub(crate) spots: Vec<PlacedItem>,
    pub(crate) align: u64,
    pub(crate) end: u64,
}

impl Model for PackedBus {
    ghost use Rattle.window_packing.specs.Packs.{PackedBus};

    ghost Value = { PackedBus };

    ghost view = { λ p. record { spots = p.spots.items; align = p.align; end = p.end } };
}

/// Rounds `n` up to a multiple of `align`.
pub(crate) fn round_up(align: u64, n: u64) -> u64
    requires align { 0 < align }
    requires room { n + align ≤ 2 ^ 64 }
    ensures { result ≡ round_up align n }
{
    (n + (align - 1)) / align * align
}

/// Returns the first aligned offset for the item at or after `at`, or `None` if the item would end
/// above the limit.
fn aligned_offset_if_fits(at: u64, item: &PlacementItem) -> Option<u64>
    requires at { at ≤ 2 ^ 63 }
    requires item { HasLawfulAlign item.now }
    ensures { MatchOption result (2 ^ 63 < round_up item.now.align at + item.now.size) (λ first.
        (first ≡ round_up item.now.align at) × (first + item.now.size ≤ 2 ^ 63)) }
{
    let first = round_up(item.align, at);
    if first > LIMIT || item.size > LIMIT - first {
        return None;
    }
    Some(first)
}

/// Places the items one after another. Returns their offsets and the end of the last one, or `None`
/// if an item would end above the limit.
fn place_items_with_end(
    alloc: Global,
    items: &[PlacementItem],
) -> Result<Option<(Vec<PlacedItem>, u64)>, AllocError>
    requires { Each HasLawfulAlign items.now }
    ensures { IfOk result (λ r. MatchOption r (2 ^ 63 < end_from 0 items.now) (λ p.
        (p.0.items ≡ spots_from 0 items.now) × (p.1 ≡ end_from 0 items.now)
        × (p.1 ≤ 2 ^ 63))) }
{
    let mut spots = Vec::with_capacity(alloc, items.len())?;
    let mut at = 0;
    'items: for item in items {
        let first = match aligned_offset_if_fits(at, item) {
            Some(first) => first,
            None => return Ok(None),
        };
        spots.push(PlacedItem { item: *item, first })?;
        at = first + item.size;
    }
    Ok(Some((spots, at)))
}

/// Returns the largest alignment of the items, or the window granularity `unit` if that is larger.
fn largest_alignment(unit: u64, items: &[PlacementItem]) -> u64
    ensures { result ≡ alignment unit items.now }
{
    let mut greatest = unit;
    'items: for item in items {
        greatest = greatest.max(item.align);
    }
    greatest
}

/// Packs the items of a bus. Returns `None` if the last item would end above 2^63.
pub(crate) fn pack_bus(
    alloc: Global,
    unit: u64,
    items: Vec<PlacementItem>,
) -> Result<Option<PackedBus>, AllocError>
    requires { IsPackable items.items }
    ensures packed { IfOk result (λ r.
        MatchOption r (2 ^ 63 < end_from 0 (in_order items.items)) (λ p.
        p ≡ pack_items unit items.items)) }
    ensures within { IfOk result (λ r. IfSome r (λ p. p.end ≤ 2 ^ 63)) }
{
    let mut items = items;
    sort_by_placement(&mut items);
    let Some((spots, end)) = place_items_with_end(alloc, &items)? else {
        return Ok(None);
    };
    Ok(Some(PackedBus {
        spots,
        align: largest_alignment(unit, &items),
        end,
    }))
}
