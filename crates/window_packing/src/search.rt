//! Finds an item on a packed bus.
ghost use Rattle.std.specs.Prelude.{◌≡◌, IsTrue};
ghost use Rattle.lists.specs.Elements.{Each, EachPair};
ghost use Rattle.model_set_up.specs.Placement.{stands_before, is_item, offset_in};
ghost use Rattle.window_packing.specs.Searching.{IsFirstFrom};

use crate::item::{PlacedItem, PlacementItem};
use crate::pack::PackedBus;

/// Returns whether both items are one region, or one bridge's window.
fn is_same_item(item: &PlacementItem, key: &PlacementItem) -> bool
    ensures { result ≡ is_item key.now.part key.now.what item.now }
{
    item.part == key.part && item.what == key.what
}

/// Returns the index of the first spot whose item doesn't come before `key` in placement order.
fn first_not_before(spots: &[PlacedItem], key: &PlacementItem) -> usize
    requires { EachPair (λ s t. IsTrue (stands_before s.item t.item)) spots.now }
    ensures { IsFirstFrom spots.now key.now result }
{
    spots.partition_point(
        |spot: &PlacedItem| -> bool
            ensures { result ≡ stands_before spot.now.item key.entry.now }
        { spot.item.is_placed_before(key) },
    )
}

/// Returns the offset on the bus of the item with the function, register and alignment of `key`, or
/// 0 if there is no matching item.
pub(crate) fn item_offset_or_zero(pack: &PackedBus, key: &PlacementItem) -> u64
    requires order { EachPair (λ s t. IsTrue (stands_before s.item t.item)) pack.now.spots }
    requires align { Each (λ s. IsTrue (is_item key.now.part key.now.what s.item)
        → s.item.align ≡ key.now.align) pack.now.spots }
    ensures { result ≡ offset_in pack.now.spots key.now.part key.now.what }
{
    let at = first_not_before(&pack.spots, key);
    if at == pack.spots.len() {
        return 0;
    }
    let spot = &pack.spots[at];
    if is_same_item(&spot.item, key) {
        spot.first
    } else {
        0
    }
}
