//! The placement order of the items on a bus.
ghost use Rattle.std.specs.Prelude.{◌≡◌};
ghost use Rattle.model_set_up.specs.Placement.{in_order};
ghost use Rattle.window_packing.specs.Packs.{HasOneOrder};

use crate::item::PlacementItem;

/// Sorts the items of a bus: larger alignment first, then by device, function and register.
pub(crate) fn sort_by_placement(items: &mut Vec<PlacementItem>)
    requires { HasOneOrder items.old.items }
    ensures { items.new.items ≡ in_order items.old.items }
{
    items.sort_unstable_by(|a, b| a.compare_placement(b));
}
