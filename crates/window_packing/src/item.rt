//! The items placed on a bus: regions and windows.
ghost use Rattle.std.specs.{Ordering.is_lt, Prelude.◌≡◌};
ghost use Rattle.model_set_up.specs.Placement.{register_of, stands_before};

use crate::layout_row::Placed;
use bridge_forward::Part;
use std::cmp::Ordering;
use std::marker::Model;

/// A region or a bridge window: the device and function number of its function, and its alignment
/// and size in bytes.
#[derive(Clone, Copy, Debug)]
pub(crate) struct PlacementItem {
    pub(crate) part: Part,
    pub(crate) what: Placed,
    pub(crate) align: u64,
    pub(crate) size: u64,
}

impl Model for PlacementItem {
    ghost use Rattle.model_set_up.specs.Placement.{PlacementItem};
    ghost use Rattle.window_packing.specs.Plans.{named_placed, placed_named};

    ghost Value = { PlacementItem };

    ghost view = { λ i.
        record { part = i.part; what = named_placed i.what; align = i.align; size = i.size } };

    ghost inverse = { λ v.
        record { part = v.part; what = placed_named v.what; align = v.align; size = v.size } };
}

impl PlacementItem {
    /// Returns the index of the region's first BAR register, which distinguishes the items of one
    /// function. Returns 0 for a window.
    fn bar_index_or_zero(&self) -> u8
        ensures { result ≡ register_of self.now.what }
    {
        match self.what {
            Placed::Region(index) => index,
            Placed::Window => 0,
        }
    }

    /// Returns whether this item is placed before the other: larger alignment first, then by
    /// device, function and register.
    pub(crate) fn is_placed_before(&self, other: &PlacementItem) -> bool
        ensures { result ≡ stands_before self.now other.now }
    {
        if self.align != other.align {
            return self.align > other.align;
        }
        self.part.is_before(other.part)
            || (self.part == other.part && self.bar_index_or_zero() < other.bar_index_or_zero())
    }

    /// Compares two items by the order in which they are placed on a bus.
    pub(crate) fn compare_placement(&self, other: &PlacementItem) -> Ordering
        ensures { is_lt result ≡ stands_before self.now other.now }
    {
        if self.is_placed_before(other) {
            Ordering::Less
        } else if other.is_placed_before(self) {
            Ordering::Greater
        } else {
            Ordering::Equal
        }
    }
}

/// An item with its offset from the start of the bus.
#[derive(Clone, Copy, Debug)]
pub(crate) struct PlacedItem {
    pub(crate) item: PlacementItem,
    pub(crate) first: u64,
}

impl Model for PlacedItem {
    ghost use Rattle.model_set_up.specs.Placement.{PlacedItem};

    ghost Value = { PlacedItem };

    ghost view = { λ s. record { item = s.item; first = s.first } };

    ghost inverse = { λ v. record { item = v.item; first = v.first } };
}
