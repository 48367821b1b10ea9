//! BARs at their current addresses.
ghost use Rattle.std.specs.{Prelude.{◌≡◌, ◌+◌, [], ◌∷◌, filter}, Option.option_to_list};
ghost use Rattle.model_set_up.specs.PlacedRegions.{holds};
ghost use Rattle.findings.specs.Extents.{extent_of};

use crate::row::holds;
use bridge_forward::{Path, RoutingRegion, Window};
use std::marker::Model;

/// A BAR at its current address, and the path of its endpoint.
#[derive(Debug, Drop)]
pub struct LiveBar {
    pub path: Path,
    pub region: RoutingRegion,
}

impl Model for LiveBar {
    ghost use Rattle.model_set_up.specs.PlacedRegions.{PlacedRegion};
    ghost use Rattle.model_findings.specs.OpenRegions.{region_now};
    ghost use Rattle.bridge_forward.specs.RoutingRows.{base_of};

    ghost Value = { PlacedRegion };

    ghost view = { λ r. region_now r.path (base_of r.region) };
}

/// Returns the addresses of a BAR.
pub(crate) fn bar_extent(region: RoutingRegion) -> Window
    ensures { extent_of result ≡ record { first = region.base; end = region.base + region.size } }
{
    Window {
        first: region.base,
        last: region.base + (region.size - 1),
    }
}

impl LiveBar {
    /// Returns whether the BAR contains an address of its space.
    pub fn holds(&self, addr: u64) -> bool
        ensures { result ≡ holds self.now.space addr self.now }
    {
        holds(bar_extent(self.region), addr)
    }

    /// Returns the address after a window if it is in the BAR.
    pub fn address_after_if_held(&self, window: Window) -> Option<u64>
        ensures { option_to_list result
            ≡ filter (λ n. holds self.now.space n self.now) ((extent_of window).end ∷ []) }
    {
        let held = bar_extent(self.region);
        let end = window.last.checked_add(1)?;
        if holds(held, end) { Some(end) } else { None }
    }

    /// Returns a copy of the BAR.
    pub fn copied(&self) -> LiveBar
        ensures { result ≡ self.now }
    {
        LiveBar {
            path: self.path.copied(),
            region: self.region,
        }
    }
}
