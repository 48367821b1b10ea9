//! The registers of a function that decide where an address goes (PCI Local Bus 3.0, section 6.2.5;
//! PCI-to-PCI Bridge Architecture 1.2, section 3.2.5 and chapter 4).
ghost use Rattle.std.specs.Prelude.{◌≡◌, IfOk, Option, map, option_map};
ghost use Rattle.model_registers.specs.EndpointTable.{HasLawfulBases};
ghost use Rattle.headers.specs.WindowPairs.{pair_of};
ghost use Rattle.bars.specs.Slots.{bases_from};
ghost use Rattle.bridge_forward.specs.RoutingRows.{window_of, base_of};
ghost use Rattle.model_registers.specs.Windows as model;

use crate::routing_region::RoutingRegion;
use paths::Path;
use std::alloc::{AllocError, Global};
use std::marker::Model;

/// The first and last address of a window, both inclusive.
#[derive(Clone, Copy, Debug)]
pub struct Window {
    pub first: u64,
    pub last: u64,
}

/// The regions of an endpoint, ordered by BAR register, or the windows of a bridge.
#[derive(Debug, Drop)]
pub enum Ranges {
    Regions(Vec<RoutingRegion>),
    Windows {
        io: Option<Window>,
        mem: Option<Window>,
        pref: Option<Window>,
    },
}

/// A function's path, its Command register, and its regions or windows.
#[derive(Debug, Drop)]
pub struct RoutingRow {
    pub path: Path,
    pub command: u16,
    pub ranges: Ranges,
}

impl Model for RoutingRow {
    ghost use Rattle.model_board.specs.Routing.{RoutingRow as RowValue};
    ghost use Rattle.bridge_forward.specs.RoutingRows.{named_ranges};

    ghost Value = { RowValue };

    ghost view = { λ r.
        record { path = r.path; command = r.command; ranges = named_ranges r.ranges } };
}

/// Converts a pair of first and last address to a window.
pub(crate) fn window_from_pair(pair: Option<(u64, u64)>) -> Option<Window>
    ensures { (w : Option model.Window) → pair ≡ option_map pair_of w →
        option_map window_of result ≡ w }
{
    match pair {
        None => None,
        Some((first, last)) => Some(Window { first, last }),
    }
}

/// Collects the regions from the six BAR registers, in register order.
pub(crate) fn collect_regions(
    alloc: Global,
    slots: &[Option<bars::BarWithBase>; 6],
) -> Result<Vec<RoutingRegion>, AllocError>
    requires { HasLawfulBases (bases_from 0 slots.now) }
    ensures { IfOk result (λ v. map base_of v.items ≡ bases_from 0 slots.now) }
{
    let mut regions = Vec::new(alloc);
    for index in 0..6u8 {
        let slot = slots[usize::from(index)];
        if let Some(region) = slot {
            regions.push(RoutingRegion {
                index,
                kind: region.decl.kind(),
                size: region.decl.size(),
                base: region.base,
            })?;
        }
    }
    Ok(regions)
}
