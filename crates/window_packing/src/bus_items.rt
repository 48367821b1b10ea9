//! The regions and windows that the functions of a bus need on that bus.
ghost use Rattle.std.specs.Prelude.{◌≡◌, ◌++◌, ◌≤◌, ◌^◌, List, [], ◌∷◌, IfOk};
ghost use Rattle.model_registers.specs.Declarations.{Bridge};
ghost use Rattle.window_packing.specs.{Plans.named_pool, Packs.{IsOver, pool_items, regions_from, window_of, own_items}};
ghost use Rattle.model_set_up.specs.Pools.{unit_of};

use crate::item::PlacementItem;
use crate::layout_row::Placed;
use crate::pack::{PackedBus, round_up};
use crate::pool::{Pool, pool_of};
use crate::upstream_windows::UpstreamSupport;
use bars::BarDecl;
use bridge_forward::Part;
use bus_scan::{Enumerated, EnumeratedFunction};
use headers::Apertures;
use std::alloc::AllocError;

/// Appends the region that starts at a BAR register, if there is one and it belongs to the pool.
fn push_bar_if_in_pool(
    into: &mut Vec<PlacementItem>,
    part: Part,
    index: u8,
    bar: Option<BarDecl>,
    pool: Pool,
    above: &UpstreamSupport,
    apertures: &Apertures,
) -> Result<(), AllocError>
    ensures { IfOk result (λ _. (ds : List Bridge) → IsOver ds above.now
        → into.new.items
        ≡ into.old.items
        ++ pool_items apertures.now ds (named_pool pool) part (regions_from index (bar ∷ []))) }
{
    if let Some(bar) = bar
        && pool_of(apertures, above, bar.kind()) == pool
    {
        into.push(PlacementItem {
            part,
            what: Placed::Region(index),
            align: bar.size(),
            size: bar.size(),
        })?;
    }
    Ok(())
}

/// Appends the regions of an endpoint that belong to the pool.
fn push_regions_in_pool(
    into: &mut Vec<PlacementItem>,
    part: Part,
    bars: &[Option<BarDecl>; 6],
    pool: Pool,
    above: &UpstreamSupport,
    apertures: &Apertures,
) -> Result<(), AllocError>
    ensures { IfOk result (λ _. (ds : List Bridge) → IsOver ds above.now
        → into.new.items
        ≡ into.old.items
        ++ pool_items apertures.now ds (named_pool pool) part (regions_from 0 bars.now)) }
{
    'registers: for index in 0..6u8 {
        push_bar_if_in_pool(
            into,
            part,
            index,
            bars[usize::from(index)],
            pool,
            above,
            apertures,
        )?;
    }
    Ok(())
}

/// Appends the window of a bridge, rounded up to the window granularity, unless the bus behind the
/// bridge is empty.
fn push_window_unless_empty(
    into: &mut Vec<PlacementItem>,
    part: Part,
    pool: Pool,
    behind: &PackedBus,
) -> Result<(), AllocError>
    requires { behind.now.end ≤ 2 ^ 63 }
    ensures { IfOk result (λ _.
        into.new.items ≡ into.old.items
        ++ window_of (unit_of (named_pool pool)) part behind.now behind.now.spots) }
{
    if !behind.spots.is_empty() {
        into.push(PlacementItem {
            part,
            what: Placed::Window,
            align: behind.align,
            size: round_up(pool.unit(), behind.end),
        })?;
    }
    Ok(())
}

/// Appends the items of a function on its own bus: the regions of an endpoint that belong to the
/// pool, or the window of a bridge.
pub(crate) fn push_function_items(
    into: &mut Vec<PlacementItem>,
    pool: Pool,
    row: &EnumeratedFunction,
    above: &UpstreamSupport,
    apertures: &Apertures,
    behind: &PackedBus,
) -> Result<(), AllocError>
    requires { behind.now.end ≤ 2 ^ 63 }
    ensures { IfOk result (λ _. (ds : List Bridge) → IsOver ds above.now
        → into.new.items
        ≡ into.old.items
        ++ own_items apertures.now ds (named_pool pool) row.now.path row.now.decl behind.now) }
{
    let part = row.path.last();
    match &row.found {
        Enumerated::Endpoint { pin: _, bars } => push_regions_in_pool(
            into, part, bars, pool, above, apertures,
        ),
        Enumerated::Bridge {
            secondary: _,
            subordinate: _,
            io: _,
            pref: _,
        } => push_window_unless_empty(into, part, pool, behind),
    }
}
