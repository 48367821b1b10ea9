//! Computes the register values of each function.
ghost use Rattle.std.specs.{Prelude.{◌≡◌, ◌<◌, ◌≤◌, ◌+◌, ◌^◌, List, [], ◌∷◌, Some, if◌then◌else◌, slice_get, IfOk, IsTrue, map, length}, List.list_any};
ghost use Rattle.lists.specs.Elements.{Each, EachPair};
ghost use Rattle.model_registers.specs.Declarations.{Endpoint as EndpointValue};
ghost use Rattle.model_board.specs.{Board.{Row, IsBoard}, Lawful.HasLawfulDecls};
ghost use Rattle.model_set_up.specs.{FunctionTable.{board_in, sized_table}, Pools.unit_of, Placement.{a_region, is_item, PlacementItem as ItemValue, stands_before, offset_in, round_up}, SetUp.{command_of, window_of, set_up_window}, SetUpWrites.{placed_base, writes_of, settings}};
ghost use Rattle.bars.specs.{Kinds.named_space, Slots.bases_from};
ghost use Rattle.bus_scan.specs.Rows.{regions_of};
ghost use Rattle.window_packing.specs.{Plans.{named_pool, writes_of as named_writes}, Buses.AreAbove, Packs.{pack_items, regions_from}, Placed.{IsPlaced, IsPlacement, IsAboveAt, IsRegionAt, is_bar_in}};

use crate::function_program::{FunctionProgram, RegisterValues, WindowSetting};
use crate::item::PlacementItem;
use crate::layout_row::Placed;
use crate::pack::{PackedBus, round_up};
use crate::pool::{Pool, pool_of};
use crate::pool_placement::{PlacedPool, Placement};
use crate::search::item_offset_or_zero;
use crate::upstream_windows::UpstreamSupport;
use bars::{BarDecl, BarWithBase, Space};
use bridge_forward::Part;
use bus_scan::{Enumerated, EnumeratedFunction};
use headers::Apertures;
use std::alloc::{AllocError, Global};

/// Returns whether one of the regions is in the address space.
fn has_region_in_space(bars: &[Option<BarDecl>; 6], space: Space) -> bool
    ensures { result ≡ list_any (is_bar_in (named_space space)) bars.now }
{
    bars.iter().any(|bar| match bar {
        Some(bar) => bar.kind().space() == space,
        None => false,
    })
}

/// Returns `value` if `on` is true, and otherwise 0.
fn value_or_zero(on: bool, value: u16) -> u16
    ensures value { result ≡ (if on then value else 0) }
    ensures bound { result ≤ value }
{
    if on { value } else { 0 }
}

/// Returns the Command value for an endpoint: bit 0 is set if it has I/O regions, and bit 1 if it
/// has memory regions (PCI Local Bus 3.0, section 6.2.2).
fn command_for_bars(bars: &[Option<BarDecl>; 6]) -> u16
    ensures { (d : EndpointValue) → d.regions ≡ regions_of bars.now →
        result ≡ command_of d }
{
    value_or_zero(has_region_in_space(bars, Space::Io), 1)
        + value_or_zero(has_region_in_space(bars, Space::Mem), 2)
}

/// Returns a region with its base address, on a bus that starts at `first`.
fn bar_with_base(part: Part, index: u8, bar: BarDecl, first: u64, pack: &PackedBus) -> BarWithBase
    requires order { EachPair (λ s t. IsTrue (stands_before s.item t.item)) pack.now.spots }
    requires align { Each (λ s. IsTrue (is_item part (a_region index) s.item)
        → s.item.align ≡ bar.size) pack.now.spots }
    requires room { first + offset_in pack.now.spots part (a_region index) < 2 ^ 64 }
    ensures { result
        ≡ record { decl = bar; base = first + offset_in pack.now.spots part (a_region index) } }
{
    let size = bar.size();
    let key = PlacementItem {
        part,
        what: Placed::Region(index),
        align: size,
        size,
    };
    BarWithBase {
        decl: bar,
        base: first + item_offset_or_zero(pack, &key),
    }
}

/// Returns the region at an index of the endpoint in row `i`, with its base address, or `None` if
/// no region starts at that register.
fn bar_with_base_if_any(
    rows: &[EnumeratedFunction],
    i: usize,
    index: u8,
    bar: Option<BarDecl>,
    above: &UpstreamSupport,
    apertures: &Apertures,
    placement: &Placement,
) -> Option<BarWithBase>
    requires board { IsBoard (board_in rows.now) }
    requires declarations { HasLawfulDecls (board_in rows.now) }
    requires placed { IsPlacement (board_in rows.now) apertures.now placement.now }
    requires there { i < length rows.now }
    requires above { IsAboveAt (board_in rows.now) i above.now }
    requires found { Each (IsRegionAt (board_in rows.now) i) (regions_from index (bar ∷ [])) }
    ensures { (r : Row) → slice_get (board_in rows.now) i ≡ Some r
        → bases_from index (result ∷ [])
        ≡ map (placed_base (board_in rows.now) apertures.now r.path) (regions_from index (bar
        ∷ [])) }
{
    let bar = bar?;
    let row = &rows[i];
    let placed = placement.pool(pool_of(apertures, above, bar.kind()));
    let first = placed.firsts[above.bus];
    let pack = &placed.packs[above.bus];
    Some(bar_with_base(row.path.last(), index, bar, first, pack))
}

/// Returns the regions of the endpoint in row `i` with their base addresses.
fn bars_with_bases(
    rows: &[EnumeratedFunction],
    i: usize,
    bars: &[Option<BarDecl>; 6],
    above: &UpstreamSupport,
    apertures: &Apertures,
    placement: &Placement,
) -> [Option<BarWithBase>; 6]
    requires board { IsBoard (board_in rows.now) }
    requires declarations { HasLawfulDecls (board_in rows.now) }
    requires placed { IsPlacement (board_in rows.now) apertures.now placement.now }
    requires there { i < length rows.now }
    requires above { IsAboveAt (board_in rows.now) i above.now }
    requires found { Each (IsRegionAt (board_in rows.now) i) (regions_of bars.now) }
    ensures { (r : Row) → slice_get (board_in rows.now) i ≡ Some r
        → bases_from 0 result
        ≡ map (placed_base (board_in rows.now) apertures.now r.path) (regions_of bars.now) }
{
    let mut bases = [None; 6];
    for index in 0..6u8 {
        let at = usize::from(index);
        bases[at] = bar_with_base_if_any(rows, i, index, bars[at], above, apertures, placement);
    }
    bases
}

/// Returns the window of a bus that starts at `first`. For a bus without items, returns a disabled
/// window: its base register contains the highest value, `closed`, and its limit register 0.
fn window_or_disabled(pool: Pool, closed: u64, first: u64, pack: &PackedBus) -> WindowSetting
    requires closed { closed < 2 ^ 12 }
    requires some { Each (λ s. 0
        < round_up (unit_of (named_pool pool)) pack.now.end) pack.now.spots }
    requires room { Each (λ s. first + round_up (unit_of (named_pool pool)) pack.now.end
        ≤ 2 ^ 63) pack.now.spots }
    ensures { (is : List ItemValue) → pack.now ≡ pack_items (unit_of (named_pool pool)) is
        → result ≡ window_of (unit_of (named_pool pool)) closed first is }
{
    let unit = pool.unit();
    if pack.spots.is_empty() {
        return WindowSetting {
            first: closed * unit,
            last: 0,
        };
    }
    WindowSetting {
        first,
        last: first + round_up(unit, pack.end) - 1,
    }
}

/// Returns the window in one pool for the bus behind the function in row `i`.
fn window_behind_row(
    rows: &[EnumeratedFunction],
    i: usize,
    pool: Pool,
    closed: u64,
    apertures: &Apertures,
    placed: &PlacedPool,
) -> WindowSetting
    requires board { IsBoard (board_in rows.now) }
    requires declarations { HasLawfulDecls (board_in rows.now) }
    requires placed { IsPlaced (board_in rows.now) apertures.now (named_pool pool) placed.now }
    requires there { i < length rows.now }
    requires closed { closed < 2 ^ 12 }
    ensures { (r : Row) → slice_get (board_in rows.now) i ≡ Some r
        → result ≡ set_up_window (board_in rows.now) apertures.now
        (named_pool pool) closed r.path }
{
    window_or_disabled(pool, closed, placed.firsts[i + 1], &placed.packs[i + 1])
}

/// Returns the register values for the function in row `i`.
fn register_values_of_row(
    rows: &[EnumeratedFunction],
    i: usize,
    above: &UpstreamSupport,
    apertures: &Apertures,
    placement: &Placement,
) -> RegisterValues
    requires board { IsBoard (board_in rows.now) }
    requires declarations { HasLawfulDecls (board_in rows.now) }
    requires placed { IsPlacement (board_in rows.now) apertures.now placement.now }
    requires there { i < length rows.now }
    requires above { IsAboveAt (board_in rows.now) i above.now }
    ensures { (r : Row) → slice_get (board_in rows.now) i ≡ Some r
        → named_writes result ≡ writes_of (board_in rows.now) apertures.now r.path r.decl }
{
    let row = &rows[i];
    match &row.found {
        Enumerated::Endpoint { pin: _, bars } => RegisterValues::Endpoint {
            command: command_for_bars(bars),
            bases: bars_with_bases(rows, i, bars, above, apertures, placement),
        },
        Enumerated::Bridge {
            secondary: _,
            subordinate: _,
            io: _,
            pref: _,
        } => RegisterValues::Bridge {
            io: window_behind_row(rows, i, Pool::Io, 0xf, apertures, &placement.io),
            mem: window_behind_row(rows, i, Pool::Mem, 0xfff, apertures, &placement.mem),
            pref: window_behind_row(rows, i, Pool::Pref, 0xfff, apertures, &placement.pref),
        },
    }
}

/// Returns the register values for each function, in path order.
pub(crate) fn all_function_programs(
    alloc: Global,
    rows: &[EnumeratedFunction],
    above: &[UpstreamSupport],
    apertures: &Apertures,
    placement: &Placement,
) -> Result<Vec<FunctionProgram>, AllocError>
    requires board { IsBoard (board_in rows.now) }
    requires declarations { HasLawfulDecls (board_in rows.now) }
    requires numbered { rows.now ≡ sized_table (board_in rows.now) }
    requires above { AreAbove (board_in rows.now) above.now }
    requires placed { IsPlacement (board_in rows.now) apertures.now placement.now }
    ensures { IfOk result (λ v. v.items ≡ settings (board_in rows.now) apertures.now) }
{
    let mut list = Vec::with_capacity(alloc, rows.len())?;
    for i in 0..rows.len() {
        list.push(FunctionProgram {
            at: rows[i].address(),
            writes: register_values_of_row(rows, i, &above[i], apertures, placement),
        })?;
    }
    Ok(list)
}
