//! Places the pools of a board in their apertures.
ghost use Rattle.std.specs.{Prelude.{◌≡◌, ◌<◌, ◌≤◌, ◌^◌, ◌⊎◌, [], IfSome, IfOk, IfErr, IsTrue, IsFalse, map}, Option.option_map_or};
ghost use Rattle.model_registers.specs.Apertures.{Aperture as ApertureValue, IsLawfulApertures};
ghost use Rattle.lists.specs.Elements.{Each, EachPair};
ghost use Rattle.model_board.specs.{Board.{Board, IsBoard}, Lawful.HasLawfulDecls};
ghost use Rattle.model_set_up.specs.{FunctionTable.board_in, Pools.aperture_of, Placement.{a_window, stands_before, is_item, offset_in, round_up, aperture_end_or_zero, fits, bus_first}};
ghost use Rattle.bus_scan.specs.declared.fault.Fault.TheVariants.{Memory};
ghost use Rattle.window_packing.specs.{Plans.{named_pool, fault_of}, Buses.AreAbove, Packs.{pack_of, packs_of, IsBounded}, Placed.{bus_paths, IsPlaced, pool_in}};

use crate::bus_packs::pack_pool;
use crate::item::PlacementItem;
use crate::layout_row::Placed;
use crate::pack::{PackedBus, round_up};
use crate::pool::Pool;
use crate::search::item_offset_or_zero;
use crate::upstream_windows::UpstreamSupport;
use bridge_forward::Part;
use bus_scan::{EnumeratedFunction, Fault};
use headers::{Aperture, Apertures};
use std::alloc::{AllocError, Global};
use std::marker::Model;

/// A placed pool: bus 0 and then the bus behind each function, each with its first address.
#[derive(Debug, Drop)]
pub(crate) struct PlacedPool {
    pub(crate) packs: Vec<PackedBus>,
    pub(crate) firsts: Vec<u64>,
}

impl Model for PlacedPool {
    ghost use Rattle.window_packing.specs.Placed.{PlacedPool};

    ghost Value = { PlacedPool };

    ghost view = { λ p. record { packs = p.packs.items; firsts = p.firsts.items } };
}

/// The placement of all three pools.
#[derive(Debug, Drop)]
pub(crate) struct Placement {
    pub(crate) io: PlacedPool,
    pub(crate) mem: PlacedPool,
    pub(crate) pref: PlacedPool,
}

impl Model for Placement {
    ghost use Rattle.window_packing.specs.Placed.{Placement};

    ghost Value = { Placement };

    ghost view = { λ p. record { io = p.io; mem = p.mem; pref = p.pref } };
}

impl Placement {
    /// Returns the placement of one pool.
    pub(crate) fn pool(&self, pool: Pool) -> &PlacedPool
        ensures { result.now ≡ pool_in self.now (named_pool pool) }
    {
        match pool {
            Pool::Io => &self.io,
            Pool::Mem => &self.mem,
            Pool::Pref => &self.pref,
        }
    }
}

/// Returns the aperture of a pool. The prefetchable aperture is optional.
fn aperture_of(apertures: &Apertures, pool: Pool) -> Option<Aperture>
    ensures value { result ≡ aperture_of apertures.now (named_pool pool) }
    ensures range { IfSome result (λ a. (a.first ≤ a.last) × (a.last < 2 ^ 63)) }
    ensures lawful { IsLawfulApertures apertures.now }
{
    let io = apertures.io();
    match pool {
        Pool::Io => Some(io),
        Pool::Mem => Some(apertures.mem()),
        Pool::Pref => apertures.pref(),
    }
}

/// Returns the first address of bus 0 in the pool: the start of the aperture, rounded up to the
/// alignment of the bus.
pub(crate) fn root_bus_start_or_zero(apertures: &Apertures, pool: Pool, root: &PackedBus) -> u64
    requires some { 0 < root.now.align }
    requires align { root.now.align ≤ 2 ^ 40 }
    ensures { result
        ≡ option_map_or (λ (ap : ApertureValue). round_up root.now.align ap.first)
        (aperture_of apertures.now (named_pool pool)) 0 }
{
    match aperture_of(apertures, pool) {
        Some(aperture) => round_up(root.align, aperture.first),
        None => 0,
    }
}

/// Returns the address after the end of the aperture, or 0 if there is no aperture.
pub(crate) fn aperture_end_or_zero(apertures: &Apertures, pool: Pool) -> u64
    ensures value { result ≡ aperture_end_or_zero apertures.now (named_pool pool) }
    ensures lawful { IsLawfulApertures apertures.now }
{
    match aperture_of(apertures, pool) {
        Some(aperture) => aperture.last + 1,
        None => 0,
    }
}

/// Returns whether the pool, as packed on bus 0, fits in its aperture, which ends before `end`.
fn root_bus_fits(apertures: &Apertures, pool: Pool, end: u64, root: &PackedBus) -> bool
    requires end { end ≡ aperture_end_or_zero apertures.now (named_pool pool) }
    requires some { 0 < root.now.align }
    requires align { root.now.align ≤ 2 ^ 40 }
    ensures { (b : Board) → root.now ≡ pack_of b apertures.now (named_pool pool) []
        → result ≡ fits b apertures.now (named_pool pool) }
{
    root.spots.is_empty()
        || (root.end <= end && root_bus_start_or_zero(apertures, pool, root) <= end - root.end)
}

/// Returns the offset of a bridge's window on its bus, or 0 if the bridge has no window in the
/// pool. The alignment of the bus behind the bridge speeds up the search.
fn window_offset_or_zero(pack: &PackedBus, part: Part, behind: &PackedBus) -> u64
    requires order { EachPair (λ s t. IsTrue (stands_before s.item t.item)) pack.now.spots }
    requires align { Each (λ s. IsTrue (is_item part a_window s.item)
        → s.item.align ≡ behind.now.align) pack.now.spots }
    ensures { result ≡ offset_in pack.now.spots part a_window }
{
    let key = PlacementItem {
        part,
        what: Placed::Window,
        align: behind.align,
        size: 0,
    };
    item_offset_or_zero(pack, &key)
}

/// Returns the first address of each bus. A bus behind a bridge starts where the bridge's window
/// starts.
fn bus_start_addresses(
    alloc: Global,
    pool: Pool,
    rows: &[EnumeratedFunction],
    above: &[UpstreamSupport],
    apertures: &Apertures,
    packs: &[PackedBus],
) -> Result<Vec<u64>, AllocError>
    requires board { IsBoard (board_in rows.now) }
    requires declarations { HasLawfulDecls (board_in rows.now) }
    requires above { AreAbove (board_in rows.now) above.now }
    requires apertures { IsLawfulApertures apertures.now }
    requires packs { packs.now ≡ packs_of (board_in rows.now) apertures.now (named_pool pool) }
    requires bounded { Each IsBounded packs.now }
    requires fit { IsTrue (fits (board_in rows.now) apertures.now (named_pool pool)) }
    ensures { IfOk result (λ v. v.items
        ≡ map (bus_first (board_in rows.now) apertures.now (named_pool pool))
        (bus_paths (board_in rows.now))) }
{
    let mut firsts = Vec::with_capacity(alloc, packs.len())?;
    firsts.push(root_bus_start_or_zero(apertures, pool, &packs[0]))?;
    for i in 0..rows.len() {
        let row = &rows[i];
        let bus = above[i].bus;
        let offset = window_offset_or_zero(&packs[bus], row.path.last(), &packs[i + 1]);
        let first = firsts[bus] + offset;
        firsts.push(first)?;
    }
    Ok(firsts)
}

impl Pool {
    /// Returns the fault for a pool that doesn't fit in its aperture.
    fn placement_fault(self) -> Fault
        ensures { result ≡ fault_of self }
    {
        match self {
            Pool::Io => Fault::IoPool,
            Pool::Mem => Fault::MemoryPool,
            Pool::Pref => Fault::PrefetchablePool,
        }
    }
}

/// Places one pool in its aperture. Fails if the pool doesn't fit.
pub(crate) fn place_pool(
    alloc: Global,
    pool: Pool,
    rows: &[EnumeratedFunction],
    above: &[UpstreamSupport],
    apertures: &Apertures,
) -> Result<PlacedPool, Fault>
    requires board { IsBoard (board_in rows.now) }
    requires declarations { HasLawfulDecls (board_in rows.now) }
    requires above { AreAbove (board_in rows.now) above.now }
    ensures placed { IfOk result (λ p.
        IsPlaced (board_in rows.now) apertures.now (named_pool pool) p) }
    ensures refused { IfErr result (λ f.
        (f ≡ Memory) ⊎ ((f ≡ fault_of pool)
        × IsFalse (fits (board_in rows.now) apertures.now (named_pool pool)))) }
{
    let end = aperture_end_or_zero(apertures, pool);
    let Some(packs) = pack_pool(alloc, pool, rows, above, apertures)? else {
        return Err(pool.placement_fault());
    };
    if !root_bus_fits(apertures, pool, end, &packs[0]) {
        return Err(pool.placement_fault());
    }
    let firsts = bus_start_addresses(alloc, pool, rows, above, apertures, &packs)?;
    Ok(PlacedPool { packs, firsts })
}
