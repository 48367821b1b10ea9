//! The regions of a function, indexed by BAR.
ghost use Rattle.std.specs.Prelude.{◌≡◌, ◌<◌, map, IfSome, IfNone, IsTrue, Some, None, slice_set};
ghost use Rattle.bars.specs.{Kinds.named_space, Hits.{hit_from, named_hit}, Extents.{IsExtent, AreExtents}, Resets.at_reset, Slots.{bases_from, with_no_base_in}, Parts.{IsPartAt, IsUnused}};

use crate::decl::{BarDecl, Space};
use crate::extent::{Extent, Extents};
use crate::region::BarWithBase;
use std::marker::Model;

/// The regions, each at the index of its first register.
///
/// The extents are a performance optimization. Most addresses looked up are in none of a function's
/// regions, and two comparisons exclude these without checking each register. The extents come
/// first, so that they are next to the function's Command register in memory.
#[derive(Debug, Drop)]
pub struct BaseRegisters {
    extents: Extents,
    regions: [Option<BarWithBase>; 6],
}

impl Model for BaseRegisters {
    ghost use Rattle.std.specs.Prelude.{List, Option};
    ghost use Rattle.bars.specs.{declared.region.BarWithBase.BarWithBase, Extents.AreExtents};

    ghost Value = { List (Option BarWithBase) };

    ghost view = { λ s. s.regions };

    ghost invariant = { λ s. AreExtents s.regions s.extents };
}

/// Returns the declared BARs at reset, each with base 0.
fn regions_at_reset(decls: [Option<BarDecl>; 6]) -> [Option<BarWithBase>; 6]
    ensures { bases_from 0 result ≡ at_reset decls }
{
    decls.map(|decl| match decl {
        Some(decl) => Some(BarWithBase { decl, base: 0 }),
        None => None,
    })
}

/// Sets the bases of all regions to 0.
fn clear_bases(regions: &mut [Option<BarWithBase>; 6])
    ensures { regions.new ≡ map with_no_base_in regions.old }
{
    for reg in 0..6 {
        regions[reg] = match regions[reg] {
            Some(region) => Some(BarWithBase { base: 0, ..region }),
            None => None,
        };
    }
}

/// One four-byte register of a BAR: bits `shift` to `shift + 31` of the value that the BAR reads.
#[derive(Clone, Copy, Debug)]
pub struct ShownPart {
    pub slot: usize,
    pub region: BarWithBase,
    pub shift: u32,
}

/// Returns the first region that contains `addr`, as the index of its first register, and the
/// offset in the region.
///
/// This stays a separate call so that the extent check before it is inlined into each walk over
/// slots.
#[inline(never)]
fn first_hit(regions: &[Option<BarWithBase>; 6], space: Space, addr: u64) -> Option<(u8, u64)>
    ensures { named_hit result ≡ hit_from (named_space space) addr 0 regions.now }
{
    for reg in 0..6u8 {
        if let Some(region) = regions[usize::from(reg)]
            && let Some(offset) = region.offset_of(space, addr)
        {
            return Some((reg, offset));
        }
    }
    None
}

/// Returns the extent of the regions in `space` that overlap addresses `first` to `last`.
fn extent_of_overlapping(
    regions: &[Option<BarWithBase>; 6],
    space: Space,
    first: u64,
    last: u64,
) -> Extent
    ensures { IsExtent (named_space space) first last regions.now result }
{
    let mut extent = Extent::empty();
    for reg in 0..6 {
        if let Some(region) = regions[reg] {
            extent = extent.widened_if_overlapping(space, first, last, region);
        }
    }
    extent
}

/// Returns the extents of these regions.
fn extents_of(regions: &[Option<BarWithBase>; 6]) -> Extents
    ensures { AreExtents regions.now result }
{
    let below_4_gb = u64::from(u32::MAX);
    Extents {
        io: extent_of_overlapping(regions, Space::Io, 0, u64::MAX),
        mem: extent_of_overlapping(regions, Space::Mem, 0, u64::MAX),
        low: extent_of_overlapping(regions, Space::Mem, 0, below_4_gb),
        high: extent_of_overlapping(regions, Space::Mem, below_4_gb + 1, u64::MAX),
    }
}

impl BaseRegisters {
    /// Creates the base registers of the declared BARs at reset, when each base is 0.
    pub fn new(decls: [Option<BarDecl>; 6]) -> BaseRegisters
        ensures { bases_from 0 result ≡ at_reset decls }
    {
        let regions = regions_at_reset(decls);
        BaseRegisters {
            extents: extents_of(&regions),
            regions,
        }
    }

    /// Returns all regions, each at the index of its first register.
    pub fn regions(&self) -> &[Option<BarWithBase>; 6]
        ensures { result.now ≡ self.now }
    {
        &self.regions
    }

    /// Returns the part of a BAR that register `reg` reads: the lower half or the only register of
    /// the region at this index, or the upper half of the 64-bit region one index below. Returns
    /// `None` if the register is unused.
    pub fn find_bar_of_register(&self, reg: u8) -> Option<ShownPart>
        requires { reg < 6 }
        ensures used { IfSome result (IsPartAt self.now reg) }
        ensures unused { IfNone result (IsUnused self.now reg) }
    {
        let slot = usize::from(reg);
        if let Some(region) = self.regions[slot] {
            return Some(ShownPart {
                slot,
                region,
                shift: 0,
            });
        }
        if slot > 0
            && let Some(region) = self.regions[slot - 1]
            && region.decl.kind().uses_two_registers()
        {
            return Some(ShownPart {
                slot: slot - 1,
                region,
                shift: 32,
            });
        }
        None
    }

    /// Stores a region at the index of its first register, and updates the extents.
    pub fn store_region(&mut self, slot: usize, region: BarWithBase)
        requires { slot < 6 }
        ensures { self.new ≡ slice_set self.old slot (Some region) }
    {
        self.regions[slot] = Some(region);
        self.extents = extents_of(&self.regions);
    }

    /// Returns whether `addr` is outside the extent of its space, and so in no region.
    pub fn is_outside_extents(&self, space: Space, addr: u64) -> bool
        ensures { IsTrue result → hit_from (named_space space) addr 0 self.now ≡ None }
    {
        self.extents.is_outside(space, addr)
    }

    /// Returns the first region that contains `addr`, as the index of its first register, and the
    /// offset in the region.
    pub fn first_hit(&self, space: Space, addr: u64) -> Option<(u8, u64)>
        ensures { named_hit result ≡ hit_from (named_space space) addr 0 self.now }
    {
        first_hit(&self.regions, space, addr)
    }

    /// Sets the bases of all regions to 0.
    pub fn clear_bases(&mut self)
        ensures { self.new ≡ map with_no_base_in self.old }
    {
        let regions = &mut self.regions;
        clear_bases(regions);
        self.extents = extents_of(regions);
    }
}
