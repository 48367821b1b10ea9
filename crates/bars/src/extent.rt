//! Address ranges that bound a function's regions.
ghost use Rattle.std.specs.Prelude.{◌≡◌, ◌≤◌, ◌↔◌, ℕ, List, Option, IsTrue, None};
ghost use Rattle.bars.specs.{Kinds.named_space, Hits.{offset_in, hit_from}, declared.region.BarWithBase.BarWithBase, Extents.{IsOutside, AreExtents}};

use crate::decl::Space;
use crate::region::BarWithBase;

/// The lowest and the highest address of a set of regions. For an empty set, `least` is above
/// `greatest`.
#[derive(Clone, Copy, Debug)]
pub struct Extent {
    least: u64,
    greatest: u64,
}

/// The extents of a function's regions: in I/O, in memory, in memory below 4 GB and in memory from
/// 4 GB up. A region on both sides of 4 GB counts in both halves.
///
/// If a function has regions on both sides of 4 GB, its memory extent contains most addresses. The
/// extents of the two halves still exclude them.
#[derive(Clone, Copy, Debug)]
pub struct Extents {
    pub io: Extent,
    pub mem: Extent,
    pub low: Extent,
    pub high: Extent,
}

impl Extent {
    /// Returns the extent of the empty set.
    pub fn empty() -> Extent {
        Extent {
            least: u64::MAX,
            greatest: 0,
        }
    }

    /// Returns whether `addr` is below or above the extent.
    pub fn is_outside(self, addr: u64) -> bool
        ensures { IsTrue result ↔ IsOutside self addr }
    {
        addr < self.least || addr > self.greatest
    }

    /// Returns the extent widened by `region`, if the region is in `space` and overlaps addresses
    /// `first` to `last`.
    pub fn widened_if_overlapping(
        self,
        space: Space,
        first: u64,
        last: u64,
        region: BarWithBase,
    ) -> Extent
        ensures wider { (a : ℕ) → IsOutside result a → IsOutside self a }
        ensures holds { (a : ℕ) → first ≤ a → a ≤ last → IsOutside result a →
            offset_in (named_space space) a region ≡ None }
    {
        let greatest = region.base.saturating_add(region.decl.size() - 1);
        if region.decl.kind().space() != space || greatest < first || last < region.base {
            return self;
        }
        Extent {
            least: self.least.min(region.base),
            greatest: self.greatest.max(greatest),
        }
    }
}

impl Extents {
    /// Returns whether `addr` is outside the extent of its space, or outside that of its half of
    /// memory.
    pub fn is_outside(self, space: Space, addr: u64) -> bool
        ensures { (slots : List (Option BarWithBase)) → AreExtents slots self → IsTrue result
            → hit_from (named_space space) addr 0 slots ≡ None }
    {
        match space {
            Space::Io => self.io.is_outside(addr),
            Space::Mem if self.mem.is_outside(addr) => true,
            Space::Mem if addr <= u64::from(u32::MAX) => self.low.is_outside(addr),
            Space::Mem => self.high.is_outside(addr),
        }
    }
}
