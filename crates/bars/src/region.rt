//! A region with its current base address.
ghost use Rattle.std.specs.Prelude.{◌≡◌};
ghost use Rattle.model_registers.specs.{EndpointTable.IsLawfulBase, BaseLaws.{shown, rebased}};
ghost use Rattle.bars.specs.{Kinds.named_space, Slots.placed, Hits.offset_in};

use crate::decl::{BarDecl, Space};

/// A declared region and the base address that its registers hold.
#[derive(Clone, Copy, Debug)]
pub struct BarWithBase {
    pub decl: BarDecl,
    pub base: u64,
}

impl BarWithBase {
    /// Returns the value that the BAR reads, as one integer: the base address and the type bits.
    pub fn register_value(&self) -> u64
        requires { IsLawfulBase (placed 0 self.now) }
        ensures { result ≡ shown (placed 0 self.now) }
    {
        self.base + u64::from(self.decl.kind().type_bits())
    }

    /// Returns the region after a write of the `enabled` bits of `value` to its BAR. The bits below
    /// the size are read-only.
    pub fn written(self, value: u64, enabled: u64) -> BarWithBase
        requires { IsLawfulBase (placed 0 self) }
        ensures { result ≡ record self { base = rebased (placed 0 self) value enabled } }
    {
        let writable = self.decl.kind().bar_width_mask() - (self.decl.size() - 1);
        let mask = writable & enabled;
        BarWithBase {
            base: (self.base & !mask) | (value & mask),
            decl: self.decl,
        }
    }

    /// Returns the offset of `addr` in the region, or `None` if `addr` isn't in the region.
    /// Compares the difference with the size, because base plus size can be 2^64.
    pub fn offset_of(&self, space: Space, addr: u64) -> Option<u64>
        ensures { result ≡ offset_in (named_space space) addr self.now }
    {
        let lies_here = self.decl.kind().space() == space
            && self.base <= addr
            && addr - self.base < self.decl.size();
        if lies_here {
            Some(addr - self.base)
        } else {
            None
        }
    }
}
