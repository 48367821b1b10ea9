//! The base address registers (BARs) of one function.
ghost use Rattle.std.specs.Prelude.{◌≡◌, ◌<◌, ◌++◌, map};
ghost use Rattle.model_registers.specs.{Registers.{read, write}, ByteEnables.lanes, Declarations.HasLawfulRegions, EndpointTable.{base_register, base_file, command_cells, opened, HasLawfulBases}, Decoding.first_hit};
ghost use Rattle.bars.specs.{Kinds.named_space, Hits.named_hit, Resets.{at_reset, with_no_base}, Slots.bases_from};

use crate::base_registers::BaseRegisters;
use crate::decl::{BarDecl, Space};
use crate::lanes::enabled_bits;
use crate::region::BarWithBase;
use std::marker::Model;

/// The six base address registers of a function, at 10h to 27h.
///
/// The bases are stored as integers, indexed by each region's first register. So decoding an
/// address takes a few comparisons per region, and register values are computed only when they are
/// read. Most lookups in a guest's slots miss, so two comparisons first exclude addresses outside
/// every region.
#[derive(Debug, Drop)]
pub struct Bars {
    slots: BaseRegisters,
}

impl Model for Bars {
    ghost use Rattle.std.specs.Prelude.{List};
    ghost use Rattle.model_registers.specs.EndpointTable.{BaseAddress, HasLawfulBases};
    ghost use Rattle.bars.specs.Slots.{bases_from};

    ghost Value = { List BaseAddress };

    ghost view = { λ b. bases_from 0 b.slots };

    ghost invariant = { λ b. HasLawfulBases (bases_from 0 b.slots) };
}

impl Bars {
    /// Returns registers for these declarations, all with base 0. A 64-bit declaration also uses
    /// the next register.
    pub fn new(decls: [Option<BarDecl>; 6]) -> Bars
        requires { HasLawfulRegions (map opened (at_reset decls)) }
        ensures { result ≡ at_reset decls }
    {
        Bars {
            slots: BaseRegisters::new(decls),
        }
    }

    /// Returns the regions with their current bases, indexed by their first register.
    pub fn regions(&self) -> &[Option<BarWithBase>; 6]
        ensures bases { bases_from 0 result.now ≡ self.now }
        ensures lawful { HasLawfulBases self.now }
    {
        self.slots.regions()
    }

    /// Reads the enabled bytes of register `reg`, 0 to 5. Disabled bytes read 0.
    pub fn read(&self, reg: u8, enables: u8) -> u32
        requires { reg < 6 }
        ensures word { result ≡ read (base_file self.now) (base_register reg) (lanes enables) }
        ensures lawful { HasLawfulBases self.now }
    {
        match self.slots.find_bar_of_register(reg) {
            Some(part) => (part.region.register_value() >> part.shift
                & u64::from(enabled_bits(enables))) as u32,
            None => 0,
        }
    }

    /// Writes the enabled bytes of register `reg`, 0 to 5. The bits below the region's size are
    /// read-only. Writing either half of a 64-bit BAR takes effect immediately.
    pub fn write(&mut self, reg: u8, enables: u8, value: u32)
        requires { reg < 6 }
        ensures cells { base_file self.new
            ≡ write (lanes enables) value (base_register reg) (base_file self.old) }
        ensures regions { map opened self.new ≡ map opened self.old }
    {
        if let Some(part) = self.slots.find_bar_of_register(reg) {
            let value = u64::from(value) << part.shift;
            let enabled = u64::from(enabled_bits(enables)) << part.shift;
            let region = part.region.written(value, enabled);
            // The extents only change if the region's base does.
            if region.base != part.region.base {
                self.slots.store_region(part.slot, region);
            }
        }
    }

    /// Returns the first register whose region decodes `addr`, and the offset in that region.
    /// `command` is the value of the Command register.
    pub fn decode(&self, space: Space, addr: u64, command: u16) -> Option<(u8, u64)>
        ensures { named_hit result
            ≡ first_hit (command_cells command
            ++ base_file self.now) (map opened self.now) (named_space space) addr }
    {
        if self.slots.is_outside_extents(space, addr) {
            return None;
        }
        if command & space.command_bit() == 0 {
            return None;
        }
        self.slots.first_hit(space, addr)
    }

    /// Sets all bases to 0.
    pub fn reset(&mut self)
        ensures { self.new ≡ map with_no_base self.old }
    {
        self.slots.clear_bases();
    }
}
