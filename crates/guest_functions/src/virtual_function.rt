//! A guest's own copies of Command, Header Type and the base address registers.
ghost use Rattle.std.specs.Prelude.{◌≡◌, ◌≤◌, ◌<◌, ◌+◌, ◌%◌, false, if◌then◌else◌, map, bit_and};
ghost use Rattle.lists.specs.Elements.{Each};
ghost use Rattle.model_registers.specs.{Registers.{Place, config, File, cell_at, read, write}, ByteEnables.{lanes, enabled_bits}, RegisterLaws.merged, Declarations.{Endpoint, HasLawfulRegions}, EndpointTable.{opened, closed, endpoint_reset, command_mask}, Decoding.{Function, lone_claim}, OwnCopies.{is_own, own_file, HoldsOwn, forwarded_byte_enables, bare}};
ghost use Rattle.bars.specs.{Kinds.named_space, Hits.named_hit, Resets.{at_reset, with_no_base}};

use crate::word::Word;
use bars::{BarDecl, Bars, Space, enabled_bits};
use headers::Command;
use std::marker::Model;

/// A function in a guest's slot, with the guest's own Command and base address registers, which
/// decide what its accesses decode. Header Type always reads 00h, even if the board's function is
/// part of a multi-function device. Accesses to all other registers are forwarded to the board.
#[derive(Debug, Drop)]
pub struct VirtualFunction {
    command: u16,
    bars: Bars,
}

impl Model for VirtualFunction {
    ghost use Rattle.std.specs.Prelude.{map};
    ghost use Rattle.model_registers.specs.{Declarations.HasLawfulRegions, EndpointTable.opened, OwnCopies.OwnCopies};

    ghost Value = { OwnCopies };

    ghost view = { λ f. record { command = f.command; bases = f.bars } };

    ghost invariant = { λ f. HasLawfulRegions (map opened f.bars) };
}

/// Returns Command after a write of the enabled bytes of its word (PCI Local Bus Specification 3.0,
/// section 6.2.2).
fn command_after_write(command: u16, enables: u8, value: u32) -> u16
    ensures { result
        ≡ merged 2 command value (bit_and command_mask (enabled_bits (lanes enables))) }
{
    let writable = u32::from(Command::writable_in_endpoint().0);
    let mask = writable & enabled_bits(enables);
    ((u32::from(command) & !mask) | (value & mask)) as u16
}

impl VirtualFunction {
    /// Returns a function with these BAR declarations, and with all copies at their reset values.
    pub fn new(decls: [Option<BarDecl>; 6]) -> VirtualFunction
        requires { HasLawfulRegions (map opened (at_reset decls)) }
        ensures copies { result ≡ record { command = 0; bases = at_reset decls } }
        ensures reset { (d : Endpoint) → Each (λ b. 0x34 ≤ b.offset) d.blocks
            → map closed d.regions ≡ at_reset decls →
            HoldsOwn (endpoint_reset d false) result }
    {
        VirtualFunction {
            command: 0,
            bars: Bars::new(decls),
        }
    }

    /// Returns the value of the copied registers among the enabled bytes of a word, with 0 in all
    /// other bytes, and the byte enables to forward to the board.
    pub fn config_read(&self, off: u16, enables: u8) -> (u32, u8)
        requires aligned { off % 4 ≡ 0 }
        requires in_range { off < 256 }
        ensures own { result.0 ≡ read (own_file self.now) (config off) (lanes enables) }
        ensures others { lanes result.1 ≡ forwarded_byte_enables (config off) (lanes enables) }
        ensures four { result.1 < 16 }
        ensures together { (file : File) → HoldsOwn file self.now
            → read file (config off) (lanes enables)
            ≡ result.0 + read file (config off) (lanes result.1) }
    {
        let word = Word::at(off);
        let own = match word {
            Word::Command => u32::from(self.command) & enabled_bits(enables),
            Word::Base(reg) => self.bars.read(reg, enables),
            Word::HeaderType | Word::Other => 0,
        };
        (own, word.forwarded_byte_enables(off, enables))
    }

    /// Writes those enabled bytes of a word that the guest has copies of. Returns the byte enables
    /// of the others, which the caller forwards to the board.
    pub fn config_write(&mut self, off: u16, enables: u8, value: u32) -> u8
        requires aligned { off % 4 ≡ 0 }
        requires in_range { off < 256 }
        ensures own { own_file self.new
            ≡ write (lanes enables) value (config off) (own_file self.old) }
        ensures regions { map opened self.new.bases ≡ map opened self.old.bases }
        ensures others { lanes result ≡ forwarded_byte_enables (config off) (lanes enables) }
        ensures four { result < 16 }
        ensures together { (file : File) → HoldsOwn file self.old → (p : Place)
            → cell_at (write (lanes enables) value (config off) file) p
            ≡ (if is_own p then cell_at (own_file self.new) p
            else cell_at (write (lanes result) value (config off) file) p) }
    {
        let word = Word::at(off);
        match word {
            Word::Command => self.command = command_after_write(self.command, enables, value),
            Word::Base(reg) => self.bars.write(reg, enables, value),
            Word::HeaderType | Word::Other => {}
        }
        word.forwarded_byte_enables(off, enables)
    }

    /// Returns the lowest base address register whose region decodes an address according to the
    /// guest's copies, and the offset in the region.
    pub fn decode(&self, space: Space, addr: u64) -> Option<(u8, u64)>
        ensures { (f : Function) → HoldsOwn f.file self.now →
            map bare f.decl.regions ≡ map opened self.now.bases
            → named_hit result ≡ lone_claim f (named_space space) addr }
    {
        self.bars.decode(space, addr, self.command)
    }

    /// Resets all copies.
    pub fn reset(&mut self)
        ensures copies { self.new
            ≡ record { command = 0; bases = map with_no_base self.old.bases } }
        ensures regions { map opened self.new.bases ≡ map opened self.old.bases }
        ensures reset { (d : Endpoint) → Each (λ b. 0x34 ≤ b.offset) d.blocks
            → map bare d.regions ≡ map opened self.old.bases →
            HoldsOwn (endpoint_reset d false) self.new }
    {
        self.command = 0;
        self.bars.reset();
    }
}
