//! A PCI-to-PCI bridge with its configuration registers.
ghost use Rattle.std.specs.Prelude.{◌≡◌, ◌%◌, ◌&&◌, IfOk, Option, option_map};
ghost use Rattle.model_registers.specs.{Registers.{config, number, read, write}, ByteEnables.lanes, DeclarationRules.IsLawfulBridge, BridgeTable.bridge_reset, Decoding.{command_word, is_open}};
ghost use Rattle.model_board.specs.{Routing.windows, Windows.{Window, is_in, is_in_window, io_window, mem_window, pref_window}, Cycles.{secondary_register, subordinate_register}};
ghost use Rattle.bars.specs.Kinds.{named_space};
ghost use Rattle.headers.specs.WindowPairs.{pair_of};
ghost use Rattle.bridge_forward.specs.{ByIndex.ranges_told, Decoded.IsDecoded, RoutingRows.named_ranges};

use crate::by_index::ProgrammedRanges;
use crate::routing::{Ranges, window_from_pair};
use bars::Space;
use config_bytes::{Cells, enables_of, from_lanes};
use headers::{Bridge, BridgeDecl, command, io_window, mem_window, pref_window};
use std::alloc::{AllocError, Global};
use std::marker::Model;

/// The decoded routing registers of a bridge. Each window is a pair of its first and last address.
#[derive(Clone, Copy)]
pub(crate) struct Decoded {
    command: u16,
    secondary: u8,
    subordinate: u8,
    io: Option<(u64, u64)>,
    mem: Option<(u64, u64)>,
    pref: Option<(u64, u64)>,
}

/// A bridge: its declaration and the state of its registers. The routing registers are also kept in
/// decoded form, because every configuration cycle and every address lookup reads them.
#[derive(Drop)]
pub(crate) struct BridgeFn {
    decoded: Decoded,
    cells: Cells,
    decl: BridgeDecl,
}

impl Model for BridgeFn {
    ghost use Rattle.bridge_forward.specs.Bridges.{BridgeFunction};

    ghost Value = { BridgeFunction };

    ghost view = { λ b. record { decl = b.decl; file = b.cells.now } };

    ghost use Rattle.bridge_forward.specs.Decoded.{IsDecoded};

    ghost invariant = { λ b. IsDecoded b.decl b.cells.now b.decoded };
}

/// Decodes the routing registers of a bridge.
fn decode_registers(cells: &Cells, decl: &BridgeDecl) -> Decoded
    ensures { IsDecoded decl.now cells.now.now result }
{
    Decoded {
        command: command(cells).0,
        secondary: read_register_byte(cells, 0x19),
        subordinate: read_register_byte(cells, 0x1a),
        io: io_window(cells, decl),
        mem: mem_window(cells, decl),
        pref: pref_window(cells, decl),
    }
}

impl BridgeFn {
    /// Creates the bridge at reset. `multifunction` sets bit 7 of the header type, for a device
    /// with further functions.
    pub(crate) fn new(
        alloc: Global,
        decl: BridgeDecl,
        multifunction: bool,
    ) -> Result<BridgeFn, AllocError>
        ensures made { IfOk result (λ b.
            b ≡ record { decl = decl; file = bridge_reset decl multifunction }) }
        ensures lawful { IfOk result (λ _. IsLawfulBridge decl) }
    {
        // An implemented bridge never has Vendor ID FFFFh.
        prove!(decl.vendor() != 0xffff);
        let cells = Bridge::cells(alloc, &decl, multifunction)?;
        let decoded = decode_registers(&cells, &decl);
        Ok(BridgeFn {
            decl,
            cells,
            decoded,
        })
    }

    /// Reads the enabled bytes of the configuration word at `off`, a multiple of 4.
    pub(crate) fn config_read(&self, off: u8, enables: u8) -> u32
        requires { off % 4 ≡ 0 }
        ensures { result ≡ read self.now.file (config off) (lanes enables) }
    {
        self.cells.read(u16::from(off), enables)
    }

    /// Writes the enabled bytes of the configuration word at `off`, a multiple of 4.
    pub(crate) fn config_write(&mut self, off: u8, enables: u8, data: u32)
        requires { off % 4 ≡ 0 }
        ensures { self.new
            ≡ record self.old {
              file = write (lanes enables) «data»
                  (config off) self.old.file;
            } }
    {
        self.cells.write(u16::from(off), enables, data);
        self.decoded = decode_registers(&self.cells, &self.decl);
    }

    /// Returns whether the bridge forwards an address downstream: Command enables the address
    /// space, and one of the windows in that space contains the address (PCI-to-PCI Bridge
    /// Architecture 1.2, chapter 4).
    pub(crate) fn forwards(&self, space: Space, addr: u64) -> bool
        ensures { result
            ≡ (is_open self.now.file (named_space space)
            && is_in_window self.now.decl self.now.file (named_space space) addr) }
    {
        self.decoded.command & space.command_bit() != 0 && self.is_in_window(space, addr)
    }

    fn is_in_window(&self, space: Space, addr: u64) -> bool
        ensures { result ≡ is_in_window self.now.decl self.now.file (named_space space) addr }
    {
        match space {
            Space::Io => is_in(addr, self.decoded.io),
            Space::Mem => is_in(addr, self.decoded.mem) || is_in(addr, self.decoded.pref),
        }
    }

    /// Returns the declaration of the bridge.
    pub(crate) fn decl(&self) -> BridgeDecl
        ensures { result ≡ self.now.decl }
    {
        self.decl
    }

    /// Returns the Command register.
    pub(crate) fn command(&self) -> u16
        ensures { result ≡ command_word self.now.file }
    {
        self.decoded.command
    }

    /// Returns the windows programmed in the registers.
    pub(crate) fn programmed_windows(&self) -> Ranges
        ensures { let file = self.now.file in let d = self.now.decl in
            named_ranges result
            ≡ windows (io_window d.io file) (mem_window file) (pref_window d.pref file) }
    {
        Ranges::Windows {
            io: window_from_pair(self.decoded.io),
            mem: window_from_pair(self.decoded.mem),
            pref: window_from_pair(self.decoded.pref),
        }
    }

    /// Returns the windows programmed in the registers, without allocating.
    pub(crate) fn programmed_window_ranges(&self) -> ProgrammedRanges
        ensures { let file = self.now.file in let d = self.now.decl in
            ranges_told result
            ≡ windows (io_window d.io file) (mem_window file) (pref_window d.pref file) }
    {
        let Decoded { io, mem, pref, .. } = self.decoded;
        ProgrammedRanges::Windows {
            io: window_from_pair(io),
            mem: window_from_pair(mem),
            pref: window_from_pair(pref),
        }
    }

    /// Returns the Secondary Bus Number register.
    pub(crate) fn secondary(&self) -> u8
        ensures { result ≡ secondary_register self.now.file }
    {
        self.decoded.secondary
    }

    /// Returns the Primary Bus Number register.
    pub(crate) fn primary(&self) -> u8
        ensures { result ≡ number self.now.file (config 0x18) 1 }
    {
        read_register_byte(&self.cells, 0x18)
    }

    /// Returns the Subordinate Bus Number register.
    pub(crate) fn subordinate(&self) -> u8
        ensures { result ≡ subordinate_register self.now.file }
    {
        self.decoded.subordinate
    }
}

/// Returns whether the address is in the window, whose first and last address are inclusive.
fn is_in(addr: u64, window: Option<(u64, u64)>) -> bool
    ensures { (w : Option Window) → window ≡ option_map pair_of w → result ≡ is_in addr w }
{
    match window {
        None => false,
        Some((first, last)) => first <= addr && addr <= last,
    }
}

/// Reads the one-byte register at `off`.
fn read_register_byte(cells: &Cells, off: u16) -> u8
    ensures { result ≡ number cells.now.now (config off) 1 }
{
    let word = cells.read(off / 4 * 4, enables_of(u64::from(off), 1));
    from_lanes(u64::from(off), 1, word) as u8
}
