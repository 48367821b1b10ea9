//! Bridges, which have type 1 headers (PCI-to-PCI Bridge Architecture 1.2, chapter 3.2).
ghost use Rattle.std.specs.Prelude.{◌≡◌, ◌++◌, IfOk, flat_map};
ghost use Rattle.lists.specs.Elements.{Each};
ghost use Rattle.model_registers.specs.BridgeTable.{bridge_header, bridge_reset, io_cells, mem_cells, pref_cells, no_bridge_values, no_window};
ghost use Rattle.headers.specs.{Decodes.{io_decode_of, pref_decode_of}, Rows.{IsRow, row_cells}};

use crate::bridge_decl::BridgeDecl;
use crate::config_register::ConfigRegister;
use crate::decodes::{IoDecode, PrefDecode};
use crate::registers::Command;
use crate::table::{header_type, push_rows};
use config_bytes::Cells;
use std::alloc::{AllocError, Global};

/// The registers of a bridge.
pub struct Bridge;

/// Returns the header registers of a bridge, followed by those of its memory window.
pub fn required_bridge_rows(decl: &BridgeDecl, multifunction: bool) -> [ConfigRegister; 16]
    ensures cells { flat_map row_cells result
        ≡ bridge_header decl.now multifunction no_bridge_values ++ mem_cells no_window }
    ensures rows { Each IsRow result }
{
    [
        ConfigRegister::new(0x00, 2, u64::from(decl.vendor()), 0, 0),
        ConfigRegister::new(0x02, 2, u64::from(decl.device()), 0, 0),
        ConfigRegister::new(0x04, 2, 0, u64::from(Command::writable_in_bridge().0), 0),
        ConfigRegister::new(0x06, 2, u64::from(decl.status()), 0, 0xf900),
        ConfigRegister::new(0x08, 1, u64::from(decl.revision()), 0, 0),
        ConfigRegister::new(0x09, 3, 0x06_0400, 0, 0),
        ConfigRegister::new(0x0c, 2, 0, 0xffff, 0),
        ConfigRegister::new(0x0e, 1, header_type(1, multifunction), 0, 0),
        ConfigRegister::new(0x18, 1, 0, 0xff, 0),
        ConfigRegister::new(0x19, 1, 0, 0xff, 0),
        ConfigRegister::new(0x1a, 1, 0, 0xff, 0),
        ConfigRegister::new(0x1b, 1, 0, 0xff, 0),
        ConfigRegister::new(0x1e, 2, u64::from(decl.secondary_status()), 0, 0xf900),
        ConfigRegister::new(0x3c, 1, 0, 0xff, 0),
        ConfigRegister::new(0x20, 2, 0, 0xfff0, 0),
        ConfigRegister::new(0x22, 2, 0, 0xfff0, 0),
    ]
}

/// Returns the registers of the I/O window. An unimplemented register has width 0. The low bits of
/// an implemented register encode the decode width.
pub fn io_window_rows(decode: IoDecode) -> [ConfigRegister; 4]
    ensures cells { flat_map row_cells result ≡ io_cells (io_decode_of decode) no_window }
    ensures rows { Each IsRow result }
{
    let (low, high, bits) = match decode {
        IoDecode::Unimplemented => (0, 0, 0),
        IoDecode::Bits16 => (1, 0, 0),
        IoDecode::Bits32 => (1, 2, 1),
    };
    [
        ConfigRegister::new(0x1c, low, bits, 0xf0, 0),
        ConfigRegister::new(0x1d, low, bits, 0xf0, 0),
        ConfigRegister::new(0x30, high, 0, 0xffff, 0),
        ConfigRegister::new(0x32, high, 0, 0xffff, 0),
    ]
}

/// Returns the registers of the prefetchable memory window. An unimplemented register has width 0.
/// The low bits of an implemented register encode the decode width.
pub fn pref_window_rows(decode: PrefDecode) -> [ConfigRegister; 4]
    ensures cells { flat_map row_cells result ≡ pref_cells (pref_decode_of decode) no_window }
    ensures rows { Each IsRow result }
{
    let (low, high, bits) = match decode {
        PrefDecode::Unimplemented => (0, 0, 0),
        PrefDecode::Bits32 => (2, 0, 0),
        PrefDecode::Bits64 => (2, 4, 1),
    };
    [
        ConfigRegister::new(0x24, low, bits, 0xfff0, 0),
        ConfigRegister::new(0x26, low, bits, 0xfff0, 0),
        ConfigRegister::new(0x28, high, 0, 0xffff_ffff, 0),
        ConfigRegister::new(0x2c, high, 0, 0xffff_ffff, 0),
    ]
}

impl Bridge {
    /// Creates the register file of a bridge at reset. `multifunction` is set if its device has two
    /// or more functions. Fails if memory is exhausted.
    pub fn cells(alloc: Global, decl: &BridgeDecl, multifunction: bool) -> Result<Cells, AllocError>
        ensures { IfOk result (λ f.
            f ≡ record {
              now = bridge_reset decl.now multifunction;
              initial = bridge_reset decl.now multifunction;
            }) }
    {
        let mut cells = Vec::with_capacity(alloc, 64)?;
        push_rows(&mut cells, &required_bridge_rows(decl, multifunction))?;
        push_rows(&mut cells, &io_window_rows(decl.io()))?;
        push_rows(&mut cells, &pref_window_rows(decl.pref()))?;
        Cells::new(alloc, &cells)
    }
}
