//! Decoding of a bridge's window registers (PCI-to-PCI Bridge Architecture 1.2, chapters 3.2.5.6 to
//! 3.2.5.10). A window is returned as its first and last address, both included, or as `None` if
//! the window isn't implemented or its base is above its limit. The Command register isn't taken
//! into account.
ghost use Rattle.std.specs.Prelude.{◌≡◌, ◌≤◌, ◌<◌, ◌^◌, option_map};
ghost use Rattle.model_registers.specs.{ByteEnables.LiesInWord, Windows.{io_window, mem_window, pref_window, window, window_bits}};
ghost use Rattle.headers.specs.WindowPairs.{pair_of};

use crate::bridge_decl::BridgeDecl;
use crate::decodes::{IoDecode, PrefDecode};
use crate::register_words::read_register;
use config_bytes::Cells;

/// Returns the window from `first` to `last`, or `None` if the base is above the limit.
fn window_if_open(first: u64, last: u64) -> Option<(u64, u64)>
    ensures { result ≡ option_map pair_of (window first last) }
{
    if first <= last {
        Some((first, last))
    } else {
        None
    }
}

/// Returns the address that the register's bits above bit 3 encode, in units of `unit` bytes.
fn window_address(cells: &Cells, off: u16, width: u16, unit: u64) -> u64
    requires lane { LiesInWord off width }
    requires width { width ≤ 2 }
    requires unit { unit ≤ 2 ^ 20 }
    ensures value { result ≡ window_bits cells.now.now off width unit }
    ensures fits { result < 2 ^ 32 }
{
    u64::from(read_register(cells, off, width)) / 16 * unit
}

/// Returns the I/O window. With 16-bit decoding, the upper address bits are 0.
pub fn io_window(cells: &Cells, decl: &BridgeDecl) -> Option<(u64, u64)>
    ensures { result ≡ option_map pair_of (io_window decl.now.io cells.now.now) }
{
    let (upper_first, upper_last) = match decl.io() {
        IoDecode::Unimplemented => return None,
        IoDecode::Bits16 => (0, 0),
        IoDecode::Bits32 => (read_register(cells, 0x30, 2), read_register(cells, 0x32, 2)),
    };
    let first = (u64::from(upper_first) << 16) + window_address(cells, 0x1c, 1, 1 << 12);
    let last = (u64::from(upper_last) << 16) + window_address(cells, 0x1d, 1, 1 << 12) + 0xfff;
    window_if_open(first, last)
}

/// Returns the memory window.
pub fn mem_window(cells: &Cells, _decl: &BridgeDecl) -> Option<(u64, u64)>
    ensures { result ≡ option_map pair_of (mem_window cells.now.now) }
{
    window_if_open(
        window_address(cells, 0x20, 2, 1 << 20),
        window_address(cells, 0x22, 2, 1 << 20) + 0xf_ffff,
    )
}

/// Returns the prefetchable memory window. With 32-bit decoding, the upper address bits are 0.
pub fn pref_window(cells: &Cells, decl: &BridgeDecl) -> Option<(u64, u64)>
    ensures { result ≡ option_map pair_of (pref_window decl.now.pref cells.now.now) }
{
    let (upper_first, upper_last) = match decl.pref() {
        PrefDecode::Unimplemented => return None,
        PrefDecode::Bits32 => (0, 0),
        PrefDecode::Bits64 => (read_register(cells, 0x28, 4), read_register(cells, 0x2c, 4)),
    };
    let first = (u64::from(upper_first) << 32) + window_address(cells, 0x24, 2, 1 << 20);
    let last = (u64::from(upper_last) << 32) + window_address(cells, 0x26, 2, 1 << 20) + 0xf_ffff;
    window_if_open(first, last)
}
