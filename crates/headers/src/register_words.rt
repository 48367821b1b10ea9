//! Multi-byte registers of a function.
ghost use Rattle.std.specs.Prelude.{◌≡◌, ◌<◌, ◌^◌};
ghost use Rattle.model_registers.specs.{Registers.{config, number}, ByteEnables.LiesInWord};

use crate::registers::{Command, Status};
use config_bytes::{Cells, enables_of, from_lanes};

/// Reads the little-endian value of `width` bytes at `off`. All of them must lie in one word.
pub(crate) fn read_register(cells: &Cells, off: u16, width: u16) -> u32
    requires { LiesInWord off width }
    ensures value { result ≡ number cells.now.now (config off) width }
    ensures fits { result < 256 ^ width }
{
    let word = cells.read(off / 4 * 4, enables_of(u64::from(off), u64::from(width)));
    from_lanes(u64::from(off), u64::from(width), word)
}

/// Returns the Command register, at 04h (PCI Local Bus 3.0, chapter 6.2.2).
pub fn command(cells: &Cells) -> Command
    ensures { result.0 ≡ number cells.now.now (config 0x04) 2 }
{
    Command(read_register(cells, 0x04, 2) as u16)
}

/// Returns the Status register, at 06h (PCI Local Bus 3.0, chapter 6.2.3).
pub fn status(cells: &Cells) -> Status
    ensures { result.0 ≡ number cells.now.now (config 0x06) 2 }
{
    Status(read_register(cells, 0x06, 2) as u16)
}
