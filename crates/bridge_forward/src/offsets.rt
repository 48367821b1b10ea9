//! Register accesses at 64-bit offsets. Offsets above FFFFh, which no register file contains, read
//! 0 and ignore writes.
ghost use Rattle.std.specs.Prelude.{◌≡◌, ◌%◌};
ghost use Rattle.model_registers.specs.{Registers.{config, cell_at, read, write, raise}, DeviceBytes.set_value, ByteEnables.lanes};
ghost use Rattle.bridge_forward.specs.EndpointParts.{IsShort};

use config_bytes::Cells;

/// Reads the enabled bytes of the word at `off`, a multiple of 4.
pub(crate) fn read_or_zero(cells: &Cells, off: u64, enables: u8) -> u32
    requires word { off % 4 ≡ 0 }
    requires short { IsShort cells.now.now }
    ensures { result ≡ read cells.now.now (config off) (lanes enables) }
{
    match u16::try_from(off) {
        Ok(off) => cells.read(off, enables),
        Err(_) => 0,
    }
}

/// Writes the enabled bytes of the word at `off`, a multiple of 4.
pub(crate) fn write_or_ignore(cells: &mut Cells, off: u64, enables: u8, data: u32)
    requires word { off % 4 ≡ 0 }
    requires short { IsShort cells.old.now }
    ensures { cells.new
        ≡ record cells.old { now = write (lanes enables) «data» (config off) cells.old.now } }
{
    if let Ok(off) = u16::try_from(off) {
        cells.write(off, enables, data);
    }
}

/// Sets the W1C bits of `mask` in the register byte at `off`.
pub(crate) fn raise_or_ignore(cells: &mut Cells, off: u64, mask: u8)
    requires { IsShort cells.old.now }
    ensures { cells.new ≡ record cells.old { now = raise mask (config off) cells.old.now } }
{
    if let Ok(off) = u16::try_from(off) {
        cells.raise(off, mask);
    }
}

/// Returns the value of the register byte at `off`, or 0 if it isn't implemented.
pub(crate) fn value_or_zero(cells: &Cells, off: u64) -> u8
    requires { IsShort cells.now.now }
    ensures { result ≡ (cell_at cells.now.now (config off)).value }
{
    let Ok(off) = u16::try_from(off) else {
        return 0;
    };
    cells.value(off)
}

/// Sets the value of the register byte at `off`, ignoring its write mask and W1C mask.
pub(crate) fn set_or_ignore(cells: &mut Cells, off: u64, value: u8)
    requires { IsShort cells.old.now }
    ensures { cells.new ≡ record cells.old { now = set_value value (config off) cells.old.now } }
{
    if let Ok(off) = u16::try_from(off) {
        cells.set(off, value);
    }
}
