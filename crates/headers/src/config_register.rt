//! Registers as rows of a table: the offset, width, reset value and masks.
ghost use Rattle.std.specs.Prelude.{◌≡◌, ◌+◌, ◌-◌, ◌/◌, ◌%◌, ◌<◌};
ghost use Rattle.headers.specs.Rows.{IsRow};

use config_bytes::Cell;

/// A register of configuration space: its offset, width in bytes, reset value, write mask and W1C
/// mask. At most one of the two masks is nonzero.
#[derive(Clone, Copy)]
pub struct ConfigRegister {
    pub off: u16,
    pub width: u8,
    pub value: u64,
    pub writable: u64,
    pub clearable: u64,
}

impl ConfigRegister {
    /// Creates a row of a register table.
    pub(crate) fn new(
        off: u16,
        width: u8,
        value: u64,
        writable: u64,
        clearable: u64,
    ) -> ConfigRegister
        ensures { result
            ≡ record {
              off = off;
              width = width;
              value = value;
              writable = writable;
              clearable = clearable;
            } }
    {
        ConfigRegister {
            off,
            width,
            value,
            writable,
            clearable,
        }
    }

    /// Returns the cell of the lowest byte.
    pub(crate) fn lowest_byte_cell(self) -> Cell
        requires { IsRow self }
        ensures { result
            ≡ record {
              value = self.value % 256;
              writable = self.writable % 256;
              clearable = self.clearable % 256;
            } }
    {
        let value = (self.value % 256) as u8;
        if self.clearable == 0 {
            Cell::settable(value, (self.writable % 256) as u8)
        } else {
            Cell::clearable(value, (self.clearable % 256) as u8)
        }
    }

    /// Returns the rest of the register above its lowest byte.
    pub fn without_lowest_byte(self) -> ConfigRegister
        requires some { 0 < self.width }
        requires row { IsRow self }
        ensures rest { result
            ≡ record {
              off = self.off + 1;
              width = self.width - 1;
              value = self.value / 256;
              writable = self.writable / 256;
              clearable = self.clearable / 256;
            } }
        ensures row { IsRow result }
    {
        ConfigRegister {
            off: self.off + 1,
            width: self.width - 1,
            value: self.value / 256,
            writable: self.writable / 256,
            clearable: self.clearable / 256,
        }
    }
}
