//! The CONFIG_ADDRESS register, which selects the target of CONFIG_DATA (PCI Local Bus 3.0, chapter
//! 3.2.2.3.2). The host bridge has one, and so does each guest.
ghost use Rattle.std.specs.Prelude.{◌≡◌, ◌%◌, ◌&&◌};
ghost use Rattle.model_registers.specs.ConfigAddress.{latched, is_enabled, selected_register, is_address_port, is_data_port};
ghost use Rattle.model_board.specs.Ports.{selected};
ghost use Rattle.paths.specs.{BusAddresses.bus_address_of, Latches.{select_at, IsSelectAt}};

use crate::bdf::Bdf;
use std::marker::Model;

/// Returns whether an access of `width` bytes at `port` is an access to CONFIG_ADDRESS: 4 bytes at
/// CF8h.
pub fn is_address_port(port: u64, width: u64) -> bool
    ensures { result ≡ is_address_port port width }
{
    port == 0xcf8 && width == 4
}

/// The value of CONFIG_ADDRESS. Bit 31 enables CONFIG_DATA, bits 23 to 16 select a bus, 15 to 11 a
/// device, 10 to 8 a function and 7 to 2 a register. All other bits read 0.
#[derive(Clone, Copy, Debug, PartialEq, Eq)]
pub struct Latch {
    bits: u32,
}

/// The target of a guest's port access: an ordinary port of the guest's I/O regions, no function,
/// or a slot with an offset in its configuration space.
#[derive(Clone, Copy, Debug, PartialEq, Eq)]
pub enum Select {
    Ordinary,
    Nowhere,
    Slot(u8, u8),
}

impl Model for Latch {
    ghost use Rattle.std.specs.Prelude.{ℕ};

    ghost Value = { ℕ };

    ghost view = { λ l. l.bits };

    ghost inverse = { λ n. record { bits = n } };
}

impl Latch {
    /// Returns the initial value, 0, with CONFIG_DATA disabled.
    pub fn new() -> Latch
        ensures { result ≡ 0 }
    {
        Latch { bits: 0 }
    }

    /// Writes four bytes to CONFIG_ADDRESS. Unused bits stay 0.
    pub fn write(&mut self, value: u32)
        ensures { self.new ≡ latched value }
    {
        self.bits = value & 0x80ff_fffc;
    }

    /// Returns the value that enables CONFIG_DATA and selects the word at `off`, a multiple of 4,
    /// in the configuration space of function `at`.
    pub fn selecting(at: Bdf, off: u8) -> Latch
        requires { off % 4 ≡ 0 }
        ensures function { selected result ≡ bus_address_of at }
        ensures register { selected_register result ≡ off }
    {
        let device_function = at.device * 8 + at.function;
        Latch {
            bits: u32::from_le_bytes([off, device_function, at.bus, 0x80]),
        }
    }

    /// Returns the four bytes that a read of CONFIG_ADDRESS returns.
    pub fn value(self) -> u32
        ensures { result ≡ self }
    {
        self.bits
    }

    fn is_enabled(self) -> bool
        ensures { result ≡ is_enabled self }
    {
        self.bits >> 31 == 1
    }

    /// Returns whether `port` is a CONFIG_DATA port, CFCh to CFFh, and CONFIG_DATA is enabled.
    pub fn is_enabled_data_port(self, port: u64) -> bool
        ensures { result ≡ (is_enabled self && is_data_port port) }
    {
        self.is_enabled() && (0xcfc..=0xcff).contains(&port)
    }

    /// Returns the BDF of the selected function.
    pub fn selected_bdf(self) -> Bdf
        ensures { bus_address_of result ≡ selected self }
    {
        Bdf {
            bus: (self.bits >> 16 & 0xff) as u8,
            device: (self.bits >> 11 & 0x1f) as u8,
            function: (self.bits >> 8 & 7) as u8,
        }
    }

    /// Returns the offset of the selected word, a multiple of 4.
    pub fn selected_offset(self) -> u8
        ensures { result ≡ selected_register self }
    {
        (self.bits >> 2 & 0x3f) as u8 * 4
    }

    /// Returns the target of a guest's access at `port`. An access to CONFIG_DATA goes to the byte
    /// of the selected word that the port addresses. The guest's slots are the devices of bus 0,
    /// each with function 0 only.
    pub fn select(self, port: u64) -> Select
        ensures select { result ≡ select_at self port }
        ensures slot { IsSelectAt port result }
    {
        if !self.is_enabled_data_port(port) {
            return Select::Ordinary;
        }
        let at = self.selected_bdf();
        if at.bus != 0 || at.function != 0 {
            return Select::Nowhere;
        }
        Select::Slot(at.device, self.selected_offset() + (port - 0xcfc) as u8)
    }
}
