//! Bus, device and function numbers (BDF).
ghost use Rattle.std.specs.Prelude.{◌<◌};

/// A physical bus, device and function number (PCI Local Bus 3.0, chapter 3.2.2.3).
#[derive(Clone, Copy, Debug, PartialEq, Eq)]
pub struct Bdf {
    pub bus: u8,
    /// The device number, 0 to 31.
    pub device: u8,
    /// The function number, 0 to 7.
    pub function: u8,
    pub ghost device_in_range: { device < 32 },
    pub ghost function_in_range: { function < 8 },
}
