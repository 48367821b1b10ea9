//! Configuration cycles (PCI Local Bus 3.0, section 3.2.2.3; PCI-to-PCI Bridge Architecture 1.2,
//! section 3.1.2).

use config_bytes::Op;

/// The type of a configuration cycle: type 0 addresses a device on the bus that carries the cycle,
/// and type 1 a device behind one of the bridges on that bus.
#[derive(Clone, Copy, Debug, PartialEq, Eq)]
pub enum CycleType {
    Type0,
    Type1 { bus: u8 },
}

/// A configuration cycle: the device (0 to 31), the function (0 to 7), and the offset of the word,
/// a multiple of 4. Bits 0 to 3 of `enables` enable the bytes of the word, lowest byte first.
#[derive(Clone, Copy, Debug, PartialEq, Eq)]
pub struct Cycle {
    pub kind: CycleType,
    pub device: u8,
    pub function: u8,
    pub offset: u8,
    pub enables: u8,
    pub op: Op,
}
