//! One byte of a register file.

/// A register byte: its reset value, its present value, its write mask and its W1C mask. The device
/// can set the W1C bits.
#[derive(Clone, Copy)]
pub struct Register {
    at_reset: u8,
    value: u8,
    writable: u8,
    w1c: u8,
}

impl Register {
    /// Returns a byte at reset. A bit in both masks is cleared by writing a one.
    pub fn new(value: u8, writable: u8, w1c: u8) -> Register {
        Register {
            at_reset: value,
            value,
            writable,
            w1c,
        }
    }

    pub(crate) fn value(&self) -> u8 {
        self.value
    }

    pub(crate) fn write(&mut self, byte: u8) {
        let set = self.value & !self.writable | byte & self.writable;
        self.value = set & !(byte & self.w1c);
    }

    pub(crate) fn raise(&mut self, mask: u8) {
        self.value |= mask & self.w1c;
    }

    pub(crate) fn reset(&mut self) {
        self.value = self.at_reset;
    }
}
