//! The configuration words that contain copied registers.
ghost use Rattle.std.specs.Prelude.{◌≡◌, ◌<◌, ◌%◌};
ghost use Rattle.model_registers.specs.{Registers.config, ByteEnables.lanes, OwnCopies.forwarded_byte_enables};
ghost use Rattle.guest_functions.specs.Words.{IsAt, copied_byte_enables};

/// The copied register that a configuration word contains (PCI Local Bus Specification 3.0, section
/// 6.1).
#[derive(Clone, Copy, Debug)]
pub enum Word {
    /// Command, in the low half of the word. Status is in the high half.
    Command,
    /// Header Type, the third byte of its word.
    HeaderType,
    /// The base address register at this index.
    Base(u8),
    /// No copied register.
    Other,
}

impl Word {
    /// Returns the kind of the word at an offset.
    pub fn at(off: u16) -> Word
        requires { off % 4 ≡ 0 }
        ensures { IsAt off result }
    {
        match off {
            0x04 => Word::Command,
            0x0c => Word::HeaderType,
            0x10..=0x24 => Word::Base(((off - 0x10) / 4) as u8),
            _ => Word::Other,
        }
    }

    /// Returns the copied bytes of the word, as byte enables.
    fn copied_byte_enables(self) -> u8
        ensures { result ≡ copied_byte_enables self }
    {
        match self {
            Word::Command => 0b0011,
            Word::HeaderType => 0b0100,
            Word::Base(_) => 0b1111,
            Word::Other => 0b0000,
        }
    }

    /// Returns the enabled bytes that are not copied, as byte enables.
    pub fn forwarded_byte_enables(self, off: u16, enables: u8) -> u8
        requires { IsAt off self }
        ensures others { lanes result ≡ forwarded_byte_enables (config off) (lanes enables) }
        ensures four { result < 16 }
    {
        enables & 0b1111 & !self.copied_byte_enables()
    }
}
