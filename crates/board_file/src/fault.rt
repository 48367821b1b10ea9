//! The reasons for refusing a board file.
ghost use Rattle.std.specs.Prelude.{◌≡◌, Some};
ghost use Rattle.board_file.specs.{Faults.{number_of, fault_words}, declared.fault.BoardFault.TheVariants.Memory};

use std::alloc::{AllocError, AllocFailed};
use std::error::Error;
use std::fmt;

/// The reason for refusing a board file: the first check that fails, or exhausted memory.
#[derive(Clone, Copy, PartialEq, Eq, Debug)]
pub enum BoardFault {
    /// The bytes aren't a TOML document.
    NotToml,
    /// A required key is missing, or a value has the wrong type or isn't one of the words for its
    /// key.
    Key,
    /// A table has a key that isn't defined for it.
    UnknownKey,
    /// An integer is out of range.
    Number,
    /// A path has more than 16 parts, or there are too many functions, guests or slots.
    TooMany,
    /// An `at` isn't a path, or the board can't have a function at that path.
    Place,
    /// A BAR index isn't 0 to 5, or BARs share a register.
    Register,
    /// A size isn't valid for its kind of BAR, or a register block is longer than its BAR.
    Size,
    /// A guest's name isn't valid or is already in use.
    GuestName,
    /// A slot isn't the path of an endpoint, or an endpoint is in two slots.
    Slot,
    /// An aperture isn't valid.
    Aperture,
    /// A pattern isn't valid, a bit is in both the write mask and the W1C mask, or configuration
    /// blocks overlap.
    CellMasks,
    /// Memory is exhausted.
    Memory,
}

impl BoardFault {
    /// Returns the error number.
    pub fn number(self) -> u16
        ensures { result ≡ number_of self }
    {
        match self {
            BoardFault::NotToml => 101,
            BoardFault::Key => 102,
            BoardFault::UnknownKey => 103,
            BoardFault::Number => 104,
            BoardFault::Place => 105,
            BoardFault::Register => 106,
            BoardFault::Size => 107,
            BoardFault::TooMany => 108,
            BoardFault::GuestName => 109,
            BoardFault::Slot => 110,
            BoardFault::Aperture => 111,
            BoardFault::CellMasks => 112,
            BoardFault::Memory => 199,
        }
    }

    /// Returns the error message, without the number.
    pub fn words(self) -> &'static str
        ensures { result.now ≡ fault_words self }
    {
        match self {
            BoardFault::NotToml => "not TOML",
            BoardFault::Key => "key",
            BoardFault::UnknownKey => "unknown key",
            BoardFault::Number => "number",
            BoardFault::TooMany => "too many",
            BoardFault::Place => "place",
            BoardFault::Register => "register",
            BoardFault::Size => "size",
            BoardFault::GuestName => "guest name",
            BoardFault::Slot => "slot",
            BoardFault::Aperture => "aperture",
            BoardFault::CellMasks => "cell masks",
            BoardFault::Memory => "memory",
        }
    }
}

impl fmt::Display for BoardFault {
    ghost output = { λ f. Some (fault_words f) };

    fn fmt<W: fmt::Write>(&self, f: &mut fmt::Formatter<W>) -> fmt::Result {
        let words = self.words();
        write!(f, "{words}")
    }
}

impl Error for BoardFault {}

impl From<AllocError> for BoardFault {
    ghost from_gives = { λ _ e. e ≡ Memory };

    fn from(_e: AllocError) -> BoardFault {
        BoardFault::Memory
    }
}

impl<T: Drop> From<AllocFailed<T>> for BoardFault {
    ghost from_gives = { λ _ e. e ≡ Memory };

    fn from(_e: AllocFailed<T>) -> BoardFault {
        BoardFault::Memory
    }
}
