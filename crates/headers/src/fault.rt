//! Errors of declarations.
ghost use Rattle.std.specs.Prelude.{◌≡◌};
ghost use Rattle.headers.specs.Faults.{number_of};

use thiserror::Error;

/// The first rule that a declaration breaks.
#[derive(Clone, Copy, Debug, PartialEq, Eq, Error)]
pub enum DeclFault {
    /// A value outside its range.
    #[error("number")]
    Number,
    /// A BAR index outside 0 to 5, or used twice.
    #[error("register")]
    Register,
    /// A block longer than its region.
    #[error("size")]
    Size,
    /// Two configuration blocks that overlap.
    #[error("cell masks")]
    CellMasks,
}

impl DeclFault {
    /// Returns the error number.
    pub fn number(self) -> u16
        ensures { result ≡ number_of self }
    {
        match self {
            DeclFault::Number => 104,
            DeclFault::Register => 106,
            DeclFault::Size => 107,
            DeclFault::CellMasks => 112,
        }
    }
}
