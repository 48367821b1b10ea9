//! Reasons why bytes can't be loaded into a guest.
ghost use Rattle.std.specs.Prelude.{◌≡◌};
ghost use Rattle.images.specs.Faults.{number_of};

use thiserror::Error;

/// The reason why bytes can't be loaded into a guest.
#[derive(Clone, Copy, Debug, PartialEq, Eq, Error)]
pub enum ImageFault {
    /// 905: the bytes are too few or too many, don't begin with `PCIG`, or contain a value that its
    /// register can't hold.
    #[error("image")]
    NoImage,
    /// 906: the bytes were saved from a guest that had functions in different slots, or functions
    /// with different declarations.
    #[error("other functions")]
    OtherFunctions,
    /// 908: the bytes have a different version of the format.
    #[error("image version")]
    OtherVersion,
}

impl ImageFault {
    /// Returns the number of the fault.
    pub fn number(self) -> u16
        ensures { result ≡ number_of self }
    {
        match self {
            ImageFault::NoImage => 905,
            ImageFault::OtherFunctions => 906,
            ImageFault::OtherVersion => 908,
        }
    }
}
