//! The reasons why set-up can fail.
ghost use Rattle.std.specs.Prelude.{◌≡◌, Some};
ghost use Rattle.bus_scan.specs.Faults.{number_of, fault_words};

use std::alloc::AllocError;
use std::error::Error;
use std::fmt;

/// The reason why a board can't be enumerated, or its regions placed.
#[derive(Clone, Copy, Debug, PartialEq, Eq)]
pub enum Fault {
    /// The board has more than 255 bridges.
    Buses,
    /// An I/O region is behind a bridge without an I/O window.
    NoIoWindow,
    /// The I/O regions don't fit in the I/O aperture.
    IoPool,
    /// The memory regions don't fit in the memory aperture.
    MemoryPool,
    /// The prefetchable regions don't fit in the prefetchable aperture.
    PrefetchablePool,
    /// Memory is exhausted.
    Memory,
}

impl From<AllocError> for Fault {
    ghost use Rattle.bus_scan.specs.declared.fault.Fault.TheVariants.{Memory};

    ghost from_gives = { λ _ f. f ≡ Memory };

    fn from(_error: AllocError) -> Self {
        Self::Memory
    }
}

impl Fault {
    /// Returns the error number of the fault.
    pub fn number(self) -> u16
        ensures { result ≡ number_of self }
    {
        match self {
            Fault::Buses => 201,
            Fault::NoIoWindow => 202,
            Fault::IoPool => 203,
            Fault::MemoryPool => 204,
            Fault::PrefetchablePool => 205,
            Fault::Memory => 299,
        }
    }

    /// Returns the error message of the fault, without its number.
    pub fn words(self) -> &'static str
        ensures { result.now ≡ fault_words self }
    {
        match self {
            Fault::Buses => "buses",
            Fault::NoIoWindow => "no I/O window",
            Fault::IoPool => "I/O pool",
            Fault::MemoryPool => "memory pool",
            Fault::PrefetchablePool => "prefetchable pool",
            Fault::Memory => "memory",
        }
    }
}

impl fmt::Display for Fault {
    ghost output = { λ f. Some (fault_words f) };

    fn fmt<W: fmt::Write>(&self, f: &mut fmt::Formatter<W>) -> fmt::Result {
        let words = self.words();
        write!(f, "{words}")
    }
}

impl Error for Fault {}
