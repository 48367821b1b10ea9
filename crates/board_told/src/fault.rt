//! The faults that end a run of the program, with their numbers and messages.
ghost use Rattle.std.specs.Prelude.{◌≡◌, Some};
ghost use Rattle.board_told.specs.{Faults.{number_of, words_of, of_open, of_run}, declared.fault.Fault.TheVariants.{File, SetUp}};

use board_file::BoardFault;
use session::{OpenFault, RunFault};
use std::error::Error;
use std::fmt;

/// The reason that a run of the program failed.
#[derive(Clone, Copy, Debug, PartialEq, Eq)]
pub enum Fault {
    /// The board file is refused (1xx), or memory was exhausted while reading it (199).
    File(BoardFault),
    /// The board can't be set up (2xx), or memory was exhausted while the board was built,
    /// set up, reported, examined or assigned to guests (299).
    SetUp(bus_scan::Fault),
    /// An audit found a problem, and the run treats problems as a fault.
    NotInOrder,
    /// The board has a problem or a readiness issue.
    NotReady,
    /// A line was refused, and the run treats refused lines as a fault.
    RefusedLine,
    /// Reading the script failed.
    Read,
    /// Writing or flushing the output failed, or a write accepted no bytes.
    Write,
    /// The command-line arguments are invalid.
    Usage,
    /// The board file can't be opened or read.
    BoardFile,
    /// Memory was exhausted while reading the command-line arguments.
    WordMemory,
}

impl Fault {
    /// Returns the number printed on the fault's line.
    pub fn number(self) -> u16
        ensures { result ≡ number_of self }
    {
        match self {
            Fault::File(fault) => fault.number(),
            Fault::SetUp(fault) => fault.number(),
            Fault::NotInOrder => 207,
            Fault::NotReady => 208,
            Fault::RefusedLine => 209,
            Fault::Read => 501,
            Fault::Write => 502,
            Fault::Usage => 701,
            Fault::BoardFile => 702,
            Fault::WordMemory => 799,
        }
    }

    /// Returns the error message printed on the fault's line.
    pub fn words(self) -> &'static str
        ensures { result.now ≡ words_of self }
    {
        match self {
            Fault::File(fault) => fault.words(),
            Fault::SetUp(fault) => fault.words(),
            Fault::NotInOrder => "not in order",
            Fault::NotReady => "not ready",
            Fault::RefusedLine => "refused line",
            Fault::Read => "read failed",
            Fault::Write => "write failed",
            Fault::Usage => "usage",
            Fault::BoardFile => "board file",
            Fault::WordMemory => "memory",
        }
    }
}

impl fmt::Display for Fault {
    ghost output = { λ f. Some (words_of f) };

    fn fmt<W: fmt::Write>(&self, f: &mut fmt::Formatter<W>) -> fmt::Result {
        let words = self.words();
        write!(f, "{words}")
    }
}

impl Error for Fault {}

impl From<BoardFault> for Fault {
    ghost from_gives = { λ b f. f ≡ File b };

    fn from(fault: BoardFault) -> Fault {
        Fault::File(fault)
    }
}

impl From<OpenFault> for Fault {
    ghost from_gives = { λ o f. f ≡ of_open o };

    fn from(fault: OpenFault) -> Fault {
        match fault {
            OpenFault::File(fault) => Fault::File(fault),
            OpenFault::SetUp(fault) => Fault::SetUp(fault),
        }
    }
}

impl From<RunFault> for Fault {
    ghost from_gives = { λ r f. f ≡ of_run r };

    fn from(fault: RunFault) -> Fault {
        match fault {
            RunFault::Read => Fault::Read,
            RunFault::Write => Fault::Write,
            RunFault::Memory => Fault::SetUp(bus_scan::Fault::Memory),
        }
    }
}
