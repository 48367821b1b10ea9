//! Set-up of the board in a board file, with its guests.
ghost use Rattle.std.specs.Prelude.{◌≡◌, ◌≢◌, IfOk, IfErr};
ghost use Rattle.model_board.specs.AtReset.{IsAtReset};
ghost use Rattle.model_guests.specs.World.{IsLawfulWorld};
ghost use Rattle.model_handoff.specs.Changes.{BeginsIn};
ghost use Rattle.bus_scan.specs.{declared.fault.Fault.TheVariants.Memory, Faults.number_of as set_up_number};
ghost use Rattle.monitor.specs.Beginnings.{world_on};
ghost use Rattle.session.specs.{declared.opening.OpenFault.TheVariants.{File, SetUp}, Faults.{number_of, OnFile, OnSetUp}, Files.{Refuses, Breaks, BreaksRule, IsAtFirst, IsOpened}};

use accesses::GuestDecl;
use board_file::{BoardFault, read_board};
use host_bridge::Host;
use monitor::Monitor;
use std::alloc::Global;
use thiserror::Error;
use window_packing::set_up;

/// The reason why the board of a board file can't be set up.
#[derive(Clone, Copy, Debug, PartialEq, Eq, Error)]
pub enum OpenFault {
    /// The board file is refused (1xx), or memory was exhausted while it was read (199).
    #[error(transparent)]
    File(BoardFault),
    /// The board can't be set up (2xx), or memory was exhausted while it was built, set up
    /// or assigned to guests (299).
    #[error(transparent)]
    SetUp(bus_scan::Fault),
}

impl OpenFault {
    /// Returns the number of the fault.
    pub fn number(self) -> u16
        ensures { result ≡ number_of self }
    {
        match self {
            OpenFault::File(fault) => fault.number(),
            OpenFault::SetUp(fault) => fault.number(),
        }
    }
}

impl From<BoardFault> for OpenFault {
    ghost from_gives = { λ b f. f ≡ File b };

    fn from(fault: BoardFault) -> OpenFault {
        OpenFault::File(fault)
    }
}

impl From<bus_scan::Fault> for OpenFault {
    ghost from_gives = { λ s f. f ≡ SetUp s };

    fn from(fault: bus_scan::Fault) -> OpenFault {
        OpenFault::SetUp(fault)
    }
}

/// Sets up a board at reset, and assigns its functions to guests. Fails if the board can't be set
/// up (2xx) or memory is exhausted (299).
pub(crate) fn set_up_and_assign(
    alloc: Global,
    host: Host,
    guests: &[GuestDecl],
) -> Result<Monitor, bus_scan::Fault>
    requires reset { IsAtReset host.state }
    requires lawful { IsLawfulWorld (world_on host guests.now) }
    ensures made { IfOk result (BeginsIn (IsAtFirst (world_on host guests.now))) }
    ensures placement { IfErr result (λ f.
        f ≢ Memory → BreaksRule (world_on host guests.now) (set_up_number f)) }
{
    let ready = set_up(alloc, host)?;
    let monitor = Monitor::new(alloc, ready, guests)?;
    Ok(monitor)
}

/// Sets up the board of a board file, and assigns its functions to the guests of the file.
///
/// Fails if the file is refused (1xx), the board can't be set up (2xx), or memory is
/// exhausted (199 or 299).
pub fn set_up_file_and_assign(alloc: Global, file: &[u8]) -> Result<Monitor, OpenFault>
    ensures opened { IfOk result (BeginsIn (IsOpened file.now)) }
    ensures file { IfErr result (OnFile (Refuses file.now)) }
    ensures placement { IfErr result (OnSetUp (Breaks file.now)) }
{
    let (host, guests) = read_board(alloc, file)?;
    let opened = set_up_and_assign(alloc, host, &guests)?;
    Ok(opened)
}
