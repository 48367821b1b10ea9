//! Finds the target of a guest's access to a byte (PCI Local Bus 3.0, sections 3.2.2.3.2 and
//! 6.2.5).
ghost use Rattle.std.specs.Prelude.{◌≡◌, ◌<◌, None, length, IfOk, IfErr};
ghost use Rattle.model_guests.specs.{Accesses.port, Lone.destination};
ghost use Rattle.model_lines.specs.WhyGuests.{guest_finding, nobody, closed_from};
ghost use Rattle.bars.specs.Kinds.{named_space};
ghost use Rattle.accesses.specs.Accesses.{target_of};
ghost use Rattle.board_told.specs.GuestFindings.{lone_asked, fault_at, lost_by, finding_told, fault_number, IsWhyFault};

use crate::closed::{ClosedInSlot, collect_disabled_bars};
use accesses::{At, Refusal};
use bars::Space;
use monitor::{DecodedByte, Monitor};
use paths::{Bdf, Select};
use std::alloc::{AllocError, Global};

/// The target of a one-byte access by a guest.
#[derive(Debug, Drop)]
pub enum Finding {
    /// A byte of a function in one of the guest's slots.
    Answers(DecodedByte),
    /// No function claims the address. The disabled BARs that contain the address are listed by
    /// slot and then by BAR index.
    Nobody(Vec<ClosedInSlot>),
    /// The addressed slot is empty.
    Empty { slot: u64 },
    /// CONFIG_ADDRESS selects a BDF that is not function 0 of a slot.
    NoSlot { at: Bdf },
}

/// The reason why there is no finding.
#[derive(Clone, Copy, Debug, PartialEq, Eq)]
pub enum WhyFault {
    /// The access itself would be refused.
    Refused(Refusal),
    /// Memory is exhausted (299).
    Memory,
}

impl WhyFault {
    /// Returns the error number.
    pub fn number(self) -> u16
        ensures { result ≡ fault_number self }
    {
        match self {
            WhyFault::Refused(why) => why.number(),
            WhyFault::Memory => 299,
        }
    }
}

/// Returns the finding for an unclaimed address, with the disabled BARs that contain the address.
fn unclaimed_finding(
    alloc: Global,
    monitor: &Monitor,
    guest: usize,
    space: Space,
    addr: u64,
) -> Result<Finding, AllocError>
    requires { guest < length monitor.now.world.guests }
    ensures { let g = lone_asked monitor.now.world guest in
        IfOk result (λ f.
        finding_told f ≡ nobody (closed_from (named_space space) addr 0 g.slots)) }
{
    Ok(Finding::Nobody(collect_disabled_bars(alloc, monitor, guest, space, addr)?))
}

/// Returns the finding for an I/O port at which no function of the guest answers.
fn unanswered_port_finding(
    alloc: Global,
    monitor: &Monitor,
    guest: usize,
    addr: u64,
) -> Result<Finding, AllocError>
    requires { guest < length monitor.now.world.guests }
    ensures { let g = lone_asked monitor.now.world guest in
        IfOk result (λ f. finding_told f ≡ lost_by g (destination g.latch 1 (port addr))) }
{
    let latch = monitor.latch(guest);
    match latch.select(addr) {
        Select::Ordinary => unclaimed_finding(alloc, monitor, guest, Space::Io, addr),
        Select::Nowhere => Ok(Finding::NoSlot {
            at: latch.selected_bdf(),
        }),
        Select::Slot(slot, _) => Ok(Finding::Empty {
            slot: u64::from(slot),
        }),
    }
}

/// Returns the finding for an access that no function of the guest answers.
fn unanswered_finding(
    alloc: Global,
    monitor: &Monitor,
    guest: usize,
    at: At,
) -> Result<Finding, AllocError>
    requires { guest < length monitor.now.world.guests }
    ensures { let g = lone_asked monitor.now.world guest in
        IfOk result (λ f. finding_told f ≡ lost_by g (destination g.latch 1 (target_of at))) }
{
    match at {
        At::Config { slot, off: _ } => Ok(Finding::Empty { slot }),
        At::Io { port } => unanswered_port_finding(alloc, monitor, guest, port),
        At::Mem { addr } => unclaimed_finding(alloc, monitor, guest, Space::Mem, addr),
    }
}

/// Finds the target of a guest's access to one byte: a byte of a function in one of its slots,
/// nobody (with the disabled BARs that contain the address), an empty slot, or a BDF selected by
/// CONFIG_ADDRESS that isn't a slot.
///
/// Refused with 303 if a one-byte read would be: for a slot above 31, an offset above 255 or a port
/// above FFFFFFFFh. Fails with 299 if memory is exhausted.
pub fn find_target(
    alloc: Global,
    monitor: &Monitor,
    guest: usize,
    at: At,
) -> Result<Finding, WhyFault>
    requires { guest < length monitor.now.world.guests }
    ensures found { let g = lone_asked monitor.now.world guest in
        IfOk result (λ f. finding_told f ≡ guest_finding g (target_of at)) }
    ensures served { IfOk result (λ _. fault_at (target_of at) ≡ None) }
    ensures refused { IfErr result (λ e. IsWhyFault e (fault_at (target_of at))) }
{
    match monitor.locate(guest, at) {
        Err(why) => Err(WhyFault::Refused(why)),
        Ok(Some(hit)) => Ok(Finding::Answers(hit)),
        Ok(None) => match unanswered_finding(alloc, monitor, guest, at) {
            Ok(finding) => Ok(finding),
            Err(_) => Err(WhyFault::Memory),
        },
    }
}
