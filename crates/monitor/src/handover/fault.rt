//! Reasons to refuse a handover, and the checks before it.
ghost use Rattle.std.specs.Prelude.{◌≡◌, None, IfOk, IfNone, IfSome, option_map, slice_get};
ghost use Rattle.model_findings.specs.Problems.{problems};
ghost use Rattle.model_handoff.specs.Regions.{first_fault};
ghost use Rattle.findings.specs.Findings.{problem_of};
ghost use Rattle.monitor.specs.{Beginnings.world_on, Handovers.{number_of, handover_words, words_of, IsFaultOf}};

use crate::handover::disabled::first_disabled_on_board;
use accesses::GuestDecl;
use findings::{LiveBar, Problem, problems};
use host_bridge::Host;
use std::alloc::{AllocError, Global};

/// The reason why functions of a board can't be assigned to guests: the first problem that the
/// audit reports, else the first disabled region of a function to assign, or exhausted memory.
#[derive(Drop)]
pub enum HandoverFault {
    NotInOrder(Problem),
    Closed(LiveBar),
    Memory,
}

/// Returns the message for a handover fault's number, or an empty string for any other number.
fn message_or_empty(number: u32) -> &'static str
    ensures { result.now ≡ handover_words number }
{
    match number {
        206 => "closed region",
        207 => "not in order",
        299 => "memory",
        _ => "",
    }
}

impl HandoverFault {
    /// Returns the number of the fault.
    pub fn number(&self) -> u16
        ensures { result ≡ number_of self.now }
    {
        match self {
            HandoverFault::NotInOrder(_) => 207,
            HandoverFault::Closed(_) => 206,
            HandoverFault::Memory => 299,
        }
    }

    /// Returns the message of the fault.
    pub fn words(&self) -> &'static str
        ensures { result.now ≡ words_of self.now }
    {
        message_or_empty(u32::from(self.number()))
    }
}

/// A board whose handover was refused, unchanged, with the reason.
#[derive(Drop)]
pub struct Refused<B> {
    pub board: B,
    pub fault: HandoverFault,
}

/// Returns the first problem that an audit reports.
fn first_audit_problem(alloc: Global, host: &mut Host) -> Result<Option<Problem>, AllocError>
    ensures kept { host.new ≡ host.old }
    ensures first { IfOk result (λ p.
        option_map problem_of p ≡ slice_get (problems host.old.state.functions) 0) }
{
    let mut told = problems(alloc, host)?;
    if told.is_empty() {
        return Ok(None);
    }
    Ok(Some(told.remove(0)))
}

/// Returns the first reason to refuse a handover of the board. The board doesn't change.
pub(crate) fn find_handover_fault(
    alloc: Global,
    host: &mut Host,
    guests: &[GuestDecl],
) -> Option<HandoverFault>
    ensures kept { host.new ≡ host.old }
    ensures fault { IfSome result (IsFaultOf (world_on host.old guests.now) host.old) }
    ensures none { IfNone result (first_fault (world_on host.old guests.now) host.old.state
        ≡ None) }
{
    let Ok(first) = first_audit_problem(alloc, host) else {
        return Some(HandoverFault::Memory);
    };
    if let Some(problem) = first {
        return Some(HandoverFault::NotInOrder(problem));
    }
    let Ok(closed) = first_disabled_on_board(alloc, host, guests) else {
        return Some(HandoverFault::Memory);
    };
    match closed {
        Some(region) => Some(HandoverFault::Closed(region)),
        None => None,
    }
}
