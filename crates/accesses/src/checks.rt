//! Validation of accesses, and the reply to an access that no function claims.
ghost use Rattle.std.specs.Prelude.{◌≡◌, Option, [], None, option_map};
ghost use Rattle.model_registers.specs.ByteEnables.{IsWidth};
ghost use Rattle.model_guests.specs.{Slots.{place_number, is_out_of_range, access_fault, fault_of, perform}, HostReads.{host_number, is_out_of_host_range, host_fault}};
ghost use Rattle.accesses.specs.{Accesses.{access_of, op_of, target_of, host_target_of, host_access_of, reply_of}, Refusals.number_of, Replies.{IsRefusal, IsShown}};

use crate::access::{Access, At, HostAccess, HostAt, Reply};
use crate::refusal::Refusal;
use config_bytes::{Op, all_ones};

/// Returns the first failed check: the width is 1, 2 or 4, the offset, port or address is a
/// multiple of the width, and it is in range.
fn first_failed_check(width: u64, number: u64, is_out_of_range: bool) -> Option<Refusal>
    ensures { option_map number_of result ≡ access_fault width number is_out_of_range }
{
    // One arm for each width: a remainder by a constant compiles to a mask, by a variable to a slow
    // division.
    let remainder = match width {
        1 => number % 1,
        2 => number % 2,
        4 => number % 4,
        _ => return Some(Refusal::Width),
    };
    if remainder != 0 {
        Some(Refusal::Misaligned)
    } else if is_out_of_range {
        Some(Refusal::Range)
    } else {
        None
    }
}

impl At {
    /// Returns the offset, port or address, which must be a multiple of the access width.
    fn number(self) -> u64
        ensures { result ≡ place_number (target_of self) }
    {
        match self {
            At::Config { off, .. } => off,
            At::Io { port } => port,
            At::Mem { addr } => addr,
        }
    }

    /// Returns whether the slot is above 31, the offset above 255 or the port above FFFFFFFFh.
    fn is_out_of_range(self) -> bool
        ensures { result ≡ is_out_of_range (target_of self) }
    {
        match self {
            At::Config { slot, off } => slot > 31 || off > 255,
            At::Io { port } => port > 0xffff_ffff,
            At::Mem { .. } => false,
        }
    }
}

impl Access {
    /// Returns the first check that the access fails: 302 if its width is not 1, 2 or 4; 301 if its
    /// offset, port or address is not a multiple of the width; 303 if its slot is above 31, its
    /// offset above 255 or its port above FFFFFFFFh.
    pub fn fault(&self) -> Option<Refusal>
        ensures { option_map number_of result ≡ fault_of (access_of self.now) }
    {
        first_failed_check(self.width, self.at.number(), self.at.is_out_of_range())
    }
}

impl HostAt {
    fn number(self) -> u64
        ensures { result ≡ host_number (host_target_of self) }
    {
        match self {
            HostAt::Config { bdf: _, off } => off,
            HostAt::Io { port } => port,
            HostAt::Mem { addr } => addr,
        }
    }

    fn is_out_of_range(self) -> bool
        ensures { result ≡ is_out_of_host_range (host_target_of self) }
    {
        match self {
            HostAt::Config { bdf: _, off } => off > 255,
            HostAt::Io { port } => port > 0xffff_ffff,
            HostAt::Mem { .. } => false,
        }
    }
}

impl HostAccess {
    /// Returns the first check that the read fails: 302 if its width is not 1, 2 or 4; 301 if its
    /// offset, port or address is not a multiple of the width; 303 if its offset is above 255 or
    /// its port above FFFFFFFFh.
    pub fn fault(&self) -> Option<Refusal>
        ensures { option_map number_of result ≡ host_fault (host_access_of self.now) }
    {
        first_failed_check(self.width, self.at.number(), self.at.is_out_of_range())
    }
}

/// Returns the reply to an unclaimed access, as after a master abort: a read returns all ones, and
/// a write is dropped.
pub fn master_abort_reply(op: Op, width: u64) -> Reply
    requires { IsWidth width }
    ensures reply { reply_of result ≡ perform (op_of op) width [] None }
    ensures shown { IsShown result }
    ensures served { ¬ IsRefusal result }
{
    match op {
        Op::Read => Reply::Value(all_ones(width), width),
        Op::Write(_) => Reply::Done,
    }
}
