//! The calls that assign functions to guests and unassign them.
ghost use Rattle.std.specs.Prelude.{◌≡◌, IfErr, IfOk};
ghost use Rattle.model_lines.specs.Sessions.{given};
ghost use Rattle.pciguest_c.specs.Calls.{Answers, give, take, giving, tells, refusal, nothing};

use crate::handle::Handle;
use crate::values::arguments::check_guest;
use crate::values::numbers::{status_of_reply, status_of_result};
use board_file::path::text::parse_path;
use monitor::{AssignError, Monitor};
use std::alloc::Global;

/// Assigns the function at a path to a guest, or returns the error number.
#[tactic(auto, unfolding(crate::specs::Calls::giving))]
fn assign_at_path(machine: &mut Monitor, path: &[u8], guest: usize, slot: u64) -> Result<(), u32>
    ensures given { IfOk result (λ _.
        giving machine.old path.now guest slot ≡ tells nothing (given machine.new)) }
    ensures refused { IfErr result (λ n. giving machine.old path.now guest slot ≡ refusal n) }
    ensures kept { IfErr result (λ _. machine.new ≡ machine.old) }
{
    check_guest(machine, guest)?;
    // A text that isn't a path is reported like a path without an endpoint.
    let Some(path) = parse_path(path) else {
        return Err(u32::from(AssignError::NoEndpoint.number()));
    };
    match machine.assign(&path, guest, slot) {
        Ok(()) => Ok(()),
        Err(why) => Err(u32::from(why.number())),
    }
}

/// Assigns the unassigned function at a path to an empty slot of a guest. The function is then at
/// reset, both in the slot and on the board.
#[unsafe(no_mangle)]
pub extern "C" fn pciguest_raw_give(
    alloc: Global,
    handle: &mut Handle,
    path: &[u8],
    guest: usize,
    slot: u64,
) -> u32
    ensures { Answers (give path.now guest slot) handle.old handle.new result nothing nothing }
{
    status_of_result(handle.with_machine(
        alloc,
        |machine| assign_at_path(machine, path, guest, slot),
    ))
}

/// Unassigns the function in a guest's slot. The slot is then empty, and the function is at reset
/// on the board.
#[unsafe(no_mangle)]
pub extern "C" fn pciguest_raw_take(
    alloc: Global,
    handle: &mut Handle,
    guest: usize,
    slot: u64,
) -> u32
    ensures { Answers (take guest slot) handle.old handle.new result nothing nothing }
{
    status_of_reply(handle.with_machine(alloc, |machine| {
        check_guest(machine, guest)?;
        Ok(machine.unassign(guest, slot))
    }))
}
