//! The calls that count and describe the functions of a machine's board.
ghost use Rattle.std.specs.Prelude.{◌≡◌, IfErr, IfOk};
ghost use Rattle.model_lines.specs.Sessions.{given};
ghost use Rattle.pciguest_c.specs.{Calls.{Answers, function_count, function_at, function_in, number, a_function, telling_slot, tells, refusal}, FunctionsTold.function_told};
ghost use Rattle.monitor.specs.FunctionsTold.{function_named};

use crate::handle::Handle;
use crate::values::arguments::check_guest;
use crate::values::function_row::{FunctionTold, function_row};
use crate::values::interrupts::interrupt_of;
use crate::values::numbers::{ARGUMENT, store_result_if_ok};
use monitor::{LiveFunction, Monitor};
use std::alloc::Global;

/// Converts a function's description, including its interrupt pin, to its C struct.
fn function_row_with_interrupt(machine: &Monitor, function: &LiveFunction) -> FunctionTold
    ensures { result ≡ function_told machine.now.world (function_named function.now) }
{
    function_row(function, interrupt_of(machine, function))
}

/// Returns a description of the function in a guest's slot, or the error number.
#[tactic(auto, unfolding(crate::specs::Calls::telling_slot))]
fn function_row_in_slot(machine: &Monitor, guest: usize, slot: u64) -> Result<FunctionTold, u32>
    ensures told { IfOk result (λ f.
        telling_slot machine.now guest slot ≡ tells (a_function f) (given machine.now)) }
    ensures refused { IfErr result (λ n. telling_slot machine.now guest slot ≡ refusal n) }
{
    check_guest(machine, guest)?;
    match machine.slot_function(guest, slot) {
        Ok(function) => Ok(function_row_with_interrupt(machine, &function)),
        Err(number) => Err(u32::from(number)),
    }
}

/// Stores the number of functions on the board.
#[unsafe(no_mangle)]
pub extern "C" fn pciguest_raw_count(alloc: Global, handle: &mut Handle, count: &mut usize) -> u32
    ensures { Answers function_count handle.old handle.new result
        (number count.old) (number count.new) }
{
    store_result_if_ok(
        handle.with_machine(alloc, |machine| Ok(machine.count())),
        count,
    )
}

/// Stores a description of the function at an index, in path order. Returns 902 if there is no such
/// function.
#[unsafe(no_mangle)]
pub extern "C" fn pciguest_raw_function(
    alloc: Global,
    handle: &mut Handle,
    index: usize,
    told: &mut FunctionTold,
) -> u32
    ensures { Answers (function_at index) handle.old handle.new result
        (a_function told.old) (a_function told.new) }
{
    let answer = handle.with_machine(alloc, |machine| match machine.function(index) {
        Some(function) => Ok(function_row_with_interrupt(machine, &function)),
        None => Err(ARGUMENT),
    });
    store_result_if_ok(answer, told)
}

/// Stores a description of the function in a guest's slot.
#[unsafe(no_mangle)]
pub extern "C" fn pciguest_raw_slot(
    alloc: Global,
    handle: &mut Handle,
    guest: usize,
    slot: u64,
    told: &mut FunctionTold,
) -> u32
    ensures { Answers (function_in guest slot) handle.old handle.new result
        (a_function told.old) (a_function told.new) }
{
    let answer = handle.with_machine(alloc, |machine| function_row_in_slot(machine, guest, slot));
    store_result_if_ok(answer, told)
}
