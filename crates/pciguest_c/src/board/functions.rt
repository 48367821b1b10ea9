//! The calls that count and describe the functions of a board driven by firmware.
ghost use Rattle.std.specs.Prelude.{◌≡◌};
ghost use Rattle.session.specs.DrivenFunctions.{driven_function_named};
ghost use Rattle.pciguest_c.specs.{DrivenTold.driven_row, Calls.{AnswersBoard, board_count, board_function, number, a_driven}};

use crate::handle::Handle;
use crate::values::function_row::{FunctionTold, function_row};
use crate::values::interrupts::NO_INTERRUPT;
use crate::values::numbers::{ARGUMENT, store_result_if_ok};
use session::DrivenFunction;
use std::alloc::Global;

/// A function of a board driven by firmware, in the layout of the C struct. It isn't assigned to a
/// guest.
#[repr(C)]
#[derive(Clone, Copy)]
pub struct DrivenRow {
    pub function: FunctionTold,
    pub is_found: u32,
    pub opens_io: u32,
    pub opens_memory: u32,
    pub reserved: [u64; 4],
}

/// Converts a function's description to its C struct.
fn driven_row(function: &DrivenFunction) -> DrivenRow
    ensures { result ≡ driven_row (driven_function_named function.now) }
{
    DrivenRow {
        function: function_row(&function.function, NO_INTERRUPT),
        is_found: u32::from(function.is_found),
        opens_io: u32::from(function.opens_io),
        opens_memory: u32::from(function.opens_memory),
        reserved: [0; 4],
    }
}

/// Stores the number of functions on the board.
#[unsafe(no_mangle)]
pub extern "C" fn pciguest_raw_board_count(
    alloc: Global,
    handle: &mut Handle,
    count: &mut usize,
) -> u32
    ensures { AnswersBoard board_count handle.old handle.new result
        (number count.old) (number count.new) }
{
    store_result_if_ok(
        handle.with_board(alloc, |board| Ok(board.function_count())),
        count,
    )
}

/// Stores a description of the function at an index, in path order, according to the current
/// registers. Returns 902 if there is no such function.
#[unsafe(no_mangle)]
pub extern "C" fn pciguest_raw_board_function(
    alloc: Global,
    handle: &mut Handle,
    index: usize,
    told: &mut DrivenRow,
) -> u32
    ensures { AnswersBoard (board_function index) handle.old handle.new result
        (a_driven told.old) (a_driven told.new) }
{
    let answer = handle.with_board(alloc, |board| match board.function(index) {
        Some(function) => Ok(driven_row(&function)),
        None => Err(ARGUMENT),
    });
    store_result_if_ok(answer, told)
}
