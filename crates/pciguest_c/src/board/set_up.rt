//! The call that runs the built-in set-up on a board at reset.
ghost use Rattle.std.specs.Prelude.{◌≡◌, Some};
ghost use Rattle.session.specs.Stages.{board_in};
ghost use Rattle.pciguest_c.specs.{Handles.{session_of, board_of}, Handovers.SetsUp};

use crate::handle::Handle;
use crate::values::numbers::{IN_USE, MEMORY, NO_MACHINE, NOT_AT_RESET};
use session::{Board, Session};
use std::alloc::Global;

/// Runs the built-in set-up on the board, and stores the resulting machine in an empty handle.
/// Returns 903 if the handle isn't empty, 904 if the board isn't at reset, 2xx if the board
/// can't be set up, or 299 if memory is exhausted.
fn set_up_into(alloc: Global, board: &Board, machine: &mut Handle) -> u32
    ensures { SetsUp (Some board.now) (session_of machine.old) (session_of machine.new) result }
{
    if machine.has_session() {
        return IN_USE;
    }
    if !board.is_at_reset() {
        return NOT_AT_RESET;
    }
    match board.set_up_copy(alloc) {
        Ok(monitor) => match Box::new(alloc, Session::from_monitor(alloc, monitor)) {
            Ok(session) => {
                *machine = Handle::of(session);
                0
            }
            Err(_) => MEMORY,
        },
        Err(fault) => u32::from(fault.number()),
    }
}

/// Runs the built-in set-up on the session's board, or returns 901 if firmware isn't driving a
/// board in the session.
fn set_up_session_board(alloc: Global, session: &mut Session, machine: &mut Handle) -> u32
    ensures made { let before = session_of machine.old in
        SetsUp (board_in session.old) before (session_of machine.new) result }
    ensures kept { session.new ≡ session.old }
{
    match session.board() {
        Some(board) => set_up_into(alloc, board, machine),
        None => NO_MACHINE,
    }
}

/// Runs the built-in set-up on a board at reset, and assigns its functions to the guests of its
/// file. The machine is the one that `pciguest_raw_new` makes from the same file. The board doesn't
/// change. Returns 2xx if the board can't be set up, 299 if memory is exhausted, 903 if the
/// machine's handle is already in use, or 904 if the board has been written to since reset.
#[unsafe(no_mangle)]
pub extern "C" fn pciguest_raw_set_up(
    alloc: Global,
    handle: &mut Handle,
    machine: &mut Handle,
) -> u32
    ensures made { let before = session_of machine.old in
        SetsUp (board_of handle.old) before (session_of machine.new) result }
    ensures kept { session_of handle.new ≡ session_of handle.old }
{
    let Some(mut session) = handle.take(alloc) else {
        return NO_MACHINE;
    };
    let number = set_up_session_board(alloc, &mut session, machine);
    *handle = Handle::of(session);
    number
}
