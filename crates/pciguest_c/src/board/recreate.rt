//! The call that recreates a machine's board at reset. The C wrapper of `pciguest_load_all` tries a
//! load on a second machine made from that board.
ghost use Rattle.std.specs.Prelude.{◌≡◌, Some};
ghost use Rattle.session.specs.Stages.{machine_in};
ghost use Rattle.pciguest_c.specs.{Handles.{session_of, machine_of}, Handovers.IsMadeAnew};

use crate::handle::Handle;
use crate::values::numbers::{IN_USE, MEMORY, NO_MACHINE};
use monitor::Monitor;
use session::{Board, Session};
use std::alloc::Global;

/// Recreates the machine's board at reset in an empty handle. Returns 903 if the handle isn't
/// empty, or 299 if memory is exhausted.
fn recreate_at_reset_into(alloc: Global, machine: &Monitor, board: &mut Handle) -> u32
    ensures { let before = session_of board.old in
        IsMadeAnew (Some machine.now) before (session_of board.new) result }
{
    if board.has_session() {
        return IN_USE;
    }
    let Ok(made) = Board::recreate_at_reset(alloc, machine) else {
        return MEMORY;
    };
    match Box::new(alloc, Session::from_board(alloc, made)) {
        Ok(session) => {
            *board = Handle::of(session);
            0
        }
        Err(_) => MEMORY,
    }
}

/// Recreates the board of the session's machine at reset, or returns 901 if the session has no
/// machine.
fn recreate_at_reset_in_session(alloc: Global, session: &mut Session, board: &mut Handle) -> u32
    ensures made { let before = session_of board.old in
        IsMadeAnew (machine_in session.old) before (session_of board.new) result }
    ensures kept { session.new ≡ session.old }
{
    match session.monitor() {
        Some(machine) => recreate_at_reset_into(alloc, machine, board),
        None => NO_MACHINE,
    }
}

/// Recreates the machine's board at reset, with guests of the same names and no functions assigned.
/// The machine doesn't change. Returns 299 if memory is exhausted, or 903 if the board's handle is
/// already in use.
#[unsafe(no_mangle)]
pub extern "C" fn pciguest_raw_board_anew(
    alloc: Global,
    handle: &mut Handle,
    board: &mut Handle,
) -> u32
    ensures made { let before = session_of board.old in
        IsMadeAnew (machine_of handle.old) before (session_of board.new) result }
    ensures kept { session_of handle.new ≡ session_of handle.old }
{
    let Some(mut session) = handle.take(alloc) else {
        return NO_MACHINE;
    };
    let number = recreate_at_reset_in_session(alloc, &mut session, board);
    *handle = Handle::of(session);
    number
}
