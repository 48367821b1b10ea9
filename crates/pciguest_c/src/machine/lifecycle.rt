//! The calls that create and free a machine.
ghost use Rattle.std.specs.Prelude.{◌≡◌, ◌≢◌, ◌≤◌, ◌<◌, None, IfSome, IfNone, IsSome};
ghost use Rattle.model_handoff.specs.Changes.{BeginsIn};
ghost use Rattle.session.specs.Files.{Refuses, Breaks, IsOpened};
ghost use Rattle.pciguest_c.specs.Handles.{session_of, machine_of};

use crate::handle::Handle;
use crate::values::numbers::{IN_USE, MEMORY};
use session::{Session, set_up_file_and_assign};
use std::alloc::Global;

/// Sets up the board of a board file, and assigns its functions to the guests of the file. Returns
/// 1xx if the file is refused, 2xx if the board can't be set up, 199 or 299 if memory
/// is exhausted, or 903 if the handle is already in use.
#[unsafe(no_mangle)]
pub extern "C" fn pciguest_raw_new(alloc: Global, handle: &mut Handle, board: &[u8]) -> u32
    ensures made { result ≡ 0 → IsSome (machine_of handle.new) }
    ensures begins { result ≡ 0 →
        IfSome (machine_of handle.new) (BeginsIn (IsOpened board.now)) }
    ensures refused { result ≢ 0 → session_of handle.new ≡ session_of handle.old }
    ensures in_use { IfSome (session_of handle.old) (λ _. result ≡ 903) }
    ensures numbers { IfNone (session_of handle.old) (result ≤ 299) }
    ensures file { result ≢ 0 → result < 199 → Refuses board.now result }
    ensures placement { 199 < result → result < 299 → Breaks board.now result }
{
    if handle.has_session() {
        return IN_USE;
    }
    match set_up_file_and_assign(alloc, board) {
        Ok(monitor) => match Box::new(alloc, Session::from_monitor(alloc, monitor)) {
            Ok(session) => {
                *handle = Handle::of(session);
                0
            }
            Err(_) => MEMORY,
        },
        Err(fault) => u32::from(fault.number()),
    }
}

/// Frees the machine. The handle is then empty and can be reused. Does nothing if the handle is
/// already empty.
#[unsafe(no_mangle)]
pub extern "C" fn pciguest_raw_free(alloc: Global, handle: &mut Handle)
    ensures { session_of handle.new ≡ None }
{
    drop(handle.take(alloc));
}
