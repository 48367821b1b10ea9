//! The calls that create and free a board at reset.
ghost use Rattle.std.specs.Prelude.{◌≡◌, ◌≢◌, ◌≤◌, ◌<◌, None, IfSome, IfNone, IsSome};
ghost use Rattle.model_lines.specs.Sessions.{at_reset};
ghost use Rattle.session.specs.Files.{Declares, Refuses};
ghost use Rattle.pciguest_c.specs.Handles.{session_of, board_of};

use crate::handle::Handle;
use crate::values::numbers::{FILE_MEMORY, IN_USE};
use session::Session;
use std::alloc::Global;

/// Creates the board of a board file at reset, before any access by firmware. Returns 1xx if
/// the file is refused, 199 if memory is exhausted, or 903 if the handle is already in use.
#[unsafe(no_mangle)]
pub extern "C" fn pciguest_raw_board_new(alloc: Global, handle: &mut Handle, file: &[u8]) -> u32
    ensures made { result ≡ 0 → IsSome (board_of handle.new) }
    ensures declared { result ≡ 0 → IfSome (board_of handle.new) (λ b.
        Declares file.now b.world) }
    ensures reset { result ≡ 0 → IfSome (board_of handle.new) (λ b. b ≡ at_reset b.world) }
    ensures refused { result ≢ 0 → session_of handle.new ≡ session_of handle.old }
    ensures in_use { IfSome (session_of handle.old) (λ _. result ≡ 903) }
    ensures numbers { IfNone (session_of handle.old) (result ≤ 199) }
    ensures file { result ≢ 0 → result < 199 → Refuses file.now result }
{
    if handle.has_session() {
        return IN_USE;
    }
    match Session::open(alloc, file) {
        Ok(session) => match Box::new(alloc, session) {
            Ok(session) => {
                *handle = Handle::of(session);
                0
            }
            Err(_) => FILE_MEMORY,
        },
        Err(fault) => u32::from(fault.number()),
    }
}

/// Frees the board, or the machine if a line has handed the board over. The handle is then empty
/// and can be reused. Does nothing if the handle is already empty.
#[unsafe(no_mangle)]
pub extern "C" fn pciguest_raw_board_free(alloc: Global, handle: &mut Handle)
    ensures { session_of handle.new ≡ None }
{
    drop(handle.take(alloc));
}
