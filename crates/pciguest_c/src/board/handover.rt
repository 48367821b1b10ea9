//! The call that assigns a board's functions to the guests of its file, with the registers as
//! firmware left them.
ghost use Rattle.std.specs.Prelude.{◌≡◌, ◌≢◌, None, Some, IfNone, IfSome};
ghost use Rattle.model_lines.specs.{GivenLaws.IsGiven, Sessions.handed_over};
ghost use Rattle.pciguest_c.specs.{Handles.{session_of, machine_of, board_of}, Handovers.IsNumberOfRefusal};

use crate::handle::Handle;
use crate::values::numbers::{IN_USE, NO_MACHINE};
use std::alloc::Global;

/// Assigns the functions of a board to the guests of its file, with the board's registers as they
/// are now, and moves the resulting machine to its handle. If a line has already handed the board
/// over, the machine is moved unchanged. The board's handle is then empty. Returns 901 if there is
/// no board, 903 if the machine's handle is already in use, 207 if the audit finds a problem, 206
/// if a BAR of an assigned function is disabled, or 299 if memory is exhausted. After an error,
/// both handles are unchanged.
#[unsafe(no_mangle)]
pub extern "C" fn pciguest_raw_board_guests(
    alloc: Global,
    handle: &mut Handle,
    machine: &mut Handle,
) -> u32
    ensures none { IfNone (session_of handle.old) (result ≡ 901) }
    ensures in_use { IfSome (session_of handle.old) (λ _.
        IfSome (session_of machine.old) (λ _. result ≡ 903)) }
    ensures made { IfSome (board_of handle.old) (λ b. result ≡ 0 →
        machine_of machine.new ≡ Some (handed_over b)) }
    ensures given { IfSome (board_of handle.old) (λ b. result ≡ 0 →
        IsGiven b.world b.state (handed_over b).world) }
    ensures faults { IfSome (board_of handle.old) (λ b. IfNone (session_of machine.old)
        (result ≢ 0 → IsNumberOfRefusal b result)) }
    ensures moved { IfSome (machine_of handle.old) (λ m. IfNone (session_of machine.old)
        ((result ≡ 0) × (machine_of machine.new ≡ Some m))) }
    ensures taken { result ≡ 0 → session_of handle.new ≡ None }
    ensures kept { result ≢ 0 → session_of handle.new ≡ session_of handle.old }
    ensures refused { result ≢ 0 → session_of machine.new ≡ session_of machine.old }
{
    let Some(mut session) = handle.take(alloc) else {
        return NO_MACHINE;
    };
    if machine.has_session() {
        *handle = Handle::of(session);
        return IN_USE;
    }
    match session.hand_over(alloc) {
        Ok(()) => {
            *machine = Handle::of(session);
            0
        }
        Err(fault) => {
            *handle = Handle::of(session);
            u32::from(fault.number())
        }
    }
}
