//! The call that saves a guest as an image.
ghost use Rattle.std.specs.Prelude.{◌≡◌, ◌<◌, Some, IfSome, length};
ghost use Rattle.session.specs.Stages.{machine_in};
ghost use Rattle.pciguest_c.specs.{Handles.machine_of, Calls.{Answers, IsAnswer, answer, save, buffer}, ImagesTold.{image_asked, IsTakenAsSaved}, TextsTold.IsTold};

use crate::handle::Handle;
use crate::values::arguments::check_guest;
use crate::values::numbers::{ARGUMENT, NO_MACHINE};
use monitor::Monitor;
use session::Session;
use std::alloc::Global;

/// Writes the guest's image to the front of a buffer if it fits, and stores the length of the
/// image.
#[tactic(auto, unfolding(crate::specs::ImagesTold::IsTakenAsSaved))]
fn save(machine: &Monitor, guest: usize, out: &mut [u8], needed: &mut usize) -> u32
    requires { guest < length machine.now.world.guests }
    ensures image { IsTold (image_asked machine.now.world guest) out.old out.new result }
    ensures needed { needed.new ≡ length (image_asked machine.now.world guest) }
    ensures taken { result ≡ 0 → IsTakenAsSaved machine.now guest }
{
    let size = machine.image_size(guest);
    *needed = size;
    if out.len() < size {
        return ARGUMENT;
    }
    machine.save(guest, out);
    0
}

/// Saves a guest of the session's machine. Returns 901 if the session has no machine, or 902 if
/// there is no such guest.
fn save_in_session(session: &mut Session, guest: usize, out: &mut [u8], needed: &mut usize) -> u32
    ensures saved { IsAnswer (answer (save guest) (Some session.old) (buffer out.old needed.old))
        (Some session.new) result (buffer out.new needed.new) }
    ensures taken { IfSome (machine_in session.old) (λ m.
        result ≡ 0 → IsTakenAsSaved m guest) }
{
    let Some(machine) = session.monitor() else {
        return NO_MACHINE;
    };
    match check_guest(machine, guest) {
        Ok(()) => save(machine, guest, out, needed),
        Err(number) => number,
    }
}

/// Saves a guest: writes its image to the front of `out`, and stores the length of the image even
/// if `out` is too small. Nothing else changes, and no memory is allocated.
#[unsafe(no_mangle)]
pub extern "C" fn pciguest_raw_save(
    alloc: Global,
    handle: &mut Handle,
    guest: usize,
    out: &mut [u8],
    needed: &mut usize,
) -> u32
    ensures saved { Answers (save guest) handle.old handle.new result
        (buffer out.old needed.old) (buffer out.new needed.new) }
    ensures taken { IfSome (machine_of handle.old) (λ m.
        result ≡ 0 → IsTakenAsSaved m guest) }
{
    let Some(mut session) = handle.take(alloc) else {
        return NO_MACHINE;
    };
    let number = save_in_session(&mut session, guest, out, needed);
    *handle = Handle::of(session);
    number
}
