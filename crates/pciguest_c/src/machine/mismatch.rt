//! The call that locates the first byte of an image that doesn't fit a guest.
ghost use Rattle.std.specs.Prelude.{◌≡◌, ◌≢◌, ◌<◌, length};
ghost use Rattle.session.specs.Stages.{machine_in};
ghost use Rattle.board_told.specs.GuestFindings.{lone_asked};
ghost use Rattle.pciguest_c.specs.{Handles.{session_of, machine_of}, ImagesTold.{IsStop, TellsStop}};

use crate::handle::Handle;
use crate::values::arguments::check_guest;
use crate::values::numbers::NO_MACHINE;
use monitor::Monitor;
use session::Session;
use std::alloc::Global;

/// The slot number reported for an image with no mismatch in a slot.
const NO_SLOT: u64 = 32;

/// Stores the slot and the byte offset at which an image stops fitting the guest, if the image is
/// refused with 906 or 908. For any other image, stores slot 32 and the length of the image.
fn store_mismatch_or_end(
    machine: &Monitor,
    guest: usize,
    image: &[u8],
    slot: &mut u64,
    offset: &mut usize,
)
    requires { guest < length machine.now.world.guests }
    ensures { IsStop (lone_asked machine.now.world guest) image.now slot.new offset.new }
{
    match machine.image_stop(guest, image) {
        Some(stop) => {
            *slot = stop.slot as u64;
            *offset = stop.offset;
        }
        None => {
            *slot = NO_SLOT;
            *offset = image.len();
        }
    }
}

/// Locates the mismatch for a guest of the session's machine. Returns 901 if the session has no
/// machine, or 902 if there is no such guest.
fn store_mismatch_in_session(
    session: &mut Session,
    guest: usize,
    image: &[u8],
    slot: &mut u64,
    offset: &mut usize,
) -> u32
    ensures told { TellsStop (machine_in session.old) guest image.now slot.new offset.new result }
    ensures untold { result ≢ 0 → (slot.new ≡ slot.old) × (offset.new ≡ offset.old) }
    ensures kept { session.new ≡ session.old }
{
    let Some(machine) = session.monitor() else {
        return NO_MACHINE;
    };
    match check_guest(machine, guest) {
        Ok(()) => {
            store_mismatch_or_end(machine, guest, image, slot, offset);
            0
        }
        Err(number) => number,
    }
}

/// Stores the slot and the byte offset at which an image stops fitting a guest, if the guest
/// refuses it with 906 (different functions) or 908 (different version). For any other image,
/// stores slot 32 and the length of the image. Nothing changes, and no memory is allocated.
#[unsafe(no_mangle)]
pub extern "C" fn pciguest_raw_image_fault(
    alloc: Global,
    handle: &mut Handle,
    guest: usize,
    image: &[u8],
    slot: &mut u64,
    offset: &mut usize,
) -> u32
    ensures told { TellsStop (machine_of handle.old) guest image.now slot.new offset.new result }
    ensures untold { result ≢ 0 → (slot.new ≡ slot.old) × (offset.new ≡ offset.old) }
    ensures kept { session_of handle.new ≡ session_of handle.old }
{
    let Some(mut session) = handle.take(alloc) else {
        return NO_MACHINE;
    };
    let number = store_mismatch_in_session(&mut session, guest, image, slot, offset);
    *handle = Handle::of(session);
    number
}
