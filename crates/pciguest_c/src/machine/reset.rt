//! The calls that reset one function of a guest, or all of them, without moving them.
ghost use Rattle.std.specs.Prelude.{◌≡◌, ◌<◌, length};
ghost use Rattle.pciguest_c.specs.{Calls.{Answers, reset, reset_guest, nothing}, ImagesTold.after_restart};

use crate::handle::Handle;
use crate::values::arguments::check_guest;
use crate::values::numbers::{status_of_reply, status_of_result};
use monitor::Monitor;
use std::alloc::Global;

/// Resets the function in a guest's slot, and leaves it there. As in a move, no state is carried
/// over.
#[unsafe(no_mangle)]
pub extern "C" fn pciguest_raw_reset(
    alloc: Global,
    handle: &mut Handle,
    guest: usize,
    slot: u64,
) -> u32
    ensures { Answers (reset guest slot) handle.old handle.new result nothing nothing }
{
    status_of_reply(handle.with_machine(alloc, |machine| {
        check_guest(machine, guest)?;
        Ok(machine.reset(guest, slot))
    }))
}

/// Resets every function of a guest and its CONFIG_ADDRESS.
#[tactic(auto, unfolding(crate::specs::ImagesTold::after_restart))]
fn reset_guest_and_latch(machine: &mut Monitor, guest: usize)
    requires { guest < length machine.old.world.guests }
    ensures { machine.new ≡ after_restart machine.old guest }
{
    machine.reset_guest(guest);
}

/// Resets every function of a guest, each in its slot, and the guest's CONFIG_ADDRESS. No state is
/// carried over. The guest's change count increases by one, and no memory is allocated.
#[unsafe(no_mangle)]
pub extern "C" fn pciguest_raw_reset_guest(alloc: Global, handle: &mut Handle, guest: usize) -> u32
    ensures { Answers (reset_guest guest) handle.old handle.new result nothing nothing }
{
    status_of_result(handle.with_machine(alloc, |machine| {
        check_guest(machine, guest)?;
        reset_guest_and_latch(machine, guest);
        Ok(())
    }))
}
