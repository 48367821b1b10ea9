//! The call that loads an image into a guest.
ghost use Rattle.std.specs.Prelude.{◌≡◌, ◌≢◌, ◌<◌, IfErr, IfOk, length};
ghost use Rattle.monitor.specs.{ByIndex.name_nth, Loads.IsLoaded};
ghost use Rattle.pciguest_c.specs.{Calls.AnswersLoad, ImagesTold.{load_number, load_asked}};

use crate::handle::Handle;
use crate::values::arguments::check_guest;
use crate::values::numbers::status_of_result;
use monitor::Monitor;
use std::alloc::Global;

/// Loads an image into a guest, or returns the error number.
#[tactic(auto, unfolding(crate::specs::ImagesTold::load_number))]
fn load_image(machine: &mut Monitor, guest: usize, image: &[u8]) -> Result<(), u32>
    requires { guest < length machine.old.world.guests }
    ensures fits { IfOk result (λ _. load_number machine.old.world guest image.now ≡ 0) }
    ensures fault { IfErr result (λ n. n ≡ load_number machine.old.world guest image.now) }
    ensures loaded { IfOk result (λ _.
        IsLoaded machine.old (name_nth machine.old.world guest) image.now machine.new) }
    ensures refused { IfErr result (λ n. (n ≢ 0) × (machine.new ≡ machine.old)) }
{
    match machine.load(guest, image) {
        None => Ok(()),
        Some(why) => Err(u32::from(why.number())),
    }
}

/// Loads an image into a guest, which then has the saved state. The guest's change count increases
/// by one. Returns 905 if the bytes aren't an image, 906 if the guest has different functions in
/// its slots, or 908 if the image has a different version of the format. The first byte that
/// doesn't fit determines the number. After an error, nothing has changed. No memory is allocated.
#[unsafe(no_mangle)]
pub extern "C" fn pciguest_raw_load(
    alloc: Global,
    handle: &mut Handle,
    guest: usize,
    image: &[u8],
) -> u32
    ensures { AnswersLoad (λ m. load_asked m guest image.now)
        (λ m n. IsLoaded m (name_nth m.world guest) image.now n) handle.old handle.new result }
{
    status_of_result(handle.with_machine(alloc, |machine| {
        check_guest(machine, guest)?;
        load_image(machine, guest, image)
    }))
}
