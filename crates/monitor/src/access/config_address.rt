//! The guests' CONFIG_ADDRESS registers.
ghost use Rattle.std.specs.Prelude.{◌≡◌, ◌<◌, Some, length, slice_get, slice_set};
ghost use Rattle.model_registers.specs.ConfigAddress.{latched};
ghost use Rattle.monitor.specs.declared.guest.Guest.{Guest};

use crate::guest::Guest;

/// Writes the four bytes of a guest's CONFIG_ADDRESS.
pub(crate) fn write_latch(guests: &mut [Guest], guest: usize, value: u32)
    requires { guest < length guests.old }
    ensures { (g : Guest) → slice_get guests.old guest ≡ Some g
        → guests.new ≡ slice_set guests.old guest (record g { latch = latched value }) }
{
    let guest = &mut guests[guest];
    guest.latch.write(value);
}
