//! Guests' change counts. A guest's count grows whenever a region of its functions may have been
//! moved, enabled or disabled.
ghost use Rattle.std.specs.Prelude.{◌≡◌, ◌<◌, Some, length, slice_get};
ghost use Rattle.model_registers.specs.{ByteEnables.IsWidth, Registers.config};
ghost use Rattle.model_handoff.specs.{StayLaws.any_tells, Changes.after_change};

use crate::engine::Engine;
use host_bridge::Route;

/// Returns whether an access of `width` bytes at a configuration offset includes a byte of Command
/// or of a base address register.
pub(crate) fn touches_command_or_bars(offset: u64, width: u64) -> bool
    requires { IsWidth width }
    ensures { result ≡ any_tells width (config offset) }
{
    (offset < 0x06 && offset + width > 0x04) || (offset < 0x28 && offset + width > 0x10)
}

/// Returns the change count, increased by one if `changes` is set. It wraps from 2^64 - 1 to 0.
pub(crate) fn increment_if(count: u64, changes: bool) -> u64
    ensures { result ≡ after_change changes count }
{
    if changes {
        count.wrapping_add(1)
    } else {
        count
    }
}

impl<R: Route> Engine<R> {
    /// Returns how often a region in one of the guest's slots may have changed, through an access
    /// of the guest, a move, a load, an assignment, an unassignment, or a reset of a function or of
    /// the guest. While the count stays the same, `region` returns the same results for the guest.
    /// It wraps from 2^64 - 1 to 0.
    pub fn changed(&self, guest: usize) -> u64
        requires { guest < length self.now.world.guests }
        ensures { slice_get self.now.counts guest ≡ Some result }
    {
        let _ = &self.names;
        self.guests[guest].changed
    }
}
