//! The reset of one function in its slot.
ghost use Rattle.std.specs.Prelude.{◌≡◌, ◌<◌, length};
ghost use Rattle.model_guests.specs.{Guests.lone_of, DeviceEvents.{resets, device_answer}, Calls.at_device};
ghost use Rattle.model_handoff.specs.{Actions.calls, Changes.after_on_machine};
ghost use Rattle.accesses.specs.{Accesses.reply_of, Replies.{IsRefusal, IsShown}};
ghost use Rattle.monitor.specs.ByIndex.{name_nth};

use crate::access::config::function_or_refusal;
use crate::engine::Engine;
use crate::slots::moving::move_and_reset;
use accesses::Reply;
use host_bridge::Route;

impl<R: Route> Engine<R> {
    /// Resets all registers of the function in a guest's slot. Refuses with 303 if the slot is
    /// above 31, else with 601 if it is empty. A refusal changes nothing. Allocates no memory.
    pub fn reset(&mut self, guest: usize, slot: u64) -> Reply
        requires { guest < length self.old.world.guests }
        ensures reply { reply_of result
            ≡ device_answer (lone_of self.old.world.guests (name_nth self.old.world guest))
            (resets slot) }
        ensures after { self.new
            ≡ after_on_machine self.old
            (calls (at_device (name_nth self.old.world guest) (resets slot))) }
        ensures shown { IsShown result }
        ensures refused { IsRefusal result → self.new ≡ self.old }
    {
        let _ = &self.names;
        match function_or_refusal(&self.guests[guest].slots, slot) {
            Ok(_) => {
                let slot = slot as usize;
                move_and_reset(&mut self.host, &mut self.guests, guest, slot, guest, slot);
                Reply::Done
            }
            Err(why) => Reply::Refused(why),
        }
    }
}
