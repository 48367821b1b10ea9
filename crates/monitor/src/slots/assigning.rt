//! Assignment of unassigned functions to guests, and its reverse.
ghost use Rattle.std.specs.Prelude.{◌≡◌, ◌<◌, length, IfErr};
ghost use Rattle.model_handoff.specs.{Giving.{give_fault, take_reply}, Actions.{gives, takes}, Changes.after_on_machine};
ghost use Rattle.accesses.specs.{Accesses.reply_of, Replies.{IsRefusal, IsShown}};
ghost use Rattle.monitor.specs.{ByIndex.name_nth, Seatings.{fault_told, gift_nth}};

use crate::access::config::function_or_refusal;
use crate::engine::Engine;
use crate::slots::assign_checks::try_new_assigned_function;
use crate::slots::assign_error::AssignError;
use crate::slots::moving::replace_guest_slot;
use accesses::Reply;
use host_bridge::Route;
use paths::Path;

impl<R: Route> Engine<R> {
    /// Assigns the unassigned function at a path to an empty slot of a guest, and resets it. On the
    /// board, the registers that guests have copies of aren't reset. Refuses with 303 if the slot
    /// is above 31, else with 303 if there is no endpoint at the path, else with 602 if the
    /// function is assigned already, else with 602 if the slot is occupied, else with 206 if one of
    /// the function's regions is disabled. A refusal changes nothing. Allocates no memory.
    pub fn assign(&mut self, path: &Path, guest: usize, slot: u64) -> Result<(), AssignError>
        requires { guest < length self.old.world.guests }
        ensures reply { fault_told result
            ≡ give_fault self.old.world (gift_nth self.old.world path.now guest slot) }
        ensures after { self.new
            ≡ after_on_machine self.old (gives (gift_nth self.old.world path.now guest slot)) }
        ensures refused { IfErr result (λ _. self.new ≡ self.old) }
    {
        let _ = &self.names;
        let held = match try_new_assigned_function(&self.host, &self.guests, path, guest, slot) {
            Ok(held) => held,
            Err(why) => return Err(why),
        };
        self.host.reset_except_routing_nth(held.index);
        let _empty = replace_guest_slot(&mut self.guests, guest, slot as usize, Some(held), true);
        Ok(())
    }

    /// Unassigns the function in a slot from its guest, and resets it on the board, except for the
    /// registers that guests have copies of. The slot is then empty. Refuses with 303 if the slot
    /// is above 31, else with 601 if it is empty. A refusal changes nothing. Allocates no memory.
    pub fn unassign(&mut self, guest: usize, slot: u64) -> Reply
        requires { guest < length self.old.world.guests }
        ensures reply { reply_of result
            ≡ take_reply self.old.world (name_nth self.old.world guest) slot }
        ensures after { self.new
            ≡ after_on_machine self.old (takes (name_nth self.old.world guest) slot) }
        ensures shown { IsShown result }
        ensures refused { IsRefusal result → self.new ≡ self.old }
    {
        let _ = &self.names;
        let index = match function_or_refusal(&self.guests[guest].slots, slot) {
            Ok(held) => held.index,
            Err(why) => return Reply::Refused(why),
        };
        self.host.reset_except_routing_nth(index);
        let _taken = replace_guest_slot(&mut self.guests, guest, slot as usize, None, true);
        Reply::Done
    }
}
