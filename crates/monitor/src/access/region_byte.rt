//! A guest's access to one byte of a region, addressed by slot and base address register.
ghost use Rattle.std.specs.Prelude.{◌≡◌, ◌<◌, length};
ghost use Rattle.model_registers.specs.{OwnCopies.IsLawfulOwn, Decoding.Function};
ghost use Rattle.model_board.specs.{Paths.Path, State.State};
ghost use Rattle.model_guests.specs.Accesses.{reads};
ghost use Rattle.model_handoff.specs.RegionBytes.{byte_reply, opening, register_of};
ghost use Rattle.accesses.specs.{Accesses.{op_of, part_of, reply_of}, Replies.{IsRefusal, IsShown}};
ghost use Rattle.monitor.specs.{Keeping.IsHeld, ByIndex.lone_nth, Counts.after_byte_nth, DeviceBytes.device_byte};

use crate::access::config::function_or_refusal;
use crate::engine::Engine;
use crate::guest::AssignedFunction;
use crate::queries::regions::guest_enables_space;
use accesses::{Op, Place, Refusal, Reply, master_abort_reply};
use host_bridge::{BarOffset, Route};

/// Returns whether the guest's Command enables the region that contains this byte, or None if no
/// region contains it.
fn command_enables_region_byte(held: &AssignedFunction, place: Place, off: u64) -> Option<bool>
    ensures { (s : State) (p : Path) (f : Function) → IsHeld s p f held.now
        → IsLawfulOwn held.now.own → result ≡ opening f (part_of place) off }
{
    let Place::Bar(register) = place else {
        return None;
    };
    match held.placed.get(usize::from(register)) {
        Some(Some(region)) => {
            let size = region.decl.size();
            if off < size {
                Some(guest_enables_space(held, region.decl.kind().space()))
            } else {
                None
            }
        }
        Some(None) => None,
        None => None,
    }
}

/// Converts a base address register of a function and an offset in its region to a location on the
/// board.
fn function_bar_to_board(held: &AssignedFunction, place: Place, off: u64) -> BarOffset
    ensures { result
        ≡ record { index = held.now.index; region = register_of (part_of place); offset = off } }
{
    let region = match place {
        Place::Bar(register) => register,
        Place::Cfg => 0,
    };
    BarOffset {
        index: held.index,
        region,
        offset: off,
    }
}

impl<R: Route> Engine<R> {
    /// Reads or writes one byte of a region of a guest's function, as the guest does through the
    /// byte's address. While Command disables the region, a read returns all ones and a write is
    /// dropped. Each byte can be reached, even if the guest's regions overlap. Refuses with 303 if
    /// the slot is above 31, else with 601 if it is empty, else with 303 for a place that isn't a
    /// region, or an offset that is not below its size. A refusal changes nothing. Allocates no
    /// memory.
    pub fn region_byte(&mut self, guest: usize, slot: u64, place: Place, off: u64, op: Op) -> Reply
        requires { guest < length self.old.world.guests }
        ensures reply { reply_of result
            ≡ byte_reply (lone_nth self.old.world guest) (op_of op) (device_byte slot place off) }
        ensures after { self.new
            ≡ after_byte_nth guest (op_of op) (device_byte slot place off) self.old }
        ensures read { op_of op ≡ reads → self.new ≡ self.old }
        ensures shown { IsShown result }
        ensures refused { IsRefusal result → self.new ≡ self.old }
    {
        let held = match function_or_refusal(&self.guests[guest].slots, slot) {
            Ok(held) => held,
            Err(why) => return Reply::Refused(why),
        };
        let Some(opened) = command_enables_region_byte(held, place, off) else {
            return Reply::Refused(Refusal::Range);
        };
        if !opened {
            return master_abort_reply(op, 1);
        }
        let at = function_bar_to_board(held, place, off);
        match op {
            Op::Read => {
                let value = self.host.region_read(at, 1);
                Reply::Value(value, 1)
            }
            Op::Write(value) => {
                self.host.region_write(at, 1, value);
                Reply::Done
            }
        }
    }
}
