//! Device-side reads and writes of a function's registers.
ghost use Rattle.std.specs.Prelude.{◌≡◌, ◌<◌, IfErr, IfOk, IsTrue, is_some, length};
ghost use Rattle.model_registers.specs.{Decoding.Function, DeviceBytes.is_device_byte};
ghost use Rattle.model_board.specs.{Paths.Path, State.State};
ghost use Rattle.model_guests.specs.{Guests.lone_of, DeviceEvents.{device_answer, device_place, device_reads, device_writes}, Calls.at_device};
ghost use Rattle.model_handoff.specs.{Actions.calls, Changes.after_on_machine};
ghost use Rattle.headers.specs.Places.{place_of};
ghost use Rattle.accesses.specs.{Accesses.{part_of, reply_of}, Refusals.number_of, Replies.{IsRefusal, IsShown}};
ghost use Rattle.monitor.specs.{ByIndex.name_nth, Keeping.IsHeld, DeviceBytes.{Reaches, Refuses, device_byte}};

use crate::access::config::function_or_refusal;
use crate::device::raise::has_byte_at;
use crate::engine::Engine;
use crate::guest::AssignedFunction;
use accesses::{Place, Refusal, Reply};
use host_bridge::Route;

/// Returns whether a byte belongs to the device: Status, the Capabilities Pointer, a configuration
/// register from 40h on, or a byte of a region.
fn is_device_byte(place: Place, off: u64) -> bool
    ensures { result ≡ is_device_byte (place_of place off) }
{
    match place {
        Place::Cfg => off == 0x06 || off == 0x07 || off == 0x34 || off >= 0x40,
        Place::Bar(_) => true,
    }
}

/// Returns whether the byte exists in the function and belongs to its device.
fn has_device_byte_at(held: &AssignedFunction, place: Place, off: u64) -> bool
    ensures place { (s : State) (p : Path) (f : Function) → IsHeld s p f held.now
        → result ≡ is_some (device_place f (part_of place) off) }
    ensures own { IsTrue result → IsTrue (is_device_byte (place_of place off)) }
{
    has_byte_at(held, place, off) && is_device_byte(place, off)
}

/// Returns the index of the function in a slot if the byte belongs to its device, or the reason for
/// a refusal.
fn index_for_device_byte(
    slots: &[Option<AssignedFunction>],
    slot: u64,
    place: Place,
    off: u64,
) -> Result<usize, Refusal>
    ensures index { IfOk result (λ i. Reaches slots.now slot place off i) }
    ensures refused { IfErr result (λ why. Refuses slots.now slot place off (number_of why)) }
{
    let held = match function_or_refusal(slots, slot) {
        Ok(held) => held,
        Err(why) => return Err(why),
    };
    if !has_device_byte_at(held, place, off) {
        return Err(Refusal::Range);
    }
    Ok(held.index)
}

impl<R: Route> Engine<R> {
    /// Returns a byte of a guest's function as its device reads it. An undeclared byte reads as 0.
    /// Refuses with 303 if the slot is above 31, else with 601 if it is empty, else with 303 for a
    /// configuration offset that is neither 6, 7, 34h nor 40h to FFh, a base address register at
    /// which no region begins, or an offset that is not below the region's size. Changes nothing,
    /// and allocates no memory.
    pub fn device_read(&mut self, guest: usize, slot: u64, place: Place, off: u64) -> Reply
        requires { guest < length self.old.world.guests }
        ensures reply { let e = device_reads (device_byte slot place off) in
            reply_of result
            ≡ device_answer (lone_of self.old.world.guests (name_nth self.old.world guest)) e }
        ensures after { let e = device_reads (device_byte slot place off) in
            self.new ≡ after_on_machine self.old
            (calls (at_device (name_nth self.old.world guest) e)) }
        ensures same { self.new ≡ self.old }
        ensures shown { IsShown result }
    {
        let _ = &self.names;
        match index_for_device_byte(&self.guests[guest].slots, slot, place, off) {
            Ok(index) => {
                let value = self.host.device_byte_or_zero_nth(index, place, off);
                Reply::Value(u32::from(value), 1)
            }
            Err(why) => Reply::Refused(why),
        }
    }

    /// Sets a byte of a guest's function as its device does. The byte's masks don't limit the
    /// value, and don't change. An undeclared byte isn't changed. Refuses in the same cases as
    /// `device_read`, with the same numbers. A refusal changes nothing. Allocates no memory.
    pub fn device_write(
        &mut self,
        guest: usize,
        slot: u64,
        place: Place,
        off: u64,
        value: u8,
    ) -> Reply
        requires { guest < length self.old.world.guests }
        ensures reply { let e = device_writes (device_byte slot place off) value in
            reply_of result
            ≡ device_answer (lone_of self.old.world.guests (name_nth self.old.world guest)) e }
        ensures after { let e = device_writes (device_byte slot place off) value in
            self.new ≡ after_on_machine self.old
            (calls (at_device (name_nth self.old.world guest) e)) }
        ensures shown { IsShown result }
        ensures refused { IsRefusal result → self.new ≡ self.old }
    {
        let _ = &self.names;
        match index_for_device_byte(&self.guests[guest].slots, slot, place, off) {
            Ok(index) => {
                self.host.set_device_byte_nth(index, place, off, value);
                Reply::Done
            }
            Err(why) => Reply::Refused(why),
        }
    }
}
