//! The registers that each guest has for itself: its CONFIG_ADDRESS, and its copies of Command and
//! the base address registers of the function in each slot.
ghost use Rattle.std.specs.Prelude.{◌≡◌, ◌<◌, ℕ, length, option_map};
ghost use Rattle.model_registers.specs.{Registers.File, OwnCopies.{HoldsOwn, IsLawfulOwn}, Decoding.{Function, command_word}};
ghost use Rattle.model_board.specs.{Paths.Path, State.State};
ghost use Rattle.model_guests.specs.{Slots.slot_at, Guests.lone_of, WorldNow.WorldNow};
ghost use Rattle.monitor.specs.{Keeping.IsHeld, ByIndex.{name_nth, lone_nth}, Queries.IsGuestNth, OwnTold.{own_now, own_told, standing}};
ghost use Rattle.bars.specs.Slots as bars;

use crate::access::config::function_in_slot;
use crate::engine::Engine;
use crate::guest::{AssignedFunction, Guest};
use crate::queries::regions::guest_bar_base;
use bars::BarWithBase;
use guest_functions::Latch;
use host_bridge::Route;

/// Command and the base address registers of a function, from the guest's copies.
#[derive(Clone, Copy, Debug)]
pub struct OwnRegisters {
    pub command: u16,
    /// The regions with their bases, each at the index of its first base address register.
    pub regions: [Option<BarWithBase>; 6],
}

/// Returns the guest's Command.
fn guest_command(held: &AssignedFunction) -> u16
    ensures { (file : File) → HoldsOwn file held.now.own → result ≡ command_word file }
{
    let (command, _) = held.own.config_read(4, 0b0011);
    command as u16
}

/// Returns the region that begins at a base address register, with the base from the guest's
/// copies.
fn bar_with_guest_base(held: &AssignedFunction, bar: usize) -> Option<BarWithBase>
    ensures told { (s : State) (p : Path) (f : Function) → IsHeld s p f held.now
        → IsLawfulOwn held.now.own →
        result ≡ option_map (standing f.file bar) (bars.slot_at held.now.placed bar) }
    ensures six { length held.now.placed ≡ 6 }
{
    match held.placed.get(bar) {
        Some(Some(region)) => {
            let kind = region.decl.kind();
            Some(BarWithBase {
                decl: region.decl,
                base: guest_bar_base(held, bar as u16, kind),
            })
        }
        Some(None) => None,
        None => None,
    }
}

/// Returns the guest's copies of a function's registers.
fn own_registers_of_function(held: &AssignedFunction) -> OwnRegisters
    ensures { (s : State) (p : Path) (f : Function) → IsHeld s p f held.now
        → IsLawfulOwn held.now.own → own_told result ≡ own_now f }
{
    OwnRegisters {
        command: guest_command(held),
        regions: [
            bar_with_guest_base(held, 0),
            bar_with_guest_base(held, 1),
            bar_with_guest_base(held, 2),
            bar_with_guest_base(held, 3),
            bar_with_guest_base(held, 4),
            bar_with_guest_base(held, 5),
        ],
    }
}

/// Returns the guest's copies for the function in a slot, or None if the slot is empty.
fn own_registers_in_slot(guest: &Guest, slot: usize) -> Option<OwnRegisters>
    ensures { (w : WorldNow) (i : ℕ) → IsGuestNth w i guest.now
        → option_map own_told result ≡ option_map own_now (slot_at (lone_nth w i).slots slot) }
{
    match function_in_slot(&guest.slots, slot) {
        Some(held) => Some(own_registers_of_function(held)),
        None => None,
    }
}

/// Returns how many slots a guest has.
fn slot_count(guest: &Guest) -> usize
    ensures { (w : WorldNow) (i : ℕ) → IsGuestNth w i guest.now
        → result ≡ length (lone_nth w i).slots }
{
    guest.slots.len()
}

impl<R: Route> Engine<R> {
    /// Returns a guest's CONFIG_ADDRESS.
    pub fn latch(&self, guest: usize) -> Latch
        requires { guest < length self.now.world.guests }
        ensures { result ≡ (lone_of self.now.world.guests (name_nth self.now.world guest)).latch }
    {
        self.guest(guest).latch
    }

    /// Returns how many slots a guest has.
    pub fn slots(&self, guest: usize) -> usize
        requires { guest < length self.now.world.guests }
        ensures { result
            ≡ length (lone_of self.now.world.guests (name_nth self.now.world guest)).slots }
    {
        slot_count(self.guest(guest))
    }

    /// Returns the guest's Command and base address registers for the function in a slot, or None
    /// for an empty slot and past the last slot. Allocates no memory.
    pub fn own_registers(&self, guest: usize, slot: usize) -> Option<OwnRegisters>
        requires { guest < length self.now.world.guests }
        ensures { let g = lone_of self.now.world.guests (name_nth self.now.world guest) in
            option_map own_told result ≡ option_map own_now (slot_at g.slots slot) }
    {
        own_registers_in_slot(self.guest(guest), slot)
    }
}
