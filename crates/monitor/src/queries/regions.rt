//! The regions of guests' functions, in the guests' own address spaces.
ghost use Rattle.std.specs.{Prelude.{◌≡◌, ◌≤◌, ◌<◌, ◌+◌, ℕ, length, option_map}, Result.result_map_both};
ghost use Rattle.model_registers.specs.{Registers.File, Declarations.registers_of, OwnCopies.{HoldsOwn, IsLawfulOwn}, Decoding.{Function, base, is_open}};
ghost use Rattle.model_board.specs.{Paths.Path, State.State};
ghost use Rattle.model_guests.specs.{Guests.lone_of, WorldNow.WorldNow};
ghost use Rattle.model_handoff.specs.GuestRegions.{is_prefetchable, region_now, region_at, region_answer};
ghost use Rattle.accesses.specs.Refusals.{number_of};
ghost use Rattle.bars.specs.Kinds.{kind_of, named_space};
ghost use Rattle.monitor.specs.{Keeping.IsHeld, ByIndex.{name_nth, lone_nth}, Queries.{IsGuestNth, region_named}};

use crate::access::config::function_or_refusal;
use crate::engine::Engine;
use crate::guest::{AssignedFunction, Guest};
use accesses::Refusal;
use bars::{Kind, Space};
use host_bridge::Route;

/// A region of a guest's function, according to the guest's own registers. It has `size` addresses
/// from `first` on, and is decoded there while Command enables its space.
#[derive(Clone, Copy, Debug, PartialEq, Eq)]
pub struct GuestRegion {
    pub space: Space,
    pub first: u64,
    pub size: u64,
    pub prefetchable: bool,
    pub is_open: bool,
}

/// Returns whether a region of this kind is prefetchable memory.
fn is_prefetchable(kind: Kind) -> bool
    ensures { result ≡ is_prefetchable (kind_of kind) }
{
    match kind {
        Kind::Io => false,
        Kind::Mem32 { pref } | Kind::Mem64 { pref } => pref,
    }
}

/// Returns the base address of a region according to the guest's copies of its BARs. `bar` is the
/// index of the region's first BAR, 0 to 5.
pub(crate) fn guest_bar_base(held: &AssignedFunction, bar: u16, kind: Kind) -> u64
    requires { bar < 6 }
    ensures { (file : File) → HoldsOwn file held.now.own →
        bar + registers_of (kind_of kind) ≤ 6
        → result ≡ base file bar (kind_of kind) }
{
    let at = 0x10 + 4 * bar;
    let (low, _) = held.own.config_read(at, 0b1111);
    match kind {
        Kind::Io => u64::from(low) / 4 * 4,
        Kind::Mem32 { pref: _ } => u64::from(low) / 16 * 16,
        Kind::Mem64 { pref: _ } => {
            let (high, _) = held.own.config_read(at + 4, 0b1111);
            (u64::from(low) + 0x1_0000_0000 * u64::from(high)) / 16 * 16
        }
    }
}

/// Returns whether the guest's Command enables decoding in a space.
pub(crate) fn guest_enables_space(held: &AssignedFunction, space: Space) -> bool
    ensures { (file : File) → HoldsOwn file held.now.own →
        result ≡ is_open file (named_space space) }
{
    let (command, _) = held.own.config_read(4, 0b0011);
    command & u32::from(space.command_bit()) != 0
}

/// Returns the region that begins at a base address register of a function in a slot.
fn guest_region_at_bar(held: &AssignedFunction, bar: usize) -> Option<GuestRegion>
    ensures { (s : State) (p : Path) (f : Function) → IsHeld s p f held.now
        → IsLawfulOwn held.now.own →
        option_map region_named result ≡ option_map (region_now f.file) (region_at f bar) }
{
    match held.placed.get(bar) {
        Some(Some(region)) => {
            let kind = region.decl.kind();
            let space = kind.space();
            Some(GuestRegion {
                space,
                first: guest_bar_base(held, bar as u16, kind),
                size: region.decl.size(),
                prefetchable: is_prefetchable(kind),
                is_open: guest_enables_space(held, space),
            })
        }
        Some(None) => None,
        None => None,
    }
}

/// Returns the region that begins at a base address register of the function in a slot, or the
/// reason for a refusal.
fn guest_region_or_refusal(guest: &Guest, slot: u64, bar: u64) -> Result<GuestRegion, Refusal>
    ensures { (w : WorldNow) (i : ℕ) → IsGuestNth w i guest.now
        → result_map_both region_named number_of result
        ≡ region_answer (lone_nth w i) slot bar }
{
    let held = match function_or_refusal(&guest.slots, slot) {
        Ok(held) => held,
        Err(why) => return Err(why),
    };
    match guest_region_at_bar(held, bar as usize) {
        Some(region) => Ok(region),
        None => Err(Refusal::Range),
    }
}

impl<R: Route> Engine<R> {
    /// Returns the region of a guest's function that begins at a base address register, as it is
    /// now in the guest's address space. Fails with 303 if the slot is above 31, else with 601 if
    /// it is empty, else with 303 if no region begins at the register. Allocates no memory.
    pub fn region(&self, guest: usize, slot: u64, bar: u64) -> Result<GuestRegion, Refusal>
        requires { guest < length self.now.world.guests }
        ensures { result_map_both region_named number_of result
            ≡ region_answer (lone_of self.now.world.guests
            (name_nth self.now.world guest)) slot bar }
    {
        guest_region_or_refusal(self.guest(guest), slot, bar)
    }
}
