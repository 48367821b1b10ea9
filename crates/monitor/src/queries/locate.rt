//! The byte that a guest's access reaches.
ghost use Rattle.std.specs.{Prelude.{◌≡◌, ◌<◌, ℕ, List, Option, length, option_map}, Result.result_map_both};
ghost use Rattle.model_board.specs.{Paths.Path, State.State};
ghost use Rattle.model_guests.specs.{Accesses.configuration, Slots.{Slots, landing, landing_from}, Guests.lone_of, WorldNow.WorldNow};
ghost use Rattle.model_handoff.specs.Located.{located, location};
ghost use Rattle.bars.specs.Kinds.{named_space};
ghost use Rattle.accesses.specs.{Accesses.target_of, Refusals.number_of};
ghost use Rattle.monitor.specs.{Keeping.AreSlots, ByIndex.{name_nth, lone_nth}, Queries.{IsGuestNth, hit_named}};

use crate::access::config::function_in_slot;
use crate::access::decode::decode_address;
use crate::engine::Engine;
use crate::guest::{AssignedFunction, Guest};
use accesses::{Access, At, Op, Place, Refusal};
use bars::Space;
use guest_functions::Select;
use host_bridge::Route;

/// A byte of a function in a guest's slot: an offset in its configuration space, or in the region
/// that begins at a base address register.
#[derive(Clone, Copy, Debug, PartialEq, Eq)]
pub struct DecodedByte {
    pub slot: usize,
    pub place: Place,
    pub offset: u64,
}

/// Returns the byte of a region that an address decodes to.
fn decode_region_byte(
    slots: &[Option<AssignedFunction>],
    space: Space,
    addr: u64,
) -> Option<DecodedByte>
    ensures { (s : State) (qs : List (Option Path)) (fs : Slots) → AreSlots s qs fs slots.now
        → option_map hit_named result ≡ landing_from 0 (named_space space) addr fs }
{
    let (slot, region, offset) = decode_address(slots, space, addr)?;
    Some(DecodedByte {
        slot,
        place: Place::Bar(region),
        offset,
    })
}

/// Returns the byte of configuration space at an offset, if there is a function in the slot.
fn decode_config_byte(
    slots: &[Option<AssignedFunction>],
    slot: usize,
    offset: u64,
) -> Option<DecodedByte>
    ensures { (s : State) (qs : List (Option Path)) (fs : Slots) → AreSlots s qs fs slots.now
        → option_map hit_named result ≡ landing fs (configuration slot offset) }
{
    match function_in_slot(slots, slot) {
        Some(_) => Some(DecodedByte {
            slot,
            place: Place::Cfg,
            offset,
        }),
        None => None,
    }
}

/// Returns the byte that a one-byte access reaches.
fn decode_byte(guest: &Guest, at: At) -> Option<DecodedByte>
    ensures { (w : WorldNow) (i : ℕ) → IsGuestNth w i guest.now
        → option_map hit_named result ≡ located (lone_nth w i) (target_of at) }
{
    match at {
        At::Config { slot, off } => decode_config_byte(&guest.slots, slot as usize, off),
        At::Io { port } => match guest.latch.select(port) {
            Select::Ordinary => decode_region_byte(&guest.slots, Space::Io, port),
            Select::Nowhere => None,
            Select::Slot(slot, off) => {
                decode_config_byte(&guest.slots, usize::from(slot), u64::from(off))
            }
        },
        At::Mem { addr } => decode_region_byte(&guest.slots, Space::Mem, addr),
    }
}

/// Returns the byte that a one-byte access reaches, or the reason why the access is refused.
fn decode_byte_or_refusal(guest: &Guest, at: At) -> Result<Option<DecodedByte>, Refusal>
    ensures { (w : WorldNow) (i : ℕ) → IsGuestNth w i guest.now
        → result_map_both (option_map hit_named) number_of result
        ≡ location (lone_nth w i) (target_of at) }
{
    let read = Access {
        at,
        width: 1,
        op: Op::Read,
    };
    match read.fault() {
        Some(why) => Err(why),
        None => Ok(decode_byte(guest, at)),
    }
}

impl<R: Route> Engine<R> {
    /// Returns the byte that an access of a guest reaches in a function in one of its slots, or
    /// None if the access is unclaimed. All accesses to the place reach this byte, except 4-byte
    /// accesses to CF8h, which go to the guest's CONFIG_ADDRESS. Fails with 303, as a one-byte read
    /// would, for a slot above 31, an offset above 255 or a port above FFFFFFFFh. Allocates no
    /// memory.
    pub fn locate(&self, guest: usize, at: At) -> Result<Option<DecodedByte>, Refusal>
        requires { guest < length self.now.world.guests }
        ensures { result_map_both (option_map hit_named) number_of result
            ≡ location (lone_of self.now.world.guests (name_nth self.now.world guest))
            (target_of at) }
    {
        decode_byte_or_refusal(self.guest(guest), at)
    }
}
