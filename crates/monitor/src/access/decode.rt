//! Decoding of guest addresses.
ghost use Rattle.std.specs.Prelude.{◌≡◌, List, Option, IfSome, option_map};
ghost use Rattle.model_board.specs.{Paths.Path, State.State};
ghost use Rattle.model_guests.specs.Slots.{Slots, landing_from};
ghost use Rattle.bars.specs.Kinds.{named_space};
ghost use Rattle.monitor.specs.{Configs.IsHolding, Keeping.AreSlots, Landings.landing_of, Reaches.LandsIn};

use crate::access::config::function_in_slot;
use crate::guest::AssignedFunction;
use bars::Space;
use host_bridge::BarOffset;

/// Finds the region that decodes an address according to the guest's own registers. If several
/// regions do, the lowest slot wins, then the lowest base address register. Returns the slot, the
/// register and the offset in the region.
pub(crate) fn decode_address(
    slots: &[Option<AssignedFunction>],
    space: Space,
    addr: u64,
) -> Option<(usize, u8, u64)>
    ensures landing { (s : State) (qs : List (Option Path)) (fs : Slots)
        → AreSlots s qs fs slots.now →
        option_map landing_of result ≡ landing_from 0 (named_space space) addr fs }
    ensures there { IfSome result (λ l. LandsIn slots.now (named_space space) addr l) }
{
    for slot in 0..slots.len() {
        if let Some(held) = function_in_slot(slots, slot) {
            if let Some((region, offset)) = held.own.decode(space, addr) {
                return Some((slot, region, offset));
            }
        }
    }
    None
}

/// Converts a slot, a base address register and an offset in its region to a location on the board.
pub(crate) fn slot_bar_to_board(
    slots: &[Option<AssignedFunction>],
    slot: usize,
    region: u8,
    offset: u64,
) -> BarOffset
    requires { IsHolding slots.now slot }
    ensures { (holds : IsHolding slots.now slot) →
        result ≡ record { index = holds.held.index; region = region; offset = offset } }
{
    let Some(held) = &slots[slot] else {
        unreachable!()
    };
    BarOffset {
        index: held.index,
        region,
        offset,
    }
}
