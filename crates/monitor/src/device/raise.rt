//! W1C bits that a device sets in a guest's function.
ghost use Rattle.std.specs.Prelude.{◌≡◌, IsSome, is_some};
ghost use Rattle.model_registers.specs.{Decoding.Function, OwnCopies.is_own};
ghost use Rattle.model_board.specs.{Paths.Path, State.State};
ghost use Rattle.model_guests.specs.Slots.{raise_place};
ghost use Rattle.headers.specs.Places.{place_of};
ghost use Rattle.bridge_forward.specs.Lending.{endpoint_nth};
ghost use Rattle.host_bridge.specs.{ByIndex.with_file_nth, HostState.with_functions};
ghost use Rattle.accesses.specs.Accesses.{part_of};
ghost use Rattle.monitor.specs.{Keeping.IsHeld, Raises.raised_beside_copies};

use crate::guest::AssignedFunction;
use accesses::Place;
use host_bridge::Host;

/// Returns whether the byte exists in the function: its offset is at most 255 in configuration
/// space, or below the size of the region that begins at the base address register.
pub(crate) fn has_byte_at(held: &AssignedFunction, place: Place, off: u64) -> bool
    ensures { (s : State) (p : Path) (f : Function) → IsHeld s p f held.now
        → result ≡ is_some (raise_place f (part_of place) off) }
{
    match place {
        Place::Cfg => off <= 255,
        Place::Bar(reg) => match held.placed.get(usize::from(reg)) {
            Some(Some(region)) => off < region.decl.size(),
            Some(None) => false,
            None => false,
        },
    }
}

/// Returns whether guests have their own copy of this byte. They have copies of Command, Header
/// Type and the base address registers.
fn has_guest_copy(place: Place, off: u64) -> bool
    ensures { result ≡ is_own (place_of place off) }
{
    match place {
        Place::Cfg => matches!(off, 0x04 | 0x05 | 0x0e | 0x10..=0x27),
        Place::Bar(_) => false,
    }
}

/// Sets W1C bits of one register byte of a function on the board. Bytes that guests have a copy of
/// aren't changed.
pub(crate) fn raise_if_uncopied(host: &mut Host, index: usize, place: Place, off: u64, mask: u8)
    requires { IsSome (endpoint_nth host.old.state.functions index) }
    ensures { let fs = host.old.state.functions in
        host.new ≡ with_functions
        (with_file_nth (raised_beside_copies mask (place_of place off)) index fs) host.old }
{
    if has_guest_copy(place, off) {
        return;
    }
    host.raise_w1c_bits_nth(index, place, off, mask);
}
