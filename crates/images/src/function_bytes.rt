//! The bytes of a function as its guest reads them, from the guest's copies and the board's
//! registers.
ghost use Rattle.std.specs.Prelude.{◌≡◌, ◌/◌, ◌*◌, ◌<◌, ◌%◌};
ghost use Rattle.model_registers.specs.{OwnCopies.is_own, Registers.{config, read}, ByteEnables.{enables_of, lanes}};
ghost use Rattle.headers.specs.{declared.place.Place.TheVariants.Cfg, Places.place_of};
ghost use Rattle.images.specs.Shown.{shown_byte, source};

use bridge_forward::EndpointFn;
use config_bytes::{enables_of, shift_lanes_down};
use guest_functions::VirtualFunction;
use headers::Place;

/// Returns whether guests have their own copy of this byte. They have copies of Command, Header
/// Type and the base address registers.
fn has_guest_copy(off: u8) -> bool
    ensures { result ≡ is_own (config off) }
{
    matches!(off, 0x04 | 0x05 | 0x0e | 0x10..=0x27)
}

/// Reads one byte of configuration space as the guest does, by a cycle that enables only this byte.
/// Returns the whole word, in which the other bytes are 0.
fn read_byte_in_its_lane(endpoint: &EndpointFn, own: &VirtualFunction, off: u8) -> u32
    ensures { let ons = lanes (enables_of off 1) in
        result ≡ read (source endpoint.now own.now (config off)) (config (off / 4 * 4)) ons }
{
    let word = off / 4 * 4;
    let enables = enables_of(u64::from(off), 1);
    if has_guest_copy(off) {
        own.config_read(u16::from(word), enables).0
    } else {
        endpoint.config_read(word, enables)
    }
}

/// Returns a byte of configuration space.
fn read_shown_config_byte(endpoint: &EndpointFn, own: &VirtualFunction, off: u8) -> u8
    ensures { result ≡ shown_byte endpoint.now own.now (config off) }
{
    (shift_lanes_down(u64::from(off), read_byte_in_its_lane(endpoint, own, off)) % 256) as u8
}

/// Returns a byte of configuration space or of a region.
#[tactic(auto, unfolding(crate::specs::Shown::shown_byte))]
pub(crate) fn read_shown_byte(
    endpoint: &EndpointFn,
    own: &VirtualFunction,
    place: Place,
    off: u64,
) -> u8
    requires { place ≡ Cfg → off < 256 }
    ensures { result ≡ shown_byte endpoint.now own.now (place_of place off) }
{
    match place {
        Place::Cfg => read_shown_config_byte(endpoint, own, off as u8),
        Place::Bar(region) => endpoint.value(Place::Bar(region), off),
    }
}
