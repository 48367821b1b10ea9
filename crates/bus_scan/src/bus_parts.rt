//! The device and function numbers on a bus, in scan order: devices 0 to 31, and functions 0 to 7
//! of each device.
ghost use Rattle.std.specs.Prelude.{◌≡◌, ◌<◌, ◌+◌, ◌%◌, ◌==◌, ◌&&◌, not, if◌then◌else◌, [], length};
ghost use Rattle.model_set_up.specs.ScanOrder.{on, nth_part};
ghost use Rattle.paths.specs.BusAddresses.{bus_address_of};

use bridge_forward::Part;
use host_bridge::{Bdf, Path};

/// The number of device and function numbers on a bus: 32 devices with 8 functions each.
pub(crate) const PARTS: u16 = 256;

/// The maximum number of parts in a path.
pub(crate) const DEEPEST: usize = 16;

/// Returns the BDF at position `n` of the scan order of a bus.
pub(crate) fn bdf_at_devfn(bus: u8, n: u16) -> Bdf
    requires { n < PARTS }
    ensures { bus_address_of result ≡ record { bus = bus; part = nth_part n } }
{
    Bdf {
        bus,
        device: (n / 8) as u8,
        function: (n % 8) as u8,
    }
}

/// Returns the position to probe after `n`: the next device if `n` is function 0 of a
/// single-function device, and `n + 1` otherwise.
pub(crate) fn next_devfn_to_probe(n: u16, is_multifunction: bool) -> u16
    requires { n < PARTS }
    ensures next { result ≡ (if n % 8 == 0 && not is_multifunction then n + 8 else n + 1) }
    ensures later { n < result }
{
    if n % 8 == 0 && !is_multifunction {
        n + 8
    } else {
        n + 1
    }
}

/// Returns the path at position `n` of the scan order of a bus. `bus` is the path of the bridge
/// above, or empty for bus 0.
pub(crate) fn path_at_devfn(bus: &[Part], n: u16) -> Path
    requires short { length bus.now < 16 }
    requires part { n < PARTS }
    ensures { result ≡ on bus.now n }
{
    let part = Part::new((n / 8) as u8, (n % 8) as u8);
    match bus {
        [] => Path::on_root(part),
        [first, rest @ ..] => {
            let mut path = Path::on_root(*first);
            for above in rest {
                path.push(*above);
            }
            path.push(part);
            path
        }
    }
}
