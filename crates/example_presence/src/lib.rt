//! Layer: tests. Below: host_bridge.
//!
//! An example of a crate that uses only the contracts of the host bridge: it finds out which
//! devices are present.
#![tactic(auto)]

ghost use Rattle.std.specs.Prelude.{◌≡◌};
ghost use Rattle.paths.specs.BusAddresses.{bus_address_of};
ghost use Rattle.host_bridge.specs.HostState.{with_latch};
ghost use Rattle.example_presence.specs.Presence.{is_present, devices_below};

use host_bridge::{Bdf, Host};

/// Returns whether a function is present at a BDF: a read of its Vendor ID (configuration offset 0)
/// returns something else than all ones. Leaves CONFIG_ADDRESS 0, and changes nothing else.
pub fn is_present(host: &mut Host, at: Bdf) -> bool
    ensures value { result ≡ is_present host.old.state.functions (bus_address_of at) }
    ensures after { host.new ≡ with_latch 0 host.old }
{
    host.config_read(at, 0, 0b0011) != 0xffff
}

/// Returns the number of devices on bus 0 whose function 0 is present. Registers and apertures
/// aren't changed.
pub fn count_bus_0_devices(host: &mut Host) -> u8
    ensures value { result ≡ devices_below host.old.state.functions 32 }
    ensures registers { host.new.state.functions ≡ host.old.state.functions }
    ensures apertures { host.new.apertures ≡ host.old.apertures }
{
    let mut count = 0;
    for device in 0..32 {
        let at = Bdf {
            bus: 0,
            device,
            function: 0,
        };
        if is_present(host, at) {
            count += 1;
        }
    }
    count
}
