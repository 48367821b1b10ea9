//! Computes the BDF at which a function is reached (PCI-to-PCI Bridge Architecture 1.2, chapter 3).
ghost use Rattle.std.specs.Prelude.{◌≡◌, ◌≤◌, ◌<◌, ◌+◌, ◌++◌, length};
ghost use Rattle.model_findings.specs.{Orderly.IsStateOfBoard, Found.{current_bus_number, current_bdf}};
ghost use Rattle.paths.specs.BusAddresses.{bus_address_of};

use host_bridge::{Bdf, Host};
use paths::{Part, Path};

/// Returns the path extended by these parts.
fn extended(path: Path, parts: &[Part]) -> Path
    requires { length path + length parts.now ≤ 16 }
    ensures { result ≡ path ++ parts.now }
{
    match parts {
        [] => path,
        [first, rest @ ..] => {
            let mut longer = path;
            longer.push(*first);
            extended(longer, rest)
        }
    }
}

/// Returns the path made of these parts.
fn path_of(parts: &[Part]) -> Path
    requires some { 0 < length parts.now }
    requires few { length parts.now ≤ 16 }
    ensures { result ≡ parts.now }
{
    match parts {
        [] => unreachable!(),
        [first, rest @ ..] => extended(Path::on_root(*first), rest),
    }
}

/// Returns the number of a bus: 0 for bus 0, and the Secondary Bus Number of the bridge above for
/// other buses.
fn bus_number_of_path(host: &Host, bus: &[Part]) -> u8
    requires board { IsStateOfBoard host.now.state.functions }
    requires short { length bus.now < 16 }
    ensures { result ≡ current_bus_number host.now.state.functions bus.now }
{
    if bus.is_empty() {
        return 0;
    }
    match host.index_of(&path_of(bus)) {
        Some(index) => host.secondary_bus_nth(index).unwrap_or(0),
        None => 0,
    }
}

/// Returns the BDF of a function, with the Secondary Bus Number of the bridge above as the bus
/// number.
pub fn address_of(host: &Host, path: &Path) -> Bdf
    requires { IsStateOfBoard host.now.state.functions }
    ensures { bus_address_of result ≡ current_bdf host.now.state.functions path.now }
{
    let part = path.last();
    Bdf {
        bus: bus_number_of_path(host, path.parent()),
        device: part.device(),
        function: part.function(),
    }
}
