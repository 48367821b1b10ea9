//! Sets of paths for repeated lookups. A binary search replaces comparing each bridge with every
//! function and each endpoint with every slot.
ghost use Rattle.std.specs.{Prelude.{◌≡◌, ◌<◌, IfOk, length}, List.filter_map, BTreeSet.IsFromIterResult};
ghost use Rattle.paths.specs.PathOrders.{path_cmp};
ghost use Rattle.board_fit.specs.PathSets.{bridge_path_unless_bus_0, parent_bridge, valid_slot_paths};

use board_file::entries::GuestEntry;
use paths::{Part, Path};
use std::alloc::{AllocError, Global};
use std::collections::BTreeSet;

/// Returns the path of the bridge above a bus, given the parts of that path. Returns `None` for bus
/// 0.
fn bridge_path_unless_bus_0(bus: &[Part]) -> Option<Path>
    requires { length bus.now < 16 }
    ensures { result ≡ bridge_path_unless_bus_0 bus.now }
{
    let (first, rest) = bus.split_first()?;
    let mut bridge = Path::on_root(*first);
    'rest: for part in rest {
        bridge.push(*part);
    }
    Some(bridge)
}

/// Returns the path of the bridge above a function, or `None` if the function is on bus 0.
fn parent_bridge(path: &Path) -> Option<Path>
    ensures { result ≡ parent_bridge path.now }
{
    bridge_path_unless_bus_0(path.parent())
}

/// Returns the set of bridges directly above these functions.
pub(crate) fn parent_bridges(alloc: Global, paths: &[Path]) -> Result<BTreeSet<Path>, AllocError>
    ensures { IfOk result (IsFromIterResult path_cmp (filter_map parent_bridge paths.now)) }
{
    paths
        .iter()
        .filter_map(|path| parent_bridge(path))
        .collect(alloc)
}

/// Returns the set of paths in the guests' slots.
pub(crate) fn valid_slot_paths(
    alloc: Global,
    guests: &[GuestEntry<'_>],
) -> Result<BTreeSet<Path>, AllocError>
    ensures { IfOk result (IsFromIterResult path_cmp (valid_slot_paths guests.now)) }
{
    guests
        .iter()
        .flat_map(|guest| guest.slots.iter())
        .filter(|slot| slot.is_path())
        .map(|slot| slot.path_or_zero())
        .collect(alloc)
}
