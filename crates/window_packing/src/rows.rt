//! Lists the rows of a layout, bus by bus.
ghost use Rattle.std.specs.Prelude.{◌≡◌, ◌<◌, ◌≤◌, ◌+◌, ◌^◌, ◌++◌, [], ◌∷◌, IfOk, map, length};
ghost use Rattle.lists.specs.Elements.{Each};
ghost use Rattle.model_set_up.specs.{Layout.row_of, FunctionTable.TableRow};
ghost use Rattle.window_packing.specs.{Plans.named_pool, LayoutRows.{bus_at, rows_in, IsListable}};

use crate::layout_row::PlanRow;
use crate::pack::PackedBus;
use crate::pool::Pool;
use crate::pool_placement::PlacedPool;
use bridge_forward::Part;
use bus_scan::EnumeratedFunction;
use host_bridge::Path;
use std::alloc::{AllocError, Global};

/// Copies the paths of all functions.
pub(crate) fn row_paths(alloc: Global, rows: &[EnumeratedFunction]) -> Result<Vec<Path>, AllocError>
    ensures { IfOk result (λ v. v.items ≡ map (λ (r : TableRow). r.path) rows.now) }
{
    let mut paths = Vec::with_capacity(alloc, rows.len())?;
    'rows: for row in rows {
        paths.push(row.path.copied())?;
    }
    Ok(paths)
}

/// Returns the path of a function on a bus.
fn path_on_bus(paths: &[Path], bus: usize, part: Part) -> Path
    requires there { bus ≤ length paths.now }
    requires depth { length (bus_at paths.now bus) < 16 }
    ensures { result ≡ bus_at paths.now bus ++ part ∷ [] }
{
    if bus == 0 {
        return Path::on_root(part);
    }
    let mut path = paths[bus - 1].copied();
    path.push(part);
    path
}

/// Appends the rows of a bus whose first address is `first`.
fn push_bus_rows(
    into: &mut Vec<PlanRow>,
    paths: &[Path],
    pool: Pool,
    bus: usize,
    first: u64,
    pack: &PackedBus,
) -> Result<(), AllocError>
    requires there { bus ≤ length paths.now }
    requires depth { Each (λ s. length (bus_at paths.now bus) < 16) pack.now.spots }
    requires room { Each (λ s. first + s.first < 2 ^ 64) pack.now.spots }
    ensures { IfOk result (λ _. into.new.items ≡
        into.old.items ++ map (row_of (named_pool pool) (bus_at paths.now bus) first) pack.now.spots) }
{
    for i in 0..pack.spots.len() {
        let spot = &pack.spots[i];
        into.push(PlanRow {
            path: path_on_bus(paths, bus, spot.item.part),
            what: spot.item.what,
            pool,
            first: first + spot.first,
            size: spot.item.size,
        })?;
    }
    Ok(())
}

/// Appends the rows of a pool.
pub(crate) fn push_pool_rows(
    into: &mut Vec<PlanRow>,
    paths: &[Path],
    pool: Pool,
    placed: &PlacedPool,
) -> Result<(), AllocError>
    requires { IsListable paths.now placed.now }
    ensures { IfOk result (λ _. into.new.items ≡
        into.old.items ++ rows_in (named_pool pool) paths.now placed.now) }
{
    for bus in 0..placed.packs.len() {
        let first = placed.firsts[bus];
        push_bus_rows(into, paths, pool, bus, first, &placed.packs[bus])?;
    }
    Ok(())
}
