//! Computes the plan of a board.
ghost use Rattle.std.specs.{Prelude.{◌≡◌, ◌||◌, not, None, IfOk, IfErr}, List.list_any};
ghost use Rattle.model_registers.specs.DeclarationRules.{first_broken};
ghost use Rattle.model_board.specs.{Board.{Board, IsBoard}, Lawful.HasLawfulDecls};
ghost use Rattle.model_set_up.specs.{Pools.{opens_io, has_io_paths}, FunctionTable.board_in, Layout.IsLawful, SetUpWrites.{planned, placement_rules}, UniqueClaimant.CanBePlaced};
ghost use Rattle.bus_scan.specs.SizedTables.{IsTableOf};
ghost use Rattle.window_packing.specs.{Buses.AreAbove, Placed.{IsPlacement, is_port}, Plans.IsRefusal};

use crate::board_plan::Plan;
use crate::pool::Pool;
use crate::pool_placement::{Placement, place_pool};
use crate::rows::row_paths;
use crate::settings::all_function_programs;
use crate::upstream_windows::{UpstreamSupport, all_support};
use bars::{BarDecl, Kind};
use bus_scan::{Enumerated, EnumeratedFunction, Fault, FunctionTable};
use headers::Apertures;
use std::alloc::Global;

/// Returns whether one of the regions is an I/O region.
fn has_io_region(bars: &[Option<BarDecl>; 6]) -> bool
    ensures { result ≡ list_any is_port bars.now }
{
    bars.iter().any(|bar| match bar {
        Some(bar) => bar.kind() == Kind::Io,
        None => false,
    })
}

/// Returns whether a function has I/O regions.
fn function_has_io_region(row: &EnumeratedFunction) -> bool
    ensures { result ≡ opens_io row.now.decl }
{
    match &row.found {
        Enumerated::Endpoint { pin: _, bars } => has_io_region(bars),
        Enumerated::Bridge {
            secondary: _,
            subordinate: _,
            io: _,
            pref: _,
        } => false,
    }
}

/// Returns whether I/O accesses can reach the function's I/O regions, because all bridges above it
/// have an I/O window. Also returns `true` if it has no I/O regions.
fn has_io_path_if_needed(row: &EnumeratedFunction, above: &UpstreamSupport) -> bool
    ensures { result ≡ (not (opens_io row.now.decl) || above.now.io) }
{
    !function_has_io_region(row) || above.io
}

/// Returns whether I/O accesses can reach every I/O region: all bridges above them have an I/O
/// window.
fn has_io_paths(rows: &[EnumeratedFunction], above: &[UpstreamSupport]) -> bool
    requires { AreAbove (board_in rows.now) above.now }
    ensures { result ≡ has_io_paths (board_in rows.now) }
{
    for i in 0..rows.len() {
        if !has_io_path_if_needed(&rows[i], &above[i]) {
            return false;
        }
    }
    true
}

/// Places the regions and windows of a board. Fails if an I/O region is behind a bridge without an
/// I/O window, or a pool doesn't fit.
fn place_board(
    alloc: Global,
    rows: &[EnumeratedFunction],
    above: &[UpstreamSupport],
    apertures: &Apertures,
) -> Result<Placement, Fault>
    requires board { IsBoard (board_in rows.now) }
    requires declarations { HasLawfulDecls (board_in rows.now) }
    requires above { AreAbove (board_in rows.now) above.now }
    ensures placed { IfOk result (λ p. IsPlacement (board_in rows.now) apertures.now p) }
    ensures kept { IfOk result (λ _.
        first_broken (placement_rules (board_in rows.now) apertures.now) ≡ None) }
    ensures refused { IfErr result (λ f. IsRefusal (board_in rows.now) apertures.now f) }
{
    if !has_io_paths(rows, above) {
        return Err(Fault::NoIoWindow);
    }
    Ok(Placement {
        io: place_pool(alloc, Pool::Io, rows, above, apertures)?,
        mem: place_pool(alloc, Pool::Mem, rows, above, apertures)?,
        pref: place_pool(alloc, Pool::Pref, rows, above, apertures)?,
    })
}

/// Places the regions and windows of a table's functions in the apertures, and computes the
/// register values to write. Each region goes to the aperture of its kind. On each bus, items are
/// sorted by alignment, largest first, and then by device, function and register. The size of a
/// window is a multiple of the window granularity, and its start is aligned to the largest
/// alignment behind it.
///
/// # Errors
///
/// Returns the fault with the lowest number: 202 if an I/O region is behind a bridge without an I/O
/// window, 203 if the I/O regions don't fit in their aperture, 204 if the memory regions don't, 205
/// if the prefetchable regions don't, or 299 if memory is exhausted.
pub fn plan(alloc: Global, table: &FunctionTable, apertures: &Apertures) -> Result<Plan, Fault>
    requires { IsTableOf (board_in table.now) table.now }

    // Holds for every board with this table.
    ensures planned { IfOk result (λ p.
        (b : Board) → IsTableOf b table.now → p ≡ planned b apertures.now) }
    ensures lawful { IfOk result (λ p.
        (b : Board) → IsTableOf b table.now → IsLawful b apertures.now p.rows) }
    ensures placeable { IfOk result (λ _.
        (b : Board) → IsTableOf b table.now → CanBePlaced b apertures.now) }
    ensures refused { IfErr result (λ f.
        (b : Board) → IsTableOf b table.now → IsRefusal b apertures.now f) }
{
    let rows = table.rows();
    let above = all_support(alloc, rows)?;
    let placement = place_board(alloc, rows, &above, apertures)?;
    let paths = row_paths(alloc, rows)?;
    let settings = all_function_programs(alloc, rows, &above, apertures, &placement)?;
    Ok(Plan::new(paths, placement, settings))
}
