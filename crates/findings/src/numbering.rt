//! Finds functions that no configuration cycle reaches (PCI-to-PCI Bridge Architecture 1.2, chapter
//! 3).
ghost use Rattle.std.specs.{Prelude.{◌≡◌, ◌++◌, map, position, slice_get, OnOk, option_map}, Option.{option_and_then, option_to_list}};
ghost use Rattle.model_board.specs.Routing.{routing, RoutingRow as RowValue};
ghost use Rattle.model_findings.specs.{Found.{current_bus_number, current_bdf}, Problems.numbering_problems};
ghost use Rattle.paths.specs.BusAddresses.{bus_address_of};
ghost use Rattle.findings.specs.{Bridges.{is_bridge_row, is_there, lost_function}, Findings.problem_of};

use crate::problem::Problem;
use bridge_forward::{Part, Path, Ranges, RoutingRow};
use host_bridge::{Bdf, Host};
use std::alloc::AllocError;

/// Returns whether the row is that of a bridge at this path.
fn is_bridge_at(row: &RoutingRow, bus: &[Part]) -> bool
    ensures { result ≡ is_bridge_row bus.now row.now }
{
    match &row.ranges {
        Ranges::Regions(_) => false,
        Ranges::Windows { .. } => row.path.equals_parts(bus),
    }
}

/// Returns the index of the bridge above a bus.
fn bridge_index(rows: &[RoutingRow], bus: &[Part]) -> Option<usize>
    ensures { result ≡ position (is_bridge_row bus.now) rows.now }
{
    rows.iter().position(|row| is_bridge_at(row, bus))
}

/// Returns the number of a bus: 0 for bus 0, and the Secondary Bus Number of the bridge above for
/// other buses.
fn current_bus_number(host: &Host, rows: &[RoutingRow], bus: &[Part]) -> u8
    requires { rows.now ≡ routing host.now.state.functions }
    ensures { result ≡ current_bus_number host.now.state.functions bus.now }
{
    if bus.is_empty() {
        return 0;
    }
    match bridge_index(rows, bus) {
        Some(index) => host.secondary_bus_nth(index).unwrap_or(0),
        None => 0,
    }
}

/// Returns the BDF of a function, with the Secondary Bus Number of the bridge above as the bus
/// number. The rows must be those of the host.
pub(crate) fn current_bdf(host: &Host, rows: &[RoutingRow], path: &Path) -> Bdf
    requires { rows.now ≡ routing host.now.state.functions }
    ensures { bus_address_of result ≡ current_bdf host.now.state.functions path.now }
{
    let part = path.last();
    Bdf {
        bus: current_bus_number(host, rows, path.parent()),
        device: part.device(),
        function: part.function(),
    }
}

/// Returns the path of the function at an index, if there is one.
fn path_at_index(rows: &[RoutingRow], index: Option<usize>) -> Option<Path>
    ensures { result
        ≡ option_map (λ (r : RowValue). r.path) (option_and_then (slice_get rows.now) index) }
{
    let index = index?;
    if index >= rows.len() {
        return None;
    }
    let row = &rows[index];
    Some(row.path.copied())
}

/// Returns whether the function that was reached is the one at `path`.
pub(crate) fn is_reached_path(instead: &Option<Path>, path: &Path) -> bool
    ensures { result ≡ is_there path.now instead.now }
{
    match instead {
        Some(other) => other == path,
        None => false,
    }
}

/// Returns a problem if the function at a path isn't reached by its BDF.
fn numbering_problem(host: &mut Host, rows: &[RoutingRow], path: &Path) -> Option<Problem>
    requires { rows.now ≡ routing host.old.state.functions }
    ensures told { option_to_list (option_map problem_of result)
        ≡ lost_function host.old.state.functions path.now }
    ensures after { host.new ≡ host.old }
{
    let address = current_bdf(host, rows, path);
    let reached = host.index_reached_by_bdf(address);
    let instead = path_at_index(rows, reached);
    if is_reached_path(&instead, path) {
        return None;
    }
    Some(Problem::NotFound {
        path: path.copied(),
        address,
        instead,
    })
}

/// Appends a problem for each function that no configuration cycle reaches.
pub(crate) fn add_numbering_problems(
    told: &mut Vec<Problem>,
    host: &mut Host,
    rows: &[RoutingRow],
) -> Result<(), AllocError>
    requires { rows.now ≡ routing host.old.state.functions }
    ensures told { OnOk result (map problem_of told.new.items
        ≡ map problem_of told.old.items ++ numbering_problems host.old.state.functions) }
    ensures after { host.new ≡ host.old }
{
    for row in rows {
        if let Some(problem) = numbering_problem(host, rows, &row.path) {
            told.push(problem)?;
        }
    }
    Ok(())
}
