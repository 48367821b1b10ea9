//! Finds the bridges that an address passes through (PCI-to-PCI Bridge Architecture 1.2, chapter
//! 4).
ghost use Rattle.std.specs.{Prelude.{◌≡◌, ◌&&◌, map, slice_get, option_map, IfOk}, Option.option_to_list};
ghost use Rattle.bars.specs.Kinds.{named_space};
ghost use Rattle.model_board.specs.Routing.{routing, row_forwards, is_routed};
ghost use Rattle.model_lines.specs.Why.{forwarders};
ghost use Rattle.findings.specs.{WhyByRows.{row_forwarder, forwarders_among}, WhyTold.forwarder_told};
ghost use Rattle.bridge_forward.specs.RoutingRows.{secondary_bus_nth};

use crate::causes::Forwarder;
use crate::hindering::forwards;
use crate::holding::AddressQuery;
use bridge_forward::{Path, RoutingRow};
use host_bridge::Host;
use std::alloc::{AllocError, Global};

/// Returns whether every bridge above a path forwards the address.
fn is_path_forwarded(rows: &[RoutingRow], asked: &AddressQuery, path: &Path) -> bool
    ensures { let space = named_space asked.now.space in
        result ≡ is_routed rows.now path.now space asked.now.addr }
{
    rows.iter().all(|row| !row.path.is_ancestor_of(path) || forwards(row, asked.space, asked.addr))
}

/// Returns whether the function is a bridge that forwards the address and that the address reaches
/// from bus 0.
fn reaches_and_forwards(rows: &[RoutingRow], asked: &AddressQuery, row: &RoutingRow) -> bool
    ensures { let space = named_space asked.now.space in let addr = asked.now.addr in result
        ≡ (row_forwards space addr row.now && is_routed rows.now row.now.path space addr) }
{
    forwards(row, asked.space, asked.addr) && is_path_forwarded(rows, asked, &row.path)
}

/// Returns the function at an index as a forwarder, if the address passes through it. `row` must be
/// the row of that function.
fn forwarder(
    host: &Host,
    rows: &[RoutingRow],
    asked: &AddressQuery,
    index: usize,
    row: &RoutingRow,
) -> Option<Forwarder>
    ensures { let space = named_space asked.now.space in
        let bus = secondary_bus_nth host.now.state.functions index in
        option_to_list (option_map forwarder_told result)
        ≡ row_forwarder space asked.now.addr rows.now bus row.now }
{
    if !reaches_and_forwards(rows, asked, row) {
        return None;
    }
    Some(Forwarder {
        path: row.path.copied(),
        bus: host.secondary_bus_nth(index).unwrap_or(0),
    })
}

/// Looks up the row of the function at an index and returns it as a forwarder, as `forwarder` does.
fn forwarder_nth_if_reached(
    host: &Host,
    rows: &[RoutingRow],
    asked: &AddressQuery,
    index: usize,
) -> Option<Forwarder>
    requires { rows.now ≡ routing host.now.state.functions }
    ensures { let space = named_space asked.now.space in let fs = host.now.state.functions in
        let one = option_to_list (slice_get fs index) in
        option_to_list (option_map forwarder_told result)
        ≡ forwarders_among fs space asked.now.addr one }
{
    if index >= rows.len() {
        return None;
    }
    forwarder(host, rows, asked, index, &rows[index])
}

/// Returns every bridge that the address passes through, in path order.
pub(crate) fn forwarders(
    alloc: Global,
    host: &Host,
    rows: &[RoutingRow],
    asked: &AddressQuery,
) -> Result<Vec<Forwarder>, AllocError>
    requires { rows.now ≡ routing host.now.state.functions }
    ensures { let space = named_space asked.now.space in let fs = host.now.state.functions in
        IfOk result (λ v. map forwarder_told v.items ≡ forwarders fs space asked.now.addr) }
{
    let mut told = Vec::new(alloc);
    for index in 0..rows.len() {
        if let Some(forwarder) = forwarder_nth_if_reached(host, rows, asked, index) {
            told.push(forwarder)?;
        }
    }
    Ok(told)
}
