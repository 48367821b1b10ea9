//! Finds everything that keeps a BAR from answering an address that it contains.
ghost use Rattle.std.specs.{Prelude.{◌≡◌, map, slice_get, option_map, IfOk}, Option.option_to_list};
ghost use Rattle.bars.specs.Kinds.{named_space};
ghost use Rattle.model_board.specs.Routing.{routing};
ghost use Rattle.model_lines.specs.Why.{blockers};
ghost use Rattle.bridge_forward.specs.BridgeDecls.{declared_bridge_nth};
ghost use Rattle.findings.specs.{WhyByRows.{row_stop, causes_at}, WhyTold.cause_told};

use crate::causes::Cause;
use crate::hindering::{block_reason, forwards};
use crate::holding::{AddressQuery, RegionWithCommand};
use crate::row::enables_space;
use bridge_forward::{Path, RoutingRow};
use host_bridge::Host;
use std::alloc::{AllocError, Global};

/// Returns the cause if the function at an index is a bridge above the path that doesn't forward
/// the address. `row` must be the row of that function. Its declaration is read only if the bridge
/// is above the path, which is rare.
fn blocking_cause(
    host: &Host,
    index: usize,
    row: &RoutingRow,
    asked: &AddressQuery,
    path: &Path,
) -> Option<Cause>
    ensures { let space = named_space asked.now.space in
        let decl = declared_bridge_nth host.now.state.functions index in
        option_map cause_told result ≡ row_stop space asked.now.addr path.now decl row.now }
{
    if !row.path.is_ancestor_of(path) || forwards(row, asked.space, asked.addr) {
        return None;
    }
    let decl = host.bridge_decl_nth(index);
    Some(Cause::StoppedAt {
        bridge: row.path.copied(),
        hindrance: block_reason(row, decl, asked.space),
    })
}

/// Looks up the row of the function at an index and returns the cause, as `blocking_cause` does.
fn blocking_cause_nth(
    host: &Host,
    rows: &[RoutingRow],
    asked: &AddressQuery,
    path: &Path,
    index: usize,
) -> Option<Cause>
    requires { rows.now ≡ routing host.now.state.functions }
    ensures { let space = named_space asked.now.space in
        let one = option_to_list (slice_get host.now.state.functions index) in
        option_to_list (option_map cause_told result)
        ≡ blockers one space asked.now.addr path.now }
{
    if index >= rows.len() {
        return None;
    }
    blocking_cause(host, index, &rows[index], asked, path)
}

/// Returns a cause for each bridge above a path that doesn't forward the address, from bus 0 down.
fn blockers(
    alloc: Global,
    host: &Host,
    rows: &[RoutingRow],
    asked: &AddressQuery,
    path: &Path,
) -> Result<Vec<Cause>, AllocError>
    requires { rows.now ≡ routing host.now.state.functions }
    ensures { let space = named_space asked.now.space in let fs = host.now.state.functions in
        IfOk result (λ v.
        map cause_told v.items ≡ blockers fs space asked.now.addr path.now) }
{
    let mut causes = Vec::new(alloc);
    for index in 0..rows.len() {
        if let Some(cause) = blocking_cause_nth(host, rows, asked, path, index) {
            causes.push(cause)?;
        }
    }
    Ok(causes)
}

/// Returns everything that keeps a BAR from answering the address, in order from its function up to
/// bus 0.
pub(crate) fn causes_of(
    alloc: Global,
    host: &Host,
    rows: &[RoutingRow],
    asked: &AddressQuery,
    held: &RegionWithCommand,
) -> Result<Vec<Cause>, AllocError>
    requires { rows.now ≡ routing host.now.state.functions }
    ensures { let space = named_space asked.now.space in let fs = host.now.state.functions in
        IfOk result (λ v. map cause_told v.items
        ≡ causes_at fs space asked.now.addr held.now.region.path held.now.command) }
{
    let mut causes = blockers(alloc, host, rows, asked, &held.region.path)?;
    if !enables_space(held.command, asked.space) {
        causes.push(Cause::ClosedBy {
            command: held.command,
        })?;
    }
    causes.reverse();
    Ok(causes)
}
