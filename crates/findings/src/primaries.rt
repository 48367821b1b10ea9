//! Finds bridges with a wrong Primary Bus Number (PCI-to-PCI Bridge Architecture 1.2, section
//! 3.2.5.2).
ghost use Rattle.std.specs.{Prelude.{◌≡◌, ◌++◌, map, flat_map, slice_get, OnOk, option_map}, Option.option_to_list};
ghost use Rattle.model_board.specs.Routing.{routing};
ghost use Rattle.model_findings.specs.ReadinessIssues.{primary_bus_issue};
ghost use Rattle.findings.specs.Findings.{issue_of};

use crate::numbering::current_bdf;
use crate::readiness_issue::ReadinessIssue;
use bridge_forward::RoutingRow;
use host_bridge::Host;
use std::alloc::AllocError;

/// Returns a readiness issue if the function at an index is a bridge with a wrong Primary Bus
/// Number.
fn primary_bus_issue(host: &Host, rows: &[RoutingRow], index: usize) -> Option<ReadinessIssue>
    requires { rows.now ≡ routing host.now.state.functions }
    ensures { let fs = host.now.state.functions in option_to_list (option_map issue_of result)
        ≡ flat_map (primary_bus_issue fs) (option_to_list (slice_get fs index)) }
{
    let held = host.primary_bus_nth(index)?;
    if index >= rows.len() {
        return None;
    }
    let row = &rows[index];
    let number = current_bdf(host, rows, &row.path).bus;
    if held == number {
        return None;
    }
    Some(ReadinessIssue::OtherPrimary {
        path: row.path.copied(),
        held,
        number,
    })
}

/// Appends a readiness issue for each bridge with a wrong Primary Bus Number.
pub(crate) fn add_primary_bus_issues(
    told: &mut Vec<ReadinessIssue>,
    host: &Host,
    rows: &[RoutingRow],
) -> Result<(), AllocError>
    requires { rows.now ≡ routing host.now.state.functions }
    ensures { let fs = host.now.state.functions in OnOk result (map issue_of told.new.items
        ≡ map issue_of told.old.items ++ flat_map (primary_bus_issue fs) fs) }
{
    for index in 0..rows.len() {
        if let Some(issue) = primary_bus_issue(host, rows, index) {
            told.push(issue)?;
        }
    }
    Ok(())
}
