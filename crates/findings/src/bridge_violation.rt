//! Finds the first bridge above a BAR that mishandles one of the BAR's addresses.
ghost use Rattle.std.specs.Prelude.{◌≡◌, ◌++◌, map, filter, flat_map, IfOk, OnOk};
ghost use Rattle.lists.specs.Elements.{first_some};
ghost use Rattle.model_board.specs.Paths.{is_ancestor_of};
ghost use Rattle.findings.specs.{BridgeViolations.{bars_to_check, first_violating_address, blame, blames_of, first_violations}, Regions.regions_of};

use crate::forwarding::first_unforwarded_address;
use crate::prefetching::first_prefetched_address;
use crate::region::LiveBar;
use crate::regions::{Sort, add_selected_of_function};
use bridge_forward::{Path, RoutingRow};
use std::alloc::{AllocError, Global};

/// A bridge's error: it doesn't forward all of an enabled BAR, or it prefetches from a BAR that
/// isn't prefetchable.
#[derive(Clone, Copy)]
pub(crate) enum ViolationKind {
    NotForwarded,
    Prefetched,
}

/// A BAR, the first bridge above it that mishandles it, and the lowest address affected.
#[derive(Drop)]
pub(crate) struct BridgeViolation {
    pub(crate) region: LiveBar,
    pub(crate) bridge: Path,
    pub(crate) address: u64,
}

/// Returns which BARs to check for this kind of error.
fn bars_to_check(charge: ViolationKind) -> Sort
    ensures { result ≡ bars_to_check charge }
{
    match charge {
        ViolationKind::NotForwarded => Sort::Open,
        ViolationKind::Prefetched => Sort::Plain,
    }
}

/// Returns the lowest address of a BAR that a bridge mishandles, if there is one.
fn first_violating_address(charge: ViolationKind, row: &RoutingRow, region: &LiveBar) -> Option<u64>
    ensures { result ≡ first_violating_address charge row.now region.now }
{
    match charge {
        ViolationKind::NotForwarded => first_unforwarded_address(row, region),
        ViolationKind::Prefetched => first_prefetched_address(row, region),
    }
}

/// Returns a bridge's violation, if the bridge is above the BAR and mishandles it.
fn violation_by_bridge(
    charge: ViolationKind,
    row: &RoutingRow,
    region: &LiveBar,
) -> Option<BridgeViolation>
    ensures { result ≡ blame charge region.now row.now }
{
    if !row.path.is_ancestor_of(&region.path) {
        return None;
    }
    let address = first_violating_address(charge, row, region)?;
    Some(BridgeViolation {
        region: region.copied(),
        bridge: row.path.copied(),
        address,
    })
}

/// Returns the violation of the first of these bridges that mishandles the BAR.
fn first_violation(
    charge: ViolationKind,
    above: &[&RoutingRow],
    region: &LiveBar,
) -> Option<BridgeViolation>
    ensures { result ≡ first_some (blame charge region.now) (map (λ r. r.now) above.now) }
{
    for row in above {
        if let Some(first) = violation_by_bridge(charge, *row, region) {
            return Some(first);
        }
    }
    None
}

/// Appends a violation for each of these BARs that one of the bridges mishandles.
fn add_first_violations(
    told: &mut Vec<BridgeViolation>,
    charge: ViolationKind,
    above: &[&RoutingRow],
    regions: &[LiveBar],
) -> Result<(), AllocError>
    ensures { OnOk result (told.new.items
        ≡ told.old.items
        ++ flat_map (blames_of charge (map (λ r. r.now) above.now)) regions.now) }
{
    for region in regions {
        if let Some(first) = first_violation(charge, above, region) {
            told.push(first)?;
        }
    }
    Ok(())
}

/// Returns the rows of the bridges above a path. They are collected only once for all BARs of a
/// function.
fn bridge_rows_above<'a>(
    alloc: Global,
    rows: &'a [RoutingRow],
    path: &Path,
) -> Result<Vec<&'a RoutingRow>, AllocError>
    ensures { IfOk result (λ v.
        map (λ r. r.now) v.items ≡ filter (λ r. is_ancestor_of r.path path.now) rows.now) }
{
    let mut above = Vec::new(alloc);
    for row in rows {
        if row.path.is_ancestor_of(path) {
            above.push(row)?;
        }
    }
    Ok(above)
}

/// Appends the violations for a function's BARs.
fn add_function_violations(
    alloc: Global,
    told: &mut Vec<BridgeViolation>,
    charge: ViolationKind,
    rows: &[RoutingRow],
    row: &RoutingRow,
) -> Result<(), AllocError>
    ensures { OnOk result (told.new.items ≡ told.old.items
        ++ flat_map (blames_of charge rows.now) (regions_of (bars_to_check charge) row.now)) }
{
    let mut regions = Vec::new(alloc);
    add_selected_of_function(&mut regions, bars_to_check(charge), row)?;
    let above = bridge_rows_above(alloc, rows, &row.path)?;
    add_first_violations(told, charge, &above, &regions)
}

/// Returns the violations for the BARs of all functions.
pub(crate) fn first_violations(
    alloc: Global,
    charge: ViolationKind,
    rows: &[RoutingRow],
) -> Result<Vec<BridgeViolation>, AllocError>
    ensures { IfOk result (λ v. v.items ≡ first_violations charge rows.now) }
{
    let mut told = Vec::new(alloc);
    for row in rows {
        add_function_violations(alloc, &mut told, charge, rows, row)?;
    }
    Ok(told)
}
