//! Selects BARs by their kind and by the Command register (PCI Local Bus 3.0, sections 6.2.2 and
//! 6.2.5).
ghost use Rattle.std.specs.Prelude.{◌≡◌, ◌++◌, map, IfOk, OnOk};
ghost use Rattle.bars.specs.Kinds.{kind_of};
ghost use Rattle.model_findings.specs.ReadinessIssues.{is_non_prefetchable_memory};
ghost use Rattle.bridge_forward.specs.RoutingRows.{base_of};
ghost use Rattle.findings.specs.Regions.{is_bar_selected, regions_among, regions_of, all_selected_bars};

use crate::region::LiveBar;
use crate::row::enables_space;
use bars::Kind;
use bridge_forward::{Path, Ranges, RoutingRegion, RoutingRow};
use std::alloc::{AllocError, Global};

/// The BARs to select: enabled BARs, disabled BARs, or enabled memory BARs that aren't
/// prefetchable.
#[derive(Clone, Copy)]
pub(crate) enum Sort {
    Open,
    Closed,
    Plain,
}

/// Returns whether this is the kind of a memory BAR that isn't prefetchable.
fn is_non_prefetchable_memory(kind: Kind) -> bool
    ensures { result ≡ is_non_prefetchable_memory (kind_of kind) }
{
    match kind {
        Kind::Io => false,
        Kind::Mem32 { pref } => !pref,
        Kind::Mem64 { pref } => !pref,
    }
}

/// Returns whether a BAR is to be selected, given the Command value of its function.
fn is_bar_selected(sort: Sort, command: u16, region: RoutingRegion) -> bool
    ensures { result ≡ is_bar_selected sort command (base_of region) }
{
    let is_open = enables_space(command, region.kind.space());
    match sort {
        Sort::Open => is_open,
        Sort::Closed => !is_open,
        Sort::Plain => is_non_prefetchable_memory(region.kind) && is_open,
    }
}

/// Appends each of these BARs that is to be selected.
fn add_selected_bars(
    told: &mut Vec<LiveBar>,
    sort: Sort,
    path: &Path,
    command: u16,
    regions: &[RoutingRegion],
) -> Result<(), AllocError>
    ensures { OnOk result (told.new.items ≡ told.old.items
        ++ regions_among sort path.now command (map base_of regions.now)) }
{
    for region in regions {
        if is_bar_selected(sort, command, *region) {
            let one = LiveBar {
                path: path.copied(),
                region: *region,
            };
            told.push(one)?;
        }
    }
    Ok(())
}

/// Appends the selected BARs of a function.
pub(crate) fn add_selected_of_function(
    told: &mut Vec<LiveBar>,
    sort: Sort,
    row: &RoutingRow,
) -> Result<(), AllocError>
    ensures { OnOk result (told.new.items ≡ told.old.items ++ regions_of sort row.now) }
{
    match &row.ranges {
        Ranges::Regions(regions) => add_selected_bars(told, sort, &row.path, row.command, regions),
        Ranges::Windows { .. } => Ok(()),
    }
}

/// Returns the selected BARs of all functions.
pub(crate) fn all_selected_bars(
    alloc: Global,
    sort: Sort,
    rows: &[RoutingRow],
) -> Result<Vec<LiveBar>, AllocError>
    ensures { IfOk result (λ v. v.items ≡ all_selected_bars sort rows.now) }
{
    let mut told = Vec::new(alloc);
    for row in rows {
        add_selected_of_function(&mut told, sort, row)?;
    }
    Ok(told)
}
