//! Finds BAR addresses that a bridge forwards only through its prefetchable window (PCI-to-PCI
//! Bridge Architecture 1.2, chapter 4).
ghost use Rattle.std.specs.{Prelude.{◌≡◌, [], ◌∷◌, ◌++◌, ◌&&◌, map, filter, OnOk}, Option.{option_map, option_to_list}};
ghost use Rattle.model_set_up.specs.PlacedRegions.{holds};
ghost use Rattle.model_findings.specs.ReadinessIssues.{prefetches, prefetch_edges, first_prefetched_address};
ghost use Rattle.findings.specs.{Extents.extent_of, BridgeViolations.prefetched_issue, Findings.issue_of};

use crate::bridge_violation::BridgeViolation;
use crate::missed_address::min_of_present;
use crate::readiness_issue::ReadinessIssue;
use crate::region::LiveBar;
use crate::row::{enables_space, is_in_window};
use bars::Space;
use bridge_forward::{Ranges, RoutingRow, Window};
use std::alloc::AllocError;

/// Returns whether a bridge forwards an address through its prefetchable window and not through its
/// memory window.
fn prefetches(row: &RoutingRow, addr: u64) -> bool
    ensures { result ≡ prefetches addr row.now }
{
    match &row.ranges {
        Ranges::Regions(_) => false,
        Ranges::Windows { io: _, mem, pref } => {
            enables_space(row.command, Space::Mem)
                && is_in_window(*pref, addr)
                && !is_in_window(*mem, addr)
        }
    }
}

/// Returns the memory window and the prefetchable window of a bridge.
fn memory_windows(row: &RoutingRow) -> (Option<Window>, Option<Window>)
    ensures { prefetch_edges row.now
        ≡ map (λ e. e.first) (option_to_list (option_map extent_of result.1))
        ++ map (λ e. e.end) (option_to_list (option_map extent_of result.0)) }
{
    match &row.ranges {
        Ranges::Regions(_) => (None, None),
        Ranges::Windows { io: _, mem, pref } => (*mem, *pref),
    }
}

/// Returns the address if it is in the BAR and the bridge prefetches it.
fn address_if_prefetched(row: &RoutingRow, region: &LiveBar, addr: u64) -> Option<u64>
    ensures { let q = region.now in option_to_list result
        ≡ filter (λ n. holds q.space n q && prefetches n row.now) (addr ∷ []) }
{
    if region.holds(addr) && prefetches(row, addr) {
        Some(addr)
    } else {
        None
    }
}

/// Returns the first address of a window if it is in the BAR and the bridge prefetches it.
fn first_if_prefetched(row: &RoutingRow, region: &LiveBar, window: Option<Window>) -> Option<u64>
    ensures { let q = region.now in option_to_list result
        ≡ filter (λ n. holds q.space n q && prefetches n row.now)
        (map (λ e. e.first) (option_to_list (option_map extent_of window))) }
{
    address_if_prefetched(row, region, window?.first)
}

/// Returns the address after a window if it is in the BAR and the bridge prefetches it.
fn address_after_if_prefetched(
    row: &RoutingRow,
    region: &LiveBar,
    window: Option<Window>,
) -> Option<u64>
    ensures { let q = region.now in option_to_list result
        ≡ filter (λ n. holds q.space n q && prefetches n row.now)
        (map (λ e. e.end) (option_to_list (option_map extent_of window))) }
{
    let end = region.address_after_if_held(window?)?;
    if prefetches(row, end) {
        Some(end)
    } else {
        None
    }
}

/// Returns the lowest address of a BAR that a bridge prefetches, if there is one.
pub(crate) fn first_prefetched_address(row: &RoutingRow, region: &LiveBar) -> Option<u64>
    ensures { result ≡ first_prefetched_address row.now region.now }
{
    let (mem, pref) = memory_windows(row);
    let base = address_if_prefetched(row, region, region.region.base);
    let first = first_if_prefetched(row, region, pref);
    let end = address_after_if_prefetched(row, region, mem);
    min_of_present(base, min_of_present(first, end))
}

/// Appends a readiness issue for each of these violations: the BAR, the bridge that may prefetch
/// it, and the address.
pub(crate) fn add_prefetched_issues(
    told: &mut Vec<ReadinessIssue>,
    blames: &[BridgeViolation],
) -> Result<(), AllocError>
    ensures { OnOk result (map issue_of told.new.items
        ≡ map issue_of told.old.items ++ map prefetched_issue blames.now) }
{
    for blame in blames {
        told.push(ReadinessIssue::Prefetched {
            region: blame.region.copied(),
            bridge: blame.bridge.copied(),
            address: blame.address,
        })?;
    }
    Ok(())
}
