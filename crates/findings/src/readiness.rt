//! Finds the readiness issues of a board.
ghost use Rattle.std.specs.Prelude.{◌≡◌, ◌++◌, map, IfOk, OnOk};
ghost use Rattle.model_findings.specs.ReadinessIssues.{not_open, readiness_issues, is_ready};
ghost use Rattle.findings.specs.Findings.{issue_of};

use crate::audit::problems;
use crate::bridge_violation::{ViolationKind, first_violations};
use crate::outside_apertures::add_outside_issues;
use crate::prefetching::add_prefetched_issues;
use crate::primaries::add_primary_bus_issues;
use crate::readiness_issue::ReadinessIssue;
use crate::region::LiveBar;
use crate::regions::{Sort, all_selected_bars};
use headers::Apertures;
use host_bridge::Host;
use std::alloc::{AllocError, Global};

/// Appends a readiness issue for each disabled BAR.
fn add_disabled_issues(told: &mut Vec<ReadinessIssue>, closed: &[LiveBar]) -> Result<(), AllocError>
    ensures { OnOk result (map issue_of told.new.items
        ≡ map issue_of told.old.items ++ map not_open closed.now) }
{
    for region in closed {
        told.push(ReadinessIssue::NotOpen {
            region: region.copied(),
        })?;
    }
    Ok(())
}

/// Returns everything that an operating system would still have to set up on a board, apart from
/// the problems of an audit: disabled BARs, enabled BARs outside the apertures, BARs that are
/// prefetched but mustn't be, and wrong Primary Bus Numbers.
pub fn readiness_issues(
    alloc: Global,
    host: &Host,
    apertures: &Apertures,
) -> Result<Vec<ReadinessIssue>, AllocError>
    ensures { let fs = host.now.state.functions in
        IfOk result (λ v. map issue_of v.items ≡ readiness_issues apertures.now fs) }
{
    let rows = host.routing(alloc)?;
    let closed = all_selected_bars(alloc, Sort::Closed, &rows)?;
    let open = all_selected_bars(alloc, Sort::Open, &rows)?;
    let prefetched = first_violations(alloc, ViolationKind::Prefetched, &rows)?;
    let mut told = Vec::new(alloc);
    add_disabled_issues(&mut told, &closed)?;
    add_outside_issues(&mut told, apertures, &open)?;
    add_prefetched_issues(&mut told, &prefetched)?;
    add_primary_bus_issues(&mut told, host, &rows)?;
    Ok(told)
}

/// Returns whether a board has neither problems nor readiness issues. Leaves the host unchanged.
pub fn is_ready(alloc: Global, host: &mut Host, apertures: &Apertures) -> Result<bool, AllocError>
    ensures ready { let fs = host.old.state.functions in
        IfOk result (λ b. b ≡ is_ready apertures.now fs) }
    ensures after { host.new ≡ host.old }
{
    let wrong = problems(alloc, host)?;
    let lacking = readiness_issues(alloc, host, apertures)?;
    Ok(wrong.is_empty() && lacking.is_empty())
}
