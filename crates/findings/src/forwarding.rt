//! Finds enabled BARs that a bridge above them doesn't forward.
ghost use Rattle.std.specs.Prelude.{◌≡◌, ◌++◌, map, OnOk};
ghost use Rattle.model_findings.specs.Problems.{first_unforwarded_address};
ghost use Rattle.findings.specs.{BridgeViolations.unforwarded_problem, Findings.problem_of};

use crate::bridge_violation::BridgeViolation;
use crate::missed_address::first_missed_address;
use crate::problem::Problem;
use crate::region::LiveBar;
use crate::row::forwarding_windows;
use bridge_forward::RoutingRow;
use std::alloc::AllocError;

/// Returns the lowest address of a BAR that a bridge doesn't forward, if there is one.
pub(crate) fn first_unforwarded_address(row: &RoutingRow, region: &LiveBar) -> Option<u64>
    ensures { result ≡ first_unforwarded_address row.now region.now }
{
    let (one, other) = forwarding_windows(row, region.region.kind.space());
    first_missed_address(region, one, other)
}

/// Appends a problem for each BAR that a bridge doesn't forward.
pub(crate) fn add_not_forwarded_problems(
    told: &mut Vec<Problem>,
    blames: &[BridgeViolation],
) -> Result<(), AllocError>
    ensures { OnOk result (map problem_of told.new.items
        ≡ map problem_of told.old.items ++ map unforwarded_problem blames.now) }
{
    for blame in blames {
        told.push(Problem::NotForwarded {
            region: blame.region.copied(),
            bridge: blame.bridge.copied(),
            address: blame.address,
        })?;
    }
    Ok(())
}
