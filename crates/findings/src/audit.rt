//! Audits the registers of a board.
ghost use Rattle.std.specs.Prelude.{◌≡◌, map, IfOk};
ghost use Rattle.model_findings.specs.Problems.{problems, routing_problems};
ghost use Rattle.findings.specs.Findings.{problem_of};

use crate::agents::agents;
use crate::bridge_violation::{ViolationKind, first_violations};
use crate::contention::add_all_contentions;
use crate::forwarding::add_not_forwarded_problems;
use crate::numbering::add_numbering_problems;
use crate::problem::Problem;
use crate::span::overlapping_agents;
use bridge_forward::RoutingRow;
use host_bridge::Host;
use std::alloc::{AllocError, Global};

/// Returns the routing problems: enabled BARs that a bridge doesn't forward, then address conflicts
/// between responders on the same bus. Pairs of responders are compared only on buses where a sweep
/// through the sorted addresses found an overlap.
fn routing_problems(alloc: Global, rows: &[RoutingRow]) -> Result<Vec<Problem>, AllocError>
    ensures { IfOk result (λ v. map problem_of v.items ≡ routing_problems rows.now) }
{
    let unforwarded = first_violations(alloc, ViolationKind::NotForwarded, rows)?;
    let mut told = Vec::new(alloc);
    add_not_forwarded_problems(&mut told, &unforwarded)?;
    let agents = agents(alloc, rows)?;
    let overlapping_agents = overlapping_agents(alloc, &agents)?;
    add_all_contentions(&mut told, &overlapping_agents)?;
    Ok(told)
}

/// Returns every problem in the current registers of a board: enabled BARs that a bridge doesn't
/// forward, address conflicts on a bus, and functions that no configuration cycle reaches. Leaves
/// the host unchanged.
pub fn problems(alloc: Global, host: &mut Host) -> Result<Vec<Problem>, AllocError>
    ensures told { IfOk result (λ v.
        map problem_of v.items ≡ problems host.old.state.functions) }
    ensures after { host.new ≡ host.old }
{
    let rows = host.routing(alloc)?;
    let mut told = routing_problems(alloc, &rows)?;
    add_numbering_problems(&mut told, host, &rows)?;
    Ok(told)
}
