//! Collects the responders of all functions.
ghost use Rattle.std.specs.Prelude.{◌≡◌, ◌++◌, map, IfOk, OnOk};
ghost use Rattle.model_findings.specs.Agents.{region_agent, agents_of, agents};

use crate::agent::Agent;
use crate::region::LiveBar;
use crate::regions::{Sort, add_selected_of_function};
use bars::Space;
use bridge_forward::{Ranges, RoutingRow};
use std::alloc::{AllocError, Global};

/// Appends the responders for enabled BARs.
fn add_region_agents(told: &mut Vec<Agent>, regions: &[LiveBar]) -> Result<(), AllocError>
    ensures { OnOk result (told.new.items ≡ told.old.items ++ map region_agent regions.now) }
{
    for region in regions {
        told.push(Agent::of_region(region))?;
    }
    Ok(())
}

/// Appends the responders for a function.
fn add_row_agents(alloc: Global, told: &mut Vec<Agent>, row: &RoutingRow) -> Result<(), AllocError>
    ensures { OnOk result (told.new.items ≡ told.old.items ++ agents_of row.now) }
{
    match &row.ranges {
        Ranges::Regions(_) => {
            let mut regions = Vec::new(alloc);
            add_selected_of_function(&mut regions, Sort::Open, row)?;
            add_region_agents(told, &regions)
        }
        Ranges::Windows { .. } => {
            told.push(Agent::of_bridge(row, Space::Io))?;
            told.push(Agent::of_bridge(row, Space::Mem))?;
            Ok(())
        }
    }
}

/// Returns the responders for all functions.
pub(crate) fn agents(alloc: Global, rows: &[RoutingRow]) -> Result<Vec<Agent>, AllocError>
    ensures { IfOk result (λ v. v.items ≡ agents rows.now) }
{
    let mut told = Vec::new(alloc);
    for row in rows {
        add_row_agents(alloc, &mut told, row)?;
    }
    Ok(told)
}
