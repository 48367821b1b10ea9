//! Problems as JSON.
ghost use Rattle.std.specs.Prelude.{◌≡◌, IfOk};
ghost use Rattle.serde_json.specs.View.{view};
ghost use Rattle.paths.specs.BusAddresses.{bus_address_of};
ghost use Rattle.model_findings.specs.Problems.{contended, not_found};
ghost use Rattle.model_findings.specs.Problems as model;
ghost use Rattle.findings.specs.Findings.{problem_of};
ghost use Rattle.json_texts.specs.AuditValue.{problem_value};

use crate::has_value::HasValue;
use crate::problem_parts::{
    agent_value, bdf_value, bridge_finding_value, path_or_null, path_value, space_text,
};
use findings::{Agent, Problem};
use paths::{Bdf, Path};
use serde_json::{Value, json};
use std::alloc::{AllocError, Global};

/// Returns, as JSON, the address conflict between two responders.
fn contended_problem_value(
    alloc: Global,
    one: &Agent,
    other: &Agent,
    address: u64,
) -> Result<Value, AllocError>
    ensures { IfOk result (λ v. view v ≡ problem_value (contended one.now other.now address)) }
{
    let space = space_text(one.space);
    let one = agent_value(alloc, one)?;
    let other = agent_value(alloc, other)?;
    let agents = vec![in alloc; one, other]?;
    json!(in alloc; {"address": address, "agents": agents, "space": space, "type": "contended"})
}

/// Returns, as JSON, the problem that a function isn't reached by its BDF.
fn not_found_problem_value(
    alloc: Global,
    path: &Path,
    at: Bdf,
    instead: &Option<Path>,
) -> Result<Value, AllocError>
    ensures { IfOk result (λ v. view v
        ≡ problem_value (not_found path.now (bus_address_of at) instead.now)) }
{
    let number = bdf_value(alloc, at)?;
    let path = path_value(alloc, path)?;
    let reached = path_or_null(alloc, instead)?;
    json!(in alloc; {"number": number, "path": path, "reached": reached, "type": "not found"})
}

impl HasValue for Problem {
    ghost Told = { model.Problem };

    ghost told = { problem_of };

    ghost shown = { problem_value };

    fn value(&self, alloc: Global) -> Result<Value, AllocError> {
        match self {
            Problem::NotForwarded {
                region,
                bridge,
                address,
            } => bridge_finding_value(alloc, region, bridge, *address, "not forwarded"),
            Problem::Contended {
                one,
                other,
                address,
            } => contended_problem_value(alloc, one, other, *address),
            Problem::NotFound {
                path,
                address,
                instead,
            } => not_found_problem_value(alloc, path, *address, instead),
        }
    }
}
