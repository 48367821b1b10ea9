//! Readiness issues as JSON.
ghost use Rattle.std.specs.Prelude.{◌≡◌, IfOk};
ghost use Rattle.serde_json.specs.View.{view};
ghost use Rattle.model_findings.specs.ReadinessIssues.{outside_apertures, other_primary, not_open};
ghost use Rattle.model_findings.specs.ReadinessIssues as model;
ghost use Rattle.findings.specs.Findings.{issue_of};
ghost use Rattle.json_texts.specs.AuditValue.{issue_value};

use crate::has_value::HasValue;
use crate::problem_parts::{bridge_finding_value, live_bar_value, path_value};
use findings::{LiveBar, ReadinessIssue};
use paths::Path;
use serde_json::{Value, json};
use std::alloc::{AllocError, Global};

/// Returns, as JSON, the readiness issue that a BAR is disabled.
fn disabled_bar_issue_value(alloc: Global, region: &LiveBar) -> Result<Value, AllocError>
    ensures { IfOk result (λ v. view v ≡ issue_value (not_open region.now)) }
{
    let region = live_bar_value(alloc, region)?;
    json!(in alloc; {"region": region, "type": "closed"})
}

/// Returns, as JSON, the readiness issue that a BAR is partly outside the apertures.
fn aperture_issue_value(alloc: Global, region: &LiveBar, address: u64) -> Result<Value, AllocError>
    ensures { IfOk result (λ v. view v ≡ issue_value (outside_apertures region.now address)) }
{
    let region = live_bar_value(alloc, region)?;
    json!(in alloc; {"address": address, "region": region, "type": "outside apertures"})
}

/// Returns, as JSON, the readiness issue that a bridge has a wrong Primary Bus Number.
fn wrong_primary_issue_value(
    alloc: Global,
    path: &Path,
    held: u8,
    number: u8,
) -> Result<Value, AllocError>
    ensures { IfOk result (λ v. view v ≡ issue_value (other_primary path.now held number)) }
{
    let path = path_value(alloc, path)?;
    json!(in alloc; {"bus": number, "path": path, "primary": held, "type": "other primary"})
}

impl HasValue for ReadinessIssue {
    ghost Told = { model.ReadinessIssue };

    ghost told = { issue_of };

    ghost shown = { issue_value };

    fn value(&self, alloc: Global) -> Result<Value, AllocError> {
        match self {
            ReadinessIssue::NotOpen { region } => disabled_bar_issue_value(alloc, region),
            ReadinessIssue::OutsideApertures { region, address } => aperture_issue_value(
                alloc, region, *address,
            ),
            ReadinessIssue::Prefetched {
                region,
                bridge,
                address,
            } => bridge_finding_value(alloc, region, bridge, *address, "prefetched"),
            ReadinessIssue::OtherPrimary { path, held, number } => wrong_primary_issue_value(
                alloc, path, *held, *number,
            ),
        }
    }
}
