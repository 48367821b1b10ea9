//! Renders problems and readiness issues as JSON.
ghost use Rattle.std.specs.Prelude.{◌≡◌, ◌++◌, ◌∷◌, [], false, IfOk, map, string_bytes};
ghost use Rattle.serde_json.specs.{View.view, Written.{compact_text, has_float}};
ghost use Rattle.findings.specs.Findings.{problem_of, issue_of};
ghost use Rattle.json_texts.specs.AuditValue.{problems_value, problems_json, readiness_value, readiness_json};

use crate::has_value::values;
use findings::{Problem, ReadinessIssue};
use serde_json::{Value, json};
use std::alloc::{AllocError, Global};

/// Returns the JSON object for the problems.
fn problems_value(alloc: Global, problems: &[Problem]) -> Result<Value, AllocError>
    ensures { IfOk result (λ v. view v ≡ problems_value (map problem_of problems.now)) }
{
    let problems = values(alloc, problems)?;
    json!(in alloc; {"problems": problems})
}

/// Returns the JSON object for the problems and the readiness issues.
fn readiness_value(
    alloc: Global,
    problems: &[Problem],
    readiness_issues: &[ReadinessIssue],
) -> Result<Value, AllocError>
    ensures { IfOk result (λ v. view v
        ≡ readiness_value (map problem_of problems.now) (map issue_of readiness_issues.now)) }
{
    let readiness_issues = values(alloc, readiness_issues)?;
    let wrong = values(alloc, problems)?;
    json!(in alloc; {"lacks": readiness_issues, "problems": wrong})
}

/// Renders a JSON value on one line. The value must not contain floating-point numbers.
pub(crate) fn render_json_line(alloc: Global, value: &Value) -> Result<String, AllocError>
    requires { has_float (view value.now) ≡ false }
    ensures { IfOk result (λ t. string_bytes t ≡ compact_text (view value.now) ++ 10 ∷ []) }
{
    let mut text = value.to_string(alloc)?;
    text.push('\n')?;
    Ok(text)
}

/// Renders the problems as a JSON object on one line, in their order. Fails only if memory is
/// exhausted.
#[tactic(auto, using(crate::proofs::NoFloatsInAudits::none_in_problems))]
pub fn problems_json(alloc: Global, problems: &[Problem]) -> Result<String, AllocError>
    ensures { IfOk result (λ t. string_bytes t ≡ problems_json (map problem_of problems.now)) }
{
    let value = problems_value(alloc, problems)?;
    render_json_line(alloc, &value)
}

/// Renders the problems and the readiness issues as a JSON object on one line, each in their order.
/// Fails only if memory is exhausted.
#[tactic(auto, using(crate::proofs::NoFloatsInAudits::none_in_issues))]
pub fn readiness_json(
    alloc: Global,
    problems: &[Problem],
    readiness_issues: &[ReadinessIssue],
) -> Result<String, AllocError>
    ensures { IfOk result (λ t. string_bytes t
        ≡ readiness_json (map problem_of problems.now) (map issue_of readiness_issues.now)) }
{
    let value = readiness_value(alloc, problems, readiness_issues)?;
    render_json_line(alloc, &value)
}
