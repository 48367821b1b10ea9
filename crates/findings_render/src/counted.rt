//! Renders findings as lines of text and counts them.
ghost use Rattle.std.specs.Prelude.{◌≡◌, ◌+◌, length, map, IfOk, string_bytes};
ghost use Rattle.model_findings.specs.{AuditText.audit_text, ReadyText.ready_text};
ghost use Rattle.findings.specs.Findings.{problem_of, issue_of};

use crate::issue_lines::{push_issue_lines, push_ready_total_line};
use crate::problem_lines::{push_problem_count_line, push_problem_lines};
use findings::{Problem, ReadinessIssue};
use std::alloc::{AllocError, Global};

/// The text about a board's problems, or about its problems and readiness issues, with their
/// number.
#[derive(Drop)]
pub struct CountedText {
    pub text: String,
    pub count: usize,
}

impl CountedText {
    /// Renders a line for each problem and a last line such as `audit: ok` or `audit: 2 problems`.
    pub fn of_problems(alloc: Global, problems: &[Problem]) -> Result<CountedText, AllocError>
        ensures text { IfOk result (λ t.
            string_bytes t.text ≡ audit_text (map problem_of problems.now)) }
        ensures count { IfOk result (λ t. t.count ≡ length (map problem_of problems.now)) }
    {
        let count = problems.len();
        let mut text = String::new(alloc);
        push_problem_lines(&mut text, problems)?;
        push_problem_count_line(&mut text, count)?;
        Ok(CountedText { text, count })
    }

    /// Renders a line for each problem and each readiness issue, and a last line such as `ready:
    /// ok` or `ready: 2 problems, 5 left to do`.
    pub fn of_issues(
        alloc: Global,
        problems: &[Problem],
        readiness_issues: &[ReadinessIssue],
    ) -> Result<CountedText, AllocError>
        ensures text { let ps = map problem_of problems.now in
            let ls = map issue_of readiness_issues.now in
            IfOk result (λ t. string_bytes t.text ≡ ready_text ps ls) }
        ensures count { let ps = map problem_of problems.now in
            let ls = map issue_of readiness_issues.now in
            IfOk result (λ t. t.count ≡ length ps + length ls) }
    {
        let mut text = String::new(alloc);
        push_problem_lines(&mut text, problems)?;
        push_issue_lines(&mut text, readiness_issues)?;
        push_ready_total_line(&mut text, problems.len(), readiness_issues.len())?;
        let count = problems.len() + readiness_issues.len();
        Ok(CountedText { text, count })
    }
}
