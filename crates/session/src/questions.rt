//! Questions about the current registers of a board, and their answers as lines or as JSON.
ghost use Rattle.std.specs.Prelude.{◌≡◌, IfOk, map, string_bytes};
ghost use Rattle.findings.specs.Findings.{problem_of, issue_of};
ghost use Rattle.model_guests.specs.WorldNow.{board_state};
ghost use Rattle.accesses.specs.Accesses.{host_target_of};
ghost use Rattle.session.specs.Questions.{report_in, counted_in, why_in, told_by, counted_by};

use crate::board::Board;
use accesses::HostAt;
use findings::{Problem, ReadinessIssue, problems, readiness_issues};
use findings_render::{CountedText, host_why_text};
use headers::Apertures;
use json_texts::{host_explanation_json, problems_json, readiness_json};
use lines::Report;
use monitor::Monitor;
use std::alloc::{AllocError, Global};

/// The output format of a report.
#[derive(Clone, Copy, Debug, PartialEq, Eq)]
pub enum ReportForm {
    /// Lines of text.
    Lines,
    /// A JSON object on one line.
    Json,
}

/// A question about the current registers of a board: the report that answers it, and its format.
#[derive(Clone, Copy)]
pub struct Question {
    pub report: Report,
    pub form: ReportForm,
}

/// Renders a report about these problems and readiness issues, and counts what it lists. An audit
/// lists only the problems.
fn render_report(
    alloc: Global,
    question: Question,
    problems: &[Problem],
    readiness_issues: &[ReadinessIssue],
) -> Result<CountedText, AllocError>
    ensures text { let ps = map problem_of problems.now in
        let ls = map issue_of readiness_issues.now in
        IfOk result (λ t. string_bytes t.text ≡ report_in question.report question.form ps ls) }
    ensures count { let ps = map problem_of problems.now in
        let ls = map issue_of readiness_issues.now in
        IfOk result (λ t. t.count ≡ counted_in question.report ps ls) }
{
    match (question.report, question.form) {
        (Report::Audit, ReportForm::Lines) => CountedText::of_problems(alloc, problems),
        (Report::Audit, ReportForm::Json) => {
            let text = problems_json(alloc, problems)?;
            let count = problems.len();
            Ok(CountedText { text, count })
        }
        (Report::Ready, ReportForm::Lines) => {
            CountedText::of_issues(alloc, problems, readiness_issues)
        }
        (Report::Ready, ReportForm::Json) => {
            let text = readiness_json(alloc, problems, readiness_issues)?;
            let count = problems.len() + readiness_issues.len();
            Ok(CountedText { text, count })
        }
    }
}

impl Board {
    /// Answers a question about the registers as they are now, given these apertures. Changes
    /// nothing, even if memory is exhausted.
    pub fn ask(
        &mut self,
        alloc: Global,
        question: Question,
        apertures: &Apertures,
    ) -> Result<CountedText, AllocError>
        ensures text { IfOk result (λ t.
            string_bytes t.text ≡ told_by question apertures.now self.old.state.functions) }
        ensures count { IfOk result (λ t.
            t.count ≡ counted_by question apertures.now self.old.state.functions) }
        ensures after { self.new ≡ self.old }
    {
        let found = problems(alloc, &mut self.host)?;
        match question.report {
            Report::Audit => render_report(alloc, question, &found, &[]),
            Report::Ready => {
                let lacking = readiness_issues(alloc, &self.host, apertures)?;
                render_report(alloc, question, &found, &lacking)
            }
        }
    }

    /// Explains where an access by firmware goes with the registers as they are now: which function
    /// it reaches, or why it reaches none. The offset of a configuration access is ignored. Changes
    /// nothing, even if memory is exhausted.
    pub fn explain_access(
        &mut self,
        alloc: Global,
        form: ReportForm,
        at: HostAt,
    ) -> Result<String, AllocError>
        ensures text { IfOk result (λ t.
            string_bytes t ≡ why_in form self.old.state (host_target_of at)) }
        ensures after { self.new ≡ self.old }
    {
        match form {
            ReportForm::Lines => host_why_text(alloc, &mut self.host, at),
            ReportForm::Json => host_explanation_json(alloc, &mut self.host, at),
        }
    }
}

/// Answers a question about the registers of a machine's board as they are now, given these
/// apertures. Changes nothing, even if memory is exhausted.
pub(crate) fn ask_machine(
    alloc: Global,
    machine: &mut Monitor,
    question: Question,
    apertures: &Apertures,
) -> Result<CountedText, AllocError>
    ensures text { let functions = (board_state machine.old.world).functions in
        IfOk result (λ t. string_bytes t.text ≡ told_by question apertures.now functions) }
    ensures count { let functions = (board_state machine.old.world).functions in
        IfOk result (λ t. t.count ≡ counted_by question apertures.now functions) }
    ensures after { machine.new ≡ machine.old }
{
    let found = machine.audit_board(alloc)?;
    match question.report {
        Report::Audit => render_report(alloc, question, &found, &[]),
        Report::Ready => {
            let lacking = machine.readiness_issues(alloc, apertures)?;
            render_report(alloc, question, &found, &lacking)
        }
    }
}
