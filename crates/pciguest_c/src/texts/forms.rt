//! The report of a board file, the text of a check, and the forms of texts.
ghost use Rattle.std.specs.{Prelude.{◌≡◌, ◌≢◌, ◌⊎◌, ◌≤◌, ◌<◌, IfOk, IfErr, string_bytes}, Option.option_map_or};
ghost use Rattle.model_guests.specs.World.{World};
ghost use Rattle.session.specs.{Faults.number_of, Files.{Refuses, Breaks, IsSetUp}};
ghost use Rattle.board_told.specs.Listing.{report_in};
ghost use Rattle.pciguest_c.specs.{Checks.IsCheckOf, TextsTold.{form_of, question_of}};

use board_told::{MessageLayout, WarningLevel, check_board_file, list_board_file};
use session::{OpenFault, Question, Report, ReportForm};
use std::alloc::Global;

/// Returns the form of a text: JSON or lines.
pub fn form_of(is_json: bool) -> ReportForm
    ensures { result ≡ form_of is_json }
{
    if is_json {
        ReportForm::Json
    } else {
        ReportForm::Lines
    }
}

/// Returns the question to ask about a board: whether it is ready, or which problems its registers
/// have.
pub fn question_of(is_ready: bool, is_json: bool) -> Question
    ensures { result ≡ question_of is_ready is_json }
{
    let form = form_of(is_json);
    let report = if is_ready {
        Report::Ready
    } else {
        Report::Audit
    };
    Question { report, form }
}

/// Returns the report of a board file in a form, or the error number.
pub fn report_or_error(alloc: Global, board: &[u8], form: ReportForm) -> Result<String, u32>
    ensures report { IfOk result (λ t.
        (w : World) × IsSetUp board.now w × (string_bytes t ≡ report_in form w)) }
    ensures file { IfErr result (λ n. n < 199 → Refuses board.now n) }
    ensures placement { IfErr result (λ n. 199 < n → n < 299 → Breaks board.now n) }
    ensures numbers { IfErr result (λ n. (n ≢ 0) × (n ≤ 299)) }
{
    match list_board_file(alloc, board, form) {
        Ok(text) => Ok(text),
        Err(fault) => Err(u32::from(fault.number())),
    }
}

/// Returns the number of a fault, or 0 if there is none.
fn number_or_zero(fault: Option<OpenFault>) -> u32
    ensures { result ≡ option_map_or number_of fault 0 }
{
    match fault {
        Some(fault) => u32::from(fault.number()),
        None => 0,
    }
}

/// The name of the board file in a check's error messages. The caller passes only its bytes.
const BOARD_NAME: &str = "board.toml";

/// Checks a board file. Returns the text, and the error number of the file or its board, or 0.
/// Returns 199 or 299 if memory is exhausted.
pub fn check_text_and_fault_number(alloc: Global, board: &[u8]) -> Result<(String, u32), u32>
    ensures told { IfOk result (λ v. IsCheckOf board.now v.1) }
    ensures numbers { IfOk result (λ v. (v.1 < 299) × (v.1 ≢ 199)) }
    ensures memory { IfErr result (λ n. (n ≡ 199) ⊎ (n ≡ 299)) }
{
    match check_board_file(
        alloc,
        MessageLayout::Plain,
        WarningLevel::Likely,
        BOARD_NAME,
        board,
    ) {
        Ok(checked) => Ok((checked.text, number_or_zero(checked.fault))),
        Err(fault) => Err(u32::from(fault.number())),
    }
}
