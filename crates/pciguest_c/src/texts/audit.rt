//! The calls that report the problems in a board's registers and the work left to do there, as
//! lines or as JSON.
ghost use Rattle.std.specs.Prelude.{◌≡◌, IfOk, IfErr, string_bytes};
ghost use Rattle.model_lines.specs.Sessions.{driven};
ghost use Rattle.pciguest_c.specs.{Calls.{AnswersBoardOrRunsOut, board_survey, surveying, counted, counter, refusal, tells, unless_out}, TextsTold.question_of};

use crate::handle::Handle;
use crate::texts::forms::question_of;
use crate::texts::reports::store_text_and_count_if_fits;
use crate::values::numbers::MEMORY;
use session::{Board, CountedText, Question};
use std::alloc::Global;

/// Answers a question about the board's registers, or returns 299 if memory is exhausted.
#[tactic(auto, unfolding(crate::specs::Calls::surveying))]
fn ask_or_error(alloc: Global, board: &mut Board, question: Question) -> Result<CountedText, u32>
    ensures told { IfOk result (λ t. surveying question board.old
        ≡ tells (counted (string_bytes t.text) t.count) (driven board.old)) }
    ensures memory { IfErr result (λ n.
        unless_out n (surveying question board.old) ≡ refusal n) }
    ensures kept { board.new ≡ board.old }
{
    let apertures = board.apertures();
    board.ask(alloc, question, &apertures).map_err(|_| MEMORY)
}

/// Writes the problems in the board's current registers to the front of `out`, as lines or as a
/// one-line JSON object; if `is_ready`, also the work left to do given the apertures of the board's
/// file. Stores the number of entries, and the length of the text even if `out` is too small. The
/// board doesn't change.
#[unsafe(no_mangle)]
pub extern "C" fn pciguest_raw_board_survey(
    alloc: Global,
    handle: &mut Handle,
    out: &mut [u8],
    needed: &mut usize,
    count: &mut usize,
    is_ready: bool,
    is_json: bool,
) -> u32
    ensures { let question = question_of is_ready is_json in
        AnswersBoardOrRunsOut (board_survey question) handle.old handle.new result
        (counter out.old needed.old count.old) (counter out.new needed.new count.new) }
{
    let question = question_of(is_ready, is_json);
    match handle.with_board(alloc, |board| ask_or_error(alloc, board, question)) {
        Ok(CountedText { text, count: found }) => {
            store_text_and_count_if_fits(text.as_bytes(), found, out, needed, count)
        }
        Err(number) => number,
    }
}
