//! The stages of a session, and the handover from one to the other.
ghost use Rattle.std.specs.Prelude.{◌≡◌, [], Some, option_map, string_bytes, IfOk, IfErr, OnOk, OnErr, IfSome};
ghost use Rattle.model_guests.specs.Text.{Text};
ghost use Rattle.model_lines.specs.{Requests.{for_guests, request}, Sessions.{session_output, after_session_line}};
ghost use Rattle.lines.specs.Pieces.{with_more};
ghost use Rattle.session.specs.{Boards.{IsHandedOverAs, IsRefusalOf}, Refusals.refusal_in, Stages.{session_now, board_in, IsAtLine, IsDriven}};

use crate::board::Board;
use crate::telling::handover_refusal_text;
use accesses::Reply;
use lines::{Answer, LineText, write_named_reply_line};
use monitor::{HandoverFault, Monitor, Refused};
use std::alloc::{AllocError, Global};
use std::mem;

/// The stage of a session.
#[derive(Drop)]
pub(crate) enum Stage {
    /// Firmware drives the board, and no function is assigned to a guest.
    Driven(Board),
    /// The board is assigned to its guests.
    Given(Monitor),
    /// A handover is in progress. Between lines, a session is never in this stage.
    Between,
}

/// Hands the board over to its guests, or returns the reason why it can't be handed over, and
/// leaves it unchanged.
pub(crate) fn hand_over(alloc: Global, stage: &mut Stage) -> Result<(), HandoverFault>
    requires driven { IsDriven (session_now stage.old) }
    requires at_line { IsAtLine stage.old }
    ensures given { OnOk result (IfSome (board_in (session_now stage.old)) (λ b.
        IsHandedOverAs b (session_now stage.new))) }
    ensures kept { OnErr result (stage.new ≡ stage.old) }
    ensures refused { IfErr result (λ f. IfSome (board_in (session_now stage.old)) (λ b.
        IsRefusalOf b f)) }
    ensures at_line { IsAtLine stage.new }
{
    let Stage::Driven(board) = mem::replace(stage, Stage::Between) else {
        unreachable!()
    };
    match board.hand_over(alloc) {
        Ok(monitor) => {
            *stage = Stage::Given(monitor);
            Ok(())
        }
        Err(refused) => {
            let Refused { board, fault } = refused;
            *stage = Stage::Driven(board);
            Err(fault)
        }
    }
}

/// Hands the board over to its guests, and writes the reply to `text`. If the handover is refused,
/// returns the reason and the reply in the answer instead.
pub(crate) fn answer_handover(
    alloc: Global,
    stage: &mut Stage,
    text: &mut LineText,
) -> Result<Answer, AllocError>
    requires driven { IsDriven (session_now stage.old) }
    requires at_line { IsAtLine stage.old }
    requires empty { text.old.items ≡ [] }
    ensures text { IfOk result (λ a. (line : Text) → request line ≡ Some for_guests →
        with_more text.new.items (option_map string_bytes a.more)
        ≡ session_output (session_now stage.old) line) }
    ensures refused { IfOk result (λ a. (line : Text) → request line ≡ Some for_guests →
        a.refused ≡ refusal_in (session_now stage.old) line) }
    ensures after { OnOk result ((line : Text) → request line ≡ Some for_guests →
        session_now stage.new ≡ after_session_line (session_now stage.old) line) }
    ensures more { IfOk result (λ a.
        IfSome a.more (λ _.
        (session_now stage.new ≡ session_now stage.old) × (text.new ≡ text.old))) }
    ensures kept { OnErr result ((stage.new ≡ stage.old) × (text.new ≡ text.old)) }
    ensures at_line { IsAtLine stage.new }
{
    match hand_over(alloc, stage) {
        Ok(()) => {
            write_named_reply_line(text, b"host", Reply::Done);
            Ok(Answer::one_line_at_most(None))
        }
        Err(fault) => {
            let told = handover_refusal_text(alloc, &fault)?;
            Ok(Answer {
                more: Some(told),
                refused: Some(fault.number()),
            })
        }
    }
}
