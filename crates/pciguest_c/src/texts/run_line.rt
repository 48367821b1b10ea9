//! The calls that run one line of a script or of a firmware session, or explain its refusal.
ghost use Rattle.std.specs.Prelude.{◌≡◌, ◌≢◌, ◌≤◌, Some, None, length};
ghost use Rattle.model_guests.specs.Text.{Text};
ghost use Rattle.pciguest_c.specs.{Calls.{Answers, AnswersLine, run_line, buffer}, Handles.session_of, TextsTold.{IsTold, at_front}};

use crate::handle::Handle;
use crate::texts::reports::{
    copy_whole_to_front, store_text_and_count_if_fits, store_text_if_fits,
};
use crate::values::numbers::{ARGUMENT, MEMORY, NO_MACHINE};
use lines::{Answers, LONGEST_REPLY, LineText, line_error_or_empty};
use script::run_line;
use session::Session;
use std::alloc::Global;

/// Copies a line's reply to the front of a large enough buffer, and stores the length of the reply.
fn store_fitting_reply(text: &LineText, out: &mut [u8], written: &mut usize) -> u32
    requires { 48 ≤ length out.old }
    ensures done { result ≡ 0 }
    ensures text { out.new ≡ at_front text.now.items out.old }
    ensures length { written.new ≡ length text.now.items }
    ensures within { length text.now.items ≤ length out.old }
{
    copy_whole_to_front(out, text.as_slice());
    *written = text.len();
    0
}

/// Runs one line of a script, given without its line feed. Writes the reply, which is empty or one
/// line with its line feed, to the front of `out`, and stores its length. Returns 902 if `out` has
/// fewer than 48 bytes.
#[unsafe(no_mangle)]
pub extern "C" fn pciguest_raw_run_line(
    alloc: Global,
    handle: &mut Handle,
    line: &[u8],
    out: &mut [u8],
    written: &mut usize,
) -> u32
    ensures { Answers (run_line line.now) handle.old handle.new result
        (buffer out.old written.old) (buffer out.new written.new) }
{
    let has_room = LONGEST_REPLY <= out.len();
    let answer = handle.with_machine(alloc, |machine| {
        if has_room {
            Ok(run_line(machine, line))
        } else {
            Err(ARGUMENT)
        }
    });
    match answer {
        Ok(text) => store_fitting_reply(&text, out, written),
        Err(number) => number,
    }
}

/// Runs a line of a session and writes its reply to a buffer. Returns 902 if the buffer is too
/// small, or 299 if memory is exhausted.
fn run_session_line(session: &mut Session, line: &[u8], out: &mut [u8], written: &mut usize) -> u32
    ensures { AnswersLine line.now (length out.old) (Some session.old) (Some session.new) result
        (buffer out.old written.old) (buffer out.new written.new) }
{
    if out.len() < LONGEST_REPLY {
        return ARGUMENT;
    }
    let mut text = LineText::new();
    match session.run_line(line, &mut text) {
        Ok(None) => store_fitting_reply(&text, out, written),
        Ok(Some(longer)) => store_text_if_fits(longer.as_bytes(), out, written),
        Err(_) => MEMORY,
    }
}

/// Runs one line of a session on a board, given without its line feed. While firmware drives the
/// board, the line is a firmware command, an audit, a readiness check, a question why something
/// responds, or the handover to the guests. After the handover, the line is a line of a script.
/// Writes the reply to the front of `out`, which needs at least 48 bytes, and stores its length. If
/// `out` is too small for a reply of several lines, stores only the length, and the line has no
/// effect.
#[unsafe(no_mangle)]
pub extern "C" fn pciguest_raw_board_run_line(
    alloc: Global,
    handle: &mut Handle,
    line: &[u8],
    out: &mut [u8],
    written: &mut usize,
) -> u32
    ensures { let room = length out.old in
        AnswersLine line.now room (session_of handle.old) (session_of handle.new) result
        (buffer out.old written.old) (buffer out.new written.new) }
{
    let Some(mut session) = handle.take(alloc) else {
        return NO_MACHINE;
    };
    let number = run_session_line(&mut session, line, out, written);
    *handle = Handle::of(session);
    number
}

/// Explains why a line is refused because it is malformed, too long, or not from a guest. Writes the
/// explanation, which is empty for any other line, to the front of `out`. Stores its length even if
/// `out` is too small, and the position of the wrong word. Runs nothing.
#[unsafe(no_mangle)]
pub extern "C" fn pciguest_raw_explain_line(
    alloc: Global,
    handle: &mut Handle,
    line: &[u8],
    word: &mut usize,
    out: &mut [u8],
    needed: &mut usize,
) -> u32
    ensures empty { session_of handle.old ≡ None → result ≡ 901 }
    ensures told { result ≢ 901 → (text : Text)
        × IsTold text out.old out.new result × (needed.new ≡ length text) }
    ensures untold { result ≡ 901 → (session_of handle.old ≡ None) × (out.new ≡ out.old)
        × (needed.new ≡ needed.old) }
    ensures word { result ≢ 0 → word.new ≡ word.old }
    ensures kept { session_of handle.new ≡ session_of handle.old }
{
    let Some(held) = handle.take(alloc) else {
        return NO_MACHINE;
    };
    let reason = line_error_or_empty(held.guests(), line);
    *handle = Handle::of(held);
    store_text_and_count_if_fits(reason.text.as_bytes(), reason.at, out, needed, word)
}
