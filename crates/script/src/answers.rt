//! Execution of a script's lines.
ghost use Rattle.std.specs.Prelude.{◌≡◌, ◌<◌, ◌++◌, ◌∷◌, [], length, option_map, MatchOption, IfSome};
ghost use Rattle.model_guests.specs.{Text.Text, Replies.line_text, WorldNow.{names_now, written_by, line_output}, Calls.asks};
ghost use Rattle.model_handoff.specs.{Actions.calls, Changes.{after_on_machine, after_line_on_machine, machine_protocol}};
ghost use Rattle.accesses.specs.{Accesses.reply_of, Replies.IsShown};
ghost use Rattle.lines.specs.{Pieces.IsBefore, Lines.{who_of, meaning_of, GuestIs, GuestsAre}};
ghost use Rattle.script.specs.Refusals.{refusal_of, reply_to, refusal_in, refusal_on_machine};

use lines::{Answer, Answers, LineText, What, Who, parse_line_meaning, write_reply_line};
use monitor::{Monitor, Names, Refusal, Reply};
use std::alloc::AllocError;

/// Executes a parsed line. Returns the reply and the name under which it is sent, if the line has
/// output.
#[inline(always)]
pub fn execute_line_meaning(monitor: &mut Monitor, what: What) -> Option<(Who, Reply)>
    requires { GuestsAre (λ g. g < length (names_now monitor.old.world)) what }
    ensures written { let written = written_by monitor.old.world
        (meaning_of (names_now monitor.old.world) what) in
        MatchOption result (written ≡ []) (λ a. written
        ≡ line_text (who_of (names_now monitor.new.world) a.0) (reply_of a.1) ∷ []) }
    ensures reply { option_map (λ a. reply_of a.1) result
        ≡ reply_to monitor.old.world (meaning_of (names_now monitor.old.world) what) }
    ensures after { let m = meaning_of (names_now monitor.old.world) what in
        monitor.new ≡ after_on_machine monitor.old (calls (asks m)) }
    ensures who { IfSome result
        (λ a. GuestIs (λ g. g < length (names_now monitor.new.world)) a.0) }
    ensures shown { IfSome result (λ a. IsShown a.1) }
{
    match what {
        What::Nothing => None,
        What::Guest(guest, access) => {
            let reply = monitor.step(guest, access);
            Some((Who::Guest(guest), reply))
        }
        What::Raise(guest, slot, place, off, mask) => {
            let reply = monitor.raise(guest, slot, place, off, mask);
            Some((Who::Guest(guest), reply))
        }
        What::Host(read) => {
            let told = monitor.host_read(read);
            Some((Who::Host, told))
        }
        What::Move(from, slot, to, target) => {
            let reply = monitor.move_function(from, slot, to, target);
            Some((Who::Host, reply))
        }
        What::Bad(who, why) => Some((who, Reply::Refused(why))),
    }
}

/// Returns the number of a refusal, or `None` for any other reply.
#[inline(always)]
pub fn refusal_number(reply: Reply) -> Option<u16>
    ensures { result ≡ refusal_of (reply_of reply) }
{
    match reply {
        Reply::Refused(why) => Some(why.number()),
        _ => None,
    }
}

/// Executes a line and writes its output to `text`, which must be empty: nothing, or one line with
/// its line feed. Returns the number of the refusal, if the line is refused. All replies are
/// written in one place, to a text that isn't moved afterwards, which is faster.
#[inline(always)]
fn run_line_into_text(monitor: &mut Monitor, line: &[u8], text: &mut LineText) -> Option<u16>
    requires { text.old.items ≡ [] }
    ensures text { text.new.items ≡ line_output monitor.old.world line.now }
    ensures refused { result ≡ refusal_in monitor.old.world line.now }
    ensures after { monitor.new ≡ after_line_on_machine monitor.old line.now }
{
    let what = parse_line_meaning(line, monitor.names());
    let (who, reply) = execute_line_meaning(monitor, what)?;
    let refused = refusal_number(reply);
    write_reply_line(text, who, monitor.names(), reply);
    refused
}

/// Executes a line and returns its output: nothing, or one line with its line feed. Allocates no
/// memory.
pub fn run_line(monitor: &mut Monitor, line: &[u8]) -> LineText
    ensures text { result.items ≡ line_output monitor.old.world line.now }
    ensures after { monitor.new ≡ after_line_on_machine monitor.old line.now }
{
    let mut text = LineText::new();
    let _ = run_line_into_text(monitor, line, &mut text);
    text
}

/// Executes a line and writes its output to `text`, which must be empty: nothing, or one line with
/// its line feed. Returns the number of the refusal, if the line is refused. If `long` is set,
/// earlier bytes of the line were skipped. Allocates no memory. Compiled once for both scripts and
/// sessions, with its callees inlined, which is faster.
#[inline(never)]
pub fn answer_line(
    monitor: &mut Monitor,
    line: &[u8],
    long: bool,
    text: &mut LineText,
) -> Option<u16>
    requires { text.old.items ≡ [] }
    ensures text { (before : Text) → IsBefore long before →
        text.new.items ≡ line_output monitor.old.world (before ++ line.now) }
    ensures refused { (before : Text) → IsBefore long before →
        result ≡ refusal_in monitor.old.world (before ++ line.now) }
    ensures after { (before : Text) → IsBefore long before →
        monitor.new ≡ after_line_on_machine monitor.old (before ++ line.now) }
{
    // A long line has no effect, and the reply is the same for all of them.
    if long {
        write_reply_line(
            text,
            Who::Unknown,
            monitor.names(),
            Reply::Refused(Refusal::LongLine),
        );
        return Some(Refusal::LongLine.number());
    }
    run_line_into_text(monitor, line, text)
}

/// The language of scripts, which a monitor answers.
pub struct Script;

impl Answers<Script> for Monitor {
    ghost protocol = { machine_protocol };

    ghost refusal = { refusal_on_machine };

    ghost TakesMemory = { ⊥ };

    #[inline(always)]
    fn answer(
        &mut self,
        line: &[u8],
        long: bool,
        text: &mut LineText,
    ) -> Result<Answer, AllocError> {
        let refused = answer_line(self, line, long, text);
        Ok(Answer::one_line_at_most(refused))
    }

    #[inline(always)]
    fn guests(&self) -> Option<&Names> {
        Some(self.names())
    }
}
