//! Error messages of board files.
ghost use Rattle.std.specs.Prelude.{IfSome};
ghost use Rattle.toml.specs.Errors.{IsWithin};
ghost use Rattle.board_refusal.specs.Telling.{IsPlaceIn};

use crate::helps::push_remedy_if_any;
use crate::placed_breach::PlacedBreach;
use crate::problems::problems_reported_with;
use crate::sentences::push_problem_sentence;
use board_file::{BoardFault, Source};
use diagnostics::{
    Head, MessageLayout, Position, RenderOptions, TextPlace, line_of, push_excerpt_if_enabled,
    push_head_excerpt_if_enabled,
};
use std::alloc::{AllocError, Global};
use toml::de::Error;

/// Returns the beginning of the message of a problem. It points at the cause of the problem, if
/// that isn't the value that the rule is about.
fn head_at_cause<'a>(
    options: RenderOptions<'a>,
    source: &Source<'a>,
    placed: &PlacedBreach<'a>,
) -> Head<'a> {
    let (entry, key, place) = match placed.cause {
        Some(cause) => (cause.entry, placed.cause_key, cause.place),
        None => (placed.problem.entry, placed.problem.key, placed.place),
    };
    Head {
        options,
        label: "error",
        bytes: source.bytes,
        document: source.document,
        entry,
        key,
        place,
    }
}

/// Appends the message of a problem: the place and the entry, a sentence, the line of the file, and
/// a remedy.
fn push_problem_message<'a>(
    alloc: Global,
    text: &mut String,
    options: RenderOptions<'a>,
    source: &Source<'a>,
    placed: &PlacedBreach<'a>,
) -> Result<(), AllocError> {
    let head = head_at_cause(options, source, placed);
    write!(text, "{head}")?;
    push_problem_sentence(text, source, placed, head)?;
    writeln!(text, " ({})", placed.problem.rule.fault().number())?;
    push_head_excerpt_if_enabled(alloc, text, &head)?;
    let mut remedy = String::new(alloc);
    push_remedy_if_any(alloc, &mut remedy, &source.file, placed.problem)?;
    if remedy.is_empty() {
        return Ok(());
    }
    writeln!(text, "  help: {remedy}")
}

/// Returns the messages for a board file that is refused with this fault, and then their number.
/// `name` is the file name to show. With excerpts, the line of the file is shown below each message
/// if it is known.
pub fn refusal_report(
    alloc: Global,
    layout: MessageLayout,
    name: &str,
    source: &Source<'_>,
    fault: BoardFault,
) -> Result<String, AllocError> {
    let problems = problems_reported_with(alloc, source, fault)?;
    let mut text = String::new(alloc);
    for problem in &problems {
        push_problem_message(
            alloc,
            &mut text,
            RenderOptions { layout, name },
            &*source,
            &*problem,
        )?;
    }
    let count = problems.len();
    let noun = if count == 1 { "error" } else { "errors" };
    writeln!(text, "{count} {noun}")?;
    Ok(text)
}

/// Returns the place at which parsing failed.
fn place_of_error(bytes: &[u8], error: &Error) -> Option<TextPlace>
    requires { IsWithin bytes.now error.now }
    ensures { IfSome result (IsPlaceIn bytes.now) }
{
    match error.span() {
        Some(range) => Some(TextPlace {
            line: line_of(range.start, bytes),
            start: range.start,
            end: range.end,
        }),
        None => None,
    }
}

/// Returns the message for bytes that aren't a TOML document: a line with the parser's reason.
/// `name` is the file name to show. With excerpts, the line at which parsing failed is shown below.
pub fn toml_error_message(
    alloc: Global,
    layout: MessageLayout,
    name: &str,
    bytes: &[u8],
    error: &Error,
) -> Result<String, AllocError>
    requires { IsWithin bytes.now error.now }
{
    let place = place_of_error(bytes, error);
    let position = Position(bytes, place);
    let reason = error.message();
    let number = BoardFault::NotToml.number();
    let mut text = String::new(alloc);
    writeln!(
        text,
        "{name}{position}: error: invalid TOML: {reason} ({number})"
    )?;
    push_excerpt_if_enabled(alloc, &mut text, layout, bytes, true, place)?;
    Ok(text)
}
