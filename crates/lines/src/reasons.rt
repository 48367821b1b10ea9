//! Explanations of refused lines, based on the first word that is wrong.
ghost use Rattle.std.specs.Prelude.{◌≡◌};
ghost use Rattle.lines.specs.Refusals.{is_marked};

use crate::cursor::split_name_word;
use crate::firmware_line::parse_u32;
use crate::forms::{parse_bdf, parse_mask, parse_place};
use crate::line::{LONGEST_LINE, is_comment_word, is_guest_name};
use crate::numbers::parse_number;
use crate::requests::Report;
use crate::words::split_first_words;
use accesses::Names;
use arrayvec::ArrayString;
use std::fmt::{self, Write};

/// The author of a line, which determines the valid forms.
#[derive(Clone, Copy)]
enum Dialect {
    /// A guest.
    Guest,
    /// The host, in a script.
    Host,
    /// Firmware, whose lines also begin with `host`.
    Firmware,
}

/// The kind of a word in a form.
#[derive(Clone, Copy)]
enum ArgKind {
    Function,
    Slot,
    Offset,
    Width,
    Port,
    Address,
    /// A 32-bit number.
    Value,
    /// An 8-bit number.
    Mask,
    /// `cfg` or `bar0` to `bar5`.
    Part,
    /// `mem`, `io` or `cfg`.
    Space,
    /// An address, a port or a BDF, depending on the space before it.
    Place,
    /// A port about which firmware asks, a 32-bit number.
    AskedPort,
    Guest,
}

/// The reason why a line is refused.
#[derive(Drop)]
pub struct Reason {
    /// The position of the wrong word: 0 is the name, and 1 the first word after it.
    pub at: usize,
    /// The error message. Empty if the line has one of the valid forms.
    pub text: ArrayString<128>,
}

/// Displays the beginning of a word, with `?` for each byte that isn't printable ASCII.
#[derive(Clone, Copy)]
struct Word<'a>(&'a [u8]);

impl<'a> fmt::Display for Word<'a> {
    fn fmt<W: fmt::Write>(&self, f: &mut fmt::Formatter<W>) -> fmt::Result {
        for byte in &self.0[..self.0.len().min(32)] {
            let shown = match *byte {
                b' '..=b'~' => char::from(*byte),
                _ => '?',
            };
            write!(f, "{shown}")?;
        }
        Ok(())
    }
}

/// Displays a form: its verb, and the names of the words after the verb.
#[derive(Clone, Copy)]
struct Form<'a>(&'a [u8], &'a [ArgKind]);

impl<'a> fmt::Display for Form<'a> {
    fn fmt<W: fmt::Write>(&self, f: &mut fmt::Formatter<W>) -> fmt::Result {
        write!(f, "{}", Word(self.0))?;
        for role in self.1 {
            write!(f, " ")?;
            for byte in describe_word_kind(*role).0.as_bytes() {
                write!(f, "{}", char::from(*byte).to_ascii_uppercase())?;
            }
        }
        Ok(())
    }
}

/// Returns what a word of this kind is called, and what it must be.
fn describe_word_kind(role: ArgKind) -> (&'static str, &'static str) {
    let number = "a decimal or 0x-prefixed number below 2^64";
    let short = "a decimal or 0x-prefixed number below 2^32";
    match role {
        ArgKind::Function => ("function", "BB:DD.F"),
        ArgKind::Slot => ("slot", number),
        ArgKind::Offset => ("offset", number),
        ArgKind::Width => ("width", number),
        ArgKind::Port => ("port", number),
        ArgKind::Address => ("address", number),
        ArgKind::Value => ("value", short),
        ArgKind::Mask => ("mask", "a decimal or 0x-prefixed number below 2^8"),
        ArgKind::Part => ("part", "cfg or bar0 to bar5"),
        ArgKind::Space => ("space", "mem, io or cfg"),
        ArgKind::Place => ("place", ""),
        ArgKind::AskedPort => ("port", short),
        ArgKind::Guest => ("guest", "a guest's name"),
    }
}

/// Returns the commands of a speaker.
fn command_names(speaker: Dialect) -> &'static str {
    match speaker {
        Dialect::Guest => "cr, cw, ir, iw, mr, mw or raise",
        Dialect::Host => "cr, ir, mr or move",
        Dialect::Firmware => "cr, cw, ir, iw, mr, mw, why, audit, ready or guests",
    }
}

/// Returns the kinds of the words after `verb`, or `None` if the speaker has no such verb.
fn arg_kinds_of_command(speaker: Dialect, verb: &[u8]) -> Option<&'static [ArgKind]> {
    use ArgKind::{Address, Function, Mask, Offset, Part, Place, Port, Slot, Space, Value, Width};
    use Dialect::{Firmware, Guest, Host};
    match (speaker, verb) {
        (Guest, b"cr") => Some(&[Slot, Offset, Width]),
        (Guest, b"cw") => Some(&[Slot, Offset, Width, Value]),
        (Guest, b"raise") => Some(&[Slot, Part, Offset, Mask]),
        (_, b"cr") => Some(&[Function, Offset, Width]),
        (Firmware, b"cw") => Some(&[Function, Offset, Width, Value]),
        (_, b"ir") => Some(&[Port, Width]),
        (_, b"mr") => Some(&[Address, Width]),
        (Guest | Firmware, b"iw") => Some(&[Port, Width, Value]),
        (Guest | Firmware, b"mw") => Some(&[Address, Width, Value]),
        (Host, b"move") => Some(&[ArgKind::Guest, Slot, ArgKind::Guest, Slot]),
        (Firmware, b"why") => Some(&[Space, Place]),
        (Firmware, b"guests") => Some(&[]),
        (Firmware, _) if Report::from_word(verb).is_some() => Some(&[]),
        _ => None,
    }
}

/// Returns the kind of a word, given the word before it, which determines the kind of a place.
fn arg_kind_in_context(role: ArgKind, before: &[u8]) -> ArgKind {
    match (role, before) {
        (ArgKind::Place, b"io") => ArgKind::AskedPort,
        (ArgKind::Place, b"cfg") => ArgKind::Function,
        (ArgKind::Place, _) => ArgKind::Address,
        _ => role,
    }
}

/// Returns whether a word is of the given kind.
fn is_word_of_kind(role: ArgKind, names: &Names, word: &[u8]) -> bool {
    match role {
        ArgKind::Function => parse_bdf(word).is_some(),
        ArgKind::Slot | ArgKind::Offset | ArgKind::Width | ArgKind::Port => {
            parse_number(word).is_some()
        }
        ArgKind::Address | ArgKind::Place => parse_number(word).is_some(),
        ArgKind::Value | ArgKind::AskedPort => parse_u32(word).is_some(),
        ArgKind::Mask => parse_mask(word).is_some(),
        ArgKind::Part => parse_place(word).is_some(),
        ArgKind::Space => matches!(word, b"mem" | b"io" | b"cfg"),
        ArgKind::Guest => is_guest_name(word, names),
    }
}

/// Appends the first error in the words after a name, and returns the position of the wrong word.
fn push_first_error(
    text: &mut ArrayString<128>,
    speaker: Dialect,
    names: &Names,
    words: &[&[u8]],
) -> Result<usize, fmt::Error> {
    let verbs = command_names(speaker);
    let [verb, words @ ..] = words else {
        write!(text, "missing command (expected {verbs})")?;
        return Ok(1);
    };
    let Some(roles) = arg_kinds_of_command(speaker, verb) else {
        write!(text, "unknown command '{}' (expected {verbs})", Word(verb))?;
        return Ok(1);
    };
    let mut before = *verb;
    for (i, role) in roles.iter().enumerate() {
        let role = arg_kind_in_context(*role, before);
        let (name, wanted) = describe_word_kind(role);
        let Some(word) = words.get(i) else {
            write!(text, "missing {name} (expected '{}')", Form(verb, roles))?;
            return Ok(i + 2);
        };
        if !is_word_of_kind(role, names, word) {
            write!(text, "invalid {name} '{}' (expected {wanted})", Word(word))?;
            return Ok(i + 2);
        }
        before = *word;
    }
    if let Some(word) = words.get(roles.len()) {
        let form = Form(verb, roles);
        write!(text, "unexpected word '{}' (expected '{form}')", Word(word))?;
    }
    Ok(roles.len() + 2)
}

/// Returns whether a line begins with the UTF-8 byte order mark.
pub(crate) fn starts_with_bom(line: &[u8]) -> bool
    ensures { result ≡ is_marked line.now }
{
    match line {
        [a, b, c, ..] => *a == 0xEF && *b == 0xBB && *c == 0xBF,
        _ => false,
    }
}

/// Appends the error in a line, and returns the position of the wrong word.
fn push_line_error(
    text: &mut ArrayString<128>,
    guests: Option<&Names>,
    line: &[u8],
) -> Result<usize, fmt::Error> {
    if line.len() > LONGEST_LINE {
        write!(
            text,
            "the line has {} bytes (at most {LONGEST_LINE})",
            line.len()
        )?;
        return Ok(0);
    }
    let Some((name, rest)) = split_name_word(line) else {
        return Ok(0);
    };
    if starts_with_bom(line) {
        write!(text, "the line begins with a byte order mark")?;
        return Ok(0);
    }
    let words = split_first_words(rest);
    let words = words.as_slice();
    let is_host = name == b"host".as_slice();
    match guests {
        _ if is_comment_word(name) => Ok(0),
        None if is_host => push_first_error(text, Dialect::Firmware, &Names::new(), words),
        Some(names) if is_host => push_first_error(text, Dialect::Host, names, words),
        Some(names) if is_guest_name(name, names) => push_first_error(
            text,
            Dialect::Guest,
            names,
            words,
        ),
        _ => {
            let names = match guests {
                None => "host",
                Some(_) => "host or a guest's name",
            };
            write!(text, "unknown guest '{}' (expected {names})", Word(name))?;
            Ok(0)
        }
    }
}

/// Returns why a line is malformed, too long, or not from a guest. The valid forms are those of
/// guests with these names and of their host, or those of firmware if `guests` is `None`. No form
/// has more than five words after the name, so the first seven are enough.
pub fn line_error_or_empty(guests: Option<&Names>, line: &[u8]) -> Reason {
    let mut text = ArrayString::new();
    let at = push_line_error(&mut text, guests, line).unwrap_or(0);
    Reason { at, text }
}
