//! The beginnings of messages about entries.

use crate::entry_texts::EntryText;
use crate::excerpts::line_part_before;
use crate::message_layout::RenderOptions;
use crate::shown::Shown;
use crate::text_place::TextPlace;
use board_file::Entry;
use board_file::document::tables::{owner_path_or_name, value_at};
use std::fmt;
use toml::Table;
use toml::value::Value;

/// Displays the line and column of a place in a text, each after a colon. Displays nothing if the
/// place is unknown. Columns count bytes, from 1.
#[derive(Clone, Copy)]
pub struct Position<'a>(pub &'a [u8], pub Option<TextPlace>);

impl<'a> fmt::Display for Position<'a> {
    fn fmt<W: fmt::Write>(&self, f: &mut fmt::Formatter<W>) -> fmt::Result {
        match self.1 {
            Some(place) => {
                let before = line_part_before(self.0, place.start).len();
                write!(f, ":{}:{}", place.line, before.saturating_add(1))
            }
            None => Ok(()),
        }
    }
}

/// Returns whether the bytes contain no blank, no control character and no comment.
fn is_one_word(bytes: &[u8]) -> bool {
    bytes.iter().all(|byte| b' ' < *byte && *byte != b'#')
}

/// The beginning of a message: file name, position, `error` or `warning`, the entry, and the path or
/// name of the entry's owner.
#[derive(Clone, Copy)]
pub struct Head<'a> {
    pub options: RenderOptions<'a>,
    pub label: &'a str,
    pub bytes: &'a [u8],
    pub document: &'a Table,
    pub entry: Entry,
    pub key: &'a str,
    pub place: Option<TextPlace>,
}

impl<'a> Head<'a> {
    /// Returns the text of the value in the file, if the place is known and the text is a single
    /// word.
    fn value_text_if_one_word(&self) -> Option<&'a [u8]> {
        let place = self.place?;
        let word = self.bytes.get(place.start..place.end)?;
        if is_one_word(word) { Some(word) } else { None }
    }

    /// Returns the path or name of the endpoint, bridge or guest that the entry belongs to. Returns
    /// `None` for the keys `at` and `name`, whose value is shown anyway.
    fn owner_name_unless_shown(&self) -> Option<&'a str> {
        match self.key {
            "at" | "name" => None,
            _ => owner_path_or_name(self.document, self.entry),
        }
    }
}

impl<'a> fmt::Display for Head<'a> {
    fn fmt<W: fmt::Write>(&self, f: &mut fmt::Formatter<W>) -> fmt::Result {
        let position = Position(self.bytes, self.place);
        write!(f, "{}{position}: {}: ", self.options.name, self.label)?;
        match self.entry {
            Entry::File => return Ok(()),
            Entry::Slot(guest, _) => write!(f, "{}", EntryText(Entry::Guest(guest)))?,
            entry => write!(f, "{}", EntryText(entry))?,
        }
        if let Some(owner) = self.owner_name_unless_shown() {
            write!(f, " (\"{}\")", Shown(owner.as_bytes()))?;
        }
        write!(f, ": ")
    }
}

/// Displays the key of a message, and its value if that is a string, an integer or a Boolean. An
/// integer is shown as it is written in the file.
#[derive(Clone, Copy)]
pub struct Subject<'a>(pub Head<'a>);

impl<'a> fmt::Display for Subject<'a> {
    fn fmt<W: fmt::Write>(&self, f: &mut fmt::Formatter<W>) -> fmt::Result {
        let head = self.0;
        match head.entry {
            Entry::Slot(_, slot) => write!(f, "slots[{slot}]")?,
            _ => write!(f, "{}", Shown(head.key.as_bytes()))?,
        }
        match (
            value_at(head.document, head.entry, head.key),
            head.value_text_if_one_word(),
        ) {
            (Some(Value::Integer(_) | Value::Boolean(_)), Some(word)) => write!(
                f,
                " = {}",
                Shown(word)
            ),
            (Some(Value::Integer(number)), None) => write!(f, " = {number}"),
            (Some(Value::Boolean(flag)), None) => write!(f, " = {flag}"),
            (Some(Value::String(text)), _) => write!(f, " = \"{}\"", Shown(text.as_bytes())),
            _ => Ok(()),
        }
    }
}
