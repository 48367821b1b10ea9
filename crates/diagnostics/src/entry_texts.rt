//! Displays entries by their position in the file.

use board_file::Entry;
use std::fmt;

/// Displays an entry by its tables and indices, for example `endpoint[0].bar[1]`.
#[derive(Clone, Copy)]
pub(crate) struct EntryText(pub(crate) Entry);

impl fmt::Display for EntryText {
    fn fmt<W: fmt::Write>(&self, f: &mut fmt::Formatter<W>) -> fmt::Result {
        match self.0 {
            Entry::File => write!(f, "file"),
            Entry::Host => write!(f, "host"),
            Entry::Endpoint(i) => write!(f, "endpoint[{i}]"),
            Entry::Part(part, i, j) => write!(f, "endpoint[{i}].{}[{j}]", part.key()),
            Entry::Bridge(i) => write!(f, "bridge[{i}]"),
            Entry::Guest(i) => write!(f, "guest[{i}]"),
            Entry::Slot(i, j) => write!(f, "guest[{i}].slots[{j}]"),
        }
    }
}
