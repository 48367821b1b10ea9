//! Places of values in a text.

/// The place of a value in a text: its line number from 1, and its byte offsets. `end` is
/// exclusive.
#[derive(Clone, Copy, Debug)]
pub struct TextPlace {
    pub line: usize,
    pub start: usize,
    pub end: usize,
}
