//! Excerpts of a file: a line with its number, and marks below a value.

use crate::heads::Head;
use crate::message_layout::MessageLayout;
use crate::text_place::TextPlace;
use board_file::document::tables::value_at;
use std::alloc::{AllocError, Global};

/// The maximum number of bytes of a line to show before a place, and from the place on.
const MOST: usize = 60;

/// Returns the first `count` bytes, or all bytes if there are fewer.
fn clamped_prefix(bytes: &[u8], count: usize) -> &[u8] {
    &bytes[..count.min(bytes.len())]
}

/// Returns the bytes from an offset on.
fn clamped_suffix(bytes: &[u8], offset: usize) -> &[u8] {
    &bytes[offset.min(bytes.len())..]
}

/// Returns the character to show for a byte. A character outside ASCII is shown as one `?`, at its
/// first byte.
fn printable_unless_continuation(byte: u8) -> Option<char> {
    match byte {
        b'\t' | b' '..=b'~' => Some(char::from(byte)),
        128..=191 => None,
        _ => Some('?'),
    }
}

/// Appends the printable form of the bytes.
fn push_printable(text: &mut String, bytes: &[u8]) -> Result<(), AllocError> {
    for byte in bytes {
        if let Some(shown) = printable_unless_continuation(*byte) {
            text.push(shown)?;
        }
    }
    Ok(())
}

/// Appends blanks as wide as the shown text. Tabs are repeated, so that marks line up.
fn push_blanks_as_wide_as(text: &mut String, shown: &str) -> Result<(), AllocError> {
    for byte in shown.as_bytes() {
        text.push(if *byte == b'\t' { '\t' } else { ' ' })?;
    }
    Ok(())
}

/// Appends a `^` for each character to mark, and at least one.
fn push_carets_for(text: &mut String, bytes: &[u8]) -> Result<(), AllocError> {
    text.push('^')?;
    for byte in clamped_suffix(bytes, 1) {
        if printable_unless_continuation(*byte).is_some() {
            text.push('^')?;
        }
    }
    Ok(())
}

/// Returns the part of a line before an offset.
pub(crate) fn line_part_before(text: &[u8], offset: usize) -> &[u8] {
    let before = clamped_prefix(text, offset);
    match before.iter().rposition(|byte| *byte == b'\n') {
        Some(feed) => clamped_suffix(before, feed + 1),
        None => before,
    }
}

/// Returns the part of a line before an offset, in printable form and truncated on the left.
fn clipped_line_before(alloc: Global, text: &[u8], offset: usize) -> Result<String, AllocError> {
    let mut shown = String::new(alloc);
    let line = line_part_before(text, offset);
    if line.len() > MOST {
        shown.push_str("...")?;
    }
    push_printable(
        &mut shown,
        clamped_suffix(line, line.len().saturating_sub(MOST)),
    )?;
    Ok(shown)
}

/// Returns the part of a line from an offset on.
fn line_part_from(text: &[u8], offset: usize) -> &[u8] {
    let after = clamped_suffix(text, offset);
    match after.iter().position(|byte| matches!(*byte, b'\n' | b'\r')) {
        Some(end) => clamped_prefix(after, end),
        None => after,
    }
}

/// Appends the line of the file that contains `place`. If `carets`, also appends a line of marks
/// below that place. Appends nothing if excerpts are off or the place is unknown.
pub fn push_excerpt_if_enabled(
    alloc: Global,
    shown: &mut String,
    layout: MessageLayout,
    text: &[u8],
    carets: bool,
    place: Option<TextPlace>,
) -> Result<(), AllocError> {
    let (MessageLayout::WithExcerpts, Some(place)) = (layout, place) else {
        return Ok(());
    };
    let number = format!(in alloc; "{}", place.line)?;
    let before = clipped_line_before(alloc, text, place.start)?;
    let after = line_part_from(text, place.start);
    write!(shown, " {number} | {before}")?;
    push_printable(shown, clamped_prefix(after, MOST))?;
    shown.push_str(if after.len() > MOST { "...\n" } else { "\n" })?;
    if carets {
        shown.push(' ')?;
        push_blanks_as_wide_as(shown, &number)?;
        shown.push_str(" | ")?;
        push_blanks_as_wide_as(shown, &before)?;
        let len = place.end.saturating_sub(place.start);
        push_carets_for(shown, clamped_prefix(after, len.min(MOST)))?;
        shown.push('\n')?;
    }
    Ok(())
}

/// Appends the excerpt below the header of a message: the line of the file that the header names,
/// with marks below the value if the key has one.
pub fn push_head_excerpt_if_enabled(
    alloc: Global,
    shown: &mut String,
    head: &Head<'_>,
) -> Result<(), AllocError> {
    let carets = value_at(head.document, head.entry, head.key).is_some();
    push_excerpt_if_enabled(
        alloc,
        shown,
        head.options.layout,
        head.bytes,
        carets,
        head.place,
    )
}
