//! Line numbers of a text.
ghost use Rattle.std.specs.Prelude.{◌≡◌, ◌≤◌, IfOk, IsTrue, length, map, count_by, ◌==◌};
ghost use Rattle.diagnostics.specs.{LineNumbers.{is_line_feed, line_of, first_line}, Marks.are_ordered_within};

use crate::scanning::Extent;
use std::alloc::{AllocError, Global};

/// Returns the number of line feeds in a text.
fn count_line_feeds(text: &[u8]) -> usize
    ensures { result ≡ count_by is_line_feed text.now }
{
    text.iter().filter(|byte| **byte == b'\n').count()
}

/// Returns the line number of an offset. The first line is 1.
pub fn line_of(offset: usize, text: &[u8]) -> usize
    requires { offset ≤ length text.now }
    ensures { result ≡ line_of offset text.now }
{
    1 + count_line_feeds(&text[..offset])
}

/// Returns the line numbers at which these places begin, in a single pass over the text.
pub(crate) fn line_numbers_of_starts(
    alloc: Global,
    text: &[u8],
    places: &[Extent],
) -> Result<Vec<usize>, AllocError>
    requires { IsTrue (are_ordered_within 0 (length text.now) places.now) }
    ensures { IfOk result (λ v. v.items ≡ map (first_line text.now) places.now) }
{
    let mut lines = Vec::with_capacity(alloc, places.len())?;
    let mut line = 1;
    let mut from = 0;
    'places: for place in places {
        line += count_line_feeds(&text[from..place.start]);
        lines.push(line)?;
        from = place.start;
    }
    Ok(lines)
}
