//! Replaces the scalars of a text by marks. The mark of a place is the TOML string `"@N"`, where N
//! is the offset at which the place begins.
ghost use Rattle.std.specs.Prelude.{◌≡◌, ◌<◌, ◌^◌, ◌++◌, ℕ, true, IfOk, OnOk, IsTrue, Some, length, option_map};
ghost use Rattle.toml.specs.View.{view};
ghost use Rattle.diagnostics.specs.Marks.{are_ordered_within, mark, quoted, replace_with_marks, is_mark_of_place_at};

use crate::scanning::Extent;
use itoa::Buffer;
use std::alloc::{AllocError, Global};
use toml::value::Value;

/// Returns whether the places are in ascending order, don't overlap and end within `len` bytes.
pub(crate) fn are_ordered_within(len: usize, places: &[Extent]) -> bool
    ensures { result ≡ are_ordered_within 0 len places.now }
{
    let mut from = 0;
    'places: for place in places {
        if place.start < from || place.end <= place.start {
            return false;
        }
        from = place.end;
    }
    from <= len
}

/// Appends the mark of a place, in quotes.
fn push_quoted_mark(bytes: &mut Vec<u8>, start: usize) -> Result<(), AllocError>
    ensures { OnOk result (bytes.new.items ≡ bytes.old.items ++ quoted (mark start)) }
{
    let mut buffer = Buffer::new();
    bytes.extend_from_slice(b"\"@")?;
    bytes.extend_from_slice(buffer.format(start).as_bytes())?;
    bytes.extend_from_slice(b"\"")?;
    Ok(())
}

/// Returns the text with each place replaced by its mark.
pub(crate) fn replace_with_marks(
    alloc: Global,
    text: &[u8],
    places: &[Extent],
) -> Result<Vec<u8>, AllocError>
    requires { IsTrue (are_ordered_within 0 (length text.now) places.now) }
    ensures { IfOk result (λ v. v.items ≡ replace_with_marks text.now 0 places.now) }
{
    let mut bytes = Vec::with_capacity(alloc, text.len())?;
    let mut from = 0;
    'places: for place in places {
        bytes.extend_from_slice(&text[from..place.start])?;
        push_quoted_mark(&mut bytes, place.start)?;
        from = place.end;
    }
    bytes.extend_from_slice(&text[from..])?;
    Ok(bytes)
}

/// Returns whether a value is the mark of the place that begins at `start`.
pub(crate) fn is_mark_of_place_at(start: usize, value: Option<&Value>) -> bool
    ensures { result ≡ is_mark_of_place_at start (option_map (λ v. view v.now) value.entry) }
{
    match value {
        Some(Value::String(text)) => {
            let mut buffer = Buffer::new();
            match text.as_bytes() {
                [b'@', digits @ ..] => digits == buffer.format(start).as_bytes(),
                _ => false,
            }
        }
        _ => false,
    }
}

/// Returns the number after the `@` of a mark, or `None` if the text isn't `@` and a number.
fn parse_mark_start(text: &str) -> Option<usize>
    ensures { (start : ℕ) → start < 2 ^ 64
        → text.now ≡ mark start → result ≡ Some start }
{
    let digits = text.strip_prefix('@')?;
    let start = digits.parse::<u64>().ok()?;
    Some(start as usize)
}

/// Returns the number after the `@` of a mark, or `None` if the value isn't a string of this form.
pub(crate) fn parse_mark_value(value: &Value) -> Option<usize>
    ensures { (start : ℕ) → start < 2 ^ 64
        → is_mark_of_place_at start (Some (view value.now)) ≡ true → result ≡ Some start }
{
    match value {
        Value::String(text) => parse_mark_start(text.as_str()),
        _ => None,
    }
}
