//! Splitting of a script into lines, and of a line into words.
ghost use Rattle.std.specs.Prelude.{◌≡◌, ◌<◌, ◌∷◌, [], ◌==◌, length, map, take, position, MatchOption, IfSome};
ghost use Rattle.model_guests.specs.Text.{words, pieces, is_blank};

use arrayvec::ArrayVec;
use memchr::memchr;

/// Returns the index of the first line feed. Uses a vectorised search, since most lines of a script
/// have some twenty bytes.
pub fn find_line_feed(script: &[u8]) -> Option<usize>
    ensures { result ≡ position (λ b. b == 10) script.now }
{
    memchr(b'\n', script)
}

/// 1 for each byte that separates words: space, tab and carriage return. A table lookup is faster
/// than three comparisons.
#[rattlefmt::skip]
static BLANKS: [u8; 256] = [
    0, 0, 0, 0, 0, 0, 0, 0, 0, 1, 0, 0, 0, 1, 0, 0,
    0, 0, 0, 0, 0, 0, 0, 0, 0, 0, 0, 0, 0, 0, 0, 0,
    1, 0, 0, 0, 0, 0, 0, 0, 0, 0, 0, 0, 0, 0, 0, 0,
    0, 0, 0, 0, 0, 0, 0, 0, 0, 0, 0, 0, 0, 0, 0, 0,
    0, 0, 0, 0, 0, 0, 0, 0, 0, 0, 0, 0, 0, 0, 0, 0,
    0, 0, 0, 0, 0, 0, 0, 0, 0, 0, 0, 0, 0, 0, 0, 0,
    0, 0, 0, 0, 0, 0, 0, 0, 0, 0, 0, 0, 0, 0, 0, 0,
    0, 0, 0, 0, 0, 0, 0, 0, 0, 0, 0, 0, 0, 0, 0, 0,
    0, 0, 0, 0, 0, 0, 0, 0, 0, 0, 0, 0, 0, 0, 0, 0,
    0, 0, 0, 0, 0, 0, 0, 0, 0, 0, 0, 0, 0, 0, 0, 0,
    0, 0, 0, 0, 0, 0, 0, 0, 0, 0, 0, 0, 0, 0, 0, 0,
    0, 0, 0, 0, 0, 0, 0, 0, 0, 0, 0, 0, 0, 0, 0, 0,
    0, 0, 0, 0, 0, 0, 0, 0, 0, 0, 0, 0, 0, 0, 0, 0,
    0, 0, 0, 0, 0, 0, 0, 0, 0, 0, 0, 0, 0, 0, 0, 0,
    0, 0, 0, 0, 0, 0, 0, 0, 0, 0, 0, 0, 0, 0, 0, 0,
    0, 0, 0, 0, 0, 0, 0, 0, 0, 0, 0, 0, 0, 0, 0, 0,
];

/// Returns whether a byte separates words.
#[inline]
pub(crate) fn is_blank(byte: u8) -> bool
    ensures { result ≡ is_blank byte }
{
    BLANKS[byte as usize] == 1
}

/// Returns the index of the first blank.
#[inline]
fn find_blank(text: &[u8]) -> Option<usize>
    ensures { result ≡ position is_blank text.now }
{
    text.iter().position(|byte| is_blank(*byte))
}

/// Returns the bytes before the first blank and the bytes after it. The first part is empty if the
/// text begins with a blank.
#[inline]
pub(crate) fn split_at_blank_or_end(text: &[u8]) -> Option<(&[u8], &[u8])>
    ensures piece { MatchOption result (pieces is_blank text.now ≡ [])
        (λ p. pieces is_blank text.now ≡ p.0.now ∷ pieces is_blank p.1.now) }
    ensures shorter { IfSome result (λ p. length p.1.now < length text.now) }
{
    if text.is_empty() {
        return None;
    }
    match find_blank(text) {
        Some(end) => Some((&text[..end], &text[end + 1..])),
        None => Some((text, &[])),
    }
}

/// Returns the first words of a line, at most seven. A loop is faster here than a chain of
/// iterators.
pub(crate) fn split_first_words(line: &[u8]) -> ArrayVec<&[u8], 7>
    ensures { map (λ w. w.now) result.items ≡ take 7 (words line.now) }
{
    let mut first = ArrayVec::new();
    let mut rest = line;
    while let Some((piece, after)) = split_at_blank_or_end(rest) {
        if !piece.is_empty() {
            if first.is_full() {
                return first;
            }
            first.push(piece);
        }
        rest = after;
    }
    first
}
