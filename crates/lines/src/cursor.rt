//! Parsing of a line word by word, in one pass over its bytes.
ghost use Rattle.std.specs.Prelude.{◌≡◌, ◌≤◌, ◌<◌, ◌^◌, ◌∷◌, [], None, Some, MatchOption, IfSome, IsTrue, IsFalse};
ghost use Rattle.model_guests.specs.{Text.words, Numbers.{below, digits_from, digits_in, is_hexadecimal}};
ghost use Rattle.lines.specs.Cursors.{before_blank, after_blank, IsRead, IsAtWord, numbered};

use crate::numbers::append_digit;
use crate::words::{is_blank, split_at_blank_or_end};

/// Returns the text without its leading blanks.
#[inline]
fn trim_leading_blanks(text: &[u8]) -> &[u8]
    ensures words { words result.now ≡ words text.now }
    ensures start { IsAtWord result.now }
{
    let mut rest = text;
    while let [byte, after @ ..] = rest {
        if !is_blank(*byte) {
            return rest;
        }
        rest = after;
    }
    rest
}

/// Returns whether the text contains no more words.
#[inline]
pub(crate) fn has_no_more_words(text: &[u8]) -> bool
    ensures some { IsFalse result → words text.now ≡ [] → ⊥ }
    ensures none { IsTrue result → words text.now ≡ [] }
{
    trim_leading_blanks(text).is_empty()
}

/// Returns the first word and the text after it.
#[inline]
pub(crate) fn split_first_word(text: &[u8]) -> Option<(&[u8], &[u8])>
    ensures { MatchOption result (words text.now ≡ []) (λ p.
        words text.now ≡ p.0.now ∷ words p.1.now) }
{
    let mut rest = text;
    while let Some((piece, after)) = split_at_blank_or_end(rest) {
        if !piece.is_empty() {
            return Some((piece, after));
        }
        rest = after;
    }
    None
}

/// Returns the first word and the text after it. A word of one letter, such as a short guest name,
/// takes a fast path.
#[inline(always)]
pub(crate) fn split_name_word(text: &[u8]) -> Option<(&[u8], &[u8])>
    ensures { MatchOption result (words text.now ≡ []) (λ p.
        words text.now ≡ p.0.now ∷ words p.1.now) }
{
    if let [letter, end, rest @ ..] = text {
        if is_blank(*end) && !is_blank(*letter) {
            return Some((&text[..1], rest));
        }
    }
    split_first_word(text)
}

/// Returns the first word and the text after it. A word of two letters, such as `mr`, takes a fast
/// path.
#[inline(always)]
pub(crate) fn split_op_word(text: &[u8]) -> Option<(&[u8], &[u8])>
    ensures { MatchOption result (words text.now ≡ []) (λ p.
        words text.now ≡ p.0.now ∷ words p.1.now) }
{
    if let [first, second, end, rest @ ..] = text {
        if is_blank(*end) && !is_blank(*second) && !is_blank(*first) {
            return Some((&text[..2], rest));
        }
    }
    split_first_word(text)
}

/// Appends the digits before the first blank to the number `start`. Returns the result, if it is
/// below 2^64, and the text after the blank. Inlined, so that each base gets its own code.
#[inline(always)]
fn parse_more_through_blank(base: u8, start: u64, text: &[u8]) -> Option<(u64, &[u8])>
    requires { 1 ≤ base }
    ensures { MatchOption result (below (2 ^ 64) (digits_from base start (before_blank text.now))
        ≡ None)
        (λ p. (below (2 ^ 64) (digits_from base start (before_blank text.now)) ≡ Some p.0)
        × (p.1.now ≡ after_blank text.now)) }
{
    let mut number = start;
    for i in 0..text.len() {
        let byte = text[i];
        let Some(longer) = append_digit(base, number, byte) else {
            if is_blank(byte) {
                return Some((number, &text[i + 1..]));
            }
            return None;
        };
        number = longer;
    }
    Some((number, &[]))
}

/// Returns the number in the first eight bytes, if all of them are hexadecimal digits, and the text
/// after them. Most addresses have eight digits. Eight digits can't overflow, so this takes half
/// the steps.
#[inline(always)]
fn parse_eight_hex_digits(text: &[u8]) -> Option<(u64, &[u8])>
    ensures read { IfSome result (λ p. IsRead 16 text.now p.0 p.1.now) }
    ensures some { IfSome result (λ _.
        digits_in 16 (before_blank text.now) ≡ digits_from 16 0 (before_blank text.now)) }
{
    if text.len() < 8 {
        return None;
    }
    let mut number = 0;
    for i in 0..8 {
        number = append_digit(16, number, text[i])?;
    }
    Some((number, &text[8..]))
}

/// Parses the digits before the first blank as a number below 2^64. Returns the number and the text
/// after the blank.
#[inline(always)]
fn parse_digits_through_blank(base: u8, text: &[u8]) -> Option<(u64, &[u8])>
    requires { 1 ≤ base }
    ensures { MatchOption result (below (2 ^ 64) (digits_in base (before_blank text.now)) ≡ None)
        (λ p. (below (2 ^ 64) (digits_in base (before_blank text.now)) ≡ Some p.0)
        × (p.1.now ≡ after_blank text.now)) }
{
    if base == 16
        && let Some((number, rest)) = parse_eight_hex_digits(text)
    {
        return parse_more_through_blank(base, number, rest);
    }
    let [first, ..] = text else {
        return None;
    };
    if is_blank(*first) {
        return None;
    }
    parse_more_through_blank(base, 0, text)
}

/// Returns whether the text begins with `0x` or `0X`.
#[inline]
fn starts_with_hex_prefix(text: &[u8]) -> bool
    ensures { result ≡ is_hexadecimal text.now }
{
    matches!(text, [b'0', b'x' | b'X', ..])
}

/// Parses the first word as a number. Returns the number and the text after the word. Inlined at
/// each of its calls.
#[inline(always)]
pub(crate) fn parse_first_number(text: &[u8]) -> Option<(u64, &[u8])>
    ensures { MatchOption result (numbered (words text.now) ≡ None)
        (λ p. numbered (words text.now) ≡ Some (record { number = p.0; rest = words p.1.now })) }
{
    let word = trim_leading_blanks(text);
    if starts_with_hex_prefix(word) {
        parse_digits_through_blank(16, &word[2..])
    } else {
        parse_digits_through_blank(10, word)
    }
}

/// Does the same as [`parse_first_number`], but is compiled only once, for calls that few lines make.
#[inline(never)]
pub(crate) fn parse_first_number_outlined(text: &[u8]) -> Option<(u64, &[u8])>
    ensures { MatchOption result (numbered (words text.now) ≡ None)
        (λ p. numbered (words text.now) ≡ Some (record { number = p.0; rest = words p.1.now })) }
{
    parse_first_number(text)
}

/// Parses a number of one decimal digit at the start of the text. Returns the number and the text
/// after it.
#[inline(always)]
fn parse_one_digit_word(text: &[u8]) -> Option<(u64, &[u8])>
    ensures { IfSome result (λ p.
        numbered (words text.now) ≡ Some (record { number = p.0; rest = words p.1.now })) }
{
    match text {
        [digit] => Some((append_digit(10, 0, *digit)?, &[])),
        [digit, end, rest @ ..] if is_blank(*end) => Some((append_digit(10, 0, *digit)?, rest)),
        _ => None,
    }
}

/// Parses the first word as a number. Returns the number and the text after the word. A number of
/// one digit takes a fast path.
#[inline(always)]
pub(crate) fn parse_likely_short_number(text: &[u8]) -> Option<(u64, &[u8])>
    ensures { MatchOption result (numbered (words text.now) ≡ None)
        (λ p. numbered (words text.now) ≡ Some (record { number = p.0; rest = words p.1.now })) }
{
    if let Some(read) = parse_one_digit_word(text) {
        return Some(read);
    }
    parse_first_number_outlined(text)
}
