//! Parsing of a script's lines.
ghost use Rattle.std.specs.{Prelude.{◌≡◌, ◌<◌, ◌∷◌, [], List, length, map, take, position, option_map, IfSome}, Str.bytes_eq};
ghost use Rattle.model_guests.specs.{Text.{Text, words}, Grammar.{has_name, is_comment, event_of, host_read_of}, Lines.{host_move, event_or_bad, read_or_move, between_guests, move_of, meaning_of_words, meaning}};
ghost use Rattle.lines.specs.Lines.{texts, name_of, meaning_of, GuestsAre, IsFirst};

use crate::cursor::split_name_word;
use crate::forms::{GuestRequest, parse_guest_access, parse_guest_request, parse_host_read};
use crate::numbers::parse_number;
use crate::words::split_first_words;
use accesses::{Access, HostAccess, Names, Place, Refusal};
use arrayvec::ArrayVec;

/// The maximum length of a line in bytes, without its line feed. Longer lines are refused.
pub const LONGEST_LINE: usize = 200;

/// The name under which a line is answered.
#[derive(Clone, Copy, Debug, PartialEq, Eq)]
pub enum Who {
    /// A guest, by its index in the names.
    Guest(usize),
    Host,
    /// Neither a guest nor the host. The line is answered under the name `?`.
    Unknown,
}

/// The meaning of a script's line. Guests are identified by their index in the names.
#[derive(Clone, Copy, Debug, PartialEq, Eq)]
pub enum What {
    /// A blank line or a comment, which has no output.
    Nothing,
    /// An access by a guest.
    Guest(usize, Access),
    /// A guest, a slot, a place in the slot's function, a byte offset there, and the bits to set.
    Raise(usize, u64, Place, u64, u8),
    /// A read by the host.
    Host(HostAccess),
    /// A move of a function by the host: the source guest and slot, and the target guest and slot.
    Move(usize, u64, usize, u64),
    /// A refused line: it is malformed, names an unknown guest, or is too long.
    Bad(Who, Refusal),
}

/// The first words of a line, at most seven, as slices of the line, and the meaning of the line.
#[derive(Drop)]
pub struct Line<'a> {
    pub words: ArrayVec<&'a [u8], 7>,
    pub what: What,
}

/// Returns whether a line with this first word is a comment.
pub(crate) fn is_comment_word(word: &[u8]) -> bool
    ensures { result ≡ is_comment word.now }
{
    word.first() == Some(&b'#')
}

/// Returns the index of the first guest with this name. The names are few and short, so a linear
/// search is as fast as a table.
#[inline]
fn find_guest_index(word: &[u8], names: &Names) -> Option<usize>
    ensures { result ≡ position (λ n. bytes_eq n.bytes word.now) names.now.items }
{
    names.iter().position(|name| name.as_bytes() == word)
}

/// Returns whether a guest has this name.
#[tactic(auto, using(crate::proofs::NameLemmas::is_there))]
pub(crate) fn is_guest_name(word: &[u8], names: &Names) -> bool
    ensures { result ≡ has_name (texts names.now) word.now }
{
    find_guest_index(word, names).is_some()
}

/// Parses a guest's line, given the text after the name.
fn parse_after_guest(guest: usize, text: &[u8]) -> What
    ensures meaning { (names : List Text) →
        meaning_of names result ≡ event_or_bad (name_of names guest) (event_of (words text.now)) }
    ensures guest { GuestsAre (λ g. g ≡ guest) result }
{
    match parse_guest_request(text) {
        Some(GuestRequest::Access(access)) => What::Guest(guest, access),
        Some(GuestRequest::Raise(slot, place, off, mask)) => What::Raise(
            guest, slot, place, off, mask,
        ),
        None => What::Bad(Who::Guest(guest), Refusal::BadLine),
    }
}

/// Looks up the two guests of a move by their names. Returns `None` if either is unknown.
fn find_move_guests(from: &[u8], slot: u64, to: &[u8], target: u64, names: &Names) -> Option<What>
    ensures meaning { option_map (meaning_of (texts names.now)) result ≡ option_map host_move
        (between_guests (texts names.now) (record { from = from.now; slot = slot; to = to.now; target = target })) }
    ensures first { IfSome result (GuestsAre (IsFirst (texts names.now))) }
{
    let from = find_guest_index(from, names)?;
    let to = find_guest_index(to, names)?;
    Some(What::Move(from, slot, to, target))
}

/// Parses `move A S B T`, which moves the function in slot S of guest A to slot T of guest B.
fn parse_move_words(
    op: &[u8],
    from: &[u8],
    slot: &[u8],
    to: &[u8],
    target: &[u8],
    names: &Names,
) -> Option<What>
    ensures meaning { option_map (meaning_of (texts names.now)) result ≡ option_map host_move
        (move_of (texts names.now) (op.now ∷ from.now ∷ slot.now ∷ to.now ∷ target.now ∷ [])) }
    ensures first { IfSome result (GuestsAre (IsFirst (texts names.now))) }
{
    match op {
        b"move" => find_move_guests(from, parse_number(slot)?, to, parse_number(target)?, names),
        _ => None,
    }
}

/// Parses the words after `host` as a move.
#[tactic(auto, using(crate::proofs::Counts::move_of_few, crate::proofs::Counts::move_of_many))]
fn parse_move(words: &[&[u8]], names: &Names) -> Option<What>
    ensures meaning { option_map (meaning_of (texts names.now)) result ≡ option_map host_move
        (move_of (texts names.now) (map (λ w. w.now) words.now)) }
    ensures first { IfSome result (GuestsAre (IsFirst (texts names.now))) }
{
    match words {
        [op, from, slot, to, target] => parse_move_words(op, from, slot, to, target, names),
        _ => None,
    }
}

/// Parses a line of the host, given the words after `host`.
fn parse_host_words(words: &[&[u8]], names: &Names) -> What
    ensures meaning { let ws = map (λ w. w.now) words.now in
        meaning_of (texts names.now) result
        ≡ read_or_move (host_read_of ws) (move_of (texts names.now) ws) }
    ensures first { GuestsAre (IsFirst (texts names.now)) result }
{
    if let Some(read) = parse_host_read(words) {
        return What::Host(read);
    }
    match parse_move(words, names) {
        Some(moved) => moved,
        None => What::Bad(Who::Host, Refusal::BadLine),
    }
}

/// Parses a line of the host, given the text after `host`.
fn parse_after_host(text: &[u8], names: &Names) -> What
    ensures meaning { let ws = words text.now in
        meaning_of (texts names.now) result
        ≡ read_or_move (host_read_of ws) (move_of (texts names.now) ws) }
    ensures first { GuestsAre (IsFirst (texts names.now)) result }
{
    parse_host_words(split_first_words(text).as_slice(), names)
}

/// Returns the meaning of a line, given its first word and the text after the word.
#[tactic(auto, using(crate::proofs::NameLemmas::meaning_of_guest, crate::proofs::NameLemmas::meaning_of_unknown))]
fn parse_line_by_first_word(first: &[u8], text: &[u8], names: &Names) -> What
    ensures meaning { let ws = first.now ∷ words text.now in
        meaning_of (texts names.now) result ≡ meaning_of_words (texts names.now) ws }
    ensures first { GuestsAre (IsFirst (texts names.now)) result }
{
    if is_comment_word(first) {
        return What::Nothing;
    }
    if first == b"host".as_slice() {
        return parse_after_host(text, names);
    }
    match find_guest_index(first, names) {
        Some(guest) => parse_after_guest(guest, text),
        None => What::Bad(Who::Unknown, Refusal::UnknownGuest),
    }
}

/// Parses any line. The words of the most common lines are parsed one by one, which is faster than
/// splitting the line first.
#[inline(never)]
#[tactic(auto, using(std::proofs::lemmas::Bool::Decides::nat_tests))]
fn parse_any_line(line: &[u8], names: &Names) -> What
    ensures meaning { meaning_of (texts names.now) result ≡ meaning (texts names.now) line.now }
    ensures guests { GuestsAre (λ g. g < length names.now.items) result }
    ensures first { GuestsAre (IsFirst (texts names.now)) result }
{
    if line.len() > LONGEST_LINE {
        return What::Bad(Who::Unknown, Refusal::LongLine);
    }
    match split_name_word(line) {
        Some((first, text)) => parse_line_by_first_word(first, text, names),
        None => What::Nothing,
    }
}

/// Returns the guest and its access, if the line is an access by a guest.
#[inline(always)]
fn parse_if_guest_access(line: &[u8], names: &Names) -> Option<(usize, Access)>
    ensures meaning { IfSome result (λ p.
        meaning_of (texts names.now) (What.Guest p.0 p.1) ≡ meaning (texts names.now) line.now) }
    ensures first { IfSome result (λ p. IsFirst (texts names.now) p.0) }
{
    if line.len() > LONGEST_LINE {
        return None;
    }
    let (first, text) = split_name_word(line)?;
    if is_comment_word(first) || first == b"host".as_slice() {
        return None;
    }
    let guest = find_guest_index(first, names)?;
    let access = parse_guest_access(text)?;
    Some((guest, access))
}

/// Parses a line, given without its line feed. If several guests have the same name, the first one
/// is meant. Most lines are accesses by guests, which take a fast path.
#[inline(always)]
pub fn parse_line_meaning(line: &[u8], names: &Names) -> What
    ensures meaning { meaning_of (texts names.now) result ≡ meaning (texts names.now) line.now }
    ensures guests { GuestsAre (λ g. g < length names.now.items) result }
    ensures first { GuestsAre (IsFirst (texts names.now)) result }
{
    match parse_if_guest_access(line, names) {
        Some((guest, access)) => What::Guest(guest, access),
        None => parse_any_line(line, names),
    }
}

/// Parses a line, given without its line feed, and splits it into words. If several guests have the
/// same name, the first one is meant.
pub fn parse_line<'a>(line: &'a [u8], names: &Names) -> Line<'a>
    ensures words { map (λ w. w.now) result.words.items ≡ take 7 (words line.now) }
    ensures meaning { meaning_of (texts names.now) result.what
        ≡ meaning (texts names.now) line.now }
    ensures guests { GuestsAre (λ g. g < length names.now.items) result.what }
    ensures first { GuestsAre (IsFirst (texts names.now)) result.what }
{
    Line {
        words: split_first_words(line),
        what: parse_line_meaning(line, names),
    }
}
