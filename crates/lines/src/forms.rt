//! Parsing of a script's lines after their first word.
ghost use Rattle.std.specs.Prelude.{◌≡◌, [], ◌∷◌, Some, None, map, length, option_map, MatchOption, IfSome, codes};
ghost use Rattle.model_guests.specs.{Text.words, Accesses.access, Numbers.{below, number_of}, Grammar.{raise_part, to_raise, event_of, hex_pair, bus_address, host_read_of}};
ghost use Rattle.paths.specs.BusAddresses.{bus_address_of};
ghost use Rattle.accesses.specs.Accesses.{access_of, target_of, op_of, part_of, host_access_of};
ghost use Rattle.lines.specs.Forms.{event_asked, placed, operated};

use crate::cursor::{
    has_no_more_words, parse_first_number, parse_first_number_outlined, parse_likely_short_number,
    split_op_word,
};
use crate::numbers::{digit_value, parse_number};
use crate::words::split_first_words;
use accesses::{Access, At, Bdf, HostAccess, HostAt, Op, Place};

/// A guest's request.
#[derive(Clone, Copy, PartialEq, Eq)]
pub(crate) enum GuestRequest {
    Access(Access),
    /// A slot, a place in the slot's function, a byte offset there, and the bits to set.
    Raise(u64, Place, u64, u8),
}

/// Parses an 8-bit mask.
pub(crate) fn parse_mask(word: &[u8]) -> Option<u8>
    ensures { result ≡ below 256 (number_of word.now) }
{
    u8::try_from(parse_number(word)?).ok()
}

/// Parses `cfg` or `bar0` to `bar5`.
pub(crate) fn parse_place(word: &[u8]) -> Option<Place>
    ensures { option_map part_of result ≡ raise_part word.now }
{
    match word {
        b"cfg" => Some(Place::Cfg),
        b"bar0" => Some(Place::Bar(0)),
        b"bar1" => Some(Place::Bar(1)),
        b"bar2" => Some(Place::Bar(2)),
        b"bar3" => Some(Place::Bar(3)),
        b"bar4" => Some(Place::Bar(4)),
        b"bar5" => Some(Place::Bar(5)),
        _ => None,
    }
}

/// Parses the arguments of `raise SLOT P OFF MASK`.
fn parse_raise_arguments(slot: &[u8], part: &[u8], off: &[u8], bits: &[u8]) -> Option<GuestRequest>
    ensures { option_map event_asked result ≡ to_raise slot.now part.now off.now bits.now }
{
    let slot = parse_number(slot)?;
    let place = parse_place(part)?;
    let off = parse_number(off)?;
    let mask = parse_mask(bits)?;
    Some(GuestRequest::Raise(slot, place, off, mask))
}

/// Parses the words after `raise`, which are `SLOT P OFF MASK`.
#[tactic(auto, using(crate::proofs::Counts::raise_of_few, crate::proofs::Counts::raise_of_many))]
fn parse_after_raise(words: &[&[u8]]) -> Option<GuestRequest>
    ensures { option_map event_asked result
        ≡ event_of (codes "raise" ∷ map (λ w. w.now) words.now) }
{
    match words {
        [slot, part, off, bits] => parse_raise_arguments(slot, part, off, bits),
        _ => None,
    }
}

/// Parses the target of an access, `m ADDR`, `i PORT` or `c SLOT OFF`, given the letter of its
/// space. Returns the target and the text after it. Every target begins with a number. Parsing that
/// number before the match on the letter leaves fewer inlined copies of its loop.
#[inline(always)]
fn parse_access_target(space: u8, text: &[u8]) -> Option<(At, &[u8])>
    ensures { MatchOption result (placed space (words text.now) ≡ None) (λ p.
        placed space (words text.now)
        ≡ Some (record { target = target_of p.0; rest = words p.1.now })) }
{
    let (number, rest) = parse_first_number(text)?;
    match space {
        b'm' => Some((At::Mem { addr: number }, rest)),
        b'i' => Some((At::Io { port: number }, rest)),
        b'c' => {
            let (off, rest) = parse_first_number_outlined(rest)?;
            Some((At::Config { slot: number, off }, rest))
        }
        _ => None,
    }
}

/// Parses the operation of an access, given its letter: `r`, or `w V` with a 32-bit value. Returns
/// the operation and the text after it.
#[inline(always)]
fn parse_operation(kind: u8, text: &[u8]) -> Option<(Op, &[u8])>
    ensures { MatchOption result (operated kind (words text.now) ≡ None) (λ p.
        operated kind (words text.now) ≡ Some (record { op = op_of p.0; rest = words p.1.now })) }
{
    match kind {
        b'r' => Some((Op::Read, text)),
        b'w' => {
            let (number, rest) = parse_first_number(text)?;
            let value = u32::try_from(number).ok()?;
            Some((Op::Write(value), rest))
        }
        _ => None,
    }
}

/// Parses an access, given the letters of its space and of its operation and the text after them.
#[inline(always)]
#[tactic(auto, using(crate::proofs::GuestForms::accesses_are))]
fn parse_access(space: u8, kind: u8, text: &[u8]) -> Option<Access>
    ensures { option_map (λ a. access (access_of a)) result
        ≡ event_of ((space ∷ kind ∷ []) ∷ words text.now) }
{
    let (at, rest) = parse_access_target(space, text)?;
    let (width, rest) = parse_likely_short_number(rest)?;
    let (op, rest) = parse_operation(kind, rest)?;
    if !has_no_more_words(rest) {
        return None;
    }
    Some(Access { at, width, op })
}

/// Parses a guest's request, given its first word, which doesn't have two letters, and the words
/// after it.
#[tactic(auto, using(crate::proofs::GuestForms::other_length, crate::proofs::GuestForms::no_form))]
fn parse_if_raise(op: &[u8], words: &[&[u8]]) -> Option<GuestRequest>
    requires { length op.now ≡ 2 → ⊥ }
    ensures { option_map event_asked result ≡ event_of (op.now ∷ map (λ w. w.now) words.now) }
{
    if op == b"raise".as_slice() {
        return parse_after_raise(words);
    }
    None
}

/// Parses the text after a guest's name as an access. Other requests return `None`.
#[inline(always)]
pub(crate) fn parse_guest_access(text: &[u8]) -> Option<Access>
    ensures { IfSome result (λ a. event_of (words text.now) ≡ Some (access (access_of a))) }
{
    let (op, rest) = split_op_word(text)?;
    match op {
        [space, kind] => parse_access(*space, *kind, rest),
        _ => None,
    }
}

/// Parses the text after a guest's name as an access or a raise.
pub(crate) fn parse_guest_request(text: &[u8]) -> Option<GuestRequest>
    ensures { option_map event_asked result ≡ event_of (words text.now) }
{
    let (op, rest) = split_op_word(text)?;
    match op {
        [space, kind] => parse_access(*space, *kind, rest).map(GuestRequest::Access),
        _ => parse_if_raise(op, split_first_words(rest).as_slice()),
    }
}

/// Returns the number that two hexadecimal digits represent.
fn parse_two_hex_digits(high: u8, low: u8) -> Option<u8>
    ensures { result ≡ hex_pair high low }
{
    Some(16 * digit_value(16, high)? + digit_value(16, low)?)
}

/// Parses a BDF in the form `BB:DD.F`.
pub(crate) fn parse_bdf(word: &[u8]) -> Option<Bdf>
    ensures { option_map bus_address_of result ≡ bus_address word.now }
{
    let [b1, b0, b':', d1, d0, b'.', f] = word else {
        return None;
    };
    Some(Bdf {
        bus: parse_two_hex_digits(*b1, *b0)?,
        device: parse_two_hex_digits(*d1, *d0).filter(|device| *device < 32)?,
        function: digit_value(8, *f)?,
    })
}

/// Parses an I/O or memory read by the host from the three words after `host`.
fn parse_three_word_read(op: &[u8], at: &[u8], width: &[u8]) -> Option<HostAccess>
    ensures { option_map host_access_of result
        ≡ host_read_of (op.now ∷ at.now ∷ width.now ∷ []) }
{
    let at = match op {
        b"ir" => HostAt::Io {
            port: parse_number(at)?,
        },
        b"mr" => HostAt::Mem {
            addr: parse_number(at)?,
        },
        _ => return None,
    };
    let width = parse_number(width)?;
    Some(HostAccess { at, width })
}

/// Parses a configuration read by the host from the four words after `host`.
fn parse_four_word_read(op: &[u8], bdf: &[u8], off: &[u8], width: &[u8]) -> Option<HostAccess>
    ensures { option_map host_access_of result
        ≡ host_read_of (op.now ∷ bdf.now ∷ off.now ∷ width.now ∷ []) }
{
    let at = match op {
        b"cr" => HostAt::Config {
            bdf: parse_bdf(bdf)?,
            off: parse_number(off)?,
        },
        _ => return None,
    };
    let width = parse_number(width)?;
    Some(HostAccess { at, width })
}

/// Parses the words after `host` as a read.
#[tactic(auto, using(crate::proofs::Counts::host_read_of_few, crate::proofs::Counts::host_read_of_many))]
pub(crate) fn parse_host_read(words: &[&[u8]]) -> Option<HostAccess>
    ensures { option_map host_access_of result ≡ host_read_of (map (λ w. w.now) words.now) }
{
    match words {
        [op, at, width] => parse_three_word_read(op, at, width),
        [op, bdf, off, width] => parse_four_word_read(op, bdf, off, width),
        _ => None,
    }
}
