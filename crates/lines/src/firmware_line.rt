//! Parsing of firmware's lines.
ghost use Rattle.std.specs.Prelude.{◌≡◌, None, [], ◌∷◌, map, option_map, ◌^◌};
ghost use Rattle.model_guests.specs.{Grammar.{host_port, host_address, host_at}, Numbers.{below, number_of}, Text.words};
ghost use Rattle.model_lines.specs.{FirmwareLines.{asked, config_place, written_at, host_write_of, host_access_of as access_of_words, access_or_bad, meaning_of_words, meaning}, Requests.{request, request_in, request_of}};
ghost use Rattle.accesses.specs.Accesses.{host_access_of};
ghost use Rattle.lines.specs.{Requests.request_of as request_told, FirmwareLines.{firmware_meaning_of, requested}};

use crate::cursor::split_name_word;
use crate::forms::{parse_bdf, parse_host_read};
use crate::line::{LONGEST_LINE, is_comment_word};
use crate::numbers::parse_number;
use crate::requests::{HostRequest, parse_host_request};
use crate::words::split_first_words;
use accesses::{HostAccess, HostAt, Refusal};

/// The meaning of a firmware line.
#[derive(Clone, Copy, Debug, PartialEq, Eq)]
pub enum FirmwareCommand {
    /// A blank line or a comment, which has no output.
    Nothing,
    Read(HostAccess),
    /// A write of the low bytes of a value, as many as the access is wide.
    Write(HostAccess, u32),
    /// A request to the session other than an access.
    Asks(HostRequest),
    /// A malformed line of the host (401).
    NoForm,
    /// A line that isn't the host's, and is refused because its first word isn't `host` or it is
    /// too long.
    NotOfHost(Refusal),
}

impl FirmwareCommand {
    /// Returns the request to the session, if the line is one.
    pub fn into_host_request(self) -> Option<HostRequest>
        ensures { option_map request_told result ≡ requested self }
    {
        match self {
            FirmwareCommand::Asks(request) => Some(request),
            _ => None,
        }
    }
}

/// Parses a 32-bit value.
pub(crate) fn parse_u32(word: &[u8]) -> Option<u32>
    ensures { result ≡ below (2 ^ 32) (number_of word.now) }
{
    u32::try_from(parse_number(word)?).ok()
}

/// Parses an I/O port and a width.
fn parse_port_access(at: &[u8], width: &[u8]) -> Option<HostAccess>
    ensures { option_map host_access_of result ≡ host_at host_port at.now width.now }
{
    let port = parse_number(at)?;
    let width = parse_number(width)?;
    let at = HostAt::Io { port };
    Some(HostAccess { at, width })
}

/// Parses a memory address and a width.
fn parse_memory_access(at: &[u8], width: &[u8]) -> Option<HostAccess>
    ensures { option_map host_access_of result ≡ host_at host_address at.now width.now }
{
    let addr = parse_number(at)?;
    let width = parse_number(width)?;
    let at = HostAt::Mem { addr };
    Some(HostAccess { at, width })
}

/// Parses a function's BDF, an offset and a width.
fn parse_config_access(bdf: &[u8], off: &[u8], width: &[u8]) -> Option<HostAccess>
    ensures { option_map host_access_of result ≡ config_place bdf.now off.now width.now }
{
    let bdf = parse_bdf(bdf)?;
    let off = parse_number(off)?;
    let width = parse_number(width)?;
    let at = HostAt::Config { bdf, off };
    Some(HostAccess { at, width })
}

/// Parses the value to write at `place`, and returns the write.
fn parse_write_at(place: Option<HostAccess>, bits: &[u8]) -> Option<FirmwareCommand>
    ensures { option_map firmware_meaning_of result
        ≡ option_map asked (written_at bits.now (option_map host_access_of place)) }
{
    let place = place?;
    let value = parse_u32(bits)?;
    Some(FirmwareCommand::Write(place, value))
}

/// Parses an I/O or memory write from the four words after `host`.
fn parse_four_word_write(op: &[u8], at: &[u8], width: &[u8], bits: &[u8]) -> Option<FirmwareCommand>
    ensures { option_map firmware_meaning_of result
        ≡ option_map asked (host_write_of (op.now ∷ at.now ∷ width.now ∷ bits.now ∷ [])) }
{
    if op == b"iw".as_slice() {
        return parse_write_at(parse_port_access(at, width), bits);
    }
    if op == b"mw".as_slice() {
        return parse_write_at(parse_memory_access(at, width), bits);
    }
    None
}

/// Parses a configuration write from the five words after `host`.
fn parse_five_word_write(
    op: &[u8],
    bdf: &[u8],
    off: &[u8],
    width: &[u8],
    bits: &[u8],
) -> Option<FirmwareCommand>
    ensures { option_map firmware_meaning_of result
        ≡ option_map asked (host_write_of (op.now ∷ bdf.now ∷ off.now ∷ width.now
        ∷ bits.now ∷ [])) }
{
    if op == b"cw".as_slice() {
        return parse_write_at(parse_config_access(bdf, off, width), bits);
    }
    None
}

/// Parses the words after `host` as a write.
#[tactic(auto, using(crate::proofs::WriteCounts::host_write_of_few, crate::proofs::WriteCounts::host_write_of_many))]
fn parse_host_write(words: &[&[u8]]) -> Option<FirmwareCommand>
    ensures { option_map firmware_meaning_of result
        ≡ option_map asked (host_write_of (map (λ w. w.now) words.now)) }
{
    match words {
        [op, at, width, bits] => parse_four_word_write(op, at, width, bits),
        [op, bdf, off, width, bits] => parse_five_word_write(op, bdf, off, width, bits),
        _ => None,
    }
}

/// Parses the words after `host` as a read or a write.
#[tactic(auto, using(crate::proofs::RequestCounts::writes_ask_nothing))]
fn parse_host_access(words: &[&[u8]]) -> FirmwareCommand
    ensures means { firmware_meaning_of result
        ≡ access_or_bad (access_of_words (map (λ w. w.now) words.now)) }
    ensures asks { requested result ≡ None }
{
    if let Some(read) = parse_host_read(words) {
        return FirmwareCommand::Read(read);
    }
    match parse_host_write(words) {
        Some(write) => write,
        None => FirmwareCommand::NoForm,
    }
}

/// Parses the words after `host` as a request or an access.
fn parse_host_command(words: &[&[u8]]) -> FirmwareCommand
    ensures means { firmware_meaning_of result
        ≡ access_or_bad (access_of_words (map (λ w. w.now) words.now)) }
    ensures asks { requested result ≡ request_of (map (λ w. w.now) words.now) }
{
    match parse_host_request(words) {
        Some(request) => FirmwareCommand::Asks(request),
        None => parse_host_access(words),
    }
}

/// Parses the text after `host`.
fn parse_after_host(text: &[u8]) -> FirmwareCommand
    ensures means { firmware_meaning_of result
        ≡ access_or_bad (access_of_words (words text.now)) }
    ensures asks { requested result ≡ request_of (words text.now) }
{
    parse_host_command(split_first_words(text).as_slice())
}

/// Parses a firmware line, given its first word and the text after that word.
fn parse_line_by_first_word(first: &[u8], text: &[u8]) -> FirmwareCommand
    ensures means { firmware_meaning_of result ≡ meaning_of_words (first.now ∷ words text.now) }
    ensures asks { requested result ≡ request_in (first.now ∷ words text.now) }
{
    if is_comment_word(first) {
        return FirmwareCommand::Nothing;
    }
    if first == b"host".as_slice() {
        return parse_after_host(text);
    }
    FirmwareCommand::NotOfHost(Refusal::UnknownGuest)
}

/// Parses a firmware line, given without its line feed. There are no guests yet, so any first word
/// other than `host` is an unknown guest.
#[tactic(auto, using(std::proofs::lemmas::Bool::Decides::nat_tests))]
pub fn parse_firmware_line(line: &[u8]) -> FirmwareCommand
    ensures means { firmware_meaning_of result ≡ meaning line.now }
    ensures asks { requested result ≡ request line.now }
{
    if line.len() > LONGEST_LINE {
        return FirmwareCommand::NotOfHost(Refusal::LongLine);
    }
    match split_name_word(line) {
        Some((first, text)) => parse_line_by_first_word(first, text),
        None => FirmwareCommand::Nothing,
    }
}
