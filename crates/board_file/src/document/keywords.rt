//! The words of a board file for kinds of BARs and for address decoding.
ghost use Rattle.std.specs.Prelude.{◌≡◌, option_map};
ghost use Rattle.bars.specs.Kinds.{kind_of};
ghost use Rattle.headers.specs.Decodes.{io_decode_of, pref_decode_of};
ghost use Rattle.board_file.specs.Texts.{parse_region_kind, parse_io_decode, parse_pref_decode};

use bars::Kind;
use headers::{IoDecode, PrefDecode};

/// Parses the kind of a BAR.
pub(crate) fn parse_region_kind(word: &str) -> Option<Kind>
    ensures { option_map kind_of result ≡ parse_region_kind word.now }
{
    if word == "io" {
        Some(Kind::Io)
    } else if word == "mem32" {
        Some(Kind::Mem32 { pref: false })
    } else if word == "mem32p" {
        Some(Kind::Mem32 { pref: true })
    } else if word == "mem64" {
        Some(Kind::Mem64 { pref: false })
    } else if word == "mem64p" {
        Some(Kind::Mem64 { pref: true })
    } else {
        None
    }
}

/// Parses a bridge's I/O address decoding.
pub(crate) fn parse_io_decode(word: &str) -> Option<IoDecode>
    ensures { option_map io_decode_of result ≡ parse_io_decode word.now }
{
    if word == "none" {
        Some(IoDecode::Unimplemented)
    } else if word == "16" {
        Some(IoDecode::Bits16)
    } else if word == "32" {
        Some(IoDecode::Bits32)
    } else {
        None
    }
}

/// Parses a bridge's prefetchable address decoding.
pub(crate) fn parse_pref_decode(word: &str) -> Option<PrefDecode>
    ensures { option_map pref_decode_of result ≡ parse_pref_decode word.now }
{
    if word == "none" {
        Some(PrefDecode::Unimplemented)
    } else if word == "32" {
        Some(PrefDecode::Bits32)
    } else if word == "64" {
        Some(PrefDecode::Bits64)
    } else {
        None
    }
}
