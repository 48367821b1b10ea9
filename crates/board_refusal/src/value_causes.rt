//! Causes of invalid sizes, apertures and patterns.

use crate::parts::{block_size_and_patterns, config_range_of_entry};
use bars::Kind;
use board_file::Entry;
use board_file::entries::{BarEntry, Bounds, FileEntries};
use diagnostics::Other;
use std::alloc::AllocError;

/// Returns the text for the first rule that isn't kept, or an empty string.
fn first_broken_words_or_empty(words_and_is_kept: &[(&'static str, bool)]) -> &'static str {
    for (words, is_kept) in words_and_is_kept {
        if !*is_kept {
            return words;
        }
    }
    ""
}

/// Appends why a BAR can't have its size.
pub(crate) fn push_why_size_invalid(
    text: &mut String,
    bar: &BarEntry<'_>,
) -> Result<(), AllocError> {
    let (least, greatest, limits) = match bar.kind {
        Kind::Io => (4, 1 << 8, "an I/O BAR (4 to 0x100)"),
        Kind::Mem32 { .. } => (16, 1 << 31, "a 32-bit memory BAR (16 to 0x80000000)"),
        Kind::Mem64 { .. } => (16, 1 << 40, "a 64-bit memory BAR (16 to 0x10000000000)"),
    };
    if bar.size < least {
        return write!(text, "is too small for {limits}");
    }
    if greatest < bar.size {
        return write!(text, "is too large for {limits}");
    }
    let next = bar.size.unsigned_abs().next_power_of_two();
    let power = next / 2;
    write!(
        text,
        "is not a power of two (nearest: 0x{power:x} and 0x{next:x})"
    )
}

const NEGATIVE: &str = "has a negative address";

const EMPTY: &str = "ends before it begins: write the first and the last address, not a length";

const MEGABYTES: &str =
    "must begin and end on a 1 MB boundary, such as [0xc0000000, 0xdfffffff] (the last address is included)";

/// Returns whether neither address is negative.
fn is_non_negative(bounds: Bounds) -> bool {
    0 <= bounds.first && 0 <= bounds.last
}

/// Returns whether the bounds enclose whole megabytes.
fn is_megabyte_aligned(bounds: Bounds) -> bool {
    bounds.first % 0x10_0000 == 0 && bounds.last % 0x10_0000 == 0xf_ffff
}

/// Returns why the I/O aperture isn't valid.
pub(crate) fn why_io_invalid(io: Bounds) -> &'static str {
    first_broken_words_or_empty(&[
        (NEGATIVE, is_non_negative(io)),
        (EMPTY, io.first <= io.last),
        (
            "must begin and end on a 4 KB boundary, such as [0x1000, 0xffff] (the last address is included)",
            io.first % 0x1000 == 0 && io.last % 0x1000 == 0xfff,
        ),
        ("begins below 0x1000", 0x1000 <= io.first),
        ("ends above 0xffff", io.last <= 0xffff),
    ])
}

/// Returns why the memory aperture isn't valid.
pub(crate) fn why_mem_invalid(mem: Bounds) -> &'static str {
    first_broken_words_or_empty(&[
        (NEGATIVE, is_non_negative(mem)),
        (EMPTY, mem.first <= mem.last),
        (MEGABYTES, is_megabyte_aligned(mem)),
        ("ends above 0xffffffff", mem.last < 1 << 32),
    ])
}

/// Returns why the prefetchable aperture isn't valid.
pub(crate) fn why_pref_invalid(mem: Bounds, pref: Bounds) -> &'static str {
    first_broken_words_or_empty(&[
        (NEGATIVE, is_non_negative(pref)),
        (EMPTY, pref.first <= pref.last),
        (MEGABYTES, is_megabyte_aligned(pref)),
        (
            "begins below 4 GB (0x100000000) and ends above it",
            pref.last < 1 << 32 || 1 << 32 <= pref.first,
        ),
        (
            "overlaps mem",
            mem.last < pref.first || pref.last < mem.first,
        ),
    ])
}

const TOO_LONG: &str = "has more bytes than block";

/// Returns why a pattern isn't valid for `block_len` bytes. Returns an empty string if the pattern is
/// valid.
fn pattern_error_or_empty(block_len: i64, pattern: &str) -> &'static str {
    let digits = pattern.as_bytes();
    first_broken_words_or_empty(&[
        (
            "begins with 0x: write only the hexadecimal digits",
            !pattern.starts_with("0x"),
        ),
        (
            "contains a character that is not a hexadecimal digit",
            digits.iter().all(|digit| digit.is_ascii_hexdigit()),
        ),
        (
            "has an odd number of digits: write two for each byte",
            digits.len() % 2 == 0,
        ),
        ("is empty", !digits.is_empty()),
        (
            "needs the key 'block' (how many bytes there are), which is missing or 0",
            block_len != 0,
        ),
        (
            TOO_LONG,
            digits.len() as u64 / 2 <= block_len.unsigned_abs(),
        ),
    ])
}

/// Returns the key and the text of the first pattern of a register block that isn't valid, and the
/// size of the block.
fn invalid_pattern_and_block_len<'a>(
    file: &FileEntries<'a>,
    entry: Entry,
) -> Option<(&'static str, &'a str, i64)> {
    let (block, patterns) = block_size_and_patterns(file, entry)?;
    for (key, pattern) in &[
        ("reset", patterns.reset),
        ("rw", patterns.rw),
        ("w1c", patterns.w1c),
    ] {
        if let Some(pattern) = *pattern {
            if !pattern_error_or_empty(block, pattern).is_empty() {
                return Some((*key, pattern, block));
            }
        }
    }
    None
}

/// Returns the key of the first pattern of a register block that isn't valid.
pub(crate) fn invalid_pattern_key_or_w1c(file: &FileEntries<'_>, entry: Entry) -> &'static str {
    match invalid_pattern_and_block_len(file, entry) {
        Some((key, _, _)) => key,
        None => "w1c",
    }
}

/// Appends why a pattern of a register block is invalid, or that its masks share a bit.
pub(crate) fn push_why_block_patterns_invalid(
    text: &mut String,
    file: &FileEntries<'_>,
    entry: Entry,
) -> Result<(), AllocError> {
    let Some((_, pattern, block)) = invalid_pattern_and_block_len(file, entry) else {
        return text.push_str("has a bit that is also in rw: a bit can be in only one of them");
    };
    let words = pattern_error_or_empty(block, pattern);
    if words == TOO_LONG {
        return write!(
            text,
            "has {} bytes, but block is {block}",
            pattern.len() / 2
        );
    }
    text.push_str(words)
}

/// Appends the size of a block of configuration registers, and the block that it overlaps.
pub(crate) fn push_size_and_overlap(
    text: &mut String,
    file: &FileEntries<'_>,
    entry: Entry,
    other: Other,
) -> Result<(), AllocError> {
    let Some((block, _)) = block_size_and_patterns(file, entry) else {
        return Ok(());
    };
    let Some(met) = config_range_of_entry(file, other.entry) else {
        return Ok(());
    };
    let first = met.off;
    let end = first.saturating_add(met.len);
    write!(
        text,
        " {block} overlaps {other}, which is at 0x{first:x} to 0x{:x}",
        end.saturating_sub(1)
    )
}
