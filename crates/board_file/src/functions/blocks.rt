//! Register blocks, at the start of a BAR or in configuration space.
ghost use Rattle.std.specs.{Prelude.{◌≡◌, ◌+◌, ◌<◌, IfOk, length, nat_abs, nat_le, option_map, take}, List.list_all};
ghost use Rattle.board_file.specs.{Blocks.{decode_hex, is_pattern, decode_pattern_or_zero, repeated_byte_at, are_apart as share_no_bit, cells, are_patterns_valid, block_cells, Gives}, Rules.are_apart};
ghost use Rattle.board_file.specs.Values as said;

use config_bytes::Cell;
use hex::FromHexError;
use std::alloc::{AllocError, Global};
use std::marker::Model;

/// The hexadecimal patterns of a register block.
#[derive(Drop)]
pub struct PatternTexts<'a> {
    pub reset: Option<&'a str>,
    pub rw: Option<&'a str>,
    pub w1c: Option<&'a str>,
}

impl<'a> Model for PatternTexts<'a> {
    ghost Value = { said.Patterns };

    ghost view = { λ p. record {
      reset = option_map (λ s. s.now) p.reset;
      writable = option_map (λ s. s.now) p.rw;
      clearable = option_map (λ s. s.now) p.w1c;
    } };
}

/// Decodes hexadecimal text of 1 to `max_len` bytes. Returns `None` for any other text.
pub fn decode_hex(alloc: Global, text: &str, max_len: usize) -> Result<Option<Vec<u8>>, AllocError>
    ensures { IfOk result (λ found.
        option_map (λ v. v.items) found ≡ decode_hex max_len text.now) }
{
    match hex::decode(alloc, text.as_bytes()) {
        Ok(bytes) => {
            if 1 <= bytes.len() && bytes.len() <= max_len {
                Ok(Some(bytes))
            } else {
                Ok(None)
            }
        }
        Err(FromHexError::OutOfMemory) => Err(AllocError),
        Err(_) => Ok(None),
    }
}

/// Decodes an optional pattern. A missing pattern is one zero byte.
pub fn decode_pattern_or_zero(
    alloc: Global,
    text: Option<&str>,
    max_len: usize,
) -> Result<Option<Vec<u8>>, AllocError>
    ensures { let given = option_map (λ s. s.now) text.entry in
        IfOk result (λ found. Gives (is_pattern max_len given) found (λ v.
        (v.items ≡ decode_pattern_or_zero max_len given) × (0 < length v.items))) }
{
    match text {
        Some(text) => decode_hex(alloc, text, max_len),
        None => {
            let mut zero = Vec::new(alloc);
            zero.push(0)?;
            Ok(Some(zero))
        }
    }
}

/// Returns the byte at `index` of the repeated pattern. Most patterns have one byte and skip the
/// slow division.
fn repeated_byte_at(bytes: &[u8], index: usize) -> u8
    requires { 0 < length bytes.now }
    ensures { result ≡ repeated_byte_at bytes.now index }
{
    if bytes.len() == 1 {
        bytes[0]
    } else {
        bytes[index % bytes.len()]
    }
}

/// Builds `len` cells from repeated patterns. Returns `None` if a bit is in both the write mask and
/// the W1C mask.
fn cells_unless_masks_overlap(
    alloc: Global,
    len: usize,
    reset: &[u8],
    rw: &[u8],
    w1c: &[u8],
) -> Result<Option<Vec<Cell>>, AllocError>
    requires reset { 0 < length reset.now }
    requires rw { 0 < length rw.now }
    requires w1c { 0 < length w1c.now }
    ensures { IfOk result (λ found.
        Gives (share_no_bit len rw.now w1c.now) found (λ v. v.items
        ≡ cells len reset.now rw.now w1c.now)) }
{
    let mut cells = Vec::with_capacity(alloc, len)?;
    for i in 0..len {
        match Cell::new(
            repeated_byte_at(reset, i),
            repeated_byte_at(rw, i),
            repeated_byte_at(w1c, i),
        ) {
            Ok(cell) => cells.push(cell)?,
            Err(_) => return Ok(None),
        }
    }
    Ok(Some(cells))
}

/// Builds the `len` cells of a register block. Returns `None` if the patterns aren't valid. Fails
/// only if memory is exhausted.
pub(crate) fn build_block_if_valid(
    alloc: Global,
    len: usize,
    patterns: &PatternTexts<'_>,
) -> Result<Option<Vec<Cell>>, AllocError>
    ensures { IfOk result (λ found.
        Gives (are_patterns_valid len patterns.now) found (λ v.
        v.items ≡ block_cells len patterns.now)) }
{
    let Some(reset) = decode_pattern_or_zero(alloc, patterns.reset, len)? else {
        return Ok(None);
    };
    let Some(rw) = decode_pattern_or_zero(alloc, patterns.rw, len)? else {
        return Ok(None);
    };
    let Some(w1c) = decode_pattern_or_zero(alloc, patterns.w1c, len)? else {
        return Ok(None);
    };
    cells_unless_masks_overlap(alloc, len, &reset, &rw, &w1c)
}

/// Returns whether the patterns are valid for a register block of `len` bytes.
pub(crate) fn are_patterns_valid(
    alloc: Global,
    len: i64,
    patterns: &PatternTexts<'_>,
) -> Result<bool, AllocError>
    ensures { IfOk result (λ b. b ≡ are_patterns_valid (nat_abs len) patterns.now) }
{
    match build_block_if_valid(alloc, len.unsigned_abs() as usize, patterns)? {
        Some(_) => Ok(true),
        None => Ok(false),
    }
}

/// A range of offsets in configuration space.
#[derive(Clone, Copy)]
pub struct ByteRange {
    pub off: u64,
    pub len: u64,
}

/// An entry that describes a range of configuration space.
pub trait HasExtent {
    ghost use Rattle.board_file.specs.declared.functions.blocks.ByteRange.{ByteRange};

    ghost extent_of: { Self → ByteRange };

    /// Returns the range of offsets.
    fn extent(&self) -> ByteRange
        ensures { result ≡ extent_of self.now };
}

/// Returns whether `first` ends at or before the offset where `second` begins.
fn ends_before(first: ByteRange, second: ByteRange) -> bool
    ensures { result ≡ nat_le (first.off + first.len) second.off }
{
    first.off <= second.off && first.len <= second.off - first.off
}

/// Returns whether two ranges don't overlap.
pub fn are_apart(one: ByteRange, other: ByteRange) -> bool
    ensures { result ≡ are_apart one other }
{
    ends_before(one, other) || ends_before(other, one)
}

/// Returns whether a range overlaps none of the entries.
pub(crate) fn overlaps_none<E: HasExtent>(entries: &[E], range: ByteRange) -> bool
    ensures { result ≡ list_all (λ e. are_apart (E.extent_of e) range) entries.now }
{
    entries.iter().all(|entry| are_apart(entry.extent(), range))
}

/// Returns whether a range overlaps none of the first `count` entries.
pub(crate) fn overlaps_none_of_first<E: HasExtent>(
    entries: &[E],
    count: usize,
    range: ByteRange,
) -> bool
    ensures { result ≡ list_all (λ e. are_apart (E.extent_of e) range) (take count entries.now) }
{
    entries
        .iter()
        .take(count)
        .all(|entry| are_apart(entry.extent(), range))
}
