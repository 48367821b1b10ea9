//! Ranges and conversions of integers, and limits on the number of entries.
ghost use Rattle.std.specs.Prelude.{◌≡◌, ◌<◌, ◌+◌, ◌^◌, ◌+ℤ◌, int_le, nat_abs, nat_le, pos, length};
ghost use Rattle.board_file.specs.Rules.{is_between, fits_byte_rule, fits_half_word_rule, has_only_bits, has_only_fixed_bits, fixed_status_rule, multifunction_rule, is_device_count, has_at_most_15_slashes};

use crate::document::keys::RegisterKey;
use crate::entries::FileEntries;
use crate::path::text::PathText;
use crate::rule::Rule;

/// Returns whether the number is between `first` and `last`, both inclusive.
pub(crate) fn is_between(first: u16, last: u32, number: i64) -> bool
    ensures { result ≡ is_between first last number }
{
    i64::from(first) <= number && number <= i64::from(last)
}

/// Returns whether the number fits in 16 bits and has no bit outside the mask.
pub(crate) fn has_only_bits(mask: u16, number: i64) -> bool
    ensures { result ≡ has_only_bits mask number }
{
    match u16::try_from(number) {
        Ok(bits) => bits & mask == bits,
        Err(_) => false,
    }
}

/// Returns the rule that a number fits in its register of one byte, and whether it is kept.
pub(crate) fn fits_byte_rule(key: RegisterKey, number: i64) -> (Rule, bool)
    ensures { result ≡ fits_byte_rule key number }
{
    (Rule::Byte(key), is_between(0, 0xff, number))
}

/// Returns the rule that a number fits in its register of two bytes, and whether it is kept.
pub(crate) fn fits_half_word_rule(key: RegisterKey, number: i64) -> (Rule, bool)
    ensures { result ≡ fits_half_word_rule key number }
{
    (Rule::HalfWord(key), is_between(0, 0xffff, number))
}

/// Returns whether only bits of Status are set that a file may declare as read-only: 5 to 7, 9 and
/// 10.
pub(crate) fn has_only_fixed_bits(number: i64) -> bool
    ensures { result ≡ has_only_fixed_bits number }
{
    has_only_bits(0x06e0, number)
}

/// Returns the rule of the read-only bits of Status, and whether it is kept.
pub(crate) fn fixed_status_rule(number: i64) -> (Rule, bool)
    ensures { result ≡ fixed_status_rule number }
{
    (Rule::FixedStatus, has_only_fixed_bits(number))
}

/// Returns the rule that bit 7 of Header Type isn't declared clear in function 0, and whether it is
/// kept. It is kept if the text isn't a path, which another rule reports.
pub(crate) fn multifunction_rule(at: &PathText<'_>, multifunction: bool) -> (Rule, bool)
    ensures { result ≡ multifunction_rule at.now multifunction }
{
    let is_zero = at.is_path() && at.path_or_zero().last().function() == 0;
    (Rule::Multifunction, multifunction || !is_zero)
}

/// Returns whether a bus may have this number of devices: 16 or 32.
pub(crate) fn is_device_count(devices: i64) -> bool
    ensures { result ≡ is_device_count devices }
{
    devices == 16 || devices == 32
}

/// Returns whether the sum of `off` and `block` is at most `end`.
pub(crate) fn ends_at_or_before(end: u16, off: i64, block: i64) -> bool
    ensures { result ≡ int_le (off +ℤ block) (pos end) }
{
    match off.checked_add(block) {
        Some(sum) => sum <= i64::from(end),
        None => off < 0,
    }
}

/// Returns whether the text has at most 15 slashes. A path of 16 parts has 15.
pub(crate) fn has_at_most_15_slashes(at: &PathText<'_>) -> bool
    ensures { result ≡ has_at_most_15_slashes at.now }
{
    let text = at.text().as_bytes();
    text.iter().filter(|byte| **byte == b'/').count() <= 15
}

/// Returns whether the file has at most 1024 endpoints and bridges.
pub(crate) fn has_at_most_1024_functions(file: &FileEntries<'_>) -> bool
    ensures { result ≡ nat_le (length file.now.endpoints + length file.now.bridges) 1024 }
{
    let endpoints = file.endpoints.len();
    let bridges = file.bridges.len();
    endpoints <= 1024 && bridges <= 1024 && endpoints + bridges <= 1024
}

/// Converts a number that isn't negative.
pub(crate) fn magnitude_as_u64(number: i64) -> u64
    ensures { result ≡ nat_abs number }
{
    number.unsigned_abs()
}

pub(crate) fn magnitude_as_u8(number: i64) -> u8
    requires { nat_abs number < 2 ^ 8 }
    ensures { result ≡ nat_abs number }
{
    magnitude_as_u64(number) as u8
}

pub(crate) fn magnitude_as_u16(number: i64) -> u16
    requires { nat_abs number < 2 ^ 16 }
    ensures { result ≡ nat_abs number }
{
    magnitude_as_u64(number) as u16
}
