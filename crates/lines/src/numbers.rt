//! Parsing of numbers.
ghost use Rattle.std.specs.Prelude.{◌≡◌, ◌≤◌, ◌*◌, ◌+◌, ◌^◌, option_map};
ghost use Rattle.model_guests.specs.Numbers.{below, digit_of, digits_in, number_of};

/// The value of each byte as a hexadecimal digit of either case, or 255 if the byte isn't a digit.
/// A table lookup is faster than comparing ranges.
#[rattlefmt::skip]
static DIGITS: [u8; 256] = [
    255, 255, 255, 255, 255, 255, 255, 255, 255, 255, 255, 255, 255, 255, 255, 255,
    255, 255, 255, 255, 255, 255, 255, 255, 255, 255, 255, 255, 255, 255, 255, 255,
    255, 255, 255, 255, 255, 255, 255, 255, 255, 255, 255, 255, 255, 255, 255, 255,
      0,   1,   2,   3,   4,   5,   6,   7,   8,   9, 255, 255, 255, 255, 255, 255,
    255,  10,  11,  12,  13,  14,  15, 255, 255, 255, 255, 255, 255, 255, 255, 255,
    255, 255, 255, 255, 255, 255, 255, 255, 255, 255, 255, 255, 255, 255, 255, 255,
    255,  10,  11,  12,  13,  14,  15, 255, 255, 255, 255, 255, 255, 255, 255, 255,
    255, 255, 255, 255, 255, 255, 255, 255, 255, 255, 255, 255, 255, 255, 255, 255,
    255, 255, 255, 255, 255, 255, 255, 255, 255, 255, 255, 255, 255, 255, 255, 255,
    255, 255, 255, 255, 255, 255, 255, 255, 255, 255, 255, 255, 255, 255, 255, 255,
    255, 255, 255, 255, 255, 255, 255, 255, 255, 255, 255, 255, 255, 255, 255, 255,
    255, 255, 255, 255, 255, 255, 255, 255, 255, 255, 255, 255, 255, 255, 255, 255,
    255, 255, 255, 255, 255, 255, 255, 255, 255, 255, 255, 255, 255, 255, 255, 255,
    255, 255, 255, 255, 255, 255, 255, 255, 255, 255, 255, 255, 255, 255, 255, 255,
    255, 255, 255, 255, 255, 255, 255, 255, 255, 255, 255, 255, 255, 255, 255, 255,
    255, 255, 255, 255, 255, 255, 255, 255, 255, 255, 255, 255, 255, 255, 255, 255,
];

/// Returns the value of a digit, if it is a digit in this base.
#[inline]
pub(crate) fn digit_value(base: u8, byte: u8) -> Option<u8>
    ensures { result ≡ below base (digit_of byte) }
{
    let digit = DIGITS[byte as usize];
    if digit < base { Some(digit) } else { None }
}

/// Appends a digit to a number, if the result stays below 2^64.
#[inline]
pub(crate) fn append_digit(base: u8, number: u64, byte: u8) -> Option<u64>
    ensures { result
        ≡ below (2 ^ 64) (option_map (λ d. number * base + d) (below base (digit_of byte))) }
{
    let digit = digit_value(base, byte)?;
    // In base 16 one comparison is enough, since adding the digit can't carry.
    if base == 16 {
        return if number < 1 << 60 {
            Some(number * 16 + u64::from(digit))
        } else {
            None
        };
    }
    number
        .checked_mul(u64::from(base))?
        .checked_add(u64::from(digit))
}

/// Parses one or more digits as a number below 2^64. Inlined, so that each base gets its own code.
#[inline(always)]
fn parse_digits(base: u8, digits: &[u8]) -> Option<u64>
    requires { 1 ≤ base }
    ensures { result ≡ below (2 ^ 64) (digits_in base digits.now) }
{
    if digits.is_empty() {
        return None;
    }
    let mut number = 0;
    for byte in digits {
        number = append_digit(base, number, *byte)?;
    }
    Some(number)
}

/// Parses a word as a number below 2^64: decimal digits, or `0x` or `0X` and hexadecimal digits.
pub(crate) fn parse_number(word: &[u8]) -> Option<u64>
    ensures { result ≡ number_of word.now }
{
    match word {
        [b'0', b'x' | b'X', digits @ ..] => parse_digits(16, digits),
        _ => parse_digits(10, word),
    }
}
