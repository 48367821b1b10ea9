//! Text forms of numbers, paths and kinds of regions.
ghost use Rattle.std.specs.{Prelude.{◌≡◌, ◌<◌, Some, false}, Fmt.digit_glyph};
ghost use Rattle.model_handoff.specs.Report.{kind_text, numbers_text};
ghost use Rattle.model_guests.specs.{PathTexts.{part_text, path_text}, Replies.hex_digits};
ghost use Rattle.bars.specs.Kinds.{kind_of};

use bars::Kind;
use paths::{Part, Path};
use std::fmt;

/// Returns the name of a kind of region, for example `mem64p` for 64-bit prefetchable memory.
pub fn kind_text(kind: Kind) -> &'static str
    ensures { result.now ≡ kind_text (kind_of kind) }
{
    match kind {
        Kind::Io => "io",
        Kind::Mem32 { pref } => if pref { "mem32p" } else { "mem32" },
        Kind::Mem64 { pref } => if pref { "mem64p" } else { "mem64" },
    }
}

/// Displays a device and function number, for example `2.0`.
#[derive(Clone, Copy)]
struct ShownPart(Part);

impl fmt::Display for ShownPart {
    ghost output = { λ p. Some (part_text p.0) };

    fn fmt<W: fmt::Write>(&self, f: &mut fmt::Formatter<W>) -> fmt::Result {
        write!(f, "{}.{}", self.0.device(), self.0.function())
    }
}

/// Displays a path by the device and function number of each part, for example `2.0/1.0`.
#[derive(Clone, Copy)]
pub struct ShownPath<'a>(pub &'a Path);

impl<'a> fmt::Display for ShownPath<'a> {
    ghost output = { λ p. Some (path_text p.0.now) };

    fn fmt<W: fmt::Write>(&self, f: &mut fmt::Formatter<W>) -> fmt::Result {
        let Some((first, rest)) = self.0.parts().split_first() else {
            return Ok(());
        };
        write!(f, "{}", ShownPart(*first))?;
        'rest: for part in rest {
            write!(f, "/{}", ShownPart(*part))?;
        }
        Ok(())
    }
}

/// Returns the lowercase hexadecimal digit for a value below 16.
fn hex_digit(value: u8) -> char
    requires { value < 16 }
    ensures glyph { result ≡ digit_glyph false value }
    ensures ascii { result < 128 }
{
    char::from(if value < 10 {
        b'0' + value
    } else {
        b'a' - 10 + value
    })
}

/// Displays a byte as two hexadecimal digits.
#[derive(Clone, Copy)]
pub struct TwoHexDigits(pub u8);

impl fmt::Display for TwoHexDigits {
    ghost output = { λ b. Some (hex_digits 2 b.0) };

    fn fmt<W: fmt::Write>(&self, f: &mut fmt::Formatter<W>) -> fmt::Result {
        let byte = self.0;
        write!(f, "{}{}", hex_digit(byte / 16), hex_digit(byte % 16))
    }
}

/// Displays 16 bits as four hexadecimal digits.
#[derive(Clone, Copy)]
pub struct FourHexDigits(pub u16);

impl fmt::Display for FourHexDigits {
    ghost output = { λ w. Some (hex_digits 4 w.0) };

    fn fmt<W: fmt::Write>(&self, f: &mut fmt::Formatter<W>) -> fmt::Result {
        let high = TwoHexDigits((self.0 / 256) as u8);
        let low = TwoHexDigits((self.0 % 256) as u8);
        write!(f, "{high}{low}")
    }
}

/// Displays a BDF, for example `02:1f.0`.
#[derive(Clone, Copy)]
pub struct Numbers {
    pub bus: u8,
    pub device: u8,
    pub function: u8,
}

impl fmt::Display for Numbers {
    ghost output = { λ n. Some (numbers_text n.bus n.device n.function) };

    fn fmt<W: fmt::Write>(&self, f: &mut fmt::Formatter<W>) -> fmt::Result {
        let function = self.function;
        write!(
            f,
            "{}:{}.{function}",
            TwoHexDigits(self.bus),
            TwoHexDigits(self.device)
        )
    }
}
