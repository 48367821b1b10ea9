//! Displays bytes of a file safely.

use std::fmt;

/// Displays bytes as text, with `?` for each byte that isn't printable ASCII.
#[derive(Clone, Copy)]
pub struct Shown<'a>(pub &'a [u8]);

impl<'a> fmt::Display for Shown<'a> {
    fn fmt<W: fmt::Write>(&self, f: &mut fmt::Formatter<W>) -> fmt::Result {
        for byte in self.0 {
            let shown = match *byte {
                b' '..=b'~' => char::from(*byte),
                _ => '?',
            };
            write!(f, "{shown}")?;
        }
        Ok(())
    }
}
