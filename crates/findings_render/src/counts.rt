//! Displays counts.
ghost use Rattle.std.specs.Prelude.{◌++◌, ◌==◌, Some, if◌then◌else◌, decimal};

use std::fmt;

/// Displays a count followed by the singular or plural noun.
#[derive(Clone, Copy)]
pub(crate) struct Counted<'a> {
    pub(crate) count: usize,
    pub(crate) one: &'a str,
    pub(crate) more: &'a str,
}

impl<'a> fmt::Display for Counted<'a> {
    ghost output = { λ c. Some
        (decimal c.count ++ (if c.count == 1 then c.one.now else c.more.now)) };

    fn fmt<W: fmt::Write>(&self, f: &mut fmt::Formatter<W>) -> fmt::Result {
        let count = self.count;
        let word = if count == 1 { self.one } else { self.more };
        write!(f, "{count}{word}")
    }
}
