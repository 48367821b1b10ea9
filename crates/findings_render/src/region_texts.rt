//! Displays BARs, spaces, BDFs and paths.
ghost use Rattle.std.specs.{Prelude.{◌≡◌, Some, codes}, Option.option_map_or};
ghost use Rattle.bars.specs.Kinds.{named_space};
ghost use Rattle.model_guests.specs.PathTexts.{hexadecimal, path_text};
ghost use Rattle.model_findings.specs.AuditText.{region_text, space_text};

use bars::Space;
use findings::{Bdf, LiveBar};
use paths::Path;
use report::{Numbers, ShownPath};
use std::fmt;

/// Displays a BAR by its path, index, address and size.
#[derive(Clone, Copy)]
pub(crate) struct ShownRegion<'a>(pub(crate) &'a LiveBar);

impl<'a> fmt::Display for ShownRegion<'a> {
    ghost output = { λ q. Some (region_text q.0.now) };

    fn fmt<W: fmt::Write>(&self, f: &mut fmt::Formatter<W>) -> fmt::Result {
        let region = self.0;
        let path = ShownPath(&region.path);
        let index = region.region.index;
        let base = region.region.base;
        let size = region.region.size;
        write!(f, "{path} bar{index} at 0x{base:x} size 0x{size:x}")
    }
}

/// Returns the name of a space.
pub(crate) fn space_name(space: Space) -> &'static str
    ensures { result.now ≡ space_text (named_space space) }
{
    match space {
        Space::Io => "I/O",
        Space::Mem => "memory",
    }
}

/// Displays a number in hexadecimal, with the prefix `0x`.
#[derive(Clone, Copy)]
pub(crate) struct Hexadecimal(pub(crate) u64);

impl fmt::Display for Hexadecimal {
    ghost output = { λ n. Some (hexadecimal n.0) };

    fn fmt<W: fmt::Write>(&self, f: &mut fmt::Formatter<W>) -> fmt::Result {
        let number = self.0;
        write!(f, "0x{number:x}")
    }
}

/// Converts a BDF into a form that can be displayed.
pub fn shown_bdf(at: Bdf) -> Numbers
    ensures { result ≡ record { bus = at.bus; device = at.device; function = at.function } }
{
    Numbers {
        bus: at.bus,
        device: at.device,
        function: at.function,
    }
}

/// Displays a path, or `nothing` if there is none.
#[derive(Clone, Copy)]
pub(crate) struct Reached<'a>(pub(crate) &'a Option<Path>);

impl<'a> fmt::Display for Reached<'a> {
    ghost output = { λ r. Some (option_map_or path_text r.0.now (codes "nothing")) };

    fn fmt<W: fmt::Write>(&self, f: &mut fmt::Formatter<W>) -> fmt::Result {
        match self.0 {
            Some(path) => write!(f, "{}", ShownPath(path)),
            None => write!(f, "nothing"),
        }
    }
}
