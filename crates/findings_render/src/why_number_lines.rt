//! Renders the explanation of a BDF.
ghost use Rattle.std.specs.Prelude.{[], Some, unwrap_or};
ghost use Rattle.model_lines.specs.WhyText.{bus_text, missing_text};
ghost use Rattle.findings.specs.WhyTold.{missing_told};

use bridge_forward::Path;
use findings::Missing;
use report::{ShownPath, TwoHexDigits};
use std::fmt;

/// Displays a bus by the bridge above it.
#[derive(Clone, Copy)]
struct ShownBus<'a>(&'a Option<Path>);

impl<'a> fmt::Display for ShownBus<'a> {
    ghost output = { λ b. Some (bus_text (unwrap_or b.0.now [])) };

    fn fmt<W: fmt::Write>(&self, f: &mut fmt::Formatter<W>) -> fmt::Result {
        match self.0 {
            None => write!(f, "on bus 00"),
            Some(path) => {
                // A path has at least one part.
                prove!(!path.parts().is_empty());
                write!(f, "behind bridge {}", ShownPath(path))
            }
        }
    }
}

/// Displays what is missing at the end of a configuration cycle.
#[derive(Clone, Copy)]
pub(crate) struct ShownMissing<'a>(pub(crate) &'a Missing);

impl<'a> fmt::Display for ShownMissing<'a> {
    ghost output = { λ m. Some (missing_text (missing_told m.0.now)) };

    fn fmt<W: fmt::Write>(&self, f: &mut fmt::Formatter<W>) -> fmt::Result {
        match self.0 {
            Missing::NoBridge { behind, bus } => {
                let behind = ShownBus(behind);
                write!(f, "no bridge {behind} claims bus {}", TwoHexDigits(*bus))
            }
            Missing::NoFunction {
                behind,
                device,
                function,
            } => write!(f, "no function {device}.{function} {}", ShownBus(behind)),
        }
    }
}
