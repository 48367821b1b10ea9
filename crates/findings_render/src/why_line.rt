//! Renders single lines of an explanation.
ghost use Rattle.std.specs.Prelude.{OnOk, map};
ghost use Rattle.lists.specs.Texts.{Adds};
ghost use Rattle.model_guests.specs.Text.{ended, text_of_lines};
ghost use Rattle.model_lines.specs.WhyText.{why_line};
ghost use Rattle.findings_render.specs.WhyLines.{line_text};

use crate::counts::Counted;
use crate::region_texts::{Reached, shown_bdf};
use crate::why_address_lines::{ShownAddress, ShownSilentBar, push_forwarder};
use crate::why_number_lines::ShownMissing;
use crate::why_port_lines::push_port_role_if_any;
use bars::Space;
use bridge_forward::Path;
use findings::{Bdf, Forwarder, Missing, PortUse, UnansweredRegion, Why, WhyNumber};
use report::{ShownPath, TwoHexDigits};
use std::alloc::AllocError;

/// A line of an explanation, without the leading `why: `.
#[derive(Clone, Copy)]
pub(crate) enum Line<'a> {
    /// The role of an I/O port in the configuration mechanism: the value of CONFIG_ADDRESS, the
    /// port and its role.
    Port(u32, u64, &'a PortUse),
    /// The BAR that answers an address.
    Address(Space, u64, &'a Why),
    /// A bridge that forwards the address.
    Forwarder(&'a Forwarder),
    /// A BAR that contains the address without answering it.
    Region(Space, &'a UnansweredRegion),
    /// The number of these BARs that are in their reset state.
    AtReset(usize),
    /// The function that a BDF reaches.
    Number(&'a Bdf, &'a WhyNumber),
    /// A bridge that claims the configuration cycle, with the cycle's bus number.
    Taker(u8, &'a Path),
    /// What is missing if the BDF reaches no function.
    Missing(&'a Missing),
    /// A function that has this BDF but isn't reached by it.
    NotFound(&'a Path),
    /// The number of lines above this one.
    Total(usize),
}

/// Appends the text of a line, without the leading `why: `.
fn push_description(text: &mut String, line: Line) -> Result<(), AllocError>
    ensures { OnOk result (Adds text.old text.new (line_text line.entry)) }
{
    match line {
        Line::Port(latch, port, used) => push_port_role_if_any(text, latch, port, used),
        Line::Address(space, addr, why) => write!(text, "{}", ShownAddress { space, addr, why }),
        Line::Forwarder(forwarder) => push_forwarder(text, forwarder),
        Line::Region(space, told) => write!(text, "{}", ShownSilentBar { space, told }),
        Line::AtReset(count) => {
            let bars = Counted {
                count,
                one: " BAR",
                more: " BARs",
            };
            write!(text, "{bars} at 0x0 with decode disabled, as at reset")
        }
        Line::Number(at, why) => {
            write!(text, "{} reaches {}", shown_bdf(*at), Reached(&why.reached))
        }
        Line::Taker(bus, path) => {
            let bridge = ShownPath(path);
            write!(text, "bridge {bridge} claims bus {}", TwoHexDigits(bus))
        }
        Line::Missing(missing) => write!(text, "{}", ShownMissing(missing)),
        Line::NotFound(path) => {
            write!(text, "{} has this BDF but isn't reached", ShownPath(path))
        }
        Line::Total(count) => {
            let lines = Counted {
                count,
                one: " line",
                more: " lines",
            };
            write!(text, "{lines}")
        }
    }
}

/// Appends a line.
fn push_line(text: &mut String, line: Line) -> Result<(), AllocError>
    ensures { OnOk result (Adds text.old text.new (ended (why_line (line_text line.entry)))) }
{
    text.push_str("why: ")?;
    push_description(text, line)?;
    text.push('\n')
}

/// Appends several lines.
pub(crate) fn push_lines(text: &mut String, lines: &[Line]) -> Result<(), AllocError>
    ensures { OnOk result (Adds text.old text.new
        (text_of_lines (map why_line (map line_text lines.now)))) }
{
    for line in lines {
        push_line(text, *line)?;
    }
    Ok(())
}
