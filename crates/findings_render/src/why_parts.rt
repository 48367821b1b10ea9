//! Displays parts of an explanation: Command values and bridge windows.
ghost use Rattle.std.specs.{Prelude.{◌≡◌, Some, codes, option_map}, Option.option_map_or};
ghost use Rattle.bridge_forward.specs.RoutingRows.{window_of};
ghost use Rattle.model_lines.specs.WhyText.{disabled_text, name_text, range_text, window_text, windows_text};
ghost use Rattle.findings.specs.WhyTold.{name_told, window_told, windows_told};

use bridge_forward::Window;
use findings::{NamedWindow, WindowName};
use report::FourHexDigits;
use std::fmt;

/// Displays that a Command register, given its value, disables decode.
#[derive(Clone, Copy)]
pub struct ShownDisabled(pub u16);

impl fmt::Display for ShownDisabled {
    ghost output = { λ c. Some (disabled_text c.0) };

    fn fmt<W: fmt::Write>(&self, f: &mut fmt::Formatter<W>) -> fmt::Result {
        write!(
            f,
            "decode is disabled (Command 0x{})",
            FourHexDigits(self.0)
        )
    }
}

/// Returns the name of a window.
fn window_name(name: WindowName) -> &'static str
    ensures { result.now ≡ name_text (name_told name) }
{
    match name {
        WindowName::Io => "I/O",
        WindowName::Memory => "memory",
        WindowName::Prefetchable => "prefetchable",
    }
}

/// Displays the addresses of a window, or `disabled` if its base is above its limit.
#[derive(Clone, Copy)]
struct ShownRange(Option<Window>);

impl fmt::Display for ShownRange {
    ghost output = { λ r. Some
        (option_map_or range_text (option_map window_of r.0) (codes "disabled")) };

    fn fmt<W: fmt::Write>(&self, f: &mut fmt::Formatter<W>) -> fmt::Result {
        match self.0 {
            Some(window) => {
                let first = window.first;
                let last = window.last;
                write!(f, "0x{first:x}-0x{last:x}")
            }
            None => write!(f, "disabled"),
        }
    }
}

/// Displays the name and the addresses of a window.
#[derive(Clone, Copy)]
struct ShownWindow(NamedWindow);

impl fmt::Display for ShownWindow {
    ghost output = { λ w. Some (window_text (window_told w.0)) };

    fn fmt<W: fmt::Write>(&self, f: &mut fmt::Formatter<W>) -> fmt::Result {
        let name = window_name(self.0.name);
        write!(f, "{name} window {}", ShownRange(self.0.window))
    }
}

/// Displays up to two windows of a bridge.
#[derive(Clone, Copy)]
pub(crate) struct ShownWindows {
    pub(crate) one: Option<NamedWindow>,
    pub(crate) other: Option<NamedWindow>,
}

impl fmt::Display for ShownWindows {
    ghost output = { λ w. Some (windows_text (windows_told w.one w.other)) };

    fn fmt<W: fmt::Write>(&self, f: &mut fmt::Formatter<W>) -> fmt::Result {
        match (self.one, self.other) {
            (None, None) => write!(f, "no window"),
            (Some(window), None) | (None, Some(window)) => write!(f, "{}", ShownWindow(window)),
            (Some(one), Some(other)) => write!(f, "{}, {}", ShownWindow(one), ShownWindow(other)),
        }
    }
}
