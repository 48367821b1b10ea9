//! Renders the role of an I/O port in the configuration mechanism.
ghost use Rattle.std.specs.Prelude.{◌++◌, OnOk, Some, codes};
ghost use Rattle.lists.specs.Texts.{Adds};
ghost use Rattle.paths.specs.BusAddresses.{bus_address_of};
ghost use Rattle.model_guests.specs.PathTexts.{hexadecimal};
ghost use Rattle.model_findings.specs.AuditText.{number_text};
ghost use Rattle.model_lines.specs.WhyPorts.{port_text, latch_text};
ghost use Rattle.findings.specs.WhyTold.{use_told};
ghost use Rattle.findings_render.specs.WhyLines.{use_text};

use crate::region_texts::Hexadecimal;
use findings::{Bdf, PortUse};
use report::Numbers;
use std::alloc::AllocError;
use std::fmt;

/// Displays a port followed by a colon.
#[derive(Clone, Copy)]
struct ShownPort(u64);

impl fmt::Display for ShownPort {
    ghost output = { λ p. Some (port_text p.0) };

    fn fmt<W: fmt::Write>(&self, f: &mut fmt::Formatter<W>) -> fmt::Result {
        let port = self.0;
        write!(f, "I/O 0x{port:x}: ")
    }
}

/// Displays the value of CONFIG_ADDRESS.
#[derive(Clone, Copy)]
struct ShownLatch(u32);

impl fmt::Display for ShownLatch {
    ghost output = { λ l. Some (latch_text l.0) };

    fn fmt<W: fmt::Write>(&self, f: &mut fmt::Formatter<W>) -> fmt::Result {
        let latch = self.0;
        write!(f, "CONFIG_ADDRESS (0x{latch:x})")
    }
}

/// Appends the byte of configuration space that CONFIG_ADDRESS selects.
fn push_config_selection(
    text: &mut String,
    port: ShownPort,
    latch: ShownLatch,
    at: Bdf,
    offset: u8,
) -> Result<(), AllocError>
    ensures { OnOk result (Adds text.old text.new
        (port_text port.0 ++ latch_text latch.0 ++ codes " selects offset " ++ hexadecimal offset
        ++ codes " of " ++ number_text (bus_address_of at))) }
{
    let offset = Hexadecimal(u64::from(offset));
    let number = Numbers {
        bus: at.bus,
        device: at.device,
        function: at.function,
    };
    write!(text, "{port}{latch} selects offset {offset} of {number}")
}

/// Appends the role of a port. Appends nothing for an ordinary port.
pub(crate) fn push_port_role_if_any(
    text: &mut String,
    latch: u32,
    port: u64,
    used: &PortUse,
) -> Result<(), AllocError>
    ensures { OnOk result (Adds text.old text.new (use_text latch port (use_told used.now))) }
{
    let port = ShownPort(port);
    let latch = ShownLatch(latch);
    match *used {
        PortUse::HoldsLatch => write!(text, "{port}4-byte accesses go to {latch}"),
        PortUse::ShowsData { at, offset } => push_config_selection(text, port, latch, at, offset),
        PortUse::HidesData => write!(text, "{port}{latch} is disabled"),
        PortUse::LikeOthers => Ok(()),
    }
}
