//! Collects the lines of an explanation.
ghost use Rattle.std.specs.Prelude.{◌≡◌, ◌++◌, map, OnOk};
ghost use Rattle.bars.specs.Kinds.{named_space};
ghost use Rattle.paths.specs.BusAddresses.{bus_address_of};
ghost use Rattle.model_lines.specs.{WhyText.{forwarder_text, told_text, taker_text, not_found_text, why_lines, number_lines}, WhyPorts.use_lines};
ghost use Rattle.findings.specs.WhyTold.{forwarder_told, region_told, why_told, number_told, use_told};
ghost use Rattle.findings_render.specs.WhyLines.{line_text};

use crate::why_line::Line;
use bars::Space;
use bridge_forward::Path;
use findings::{Bdf, Forwarder, PortUse, UnansweredRegion, Why, WhyNumber};
use std::alloc::AllocError;

/// Adds a line for each bridge that forwards an address.
fn add_forwarder_lines<'a>(
    lines: &mut Vec<Line<'a>>,
    all: &'a [Forwarder],
) -> Result<(), AllocError>
    ensures { OnOk result (map line_text lines.new.items ≡ map line_text lines.old.items
        ++ map forwarder_text (map forwarder_told all.now)) }
{
    for forwarder in all {
        lines.push(Line::Forwarder(forwarder))?;
    }
    Ok(())
}

/// Adds a line for each other BAR that contains an address.
fn add_region_lines<'a>(
    lines: &mut Vec<Line<'a>>,
    space: Space,
    all: &'a [UnansweredRegion],
) -> Result<(), AllocError>
    ensures { OnOk result (map line_text lines.new.items ≡ map line_text lines.old.items
        ++ map (told_text (named_space space)) (map region_told all.now)) }
{
    for told in all {
        lines.push(Line::Region(space, told))?;
    }
    Ok(())
}

/// Adds the lines that explain an address.
pub(crate) fn add_address_lines<'a>(
    lines: &mut Vec<Line<'a>>,
    space: Space,
    addr: u64,
    why: &'a Why,
) -> Result<(), AllocError>
    ensures { OnOk result (map line_text lines.new.items ≡ map line_text lines.old.items
        ++ why_lines (named_space space) addr (why_told why.now)) }
{
    lines.push(Line::Address(space, addr, why))?;
    add_forwarder_lines(lines, &why.forwarders)?;
    add_region_lines(lines, space, &why.told)?;
    if why.at_reset > 0 {
        lines.push(Line::AtReset(why.at_reset))?;
    }
    Ok(())
}

/// Adds a line for each bridge that claims the configuration cycle for a BDF.
fn add_claiming_bridge_lines<'a>(
    lines: &mut Vec<Line<'a>>,
    at: &Bdf,
    bridges: &'a [Path],
) -> Result<(), AllocError>
    ensures { OnOk result (map line_text lines.new.items ≡ map line_text lines.old.items
        ++ map (taker_text (bus_address_of at.now)) bridges.now) }
{
    for bridge in bridges {
        lines.push(Line::Taker(at.bus, bridge))?;
    }
    Ok(())
}

/// Adds a line for each function that has a BDF but isn't reached by it.
fn add_not_found_lines<'a>(lines: &mut Vec<Line<'a>>, paths: &'a [Path]) -> Result<(), AllocError>
    ensures { OnOk result (map line_text lines.new.items ≡ map line_text lines.old.items
        ++ map not_found_text paths.now) }
{
    for path in paths {
        lines.push(Line::NotFound(path))?;
    }
    Ok(())
}

/// Adds the lines that explain a BDF.
pub(crate) fn add_bdf_lines<'a>(
    lines: &mut Vec<Line<'a>>,
    at: &'a Bdf,
    why: &'a WhyNumber,
) -> Result<(), AllocError>
    ensures { OnOk result (map line_text lines.new.items ≡ map line_text lines.old.items
        ++ number_lines (bus_address_of at.now) (number_told why.now)) }
{
    lines.push(Line::Number(at, why))?;
    add_claiming_bridge_lines(lines, at, &why.bridges)?;
    if let Some(missing) = &why.missing {
        lines.push(Line::Missing(missing))?;
    }
    add_not_found_lines(lines, &why.not_found)
}

/// Adds the line about the role of a port in the configuration mechanism. Adds nothing for an
/// ordinary port.
pub(crate) fn add_port_use_line_if_any<'a>(
    lines: &mut Vec<Line<'a>>,
    latch: u32,
    port: u64,
    used: &'a PortUse,
) -> Result<(), AllocError>
    ensures { OnOk result (map line_text lines.new.items ≡ map line_text lines.old.items
        ++ use_lines latch port (use_told used.now)) }
{
    if *used != PortUse::LikeOthers {
        lines.push(Line::Port(latch, port, used))?;
    }
    Ok(())
}
