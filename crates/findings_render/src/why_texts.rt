//! Renders whole explanations.
ghost use Rattle.std.specs.Prelude.{◌≡◌, ◌++◌, map, IfOk, OnOk, string_bytes};
ghost use Rattle.lists.specs.Texts.{Adds};
ghost use Rattle.bars.specs.Kinds.{named_space};
ghost use Rattle.paths.specs.BusAddresses.{bus_address_of};
ghost use Rattle.accesses.specs.Accesses.{host_target_of};
ghost use Rattle.model_guests.specs.Text.{text_of_lines};
ghost use Rattle.model_lines.specs.{Why.why, Ways.why_number, WhyText.{why_line, why_lines, number_lines, whole_text}, WhyPorts.{use_lines, why_port_text}, Requests.why_written};
ghost use Rattle.findings.specs.WhyTold.{use_told};
ghost use Rattle.findings_render.specs.WhyLines.{line_text};

use crate::why_line::{Line, push_lines};
use crate::why_lines::{add_address_lines, add_bdf_lines, add_port_use_line_if_any};
use accesses::HostAt;
use bars::Space;
use findings::{Bdf, PortUse, port_use, why_address, why_number};
use host_bridge::Host;
use paths::Latch;
use std::alloc::{AllocError, Global};

/// Appends the line about the role of a port in the configuration mechanism. Appends nothing for an
/// ordinary port.
pub fn push_port_line_if_any(
    alloc: Global,
    text: &mut String,
    latch: Latch,
    port: u64,
    used: PortUse,
) -> Result<(), AllocError>
    ensures { OnOk result (Adds text.old text.new
        (text_of_lines (map why_line (use_lines latch port (use_told used))))) }
{
    let mut lines = Vec::new(alloc);
    add_port_use_line_if_any(&mut lines, latch.value(), port, &used)?;
    push_lines(text, &lines)
}

/// Renders the lines, followed by a line that counts them.
fn push_total_and_render(alloc: Global, lines: &mut Vec<Line>) -> Result<String, AllocError>
    ensures { IfOk result (λ t.
        string_bytes t ≡ whole_text (map line_text lines.old.items)) }
{
    let mut text = String::new(alloc);
    let count = lines.len();
    lines.push(Line::Total(count))?;
    push_lines(&mut text, lines)?;
    Ok(text)
}

/// Renders the explanation of an address. If the address is a port with a role in the configuration
/// mechanism, its line comes first.
fn render_address_why(
    alloc: Global,
    host: &Host,
    space: Space,
    addr: u64,
    used: &PortUse,
) -> Result<String, AllocError>
    ensures { let s = host.now.state in let space = named_space space in
        let first = use_lines s.latch addr (use_told used.now) in IfOk result (λ t. string_bytes t
        ≡ whole_text (first ++ why_lines space addr (why s.functions space addr))) }
{
    let why = why_address(alloc, host, space, addr)?;
    let mut lines = Vec::new(alloc);
    add_port_use_line_if_any(&mut lines, host.latch().value(), addr, used)?;
    add_address_lines(&mut lines, space, addr, &why)?;
    push_total_and_render(alloc, &mut lines)
}

/// Renders the explanation of a BDF. The line about the port that selects it comes first, if there
/// is one.
fn render_bdf_why(
    alloc: Global,
    host: &mut Host,
    at: Bdf,
    port: u64,
    used: &PortUse,
) -> Result<String, AllocError>
    ensures text { let s = host.old.state in let at = bus_address_of at in
        let first = use_lines s.latch port (use_told used.now) in IfOk result (λ t.
        string_bytes t ≡ whole_text (first ++ number_lines at (why_number s.functions at))) }
    ensures after { host.new ≡ host.old }
{
    let why = why_number(alloc, host, at)?;
    let mut lines = Vec::new(alloc);
    add_port_use_line_if_any(&mut lines, host.latch().value(), port, used)?;
    add_bdf_lines(&mut lines, &at, &why)?;
    push_total_and_render(alloc, &mut lines)
}

/// Explains where an access to a port goes in the current registers. For CONFIG_ADDRESS and
/// CONFIG_DATA, the first line says so. Then explains the BDF in CONFIG_ADDRESS, if the access goes
/// to a configuration register, and otherwise the port as an I/O address.
fn render_port_why(alloc: Global, host: &mut Host, port: u64) -> Result<String, AllocError>
    ensures text { IfOk result (λ t. string_bytes t ≡ why_port_text host.old.state port) }
    ensures after { host.new ≡ host.old }
{
    let used = port_use(host.latch(), port);
    match used {
        PortUse::ShowsData { at, .. } => render_bdf_why(alloc, host, at, port, &used),
        PortUse::HoldsLatch | PortUse::HidesData | PortUse::LikeOthers => {
            render_address_why(alloc, host, Space::Io, port, &used)
        }
    }
}

/// Explains where an access by firmware goes in the current registers. For an address, the text has
/// a line for the answer, one for each bridge that forwards the address, one for each other BAR
/// that contains it with everything that keeps it from answering, and one with the number of BARs
/// in their reset state. For a BDF, it has a line for the function reached, one for each bridge that
/// claims the cycle, one for what is missing, and one for each function that has this BDF but isn't
/// reached by it. A last line counts the others. The offset into configuration space doesn't
/// matter. Leaves the host unchanged, even if memory is exhausted.
pub fn host_why_text(alloc: Global, host: &mut Host, at: HostAt) -> Result<String, AllocError>
    ensures text { IfOk result (λ t.
        string_bytes t ≡ why_written host.old.state (host_target_of at)) }
    ensures after { host.new ≡ host.old }
{
    let used = PortUse::LikeOthers;
    match at {
        HostAt::Config { bdf, off: _ } => render_bdf_why(alloc, host, bdf, 0, &used),
        HostAt::Io { port } => render_port_why(alloc, host, port),
        HostAt::Mem { addr } => render_address_why(alloc, host, Space::Mem, addr, &used),
    }
}
