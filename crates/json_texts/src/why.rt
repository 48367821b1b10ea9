//! Explains an address, a port or a BDF as JSON.
ghost use Rattle.std.specs.{Prelude.{◌≡◌, [], IfOk, map, option_map, unwrap_or, false, string_bytes}, Option.option_map_or};
ghost use Rattle.serde_json.specs.{Data.null, View.view, Written.has_float};
ghost use Rattle.bars.specs.Kinds.{named_space};
ghost use Rattle.paths.specs.BusAddresses.{bus_address_of};
ghost use Rattle.accesses.specs.Accesses.{host_target_of};
ghost use Rattle.model_lines.specs.{Why.why, Ways.why_number, WhyPorts.port_use};
ghost use Rattle.findings.specs.WhyTold.{name_told, window_told, windows_told, cause_told, region_told, forwarder_told, missing_told, use_told};
ghost use Rattle.model_board.specs.Paths as board;
ghost use Rattle.model_lines.specs.Why as model;
ghost use Rattle.json_texts.specs.{AuditValue.path_value, WhyValue.{name_text, window_value, cause_value, told_value, forwarder_value, claim_value, address_explanation_value, bridge_path_or_null, missing_value, bdf_explanation_value, port_use_or_null, explanation_value, explanation_json, port_explanation_json, host_explanation_json}};

use crate::function_parts::window_or_null;
use crate::has_value::{HasValue, values};
use crate::problem_parts::{bdf_value, live_bar_value, path_or_null, path_value};
use crate::problems_object::render_json_line;
use accesses::HostAt;
use bars::Space;
use bridge_forward::Claim;
use findings::{
    BlockReason, Cause, Forwarder, Missing, NamedWindow, PortUse, UnansweredRegion, WindowName,
    port_use, why_address, why_number,
};
use host_bridge::{Bdf, Host};
use paths::Path;
use serde_json::{Value, json};
use std::alloc::{AllocError, Global};

impl HasValue for Path {
    ghost Told = { board.Path };

    ghost told = { λ p. p };

    ghost shown = { path_value };

    fn value(&self, alloc: Global) -> Result<Value, AllocError> {
        path_value(alloc, self)
    }
}

/// Returns the name of a window's address space.
fn window_name_text(name: WindowName) -> &'static str
    ensures { result.now ≡ name_text (name_told name) }
{
    match name {
        WindowName::Io => "io",
        WindowName::Memory => "mem",
        WindowName::Prefetchable => "prefetchable",
    }
}

impl HasValue for NamedWindow {
    ghost Told = { model.NamedWindow };

    ghost told = { window_told };

    ghost shown = { window_value };

    fn value(&self, alloc: Global) -> Result<Value, AllocError> {
        let range = window_or_null(alloc, self.window)?;
        json!(in alloc; {"range": range, "space": window_name_text(self.name)})
    }
}

/// Returns a bridge's windows for a space as JSON.
fn window_values(
    alloc: Global,
    one: &Option<NamedWindow>,
    other: &Option<NamedWindow>,
) -> Result<Vec<Value>, AllocError>
    ensures { IfOk result (λ v.
        map view v.items ≡ map window_value (windows_told one.now other.now)) }
{
    let mut windows = Vec::new(alloc);
    if let Some(window) = one {
        windows.push(window.value(alloc)?)?;
    }
    if let Some(window) = other {
        windows.push(window.value(alloc)?)?;
    }
    Ok(windows)
}

impl HasValue for Cause {
    ghost Told = { model.Cause };

    ghost told = { cause_told };

    ghost shown = { cause_value };

    fn value(&self, alloc: Global) -> Result<Value, AllocError> {
        match self {
            Cause::ClosedBy { command } => {
                json!(in alloc; {"command": *command, "type": "closed"})
            }
            Cause::StoppedAt { bridge, hindrance } => {
                let bridge = path_value(alloc, bridge)?;
                match hindrance {
                    BlockReason::Closes { command } => json!(in alloc; {
                        "bridge": bridge,
                        "command": *command,
                        "type": "bridge closed"
                    }),
                    BlockReason::Misses { one, other } => json!(in alloc; {
                        "bridge": bridge,
                        "type": "outside windows",
                        "windows": window_values(alloc, one, other)?
                    }),
                }
            }
        }
    }
}

impl HasValue for UnansweredRegion {
    ghost Told = { model.UnansweredRegion };

    ghost told = { region_told };

    ghost shown = { told_value };

    fn value(&self, alloc: Global) -> Result<Value, AllocError> {
        let causes = values(alloc, &self.causes)?;
        json!(in alloc; {"causes": causes, "region": live_bar_value(alloc, &self.region)?})
    }
}

impl HasValue for Forwarder {
    ghost Told = { model.Forwarder };

    ghost told = { forwarder_told };

    ghost shown = { forwarder_value };

    fn value(&self, alloc: Global) -> Result<Value, AllocError> {
        json!(in alloc; {"bus": self.bus, "path": path_value(alloc, &self.path)?})
    }
}

/// Returns, as JSON, the BAR that answers, or `null` if none does.
fn claim_or_null(alloc: Global, answer: &Option<Claim>) -> Result<Value, AllocError>
    ensures { IfOk result (λ v. view v ≡ option_map_or claim_value answer.now null) }
{
    let Some(claim) = answer else {
        return Ok(Value::Null);
    };
    let path = path_value(alloc, &claim.path)?;
    json!(in alloc; {"bar": claim.region, "offset": claim.offset, "path": path})
}

/// Explains an address as JSON.
fn address_explanation_value(
    alloc: Global,
    host: &Host,
    space: Space,
    addr: u64,
) -> Result<Value, AllocError>
    ensures { let fs = host.now.state.functions in
        IfOk result (λ v. view v ≡ address_explanation_value (why fs (named_space space) addr)) }
{
    let why = why_address(alloc, host, space, addr)?;
    let answer = claim_or_null(alloc, &why.answer)?;
    let forwards = values(alloc, &why.forwarders)?;
    let regions = values(alloc, &why.told)?;
    json!(in alloc; {
        "answer": answer,
        "at_reset": why.at_reset,
        "forwards": forwards,
        "regions": regions
    })
}

/// Returns, as JSON, the path of the bridge above a bus, or `null` for bus 0.
fn bridge_path_or_null(alloc: Global, behind: &Option<Path>) -> Result<Value, AllocError>
    ensures { IfOk result (λ v. view v ≡ bridge_path_or_null (unwrap_or behind.now [])) }
{
    let Some(path) = behind else {
        return Ok(Value::Null);
    };
    // A path has at least one part.
    prove!(!path.parts().is_empty());
    path_value(alloc, path)
}

/// Returns, as JSON, what is missing at the end of a configuration cycle, or `null` if nothing is.
fn missing_or_null(alloc: Global, missing: &Option<Missing>) -> Result<Value, AllocError>
    ensures { IfOk result (λ v.
        view v ≡ option_map_or missing_value (option_map missing_told missing.now) null) }
{
    match missing {
        Some(Missing::NoBridge { behind, bus }) => {
            let behind = bridge_path_or_null(alloc, behind)?;
            json!(in alloc; {"behind": behind, "bus": *bus})
        }
        Some(
            Missing::NoFunction {
                behind,
                device,
                function,
            },
        ) => {
            let behind = bridge_path_or_null(alloc, behind)?;
            json!(in alloc; {"behind": behind, "device": *device, "function": *function})
        }
        None => Ok(Value::Null),
    }
}

/// Explains a BDF as JSON.
fn bdf_explanation_value(alloc: Global, host: &mut Host, at: Bdf) -> Result<Value, AllocError>
    ensures value { let fs = host.old.state.functions in
        IfOk result (λ v. view v ≡ bdf_explanation_value (why_number fs (bus_address_of at))) }
    ensures kept { host.new ≡ host.old }
{
    let why = why_number(alloc, host, at)?;
    let missing = missing_or_null(alloc, &why.missing)?;
    let not_found = values(alloc, &why.not_found)?;
    let reached = path_or_null(alloc, &why.reached)?;
    let takers = values(alloc, &why.bridges)?;
    json!(in alloc; {
        "missing": missing,
        "not_found": not_found,
        "reached": reached,
        "takers": takers
    })
}

/// Returns, as JSON, the port's role in the configuration mechanism, or `null` for an ordinary
/// port.
fn port_use_or_null(alloc: Global, used: PortUse) -> Result<Value, AllocError>
    ensures { IfOk result (λ v. view v ≡ port_use_or_null (use_told used)) }
{
    match used {
        PortUse::HoldsLatch => json!(in alloc; {"type": "held"}),
        PortUse::ShowsData { at, offset } => {
            let number = bdf_value(alloc, at)?;
            json!(in alloc; {"number": number, "offset": offset, "type": "selected"})
        }
        PortUse::HidesData => json!(in alloc; {"type": "not enabled"}),
        PortUse::LikeOthers => Ok(Value::Null),
    }
}

/// Combines an explanation with the port's role in the configuration mechanism in one JSON object.
fn explanation_value(alloc: Global, used: PortUse, found: Value) -> Result<Value, AllocError>
    ensures { IfOk result (λ v. view v ≡ explanation_value (use_told used) (view found)) }
{
    let latch = port_use_or_null(alloc, used)?;
    json!(in alloc; {"found": found, "latch": latch})
}

/// Renders an explanation and the port's role in the configuration mechanism as a JSON object on
/// one line. Fails only if memory is exhausted.
#[tactic(auto, using(crate::proofs::NoFloatsInWhy::none_in_why))]
pub fn explanation_json(alloc: Global, used: PortUse, found: Value) -> Result<String, AllocError>
    requires { has_float (view found) ≡ false }
    ensures { IfOk result (λ t. string_bytes t ≡ explanation_json (use_told used) (view found)) }
{
    let value = explanation_value(alloc, used, found)?;
    render_json_line(alloc, &value)
}

/// Renders the explanation of a port.
fn port_explanation_json(alloc: Global, host: &mut Host, port: u64) -> Result<String, AllocError>
    ensures text { let s = host.old.state in
        IfOk result (λ t.
        string_bytes t ≡ port_explanation_json s port (port_use s.latch port)) }
    ensures kept { host.new ≡ host.old }
{
    let used = port_use(host.latch(), port);
    match used {
        PortUse::ShowsData { at, .. } => explanation_json(
            alloc,
            used,
            bdf_explanation_value(alloc, host, at)?,
        ),
        PortUse::HoldsLatch | PortUse::HidesData | PortUse::LikeOthers => {
            explanation_json(
                alloc,
                used,
                address_explanation_value(alloc, host, Space::Io, port)?,
            )
        }
    }
}

/// Explains an address, a port or a BDF in the current registers, as a JSON object on one line. The
/// offset into configuration space doesn't matter. Leaves the host unchanged, even if memory is
/// exhausted.
pub fn host_explanation_json(
    alloc: Global,
    host: &mut Host,
    at: HostAt,
) -> Result<String, AllocError>
    ensures text { IfOk result (λ t.
        string_bytes t ≡ host_explanation_json host.old.state (host_target_of at)) }
    ensures kept { host.new ≡ host.old }
{
    let used = PortUse::LikeOthers;
    match at {
        HostAt::Config { bdf, off: _ } => explanation_json(
            alloc,
            used,
            bdf_explanation_value(alloc, host, bdf)?,
        ),
        HostAt::Io { port } => port_explanation_json(alloc, host, port),
        HostAt::Mem { addr } => {
            explanation_json(
                alloc,
                used,
                address_explanation_value(alloc, host, Space::Mem, addr)?,
            )
        }
    }
}
