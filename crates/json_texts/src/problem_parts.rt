//! Paths, spaces, BARs, responders and BDFs as JSON.
ghost use Rattle.std.specs.Prelude.{◌≡◌, IfOk};
ghost use Rattle.serde_json.specs.View.{view};
ghost use Rattle.bars.specs.Kinds.{named_space};
ghost use Rattle.paths.specs.BusAddresses.{bus_address_of};
ghost use Rattle.json_texts.specs.AuditValue.{path_value, space_text, bar_index_or_null, path_or_null, live_bar_value, agent_value, bridge_finding_value, bdf_value};

use bars::Space;
use findings::{Agent, LiveBar};
use paths::{Bdf, Path};
use report::ShownPath;
use serde_json::{Value, json};
use std::alloc::{AllocError, Global};

/// Returns a path as JSON.
pub(crate) fn path_value(alloc: Global, path: &Path) -> Result<Value, AllocError>
    ensures { IfOk result (λ v. view v ≡ path_value path.now) }
{
    let text = ShownPath(path).to_string(alloc)?;
    Ok(Value::from(text))
}

/// Returns, as JSON, the path of the function that was reached, or `null` if none was.
pub(crate) fn path_or_null(alloc: Global, path: &Option<Path>) -> Result<Value, AllocError>
    ensures { IfOk result (λ v. view v ≡ path_or_null path.now) }
{
    match path {
        Some(path) => path_value(alloc, path),
        None => Ok(Value::Null),
    }
}

/// Returns the name of a space.
pub(crate) fn space_text(space: Space) -> &'static str
    ensures { result.now ≡ space_text (named_space space) }
{
    match space {
        Space::Io => "io",
        Space::Mem => "mem",
    }
}

/// Returns the BAR index of a responder as JSON, or `null` for a bridge.
fn bar_index_or_null(register: Option<u8>) -> Value
    ensures { view result ≡ bar_index_or_null register }
{
    match register {
        Some(index) => Value::from(index),
        None => Value::Null,
    }
}

/// Returns a BAR as JSON, with the path of its endpoint.
pub(crate) fn live_bar_value(alloc: Global, region: &LiveBar) -> Result<Value, AllocError>
    ensures { IfOk result (λ v. view v ≡ live_bar_value region.now) }
{
    let path = path_value(alloc, &region.path)?;
    let bar = region.region.index;
    let base = region.region.base;
    let size = region.region.size;
    let space = space_text(region.region.kind.space());
    json!(in alloc; {"bar": bar, "base": base, "path": path, "size": size, "space": space})
}

/// Returns a responder as JSON: its path and the index of its BAR.
pub(crate) fn agent_value(alloc: Global, agent: &Agent) -> Result<Value, AllocError>
    ensures { IfOk result (λ v. view v ≡ agent_value agent.now) }
{
    let path = path_value(alloc, &agent.path)?;
    let bar = bar_index_or_null(agent.register);
    json!(in alloc; {"bar": bar, "path": path})
}

/// Returns a finding of the given type, which blames a bridge for an address of a BAR, as JSON.
pub(crate) fn bridge_finding_value(
    alloc: Global,
    region: &LiveBar,
    bridge: &Path,
    address: u64,
    kind: &str,
) -> Result<Value, AllocError>
    ensures { IfOk result (λ v.
        view v ≡ bridge_finding_value region.now bridge.now address kind.now) }
{
    let region = live_bar_value(alloc, region)?;
    let bridge = path_value(alloc, bridge)?;
    json!(in alloc; {"address": address, "bridge": bridge, "region": region, "type": kind})
}

/// Returns a BDF as JSON.
pub fn bdf_value(alloc: Global, at: Bdf) -> Result<Value, AllocError>
    ensures { IfOk result (λ v. view v ≡ bdf_value (bus_address_of at)) }
{
    let Bdf {
        bus,
        device,
        function,
        ..
    } = at;
    json!(in alloc; {"bus": bus, "device": device, "function": function})
}
