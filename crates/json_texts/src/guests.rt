//! Guests as JSON.
ghost use Rattle.std.specs.Prelude.{◌≡◌, IfOk, map};
ghost use Rattle.model_guests.specs.World.{Guest};
ghost use Rattle.serde_json.specs.View.{view};
ghost use Rattle.json_texts.specs.ReportValue.{slot_value, slot_values, guest_value};

use crate::has_value::HasValue;
use crate::problem_parts::path_value;
use accesses::GuestDecl;
use paths::Path;
use serde_json::{Value, json};
use std::alloc::{AllocError, Global};

/// Returns a slot as JSON, with the path of its endpoint.
fn slot_value(alloc: Global, slot: usize, path: &Path) -> Result<Value, AllocError>
    ensures { IfOk result (λ v. view v ≡ slot_value slot path.now) }
{
    let path = path_value(alloc, path)?;
    json!(in alloc; {"slot": slot, "path": path})
}

/// Returns a guest's slots as JSON, starting with slot 0.
fn slot_values(alloc: Global, paths: &[Path]) -> Result<Vec<Value>, AllocError>
    ensures { IfOk result (λ v. map view v.items ≡ slot_values 0 paths.now) }
{
    let mut values = Vec::new(alloc);
    for (slot, path) in paths.iter().enumerate() {
        values.push(slot_value(alloc, slot, path)?)?;
    }
    Ok(values)
}

impl HasValue for GuestDecl {
    ghost Told = { Guest };

    ghost told = { λ g. g };

    ghost shown = { guest_value };

    fn value(&self, alloc: Global) -> Result<Value, AllocError> {
        let name = self.name.as_str();
        let slots = slot_values(alloc, self.slots.as_slice())?;
        json!(in alloc; {"name": name, "slots": slots})
    }
}
