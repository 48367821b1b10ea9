//! Conversion of values and lists to JSON.
ghost use Rattle.std.specs.Prelude.{◌≡◌, IfOk, map};
ghost use Rattle.serde_json.specs.{Data.Data, View.view};

use serde_json::Value;
use std::alloc::{AllocError, Global};

/// A type whose values can be converted to JSON.
pub trait HasValue {
    /// The type that stands for `Self` in the model.
    ghost Told: { Type 0 };

    /// The model's value for a value of `Self`.
    ghost told: { Self → Told };

    /// The JSON for a value of the model.
    ghost shown: { Told → Data };

    /// Converts the value to JSON. Fails only if memory is exhausted.
    fn value(&self, alloc: Global) -> Result<Value, AllocError>
        ensures { IfOk result (λ v. view v ≡ shown (told self.now)) };
}

/// Converts the items of a list to JSON, in the same order.
pub fn values<T: HasValue>(alloc: Global, all: &[T]) -> Result<Vec<Value>, AllocError>
    ensures { IfOk result (λ v. map view v.items ≡ map T.shown (map T.told all.now)) }
{
    let mut values = Vec::new(alloc);
    for one in all {
        values.push(one.value(alloc)?)?;
    }
    Ok(values)
}
