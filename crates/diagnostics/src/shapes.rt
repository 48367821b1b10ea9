//! Compares the shapes of documents.
ghost use Rattle.std.specs.Prelude.{◌≡◌};
ghost use Rattle.toml.specs.View.{view, array_view, table_view};
ghost use Rattle.diagnostics.specs.Shapes.{have_same_shape, items_have_same_shape, members_have_same_shape};

use toml::value::{Array, Table, Value};

/// Returns whether two tables have the same keys, with values of the same shape at each key.
#[cycle(compare)]
pub(crate) fn members_have_same_shape(table: &Table, other: &Table) -> bool
    ensures { result ≡ members_have_same_shape (table_view table.now) (table_view other.now) }
{
    let mut others = other.iter();
    'members: for (key, value) in table.iter() {
        match others.next() {
            Some((other_key, other_value)) => {
                if key.as_str() != other_key.as_str() {
                    return false;
                }
                if !have_same_shape(value, other_value) {
                    return false;
                }
            }
            None => return false,
        }
    }
    others.next().is_none()
}

#[cycle(compare)]
fn items_have_same_shape(array: &Array, other: &Array) -> bool
    ensures { result ≡ items_have_same_shape (array_view array.now) (array_view other.now) }
{
    if array.len() != other.len() {
        return false;
    }
    'items: for i in 0..array.len() {
        if !have_same_shape(&array[i], &other[i]) {
            return false;
        }
    }
    true
}

#[cycle(compare)]
fn have_same_shape(value: &Value, other: &Value) -> bool
    ensures { result ≡ have_same_shape (view value.now) (view other.now) }
{
    match (value, other) {
        (Value::Array(items), Value::Array(other)) => items_have_same_shape(items, other),
        (Value::Table(table), Value::Table(other)) => members_have_same_shape(table, other),
        (Value::Array(_) | Value::Table(_), _) => false,
        (_, Value::Array(_) | Value::Table(_)) => false,
        _ => true,
    }
}
