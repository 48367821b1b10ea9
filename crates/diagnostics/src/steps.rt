//! Key paths through a TOML document.
ghost use Rattle.std.specs.Prelude.{◌≡◌, ◌<◌, length, option_map};
ghost use Rattle.toml.specs.{View.{view, table_view}, Data.{table, get_member}};
ghost use Rattle.diagnostics.specs.Ways.{child, value_at};

use toml::Table;
use toml::value::Value;

/// A step from a value to one of its elements.
#[derive(Clone, Copy)]
pub enum Step<'a> {
    /// The value at a key of a table.
    Key(&'a str),
    /// The element of an array, by its index from 0.
    Index(usize),
}

/// Returns the element of a value that the step selects, if there is one.
fn child<'v>(step: Step<'_>, value: &'v Value) -> Option<&'v Value>
    ensures { option_map (λ v. view v.now) result ≡ child step.entry (view value.now) }
{
    match step {
        Step::Key(key) => value.get(key),
        Step::Index(index) => value.get(index),
    }
}

/// Follows a key path from a value. Returns `None` if a step selects nothing.
fn follow_key_path<'v>(way: &[Step<'_>], value: &'v Value) -> Option<&'v Value>
    ensures { option_map (λ v. view v.now) result ≡ value_at way.now (view value.now) }
{
    match way {
        [] => Some(value),
        [step, rest @ ..] => match child(*step, value) {
            Some(inner) => follow_key_path(rest, inner),
            None => None,
        },
    }
}

/// Returns the value at a key of a table, if there is one.
pub(crate) fn member<'v>(key: &str, table: &'v Table) -> Option<&'v Value>
    ensures { option_map (λ v. view v.now) result ≡ get_member key.now (table_view table.now) }
{
    table.get(key)
}

/// Follows a key path of at least one step from the root of a document.
pub(crate) fn value_at<'v>(way: &[Step<'_>], document: &'v Table) -> Option<&'v Value>
    requires { 0 < length way.now }
    ensures { option_map (λ v. view v.now) result
        ≡ value_at way.now (table (table_view document.now)) }
{
    match way {
        [Step::Key(key), rest @ ..] => match member(*key, document) {
            Some(inner) => follow_key_path(rest, inner),
            None => None,
        },
        _ => None,
    }
}
