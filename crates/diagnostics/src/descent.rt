//! Descends from a value to the first scalar inside it, in the order of the text.
ghost use Rattle.std.specs.Prelude.{OnOk};
ghost use Rattle.diagnostics.specs.Places.{GoesOn};

use crate::marking::parse_mark_value;
use crate::steps::Step;
use std::alloc::AllocError;
use toml::Table;
use toml::value::Value;

/// Returns the smaller of two offsets, or the only one that is given.
fn min_or_only(one: Option<usize>, other: Option<usize>) -> Option<usize> {
    match (one, other) {
        (Some(one), Some(other)) => Some(one.min(other)),
        _ => one.or(other),
    }
}

/// Returns the offset of the first mark inside a value, if there is one.
#[cycle(starts)]
fn find_first_mark_start(marked: &Value) -> Option<usize> {
    match marked {
        Value::Array(items) => first_mark_start_in_items(items.as_slice()),
        Value::Table(table) => first_mark_start_in_table(table),
        scalar => parse_mark_value(scalar),
    }
}

#[cycle(starts)]
fn first_mark_start_in_items(items: &[Value]) -> Option<usize> {
    for item in items {
        let start = find_first_mark_start(item);
        if start.is_some() {
            return start;
        }
    }
    None
}

#[cycle(starts)]
fn first_mark_start_in_table(table: &Table) -> Option<usize> {
    let mut first = None;
    for (_, inner) in table.iter() {
        first = min_or_only(first, find_first_mark_start(inner));
    }
    first
}

/// Appends the steps from a marked value to the first scalar inside it. Appends nothing if there is
/// no scalar.
#[cycle(descent)]
pub(crate) fn push_steps_to_first_scalar<'v>(
    way: &mut Vec<Step<'v>>,
    marked: &'v Value,
) -> Result<(), AllocError>
    ensures { OnOk result (GoesOn way.old.items way.new.items) }
{
    match marked {
        Value::Array(items) => push_steps_to_scalar_in_items(way, items.as_slice()),
        Value::Table(table) => push_steps_to_scalar_in_table(way, table),
        _ => Ok(()),
    }
}

#[cycle(descent)]
fn push_steps_to_scalar_in_items<'v>(
    way: &mut Vec<Step<'v>>,
    items: &'v [Value],
) -> Result<(), AllocError>
    ensures { OnOk result (GoesOn way.old.items way.new.items) }
{
    'items: for (index, inner) in items.iter().enumerate() {
        if find_first_mark_start(inner).is_some() {
            way.push(Step::Index(index))?;
            return push_steps_to_first_scalar(way, inner);
        }
    }
    Ok(())
}

#[cycle(descent)]
fn push_steps_to_scalar_in_table<'v>(
    way: &mut Vec<Step<'v>>,
    table: &'v Table,
) -> Result<(), AllocError>
    ensures { OnOk result (GoesOn way.old.items way.new.items) }
{
    let first = first_mark_start_in_table(table);
    'members: for (key, inner) in table.iter() {
        if first.is_some() && find_first_mark_start(inner) == first {
            way.push(Step::Key(key.as_str()))?;
            return push_steps_to_first_scalar(way, inner);
        }
    }
    Ok(())
}
