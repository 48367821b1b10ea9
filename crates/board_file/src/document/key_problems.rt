//! Checks of the keys in a board file, and of the types of their values.
ghost use Rattle.std.specs.{Prelude.{◌≡◌, ◌++◌, IfOk, OnOk, flat_map, map, option_map, true}, Option.option_map_or};
ghost use Rattle.toml.specs.View.{view, table_view};
ghost use Rattle.board_file.specs.{KeyProblems.{in_endpoint, with_endpoint, tables_of, unless_kept_at, of_field, of_member, keys_in, of_table, of_entry, key_problems}, Problems.{found_of, Adds}, Schema.{fields, field_of, has_form}};

use crate::document::keys::fields;
use crate::document::reading::value_at;
use crate::document::schema::{Field, TableKind, ValueType, form_at, has_form};
use crate::document::tables::{table_at, table_kind_of_entry};
use crate::entries::{EndpointEntry, FileEntries};
use crate::entry::{EndpointPart, Entry};
use crate::fault::BoardFault;
use crate::finding::Violation;
use crate::rule::Rule;
use crate::source::Source;
use std::alloc::{AllocError, Global};
use toml::Table;
use toml::value::Value;

/// Appends the tables of one kind inside an endpoint.
fn push_part_entries(
    tables: &mut Vec<Entry>,
    index: usize,
    part: EndpointPart,
    count: usize,
) -> Result<(), AllocError>
    ensures { OnOk result (tables.new.items ≡ tables.old.items ++ in_endpoint index part count) }
{
    'tables: for number in 0..count {
        tables.push(Entry::Part(part, index, number))?;
    }
    Ok(())
}

/// Appends an endpoint and the tables inside it.
fn push_endpoint_and_parts(
    tables: &mut Vec<Entry>,
    index: usize,
    endpoint: &EndpointEntry<'_>,
) -> Result<(), AllocError>
    ensures { OnOk result (tables.new.items
        ≡ tables.old.items ++ with_endpoint (index, endpoint.now)) }
{
    tables.push(Entry::Endpoint(index))?;
    'parts: for part in EndpointPart::all() {
        push_part_entries(tables, index, *part, endpoint.count(*part))?;
    }
    Ok(())
}

/// Returns all tables of a file. Each endpoint is followed by the tables inside it.
fn list_table_entries(alloc: Global, file: &FileEntries<'_>) -> Result<Vec<Entry>, AllocError>
    ensures { IfOk result (λ v. v.items ≡ tables_of file.now) }
{
    let mut tables = Vec::new(alloc);
    tables.push(Entry::File)?;
    tables.push(Entry::Host)?;
    'endpoints: for (index, endpoint) in file.endpoints.iter().enumerate() {
        push_endpoint_and_parts(&mut tables, index, endpoint)?;
    }
    'bridges: for index in 0..file.bridges.len() {
        tables.push(Entry::Bridge(index))?;
    }
    'guests: for index in 0..file.guests.len() {
        tables.push(Entry::Guest(index))?;
    }
    Ok(tables)
}

/// Appends a problem at a key, unless the rule is kept.
fn push_unless_kept<'a>(
    problems: &mut Vec<Violation<'a>>,
    entry: Entry,
    key: &'a str,
    rule: Rule,
    kept: bool,
) -> Result<(), AllocError>
    ensures { OnOk result (Adds (unless_kept_at entry key.now rule kept) problems.old.items
        problems.new.items) }
{
    if kept {
        return Ok(());
    }
    problems.push(Violation { entry, rule, key })?;
    Ok(())
}

/// Returns whether a value has the required form. A missing value passes.
fn is_none_or_has_form(form: ValueType, value: Option<&Value>) -> bool
    ensures { result
        ≡ option_map_or (has_form form) (option_map (λ v. view v.now) value.entry) true }
{
    match value {
        Some(value) => has_form(form, value),
        None => true,
    }
}

/// Appends the problems of one defined key of a table.
fn push_field_problems(
    problems: &mut Vec<Violation<'_>>,
    entry: Entry,
    table: &Table,
    field: &Field,
) -> Result<(), AllocError>
    ensures { OnOk result (Adds (of_field entry (table_view table.now) (field_of field.now))
        problems.old.items problems.new.items) }
{
    let value = value_at(table, field.key);
    let is_there = !field.needed || value.is_some();
    push_unless_kept(problems, entry, field.key, Rule::Needed, is_there)?;
    push_unless_kept(
        problems,
        entry,
        field.key,
        Rule::Form,
        is_none_or_has_form(field.form, value),
    )
}

/// Appends the problems of all defined keys of a table.
fn push_all_field_problems(
    problems: &mut Vec<Violation<'_>>,
    entry: Entry,
    level: TableKind,
    table: &Table,
) -> Result<(), AllocError>
    ensures { OnOk result (Adds (flat_map (of_field entry (table_view table.now)) (fields level))
        problems.old.items problems.new.items) }
{
    'fields: for field in fields(level) {
        push_field_problems(problems, entry, table, field)?;
    }
    Ok(())
}

/// Appends a problem for each key of a table that isn't defined for its level.
fn push_unknown_key_problems<'a>(
    problems: &mut Vec<Violation<'a>>,
    entry: Entry,
    level: TableKind,
    table: &'a Table,
) -> Result<(), AllocError>
    ensures { OnOk result (Adds (flat_map (of_member entry level) (keys_in (table_view table.now)))
        problems.old.items problems.new.items) }
{
    'members: for (key, _) in table.iter() {
        let key = key.as_str();
        let is_known = form_at(level, key).is_some();
        push_unless_kept(problems, entry, key, Rule::Known, is_known)?;
    }
    Ok(())
}

/// Appends the problems of a table's keys.
fn push_table_key_problems<'a>(
    problems: &mut Vec<Violation<'a>>,
    fault: BoardFault,
    entry: Entry,
    level: TableKind,
    table: &'a Table,
) -> Result<(), AllocError>
    ensures { OnOk result (Adds (of_table fault entry level (table_view table.now))
        problems.old.items problems.new.items) }
{
    match fault {
        BoardFault::Key => push_all_field_problems(problems, entry, level, table),
        BoardFault::UnknownKey => push_unknown_key_problems(problems, entry, level, table),
        _ => Ok(()),
    }
}

/// Appends the problems of an entry's keys. An entry without a table has none.
fn push_entry_key_problems<'a>(
    problems: &mut Vec<Violation<'a>>,
    fault: BoardFault,
    document: &'a Table,
    entry: Entry,
) -> Result<(), AllocError>
    ensures { OnOk result (Adds (of_entry fault (table_view document.now) entry)
        problems.old.items problems.new.items) }
{
    match (table_kind_of_entry(entry), table_at(document, entry)) {
        (Some(level), Some(table)) => push_table_key_problems(problems, fault, entry, level, table),
        _ => Ok(()),
    }
}

/// Returns the problems of all keys with this fault.
pub(crate) fn key_problems<'a>(
    alloc: Global,
    source: &Source<'a>,
    fault: BoardFault,
) -> Result<Vec<Violation<'a>>, AllocError>
    ensures { IfOk result (λ v.
        map found_of v.items ≡ key_problems (table_view source.now.document.now) fault) }
{
    let tables = list_table_entries(alloc, &source.file)?;
    let mut problems = Vec::new(alloc);
    'tables: for entry in &tables {
        push_entry_key_problems(&mut problems, fault, source.document, *entry)?;
    }
    Ok(problems)
}
