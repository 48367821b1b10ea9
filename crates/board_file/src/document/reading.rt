//! Conversion of a TOML document to entries.
ghost use Rattle.std.specs.{Prelude.{◌≡◌, map, unwrap_or, option_and_then, option_map, IfOk, codes, pos}, List.filter_map};
ghost use Rattle.toml.specs.{Data.{Members, get_member, as_str, as_table, as_array}, View.{view, array_view, table_view}};
ghost use Rattle.board_file.specs.{Schema.list_of, Values.{number_or, number, boolean_or_true, text_at, text, values, tables, table_at, patterns}, Entries.{as_integer_or_zero, bounds_or_zeros, range, file}};

use crate::entries::{Bounds, FileEntries, PatternTexts};
use crate::path::text::PathText;
use std::alloc::{AllocError, Global};
use toml::value::{Array, Table, Value};

/// Returns the value of a key.
pub fn value_at<'a>(table: &'a Table, key: &str) -> Option<&'a Value>
    ensures { option_map (λ v. view v.now) result ≡ get_member key.now (table_view table.now) }
{
    table.get(key)
}

/// Returns the integer value of a key. A missing or mistyped value reads as `default`.
fn integer_or(table: &Table, key: &str, default: i64) -> i64
    ensures { result ≡ number_or default key.now (table_view table.now) }
{
    match value_at(table, key) {
        Some(value) => value.as_integer().unwrap_or(default),
        None => default,
    }
}

/// Returns the integer value of a key. A missing or mistyped value reads as 0.
pub(crate) fn integer_or_zero(table: &Table, key: &str) -> i64
    ensures { result ≡ number key.now (table_view table.now) }
{
    integer_or(table, key, 0)
}

/// Returns the Boolean value of a key. A missing or mistyped value reads as true.
pub(crate) fn boolean_or_true(table: &Table, key: &str) -> bool
    ensures { result ≡ boolean_or_true key.now (table_view table.now) }
{
    match value_at(table, key) {
        Some(value) => value.as_bool().unwrap_or(true),
        None => true,
    }
}

/// Returns the string value of a key.
fn text_at<'a>(table: &'a Table, key: &str) -> Option<&'a str>
    ensures { option_map (λ s. s.now) result ≡ text_at key.now (table_view table.now) }
{
    value_at(table, key)?.as_str()
}

/// Returns the string value of a key. A missing or mistyped value reads as an empty string.
pub(crate) fn text_or_empty<'a>(table: &'a Table, key: &str) -> &'a str
    ensures { result.now ≡ text key.now (table_view table.now) }
{
    text_at(table, key).unwrap_or("")
}

/// Returns the array value of a key.
fn array_at<'a>(table: &'a Table, key: &str) -> Option<&'a Array>
    ensures { option_map (λ a. array_view a.now) result
        ≡ option_and_then as_array (get_member key.now (table_view table.now)) }
{
    value_at(table, key)?.as_array()
}

/// An entry that can be read from a table.
pub(crate) trait FromTable<'a>: Sized + Drop {
    ghost said: { Members → Self };

    /// Reads an entry from its table.
    fn from_table(alloc: Global, table: &'a Table) -> Result<Self, AllocError>
        ensures { IfOk result (λ e. e ≡ said (table_view table.now)) };
}

/// Reads an entry from each table of an array. Skips items that aren't tables.
fn entries_skipping_non_tables<'a, E: FromTable<'a>>(
    alloc: Global,
    items: &'a Array,
) -> Result<Vec<E>, AllocError>
    ensures { IfOk result (λ v.
        v.items ≡ map E.said (filter_map as_table (list_of (array_view items.now)))) }
{
    let mut entries = Vec::with_capacity(alloc, items.len())?;
    'items: for item in items {
        if let Some(table) = item.as_table() {
            entries.push(E::from_table(alloc, table)?)?;
        }
    }
    Ok(entries)
}

/// Reads an entry from each table of the array at a key.
pub(crate) fn entries_at_or_empty<'a, E: FromTable<'a>>(
    alloc: Global,
    table: &'a Table,
    key: &str,
) -> Result<Vec<E>, AllocError>
    ensures { IfOk result (λ v. v.items ≡ map E.said (tables key.now (table_view table.now))) }
{
    match array_at(table, key) {
        Some(items) => entries_skipping_non_tables(alloc, items),
        None => Ok(Vec::new(alloc)),
    }
}

/// Parses each string of an array as a path. Skips items that aren't strings.
fn paths_skipping_non_strings(alloc: Global, items: &Array) -> Result<Vec<PathText<'_>>, AllocError>
    ensures { IfOk result (λ v. v.items ≡ filter_map as_str (list_of (array_view items.now))) }
{
    let mut texts = Vec::new(alloc);
    'items: for item in items {
        if let Some(text) = item.as_str() {
            texts.push(PathText::new(text))?;
        }
    }
    Ok(texts)
}

pub(crate) fn read_register_patterns(table: &Table) -> PatternTexts<'_>
    ensures { result ≡ patterns (table_view table.now) }
{
    PatternTexts {
        reset: text_at(table, "reset"),
        rw: text_at(table, "rw"),
        w1c: text_at(table, "w1c"),
    }
}

/// Parses the slots of a `guest` table.
pub(crate) fn slots_or_empty(alloc: Global, table: &Table) -> Result<Vec<PathText<'_>>, AllocError>
    ensures { IfOk result (λ v.
        v.items ≡ filter_map as_str (values (codes "slots") (table_view table.now))) }
{
    match array_at(table, "slots") {
        Some(items) => paths_skipping_non_strings(alloc, items),
        None => Ok(Vec::new(alloc)),
    }
}

fn as_integer_or_zero(value: &Value) -> i64
    ensures { result ≡ as_integer_or_zero (view value.now) }
{
    value.as_integer().unwrap_or(0)
}

fn bounds_or_zeros(items: &Array) -> Bounds
    ensures { result ≡ bounds_or_zeros (list_of (array_view items.now)) }
{
    match items.as_slice() {
        [first, last] => Bounds {
            first: as_integer_or_zero(first),
            last: as_integer_or_zero(last),
        },
        _ => Bounds { first: 0, last: 0 },
    }
}

/// Returns the two integers of the array at a key. Anything else reads as two zeros.
fn bounds_at_or_zeros(table: &Table, key: &str) -> Bounds
    ensures { result ≡ range key.now (table_view table.now) }
{
    match array_at(table, key) {
        Some(items) => bounds_or_zeros(items),
        None => Bounds { first: 0, last: 0 },
    }
}

fn table_at<'a>(table: &'a Table, key: &str) -> Option<&'a Table>
    ensures { option_map (λ t. table_view t.now) result
        ≡ option_and_then as_table (get_member key.now (table_view table.now)) }
{
    value_at(table, key)?.as_table()
}

fn host_bounds_or_zeros(table: &Table, key: &str) -> Bounds
    ensures { result ≡ range key.now (table_at (codes "host") (table_view table.now)) }
{
    match table_at(table, "host") {
        Some(host) => bounds_at_or_zeros(host, key),
        None => Bounds { first: 0, last: 0 },
    }
}

fn find_host_pref_or_zeros(table: &Table) -> Option<Bounds>
    ensures { let host = table_at (codes "host") (table_view table.now) in result
        ≡ option_map (λ _. range (codes "pref") host) (get_member (codes "pref") host) }
{
    match table_at(table, "host") {
        Some(host) => match value_at(host, "pref") {
            Some(_) => Some(bounds_at_or_zeros(host, "pref")),
            None => None,
        },
        None => None,
    }
}

fn host_devices_or_16(table: &Table) -> i64
    ensures { result
        ≡ number_or (pos 16) (codes "devices") (table_at (codes "host") (table_view table.now)) }
{
    match table_at(table, "host") {
        Some(host) => integer_or(host, "devices", 16),
        None => 16,
    }
}

/// Reads the entries of a document without checking them. A missing or mistyped value reads as the
/// default of its key, or else as 0, as an empty string or as an empty list. Fails only if memory is
/// exhausted.
pub fn read_entries(alloc: Global, table: &Table) -> Result<FileEntries<'_>, AllocError>
    ensures { IfOk result (λ f. f ≡ file (table_view table.now)) }
{
    Ok(FileEntries {
        io: host_bounds_or_zeros(table, "io"),
        mem: host_bounds_or_zeros(table, "mem"),
        pref: find_host_pref_or_zeros(table),
        devices: host_devices_or_16(table),
        endpoints: entries_at_or_empty(alloc, table, "endpoint")?,
        bridges: entries_at_or_empty(alloc, table, "bridge")?,
        guests: entries_at_or_empty(alloc, table, "guest")?,
    })
}
