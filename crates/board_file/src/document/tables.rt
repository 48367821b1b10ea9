//! Lookup of entries in a document.
ghost use Rattle.std.specs.Prelude.{◌≡◌, codes, option_map, option_and_then};
ghost use Rattle.toml.specs.{Data.{get_member, at, as_table, as_str}, View.{view, table_view}};
ghost use Rattle.board_file.specs.Tables.{nth_table_at, table_at, value_at, owner_entry_or_self, owner_name_key, table_kind_of_entry};

use crate::document::reading::value_at as member;
use crate::document::schema::TableKind;
use crate::entry::Entry;
use toml::Table;
use toml::value::Value;

/// Returns the table at an index of an array.
fn table_of(list: &Value, index: usize) -> Option<&Table>
    ensures { option_map (λ t. table_view t.now) result
        ≡ option_and_then as_table (at index (view list.now)) }
{
    list.get(index)?.as_table()
}

/// Returns the table at an index of the array at a key.
fn nth_table_at<'v>(table: &'v Table, key: &str, index: usize) -> Option<&'v Table>
    ensures { option_map (λ t. table_view t.now) result
        ≡ nth_table_at key.now index (table_view table.now) }
{
    table_of(member(table, key)?, index)
}

/// Returns the table at an index of an array in an `endpoint` table.
fn nth_table_in_endpoint<'v>(
    table: &'v Table,
    endpoint: usize,
    key: &str,
    index: usize,
) -> Option<&'v Table>
    ensures { option_map (λ t. table_view t.now) result
        ≡ option_and_then (nth_table_at key.now index)
        (nth_table_at (codes "endpoint") endpoint (table_view table.now)) }
{
    nth_table_at(nth_table_at(table, "endpoint", endpoint)?, key, index)
}

/// Returns the `host` table.
fn find_host_table(table: &Table) -> Option<&Table>
    ensures { option_map (λ t. table_view t.now) result
        ≡ table_at (table_view table.now) Entry.Host }
{
    member(table, "host")?.as_table()
}

/// Returns the table of an entry. A slot has none.
pub fn table_at(table: &Table, entry: Entry) -> Option<&Table>
    ensures { option_map (λ t. table_view t.now) result ≡ table_at (table_view table.now) entry }
{
    match entry {
        Entry::File => Some(table),
        Entry::Host => find_host_table(table),
        Entry::Endpoint(i) => nth_table_at(table, "endpoint", i),
        Entry::Part(part, i, j) => nth_table_in_endpoint(table, i, part.key(), j),
        Entry::Bridge(i) => nth_table_at(table, "bridge", i),
        Entry::Guest(i) => nth_table_at(table, "guest", i),
        Entry::Slot(_, _) => None,
    }
}

/// Returns the value of a key in a table that may be missing.
fn member_of<'v>(table: Option<&'v Table>, key: &str) -> Option<&'v Value>
    ensures { option_map (λ v. view v.now) result
        ≡ option_and_then (get_member key.now) (option_map (λ t. table_view t.now) table.entry) }
{
    member(table?, key)
}

/// Returns the value of a key of an entry. For a slot, returns the slot itself.
pub fn value_at<'v>(document: &'v Table, entry: Entry, key: &str) -> Option<&'v Value>
    ensures { option_map (λ v. view v.now) result
        ≡ value_at (table_view document.now) entry key.now }
{
    match entry {
        Entry::Slot(i, j) => member_of(table_at(document, Entry::Guest(i)), "slots")?.get(j),
        _ => member_of(table_at(document, entry), key),
    }
}

/// Returns the function or guest that an entry belongs to. Other entries are returned unchanged.
pub fn owner_entry_or_self(entry: Entry) -> Entry
    ensures { result ≡ owner_entry_or_self entry }
{
    match entry {
        Entry::Part(_, i, _) => Entry::Endpoint(i),
        Entry::Slot(i, _) => Entry::Guest(i),
        _ => entry,
    }
}

/// Returns the key that identifies the owner of an entry: `at` for a function, `name` for a guest.
fn owner_name_key(entry: Entry) -> Option<&'static str>
    ensures { option_map (λ k. k.now) result ≡ owner_name_key entry }
{
    match entry {
        Entry::File | Entry::Host => None,
        Entry::Guest(_) | Entry::Slot(_, _) => Some("name"),
        _ => Some("at"),
    }
}

/// Returns the path of the function or the name of the guest that an entry belongs to, as written
/// in the file.
pub fn owner_path_or_name(document: &Table, entry: Entry) -> Option<&str>
    ensures { option_map (λ s. s.now) result
        ≡ option_and_then as_str
        (option_and_then (value_at (table_view document.now) (owner_entry_or_self entry))
        (owner_name_key entry)) }
{
    let key = owner_name_key(entry)?;
    let value = value_at(document, owner_entry_or_self(entry), key)?;
    value.as_str()
}

/// Returns the kind of table that an entry has to be, or `None` for a slot.
pub fn table_kind_of_entry(entry: Entry) -> Option<TableKind>
    ensures { result ≡ table_kind_of_entry entry }
{
    match entry {
        Entry::File => Some(TableKind::Top),
        Entry::Host => Some(TableKind::Host),
        Entry::Endpoint(_) => Some(TableKind::Endpoint),
        Entry::Part(part, _, _) => Some(TableKind::Part(part)),
        Entry::Bridge(_) => Some(TableKind::Bridge),
        Entry::Guest(_) => Some(TableKind::Guest),
        Entry::Slot(_, _) => None,
    }
}
