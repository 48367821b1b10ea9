//! The kinds of tables in a board file, and the forms of values.
ghost use Rattle.std.specs.{Prelude.{◌≡◌, is_some}, List.list_all};
ghost use Rattle.toml.specs.{View.view, Data.{as_integer, as_str, as_table}};
ghost use Rattle.board_file.specs.Schema.{fields, form_at, is_allowed_word, has_form};

use crate::document::keys::fields;
use crate::document::keywords::{parse_io_decode, parse_pref_decode, parse_region_kind};
use crate::entry::EndpointPart;
use toml::value::{Array, Value};

/// A kind of table.
#[derive(Clone, Copy)]
pub enum TableKind {
    Top,
    Host,
    Endpoint,
    Part(EndpointPart),
    Bridge,
    Guest,
}

/// A set of words that a value can be chosen from.
#[derive(Clone, Copy)]
pub enum Keyword {
    RegionKind,
    IoDecode,
    PrefDecode,
}

/// The form of a value: its type, and its words if it has any.
#[derive(Clone, Copy)]
pub enum ValueType {
    Integer,
    Boolean,
    Text,
    Word(Keyword),
    /// An array of two integers.
    Pair,
    /// An array of strings.
    Texts,
    Table(TableKind),
    /// An array of tables.
    Tables(TableKind),
}

/// A key of a table.
#[derive(Clone, Copy)]
pub struct Field {
    pub key: &'static str,
    pub needed: bool,
    pub form: ValueType,
}

/// Returns the form of a key's value, or `None` if the key isn't defined for the level.
pub fn form_at(level: TableKind, key: &str) -> Option<ValueType>
    ensures { result ≡ form_at key.now (fields level) }
{
    'search: for field in fields(level) {
        if field.key == key {
            return Some(field.form);
        }
    }
    None
}

/// Returns whether the text is one of the words.
fn is_allowed_word(words: Keyword, text: &str) -> bool
    ensures { result ≡ is_allowed_word words text.now }
{
    match words {
        Keyword::RegionKind => parse_region_kind(text).is_some(),
        Keyword::IoDecode => parse_io_decode(text).is_some(),
        Keyword::PrefDecode => parse_pref_decode(text).is_some(),
    }
}

/// Returns whether the value is a string that is one of the words.
fn is_allowed_word_value(words: Keyword, value: &Value) -> bool
    ensures { result ≡ has_form (ValueType.Word words) (view value.now) }
{
    match value.as_str() {
        Some(text) => is_allowed_word(words, text),
        None => false,
    }
}

/// Returns whether the value has the form.
pub fn has_form(form: ValueType, value: &Value) -> bool
    ensures { result ≡ has_form form (view value.now) }
{
    match form {
        ValueType::Integer => value.is_integer(),
        ValueType::Boolean => value.is_bool(),
        ValueType::Text => value.is_str(),
        ValueType::Word(words) => is_allowed_word_value(words, value),
        ValueType::Table(_) => value.is_table(),
        ValueType::Pair => match value {
            Value::Array(items) => items.len() == 2 && all_integers(items),
            _ => false,
        },
        ValueType::Texts => match value {
            Value::Array(items) => all_texts(items),
            _ => false,
        },
        ValueType::Tables(_) => match value {
            Value::Array(items) => all_tables(items),
            _ => false,
        },
    }
}

fn all_integers(items: &Array) -> bool
    ensures { result ≡ list_all (λ v. is_some (as_integer (view v))) items.now.items }
{
    items.iter().all(|item| item.is_integer())
}

fn all_texts(items: &Array) -> bool
    ensures { result ≡ list_all (λ v. is_some (as_str (view v))) items.now.items }
{
    items.iter().all(|item| item.is_str())
}

fn all_tables(items: &Array) -> bool
    ensures { result ≡ list_all (λ v. is_some (as_table (view v))) items.now.items }
{
    items.iter().all(|item| item.is_table())
}
