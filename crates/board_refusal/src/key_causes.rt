//! Keys that were probably meant, and the form that the value of a key must have.

use board_file::document::keys::fields;
use board_file::document::schema::{Field, Keyword, TableKind, ValueType, form_at};
use std::alloc::{AllocError, Global};
use strsim::levenshtein;

/// Returns the key that was probably meant: the first within one edit of `word`, or else the first
/// within two. A key with fewer than two letters for each edit doesn't count.
fn find_similar_key(
    alloc: Global,
    word: &str,
    fields: &'static [Field],
) -> Result<Option<&'static str>, AllocError> {
    for letters in 1..3 {
        for field in fields {
            if 2 * letters <= field.key.len() && levenshtein(alloc, word, field.key)? <= letters {
                return Ok(Some(field.key));
            }
        }
    }
    Ok(None)
}

/// Appends the key that is spelled most like an unknown one. If none is similar, appends a list of
/// the keys that the table may have.
pub(crate) fn push_similar_or_all_keys(
    alloc: Global,
    text: &mut String,
    level: TableKind,
    key: &str,
) -> Result<(), AllocError> {
    let fields = fields(level);
    if let Some(meant) = find_similar_key(alloc, key, fields)? {
        return write!(text, "did you mean '{meant}'?");
    }
    let mut before = "the keys of this table are ";
    for field in fields {
        text.push_str(before)?;
        text.push_str(field.key)?;
        before = ", ";
    }
    Ok(())
}

/// Appends what the value of a key must be.
pub(crate) fn push_expected_form(
    text: &mut String,
    level: TableKind,
    key: &str,
) -> Result<(), AllocError> {
    let words = match form_at(level, key) {
        Some(ValueType::Integer) => " an integer such as 16 or 0x10, without quotes",
        Some(ValueType::Boolean) => " true or false, without quotes",
        Some(ValueType::Text) => match key {
            "reset" | "rw" | "w1c" => " hexadecimal digits in quotes, such as \"ff\"",
            _ => " a string in quotes",
        },
        Some(ValueType::Word(Keyword::RegionKind)) => {
            " \"io\", \"mem32\", \"mem32p\", \"mem64\" or \"mem64p\""
        }
        Some(ValueType::Word(Keyword::IoDecode)) => " \"none\", \"16\" or \"32\"",
        Some(ValueType::Word(Keyword::PrefDecode)) => " \"none\", \"32\" or \"64\"",
        Some(ValueType::Pair) => " an array of two integers such as [0x1000, 0xffff]",
        Some(ValueType::Texts) => " an array of strings such as [\"1.0\", \"2.0/0.0\"]",
        Some(ValueType::Table(_)) => " a table: write [host]",
        Some(ValueType::Tables(_)) => {
            let owner = match level {
                TableKind::Endpoint => "endpoint.",
                _ => "",
            };
            return write!(text, " an array of tables: write [[{owner}{key}]]");
        }
        None => "",
    };
    text.push_str(words)
}
