//! What to write instead of a wrong value.

use crate::key_causes::push_similar_or_all_keys;
use crate::others::path_text_of_entry;
use crate::path_causes::{DEVICES_KEY, push_path_help};
use board_file::document::schema::TableKind;
use board_file::document::tables::table_kind_of_entry;
use board_file::entries::FileEntries;
use board_file::{EndpointPart, Rule, Violation};
use std::alloc::{AllocError, Global};

/// Appends what to write, if the sentence about the problem doesn't say it.
pub(crate) fn push_remedy_if_any(
    alloc: Global,
    text: &mut String,
    file: &FileEntries<'_>,
    problem: Violation<'_>,
) -> Result<(), AllocError> {
    let at = path_text_of_entry(file, problem.entry);
    match (problem.rule, table_kind_of_entry(problem.entry), at) {
        (Rule::Known, Some(level), _) => push_similar_or_all_keys(alloc, text, level, problem.key),
        (Rule::Path, _, Some(at)) if at.is_path() => text.push_str(DEVICES_KEY),
        (Rule::Path | Rule::NamesEndpoint, _, Some(at)) => push_path_help(
            text,
            at.text().as_bytes(),
            file.device_limit(),
        ),
        (Rule::Multifunction, _, _) => text.push_str(
            "in function 0 of a device with several functions, bit 7 of the header type is always set",
        ),
        (Rule::Name, _, _) => text.push_str(
            "a name is 1 to 16 lowercase letters and digits, and begins with a letter; \"host\" is reserved",
        ),
        (Rule::OwnRegisters, _, _) => {
            text.push_str("a 64-bit BAR uses two registers, index and index + 1")
        }
        (Rule::ConfigEnd | Rule::OwnOffsets, Some(TableKind::Part(EndpointPart::Capability)), _) =>
            text.push_str(
                "the header of a structure takes the two bytes at off, and its block follows them",
            ),
        _ => Ok(()),
    }
}
