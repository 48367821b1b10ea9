//! The sentence that says what is wrong with an entry.

use crate::key_causes::push_expected_form;
use crate::others::path_text_of_entry;
use crate::parts::bar_of;
use crate::path_causes::{
    push_first_missing_bridge, push_missing_function_zero, why_slot_not_endpoint_alone,
};
use crate::placed_breach::PlacedBreach;
use crate::value_causes::{
    push_size_and_overlap, push_why_block_patterns_invalid, push_why_size_invalid, why_io_invalid,
    why_mem_invalid, why_pref_invalid,
};
use board_file::document::tables::table_kind_of_entry;
use board_file::entries::FileEntries;
use board_file::{Entry, Rule, Source};
use diagnostics::{Head, Other, Shown, Subject};
use std::alloc::AllocError;

/// Returns the part of a rule's message that doesn't depend on the value.
fn fixed_message_part(rule: Rule) -> &'static str {
    match rule {
        Rule::Needed => "missing key",
        Rule::Form => "must be",
        Rule::Known => "unknown key",
        Rule::Vendor => "is out of range (0 to 0xfffe)",
        Rule::Byte(_) => "is out of range (0 to 0xff)",
        Rule::HalfWord(_) => "is out of range (0 to 0xffff)",
        Rule::Class => "is out of range (0 to 0xffffff)",
        Rule::Pin => "is out of range (0 to 4)",
        Rule::Status => "has bits outside 0xf900",
        Rule::FixedStatus | Rule::FixedSecondaryStatus => "has bits outside 0x06e0",
        Rule::Multifunction => "is not possible in function 0",
        Rule::Devices => "is neither 16 nor 32",
        Rule::BarBlock => "is out of range (0 to 4096)",
        Rule::ConfigOff => "is out of range (0x40 to 0xff)",
        Rule::ConfigBlock => "is out of range (1 to 192)",
        Rule::ConfigEnd => "extends past offset 0xff",
        Rule::CapabilityId => "is out of range (1 to 0xff)",
        Rule::CapabilityOff => "is out of range (0x40 to 0xfc, a multiple of 4)",
        Rule::CapabilityBlock => "is out of range (1 to 190)",
        Rule::Slashes => "has more than 16 parts",
        Rule::Functions => "too many endpoints and bridges (at most 1024)",
        Rule::Guests => "too many guests (at most 32)",
        Rule::Slots => "too many slots (at most 32)",
        Rule::Index => "is out of range (0 to 5)",
        Rule::BlockFits => "is larger than the BAR",
        Rule::Name => "is not a valid guest name",
        Rule::Path => "is not a valid path",
        Rule::OwnPlace | Rule::OwnName | Rule::OwnSlot => "is already used by",
        Rule::BehindBridge => "requires a bridge at",
        Rule::FunctionZero => "requires a function at",
        Rule::OwnOffsets => "with block =",
        Rule::Size | Rule::BarMasks | Rule::ConfigMasks | Rule::OwnRegisters => "",
        Rule::NamesEndpoint | Rule::IoAperture | Rule::MemAperture | Rule::PrefAperture => "",
    }
}

/// Appends the rest of the sentence about the path of a function or slot.
fn push_what_path_lacks(
    text: &mut String,
    source: &Source<'_>,
    entry: Entry,
    rule: Rule,
) -> Result<(), AllocError> {
    let Some(at) = path_text_of_entry(&source.file, entry) else {
        return Ok(());
    };
    let path = at.text().as_bytes();
    match rule {
        Rule::BehindBridge => push_first_missing_bridge(text, &source.functions, path),
        Rule::FunctionZero => push_missing_function_zero(text, path),
        _ => text.push_str(why_slot_not_endpoint_alone(source, at)),
    }
}

/// Appends the rest of the sentence about a BAR or a register block.
fn push_why_bar_or_block_invalid(
    text: &mut String,
    file: &FileEntries<'_>,
    entry: Entry,
    rule: Rule,
) -> Result<(), AllocError> {
    match (rule, bar_of(file, entry)) {
        (Rule::Size, Some(bar)) => push_why_size_invalid(text, bar),
        (Rule::BlockFits, Some(bar)) => write!(text, " (at most {})", bar.size),
        _ => push_why_block_patterns_invalid(text, file, entry),
    }
}

/// Appends the rest of the sentence about a conflict with another entry. A 64-bit BAR at the last
/// register has no registers of its own without such an entry.
fn push_conflict_or_bar_range(
    text: &mut String,
    file: &FileEntries<'_>,
    entry: Entry,
    rule: Rule,
    other: Option<Other>,
) -> Result<(), AllocError> {
    match (rule, other) {
        (Rule::OwnRegisters, Some(other)) => write!(text, "shares a register with {other}"),
        (Rule::OwnRegisters, None) => text.push_str("is out of range for a 64-bit BAR (0 to 4)"),
        (Rule::OwnOffsets, Some(other)) => push_size_and_overlap(text, file, entry, other),
        (_, Some(other)) => write!(text, " {other}"),
        (_, None) => Ok(()),
    }
}

/// Appends what is wrong with an entry: the key with its value, the words of the rule, and what
/// depends on the value.
pub(crate) fn push_problem_sentence(
    text: &mut String,
    source: &Source<'_>,
    placed: &PlacedBreach<'_>,
    head: Head<'_>,
) -> Result<(), AllocError> {
    let problem = placed.problem;
    let (entry, key, rule) = (problem.entry, problem.key, problem.rule);
    match rule {
        Rule::Needed | Rule::Known | Rule::Functions | Rule::Guests | Rule::Slots => {}
        _ => write!(text, "{} ", Subject(head))?,
    }
    text.push_str(fixed_message_part(rule))?;
    let file = &source.file;
    match (rule, table_kind_of_entry(entry), file.pref) {
        (Rule::Needed | Rule::Known, _, _) => write!(text, " '{}'", Shown(key.as_bytes())),
        (Rule::Form, Some(level), _) => push_expected_form(text, level, key),
        (Rule::IoAperture, _, _) => text.push_str(why_io_invalid(file.io)),
        (Rule::MemAperture, _, _) => text.push_str(why_mem_invalid(file.mem)),
        (Rule::PrefAperture, _, Some(pref)) => text.push_str(why_pref_invalid(file.mem, pref)),
        (Rule::Size | Rule::BlockFits | Rule::BarMasks | Rule::ConfigMasks, _, _) => {
            push_why_bar_or_block_invalid(text, file, entry, rule)
        }
        (Rule::BehindBridge | Rule::FunctionZero | Rule::NamesEndpoint, _, _) => {
            push_what_path_lacks(text, source, entry, rule)
        }
        _ => push_conflict_or_bar_range(text, file, entry, rule, placed.other),
    }
}
