//! The entries that a problem involves.

use crate::parts::{config_range_of_entry, first_overlapping_part};
use crate::value_causes::invalid_pattern_key_or_w1c;
use bars::Kind;
use board_file::entries::{BarEntry, FileEntries};
use board_file::path::text::{PathText, are_same_valid_path};
use board_file::{EndpointPart, Entry, Rule};

/// Returns the path text of a function or slot.
pub(crate) fn path_text_of_entry<'f, 'a>(
    file: &'f FileEntries<'a>,
    entry: Entry,
) -> Option<&'f PathText<'a>> {
    match entry {
        Entry::Endpoint(i) => Some(&file.endpoints.get(i)?.at),
        Entry::Bridge(i) => Some(&file.bridges.get(i)?.at),
        Entry::Slot(i, j) => file.guests.get(i)?.slots.get(j),
        _ => None,
    }
}

/// Returns the index of the register after those of a BAR.
fn next_register_index(bar: &BarEntry<'_>) -> u64 {
    let registers = match bar.kind {
        Kind::Io | Kind::Mem32 { .. } => 1,
        Kind::Mem64 { .. } => 2,
    };
    bar.index.unsigned_abs().saturating_add(registers)
}

/// Returns whether two BARs share a register.
fn share_register(bar: &BarEntry<'_>, other: &BarEntry<'_>) -> bool {
    bar.index.unsigned_abs() < next_register_index(other)
        && other.index.unsigned_abs() < next_register_index(bar)
}

/// Finds the first BAR that has no registers of its own. Returns its index, and the index of the
/// first earlier BAR that shares a register with it. The second index is `None` if a 64-bit BAR
/// begins at the last register.
fn first_misplaced_bar_and_sharer(bars: &[BarEntry<'_>]) -> Option<(usize, Option<usize>)> {
    for (index, bar) in bars.iter().enumerate() {
        let met = bars
            .iter()
            .take(index)
            .position(|other| share_register(bar, other));
        if met.is_some() || 6 < next_register_index(bar) {
            return Some((index, met));
        }
    }
    None
}

/// Returns the first BAR of an endpoint that has no registers of its own.
fn first_misplaced_bar(file: &FileEntries<'_>, endpoint: usize) -> Option<Entry> {
    let (bar, _) = first_misplaced_bar_and_sharer(&file.endpoints.get(endpoint)?.bars)?;
    Some(Entry::Part(EndpointPart::Bar, endpoint, bar))
}

/// Returns the entry and the key that cause a problem, if they aren't those of the rule: the BAR
/// without registers of its own, or the pattern that isn't valid.
pub(crate) fn specific_cause_if_any(
    file: &FileEntries<'_>,
    entry: Entry,
    rule: Rule,
) -> (Option<Entry>, &'static str) {
    match (rule, entry) {
        (Rule::OwnRegisters, Entry::Endpoint(i)) => (first_misplaced_bar(file, i), "index"),
        (Rule::BarMasks | Rule::ConfigMasks, _) => (
            Some(entry),
            invalid_pattern_key_or_w1c(file, entry),
        ),
        _ => (None, ""),
    }
}

/// Returns the first function with this path.
pub(crate) fn first_function_with_path(file: &FileEntries<'_>, at: &PathText<'_>) -> Option<Entry> {
    let endpoint = file
        .endpoints
        .iter()
        .position(|endpoint| are_same_valid_path(&endpoint.at, at));
    match endpoint {
        Some(i) => Some(Entry::Endpoint(i)),
        None => {
            let i = file
                .bridges
                .iter()
                .position(|bridge| are_same_valid_path(&bridge.at, at))?;
            Some(Entry::Bridge(i))
        }
    }
}

/// Returns the first slot with this path.
fn first_slot_with_path(file: &FileEntries<'_>, at: &PathText<'_>) -> Option<Entry> {
    for (i, guest) in file.guests.iter().enumerate() {
        if let Some(j) = guest
            .slots
            .iter()
            .position(|slot| are_same_valid_path(slot, at))
        {
            return Some(Entry::Slot(i, j));
        }
    }
    None
}

/// Returns the first entry that conflicts with this one over a path, a name, an offset or a
/// register. Returns `None` for rules that no other entry is involved in.
pub(crate) fn conflicting_entry(file: &FileEntries<'_>, entry: Entry, rule: Rule) -> Option<Entry> {
    match (rule, entry) {
        (Rule::OwnPlace, _) => first_function_with_path(file, path_text_of_entry(file, entry)?),
        (Rule::OwnSlot, _) => first_slot_with_path(file, path_text_of_entry(file, entry)?),
        (Rule::OwnName, Entry::Guest(i)) => {
            let name = file.guests.get(i)?.name;
            let other = file.guests.iter().position(|guest| guest.name == name)?;
            Some(Entry::Guest(other))
        }
        (Rule::OwnOffsets, Entry::Part(_, i, _)) => {
            first_overlapping_part(file, i, config_range_of_entry(file, entry)?)
        }
        (Rule::OwnRegisters, Entry::Endpoint(i)) => {
            let (_, met) = first_misplaced_bar_and_sharer(&file.endpoints.get(i)?.bars)?;
            Some(Entry::Part(EndpointPart::Bar, i, met?))
        }
        _ => None,
    }
}
