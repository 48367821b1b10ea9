//! The tables inside an `endpoint` table.

use board_file::entries::{BarEntry, EndpointEntry, FileEntries, PatternTexts};
use board_file::functions::blocks::{ByteRange, HasExtent, are_apart};
use board_file::{EndpointPart, Entry};

/// Returns the BAR of an entry, if it is one.
pub(crate) fn bar_of<'f, 'a>(file: &'f FileEntries<'a>, entry: Entry) -> Option<&'f BarEntry<'a>> {
    match entry {
        Entry::Part(EndpointPart::Bar, i, j) => file.endpoints.get(i)?.bars.get(j),
        _ => None,
    }
}

/// Returns the size and the patterns of a register block.
pub(crate) fn block_size_and_patterns<'f, 'a>(
    file: &'f FileEntries<'a>,
    entry: Entry,
) -> Option<(i64, &'f PatternTexts<'a>)> {
    let Entry::Part(part, i, j) = entry else {
        return None;
    };
    let endpoint = file.endpoints.get(i)?;
    if part == EndpointPart::Bar {
        let bar = endpoint.bars.get(j)?;
        return Some((bar.block, &bar.patterns));
    }
    let config = match part {
        EndpointPart::Capability => &endpoint.capabilities.get(j)?.config,
        _ => endpoint.configs.get(j)?,
    };
    Some((config.block, &config.patterns))
}

/// Returns the offsets of a table's configuration registers, if it has any.
fn config_range_of_part(
    endpoint: &EndpointEntry<'_>,
    part: EndpointPart,
    index: usize,
) -> Option<ByteRange> {
    match part {
        EndpointPart::Bar => None,
        EndpointPart::Config => Some(endpoint.configs.get(index)?.extent()),
        EndpointPart::Capability => Some(endpoint.capabilities.get(index)?.extent()),
    }
}

/// Returns the offsets of the configuration registers of an entry, if it has any.
pub(crate) fn config_range_of_entry(file: &FileEntries<'_>, entry: Entry) -> Option<ByteRange> {
    match entry {
        Entry::Part(part, i, j) => config_range_of_part(file.endpoints.get(i)?, part, j),
        _ => None,
    }
}

/// Returns the first block of configuration registers of an endpoint that overlaps a range.
/// Structures of the capability list come after configuration blocks.
pub(crate) fn first_overlapping_part(
    file: &FileEntries<'_>,
    endpoint_index: usize,
    range: ByteRange,
) -> Option<Entry> {
    let endpoint = file.endpoints.get(endpoint_index)?;
    for part in EndpointPart::all() {
        for index in 0..endpoint.count(*part) {
            if let Some(extent) = config_range_of_part(endpoint, *part, index) {
                if !are_apart(extent, range) {
                    return Some(Entry::Part(*part, endpoint_index, index));
                }
            }
        }
    }
    None
}
