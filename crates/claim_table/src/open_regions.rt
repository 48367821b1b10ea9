//! Lists the enabled regions of a board in one address space, sorted by address.
ghost use Rattle.std.specs.{Prelude.{◌≡◌, ◌++◌, map, IfOk, OnOk}, List.Sorted.{IsPermutation, IsNonDecreasingBy}};
ghost use Rattle.bars.specs.Kinds.{named_space};
ghost use Rattle.model_registers.specs.Decoding.{opens_space};
ghost use Rattle.bridge_forward.specs.RoutingRows.{base_of};
ghost use Rattle.claim_table.specs.{declared.region_entry.RegionEntry.RegionEntry as EntryValue, Entries.{entry_for, of_space, open_at, open_entries}};

use crate::region_entry::RegionEntry;
use bars::Space;
use bridge_forward::{Ranges, RoutingRegion, RoutingRow};
use std::alloc::{AllocError, Global};

/// Returns whether a Command value enables decoding in an address space.
fn enables_space(command: u16, space: Space) -> bool
    ensures { result ≡ opens_space command (named_space space) }
{
    command & space.command_bit() != 0
}

/// Appends the regions of a function that are in an address space.
fn add_regions_in_space(
    entries: &mut Vec<RegionEntry>,
    space: Space,
    function: usize,
    regions: &[RoutingRegion],
) -> Result<(), AllocError>
    ensures { OnOk result (entries.new.items
        ≡ entries.old.items
        ++ map (entry_for function) (of_space (named_space space) (map base_of regions.now))) }
{
    for region in regions {
        if region.kind.space() == space {
            entries.push(RegionEntry {
                first: region.base,
                size: region.size,
                function,
                region: region.index,
            })?;
        }
    }
    Ok(())
}

/// Appends the regions of a function in an address space, if Command enables that space.
fn add_enabled_regions(
    entries: &mut Vec<RegionEntry>,
    space: Space,
    function: usize,
    row: &RoutingRow,
) -> Result<(), AllocError>
    ensures { OnOk result (entries.new.items
        ≡ entries.old.items ++ open_at (named_space space) function row.now) }
{
    match &row.ranges {
        Ranges::Regions(regions) => {
            if enables_space(row.command, space) {
                add_regions_in_space(entries, space, function, regions)
            } else {
                Ok(())
            }
        }
        Ranges::Windows { .. } => Ok(()),
    }
}

/// Returns the enabled regions of all functions in one address space, in path order.
fn all_enabled_regions(
    alloc: Global,
    space: Space,
    rows: &[RoutingRow],
) -> Result<Vec<RegionEntry>, AllocError>
    ensures { IfOk result (λ v. v.items ≡ open_entries (named_space space) 0 rows.now) }
{
    let mut entries = Vec::new(alloc);
    for (function, row) in rows.iter().enumerate() {
        add_enabled_regions(&mut entries, space, function, row)?;
    }
    Ok(entries)
}

/// Returns the enabled regions of all functions in one address space, sorted by address.
pub(crate) fn enabled_regions_sorted(
    alloc: Global,
    space: Space,
    rows: &[RoutingRow],
) -> Result<Vec<RegionEntry>, AllocError>
    ensures all { IfOk result (λ v.
        IsPermutation (open_entries (named_space space) 0 rows.now) v.items) }
    ensures rising { IfOk result (λ v. IsNonDecreasingBy (λ (e : EntryValue). e.first) v.items) }
{
    let mut entries = all_enabled_regions(alloc, space, rows)?;
    entries.sort_unstable_by_key(|entry| entry.first);
    Ok(entries)
}
