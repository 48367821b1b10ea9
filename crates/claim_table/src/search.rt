//! Finds the region that contains an address.
ghost use Rattle.std.specs.Prelude.{◌≡◌, find};
ghost use Rattle.bars.specs.Kinds.{named_space};
ghost use Rattle.claim_table.specs.Entries.{lies_in, by_space, AreApart};

use crate::region_entry::RegionEntry;
use bars::Space;

/// Returns the list of entries for an address space.
pub(crate) fn entries_of_space<'a>(
    space: Space,
    ports: &'a [RegionEntry],
    memory: &'a [RegionEntry],
) -> &'a [RegionEntry]
    ensures { result.now ≡ by_space (named_space space) ports.now memory.now }
{
    match space {
        Space::Io => ports,
        Space::Mem => memory,
    }
}

/// Returns the region that contains an address. Binary search finds the last region that starts at
/// or before the address; no other region can contain it.
pub(crate) fn entry_at(entries: &[RegionEntry], addr: u64) -> Option<RegionEntry>
    requires { AreApart entries.now }
    ensures { result ≡ find (lies_in addr) entries.now }
{
    let after = entries.partition_point(|entry| entry.first <= addr);
    if after == 0 {
        return None;
    }
    let entry = entries[after - 1];
    if addr - entry.first < entry.size {
        Some(entry)
    } else {
        None
    }
}
