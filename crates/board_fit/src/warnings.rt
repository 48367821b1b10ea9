//! Finds possible mistakes in a file whose board can be set up.
ghost use Rattle.std.specs.{Prelude.{◌≡◌, ◌&&◌, IfOk}, BTreeSet.contains};
ghost use Rattle.paths.specs.PathOrders.{path_cmp};
ghost use Rattle.board_file.specs.PathTexts.{is_path_text, path_at};
ghost use Rattle.board_fit.specs.{PathSets.{remarks_on_bridges_not_in, remarks_on_endpoints_not_in}, Warnings.{all_function_paths, empty_bridge_remarks, unassigned_remarks, empty_guest_remarks, is_over_ten_times_used, is_aperture_too_wide, wide_aperture_remarks, aperture_remarks_if_all_warned, warnings}};

use crate::path_sets::{parent_bridges, valid_slot_paths};
use crate::pool_fit::PoolFit;
use crate::remark::Remark;
use crate::warning_level::WarningLevel;
use board_file::entries::{BridgeEntry, EndpointEntry, FileEntries, GuestEntry};
use board_file::path::text::PathText;
use paths::Path;
use std::alloc::{AllocError, Global};
use std::collections::BTreeSet;
use window_packing::PoolUse;

/// Returns the paths of all functions, endpoints first.
fn all_function_paths(alloc: Global, file: &FileEntries<'_>) -> Result<Vec<Path>, AllocError>
    ensures { IfOk result (λ v. v.items ≡ all_function_paths file.now) }
{
    let endpoints = file
        .endpoints
        .iter()
        .map(|endpoint| endpoint.at.path_or_zero());
    let bridges = file.bridges.iter().map(|bridge| bridge.at.path_or_zero());
    endpoints.chain(bridges).collect(alloc)
}

/// Returns whether anything is behind the bridge at this path.
fn is_bridge_filled(filled: &BTreeSet<Path>, at: &PathText<'_>) -> bool
    ensures { result ≡ contains path_cmp filled.now (path_at at.now) }
{
    filled.contains(&at.path_or_zero())
}

/// Returns a remark for each bridge that is not in the set.
fn remarks_on_bridges_not_in(
    alloc: Global,
    filled: &BTreeSet<Path>,
    bridges: &[BridgeEntry<'_>],
) -> Result<Vec<Remark>, AllocError>
    ensures { IfOk result (λ v. v.items ≡ remarks_on_bridges_not_in filled.now bridges.now) }
{
    bridges
        .iter()
        .enumerate()
        .filter(|(_, bridge)| !is_bridge_filled(filled, &bridge.at))
        .map(|(index, _)| Remark::EmptyBridge(index))
        .collect(alloc)
}

/// Returns a remark for each bridge with nothing behind it.
fn empty_bridge_remarks(alloc: Global, file: &FileEntries<'_>) -> Result<Vec<Remark>, AllocError>
    ensures { IfOk result (λ v. v.items ≡ empty_bridge_remarks file.now) }
{
    let paths = all_function_paths(alloc, file)?;
    let filled = parent_bridges(alloc, &paths)?;
    remarks_on_bridges_not_in(alloc, &filled, &file.bridges)
}

/// Returns whether the function at this path is in a guest's slots.
fn is_valid_path_in(given: &BTreeSet<Path>, at: &PathText<'_>) -> bool
    ensures { result ≡ (is_path_text at.now && contains path_cmp given.now (path_at at.now)) }
{
    at.is_path() && given.contains(&at.path_or_zero())
}

/// Returns a remark for each endpoint that is not in the set.
fn remarks_on_endpoints_not_in(
    alloc: Global,
    given: &BTreeSet<Path>,
    endpoints: &[EndpointEntry<'_>],
) -> Result<Vec<Remark>, AllocError>
    ensures { IfOk result (λ v. v.items ≡ remarks_on_endpoints_not_in given.now endpoints.now) }
{
    endpoints
        .iter()
        .enumerate()
        .filter(|(_, endpoint)| !is_valid_path_in(given, &endpoint.at))
        .map(|(index, _)| Remark::EndpointOfNone(index))
        .collect(alloc)
}

/// Returns a remark for each endpoint that isn't in any guest's slots. Returns none if the file has
/// no guests.
fn unassigned_remarks(alloc: Global, file: &FileEntries<'_>) -> Result<Vec<Remark>, AllocError>
    ensures { IfOk result (λ v. v.items ≡ unassigned_remarks file.now) }
{
    if file.guests.len() == 0 {
        return Ok(Vec::new(alloc));
    }
    let given = valid_slot_paths(alloc, &file.guests)?;
    remarks_on_endpoints_not_in(alloc, &given, &file.endpoints)
}

/// Returns a remark for each guest without slots.
fn empty_guest_remarks(alloc: Global, guests: &[GuestEntry<'_>]) -> Result<Vec<Remark>, AllocError>
    ensures { IfOk result (λ v. v.items ≡ empty_guest_remarks guests.now) }
{
    guests
        .iter()
        .enumerate()
        .filter(|(_, guest)| guest.slots.len() == 0)
        .map(|(index, _)| Remark::GuestWithoutSlots(index))
        .collect(alloc)
}

/// Returns whether an aperture of `size` bytes is more than ten times as large as the part in use.
/// An unused aperture doesn't count.
fn is_over_ten_times_used(size: u128, used: PoolUse) -> bool
    ensures { result ≡ is_over_ten_times_used size used }
{
    used.extent != 0 && u128::from(used.extent) * 10 < size
}

/// Returns whether a pool's aperture is more than ten times as large as the part in use.
fn is_aperture_too_wide(fit: &PoolFit) -> bool
    ensures { result ≡ is_aperture_too_wide fit.now }
{
    match (fit.size, fit.used) {
        (Some(size), Some(used)) => is_over_ten_times_used(size, used),
        _ => false,
    }
}

/// Returns a remark for each aperture that is more than ten times as large as the part in use.
fn wide_aperture_remarks(alloc: Global, fits: &[PoolFit]) -> Result<Vec<Remark>, AllocError>
    ensures { IfOk result (λ v. v.items ≡ wide_aperture_remarks fits.now) }
{
    fits.iter()
        .filter(|fit| is_aperture_too_wide(fit))
        .map(|fit| Remark::WideAperture(fit.pool))
        .collect(alloc)
}

/// Returns the remarks on wide apertures if these warnings are selected.
fn aperture_remarks_if_all_warned(
    alloc: Global,
    warned: WarningLevel,
    fits: &[PoolFit],
) -> Result<Vec<Remark>, AllocError>
    ensures { IfOk result (λ v. v.items ≡ aperture_remarks_if_all_warned warned fits.now) }
{
    match warned {
        WarningLevel::Likely => Ok(Vec::new(alloc)),
        WarningLevel::All => wide_aperture_remarks(alloc, fits),
    }
}

/// Returns all possible mistakes in a file, given the fits of its pools.
pub(crate) fn warnings(
    alloc: Global,
    warned: WarningLevel,
    file: &FileEntries<'_>,
    fits: &[PoolFit],
) -> Result<Vec<Remark>, AllocError>
    ensures { IfOk result (λ v. v.items ≡ warnings warned file.now fits.now) }
{
    let mut remarks = empty_bridge_remarks(alloc, file)?;
    remarks.extend_from_slice(&unassigned_remarks(alloc, file)?)?;
    remarks.extend_from_slice(&empty_guest_remarks(alloc, &file.guests)?)?;
    remarks.extend_from_slice(&aperture_remarks_if_all_warned(alloc, warned, fits)?)?;
    Ok(remarks)
}
