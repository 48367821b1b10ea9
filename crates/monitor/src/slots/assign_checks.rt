//! The checks before an unassigned function is assigned to a guest.
ghost use Rattle.std.specs.{Prelude.{◌≡◌, ◌<◌, IfNone, IfSome, List, None, Some, length, slice_get}, List.list_any};
ghost use Rattle.model_registers.specs.Decoding.{command_word, opens_space};
ghost use Rattle.model_board.specs.{AtReset.board_at, State.BoardFunction};
ghost use Rattle.model_findings.specs.Orderly.{IsStateOfBoard};
ghost use Rattle.model_guests.specs.{Text.Text, World.declared, WorldNow.WorldNow};
ghost use Rattle.bars.specs.Kinds.{named_space};
ghost use Rattle.bridge_forward.specs.BasesNow.{bases_of};
ghost use Rattle.monitor.specs.{Keeping.IsKept, InSlots.is_at, Seatings.{IsEndpointAt, MakesGift, has_index, is_closed_base, is_closed_slot}};

use crate::guest::{AssignedFunction, Guest};
use crate::handover::guest_records::new_assigned_function;
use crate::slots::assign_error::AssignError;
use crate::slots::assignment::slot_has_function;
use crate::slots::moving::is_slot_occupied;
use bars::{BarWithBase, Space};
use bridge_forward::ProgrammedRanges;
use host_bridge::Host;
use paths::Path;

/// Returns the index of the endpoint at a path.
fn find_endpoint_index(host: &Host, path: &Path) -> Option<usize>
    ensures none { IfNone result (declared (board_at host.now.state.functions) path.now ≡ None) }
    ensures there { IfSome result (λ i. IsEndpointAt host.now.state path.now i) }
{
    let Some(index) = host.index_of(path) else {
        return None;
    };
    match host.programmed_ranges_nth(index) {
        Some(ProgrammedRanges::Regions(_)) => Some(index),
        Some(
            ProgrammedRanges::Windows {
                io: _,
                mem: _,
                pref: _,
            },
        ) => None,
        None => None,
    }
}

/// Returns whether the function at an index is in a slot of the guest.
fn guest_has_function(guest: &Guest, index: usize) -> bool
    ensures { result ≡ list_any (is_at index) guest.now.slots.items }
{
    guest
        .slots
        .iter()
        .any(|slot| slot_has_function(slot, index))
}

/// Returns whether the function at an index is assigned to any guest.
fn is_assigned_to_any(guests: &[Guest], index: usize) -> bool
    ensures { result ≡ has_index index guests.now }
{
    guests.iter().any(|guest| guest_has_function(guest, index))
}

/// Returns whether Command enables decoding in a space.
fn command_enables_space(command: u32, space: Space) -> bool
    ensures { result ≡ opens_space command (named_space space) }
{
    command & u32::from(space.command_bit()) != 0
}

/// Returns whether Command disables the region at a base address register.
fn is_region_disabled(command: u32, region: &Option<BarWithBase>) -> bool
    ensures { result ≡ is_closed_slot command region.now }
{
    match region {
        Some(region) => !command_enables_space(command, region.decl.kind().space()),
        None => false,
    }
}

/// Returns whether Command disables any of these regions.
fn is_any_region_disabled(command: u32, placed: &[Option<BarWithBase>; 6]) -> bool
    ensures { result ≡ list_any (is_closed_slot command) placed.now }
{
    placed
        .iter()
        .any(|region| is_region_disabled(command, region))
}

/// Returns whether the board's Command disables a region of the function at an index.
fn has_disabled_region(host: &Host, index: usize) -> bool
    ensures { (f : BoardFunction) → slice_get host.now.state.functions index ≡ Some f
        → result ≡ list_any (is_closed_base (command_word f.file)) (bases_of f.decl f.file) }
{
    let placed = host.bars_with_base_nth(index);
    match host.peek_config_nth(index, 4, 2) {
        Some(command) => is_any_region_disabled(command, &placed),
        None => false,
    }
}

/// Returns the slot record for the function at a path, or the first reason why the function can't
/// be assigned to the slot.
pub(crate) fn try_new_assigned_function(
    host: &Host,
    guests: &[Guest],
    path: &Path,
    guest: usize,
    slot: u64,
) -> Result<AssignedFunction, AssignError>
    requires board { IsStateOfBoard host.now.state.functions }
    requires inside { guest < length guests.now }
    ensures { (w : WorldNow) (names : List Text) → IsKept w host.now names guests.now
        → MakesGift w path.now guest slot result }
{
    if slot > 31 {
        return Err(AssignError::PastSlots);
    }
    let Some(index) = find_endpoint_index(host, path) else {
        return Err(AssignError::NoEndpoint);
    };
    if is_assigned_to_any(guests, index) {
        return Err(AssignError::HasGuest);
    }
    if is_slot_occupied(&guests[guest].slots, slot as usize) {
        return Err(AssignError::SlotTaken);
    }
    if has_disabled_region(host, index) {
        return Err(AssignError::ClosedRegion);
    }
    Ok(new_assigned_function(host, index))
}
