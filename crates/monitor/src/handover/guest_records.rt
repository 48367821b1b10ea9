//! The monitor's initial record of a board and its guests, before any guest has accessed anything.
ghost use Rattle.std.specs.Prelude.{◌≡◌, ◌≤◌, length, map, Some, IfOk, IsSome};
ghost use Rattle.lists.specs.Elements.{Each};
ghost use Rattle.model_registers.specs.{Declarations.HasLawfulRegions, EndpointTable.opened, Decoding.Function};
ghost use Rattle.model_board.specs.Paths.{Path as PathValue};
ghost use Rattle.model_findings.specs.Orderly.{IsStateOfBoard};
ghost use Rattle.model_guests.specs.{World.{Guest as GuestValue, names, HasLawfulGuests, declared}, Slots.reset_function, Guests.guests_at_first};
ghost use Rattle.bars.specs.Resets.{with_no_base};
ghost use Rattle.bridge_forward.specs.BasesNow.{bases_nth};
ghost use Rattle.window_packing.specs.Readies.{board_below};
ghost use Rattle.monitor.specs.{Views.texts, Counts.counts_of, Keeping.{IsHeld, IsSlot, AreGuests}, Beginnings.{world_on, declared_in, IsStanding, AreSlotsAtFirst}};

use crate::guest::{AssignedFunction, Guest};
use accesses::{GuestDecl, Names};
use bars::{BarDecl, BarWithBase};
use guest_functions::{Latch, VirtualFunction};
use host_bridge::Host;
use paths::Path;
use std::alloc::{AllocError, Global};

/// Returns the declaration of a BAR, without its base address.
fn bar_decl_without_base(region: Option<BarWithBase>) -> Option<BarDecl>
    ensures { result ≡ declared_in region }
{
    match region {
        Some(region) => Some(region.decl),
        None => None,
    }
}

/// Returns the declarations of a function's BARs, by base address register.
fn bar_decls_without_bases(placed: &[Option<BarWithBase>; 6]) -> [Option<BarDecl>; 6]
    ensures { result ≡ map declared_in placed.now }
{
    [
        bar_decl_without_base(placed[0]),
        bar_decl_without_base(placed[1]),
        bar_decl_without_base(placed[2]),
        bar_decl_without_base(placed[3]),
        bar_decl_without_base(placed[4]),
        bar_decl_without_base(placed[5]),
    ]
}

/// Returns the initial slot record for the endpoint at an index: the guest's copies are at reset,
/// and the regions have the bases that they have on the host.
pub(crate) fn new_assigned_function(host: &Host, index: usize) -> AssignedFunction
    requires { HasLawfulRegions
        (map opened (map with_no_base (bases_nth host.now.state.functions index))) }
    ensures { (p : PathValue) (f : Function) → IsStanding host.now.state index p f →
        IsHeld host.now.state p f result }
{
    let placed = host.bars_with_base_nth(index);
    AssignedFunction {
        own: VirtualFunction::new(bar_decls_without_bases(&placed)),
        placed,
        index,
    }
}

/// Returns the initial slot record for the endpoint at a path.
fn new_assigned_function_at_path(host: &Host, path: &Path) -> AssignedFunction
    requires board { IsStateOfBoard host.now.state.functions }
    requires there { IsSome (declared (board_below host.now) path.now) }
    ensures { let b = board_below host.now in
        IsSlot host.now.state (Some path.now) (reset_function (declared b path.now)) (Some result) }
{
    match host.index_of(path) {
        Some(index) => new_assigned_function(host, index),
        None => unreachable!(),
    }
}

/// Returns a guest's 32 slots: the endpoints at these paths, starting at slot 0, and then empty
/// slots.
fn build_slots(
    alloc: Global,
    host: &Host,
    paths: &[Path],
) -> Result<Vec<Option<AssignedFunction>>, AllocError>
    requires board { IsStateOfBoard host.now.state.functions }
    requires few { length paths.now ≤ 32 }
    requires there { Each (λ p. IsSome (declared (board_below host.now) p)) paths.now }
    ensures { IfOk result (λ v. AreSlotsAtFirst host.now paths.now v.items) }
{
    let mut slots = Vec::with_capacity(alloc, 32)?;
    for path in paths {
        slots.push(Some(new_assigned_function_at_path(host, path)))?;
    }
    for _empty in paths.len()..32 {
        slots.push(None)?;
    }
    Ok(slots)
}

/// Returns the guests, each with CONFIG_ADDRESS 0 and with its endpoints in its slots.
pub(crate) fn build_guests(
    alloc: Global,
    host: &Host,
    decls: &[GuestDecl],
) -> Result<Vec<Guest>, AllocError>
    requires board { IsStateOfBoard host.now.state.functions }
    requires lawful { HasLawfulGuests (world_on host.now decls.now) }
    ensures kept { let w = world_on host.now decls.now in
        IfOk result (λ v. AreGuests host.now.state (names w) (guests_at_first w) v.items) }
    ensures counts { IfOk result (λ v.
        counts_of v.items ≡ map (λ (g : GuestValue). 0) decls.now) }
{
    let mut guests = Vec::with_capacity(alloc, decls.len())?;
    for decl in decls {
        guests.push(Guest {
            latch: Latch::new(),
            slots: build_slots(alloc, host, decl.slots.as_slice())?,
            changed: 0,
        })?;
    }
    Ok(guests)
}

/// Returns the guests' names.
pub(crate) fn guest_names(decls: &[GuestDecl]) -> Names
    requires { length decls.now ≤ 32 }
    ensures { texts result ≡ map (λ (g : GuestValue). g.name) decls.now }
{
    let mut names = Names::new();
    for decl in decls {
        names.push(decl.name);
    }
    names
}
