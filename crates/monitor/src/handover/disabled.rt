//! Disabled regions, which prevent a handover of their functions.
ghost use Rattle.std.specs.{Prelude.{◌≡◌, not, map, filter, flat_map, slice_get, IfOk}, List.list_any};
ghost use Rattle.model_registers.specs.Decoding.{opens_space};
ghost use Rattle.model_board.specs.{Paths.path_eq, Routing.routing};
ghost use Rattle.model_guests.specs.World.{Guest as GuestValue};
ghost use Rattle.model_findings.specs.OpenRegions.{region_now, closed_of};
ghost use Rattle.bridge_forward.specs.RoutingRows.{base_of};
ghost use Rattle.monitor.specs.Handovers.{closed_if_given, first_closed_at};

use accesses::GuestDecl;
use bridge_forward::{Ranges, RoutingRegion, RoutingRow};
use findings::{LiveBar, enables_space};
use host_bridge::Host;
use paths::Path;
use std::alloc::{AllocError, Global};

/// Returns the first region of a function for which Command doesn't enable decoding.
fn first_disabled_region(path: &Path, command: u16, regions: &[RoutingRegion]) -> Option<LiveBar>
    ensures { result ≡ slice_get
        (filter (λ q. not (opens_space command q.space)) (map (region_now path.now) (map base_of regions.now))) 0 }
{
    for region in regions {
        if !enables_space(command, region.kind.space()) {
            return Some(LiveBar {
                path: path.copied(),
                region: *region,
            });
        }
    }
    None
}

/// Returns the first disabled region of a function. A bridge has none.
fn first_disabled_of_row(row: &RoutingRow) -> Option<LiveBar>
    ensures { result ≡ slice_get (closed_of row.now) 0 }
{
    match &row.ranges {
        Ranges::Regions(regions) => first_disabled_region(&row.path, row.command, regions),
        Ranges::Windows {
            io: _,
            mem: _,
            pref: _,
        } => None,
    }
}

/// Returns whether a path is among the paths of a guest's slots.
fn has_path(decl: &GuestDecl, path: &Path) -> bool
    ensures { result ≡ list_any (λ p. path_eq p path.now) decl.now.slots }
{
    decl.slots.as_slice().iter().any(|slot| slot == path)
}

/// Returns whether the function at a path is to be assigned to a guest.
fn any_guest_has_path(decls: &[GuestDecl], path: &Path) -> bool
    ensures { result
        ≡ list_any (λ (g : GuestValue). list_any (λ p. path_eq p path.now) g.slots) decls.now }
{
    decls.iter().any(|decl| has_path(decl, path))
}

/// Returns the function's first disabled region, if the function is to be assigned to a guest.
fn first_disabled_if_assigned(decls: &[GuestDecl], row: &RoutingRow) -> Option<LiveBar>
    ensures { let ps = flat_map (λ (g : GuestValue). g.slots) decls.now in
        result ≡ closed_if_given ps row.now }
{
    if any_guest_has_path(decls, &row.path) {
        first_disabled_of_row(row)
    } else {
        None
    }
}

/// Returns the first disabled region among all functions that are to be assigned to guests.
fn first_disabled_bar_to_assign(rows: &[RoutingRow], decls: &[GuestDecl]) -> Option<LiveBar>
    ensures { let ps = flat_map (λ (g : GuestValue). g.slots) decls.now in
        result ≡ first_closed_at ps rows.now }
{
    for row in rows {
        if let Some(closed) = first_disabled_if_assigned(decls, row) {
            return Some(closed);
        }
    }
    None
}

/// Returns the board's first disabled region among all functions that are to be assigned to guests.
pub(crate) fn first_disabled_on_board(
    alloc: Global,
    host: &Host,
    decls: &[GuestDecl],
) -> Result<Option<LiveBar>, AllocError>
    ensures { let ps = flat_map (λ (g : GuestValue). g.slots) decls.now in
        IfOk result (λ r. r ≡ first_closed_at ps (routing host.now.state.functions)) }
{
    let rows = host.routing(alloc)?;
    Ok(first_disabled_bar_to_assign(&rows, decls))
}
