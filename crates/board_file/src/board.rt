//! Construction of the host and the guests from a checked board file.
ghost use Rattle.std.specs.{Prelude.{◌≡◌, ◌++◌, ◌⊎◌, IsTrue, IfOk, IfErr, map, true, false}, List.list_all};
ghost use Rattle.lists.specs.Elements.{Each};
ghost use Rattle.model_board.specs.{AtReset.{IsAtReset, reset_state}, Board.IsBoard, Lawful.HasLawfulDecls, Places.board_of};
ghost use Rattle.model_guests.specs.World.{IsLawfulWorld};
ghost use Rattle.board_file.specs.{Blocks.Gives, Judged.{is_judged, is_lawful_bridge, IsShortGuest}, Endpoints.{is_declarable, masks_hold}, Meaning.{world_in, world_of}, declared.fault.BoardFault.TheVariants.{Memory, CellMasks}};
ghost use Rattle.board_file.specs.Functions as said;

use crate::apertures::apertures;
use crate::entries::{BridgeEntry, EndpointEntry, FileEntries, GuestEntry};
use crate::fault::BoardFault;
use accesses::GuestDecl;
use bridge_forward::{Bus, Decl, Declared};
use headers::Apertures;
use host_bridge::Host;
use std::alloc::{AllocError, Global};

/// Declares the endpoints. Returns `None` if a pattern isn't valid or configuration blocks overlap.
fn declare_endpoints_if_masks_hold(
    alloc: Global,
    entries: &[EndpointEntry<'_>],
) -> Result<Option<Vec<Decl>>, AllocError>
    requires { IsTrue (list_all is_declarable entries.now) }
    ensures { IfOk result (λ found. Gives (list_all masks_hold entries.now) found (λ v.
        (v.items ≡ map said.endpoint_row entries.now) × HasLawfulDecls v.items)) }
{
    let mut decls = Vec::new(alloc);
    'entries: for entry in entries {
        match entry.declare_if_masks_hold(alloc)? {
            Some(decl) => decls.push(Decl {
                path: entry.at.path_or_zero(),
                function: Declared::Endpoint(decl),
            })?,
            None => return Ok(None),
        }
    }
    Ok(Some(decls))
}

/// Appends the declarations of the bridges.
fn add_bridge_decls(decls: Vec<Decl>, entries: &[BridgeEntry<'_>]) -> Result<Vec<Decl>, AllocError>
    requires bridges { IsTrue (list_all is_lawful_bridge entries.now) }
    requires lawful { HasLawfulDecls decls.items }
    ensures { IfOk result (λ v.
        (v.items ≡ decls.items ++ map said.bridge_row entries.now) × HasLawfulDecls v.items) }
{
    let mut decls = decls;
    'entries: for entry in entries {
        decls.push(Decl {
            path: entry.at.path_or_zero(),
            function: Declared::Bridge(entry.declare()),
        })?;
    }
    Ok(decls)
}

/// Declares all functions, endpoints first. Returns `None` if a pattern isn't valid or
/// configuration blocks overlap.
fn declare_functions_if_masks_hold(
    alloc: Global,
    file: &FileEntries<'_>,
) -> Result<Option<Vec<Decl>>, AllocError>
    requires { IsTrue (is_judged file.now) }
    ensures { IfOk result (λ found. Gives (list_all masks_hold file.now.endpoints) found (λ v.
        (v.items ≡ said.rows file.now) × HasLawfulDecls v.items)) }
{
    match declare_endpoints_if_masks_hold(alloc, &file.endpoints)? {
        Some(endpoints) => Ok(Some(add_bridge_decls(endpoints, &file.bridges)?)),
        None => Ok(None),
    }
}

/// Returns the declaration of each guest in the file, in order.
fn declare_guests(alloc: Global, entries: &[GuestEntry<'_>]) -> Result<Vec<GuestDecl>, AllocError>
    requires { Each IsShortGuest entries.now }
    ensures { IfOk result (λ v. v.items ≡ map said.guest entries.now) }
{
    let mut guests = Vec::new(alloc);
    'entries: for entry in entries {
        guests.push(entry.declare())?;
    }
    Ok(guests)
}

/// Builds the host with these functions at reset.
fn build_host_at_reset(
    alloc: Global,
    decls: Vec<Decl>,
    apertures: Apertures,
) -> Result<Host, AllocError>
    requires { IsBoard (board_of decls.items) }
    ensures { IfOk result (λ h.
        h ≡ record { state = reset_state (board_of decls.items); apertures = apertures }) }
{
    Ok(Host::new(Bus::build(alloc, decls)?, apertures))
}

/// Builds the host and the guests of a file that passed all earlier checks. Returns `CellMasks` if
/// a pattern isn't valid or configuration blocks overlap, and `Memory` if memory is exhausted.
pub(crate) fn check_masks_and_build(
    alloc: Global,
    file: &FileEntries<'_>,
) -> Result<(Host, Vec<GuestDecl>), BoardFault>
    requires { IsTrue (is_judged file.now) }
    ensures masks { IfOk result (λ r. list_all masks_hold file.now.endpoints ≡ true) }
    ensures world { IfOk result (λ r. world_in r.0 r.1.items ≡ world_of file.now) }
    ensures reset { IfOk result (λ r. IsAtReset r.0.state) }
    ensures lawful { IfOk result (λ r. IsLawfulWorld (world_of file.now)) }
    ensures refused { IfErr result (λ e.
        (e ≡ Memory)
        ⊎ ((e ≡ CellMasks) × (list_all masks_hold file.now.endpoints ≡ false))) }
{
    let apertures = apertures(file).unwrap();
    let decls = match declare_functions_if_masks_hold(alloc, file)? {
        Some(decls) => decls,
        None => return Err(BoardFault::CellMasks),
    };
    let host = build_host_at_reset(alloc, decls, apertures)?;
    let guests = declare_guests(alloc, &file.guests)?;
    Ok((host, guests))
}
