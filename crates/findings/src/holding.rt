//! Finds the BARs that contain an address without answering it.
ghost use Rattle.std.specs.Prelude.{◌≡◌, ◌++◌, map, IfOk, OnOk};
ghost use Rattle.bars.specs.Kinds.{named_space};
ghost use Rattle.model_findings.specs.OpenRegions.{region_now};
ghost use Rattle.model_lines.specs.Why.{is_answering_bar};
ghost use Rattle.bridge_forward.specs.RoutingRows.{base_of};
ghost use Rattle.findings.specs.WhyByRows.{is_held, held_in, held_of, silent_holders};

use crate::region::LiveBar;
use bars::Space;
use bridge_forward::{Claim, Path, Ranges, RoutingRegion, RoutingRow};
use std::alloc::{AllocError, Global};

/// The queried address, and the BAR that answers it.
#[derive(Drop)]
pub(crate) struct AddressQuery {
    pub(crate) space: Space,
    pub(crate) addr: u64,
    pub(crate) answer: Option<Claim>,
}

/// A BAR, and the Command value of its function.
#[derive(Drop)]
pub(crate) struct RegionWithCommand {
    pub(crate) region: LiveBar,
    pub(crate) command: u16,
}

/// Returns whether this BAR is the one that answers.
fn is_answering_bar(answer: &Option<Claim>, region: &LiveBar) -> bool
    ensures { result ≡ is_answering_bar answer.now region.now }
{
    match answer {
        None => false,
        Some(claim) => claim.path == region.path && claim.region == region.region.index,
    }
}

/// Returns whether the BAR contains the address without answering it.
fn holds_without_answering(asked: &AddressQuery, region: &LiveBar) -> bool
    ensures { let space = named_space asked.now.space in
        result ≡ is_held space asked.now.addr asked.now.answer region.now }
{
    region.region.kind.space() == asked.space
        && region.holds(asked.addr)
        && !is_answering_bar(&asked.answer, region)
}

/// Appends each of these BARs that contains the address without answering it.
fn add_silent_bars(
    held: &mut Vec<RegionWithCommand>,
    asked: &AddressQuery,
    path: &Path,
    command: u16,
    regions: &[RoutingRegion],
) -> Result<(), AllocError>
    ensures { let space = named_space asked.now.space in
        let qs = map (region_now path.now) (map base_of regions.now) in
        OnOk result (held.new.items
        ≡ held.old.items ++ held_in space asked.now.addr asked.now.answer command qs) }
{
    for region in regions {
        let here = LiveBar {
            path: path.copied(),
            region: *region,
        };
        if holds_without_answering(asked, &here) {
            held.push(RegionWithCommand {
                region: here,
                command,
            })?;
        }
    }
    Ok(())
}

/// Appends the BARs of a function that contain the address without answering it.
fn add_function_silent_bars(
    held: &mut Vec<RegionWithCommand>,
    asked: &AddressQuery,
    row: &RoutingRow,
) -> Result<(), AllocError>
    ensures { let space = named_space asked.now.space in OnOk result (held.new.items
        ≡ held.old.items ++ held_of space asked.now.addr asked.now.answer row.now) }
{
    match &row.ranges {
        Ranges::Regions(regions) => add_silent_bars(held, asked, &row.path, row.command, regions),
        Ranges::Windows { .. } => Ok(()),
    }
}

/// Returns every BAR that contains the address without answering it, in path order and then by BAR
/// index.
pub(crate) fn silent_holders(
    alloc: Global,
    asked: &AddressQuery,
    rows: &[RoutingRow],
) -> Result<Vec<RegionWithCommand>, AllocError>
    ensures { let space = named_space asked.now.space in
        IfOk result (λ v.
        v.items ≡ silent_holders space asked.now.addr asked.now.answer rows.now) }
{
    let mut held = Vec::new(alloc);
    for row in rows {
        add_function_silent_bars(&mut held, asked, row)?;
    }
    Ok(held)
}
