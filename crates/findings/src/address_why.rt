//! Explains which BAR answers an address, and why the other BARs that contain the address don't.
ghost use Rattle.std.specs.Prelude.{◌≡◌, count_by, map, IfOk};
ghost use Rattle.bars.specs.Kinds.{named_space};
ghost use Rattle.model_board.specs.Routing.{routing};
ghost use Rattle.model_lines.specs.Why.{why};
ghost use Rattle.findings.specs.{WhyByRows.{told_from, is_held_as_at_reset, held_apart}, WhyTold.{region_told, why_told}};

use crate::causes::{UnansweredRegion, Why};
use crate::holding::{AddressQuery, RegionWithCommand, silent_holders};
use crate::row::enables_space;
use crate::stopping::causes_of;
use crate::why_forwarding::forwarders;
use bars::Space;
use bridge_forward::RoutingRow;
use host_bridge::Host;
use std::alloc::{AllocError, Global};

/// Returns whether a BAR is still at address 0 with decoding disabled, as after reset.
fn is_as_at_reset(asked: &AddressQuery, held: &RegionWithCommand) -> bool
    ensures { result ≡ is_held_as_at_reset (named_space asked.now.space) held.now }
{
    held.region.region.base == 0 && !enables_space(held.command, asked.space)
}

/// Returns what keeps each BAR in the list from answering. Leaves out BARs in their reset state.
fn causes_unless_at_reset(
    alloc: Global,
    host: &Host,
    rows: &[RoutingRow],
    asked: &AddressQuery,
    held: &[RegionWithCommand],
) -> Result<Vec<UnansweredRegion>, AllocError>
    requires { rows.now ≡ routing host.now.state.functions }
    ensures { let space = named_space asked.now.space in let fs = host.now.state.functions in
        IfOk result (λ v.
        map region_told v.items
        ≡ map (told_from fs space asked.now.addr) (held_apart space held.now)) }
{
    let mut told = Vec::new(alloc);
    for one in held {
        if !is_as_at_reset(asked, one) {
            told.push(UnansweredRegion {
                region: one.region.copied(),
                causes: causes_of(alloc, host, rows, asked, one)?,
            })?;
        }
    }
    Ok(told)
}

/// Returns how many BARs in the list are in their reset state.
fn count_as_at_reset(asked: &AddressQuery, held: &[RegionWithCommand]) -> usize
    ensures { let left = is_held_as_at_reset (named_space asked.now.space) in
        result ≡ count_by left held.now }
{
    held.iter().filter(|one| is_as_at_reset(asked, one)).count()
}

/// Explains which BAR answers an address in the current registers. The result lists each bridge
/// that forwards the address, and each other BAR that contains the address with everything that
/// keeps it from answering, in path order and then by BAR index. BARs in their reset state (address
/// 0, decoding disabled) are only counted.
pub fn why_address(alloc: Global, host: &Host, space: Space, addr: u64) -> Result<Why, AllocError>
    ensures { let fs = host.now.state.functions in
        IfOk result (λ w. why_told w ≡ why fs (named_space space) addr) }
{
    let rows = host.routing(alloc)?;
    let asked = AddressQuery {
        space,
        addr,
        answer: host.claimant(space, addr),
    };
    let held = silent_holders(alloc, &asked, &rows)?;
    let told = causes_unless_at_reset(alloc, host, &rows, &asked, &held)?;
    let at_reset = count_as_at_reset(&asked, &held);
    Ok(Why {
        forwarders: forwarders(alloc, host, &rows, &asked)?,
        answer: asked.answer,
        told,
        at_reset,
    })
}
