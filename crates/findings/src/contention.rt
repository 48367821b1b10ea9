//! Finds address conflicts between responders on the same bus.
ghost use Rattle.std.specs.{Prelude.{◌≡◌, ◌++◌, ◌&&◌, map, filter, flat_map, OnOk, IsTrue}, Option.{option_map, option_to_list}};
ghost use Rattle.model_registers.specs.Decoding.{same_space};
ghost use Rattle.model_findings.specs.{Agents.answers, Problems.{shared, contention, contentions}};
ghost use Rattle.findings.specs.{Extents.extent_of, Findings.problem_of};

use crate::agent::Agent;
use crate::missed_address::min_of_present;
use crate::problem::Problem;
use crate::row::is_same_space;
use bridge_forward::Window;
use std::alloc::AllocError;

/// Returns the first address of a window if both responders claim it.
fn window_start_if_shared(one: &Agent, other: &Agent, window: Option<Window>) -> Option<u64>
    requires { IsTrue (same_space one.now.space other.now.space) }
    ensures { option_to_list result
        ≡ filter (λ n. answers one.now.space n one.now && answers one.now.space n other.now)
        (map (λ e. e.first) (option_to_list (option_map extent_of window))) }
{
    let first = window?.first;
    if one.claims_address(first) && other.claims_address(first) {
        Some(first)
    } else {
        None
    }
}

/// Returns the lowest address that both responders claim.
fn lowest_shared_address(one: &Agent, other: &Agent) -> Option<u64>
    ensures { result ≡ shared one.now other.now }
{
    if !is_same_space(one.space, other.space) {
        return None;
    }
    let third = window_start_if_shared(one, other, other.one);
    let fourth = window_start_if_shared(one, other, other.other);
    let second = window_start_if_shared(one, other, one.other);
    let first = window_start_if_shared(one, other, one.one);
    min_of_present(first, min_of_present(second, min_of_present(third, fourth)))
}

/// Returns the conflict between two responders, if they are on the same bus and share an address.
fn contention(one: &Agent, other: &Agent) -> Option<Problem>
    ensures { option_to_list (option_map problem_of result) ≡ contention one.now other.now }
{
    if !one.is_on_same_bus(other) {
        return None;
    }
    let address = lowest_shared_address(one, other)?;
    Some(Problem::Contended {
        one: one.copied(),
        other: other.copied(),
        address,
    })
}

/// Appends the conflicts between a responder and those after it in the list.
fn add_contentions(told: &mut Vec<Problem>, one: &Agent, others: &[Agent]) -> Result<(), AllocError>
    ensures { OnOk result (map problem_of told.new.items
        ≡ map problem_of told.old.items ++ flat_map (contention one.now) others.now) }
{
    for other in others {
        if let Some(problem) = contention(one, other) {
            told.push(problem)?;
        }
    }
    Ok(())
}

/// Appends the conflicts between all pairs of responders.
pub(crate) fn add_all_contentions(
    told: &mut Vec<Problem>,
    agents: &[Agent],
) -> Result<(), AllocError>
    ensures { OnOk result (map problem_of told.new.items
        ≡ map problem_of told.old.items ++ contentions agents.now) }
{
    let mut left = agents;
    while let Some((one, rest)) = left.split_first() {
        add_contentions(told, one, rest)?;
        left = rest;
    }
    Ok(())
}
