//! Narrows the search for address conflicts: a sweep through all claimed addresses in order finds
//! the buses on which addresses overlap.
ghost use Rattle.std.specs.{Prelude.{◌≡◌, ℕ, ◌++◌, ◌^◌, ◌<◌, IfOk, OnOk, IsTrue, map, filter}, Option.option_to_list, List.Sorted.{IsNonDecreasingBy, IsPermutation}};
ghost use Rattle.model_findings.specs.Problems.{contentions};
ghost use Rattle.findings.specs.Spans.{bus_hash, bus_and_space_hash, sort_key, window_span, agent_spans, spans_from, EndsBefore, contains_group, AreApartBut, is_crowded};

use crate::agent::Agent;
use bars::Space;
use bridge_forward::{Part, Window};
use std::alloc::{AllocError, Global};

/// A range of addresses that a responder claims. `agent` is the responder's index, `group` is a
/// hash of its bus and space, and `last` is inclusive.
#[derive(Clone, Copy)]
pub(crate) struct Span {
    pub(crate) agent: usize,
    pub(crate) group: u64,
    pub(crate) first: u64,
    pub(crate) last: u64,
}

/// Returns a hash of a bus. A collision is harmless: responders with equal hashes are only compared
/// more closely.
fn bus_hash(bus: &[Part]) -> u64
    ensures value { result ≡ bus_hash bus.now }
    ensures small { result < 2 ^ 32 }
{
    match bus {
        [] => 0,
        [part, bus @ ..] => {
            (u64::from(part.device()) * 8 + u64::from(part.function()) + 1 + bus_hash(bus) * 131)
                % 0x1_0000_0000
        }
    }
}

/// Returns a hash of a responder's bus and space.
fn bus_and_space_hash(agent: &Agent) -> u64
    ensures { result ≡ bus_and_space_hash agent.now }
{
    let space = match agent.space {
        Space::Io => 0,
        Space::Mem => 1,
    };
    bus_hash(agent.path.parent()) * 2 + space
}

/// Appends the addresses of a window, if there is one.
fn add_span_if_any(
    spans: &mut Vec<Span>,
    agent: usize,
    group: u64,
    window: Option<Window>,
) -> Result<(), AllocError>
    ensures { OnOk result (spans.new.items
        ≡ spans.old.items ++ map (window_span agent group) (option_to_list window)) }
{
    if let Some(window) = window {
        spans.push(Span {
            agent,
            group,
            first: window.first,
            last: window.last,
        })?;
    }
    Ok(())
}

/// Appends the addresses that a responder claims.
fn add_agent_spans(spans: &mut Vec<Span>, index: usize, agent: &Agent) -> Result<(), AllocError>
    ensures { OnOk result (spans.new.items ≡ spans.old.items ++ agent_spans index agent.now) }
{
    let group = bus_and_space_hash(agent);
    add_span_if_any(spans, index, group, agent.one)?;
    add_span_if_any(spans, index, group, agent.other)
}

/// Returns the addresses that all responders claim.
fn spans_of(alloc: Global, agents: &[Agent]) -> Result<Vec<Span>, AllocError>
    ensures { IfOk result (λ v. v.items ≡ spans_from 0 agents.now) }
{
    let mut spans = Vec::new(alloc);
    for (index, agent) in agents.iter().enumerate() {
        add_agent_spans(&mut spans, index, agent)?;
    }
    Ok(spans)
}

/// Returns the sort key of a span: its bus and space, then its first address.
fn sort_key(span: &Span) -> u128
    ensures { result ≡ sort_key span.now }
{
    u128::from(span.group) * 0x1_0000_0000_0000_0000 + u128::from(span.first)
}

/// Returns the addresses that all responders claim, in ascending order within each bus and space.
fn sorted_spans(alloc: Global, agents: &[Agent]) -> Result<Vec<Span>, AllocError>
    ensures all { IfOk result (λ v. IsPermutation (spans_from 0 agents.now) v.items) }
    ensures rising { IfOk result (λ v. IsNonDecreasingBy sort_key v.items) }
{
    let mut spans = spans_of(alloc, agents)?;
    spans.sort_unstable_by_key(|span| sort_key(span));
    Ok(spans)
}

/// Returns whether a span ends before the next one begins, or belongs to another bus or space.
fn is_apart_from_next(before: Span, here: Span) -> bool
    ensures { IsTrue result → EndsBefore before here }
{
    before.group != here.group || before.last < here.first
}

/// Appends a group, unless it is the last one in the list.
fn add_unless_last(groups: &mut Vec<u64>, group: u64) -> Result<(), AllocError>
    ensures added { OnOk result (IsTrue (contains_group groups.new.items group)) }
    ensures kept { OnOk result ((g : ℕ) → IsTrue (contains_group groups.old.items g) →
        IsTrue (contains_group groups.new.items g)) }
{
    if groups.last() == Some(&group) {
        return Ok(());
    }
    groups.push(group)?;
    Ok(())
}

/// Returns the groups in which a span overlaps the next one.
fn overlapping_group_hashes(alloc: Global, spans: &[Span]) -> Result<Vec<u64>, AllocError>
    ensures { IfOk result (λ v. AreApartBut v.items spans.now) }
{
    let mut groups = Vec::new(alloc);
    for index in 1..spans.len() {
        if !is_apart_from_next(spans[index - 1], spans[index]) {
            add_unless_last(&mut groups, spans[index].group)?;
        }
    }
    Ok(groups)
}

/// Returns whether the list contains a group.
fn contains_group(groups: &[u64], group: u64) -> bool
    ensures { result ≡ contains_group groups.now group }
{
    groups.iter().any(|crowded| *crowded == group)
}

/// Returns the responders in groups whose addresses overlap. All other responders share no address
/// with any responder on their bus.
pub(crate) fn overlapping_agents(alloc: Global, agents: &[Agent]) -> Result<Vec<Agent>, AllocError>
    ensures { IfOk result (λ v. contentions v.items ≡ contentions agents.now) }
{
    let spans = sorted_spans(alloc, agents)?;
    let groups = overlapping_group_hashes(alloc, &spans)?;
    agents_in_groups(alloc, agents, &groups)
}

/// Returns the responders in the given groups.
fn agents_in_groups(
    alloc: Global,
    agents: &[Agent],
    groups: &[u64],
) -> Result<Vec<Agent>, AllocError>
    ensures { IfOk result (λ v. v.items ≡ filter (is_crowded groups.now) agents.now) }
{
    let mut crowded = Vec::new(alloc);
    for agent in agents {
        if contains_group(groups, bus_and_space_hash(agent)) {
            crowded.push(agent.copied())?;
        }
    }
    Ok(crowded)
}
