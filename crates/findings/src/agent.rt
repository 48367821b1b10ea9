//! Responders: the BARs and bridges that may claim addresses on a bus.
ghost use Rattle.std.specs.{Prelude.◌≡◌, List.list_any};
ghost use Rattle.bars.specs.Kinds.{named_space};
ghost use Rattle.model_board.specs.Paths.{path_eq};
ghost use Rattle.model_findings.specs.Agents.{extent_holds, region_agent, bridge_agent, on_one_bus};

use crate::region::{LiveBar, bar_extent};
use crate::row::{either_holds, forwarding_windows};
use bars::Space;
use bridge_forward::{Part, Path, RoutingRow, Window};
use std::marker::Model;

/// A responder, which the definitions and the JSON output call an agent: an enabled BAR with its
/// index, or a bridge in one of the two address spaces. It has the addresses that it claims. A
/// bridge may have two windows for memory.
#[derive(Debug, Drop)]
pub struct Agent {
    pub path: Path,
    pub register: Option<u8>,
    pub space: Space,
    pub one: Option<Window>,
    pub other: Option<Window>,
}

impl Model for Agent {
    ghost use Rattle.model_findings.specs.Agents.{Agent as AgentValue};
    ghost use Rattle.bars.specs.Kinds.{named_space};
    ghost use Rattle.findings.specs.Extents.{extents_of};

    ghost Value = { AgentValue };

    ghost view = { λ a. record {
      path = a.path;
      register = a.register;
      space = named_space a.space;
      extents = extents_of a.one a.other;
    } };
}

impl Agent {
    /// Returns the responder for an enabled BAR.
    pub(crate) fn of_region(region: &LiveBar) -> Agent
        ensures { result ≡ region_agent region.now }
    {
        Agent {
            path: region.path.copied(),
            register: Some(region.region.index),
            space: region.region.kind.space(),
            one: Some(bar_extent(region.region)),
            other: None,
        }
    }

    /// Returns the responder for a bridge in one address space.
    pub(crate) fn of_bridge(row: &RoutingRow, space: Space) -> Agent
        ensures { result ≡ bridge_agent row.now (named_space space) }
    {
        let (one, other) = forwarding_windows(row, space);
        Agent {
            path: row.path.copied(),
            register: None,
            space,
            one,
            other,
        }
    }

    /// Returns a copy of the responder.
    pub(crate) fn copied(&self) -> Agent
        ensures { result ≡ self.now }
    {
        Agent {
            path: self.path.copied(),
            register: self.register,
            space: self.space,
            one: self.one,
            other: self.other,
        }
    }

    /// Returns whether the responder claims an address of its own space.
    pub(crate) fn claims_address(&self, addr: u64) -> bool
        ensures { result ≡ list_any (extent_holds addr) self.now.extents }
    {
        either_holds(self.one, self.other, addr)
    }

    /// Returns whether both responders are on the same bus.
    pub(crate) fn is_on_same_bus(&self, other: &Agent) -> bool
        ensures { result ≡ on_one_bus self.now other.now }
    {
        is_same(self.path.parent(), other.path.parent())
    }
}

/// Returns whether two bus paths are equal.
fn is_same(xs: &[Part], ys: &[Part]) -> bool
    ensures { result ≡ path_eq xs.now ys.now }
{
    match xs {
        [] => ys.is_empty(),
        [x, xs @ ..] => match ys {
            [] => false,
            [y, ys @ ..] => x == y && is_same(xs, ys),
        },
    }
}
