//! Strategies for finding the region that claims an address.
ghost use Rattle.std.specs.Prelude.{◌≡◌, ◌<◌, IfSome, length};
ghost use Rattle.bars.specs.Kinds.{named_space};
ghost use Rattle.model_board.specs.{Claims.first_claim, Routing.routing};
ghost use Rattle.bridge_forward.specs.Locating.{located_claim};
ghost use Rattle.host_bridge.specs.HostState.{HostState};

use crate::host::Host;
use bars::Space;
use bridge_forward::{BarOffset, Claim};

/// A strategy for finding the first claim of an address.
pub trait Route {
    /// The hosts for which the results of this route are correct.
    ghost fits: { Self → HostState → Type 0 };

    /// Returns the first claim of the address, by path order and then by BAR register.
    fn claimant(&self, host: &Host, space: Space, addr: u64) -> Option<Claim>
        requires { fits self.now host.now }
        ensures { result ≡ first_claim host.now.state.functions (named_space space) addr };

    /// Returns the first claim of the address, with the index of its endpoint in the host's list of
    /// functions.
    fn claimed_bar_offset(&self, host: &Host, space: Space, addr: u64) -> Option<BarOffset>
        requires { fits self.now host.now }
        ensures claim { let fs = host.now.state.functions in
            located_claim fs result ≡ first_claim fs (named_space space) addr }
        ensures within { IfSome result (λ l. l.index < length host.now.state.functions) }
    {
        let Claim {
            path,
            region,
            offset,
        } = self.claimant(host, space, addr)?;
        let index = host.index_of(&path)?;
        Some(BarOffset {
            index,
            region,
            offset,
        })
    }

    /// Whether a route fits a host depends only on the host's routing registers: it also fits every
    /// host with equal ones.
    ghost by_routing: { (route : Self) (h k : HostState)
        → routing h.state.functions ≡ routing k.state.functions → fits route h →
        fits route k };
}

/// Walks the tree of buses for every lookup. Fits every host.
#[derive(Clone, Copy, Debug)]
pub struct TreeWalk;

impl Route for TreeWalk {
    ghost fits = { λ _ _. Unit {0} };

    ghost by_routing = { λ _ _ _ _ _. tt };

    fn claimant(&self, host: &Host, space: Space, addr: u64) -> Option<Claim> {
        host.claimant(space, addr)
    }

    fn claimed_bar_offset(&self, host: &Host, space: Space, addr: u64) -> Option<BarOffset> {
        host.find_bar_offset(space, addr)
    }
}
