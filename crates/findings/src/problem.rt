//! Problems in the registers of a board.
use crate::agent::Agent;
use crate::region::LiveBar;
use host_bridge::Bdf;
use paths::Path;

/// A problem, with the evidence for it.
#[derive(Debug, Drop)]
pub enum Problem {
    /// An enabled BAR, the first bridge above it that doesn't forward all of it, and the lowest
    /// address that isn't forwarded.
    NotForwarded {
        region: LiveBar,
        bridge: Path,
        address: u64,
    },
    /// Two responders on the same bus, and the lowest address that both claim.
    Contended {
        one: Agent,
        other: Agent,
        address: u64,
    },
    /// A function that isn't reached by its BDF, and the function that configuration accesses to
    /// this BDF reach instead, if any.
    NotFound {
        path: Path,
        address: Bdf,
        instead: Option<Path>,
    },
}
