//! Explanations of an address: the BAR that answers, the bridges that forward the address, and the
//! causes that keep other BARs from answering.
use crate::region::LiveBar;
use bridge_forward::{Claim, Path, Window};

/// The kind of a bridge window.
#[derive(Clone, Copy, Debug, PartialEq, Eq)]
pub enum WindowName {
    Io,
    Memory,
    Prefetchable,
}

/// A window that a bridge implements, with its addresses. They are `None` if the window is
/// disabled, because its base is above its limit.
#[derive(Clone, Copy, Debug)]
pub struct NamedWindow {
    pub name: WindowName,
    pub window: Option<Window>,
}

/// The reason why a bridge doesn't forward an address.
#[derive(Clone, Copy, Debug)]
pub enum BlockReason {
    /// The bridge's Command register disables the space.
    Closes {
        command: u16,
    },
    /// None of the bridge's windows for the space contains the address. A bridge has at most two.
    Misses {
        one: Option<NamedWindow>,
        other: Option<NamedWindow>,
    },
}

/// A reason why a BAR doesn't answer an address that it contains.
#[derive(Debug, Drop)]
pub enum Cause {
    /// The function's Command register disables the space.
    ClosedBy {
        command: u16,
    },
    /// A bridge above the function doesn't forward the address.
    StoppedAt {
        bridge: Path,
        hindrance: BlockReason,
    },
}

/// A BAR that contains an address and doesn't answer, with the causes in order from the function up
/// to bus 0. Without a cause, the BAR would answer if no other BAR did.
#[derive(Debug, Drop)]
pub struct UnansweredRegion {
    pub region: LiveBar,
    pub causes: Vec<Cause>,
}

/// A bridge that forwards an address, and its Secondary Bus Number.
#[derive(Debug, Drop)]
pub struct Forwarder {
    pub path: Path,
    pub bus: u8,
}

/// The explanation of an address: the BAR that answers, each bridge that forwards the address, and
/// each other BAR that contains the address, in path order and then by BAR index. BARs in their
/// reset state are only counted.
#[derive(Debug, Drop)]
pub struct Why {
    pub answer: Option<Claim>,
    pub forwarders: Vec<Forwarder>,
    pub told: Vec<UnansweredRegion>,
    pub at_reset: usize,
}
