//! What is left to do before an operating system can use every function.
use crate::region::LiveBar;
use paths::Path;

/// A readiness issue, with the evidence for it.
#[derive(Debug, Drop)]
pub enum ReadinessIssue {
    /// A BAR whose space is disabled in Command.
    NotOpen {
        region: LiveBar,
    },
    /// An enabled BAR, and its lowest address outside the apertures of its space.
    OutsideApertures {
        region: LiveBar,
        address: u64,
    },
    /// An enabled memory BAR that isn't prefetchable, the first bridge above it that forwards part
    /// of it only through the prefetchable window, and the lowest address in that part.
    Prefetched {
        region: LiveBar,
        bridge: Path,
        address: u64,
    },
    /// A bridge, its Primary Bus Number, and the number of the bus that it is on.
    OtherPrimary {
        path: Path,
        held: u8,
        number: u8,
    },
}
