//! The monitor's records of guests and their functions.
use bars::BarWithBase;
use guest_functions::{Latch, VirtualFunction};

/// A function in a guest's slot: the guest's copies of registers, and the function's index and
/// regions on the board.
#[derive(Drop)]
pub(crate) struct AssignedFunction {
    /// The guest's Command and base address registers.
    pub(crate) own: VirtualFunction,
    /// The regions with their bases at handoff, each at the index of its first base address
    /// register.
    pub(crate) placed: [Option<BarWithBase>; 6],
    /// The function's index on the host.
    pub(crate) index: usize,
}

/// A guest: its CONFIG_ADDRESS, its 32 slots, and its change count.
#[derive(Drop)]
pub(crate) struct Guest {
    pub(crate) latch: Latch,
    pub(crate) slots: Vec<Option<AssignedFunction>>,
    pub(crate) changed: u64,
}
