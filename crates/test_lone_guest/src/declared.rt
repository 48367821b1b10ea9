//! Declarations of guests' functions, as unvalidated numbers.
use crate::register::Register;
use bars::Kind;

/// A region: the index of its first base address register, its kind, its size, and the bytes at its
/// start.
#[derive(Drop)]
pub struct LoneRegion {
    pub index: u8,
    pub kind: Kind,
    pub size: u64,
    pub block: Vec<Register>,
}

/// Consecutive device-specific registers in configuration space, from an offset on.
#[derive(Drop)]
pub struct LoneBlock {
    pub off: u8,
    pub block: Vec<Register>,
}

/// An endpoint: the declared values in its header, its regions and its device-specific registers.
#[derive(Drop)]
pub struct LoneEndpoint {
    /// The declared registers: offset, width in bytes, value at reset, and the bits cleared by
    /// writing a one.
    pub header: Vec<[u64; 4]>,
    pub bar: Vec<LoneRegion>,
    pub config: Vec<LoneBlock>,
}
