//! An entry of the claim table.

/// A region at its base address: its first address, its size in bytes, the index of its function in
/// the board's list of functions, and the index of its first BAR register (0 to 5).
#[derive(Clone, Copy)]
pub(crate) struct RegionEntry {
    pub(crate) first: u64,
    pub(crate) size: u64,
    pub(crate) function: usize,
    pub(crate) region: u8,
}
