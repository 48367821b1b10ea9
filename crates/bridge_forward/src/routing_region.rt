//! A region at its programmed base address.
ghost use Rattle.std.specs.Prelude.{◌+◌, ◌<◌, ◌≤◌, ◌^◌};

use bars::Kind;

/// A region of an endpoint: the index of its first BAR register (0 to 5), its kind, its size in
/// bytes, and the base address in the register.
#[derive(Clone, Copy, Debug)]
pub struct RoutingRegion {
    pub index: u8,
    pub kind: Kind,
    pub size: u64,
    pub base: u64,
    pub ghost some: { 0 < size },
    pub ghost fits: { base + size ≤ 2 ^ 64 },
}
