//! The spaces in which a function has registers.

/// The space that an offset refers to: configuration space, or the block of the region whose BAR
/// has this index, 0 to 5.
#[derive(Clone, Copy, Debug, PartialEq, Eq)]
pub enum Place {
    Cfg,
    Bar(u8),
}
