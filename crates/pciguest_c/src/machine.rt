//! Calls on a machine, which is a board with its guests.
pub(crate) mod assignment;
pub(crate) mod functions;
pub(crate) mod guest_accesses;
pub(crate) mod guests;
pub(crate) mod host;
pub(crate) mod lifecycle;
pub(crate) mod limits;
pub(crate) mod load;
pub(crate) mod mismatch;
pub(crate) mod moved_regions;
pub(crate) mod regions;
pub(crate) mod reset;
pub(crate) mod save;
pub(crate) mod wide_accesses;
