//! The handover of a board to its guests.
pub(crate) mod build;
pub(crate) mod disabled;
pub(crate) mod fault;
pub(crate) mod guest_records;
pub(crate) mod takeover;
