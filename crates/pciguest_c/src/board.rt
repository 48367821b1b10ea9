//! Calls on a board that firmware drives.
pub(crate) mod firmware_accesses;
pub(crate) mod functions;
pub(crate) mod handover;
pub(crate) mod lifecycle;
pub(crate) mod recreate;
pub(crate) mod set_up;
