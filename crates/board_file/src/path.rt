//! The paths of functions and slots.
pub(crate) mod marked;
pub mod places;
pub(crate) mod problems;
pub(crate) mod sets;
pub mod text;
