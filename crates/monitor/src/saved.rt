//! Saved states of guests.
pub(crate) mod load;
pub(crate) mod load_function;
pub(crate) mod mismatch;
pub(crate) mod save;
