//! The slots of guests: assignment, moves and resets of functions.
pub(crate) mod assign_checks;
pub(crate) mod assign_error;
pub(crate) mod assigning;
pub(crate) mod assignment;
pub(crate) mod moving;
pub(crate) mod reset;
pub(crate) mod reset_guest;
