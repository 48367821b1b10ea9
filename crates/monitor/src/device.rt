//! Device-side accesses to the registers of a function.
pub(crate) mod raise;
pub(crate) mod registers;
