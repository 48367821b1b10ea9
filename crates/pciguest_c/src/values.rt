//! Conversions between the values of C and those of the crates below.
pub(crate) mod arguments;
pub(crate) mod bytes;
pub(crate) mod function_row;
pub(crate) mod interrupts;
pub(crate) mod numbers;
