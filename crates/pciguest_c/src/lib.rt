//! Layer: program. Below: board_told.
//!
//! The calls of the C library, on a machine made from a board file, or on its board at reset.
#![tactic(auto)]

mod board;
mod handle;
mod machine;
mod owner;
mod texts;
mod unboxed;
mod values;
