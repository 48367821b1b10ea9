//! Layer: program. Below: lines. Above: simulation.
//!
//! The command line: the command that the arguments select, the help texts, and the reason why
//! arguments are invalid.
#![tactic(auto)]

mod choice;
mod commands;

pub use choice::{Choice, WordsFault, choose};
