//! Layer: files. Below: host_bridge, accesses. Above: diagnostics, session.
//!
//! Board files: TOML documents that declare the functions of a board, the address apertures for
//! set-up, and the guests.
#![tactic(auto)]

mod apertures;
mod board;
mod checks;
pub mod document;
pub mod entries;
mod entry;
mod fault;
mod finding;
pub mod functions;
mod guests;
pub mod laws;
pub mod path;
mod rule;
mod source;

pub use checks::checks_before_masks;
pub use entry::{EndpointPart, Entry};
pub use fault::BoardFault;
pub use finding::Violation;
pub use rule::Rule;
pub use source::{Source, read_board};
