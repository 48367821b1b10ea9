//! Layer: set-up. Below: model_set_up, host_bridge. Above: window_packing.
//!
//! Enumeration by configuration cycles only: finds the functions of a board, assigns bus numbers,
//! and sizes BARs and windows (PCI Local Bus 3.0, sections 6.2.1 and 6.2.5.1; PCI-to-PCI Bridge
//! Architecture 1.2, section 3.2.5).
#![tactic(auto)]

mod bus_parts;
mod enumeration;
mod fault;
mod probed_header;
mod sizing;
mod table;

pub use enumeration::scan;
pub use fault::Fault;
pub use sizing::size_all;
pub use table::{Enumerated, EnumeratedFunction, FunctionTable};
