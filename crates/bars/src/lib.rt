//! Layer: board. Below: model_registers. Above: headers.
//!
//! Base address registers of a function (PCI Local Bus Specification 3.0, section 6.2.5.1).
#![tactic(auto)]

mod bars;
mod base_registers;
mod decl;
mod extent;
mod lanes;
mod region;
mod sizing;

pub use bars::Bars;
pub use decl::{BarDecl, BarFault, Kind, Space};
pub use lanes::enabled_bits;
pub use region::BarWithBase;
pub use sizing::size_of_mask;
