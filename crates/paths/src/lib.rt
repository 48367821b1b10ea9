//! Layer: board. Below: model_board. Above: bridge_forward, intx_swizzle, guest_functions, accesses.
//!
//! The location of a function: its path from bus 0, its BDF, and the CONFIG_ADDRESS register that
//! selects it.
#![tactic(auto)]

mod bdf;
mod latch;
mod path;

pub use bdf::Bdf;
pub use latch::{Latch, Select, is_address_port};
pub use path::{Part, Path};
