//! Layer: board. Below: config_bytes, bars. Above: bridge_forward, guest_functions, accesses.
//!
//! The headers of PCI functions: the declarations of endpoints and bridges, their registers at
//! reset, and the decoded values of those registers (PCI Local Bus 3.0, chapter 6; PCI-to-PCI
//! Bridge Architecture 1.2, chapter 3).
#![tactic(auto)]

mod apertures;
mod bridge;
mod bridge_decl;
mod capabilities;
mod config_block;
mod config_register;
mod decodes;
mod endpoint;
mod endpoint_decl;
mod fault;
mod own_registers;
mod place;
mod region;
mod register_words;
mod registers;
mod table;
mod windows;

pub use apertures::{Aperture, ApertureFault, Apertures};
pub use bridge::{Bridge, io_window_rows, pref_window_rows, required_bridge_rows};
pub use bridge_decl::BridgeDecl;
pub use capabilities::{Capability, ListedCapability};
pub use config_block::ConfigBlock;
pub use config_register::ConfigRegister;
pub use decodes::{IoDecode, PrefDecode};
pub use endpoint::{Endpoint, endpoint_rows_without_bars};
pub use endpoint_decl::{EndpointDecl, EndpointValues};
pub use fault::DeclFault;
pub use own_registers::{UsesBars, have_valid_bar_registers};
pub use place::Place;
pub use region::{Region, bar_width_in_bytes};
pub use register_words::{command, status};
pub use registers::{Command, Status};
pub use windows::{io_window, mem_window, pref_window};
