//! Layer: board. Below: bridge_forward. Above: bus_scan, findings, images, board_file.
//!
//! The host bridge: configuration accesses through CONFIG_ADDRESS and CONFIG_DATA, I/O ports and
//! memory (PCI Local Bus 3.0, section 3.2.2.3.2).
//!
//! Software identifies a function by configuration cycles, programs and enables its BARs, and then
//! accesses it at its address:
//!
//! ```
//! let card = Bdf {
//!     bus: 0,
//!     device: 1,
//!     function: 0,
//! };
//! let identity = host.config_read(card, 0, 0b1111);
//! host.config_write(card, 0x14, 0b1111, 0xc000_0000);
//! host.config_write(card, 4, 0b0011, 2);
//! host.store(&TreeWalk, 0xc000_0010, 4, 0x1234_5678);
//! let low_half = host.load(&TreeWalk, 0xc000_0010, 2);
//! ```
#![tactic(auto)]

mod by_index;
mod by_path;
mod host;
mod latch;
mod route;

pub use bars::Space;
pub use bridge_forward::{BarOffset, Claim, Path, ProgrammedRanges};
pub use host::Host;
pub use paths::Bdf;
pub use route::{Route, TreeWalk};
