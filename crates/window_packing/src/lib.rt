//! Layer: set-up. Below: bus_scan. Above: claim_table, board_fit, report.
//!
//! Placement: chooses the addresses of all regions and bridge windows, and programs the registers
//! (PCI Local Bus 3.0, section 6.2.5; PCI-to-PCI Bridge Architecture 1.2, section 3.2.5).
//!
//! Sets up a host at reset, or fails with error 2xx. Afterwards the registers of the host
//! contain all addresses:
//!
//! ```
//! let ready = set_up(alloc, host)?;
//! let found = ready.table().rows().len();
//! let (mut host, _, _) = ready.into_parts();
//! let card = Bdf {
//!     bus: 0,
//!     device: 1,
//!     function: 0,
//! };
//! let base = host.config_read(card, 0x14, 0b1111);
//! ```
#![tactic(auto)]

mod board_plan;
mod bus_items;
mod bus_packs;
mod function_program;
mod item;
mod layout_row;
mod order;
mod pack;
mod planning;
mod pool;
mod pool_placement;
mod pool_uses;
mod programming;
mod ready;
mod rows;
mod search;
mod settings;
mod upstream_windows;

pub use board_plan::Plan;
pub use function_program::{FunctionProgram, RegisterValues, WindowSetting};
pub use layout_row::{Placed, PlanRow};
pub use model_set_up::flat_need;
pub use planning::plan;
pub use pool::Pool;
pub use pool_uses::{PoolUse, pool_use};
pub use programming::program;
pub use ready::{Ready, enumerate, set_up};
