//! Layer: files. Below: window_packing, diagnostics. Above: board_told.
//!
//! Judges the board of an accepted file: whether it can be set up, how much of each aperture it
//! needs, and which entries are likely mistakes or cause a fault. Each remark has a place in the
//! file.
#![tactic(auto)]

mod judging;
pub mod laws;
mod misfit;
mod path_sets;
mod placed_remark;
mod pool_fit;
mod remark;
mod rendering;
mod warning_level;
mod warnings;

pub use judging::{Verdict, judge};
pub use placed_remark::PlacedRemark;
pub use pool_fit::PoolFit;
pub use remark::Remark;
pub use rendering::verdict_text;
pub use warning_level::WarningLevel;
