//! Layer: program. Below: model_handoff, window_packing, intx_swizzle, accesses. Above: findings_render, json_texts.
//!
//! The report of a board after set-up: its functions with their regions, interrupt routing and
//! windows, and its guests.
#![tactic(auto)]

mod board_report;
mod fields;
mod lines;

pub use board_report::{count_bridges, count_endpoints, report_text};
pub use fields::{FourHexDigits, Numbers, ShownPath, TwoHexDigits, kind_text};
pub use lines::pin_text;
