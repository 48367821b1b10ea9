//! Layer: files. Below: diagnostics. Above: board_told.
//!
//! Error messages for a board file that is refused: for each problem its place in the file, a
//! sentence, and a remedy. Problems of values are reported only when the keys have none.
#![tactic(auto)]

mod helps;
mod key_causes;
mod others;
mod parts;
mod path_causes;
mod placed_breach;
mod problems;
mod refusals;
mod sentences;
mod value_causes;

pub use placed_breach::PlacedBreach;
pub use problems::problems_reported_with;
pub use refusals::{refusal_report, toml_error_message};
