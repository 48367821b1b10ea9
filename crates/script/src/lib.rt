//! Layer: lines. Below: monitor, lines. Above: session.
//!
//! Runs scripts on the monitor, piece by piece as they are read.
#![tactic(auto)]

mod answers;
mod script_run;

pub use answers::{Script, answer_line, execute_line_meaning, refusal_number, run_line};
pub use lines::{Line, LineText, RunFault, What, Who, parse_line};
pub use monitor::Monitor;
pub use script_run::run;
