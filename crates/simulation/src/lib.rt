//! Layer: program. Below: command_line, board_told. Above: pciguest.
//!
//! The commands of the program, over bytes, a reader and a writer. They report or check a board
//! file, run a script on its board or on the demo board, or run a firmware session on its board
//! from reset, with an audit or a readiness report at the end if requested. The crate also contains
//! the error messages about faults, their hints, and the theorem of two worlds, which is only about
//! the definitions.
#![tactic(auto)]

mod bad_lines;
mod checking;
mod choice;
mod demonstration;
mod fault_lines;
mod files;
mod hints;
mod listing;
mod running;
mod serving;
mod standard_streams;

pub use bad_lines::bad_lines_text;
pub use board_fit::WarningLevel;
pub use board_told::{Checked, Fault, check_board_file, list_board_file};
pub use checking::check;
pub use choice::perform;
pub use command_line::Choice;
pub use demonstration::demo;
pub use diagnostics::MessageLayout;
pub use fault_lines::fault_line;
pub use files::{board_bytes, read_board_or_hint};
pub use hints::{printable_reason, suggest_check_if_refused};
pub use lines::RunStats;
pub use listing::list;
pub use model_guests::two_worlds;
pub use monitor::Monitor;
pub use running::whole;
pub use serving::run_firmware_session;
pub use session::{Question, ReportForm};
pub use standard_streams::{InputStream, OutputStream};
