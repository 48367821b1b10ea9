//! Layer: lines. Below: model_lines, accesses, streams. Above: script, command_line.
//!
//! The line languages of scripts and firmware: parsing of lines and formatting of replies.
//!
//! Also runs lines against any server that answers them, piece by piece as they are read, and
//! records whether any of them was refused.
#![tactic(auto)]

mod answers;
mod cursor;
mod firmware_line;
mod forms;
mod line;
mod numbers;
mod pending;
mod pieces;
mod reasons;
mod replies;
mod requests;
mod runs;
mod watching;
mod words;

pub use answers::{Answer, Answers};
pub use firmware_line::{FirmwareCommand, parse_firmware_line};
pub use line::{LONGEST_LINE, Line, What, Who, parse_line, parse_line_meaning};
pub use reasons::{Reason, line_error_or_empty};
pub use replies::{
    LONGEST_REPLY, LineText, reply_line_text, write_named_reply_line, write_reply_line,
};
pub use requests::{HostRequest, Report};
pub use runs::{RunFault, run};
pub use watching::{BadLine, RunStats, run_watched};
pub use words::find_line_feed;
