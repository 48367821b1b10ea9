//! Layer: guests. Below: model_guests, paths, headers. Above: monitor, lines, board_file, report.
//!
//! Accesses of guests and the host, replies, refusals, and guest declarations.
#![tactic(auto)]

mod access;
mod checks;
mod guest;
mod refusal;

pub use access::{Access, At, HostAccess, HostAt, Reply};
pub use checks::master_abort_reply;
pub use config_bytes::Op;
pub use guest::{GuestDecl, Names};
pub use headers::Place;
pub use paths::Bdf;
pub use refusal::Refusal;
