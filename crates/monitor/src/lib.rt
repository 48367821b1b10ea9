//! Layer: guests. Below: findings, claim_table, images, accesses. Above: script.
//!
//! The monitor, which assigns functions of a board to guests and answers their accesses.
//!
//! Guest 0 reads the identity of the function in its slot 0, and the host reads the board's memory:
//!
//! ```
//! let identity = Access {
//!     at: At::Config { slot: 0, off: 0 },
//!     width: 4,
//!     op: Op::Read,
//! };
//! let reply = monitor.step(0, identity);
//! let at = HostAt::Mem { addr: 0xc010_0000 };
//! let seen = monitor.host_read(HostAccess { at, width: 4 });
//! ```
#![tactic(auto)]

mod access;
mod device;
mod engine;
mod guest;
mod handover;
mod monitor;
mod queries;
mod saved;
mod slots;

pub use accesses::{
    Access, At, Bdf, GuestDecl, HostAccess, HostAt, Names, Op, Place, Refusal, Reply,
};
pub use bars::Space;
pub use engine::Engine;
pub use findings::{Problem, ReadinessIssue};
pub use handover::fault::{HandoverFault, Refused};
pub use images::ImageFault;
pub use monitor::Monitor;
pub use queries::functions::LiveFunction;
pub use queries::locate::DecodedByte;
pub use queries::own_registers::OwnRegisters;
pub use queries::regions::GuestRegion;
pub use saved::mismatch::ImageStop;
pub use slots::assign_error::AssignError;
pub use slots::assignment::Assignment;
