//! Layer: program. Below: board_refusal, board_fit, session. Above: simulation, pciguest_c.
//!
//! Reports about a board, as lines or as JSON: the listing of a board file, and the errors in one.
//! Also explains why a guest's access reaches its target, by the guest's own functions and
//! CONFIG_ADDRESS only, and assigns numbers and messages to faults.
#![tactic(auto)]

ghost use Rattle.board_told.specs.Alone.{EqualGuests, EqualAlong};

mod checking;
mod closed;
mod fault;
mod finding;
mod finding_lines;
mod guest_why;
mod listing;

pub use board_fit::WarningLevel;
pub use checking::{Checked, check_board_file};
pub use closed::ClosedInSlot;
pub use diagnostics::MessageLayout;
pub use fault::Fault;
pub use finding::{Finding, WhyFault, find_target};
pub use guest_why::explain_guest_access;
pub use listing::list_board_file;
pub use monitor::{At, Monitor};

/// Establishes that a guest's explanations depend only on the guest's own functions and
/// CONFIG_ADDRESS. Two guests with equal state get equal explanations, on any boards and beside any
/// other guests. They still do after any sequences of requests whose effects on the two guests are
/// equal.
pub fn own_state_alone_decides_why()
    ensures equal { EqualGuests }
    ensures along { EqualAlong }
{}
