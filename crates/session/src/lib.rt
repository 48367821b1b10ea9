//! Layer: program. Below: script, findings_render, json_texts, board_file. Above: board_told.
//!
//! Sessions over a board. Firmware drives the board by lines, from reset on, and can query the
//! audit, the readiness and the reason why an access goes where it goes. After the handover of the
//! board to its guests, the lines are those of a guest script.
//!
//! A call programs the bus numbers of a bridge, a line reads a function behind it, and a call
//! audits the registers:
//!
//! ```
//! let bridge = Bdf {
//!     bus: 0,
//!     device: 2,
//!     function: 0,
//! };
//! let at = HostAt::Config {
//!     bdf: bridge,
//!     off: 0x18,
//! };
//! let numbers = HostAccess { at, width: 4 };
//! let numbered = session
//!     .board()
//!     .map(|board| board.write(numbers, 0x0001_0100));
//! let mut text = LineText::new();
//! let more = session.run_line(b"host cr 01:00.0 0 4", &mut text)?;
//! let question = Question {
//!     report: Report::Audit,
//!     form: ReportForm::Lines,
//! };
//! let audit = session.ask(alloc, question, &apertures)?;
//! ```
#![tactic(auto)]

mod accessing;
mod asking;
mod board;
mod functions;
mod opening;
mod questions;
mod running;
mod session;
mod stage;
mod telling;

pub use accesses::{Bdf, HostAccess, HostAt, Reply};
pub use accessing::{read, write};
pub use board::Board;
pub use board_file::BoardFault;
pub use findings_render::CountedText;
pub use functions::DrivenFunction;
pub use headers::Apertures;
pub use host_bridge::Host;
pub use lines::{LineText, Report, RunFault};
pub use monitor::{HandoverFault, Monitor, Problem, Refused};
pub use opening::{OpenFault, set_up_file_and_assign};
pub use questions::{Question, ReportForm};
pub use running::run;
pub use session::{Session, SessionLines};
