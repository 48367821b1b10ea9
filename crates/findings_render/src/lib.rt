//! Layer: findings. Below: findings, report. Above: session.
//!
//! Renders findings about a board as lines of text: a line for each problem and each readiness
//! issue in the current registers, and a last line that counts them.
//!
//! Also renders the explanation of an address, an I/O port or a BDF: a line for the target of the
//! access, and a line for each cause.
#![tactic(auto)]

mod counted;
mod counts;
mod issue_lines;
mod problem_lines;
mod region_texts;
mod why_address_lines;
mod why_line;
mod why_lines;
mod why_number_lines;
mod why_parts;
mod why_port_lines;
mod why_texts;

pub use accesses::HostAt;
pub use counted::CountedText;
pub use findings::{Bdf, Problem, ReadinessIssue};
pub use host_bridge::Host;
pub use problem_lines::push_problem_line;
pub use region_texts::shown_bdf;
pub use why_parts::ShownDisabled;
pub use why_texts::{host_why_text, push_port_line_if_any};
