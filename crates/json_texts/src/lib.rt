//! Layer: program. Below: findings, report. Above: session.
//!
//! Reports about a board as JSON, each on one line: its functions with capability lists, BARs,
//! interrupts and windows, and its guests; the problems and readiness issues in its current
//! registers, each with the evidence for it; and explanations of an address, a port or a BDF.
#![tactic(auto)]

mod function_parts;
mod functions;
mod guests;
mod has_value;
mod problem_parts;
mod problems;
mod problems_object;
mod readiness_issues;
mod report_object;
mod why;

pub use findings::{Problem, ReadinessIssue};
pub use has_value::{HasValue, values};
pub use problem_parts::bdf_value;
pub use problems_object::{problems_json, readiness_json};
pub use report_object::report_json;
pub use why::{explanation_json, host_explanation_json};
