//! Layer: findings. Below: model_lines, host_bridge. Above: findings_render, monitor, json_texts.
//!
//! Diagnoses the current registers of a board. An audit finds the problems: enabled BARs that
//! aren't forwarded, address conflicts on a bus, and functions that no configuration cycle reaches.
//! A second list has the readiness issues: disabled BARs, BARs outside the apertures, BARs that are
//! prefetched but mustn't be, and wrong Primary Bus Numbers.
//!
//! Also explains the result of an access. For a memory address or an I/O port, names the BAR that
//! answers and what keeps every other BAR that contains the address from answering. For a BDF,
//! names the bridges that claim the configuration cycle and what is missing at its end.
//!
//! Calls that don't allocate return a function's identity, its BDF and the text of its path.
#![tactic(auto)]

mod address_why;
mod agent;
mod agents;
mod audit;
mod bridge_violation;
mod bus_addresses;
mod causes;
mod contention;
mod cycle_way;
mod forwarding;
mod hindering;
mod holding;
mod identities;
mod missed_address;
mod number_why;
mod numbering;
mod outside_apertures;
mod path_texts;
mod port_why;
mod prefetching;
mod primaries;
mod problem;
mod readiness;
mod readiness_issue;
mod region;
mod regions;
mod row;
mod span;
mod stopping;
mod why_forwarding;

pub use address_why::why_address;
pub use agent::Agent;
pub use audit::problems;
pub use bus_addresses::address_of;
pub use causes::{BlockReason, Cause, Forwarder, NamedWindow, UnansweredRegion, Why, WindowName};
pub use host_bridge::{Bdf, Host, Space};
pub use identities::{Identity, identity_nth};
pub use number_why::{Missing, WhyNumber, why_number};
pub use path_texts::{PathBytes, path_text};
pub use port_why::{PortUse, port_use};
pub use problem::Problem;
pub use readiness::{is_ready, readiness_issues};
pub use readiness_issue::ReadinessIssue;
pub use region::LiveBar;
pub use row::{enables_space, is_in_window};
