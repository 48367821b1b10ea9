//! Layer: board. Below: paths, headers. Above: host_bridge.
//!
//! The functions of a board as a tree of buses: configuration cycles, forwarding and claims.
#![tactic(auto)]

mod blocks;
mod bridge;
mod build;
mod bus;
mod by_index;
mod cycle;
mod decl;
mod endpoint;
mod function;
mod offsets;
mod places;
mod routes;
mod routing;
mod routing_region;
mod walk;

pub use bus::{BarOffset, Bus, Claim};
pub use by_index::ProgrammedRanges;
pub use cycle::{Cycle, CycleType};
pub use decl::{Decl, Declared, is_lawful_board};
pub use endpoint::EndpointFn;
pub use paths::{Part, Path};
pub use places::{HasPath, are_lawful_places};
pub use routing::{Ranges, RoutingRow, Window};
pub use routing_region::RoutingRegion;
