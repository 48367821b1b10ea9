//! Layer: set-up. Below: model_findings, window_packing. Above: monitor.
//!
//! A flat table that finds the region claiming an address, for boards that are set up or
//! consistently routed (PCI-to-PCI Bridge Architecture 1.2, chapter 4).
#![tactic(auto)]

mod open_regions;
mod region_entry;
mod search;
mod table;

pub use table::Table;
