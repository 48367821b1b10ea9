//! The TOML document of a board file: its keys, its tables and their values.
pub(crate) mod key_problems;
pub mod keys;
pub(crate) mod keywords;
pub(crate) mod reading;
pub mod schema;
pub mod tables;
