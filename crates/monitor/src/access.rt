//! Guests' accesses: address decoding, configuration space, CONFIG_ADDRESS and change counts.
pub(crate) mod change_count;
pub(crate) mod config;
pub(crate) mod config_address;
pub(crate) mod decode;
pub(crate) mod region_byte;
