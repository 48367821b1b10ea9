//! The functions of a board: endpoints with the tables inside them, and bridges.
pub(crate) mod bar;
pub mod blocks;
pub(crate) mod bridge;
pub(crate) mod capability;
pub(crate) mod config;
pub(crate) mod endpoint;
pub(crate) mod numbers;
pub(crate) mod part;
