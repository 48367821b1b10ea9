//! Queries that change nothing.
pub(crate) mod audit;
pub(crate) mod board;
pub(crate) mod functions;
pub(crate) mod locate;
pub(crate) mod own_registers;
pub(crate) mod regions;
