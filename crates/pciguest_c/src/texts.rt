//! Calls that run lines or write texts.
pub(crate) mod audit;
pub(crate) mod forms;
pub(crate) mod reports;
pub(crate) mod run_line;
pub(crate) mod why;
