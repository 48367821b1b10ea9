//! Layer: tests. Below: streams.
//!
//! A reader and a writer in memory for tests.
#![tactic(auto)]

mod fakes;

pub use fakes::{FakeReader, FakeWriter};
