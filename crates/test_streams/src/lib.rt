//! Layer: tests. Below: simulation, test_fakes.
//!
//! Tests of behaviour that no contract states. `rt try --test` runs them, without proofs. Some
//! tests use streams in memory: failing streams, reads in pieces, buffered output, files, and the
//! places of values in a document. The others are below sessions: the state after a refused scan,
//! the examples in crate documentation, and worked examples of sizing, of a host from reset on, of
//! endpoints by path, and of claims.
#![tactic(auto)]

#[cfg(test)]
mod board;
#[cfg(test)]
mod buffered;
#[cfg(test)]
mod by_path;
#[cfg(test)]
mod claims;
#[cfg(test)]
mod examples;
#[cfg(test)]
mod failing_streams;
#[cfg(test)]
mod files;
#[cfg(test)]
mod hosts;
#[cfg(test)]
mod pieces;
#[cfg(test)]
mod places;
#[cfg(test)]
mod refused_scan;
#[cfg(test)]
mod scripts;
#[cfg(test)]
mod sizes;
