//! Layer: words. Above: model_registers.
//!
//! List functions for definitions, and lemmas about lists and tests of their elements for proofs.
//! The crate contains no code and no contracts.
#![tactic(auto)]
