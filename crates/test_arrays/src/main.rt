//! Layer: tests. Below: simulation, test_fakes.
//!
//! `test_arrays BOARD SCRIPT` runs a script on a board and prints the output. The script is read
//! from an array, and the output is written to an array first. Without arguments it prints nothing.
#![tactic(auto)]

mod in_arrays;

use crate::in_arrays::run_in_arrays;
use std::env;
use std::process::ExitCode;
use std::rt::{Env, Files};

/// Runs the script on the board that the arguments name. Returns None if the run ends in a fault.
fn run_from_args_if_any(rt: &(impl AllocGlobal + Env + Files + Print)) -> Option<()> {
    let words: Vec<String> = env::args(rt).ok()?.collect(rt.alloc()).ok()?;
    if words.len() < 3 {
        return Some(());
    }
    run_in_arrays(rt, words[1].as_str(), words[2].as_str()).ok()
}

fn main(rt: HostRuntime) -> ExitCode {
    match run_from_args_if_any(&rt) {
        Some(()) => ExitCode::SUCCESS,
        None => ExitCode::FAILURE,
    }
}
