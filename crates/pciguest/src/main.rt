//! Layer: program. Below: simulation.
//!
//! The program, which simulates a board, its guests and their accesses.
#![tactic(auto)]

use command_line::{WordsFault, choose};
use simulation::{
    Fault, InputStream, OutputStream, RunStats, bad_lines_text, fault_line, perform,
    printable_reason, read_board_or_hint, suggest_check_if_refused,
};
use std::io::IsTerminal;
use std::process::ExitCode;
use std::rt::{Env, Files};
use std::{env, io};

/// A fault, and the hint to print below its error message, if there is one.
#[derive(Drop)]
struct Failure {
    fault: Fault,
    hint: Option<String>,
}

impl From<Fault> for Failure {
    fn from(fault: Fault) -> Failure {
        Failure { fault, hint: None }
    }
}

/// Returns the name and the arguments of the program. An argument that isn't text is invalid.
fn collect_argv(rt: &(impl Env + AllocGlobal)) -> Result<Vec<String>, Fault> {
    match env::args(rt) {
        Ok(words) => words.collect(rt.alloc()).map_err(|_| Fault::WordMemory),
        Err(error) if error.kind() == io::ErrorKind::OutOfMemory => Err(Fault::WordMemory),
        Err(_) => Err(Fault::Usage),
    }
}

/// Returns the content of the board file at `path`.
fn read_board(rt: &(impl AllocGlobal + Files), path: &str) -> Result<Vec<u8>, Failure> {
    match read_board_or_hint(rt, rt.alloc(), path) {
        Ok(bytes) => Ok(bytes),
        Err(hint) => Err(Failure {
            fault: Fault::BoardFile,
            hint,
        }),
    }
}

/// Executes the command that the arguments select, over standard input and output. `is_terminal`
/// says whether the output is a terminal. `seen` receives the statistics about the lines.
fn run_command(
    rt: &(impl AllocGlobal + Files + Input + Print),
    words: &[&str],
    is_terminal: bool,
    seen: &mut RunStats,
) -> Result<(), Failure> {
    let alloc = rt.alloc();
    let choice = match choose(alloc, words, is_terminal) {
        Ok(choice) => choice,
        Err(WordsFault::Usage(why)) => {
            return Err(Failure {
                fault: Fault::Usage,
                hint: printable_reason(alloc, why.as_str()).ok(),
            });
        }
        Err(WordsFault::Memory) => return Err(Failure::from(Fault::WordMemory)),
    };
    let mut reader = InputStream::new(rt.reader());
    let mut writer = OutputStream::buffered(alloc, io::writer(rt))?;
    let board = match choice.board_path() {
        Some(path) => read_board(rt, path)?,
        None => Vec::new(alloc),
    };
    match perform(alloc, &choice, &board, seen, &mut reader, &mut writer) {
        Ok(()) => Ok(()),
        Err(fault) => Err(Failure {
            fault,
            hint: suggest_check_if_refused(alloc, &choice, fault).unwrap_or(None),
        }),
    }
}

/// Executes the program. `is_terminal` says whether the output is a terminal. `seen` receives the
/// statistics about the lines.
fn run_program(
    rt: &(impl Env + AllocGlobal + Files + Input + Print),
    is_terminal: bool,
    seen: &mut RunStats,
) -> Result<(), Failure> {
    let words = collect_argv(rt)?;
    let mut texts = Vec::new(rt.alloc());
    for word in &words {
        if texts.push(word.as_str()).is_err() {
            return Err(Failure::from(Fault::WordMemory));
        }
    }
    run_command(rt, texts.as_slice(), is_terminal, seen)
}

fn main(rt: HostRuntime) -> ExitCode {
    let mut seen = RunStats::new();
    let done = run_program(&rt, rt.stdout().is_terminal(), &mut seen);
    if let Ok(text) = bad_lines_text(rt.alloc(), &seen) {
        let _ = rt.eprint(text);
    }
    match done {
        Ok(()) => ExitCode::SUCCESS,
        Err(failure) => {
            let _ = rt.eprint(fault_line(failure.fault));
            if let Some(hint) = failure.hint {
                let _ = rt.eprint(hint);
            }
            ExitCode::FAILURE
        }
    }
}
