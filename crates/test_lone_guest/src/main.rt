//! Layer: tests. Below: lines.
//!
//! A slow reference model of guests, only for tests. Each guest is nothing but its functions, each
//! with a register file of its own, without a board or a monitor. The model was written
//! independently of the monitor. It shares with the monitor only the types of accesses and replies,
//! the parser of lines and the text of replies. Its contracts state what safety needs, and nothing
//! about the replies.
//!
//! `test_lone_guest GUESTS < SCRIPT` prints the model's replies to a script, where GUESTS is a file
//! of guests with their endpoints. Reads by the host have no output. Without an argument it prints
//! nothing.
#![tactic(auto)]

mod declarations;
mod declared;
mod file;
mod function;
mod guests;
mod register;

use crate::declarations::{Declared, parse_guests};
use crate::guests::LoneGuests;
use accesses::Names;
use std::alloc::Global;
use std::io::{BufWriter, Read, Write};
use std::process::ExitCode;
use std::rt::{Env, Files};
use std::{env, fs, io};

/// Reads the file at a path.
fn read_file(rt: &impl Files, alloc: Global, path: &str) -> Option<Vec<u8>> {
    let mut file = fs::open(rt, path).ok()?;
    let mut bytes = Vec::new(alloc);
    file.read_to_end(&mut bytes).ok()?;
    Some(bytes)
}

/// Prints the output of a script.
fn print_replies(
    rt: &impl Print,
    alloc: Global,
    guests: &mut LoneGuests,
    names: &Names,
    script: &[u8],
) -> io::Result<()> {
    let mut writer = BufWriter::new(alloc, io::writer(rt))?;
    for line in script.split(|byte| *byte == b'\n') {
        if let Some(text) = guests.answer_line(line, names) {
            writer.write_all(text.as_slice())?;
        }
    }
    writer.flush()
}

/// Answers the script on standard input. Returns None if the file of guests can't be read or
/// parsed.
fn run_stdin_script_if_args(rt: &(impl AllocGlobal + Env + Files + Input + Print)) -> Option<()> {
    let alloc = rt.alloc();
    let words: Vec<String> = env::args(rt).ok()?.collect(alloc).ok()?;
    if words.len() < 2 {
        return Some(());
    }
    let bytes = read_file(rt, alloc, words[1].as_str())?;
    let text = str::from_utf8(bytes.as_slice()).ok()?;
    let Declared { names, guests } = parse_guests(alloc, text)?;
    let mut guests = LoneGuests::new(alloc, guests).ok()?;
    let mut script = Vec::new(alloc);
    rt.reader().read_to_end(&mut script).ok()?;
    print_replies(rt, alloc, &mut guests, &names, script.as_slice()).ok()
}

fn main(rt: HostRuntime) -> ExitCode {
    match run_stdin_script_if_args(&rt) {
        Some(()) => ExitCode::SUCCESS,
        None => ExitCode::FAILURE,
    }
}
