//! The command that the program's arguments select.
ghost use Rattle.std.specs.Prelude.{◌≡◌, Some, [], true, map, option_map, IfOk, IfSome, IfNone, Err, MatchResult};
ghost use Rattle.clap.specs.{Faults.fault_of, Matches.{first_value, found_of}, Values.kind_of};
ghost use Rattle.command_line.specs.{Words.{pciguest_app, is_taken}, Choices.{is_flag_set, board_path, IsAsked, IsAskedBy, IsNoCommand, IsWork, IsHelp}};

use crate::commands::root_command;
use clap::error::ErrorKind;
use clap::{ArgMatches, Error};
use lines::Report;
use std::alloc::Global;

/// A command of the program.
#[derive(Drop)]
pub enum Choice<'a> {
    /// Print this text.
    Help(String),
    /// Run a script on the demo board.
    Demo,
    /// Report the board of the board file at this path, as JSON if `json`.
    List {
        path: &'a str,
        json: bool,
    },
    /// Report all problems in the board file at this path, or that its board fits. `all` enables
    /// every warning. `plain` limits the output to lines.
    Check {
        path: &'a str,
        all: bool,
        plain: bool,
    },
    /// Run a script on the board of the board file at this path. If `strict`, a refused line is a
    /// fault, which is reported once all lines have run.
    Run {
        path: &'a str,
        strict: bool,
    },
    /// Run a firmware session on the board of the board file at this path, starting at reset.
    Firmware {
        path: &'a str,
        strict: bool,
    },
    /// Run a firmware session, and then write a report about the final registers, as JSON if
    /// `json`. If `strict`, a problem that an audit reports is a fault too.
    Report {
        report: Report,
        path: &'a str,
        json: bool,
        strict: bool,
    },
}

impl<'a> Choice<'a> {
    /// Returns the path of the board file, if the command reads one.
    pub fn board_path(&self) -> Option<&'a str>
        ensures { option_map (λ s. s.now) result ≡ board_path self.now }
    {
        match self {
            Choice::Help(_) => None,
            Choice::Demo => None,
            Choice::List { path, .. } => Some(*path),
            Choice::Check { path, .. } => Some(*path),
            Choice::Run { path, .. } => Some(*path),
            Choice::Firmware { path, .. } => Some(*path),
            Choice::Report { path, .. } => Some(*path),
        }
    }
}

/// The reason why arguments are rejected.
#[derive(Drop)]
pub enum WordsFault {
    /// The arguments are invalid. The text says why.
    Usage(String),
    /// Out of memory.
    Memory,
}

/// Returns the command that prints the help or version text for which the arguments ask, or fails
/// with the reason why the arguments are invalid.
fn help_text_or_fault<'a>(alloc: Global, words: &[&str]) -> Result<Choice<'a>, WordsFault>
    ensures { IfOk result IsHelp }
{
    let Ok(root_command) = root_command(alloc) else {
        return Err(WordsFault::Memory);
    };
    // `help` and `help NAME` print a text, so they are no subcommand of `root_command`.
    let root_command = root_command.disable_help_subcommand(false);
    let Err(error) = root_command.try_get_matches_from(words) else {
        return Err(WordsFault::Usage(String::new(alloc)));
    };
    let Ok(text) = error.to_string(alloc) else {
        return Err(WordsFault::Memory);
    };
    match error.kind() {
        ErrorKind::OutOfMemory => Err(WordsFault::Memory),
        ErrorKind::DisplayHelp | ErrorKind::DisplayVersion => Ok(Choice::Help(text)),
        _ => Err(WordsFault::Usage(text)),
    }
}

/// Returns what follows from an error of the argument parser: the help or version text for which the
/// arguments ask, or the reason why they are invalid.
fn help_or_fault_on_error<'a>(
    alloc: Global,
    error: &Error,
    words: &[&str],
) -> Result<Choice<'a>, WordsFault>
    ensures memory { kind_of error.now ≡ ErrorKind.OutOfMemory →
        result ≡ Err WordsFault.Memory }
    ensures help { IfOk result IsHelp }
{
    match error.kind() {
        ErrorKind::OutOfMemory => Err(WordsFault::Memory),
        _ => help_text_or_fault(alloc, words),
    }
}

/// Returns whether a flag is set, given its value.
fn is_flag_set(given: Option<&str>) -> bool
    ensures { result ≡ is_flag_set (option_map (λ s. s.now) given.entry) }
{
    match given {
        Some(text) => text == "true",
        None => false,
    }
}

/// Returns the command of the subcommand `name` with its arguments, or `None` if the program has no
/// such subcommand.
fn choice_by_name<'a>(name: &str, given: &ArgMatches<'a>, is_terminal: bool) -> Option<Choice<'a>>
    ensures asked { IfSome result
        (IsAskedBy (Some name.now) (first_value (found_of given.now)) is_terminal) }
    ensures work { IfSome result IsWork }
    ensures none { IfNone result (IsNoCommand name.now) }
{
    // `board` is a required argument of every subcommand that reads a board file.
    let path = given.get_str("board").unwrap_or("");
    let json = is_flag_set(given.get_str("json"));
    let strict = is_flag_set(given.get_str("strict"));
    match name {
        "demo" => Some(Choice::Demo),
        "list" => Some(Choice::List { path, json }),
        "check" => {
            let all = is_flag_set(given.get_str("all"));
            let plain = !is_terminal || is_flag_set(given.get_str("plain"));
            Some(Choice::Check { path, all, plain })
        }
        "run" => Some(Choice::Run { path, strict }),
        "firmware" => Some(Choice::Firmware { path, strict }),
        _ => {
            let report = Report::from_word(name.as_bytes())?;
            Some(Choice::Report {
                report,
                path,
                json,
                strict,
            })
        }
    }
}

/// Returns the command that the program's arguments select. The first of `words` is the program's
/// name. `is_terminal` says whether the output goes to a terminal. If it does, a check may write
/// more than lines.
///
/// If the parser rejects the arguments, returns `Help` if they ask for help or for the version, and
/// otherwise fails with `WordsFault::Usage`.
pub fn choose<'a>(
    alloc: Global,
    words: &'a [&'a str],
    is_terminal: bool,
) -> Result<Choice<'a>, WordsFault>
    ensures asked { IfOk result (IsAsked (map (λ w. w.now) words.entry.now) is_terminal) }
    ensures only_taken { IfOk result (λ c.
        IsWork c → fault_of pciguest_app (map (λ w. w.now) words.entry.now) ≡ []) }

    // Valid arguments are rejected only if memory is exhausted.
    ensures taken { is_taken (map (λ w. w.now) words.entry.now) ≡ true
        → MatchResult result IsWork (λ f. f ≡ WordsFault.Memory) }
{
    let Ok(root_command) = root_command(alloc) else {
        return Err(WordsFault::Memory);
    };
    match root_command.try_get_matches_from(words) {
        Ok(matches) => {
            let Some((name, given)) = matches.subcommand() else {
                return Err(WordsFault::Usage(String::new(alloc)));
            };
            match choice_by_name(name, given, is_terminal) {
                Some(choice) => Ok(choice),
                None => Err(WordsFault::Usage(String::new(alloc))),
            }
        }
        Err(error) => help_or_fault_on_error(alloc, &error, words),
    }
}
