//! Checks of the values in a board file.
ghost use Rattle.std.specs.Prelude.{◌≡◌, IfOk, OnOk, map};
ghost use Rattle.board_file.specs.{EntryRules.{file_rules, host_rules}, Problems.{found_of, Adds, broken, of_values, problems_in}};

use crate::apertures::{is_pref_none_or_valid, is_valid_io_aperture, is_valid_mem_aperture};
use crate::entries::FileEntries;
use crate::entry::Entry;
use crate::fault::BoardFault;
use crate::functions::bridge::push_all_bridge_problems;
use crate::functions::endpoint::push_all_endpoint_problems;
use crate::functions::numbers::{has_at_most_1024_functions, is_device_count};
use crate::guests::problems::push_all_guest_problems;
use crate::path::problems::push_all_path_problems;
use crate::rule::Rule;
use crate::source::Source;
use std::alloc::{AllocError, Global};

/// A broken rule, with the entry and key at which it is broken.
#[derive(Clone, Copy, Debug)]
pub struct Violation<'a> {
    pub entry: Entry,
    pub rule: Rule,
    pub key: &'a str,
}

/// Appends a problem for each rule that the entry breaks.
pub(crate) fn push_broken_rules(
    problems: &mut Vec<Violation<'_>>,
    entry: Entry,
    rules: &[(Rule, bool)],
) -> Result<(), AllocError>
    ensures { OnOk result (Adds (broken entry rules.now) problems.old.items problems.new.items) }
{
    'rules: for (rule, kept) in rules {
        if !*kept {
            problems.push(Violation {
                entry,
                rule: *rule,
                key: rule.key(),
            })?;
        }
    }
    Ok(())
}

/// Appends the problems of the file as a whole.
fn push_own_file_problems(
    problems: &mut Vec<Violation<'_>>,
    fault: BoardFault,
    file: &FileEntries<'_>,
) -> Result<(), AllocError>
    ensures { OnOk result (Adds (broken Entry.File (file_rules fault file.now)) problems.old.items
        problems.new.items) }
{
    match fault {
        BoardFault::TooMany => push_broken_rules(
            problems,
            Entry::File,
            &[
                (Rule::Functions, has_at_most_1024_functions(file)),
                (Rule::Guests, file.guests.len() <= 32),
            ],
        ),
        _ => Ok(()),
    }
}

/// Appends the problems of the `host` table.
fn push_host_problems(
    problems: &mut Vec<Violation<'_>>,
    fault: BoardFault,
    file: &FileEntries<'_>,
) -> Result<(), AllocError>
    ensures { OnOk result (Adds (broken Entry.Host (host_rules fault file.now)) problems.old.items
        problems.new.items) }
{
    match fault {
        BoardFault::Number => push_broken_rules(
            problems,
            Entry::Host,
            &[(Rule::Devices, is_device_count(file.devices))],
        ),
        BoardFault::Aperture => push_broken_rules(
            problems,
            Entry::Host,
            &[
                (Rule::IoAperture, is_valid_io_aperture(file.io)),
                (Rule::MemAperture, is_valid_mem_aperture(file.mem)),
                (
                    Rule::PrefAperture,
                    is_pref_none_or_valid(file.mem, file.pref),
                ),
            ],
        ),
        _ => Ok(()),
    }
}

/// Appends the problems of all values except paths.
fn push_non_path_problems(
    alloc: Global,
    problems: &mut Vec<Violation<'_>>,
    file: &FileEntries<'_>,
    fault: BoardFault,
) -> Result<(), AllocError>
    ensures { OnOk result (Adds (of_values fault file.now) problems.old.items problems.new.items) }
{
    push_own_file_problems(problems, fault, file)?;
    push_host_problems(problems, fault, file)?;
    push_all_endpoint_problems(alloc, problems, file, fault)?;
    push_all_bridge_problems(problems, file, fault)?;
    push_all_guest_problems(problems, file, fault)
}

/// Returns the problems of the file's values with this fault, in file order. Returns none if the
/// fault is about keys or TOML syntax.
pub(crate) fn value_problems<'a>(
    alloc: Global,
    source: &Source<'_>,
    fault: BoardFault,
) -> Result<Vec<Violation<'a>>, AllocError>
    ensures { IfOk result (λ v. map found_of v.items ≡ problems_in source.now.file fault) }
{
    let mut problems = Vec::new(alloc);
    match fault {
        BoardFault::Place | BoardFault::Slot => {
            push_all_path_problems(alloc, &mut problems, &source.file, &source.functions, fault)?
        }
        _ => push_non_path_problems(alloc, &mut problems, &source.file, fault)?,
    }
    Ok(problems)
}
