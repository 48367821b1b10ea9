//! Checks of guests.
ghost use Rattle.std.specs.{Prelude.{OnOk, flat_map}, List.enumerate_from};
ghost use Rattle.board_file.specs.{EntryRules.guest_rules, Problems.{Adds, broken, of_guest}};

use crate::entries::{FileEntries, GuestEntry};
use crate::entry::Entry;
use crate::fault::BoardFault;
use crate::finding::{Violation, push_broken_rules};
use crate::guests::{is_name_unused_by_first, is_valid_guest_name};
use crate::rule::Rule;
use std::alloc::AllocError;

/// Appends the problems of a guest.
fn push_guest_problems(
    problems: &mut Vec<Violation<'_>>,
    file: &FileEntries<'_>,
    fault: BoardFault,
    index: usize,
    guest: &GuestEntry<'_>,
) -> Result<(), AllocError>
    ensures { OnOk result
        (Adds (broken (Entry.Guest index) (guest_rules fault file.now index guest.now))
        problems.old.items problems.new.items) }
{
    let entry = Entry::Guest(index);
    match fault {
        BoardFault::TooMany => {
            push_broken_rules(problems, entry, &[(Rule::Slots, guest.slots.len() <= 32)])
        }
        BoardFault::GuestName => push_broken_rules(
            problems,
            entry,
            &[
                (Rule::Name, is_valid_guest_name(guest.name)),
                (
                    Rule::OwnName,
                    is_name_unused_by_first(&file.guests, index, guest.name),
                ),
            ],
        ),
        _ => Ok(()),
    }
}

/// Appends the problems of all guests.
pub(crate) fn push_all_guest_problems(
    problems: &mut Vec<Violation<'_>>,
    file: &FileEntries<'_>,
    fault: BoardFault,
) -> Result<(), AllocError>
    ensures { OnOk result
        (Adds (flat_map (of_guest fault file.now) (enumerate_from 0 file.now.guests))
        problems.old.items problems.new.items) }
{
    'guests: for (index, guest) in file.guests.iter().enumerate() {
        push_guest_problems(problems, file, fault, index, guest)?;
    }
    Ok(())
}
