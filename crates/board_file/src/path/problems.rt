//! Checks of the paths of functions and slots.
ghost use Rattle.std.specs.Prelude.{◌≡◌, OnOk};
ghost use Rattle.board_file.specs.{Functions.standings, Problems.{Adds, of_path, of_paths}};

use crate::entries::FileEntries;
use crate::fault::BoardFault;
use crate::finding::{Violation, push_broken_rules};
use crate::path::marked::{MarkedPath, marked_paths_for_check};
use crate::path::places::FunctionPath;
use crate::path::sets::PathSets;
use crate::rule::Rule;
use std::alloc::{AllocError, Global};

/// Appends the problems of the path of a function or slot. A bus has at most `limit` devices.
fn push_path_problems(
    problems: &mut Vec<Violation<'_>>,
    limit: u8,
    functions: &PathSets<'_>,
    fault: BoardFault,
    at: &MarkedPath<'_, '_>,
) -> Result<(), AllocError>
    ensures { OnOk result
        (Adds (of_path fault limit functions.now at.now) problems.old.items problems.new.items) }
{
    match fault {
        BoardFault::Place => {
            let path = at.text.path_or_zero();
            let is_behind = functions.is_existing_bus(path.parent());
            let has_zero = functions.has_path(&path.function_zero());
            push_broken_rules(
                problems,
                at.entry,
                &[
                    (Rule::Path, at.text.is_path_within(limit)),
                    (Rule::OwnPlace, at.is_first),
                    (Rule::BehindBridge, is_behind),
                    (Rule::FunctionZero, has_zero),
                ],
            )
        }
        BoardFault::Slot => push_broken_rules(
            problems,
            at.entry,
            &[
                (Rule::NamesEndpoint, functions.names_endpoint(at.text)),
                (Rule::OwnSlot, at.is_first),
            ],
        ),
        _ => Ok(()),
    }
}

/// Appends the problems of all paths that a check examines.
pub(crate) fn push_all_path_problems(
    alloc: Global,
    problems: &mut Vec<Violation<'_>>,
    file: &FileEntries<'_>,
    functions: &[FunctionPath],
    fault: BoardFault,
) -> Result<(), AllocError>
    requires { functions.now ≡ standings file.now }
    ensures { OnOk result
        (Adds (of_paths fault file.now) problems.old.items problems.new.items) }
{
    let limit = file.device_limit();
    let functions = PathSets::new(alloc, functions)?;
    let entries = marked_paths_for_check(alloc, file, fault)?;
    'entries: for at in &entries {
        push_path_problems(problems, limit, &functions, fault, at)?;
    }
    Ok(())
}
