//! Problems with their places in the file.
ghost use Rattle.std.specs.Prelude.{◌≡◌, IfOk};
ghost use Rattle.toml.specs.View.{table_view};
ghost use Rattle.board_refusal.specs.Telling.{HasPlace, line_or_zero, ArePlaced};

use crate::others::{conflicting_entry, specific_cause_if_any};
use board_file::Violation;
use board_file::entries::FileEntries;
use diagnostics::{
    Other, Places, TextPlace, find_value_or_entry_place, locate_entry_value_if_some,
};
use std::alloc::{AllocError, Global};

/// A problem with its place in the file, if the place was found and confirmed.
#[derive(Clone, Copy, Debug)]
pub struct PlacedBreach<'a> {
    pub problem: Violation<'a>,
    pub place: Option<TextPlace>,
    /// The entry that causes the problem, if it or its key isn't that of the rule.
    pub cause: Option<Other>,
    /// The key of that entry.
    pub cause_key: &'static str,
    /// The other entry involved in the problem, such as an earlier function with the same path.
    pub other: Option<Other>,
}

/// Finds the places of a problem and of the other entries involved.
fn locate_problem<'a>(
    alloc: Global,
    places: &Places<'_>,
    file: &FileEntries<'_>,
    problem: &Violation<'a>,
) -> Result<PlacedBreach<'a>, AllocError>
    ensures same { IfOk result (λ t. t.problem ≡ problem.now) }
    ensures place { IfOk result
        (HasPlace places.now.text.now (table_view places.now.document.now)) }
{
    let place = find_value_or_entry_place(alloc, places, problem.entry, problem.key)?;
    let (cause, cause_key) = specific_cause_if_any(file, problem.entry, problem.rule);
    let cause = locate_entry_value_if_some(alloc, places, cause, cause_key)?;
    let other = conflicting_entry(file, problem.entry, problem.rule);
    let other = locate_entry_value_if_some(alloc, places, other, problem.key)?;
    Ok(PlacedBreach {
        problem: *problem,
        place,
        cause,
        cause_key,
        other,
    })
}

/// Returns the line of a problem, or 0 if the line isn't known.
fn line_or_zero(placed: &PlacedBreach<'_>) -> usize
    ensures { result ≡ line_or_zero placed.now }
{
    match placed.place {
        Some(place) => place.line,
        None => 0,
    }
}

/// Adds the places of problems and sorts the problems by line. Problems without a line come first,
/// and those on one line keep their order.
pub(crate) fn locate_and_sort_by_line<'a>(
    alloc: Global,
    places: &Places<'_>,
    file: &FileEntries<'_>,
    problems: &[Violation<'a>],
) -> Result<Vec<PlacedBreach<'a>>, AllocError>
    ensures { IfOk result (λ v.
        ArePlaced places.now.text.now (table_view places.now.document.now) problems.now v.items) }
{
    let mut all = Vec::new(alloc);
    'problems: for problem in problems {
        all.push(locate_problem(alloc, places, file, problem)?)?;
    }
    all.sort_by_key(|one| line_or_zero(one))?;
    Ok(all)
}
