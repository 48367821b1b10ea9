//! All problems of a board file, in the order of the checks.
ghost use Rattle.std.specs.Prelude.{◌≡◌, IfOk};
ghost use Rattle.toml.specs.View.{table_view};
ghost use Rattle.board_refusal.specs.Telling.{checks_reported_with, AreProblems};

use crate::placed_breach::{PlacedBreach, locate_and_sort_by_line};
use board_file::{BoardFault, Source, checks_before_masks};
use diagnostics::Places;
use std::alloc::{AllocError, Global};

/// Returns the checks that are reported together with a fault: those of keys, those of values, or
/// that of patterns. Patterns are checked last, because the length of a pattern is limited by that
/// of its block.
fn checks_reported_with(fault: BoardFault) -> &'static [BoardFault]
    ensures { result.now ≡ checks_reported_with fault }
{
    match fault {
        BoardFault::Key | BoardFault::UnknownKey => &checks_before_masks()[..2],
        BoardFault::CellMasks => &[BoardFault::CellMasks],
        _ => &checks_before_masks()[2..],
    }
}

/// Returns all problems of the failed check and of the checks that are reported with it, each with
/// its place. Sorts them by check and then by line.
pub fn problems_reported_with<'a>(
    alloc: Global,
    source: &Source<'a>,
    fault: BoardFault,
) -> Result<Vec<PlacedBreach<'a>>, AllocError>
    ensures { IfOk result (λ v.
        AreProblems source.now.bytes.now (table_view source.now.document.now) fault v.items) }
{
    let places = Places::new(alloc, source.bytes, source.document)?;
    let mut all = Vec::new(alloc);
    'checks: for check in checks_reported_with(fault) {
        let problems = source.problems(alloc, *check)?;
        let placed = locate_and_sort_by_line(alloc, &places, &source.file, &problems)?;
        all.extend_from_slice(&placed)?;
    }
    Ok(all)
}
