//! The tables inside an `endpoint` table.
ghost use Rattle.std.specs.{Prelude.{◌≡◌, ℕ, Bool, List, IfOk, OnOk, IsTrue, flat_map, map}, List.{list_all, enumerate_from}};
ghost use Rattle.board_file.specs.{Blocks.Gives, Endpoints.Endpoint, Problems.{Adds, broken, of_part}};

use crate::entries::EndpointEntry;
use crate::entry::{EndpointPart, Entry};
use crate::fault::BoardFault;
use crate::finding::Violation;
use std::alloc::{AllocError, Global};

/// A table inside an `endpoint` table, which declares a part of the endpoint.
pub(crate) trait PartEntry {
    ghost use Rattle.board_file.specs.declared.{fault.BoardFault.BoardFault, rule.Rule.Rule};

    /// What the table declares.
    type Declared: Drop;

    /// The rules with a fault for the table of an endpoint at an index.
    ghost rules: { BoardFault → Endpoint → ℕ → Self → List (Rule × Bool) };

    /// Whether the table keeps all rules except those of patterns and of overlaps.
    ghost is_declarable: { Self → Bool };

    /// Whether the patterns are valid.
    ghost holds: { Self → Bool };

    ghost declaration: { Self → Self.Declared };

    /// Appends the problems of the table, which is the one at `index` of its kind in `endpoint`.
    fn push_problems(
        &self,
        alloc: Global,
        problems: &mut Vec<Violation<'_>>,
        fault: BoardFault,
        endpoint: &EndpointEntry<'_>,
        index: usize,
        entry: Entry,
    ) -> Result<(), AllocError>
        ensures { OnOk result (Adds (broken entry (rules fault endpoint.now index self.now))
            problems.old.items problems.new.items) };

    /// Builds the declaration. Returns `None` if a pattern isn't valid.
    fn declare_if_masks_hold(&self, alloc: Global) -> Result<Option<Self::Declared>, AllocError>
        requires { IsTrue (is_declarable self.now) }
        ensures { IfOk result (λ found.
            Gives (holds self.now) found (λ d. d ≡ declaration self.now)) };
}

/// Appends the problems of all tables of one kind in the endpoint at index `number`.
pub(crate) fn push_part_problems<P: PartEntry>(
    alloc: Global,
    problems: &mut Vec<Violation<'_>>,
    fault: BoardFault,
    part: EndpointPart,
    number: usize,
    endpoint: &EndpointEntry<'_>,
    entries: &[P],
) -> Result<(), AllocError>
    ensures { OnOk result (Adds
        (flat_map (of_part part number (P.rules fault endpoint.now)) (enumerate_from 0 entries.now))
        problems.old.items problems.new.items) }
{
    'entries: for (index, table) in entries.iter().enumerate() {
        let entry = Entry::Part(part, number, index);
        table.push_problems(alloc, problems, fault, endpoint, index, entry)?;
    }
    Ok(())
}

/// Builds the declarations of all tables of one kind. Returns `None` if a pattern isn't valid.
pub(crate) fn declare_all_if_masks_hold<P: PartEntry>(
    alloc: Global,
    entries: &[P],
) -> Result<Option<Vec<P::Declared>>, AllocError>
    requires { IsTrue (list_all P.is_declarable entries.now) }
    ensures { IfOk result (λ found. Gives (list_all P.holds entries.now) found (λ v. v.items
        ≡ map P.declaration entries.now)) }
{
    let mut declared = Vec::with_capacity(alloc, entries.len())?;
    'entries: for entry in entries {
        match entry.declare_if_masks_hold(alloc)? {
            Some(declaration) => declared.push(declaration)?,
            None => return Ok(None),
        }
    }
    Ok(Some(declared))
}
