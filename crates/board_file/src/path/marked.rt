//! The entries with path texts: functions and slots. A set of the paths so far finds duplicates
//! without comparing each path with all others.
ghost use Rattle.std.specs.{Prelude.{◌≡◌, ◌++◌, ◌||◌, not, IfOk, OnOk, map}, BTreeSet.contains};
ghost use Rattle.model_board.specs.Paths.{Path as PathValue};
ghost use Rattle.paths.specs.PathOrders.{path_cmp};
ghost use Rattle.board_file.specs.PathTexts.{is_path_text, path_at};
ghost use Rattle.board_file.specs.MarkedPaths as said;

use crate::entries::{FileEntries, GuestEntry};
use crate::entry::Entry;
use crate::fault::BoardFault;
use crate::path::text::PathText;
use paths::Path;
use std::alloc::{AllocError, Global};
use std::collections::BTreeSet;
use std::marker::Model;

/// The path text of an entry, and whether no earlier entry has the same path.
#[derive(Drop)]
pub(crate) struct MarkedPath<'f, 'a> {
    pub(crate) entry: Entry,
    pub(crate) text: &'f PathText<'a>,
    pub(crate) is_first: bool,
}

impl<'f, 'a> Model for MarkedPath<'f, 'a> {
    ghost Value = { said.MarkedPath };

    ghost view = { λ p. record { entry = p.entry; text = p.text.now; is_first = p.is_first } };
}

/// Returns the path texts of all functions, endpoints first.
fn function_texts<'f, 'a>(
    alloc: Global,
    file: &'f FileEntries<'a>,
) -> Result<Vec<(Entry, &'f PathText<'a>)>, AllocError>
    ensures { IfOk result (λ v.
        map (λ p. (p.0, p.1.now)) v.items ≡ said.function_texts file.now) }
{
    let mut texts = Vec::new(alloc);
    'endpoints: for (index, endpoint) in file.endpoints.iter().enumerate() {
        texts.push((Entry::Endpoint(index), &endpoint.at))?;
    }
    'bridges: for (index, bridge) in file.bridges.iter().enumerate() {
        texts.push((Entry::Bridge(index), &bridge.at))?;
    }
    Ok(texts)
}

/// Appends the path texts of a guest's slots.
fn push_slot_texts<'f, 'a>(
    texts: &mut Vec<(Entry, &'f PathText<'a>)>,
    index: usize,
    guest: &'f GuestEntry<'a>,
) -> Result<(), AllocError>
    ensures { OnOk result (map (λ p. (p.0, p.1.now)) texts.new.items
        ≡ map (λ p. (p.0, p.1.now)) texts.old.items ++ said.guest_texts (index, guest.now)) }
{
    'slots: for (number, slot) in guest.slots.iter().enumerate() {
        texts.push((Entry::Slot(index, number), slot))?;
    }
    Ok(())
}

/// Returns the path texts of all slots, guest by guest.
fn slot_texts<'f, 'a>(
    alloc: Global,
    file: &'f FileEntries<'a>,
) -> Result<Vec<(Entry, &'f PathText<'a>)>, AllocError>
    ensures { IfOk result (λ v. map (λ p. (p.0, p.1.now)) v.items ≡ said.slot_texts file.now) }
{
    let mut texts = Vec::new(alloc);
    'guests: for (index, guest) in file.guests.iter().enumerate() {
        push_slot_texts(&mut texts, index, guest)?;
    }
    Ok(texts)
}

/// Returns the path texts that a check examines: those of functions or those of slots.
fn path_texts_for_check<'f, 'a>(
    alloc: Global,
    file: &'f FileEntries<'a>,
    fault: BoardFault,
) -> Result<Vec<(Entry, &'f PathText<'a>)>, AllocError>
    ensures { IfOk result (λ v.
        map (λ p. (p.0, p.1.now)) v.items ≡ said.path_texts_for_check fault file.now) }
{
    match fault {
        BoardFault::Place => function_texts(alloc, file),
        BoardFault::Slot => slot_texts(alloc, file),
        _ => Ok(Vec::new(alloc)),
    }
}

/// Adds a text's path to the set. Returns false if the set already contains the path. For an
/// invalid text, returns true and adds nothing.
fn insert_if_new(taken: &mut BTreeSet<Path>, text: &PathText<'_>) -> Result<bool, AllocError>
    ensures own { IfOk result (λ own.
        own ≡ (not (is_path_text text.now)
        || not (contains path_cmp taken.old (path_at text.now)))) }
    ensures taken { OnOk result ((p : PathValue) → contains path_cmp taken.new p
        ≡ (contains path_cmp taken.old p || said.has_path p text.now)) }
{
    if text.is_path() {
        Ok(taken.insert(text.path_or_zero())?)
    } else {
        Ok(true)
    }
}

/// Marks each text whose path is also that of an earlier entry.
fn mark_duplicates<'f, 'a>(
    alloc: Global,
    texts: Vec<(Entry, &'f PathText<'a>)>,
) -> Result<Vec<MarkedPath<'f, 'a>>, AllocError>
    ensures { IfOk result (λ v.
        v.items ≡ said.mark_duplicates (map (λ p. (p.0, p.1.now)) texts.entry.items)) }
{
    let mut taken = BTreeSet::new(alloc);
    let mut entries = Vec::with_capacity(alloc, texts.len())?;
    'texts: for (entry, text) in &texts {
        entries.push(MarkedPath {
            entry: *entry,
            text: *text,
            is_first: insert_if_new(&mut taken, text)?,
        })?;
    }
    Ok(entries)
}

/// Returns the path texts that a check examines, each marked if its path is a duplicate.
pub(crate) fn marked_paths_for_check<'f, 'a>(
    alloc: Global,
    file: &'f FileEntries<'a>,
    fault: BoardFault,
) -> Result<Vec<MarkedPath<'f, 'a>>, AllocError>
    ensures { IfOk result (λ v.
        v.items ≡ said.mark_duplicates (said.path_texts_for_check fault file.now)) }
{
    mark_duplicates(alloc, path_texts_for_check(alloc, file, fault)?)
}
