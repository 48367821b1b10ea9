//! Places of values in a TOML text, confirmed by marks. Each scalar is replaced by a unique mark
//! and the text is parsed again. A value's place is known if the parsed value is the mark of that
//! place.
ghost use Rattle.std.specs.{Prelude.{◌≡◌, IfOk, IfSome, List, Some, length, map, ℕ}, Option.ForSome};
ghost use Rattle.toml.specs.{Parse.parse_document, View.table_view};
ghost use Rattle.diagnostics.specs.{LineNumbers.{line_of, first_line}, Marks.replace_with_marks, Places.{IsMarked, Stands, IsPlace, IsPlaceWithin}};

use crate::descent::push_steps_to_first_scalar;
use crate::line_numbers::line_numbers_of_starts;
use crate::marking::{
    are_ordered_within, is_mark_of_place_at, parse_mark_value, replace_with_marks,
};
use crate::scanning::{Extent, scan_scalars};
use crate::shapes::members_have_same_shape;
use crate::steps::{Step, value_at};
use crate::text_place::TextPlace;
use std::alloc::{AllocError, Global};
use toml::Table;

/// The document with a mark at each place, and the line number of each place.
#[derive(Drop)]
struct Marked {
    table: Table,
    lines: Vec<usize>,
}

/// The places of a document's scalars in the text from which it was parsed.
#[derive(Drop)]
pub struct Places<'a> {
    /// The TOML text.
    pub text: &'a [u8],
    /// The document parsed from `text`.
    pub document: &'a Table,
    places: Vec<Extent>,
    /// The document with a mark at each place, or `None` if its shape differs from that of
    /// `document`.
    marked: Option<Marked>,
    ghost confirmed: { ForSome marked (λ m.
        IsMarked text.now (table_view document.now) places.items
        × ∥ parse_document (replace_with_marks text.now 0 places.items)
        ≡ Some (table_view m.table) ∥₁
        × m.lines.items ≡ map (first_line text.now) places.items) },
}

/// Parses the text with a mark at each place. Returns `None` if the result isn't a document of the
/// same shape.
fn mark_and_parse_if_same_shape(
    alloc: Global,
    text: &[u8],
    document: &Table,
    places: &[Extent],
) -> Result<Option<Marked>, AllocError>
    ensures { IfOk result (λ found.
        IfSome found (λ m. IsMarked text.now (table_view document.now) places.now
        × (parse_document (replace_with_marks text.now 0 places.now) ≡ Some (table_view m.table))
        × (m.lines.items ≡ map (first_line text.now) places.now))) }
{
    if !are_ordered_within(text.len(), places) {
        return Ok(None);
    }
    let bytes = replace_with_marks(alloc, text, places)?;
    match toml::table_from_slice(alloc, &bytes) {
        Ok(table) if members_have_same_shape(document, &table) => {
            let lines = line_numbers_of_starts(alloc, text, places)?;
            Ok(Some(Marked { table, lines }))
        }
        Err(e) if e.is_memory() => Err(AllocError),
        _ => Ok(None),
    }
}

/// Returns the line number and the end offset of the place that begins at `start`, if there is one.
fn find_line_and_end(places: &[Extent], lines: &[usize], start: usize) -> Option<(usize, usize)>
    requires { length lines.now ≡ length places.now }
    ensures line { IfSome result (λ p.
        (text : List ℕ) → lines.now ≡ map (first_line text) places.now →
        p.0 ≡ line_of start text) }
    ensures stands { IfSome result (λ p. Stands places.now start p.1) }
{
    match places.binary_search_by_key(&start, |place| place.start) {
        Ok(i) => {
            if places[i].start == start {
                Some((lines[i], places[i].end))
            } else {
                None
            }
        }
        Err(_) => None,
    }
}

impl<'a> Places<'a> {
    /// Finds the places of all scalars. No place is known if the marked document has another shape.
    pub fn new(alloc: Global, text: &'a [u8], document: &'a Table) -> Result<Self, AllocError>
        ensures text { IfOk result (λ p. p.text.now ≡ text.now) }
        ensures document { IfOk result (λ p. p.document.now ≡ document.now) }
    {
        let places = scan_scalars(alloc, text)?;
        let marked = mark_and_parse_if_same_shape(alloc, text, document, &places)?;
        Ok(Places {
            text,
            document,
            places,
            marked,
        })
    }

    /// Returns the place of the scalar at the end of a key path, if it could be confirmed.
    pub fn scalar_place(&self, way: &[Step<'_>]) -> Option<TextPlace>
        ensures { IfSome result
            (IsPlace self.now.text.now (table_view self.now.document.now) way.now) }
    {
        if way.is_empty() {
            return None;
        }
        let Some(marked) = &self.marked else {
            return None;
        };
        let value = value_at(way, &marked.table)?;
        let start = parse_mark_value(value)?;
        let known = find_line_and_end(&self.places, &marked.lines, start)?;
        if is_mark_of_place_at(start, Some(value))
            && !is_mark_of_place_at(start, value_at(way, self.document))
        {
            return Some(TextPlace {
                line: known.0,
                start,
                end: known.1,
            });
        }
        None
    }

    /// Returns the place of the scalar at the end of a key path, or of the first scalar inside the
    /// value there. Returns `None` if the place couldn't be confirmed.
    pub fn first_scalar_place(
        &self,
        alloc: Global,
        way: &[Step<'_>],
    ) -> Result<Option<TextPlace>, AllocError>
        ensures { IfOk result (λ found.
            IfSome found (IsPlaceWithin self.now.text.now (table_view self.now.document.now) way.now)) }
    {
        if way.is_empty() {
            return Ok(None);
        }
        let Some(marked) = &self.marked else {
            return Ok(None);
        };
        let Some(value) = value_at(way, &marked.table) else {
            return Ok(None);
        };
        let mut longer = Vec::new(alloc);
        longer.extend_from_slice(way)?;
        push_steps_to_first_scalar(&mut longer, value)?;
        Ok(self.scalar_place(&longer))
    }
}
