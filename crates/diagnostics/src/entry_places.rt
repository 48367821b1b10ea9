//! Finds the places of board-file entries in the text.
ghost use Rattle.std.specs.Prelude.{◌≡◌, IfOk, IfSome, map, option_map};
ghost use Rattle.toml.specs.View.{table_view};
ghost use Rattle.diagnostics.specs.EntryPlaces.{turn, key_path_of_entry, key_path_of_value, entry_of, IsPlaceOf};

use crate::confirmation::Places;
use crate::entry_texts::EntryText;
use crate::steps::Step;
use crate::text_place::TextPlace;
use board_file::Entry;
use board_file::document::tables::value_at;
use std::alloc::{AllocError, Global};
use std::fmt;

/// A second entry that a message refers to, for example an earlier entry with the same path, and
/// its place if that could be confirmed.
#[derive(Clone, Copy, Debug)]
pub struct Other {
    pub entry: Entry,
    pub place: Option<TextPlace>,
}

impl fmt::Display for Other {
    fn fmt<W: fmt::Write>(&self, f: &mut fmt::Formatter<W>) -> fmt::Result {
        let entry = EntryText(self.entry);
        match self.place {
            Some(place) => write!(f, "{entry} (line {})", place.line),
            None => write!(f, "{entry}"),
        }
    }
}

/// Returns the key path of an entry.
fn key_path_of_entry<'k>(alloc: Global, entry: Entry) -> Result<Vec<Step<'k>>, AllocError>
    ensures { IfOk result (λ v. map turn v.items ≡ key_path_of_entry entry) }
{
    let endpoint = Step::Key("endpoint");
    let guest = Step::Key("guest");
    let slots = Step::Key("slots");
    match entry {
        Entry::File => Ok(Vec::new(alloc)),
        Entry::Host => Ok(vec![in alloc; Step::Key("host")]?),
        Entry::Endpoint(i) => Ok(vec![in alloc; endpoint, Step::Index(i)]?),
        Entry::Part(part, i, j) => {
            let key: &'k str = part.key();
            let part = Step::Key(key);
            Ok(vec![in alloc; endpoint, Step::Index(i), part, Step::Index(j)]?)
        }
        Entry::Bridge(i) => Ok(vec![in alloc; Step::Key("bridge"), Step::Index(i)]?),
        Entry::Guest(i) => Ok(vec![in alloc; guest, Step::Index(i)]?),
        Entry::Slot(i, j) => Ok(vec![in alloc; guest, Step::Index(i), slots, Step::Index(j)]?),
    }
}

/// Returns the key path of the value at `key` of an entry. The value of a slot is the entry itself.
fn key_path_of_value<'k>(
    alloc: Global,
    entry: Entry,
    key: &'k str,
) -> Result<Vec<Step<'k>>, AllocError>
    ensures { IfOk result (λ v. map turn v.items ≡ key_path_of_value entry key.now) }
{
    let mut way = key_path_of_entry(alloc, entry)?;
    match entry {
        Entry::Slot(_, _) => {}
        _ => way.push(Step::Key(key))?,
    }
    Ok(way)
}

/// Returns the place of the value at `key` of an entry, or of the entry's first value if the key is
/// missing. Returns `None` if the place couldn't be confirmed.
pub fn find_value_or_entry_place(
    alloc: Global,
    places: &Places<'_>,
    entry: Entry,
    key: &str,
) -> Result<Option<TextPlace>, AllocError>
    ensures { IfOk result (λ found.
        IfSome found (IsPlaceOf places.now.text.now (table_view places.now.document.now) entry key.now)) }
{
    if value_at(places.document, entry, key).is_some() {
        let way = key_path_of_value(alloc, entry, key)?;
        places.first_scalar_place(alloc, &way)
    } else {
        let way = key_path_of_entry(alloc, entry)?;
        places.first_scalar_place(alloc, &way)
    }
}

/// Returns the entry together with the place of its value at `key`, or `None` if there is no entry.
pub fn locate_entry_value_if_some(
    alloc: Global,
    places: &Places<'_>,
    entry: Option<Entry>,
    key: &str,
) -> Result<Option<Other>, AllocError>
    ensures entry { IfOk result (λ o. option_map entry_of o ≡ entry) }
    ensures place { IfOk result (λ o. IfSome o (λ o. IfSome o.place
        (IsPlaceOf places.now.text.now (table_view places.now.document.now) o.entry key.now))) }
{
    match entry {
        Some(entry) => {
            let place = find_value_or_entry_place(alloc, places, entry, key)?;
            Ok(Some(Other { entry, place }))
        }
        None => Ok(None),
    }
}
