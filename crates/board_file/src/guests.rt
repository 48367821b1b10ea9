//! The `guest` tables of a board file.
ghost use Rattle.std.specs.{Prelude.{◌≡◌, ◌≤◌, not, length, map, take}, List.list_all, Str.bytes_eq};
ghost use Rattle.model_guests.specs.World.{is_name_byte, is_name};
ghost use Rattle.board_file.specs.{Entries.guest, Functions.{guest as declared_guest}, PathTexts.path_at};
ghost use Rattle.board_file.specs.Entries as said;

use crate::document::reading::{FromTable, slots_or_empty, text_or_empty};
use crate::path::text::PathText;
use accesses::GuestDecl;
use arrayvec::{ArrayString, ArrayVec};
use paths::Path;
use std::alloc::{AllocError, Global};
use std::marker::Model;
use toml::Table;

pub(crate) mod problems;

/// A `guest` table.
#[derive(Drop)]
pub struct GuestEntry<'a> {
    pub name: &'a str,
    pub slots: Vec<PathText<'a>>,
}

impl<'a> Model for GuestEntry<'a> {
    ghost Value = { said.Guest };

    ghost view = { λ g. record { name = g.name.now; slots = g.slots.items } };
}

impl<'a> FromTable<'a> for GuestEntry<'a> {
    ghost said = { guest };

    fn from_table(alloc: Global, table: &'a Table) -> Result<Self, AllocError> {
        Ok(GuestEntry {
            name: text_or_empty(table, "name"),
            slots: slots_or_empty(alloc, table)?,
        })
    }
}

impl<'a> GuestEntry<'a> {
    /// Builds the declaration.
    pub(crate) fn declare(&self) -> GuestDecl
        requires name { length self.now.name ≤ 16 }
        requires slots { length self.now.slots ≤ 32 }
        ensures { result ≡ declared_guest self.now }
    {
        let mut name = ArrayString::new();
        name.push_str(self.name);
        GuestDecl {
            name,
            slots: slot_paths_or_zero(&self.slots),
        }
    }
}

/// Returns the paths of a guest's slots.
fn slot_paths_or_zero(texts: &[PathText<'_>]) -> ArrayVec<Path, 32>
    requires { length texts.now ≤ 32 }
    ensures { result.items ≡ map path_at texts.now }
{
    let mut slots = ArrayVec::new();
    'texts: for text in texts {
        slots.push(text.path_or_zero());
    }
    slots
}

fn is_lowercase_or_digit(byte: u8) -> bool
    ensures { result ≡ is_name_byte byte }
{
    byte.is_ascii_lowercase() || byte.is_ascii_digit()
}

fn are_lowercase_or_digits(bytes: &[u8]) -> bool
    ensures { result ≡ list_all is_name_byte bytes.now }
{
    bytes.iter().all(|byte| is_lowercase_or_digit(*byte))
}

/// Returns whether a guest may have this name: 1 to 16 characters from `a` to `z` and `0` to `9`,
/// the first a letter, and not `host`.
pub(crate) fn is_valid_guest_name(name: &str) -> bool
    ensures { result ≡ is_name name.now }
{
    match name.as_bytes().split_first() {
        None => false,
        Some((first, rest)) => {
            first.is_ascii_lowercase()
                && are_lowercase_or_digits(rest)
                && rest.len() <= 15
                && name != "host"
        }
    }
}

/// Returns whether none of the first `count` guests has this name.
pub(crate) fn is_name_unused_by_first(guests: &[GuestEntry<'_>], count: usize, name: &str) -> bool
    ensures { result ≡ list_all (λ g. not (bytes_eq g.name name.now)) (take count guests.now) }
{
    guests.iter().take(count).all(|guest| guest.name != name)
}
