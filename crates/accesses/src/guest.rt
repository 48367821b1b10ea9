//! Guest names and guest declarations.
use arrayvec::{ArrayString, ArrayVec};
use paths::Path;
use std::marker::Model;

/// The guests' names, in the order of the guests: at most 32, each at most 16 bytes long.
pub type Names = ArrayVec<ArrayString<16>, 32>;

/// A guest's name, and the paths of the endpoints assigned to its slots, slot 0 first.
#[derive(Debug, Drop)]
pub struct GuestDecl {
    pub name: ArrayString<16>,
    pub slots: ArrayVec<Path, 32>,
}

impl Model for GuestDecl {
    ghost use Rattle.model_guests.specs.World.{Guest};

    ghost Value = { Guest };

    ghost view = { λ g. record { name = g.name.bytes; slots = g.slots.items } };
}
