//! A box as a pointer to its contents.
ghost use Rattle.std.specs.{Prelude.◌≡◌, Box.Ownership.box_owns};
ghost use Rattle.pciguest_c.specs.Owning.{may_free};

use std::marker::Model;

/// The contents of a box, owned through a raw pointer.
pub struct Unboxed<T> {
    pub at: *mut T,
    pub ghost value: { T },
}

impl<T> Model for Unboxed<T> {
    ghost also_owns = { λ u. box_owns may_free T.row u.at u.value };
}

impl<T: Drop> Unboxed<T> {
    /// Converts a box to its pointer without freeing the contents.
    pub fn of(whole: Box<T>) -> Unboxed<T>
        ensures { result.value ≡ whole.value }
    {
        Unboxed {
            at: Box::into_raw(whole),
        }
    }
}
