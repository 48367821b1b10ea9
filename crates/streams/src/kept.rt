//! The buffer of a buffering writer.
ghost use Rattle.std.specs.Prelude.{◌≡◌, ◌≤◌, ◌-◌, ◌++◌, [], length, drop, IfOk};

use std::alloc::{AllocError, Global};
use std::marker::Model;

/// Bytes that were accepted but not passed on yet, in a buffer of fixed capacity.
#[derive(Drop)]
pub(crate) struct Kept {
    place: Vec<u8>,
    /// The number of bytes at the start of `place` that were passed on.
    handed: usize,
}

impl Model for Kept {
    ghost use Rattle.std.specs.Prelude.{◌≤◌, ◌-◌, drop, vec_len, vec_capacity};
    ghost use Rattle.streams.specs.Keeping.{KeptBytes};

    ghost Value = { KeptBytes };

    ghost view = { λ k. record {
      bytes = drop k.handed k.place.items;
      room = vec_capacity k.place - vec_len k.place;
      capacity = vec_capacity k.place;
    } };

    ghost invariant = { λ k. k.handed ≤ vec_len k.place };
}

impl Kept {
    /// Returns an empty buffer of `capacity` bytes.
    pub(crate) fn with_capacity(alloc: Global, capacity: usize) -> Result<Kept, AllocError>
        ensures { IfOk result (λ k.
            k ≡ record { bytes = []; room = capacity; capacity = capacity }) }
    {
        Ok(Kept {
            place: Vec::with_capacity(alloc, capacity)?,
            handed: 0,
        })
    }

    /// Returns the buffered bytes.
    pub(crate) fn bytes(&self) -> &[u8]
        ensures { result.now ≡ self.now.bytes }
    {
        &self.place[self.handed..]
    }

    /// Returns how many more bytes fit before the buffer must be cleared.
    #[inline(always)]
    pub(crate) fn spare_capacity(&self) -> usize
        ensures { result ≡ self.now.room }
    {
        self.place.capacity() - self.place.len()
    }

    /// Returns the capacity of the buffer in bytes.
    pub(crate) fn capacity(&self) -> usize
        ensures { result ≡ self.now.capacity }
    {
        self.place.capacity()
    }

    /// Appends bytes, which must fit.
    #[inline(always)]
    pub(crate) fn append(&mut self, bytes: &[u8])
        requires { length bytes.now ≤ self.old.room }
        ensures bytes { self.new.bytes ≡ self.old.bytes ++ bytes.now }
    {
        let Ok(()) = self.place.extend_from_slice(bytes) else {
            unreachable!()
        };
    }

    /// Removes the first `count` bytes, which were passed on. Their room is free again only after
    /// `clear`.
    pub(crate) fn consume(&mut self, count: usize)
        requires { count ≤ length self.old.bytes }
        ensures { self.new ≡ record self.old { bytes = drop count self.old.bytes } }
    {
        self.handed += count;
    }

    /// Frees the whole buffer, which must not contain any bytes.
    pub(crate) fn clear(&mut self)
        requires { self.old.bytes ≡ [] }
        ensures { self.new ≡ record self.old { room = self.old.capacity } }
    {
        self.place.clear();
        self.handed = 0;
    }
}
