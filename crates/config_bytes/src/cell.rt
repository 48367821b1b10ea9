//! A byte of configuration space or of a region, with its write behavior.
ghost use Rattle.std.specs.Prelude.{◌≡◌, ◌↔◌, IsOk, IfOk, bit_and};
ghost use Rattle.lists.specs.Elements.{Each};
ghost use Rattle.model_registers.specs.{Cell.{IsCell, constant, written, raised}, DeclarationRules.is_read_only, DeviceBytes.with_value};

use std::marker::Model;
use thiserror::Error;

/// The error for a byte with a bit that is both writable and write-1-to-clear (W1C).
#[derive(Clone, Copy, Debug, PartialEq, Eq, Error)]
#[error("cell masks")]
pub struct CellFault;

impl CellFault {
    /// Returns the error number, 112.
    pub fn number(self) -> u16
        ensures { result ≡ 112 }
    {
        112
    }
}

/// A byte with its value, write mask and W1C mask (PCI Local Bus 3.0, chapter 6.2.3). No bit is in
/// both masks.
#[derive(Clone, Copy, Debug, PartialEq, Eq)]
pub struct Cell {
    value: u8,
    rw: u8,
    w1c: u8,
}

impl Model for Cell {
    ghost use Rattle.model_registers.specs.Cell.{Cell, IsCell};

    ghost Value = { Cell };

    ghost view = { λ c. record { value = c.value; writable = c.rw; clearable = c.w1c } };

    ghost invariant = { λ c. IsCell
        (record { value = c.value; writable = c.rw; clearable = c.w1c }) };

    ghost inverse = { λ c. record { value = c.value; rw = c.writable; w1c = c.clearable } };
}

impl Cell {
    /// Returns a byte with this value, write mask `rw` and W1C mask `w1c`. Fails if a bit is in
    /// both masks.
    pub fn new(value: u8, rw: u8, w1c: u8) -> Result<Cell, CellFault>
        ensures taken { IsOk result ↔ (bit_and rw w1c ≡ 0) }
        ensures cell { IfOk result (λ c.
            c ≡ record { value = value; writable = rw; clearable = w1c }) }
    {
        if rw & w1c != 0 {
            return Err(CellFault);
        }
        Ok(Cell { value, rw, w1c })
    }

    /// Returns a read-only byte.
    pub fn fixed(value: u8) -> Cell
        ensures { result ≡ constant value }
    {
        Cell {
            value,
            rw: 0,
            w1c: 0,
        }
    }

    /// Returns a byte with write mask `rw` and no W1C bits.
    pub fn settable(value: u8, rw: u8) -> Cell
        ensures { result ≡ record { value = value; writable = rw; clearable = 0 } }
    {
        Cell { value, rw, w1c: 0 }
    }

    /// Returns a byte with W1C mask `w1c`. Writing 1 to one of these bits clears it.
    pub fn clearable(value: u8, w1c: u8) -> Cell
        ensures { result ≡ record { value = value; writable = 0; clearable = w1c } }
    {
        Cell { value, rw: 0, w1c }
    }

    /// Returns whether neither mask has a bit.
    pub fn is_read_only(&self) -> bool
        ensures { result ≡ is_read_only self.now }
    {
        self.rw == 0 && self.w1c == 0
    }

    /// Returns the value of the byte, as a read does.
    pub fn value(&self) -> u8
        ensures value { result ≡ self.now.value }
        ensures lawful { IsCell self.now }
    {
        self.value
    }

    /// Returns the cell after a write of `byte`.
    pub fn written(self, byte: u8) -> Cell
        ensures { result ≡ written byte self }
    {
        let Cell { value, rw, w1c } = self;
        let value = (value & !rw & !w1c) | (byte & rw) | (value & w1c & !byte);
        Cell { value, rw, w1c }
    }

    /// Returns the cell after its device has set the bits of `mask`. Only W1C bits can be set this
    /// way.
    pub fn raised(self, mask: u8) -> Cell
        ensures { result ≡ raised mask self }
    {
        let Cell { value, rw, w1c } = self;
        let value = value | (mask & w1c);
        Cell { value, rw, w1c }
    }

    /// Returns the cell with its value replaced, even in read-only bits. Both masks stay the same.
    pub fn with_value(self, byte: u8) -> Cell
        ensures { result ≡ with_value byte self }
    {
        Cell {
            value: byte,
            ..self
        }
    }
}

/// Proves that the value and both masks of each cell are below 256. A call has no other effect.
pub fn prove_cells_are_lawful(cells: &[Cell])
    ensures { Each IsCell cells.now }
{
    let mut left = cells;
    while let Some((cell, rest)) = left.split_first() {
        let _byte = cell.value();
        left = rest;
    }
}
