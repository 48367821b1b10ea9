//! Layer: guests. Below: paths, headers. Above: images.
//!
//! A function as its guest sees it: Command, Header Type and the base address registers are the
//! guest's own copies, and all other registers are the board's.
#![tactic(auto)]

ghost use Rattle.guest_functions.specs.CopyLaws.{OtherCell, HandedRead, BlockRead, CopiedWrite, BlockWrite, CopiedRaise, HiddenRaise, CopiesStay, SameCopies, CopiesHeld, RaisedHeld, WrittenHeld, BlockWrittenHeld, LawfulCopies, SumOfBytes, EnabledBytesFit};

mod virtual_function;
mod word;

pub use paths::{Latch, Select};
pub use virtual_function::VirtualFunction;

/// Proves how a guest's copies combine with the board's register file: a read returns the copied
/// bytes together with the forwarded bytes, and a write or a raise changes each side separately.
pub fn copies_split_accesses()
    ensures other_cell { OtherCell }
    ensures handed_read { HandedRead }
    ensures block_read { BlockRead }
    ensures written { CopiedWrite }
    ensures block_written { BlockWrite }
    ensures raised { CopiedRaise }
    ensures hidden_raise { HiddenRaise }
    ensures same { SameCopies }
    ensures held { CopiesHeld }
{}

/// Proves that the combined register file keeps the guest's copies through writes and raises. The
/// copies belong to lawful registers, and the value of a word is the sum of its copied and its
/// forwarded bytes.
pub fn copies_are_kept()
    ensures stay { CopiesStay }
    ensures raised { RaisedHeld }
    ensures written { WrittenHeld }
    ensures block_written { BlockWrittenHeld }
    ensures lawful { LawfulCopies }
    ensures sum { SumOfBytes }
    ensures fits { EnabledBytesFit }
{}
