//! Layer: board. Below: model_registers. Above: headers.
//!
//! The bytes of configuration space and of regions, with their masks, and register files made of
//! them (PCI Local Bus 3.0, chapter 6).
#![tactic(auto)]

ghost use Rattle.config_bytes.specs.OffsetLaws.{FileOfAppend, FileOfOffsets, FileOfConfig, WithinWider, WithinAppend, WithinOffsets, DistinctAppend, DistinctPush, DistinctOffsets};

mod cell;
mod cells;
mod lanes;
mod op;

pub use cell::{Cell, CellFault, prove_cells_are_lawful};
pub use cells::Cells;
pub use lanes::{all_ones, enables_of, from_lanes, shift_lanes_down, to_lanes};
pub use op::Op;

/// Proves laws about building a list of cells, each with its offset in configuration space: which
/// register file the list describes, which offsets it uses, and that no offset is used twice.
pub fn cell_lists_make_register_files()
    ensures file_of_append { FileOfAppend }
    ensures file_of_offsets { FileOfOffsets }
    ensures file_of_config { FileOfConfig }
    ensures within_wider { WithinWider }
    ensures within_append { WithinAppend }
    ensures within_offsets { WithinOffsets }
    ensures distinct_append { DistinctAppend }
    ensures distinct_push { DistinctPush }
    ensures distinct_offsets { DistinctOffsets }
{}
