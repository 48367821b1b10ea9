//! Layer: lines. Above: lines.
//!
//! Readers and writers that count their failures, and a buffering writer.
#![tactic(auto)]

mod buffered;
mod ends;
mod kept;
mod writing;

pub use buffered::BufferedWriter;
pub use ends::{Failed, Reader, Writer};
pub use writing::{write_all, write_and_flush};
