//! Layer: files. Below: board_file. Above: board_refusal, board_fit.
//!
//! Diagnostics for board files: the places of entries and values in the text, the beginnings of
//! messages, and excerpts of lines with marks below a value.
#![tactic(auto)]

mod confirmation;
mod descent;
mod entry_places;
mod entry_texts;
mod excerpts;
mod heads;
mod line_numbers;
mod marking;
mod message_layout;
mod scanning;
mod shapes;
mod shown;
mod steps;
mod text_place;

pub use confirmation::Places;
pub use entry_places::{Other, find_value_or_entry_place, locate_entry_value_if_some};
pub use excerpts::{push_excerpt_if_enabled, push_head_excerpt_if_enabled};
pub use heads::{Head, Position, Subject};
pub use line_numbers::line_of;
pub use message_layout::{MessageLayout, RenderOptions};
pub use shown::Shown;
pub use steps::Step;
pub use text_place::TextPlace;
