//! Layer: guests. Below: model_images, host_bridge, guest_functions. Above: monitor.
//!
//! The format of a guest's saved state. The state is written into the caller's buffer straight from
//! the declarations, the board's registers and the guest's copies, and bytes to load are compared
//! with them in place. The crate also establishes that every declaration on a board can be saved.
//! No call allocates memory.
#![tactic(auto)]

mod comparing;
mod declarations;
mod fault;
mod function_bytes;
mod function_comparing;
mod function_values;
mod function_writing;
mod heading;
mod parts;
mod sizes;
mod values;
mod writing;

pub use declarations::prove_board_can_be_saved;
pub use fault::ImageFault;
pub use function_comparing::strip_fitting_slot;
pub use function_writing::{put_function_and_advance, saved_function_size};
pub use heading::{
    image_header_bytes, refuse_trailing_bytes, split_off_latch, strip_image_header, strip_slot_tag,
    u32_to_le_bytes,
};
pub use sizes::{count_endpoint_cells, encoded_declaration_size};
pub use writing::put_bytes_and_advance;
