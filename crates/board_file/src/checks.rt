//! The order in which a board file is checked.
ghost use Rattle.std.specs.Prelude.{◌≡◌};
ghost use Rattle.board_file.specs.Meaning.{order};

use crate::fault::BoardFault;

/// Returns the checks of a document in the order in which they are made. Leaves out `CellMasks`,
/// which is checked last because a block's length limits the length of its patterns.
pub fn checks_before_masks() -> &'static [BoardFault]
    ensures { result.now ≡ order }
{
    &[
        BoardFault::Key,
        BoardFault::UnknownKey,
        BoardFault::Number,
        BoardFault::TooMany,
        BoardFault::Place,
        BoardFault::Register,
        BoardFault::Size,
        BoardFault::GuestName,
        BoardFault::Slot,
        BoardFault::Aperture,
    ]
}
