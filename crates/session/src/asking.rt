//! The meaning of a firmware line in a session.
ghost use Rattle.std.specs.Prelude.{◌≡◌, ◌++◌};
ghost use Rattle.model_guests.specs.Text.{Text};
ghost use Rattle.model_lines.specs.{FirmwareLines.meaning, Requests.request};
ghost use Rattle.lines.specs.{FirmwareLines.{firmware_meaning_of, requested}, Pieces.IsBefore};

use accesses::Refusal;
use lines::{FirmwareCommand, parse_firmware_line};

/// Returns the meaning of a line while firmware drives the board. The line may lack its line feed.
/// `long` means that the line's first bytes were discarded because it is too long, and makes it a
/// refused line, whatever bytes are left.
pub(crate) fn parse_line_unless_too_long(line: &[u8], long: bool) -> FirmwareCommand
    ensures means { (before : Text) → IsBefore long before →
        firmware_meaning_of result ≡ meaning (before ++ line.now) }
    ensures asks { (before : Text) → IsBefore long before →
        requested result ≡ request (before ++ line.now) }
{
    if long {
        return FirmwareCommand::NotOfHost(Refusal::LongLine);
    }
    parse_firmware_line(line)
}
