//! Writes a path as text, in the form that board files and reports use.
ghost use Rattle.std.specs.{Prelude.{◌≡◌, ◌≤◌, ◌<◌, ◌+◌, ◌*◌, ◌++◌, length, map, decimal}, List.join_with_byte};
ghost use Rattle.model_guests.specs.PathTexts.{part_text, path_text};

use arrayvec::ArrayVec;
use paths::{Part, Path};

/// The text of a path. The longest has sixteen parts of four bytes, separated by slashes.
pub type PathBytes = ArrayVec<u8, 79>;

fn push_bytes(text: &mut PathBytes, bytes: &[u8])
    requires { length text.old.items + length bytes.now ≤ 79 }
    ensures items { text.new.items ≡ text.old.items ++ bytes.now }
    ensures len { length text.new.items ≡ length text.old.items + length bytes.now }
{
    let _ = text.try_extend_from_slice(bytes);
}

/// Appends a number below 100 in decimal.
fn push_decimal(text: &mut PathBytes, number: u8)
    requires number { number < 100 }
    requires room { length text.old.items + 1 ≤ 79 }
    requires more_room { 10 ≤ number → length text.old.items + 2 ≤ 79 }
    ensures items { text.new.items ≡ text.old.items ++ decimal number }
    ensures len { length text.new.items ≤ length text.old.items + 2 }
    ensures digit { number < 10 → length text.new.items ≤ length text.old.items + 1 }
{
    if number >= 10 {
        push_bytes(text, &[b'0' + number / 10]);
    }
    push_bytes(text, &[b'0' + number % 10]);
}

/// Appends a device and a function number, separated by a dot.
fn push_part(text: &mut PathBytes, part: Part)
    requires { length text.old.items + 4 ≤ 79 }
    ensures items { text.new.items ≡ text.old.items ++ part_text part }
    ensures len { length text.new.items ≤ length text.old.items + 4 }
{
    push_decimal(text, part.device());
    push_bytes(text, b".");
    push_decimal(text, part.function());
}

/// Appends parts, separated by slashes.
fn push_parts(text: &mut PathBytes, parts: &[Part])
    requires { length text.old.items + 5 * length parts.now ≤ 80 }
    ensures { text.new.items ≡ text.old.items ++ join_with_byte 47 (map part_text parts.now) }
{
    match parts {
        [] => (),
        [last] => push_part(text, *last),
        [first, rest @ ..] => {
            push_part(text, *first);
            push_bytes(text, b"/");
            push_parts(text, rest);
        }
    }
}

/// Returns the text of a path without allocating.
pub fn path_text(path: &Path) -> PathBytes
    ensures { result.items ≡ path_text path.now }
{
    let mut text = PathBytes::new();
    push_parts(&mut text, path.parts());
    text
}
