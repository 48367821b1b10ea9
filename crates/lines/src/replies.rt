//! Formatting of output lines.
ghost use Rattle.std.specs.Prelude.{◌≡◌, ◌≤◌, ◌<◌, ◌+◌, ◌*◌, ◌++◌, ◌∷◌, [], length, codes};
ghost use Rattle.model_guests.specs.Replies.{who_text, reply_text, line_text, hex_digits};
ghost use Rattle.accesses.specs.{Accesses.reply_of, Replies.IsShown};
ghost use Rattle.lines.specs.Lines.{texts, who_of, GuestIs};

use crate::line::Who;
use accesses::{Names, Reply};
use arrayvec::ArrayVec;

/// The maximum length in bytes of an output line that answers a line, with its line feed.
pub const LONGEST_REPLY: usize = 48;

/// An output line with its line feed: a name of at most 16 bytes, a colon, a space, and a reply of
/// at most the length of `refused 402 unknown guest`.
pub type LineText = ArrayVec<u8, LONGEST_REPLY>;

/// The two hexadecimal digits of each byte. One table lookup is faster than a shift, a mask and a
/// lookup for each digit.
#[rattlefmt::skip]
static PAIRS: &[u8; 512] = b"\
    000102030405060708090a0b0c0d0e0f\
    101112131415161718191a1b1c1d1e1f\
    202122232425262728292a2b2c2d2e2f\
    303132333435363738393a3b3c3d3e3f\
    404142434445464748494a4b4c4d4e4f\
    505152535455565758595a5b5c5d5e5f\
    606162636465666768696a6b6c6d6e6f\
    707172737475767778797a7b7c7d7e7f\
    808182838485868788898a8b8c8d8e8f\
    909192939495969798999a9b9c9d9e9f\
    a0a1a2a3a4a5a6a7a8a9aaabacadaeaf\
    b0b1b2b3b4b5b6b7b8b9babbbcbdbebf\
    c0c1c2c3c4c5c6c7c8c9cacbcccdcecf\
    d0d1d2d3d4d5d6d7d8d9dadbdcdddedf\
    e0e1e2e3e4e5e6e7e8e9eaebecedeeef\
    f0f1f2f3f4f5f6f7f8f9fafbfcfdfeff";

fn push_all(text: &mut LineText, bytes: &[u8])
    requires { length text.old.items + length bytes.now ≤ 48 }
    ensures items { text.new.items ≡ text.old.items ++ bytes.now }
    ensures len { length text.new.items ≡ length text.old.items + length bytes.now }
{
    let _ = text.try_extend_from_slice(bytes);
}

/// Appends a name. A name of one letter doesn't need the call that copies bytes.
fn push_name(text: &mut LineText, name: &[u8])
    requires { length text.old.items + length name.now ≤ 48 }
    ensures items { text.new.items ≡ text.old.items ++ name.now }
    ensures len { length text.new.items ≡ length text.old.items + length name.now }
{
    match name {
        [letter] => text.push(*letter),
        _ => push_all(text, name),
    }
}

/// Appends the two hexadecimal digits of a byte.
#[inline]
fn push_hex_byte(text: &mut LineText, byte: u8)
    requires { length text.old.items + 2 ≤ 48 }
    ensures items { text.new.items ≡ text.old.items ++ hex_digits 2 byte }
    ensures len { length text.new.items ≡ length text.old.items + 2 }
{
    let at = 2 * usize::from(byte);
    text.push(PAIRS[at]);
    text.push(PAIRS[at + 1]);
}

/// Appends the low `width` bytes of a value as hexadecimal digits. There are at most four bytes,
/// and a loop would be slower.
fn push_hex_bytes(text: &mut LineText, value: u32, width: u64)
    requires few { width ≤ 4 }
    requires room { length text.old.items + 2 * width ≤ 48 }
    ensures items { text.new.items ≡ text.old.items ++ hex_digits (2 * width) value }
    ensures len { length text.new.items ≡ length text.old.items + 2 * width }
{
    if width > 3 {
        push_hex_byte(text, (value >> 24) as u8);
    }
    if width > 2 {
        push_hex_byte(text, ((value >> 16) % 256) as u8);
    }
    if width > 1 {
        push_hex_byte(text, ((value >> 8) % 256) as u8);
    }
    if width > 0 {
        push_hex_byte(text, (value % 256) as u8);
    }
}

/// Returns the name under which a line is answered.
fn answer_name<'a>(who: Who, names: &'a Names) -> &'a [u8]
    requires { GuestIs (λ g. g < length names.now.items) who }
    ensures name { result.now ≡ who_text (who_of (texts names.now) who) }
    ensures short { length result.now ≤ 16 }
{
    match who {
        Who::Guest(guest) => names.as_slice()[guest].as_str().as_bytes(),
        Who::Host => b"host",
        Who::Unknown => b"?",
    }
}

/// Writes a reply to `text` as an output line that begins with `name`, with its line feed. `text`
/// must be empty.
#[inline(always)]
pub fn write_named_reply_line(text: &mut LineText, name: &[u8], reply: Reply)
    requires empty { text.old.items ≡ [] }
    requires short { length name.now ≤ 16 }
    requires reply { IsShown reply }
    ensures { text.new.items
        ≡ name.now ++ codes ": " ++ reply_text (reply_of reply) ++ 10 ∷ [] }
{
    push_name(text, name);
    text.push(b':');
    text.push(b' ');
    match reply {
        Reply::Value(value, width) => {
            text.push(b'0');
            text.push(b'x');
            push_hex_bytes(text, value, width);
        }
        Reply::Done => push_all(text, b"ok"),
        Reply::Refused(why) => push_all(text, why.text()),
    }
    text.push(b'\n');
}

/// Writes a reply to `text` as an output line with its line feed. `text` must be empty.
#[inline(always)]
pub fn write_reply_line(text: &mut LineText, who: Who, names: &Names, reply: Reply)
    requires empty { text.old.items ≡ [] }
    requires who { GuestIs (λ g. g < length names.now.items) who }
    requires reply { IsShown reply }
    ensures { text.new.items
        ≡ line_text (who_of (texts names.now) who) (reply_of reply) ++ 10 ∷ [] }
{
    write_named_reply_line(text, answer_name(who, names), reply);
}

/// Returns a reply as an output line, with its line feed.
pub fn reply_line_text(who: Who, names: &Names, reply: Reply) -> LineText
    requires who { GuestIs (λ g. g < length names.now.items) who }
    requires reply { IsShown reply }
    ensures { result.items
        ≡ line_text (who_of (texts names.now) who) (reply_of reply) ++ 10 ∷ [] }
{
    let mut text = LineText::new();
    write_reply_line(&mut text, who, names, reply);
    text
}
