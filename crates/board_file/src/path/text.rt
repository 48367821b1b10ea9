//! Parsing of paths.
ghost use Rattle.std.specs.{Prelude.{◌≡◌, ◌+◌, ◌≤◌, ◌++◌, length, nat_lt, option_map, is_some, IfSome}, List.list_all};
ghost use Rattle.board_file.specs.{EntryRules.are_same_valid_path, PathTexts.{parse_one_digit_part, parse_two_digit_part, parse_leading_part, parts_after, parse_path, is_path_text, is_path_within, path_at}};

use paths::{Part, Path};
use std::marker::Model;

/// Parses a part with a one-digit device at the start of a text. Returns the part and the rest of
/// the text.
fn parse_one_digit_part(text: &[u8]) -> Option<(Part, &[u8])>
    ensures { option_map (λ p. (p.0, p.1.now)) result ≡ parse_one_digit_part text.now }
{
    match text {
        [
            device @ b'0'..=b'9',
            b'.',
            function @ b'0'..=b'7',
            rest @ ..,
        ] => { Some((Part::new(*device - b'0', *function - b'0'), rest)) }
        _ => None,
    }
}

/// Parses a part with device 10 to 31 at the start of a text. Returns the part and the rest of the
/// text.
fn parse_two_digit_part(text: &[u8]) -> Option<(Part, &[u8])>
    ensures { option_map (λ p. (p.0, p.1.now)) result ≡ parse_two_digit_part text.now }
{
    match text {
        [
            tens @ b'1'..=b'3',
            unit @ b'0'..=b'9',
            b'.',
            function @ b'0'..=b'7',
            rest @ ..,
        ] => {
            let device = 10 * (*tens - b'0') + (*unit - b'0');
            if device > 31 {
                return None;
            }
            Some((Part::new(device, *function - b'0'), rest))
        }
        _ => None,
    }
}

/// Parses the part at the start of a text. Returns the part and the rest of the text.
fn parse_leading_part(text: &[u8]) -> Option<(Part, &[u8])>
    ensures { option_map (λ p. (p.0, p.1.now)) result ≡ parse_leading_part text.now }
{
    match parse_one_digit_part(text) {
        Some(found) => Some(found),
        None => parse_two_digit_part(text),
    }
}

/// Parses the parts of a text, each after a slash, and appends them to the path. Returns false if
/// the text isn't valid or has more than `room` parts.
fn parse_slash_parts_into(path: &mut Path, text: &[u8], room: usize) -> bool
    requires { length path.old + room ≤ 16 }
    ensures all { result ≡ is_some (parts_after room text.now) }
    ensures pushed { IfSome (parts_after room text.now) (λ ps. path.new ≡ path.old ++ ps) }
{
    match text {
        [] => true,
        [slash, rest @ ..] => {
            if room == 0 || *slash != b'/' {
                return false;
            }
            match parse_leading_part(rest) {
                Some(found) => {
                    path.push(found.0);
                    parse_slash_parts_into(path, found.1, room - 1)
                }
                None => false,
            }
        }
    }
}

/// Parses a path: 1 to 16 parts, separated by slashes. A part is a device from 0 to 31, a dot and a
/// function from 0 to 7, without leading zeros.
pub fn parse_path(text: &[u8]) -> Option<Path>
    ensures { result ≡ parse_path text.now }
{
    match parse_leading_part(text) {
        Some((part, after)) => {
            let mut path = Path::on_root(part);
            if parse_slash_parts_into(&mut path, after, 15) {
                Some(path)
            } else {
                None
            }
        }
        None => None,
    }
}

fn are_devices_below(parts: &[Part], limit: u8) -> bool
    ensures { result ≡ list_all (λ p. nat_lt p.device limit) parts.now }
{
    parts.iter().all(|part| part.device() < limit)
}

/// The text of a path, parsed but not necessarily valid.
#[derive(Drop)]
pub struct PathText<'a> {
    text: &'a str,
    path: Option<Path>,
}

impl<'a> Model for PathText<'a> {
    ghost use Rattle.std.specs.Prelude.{◌≡◌, ℕ, List};
    ghost use Rattle.board_file.specs.PathTexts.{parse_path};

    ghost Value = { List ℕ };

    ghost view = { λ p. p.text.now };

    ghost invariant = { λ p. p.path ≡ parse_path p.text.now };
}

impl<'a> PathText<'a> {
    /// Parses a text.
    pub fn new(text: &'a str) -> PathText<'a>
        ensures { result ≡ text.now }
    {
        PathText {
            text,
            path: parse_path(text.as_bytes()),
        }
    }

    /// Returns the text as written.
    pub fn text(&self) -> &'a str
        ensures { result.now ≡ self.now }
    {
        self.text
    }

    /// Returns whether the text is a valid path.
    pub fn is_path(&self) -> bool
        ensures { result ≡ is_path_text self.now }
    {
        self.path.is_some()
    }

    /// Returns whether the text is a valid path whose devices are below `limit`.
    pub fn is_path_within(&self, limit: u8) -> bool
        ensures { result ≡ is_path_within limit self.now }
    {
        match &self.path {
            Some(path) => are_devices_below(path.parts(), limit),
            None => false,
        }
    }

    /// Returns the path, or `0.0` if the text isn't a valid path.
    pub fn path_or_zero(&self) -> Path
        ensures { result ≡ path_at self.now }
    {
        match &self.path {
            Some(path) => path.copied(),
            None => Path::on_root(Part::new(0, 0)),
        }
    }
}

/// Returns whether both texts are valid and are the same path. Compares the paths without copying
/// them.
pub fn are_same_valid_path(one: &PathText<'_>, other: &PathText<'_>) -> bool
    ensures { result ≡ are_same_valid_path one.now other.now }
{
    match &one.path {
        Some(first) => match &other.path {
            Some(second) => *first == *second,
            None => false,
        },
        None => false,
    }
}
