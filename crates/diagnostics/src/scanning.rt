//! Scans a TOML text for its scalars. The scanner is only a heuristic: each place is confirmed
//! before a message refers to it.
ghost use Rattle.std.specs.{Prelude.{◌≡◌, ◌<◌, ◌≤◌, ◌+◌, length, unwrap_or}, List.slice_get};

use std::alloc::{AllocError, Global};

/// A range of bytes of a text.
#[derive(Clone, Copy)]
pub(crate) struct Extent {
    pub(crate) start: usize,
    pub(crate) end: usize,
}

/// The token expected next, outside strings and comments.
#[derive(Clone, Copy, PartialEq, Eq)]
enum Mode {
    Key,
    Value,
    After,
}

/// The delimiter of a string.
#[derive(Clone, Copy)]
struct Quotes {
    byte: u8,
    /// The number of quotes on each side: 1 or 3.
    count: usize,
}

/// The state of a scan.
#[derive(Drop)]
struct ScalarScanner {
    mode: Mode,
    /// The open brackets, innermost last.
    brackets: Vec<u8>,
    /// The end offset of the latest string, comment or scalar. Bytes before it are skipped.
    next: usize,
    /// The scalars found so far.
    scalars: Vec<Extent>,
}

/// Returns the byte `places` after `at`, or 0 past the end of the text.
fn byte_after_or_zero(text: &[u8], at: usize, places: usize) -> u8
    requires { places ≤ 3 }
    ensures { result ≡ unwrap_or (slice_get text.now (at + places)) 0 }
{
    match at.checked_add(places) {
        Some(i) => match text.get(i) {
            Some(byte) => *byte,
            None => 0,
        },
        None => 0,
    }
}

/// Returns whether three copies of `byte` begin at `at`.
fn has_three_at(text: &[u8], at: usize, byte: u8) -> bool {
    byte_after_or_zero(text, at, 0) == byte
        && byte_after_or_zero(text, at, 1) == byte
        && byte_after_or_zero(text, at, 2) == byte
}

/// Returns whether the closing quotes of a string begin at `at`. In a run of more than three
/// quotes, the last three close the string.
fn is_closing_quotes_at(text: &[u8], at: usize, quotes: Quotes) -> bool
    requires { at < length text.now }
{
    text[at] == quotes.byte
        && (quotes.count == 1
            || has_three_at(text, at, quotes.byte)
                && byte_after_or_zero(text, at, 3) != quotes.byte)
}

/// Returns the end offset of a string, including its closing quotes. `from` is the offset after the
/// opening quotes.
fn quoted_string_end(text: &[u8], from: usize, quotes: Quotes) -> usize {
    let mut is_escaped = false;
    for at in from..text.len() {
        if is_escaped {
            is_escaped = false;
        } else if text[at] == b'\\' && quotes.byte == b'"' {
            is_escaped = true;
        } else if is_closing_quotes_at(text, at, quotes) {
            return at.saturating_add(quotes.count);
        }
    }
    text.len()
}

/// Returns the end offset of a comment.
fn comment_end(text: &[u8], from: usize) -> usize {
    for at in from..text.len() {
        if text[at] == b'\n' {
            return at;
        }
    }
    text.len()
}

/// Returns the end offset of a scalar without quotes. Trailing blanks aren't part of the scalar.
fn unquoted_scalar_end(text: &[u8], from: usize) -> usize {
    let mut end = from;
    for at in from..text.len() {
        match text[at] {
            b',' | b']' | b'}' | b'#' | b'\n' => return end,
            b' ' | b'\t' | b'\r' => {}
            _ => end = at + 1,
        }
    }
    end
}

impl ScalarScanner {
    fn new(alloc: Global) -> ScalarScanner {
        ScalarScanner {
            mode: Mode::Key,
            brackets: Vec::new(alloc),
            next: 0,
            scalars: Vec::new(alloc),
        }
    }

    /// Returns whether the innermost open bracket is that of an inline table.
    fn is_in_inline_table(&self) -> bool {
        match self.brackets.last() {
            Some(byte) => *byte == b'{',
            None => false,
        }
    }

    /// Handles a byte of a key or a table header.
    fn scan_key_byte(&mut self, text: &[u8], at: usize)
        requires { at < length text.now }
    {
        match text[at] {
            byte @ (b'"' | b'\'') => self.next = quoted_string_end(
                text,
                at + 1,
                Quotes { byte, count: 1 },
            ),
            b'=' => self.mode = Mode::Value,
            b']' if byte_after_or_zero(text, at, 1) != b']' => self.mode = Mode::After,
            _ => {}
        }
    }

    /// Records the scalar that begins at `at`.
    fn record_scalar_at(&mut self, text: &[u8], at: usize) -> Result<(), AllocError>
        requires { at < length text.now }
    {
        let byte = text[at];
        let end = if byte != b'"' && byte != b'\'' {
            unquoted_scalar_end(text, at)
        } else if has_three_at(text, at, byte) {
            quoted_string_end(text, at + 3, Quotes { byte, count: 3 })
        } else {
            quoted_string_end(text, at + 1, Quotes { byte, count: 1 })
        };
        self.mode = Mode::After;
        self.next = end;
        self.scalars.push(Extent { start: at, end })?;
        Ok(())
    }

    /// Handles the first byte of a value.
    fn begin_value(&mut self, text: &[u8], at: usize) -> Result<(), AllocError>
        requires { at < length text.now }
    {
        match text[at] {
            b'[' => self.brackets.push(b'[')?,
            b'{' => {
                self.mode = Mode::Key;
                self.brackets.push(b'{')?;
            }
            _ => self.record_scalar_at(text, at)?,
        }
        Ok(())
    }

    /// Handles the end of a line: a key comes next, unless a bracket is still open.
    fn expect_key_unless_nested(&mut self) {
        if self.brackets.is_empty() {
            self.mode = Mode::Key;
        }
    }

    /// Handles a comma, or the bracket that closes an array or an inline table.
    fn scan_comma_or_close(&mut self, byte: u8) {
        self.mode = if byte != b',' {
            let _ = self.brackets.pop();
            Mode::After
        } else if self.is_in_inline_table() {
            Mode::Key
        } else {
            Mode::Value
        };
    }

    /// Handles the first byte of a token.
    fn scan_token_start(&mut self, text: &[u8], at: usize) -> Result<(), AllocError>
        requires { at < length text.now }
    {
        match (text[at], self.mode) {
            (b' ' | b'\t' | b'\r', _) => {}
            (b'\n', _) => self.expect_key_unless_nested(),
            (b'#', _) => self.next = comment_end(text, at),
            (byte @ (b',' | b'}'), _) => self.scan_comma_or_close(byte),
            (_, Mode::Key) => self.scan_key_byte(text, at),
            (b']', _) => self.scan_comma_or_close(b']'),
            (_, Mode::Value) => return self.begin_value(text, at),
            (_, Mode::After) => {}
        }
        Ok(())
    }
}

/// Returns the scalars of a TOML document in the order of the text.
pub(crate) fn scan_scalars(alloc: Global, text: &[u8]) -> Result<Vec<Extent>, AllocError> {
    let mut scanner = ScalarScanner::new(alloc);
    for at in 0..text.len() {
        if at >= scanner.next {
            scanner.scan_token_start(text, at)?;
        }
    }
    Ok(scanner.scalars)
}
