//! Error messages about malformed lines.
ghost use Rattle.std.specs.Prelude.{◌≡◌, [], IfOk, string_bytes};

use lines::RunStats;
use std::alloc::{AllocError, Global};

/// Returns the error messages about the first bad lines and, if there are more, a last line that
/// counts the rest. The text is empty if there are no bad lines.
pub fn bad_lines_text(alloc: Global, seen: &RunStats) -> Result<String, AllocError>
    ensures silent { seen.now.bad ≡ 0 → IfOk result (λ t. string_bytes t ≡ []) }
{
    let mut text = String::new(alloc);
    if seen.bad == 0 {
        return Ok(text);
    }
    for bad in seen.first.as_slice() {
        writeln!(text, "script:{}: error: {}", bad.line, bad.reason)?;
    }
    match seen.bad.saturating_sub(seen.first.len() as u64) {
        0 => {}
        1 => text.push_str("script: 1 more malformed line\n")?,
        more => writeln!(text, "script: {more} more malformed lines")?,
    }
    Ok(text)
}
