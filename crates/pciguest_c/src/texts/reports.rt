//! The calls that write the report of a board file or check it, and functions that write a text to
//! the caller's buffer.
ghost use Rattle.std.specs.Prelude.{◌≡◌, ◌≢◌, ◌<◌, ◌≤◌, ◌⊎◌, length};
ghost use Rattle.model_guests.specs.Text.{Text};
ghost use Rattle.pciguest_c.specs.{Checks.{IsCheckOf, IsReportIn}, TextsTold.{IsTold, at_front, form_of}};

use crate::texts::forms::{check_text_and_fault_number, form_of, report_or_error};
use crate::values::numbers::ARGUMENT;
use std::alloc::Global;

/// Copies a text, or rows, to the front of a large enough buffer.
pub fn copy_whole_to_front<T: Copy>(out: &mut [T], text: &[T])
    requires { length text.now ≤ length out.old }
    ensures { out.new ≡ at_front text.now out.old }
{
    out[..text.len()].copy_from_slice(text);
}

/// Stores the length of a text in `needed`, and copies the text to the front of `out`. The text may
/// also be an array of rows, whose length is their number. Returns 902 if `out` is too small.
pub fn store_text_if_fits<T: Copy>(text: &[T], out: &mut [T], needed: &mut usize) -> u32
    ensures text { IsTold text.now out.old out.new result }
    ensures needed { needed.new ≡ length text.now }
{
    *needed = text.len();
    if out.len() < text.len() {
        return ARGUMENT;
    }
    copy_whole_to_front(out, text);
    0
}

/// Calls `store_text_if_fits` for a text, and also stores a count if the text fits.
pub fn store_text_and_count_if_fits(
    text: &[u8],
    counted: usize,
    out: &mut [u8],
    needed: &mut usize,
    count: &mut usize,
) -> u32
    ensures text { IsTold text.now out.old out.new result }
    ensures needed { needed.new ≡ length text.now }
    ensures count { result ≡ 0 → count.new ≡ counted }
    ensures uncounted { result ≢ 0 → count.new ≡ count.old }
{
    let number = store_text_if_fits(text, out, needed);
    if number == 0 {
        *count = counted;
    }
    number
}

/// Writes the report of a board file to the front of `out`, as lines or as a one-line JSON object,
/// and stores the length of the report even if `out` is too small.
#[unsafe(no_mangle)]
pub extern "C" fn pciguest_raw_report_in(
    alloc: Global,
    board: &[u8],
    out: &mut [u8],
    needed: &mut usize,
    is_json: bool,
) -> u32
    ensures { let form = form_of is_json in
        IsReportIn form board.now out.old out.new needed.old needed.new result }
{
    match report_or_error(alloc, board, form_of(is_json)) {
        Ok(text) => store_text_if_fits(text.as_bytes(), out, needed),
        Err(number) => number,
    }
}

/// Checks a board file, called `board.toml` in the text. Writes the text to the front of `out`, and
/// stores its length even if `out` is too small.
#[unsafe(no_mangle)]
pub extern "C" fn pciguest_raw_check(
    alloc: Global,
    board: &[u8],
    out: &mut [u8],
    needed: &mut usize,
) -> u32
    ensures number { result < 299 → result ≢ 199 → IsCheckOf board.now result }
    ensures told { result < 299 → result ≢ 199 → (text : Text)
        × (out.new ≡ at_front text out.old) × (needed.new ≡ length text) }
    ensures room { result ≡ 902 → length out.old < needed.new }
    ensures numbers { (result ≤ 299) ⊎ (result ≡ 902) }
    ensures unwritten { (result ≡ 199) ⊎ (result ≡ 299) ⊎ (result ≡ 902) →
        out.new ≡ out.old }
    ensures untold { (result ≡ 199) ⊎ (result ≡ 299) → needed.new ≡ needed.old }
{
    match check_text_and_fault_number(alloc, board) {
        Ok((text, number)) => {
            if store_text_if_fits(text.as_bytes(), out, needed) == 0 {
                number
            } else {
                ARGUMENT
            }
        }
        Err(number) => number,
    }
}
