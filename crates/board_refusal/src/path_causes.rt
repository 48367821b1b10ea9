//! Paths that were probably meant, and paths at which a function is missing.

use crate::others::first_function_with_path;
use board_file::path::places::{FunctionPath, has_bridge};
use board_file::path::text::{PathText, parse_path};
use board_file::{Entry, Source};
use diagnostics::Shown;
use std::alloc::AllocError;

const DECIMAL: &str = "numbers in a path are decimal, without leading zeros";

/// What to write if a device is above 15.
pub(crate) const DEVICES_KEY: &str = "set devices = 32 in [host] to use devices 16 to 31";

/// Returns the device and function of a part that is written as `lspci` writes it, with two
/// hexadecimal digits for the device.
fn hexadecimal_part(text: &[u8]) -> Option<(u8, u8)> {
    match text {
        [
            sixteens @ b'0'..=b'1',
            unit @ b'0'..=b'9',
            b'.',
            function @ b'0'..=b'7',
        ] => { Some((16 * (*sixteens - b'0') + (*unit - b'0'), *function - b'0')) }
        [
            sixteens @ b'0'..=b'1',
            unit @ b'a'..=b'f',
            b'.',
            function @ b'0'..=b'7',
        ] => {
            Some((
                16 * (*sixteens - b'0') + (*unit - b'a') + 10,
                *function - b'0',
            ))
        }
        _ => None,
    }
}

/// Appends the path that was probably meant by an invalid one, or else the syntax of paths. Appends
/// nothing for a valid path. Recognises the form of `lspci` and leading zeros. A bus has at most
/// `limit` devices.
pub(crate) fn push_path_help(text: &mut String, at: &[u8], limit: u8) -> Result<(), AllocError> {
    let short = match at {
        [b'0', b'0', b':', rest @ ..] => rest,
        _ => at,
    };
    if parse_path(at).is_some() {
        return Ok(());
    }
    if let Some((device, function)) = hexadecimal_part(short) {
        write!(text, "did you mean \"{device}.{function}\"? {DECIMAL}")?;
        return if device < limit {
            Ok(())
        } else {
            write!(text, "; {DEVICES_KEY}")
        };
    }
    if parse_path(short).is_some() {
        return write!(text, "did you mean \"{}\"?", Shown(short));
    }
    write!(
        text,
        "write DEVICE.FUNCTION for each bus, for example \"2.0/1.0\": devices are 0 to {}, functions 0 to 7, without leading zeros",
        limit.saturating_sub(1)
    )
}

/// Appends the first prefix of a path at which there is no bridge.
pub(crate) fn push_first_missing_bridge(
    text: &mut String,
    functions: &[FunctionPath],
    at: &[u8],
) -> Result<(), AllocError> {
    for (count, byte) in at.iter().enumerate() {
        let above = &at[..count];
        if let (b'/', Some(path)) = (*byte, parse_path(above)) {
            if !has_bridge(functions, &path) {
                return write!(text, " {}, but there is none", Shown(above));
            }
        }
    }
    Ok(())
}

/// Appends the path of the missing function 0.
pub(crate) fn push_missing_function_zero(text: &mut String, at: &[u8]) -> Result<(), AllocError> {
    match at.split_last() {
        Some((_, device)) => write!(text, " {}0, but there is none", Shown(device)),
        None => Ok(()),
    }
}

/// Returns why a slot isn't the path of an endpoint alone.
pub(crate) fn why_slot_not_endpoint_alone(source: &Source<'_>, at: &PathText<'_>) -> &'static str {
    match parse_path(at.text().as_bytes()) {
        None => "is not a valid path",
        Some(path) if has_bridge(&source.functions, &path) => match first_function_with_path(
            &source.file,
            at,
        ) {
            Some(Entry::Endpoint(_)) => "is the path of both an endpoint and a bridge",
            _ => "is the path of a bridge, not of an endpoint",
        },
        Some(_) => "is not the path of any endpoint",
    }
}
