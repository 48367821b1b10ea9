//! Reading of board files.
ghost use Rattle.std.specs.Prelude.{◌≡◌, IfErr};

use crate::hints::unreadable_file_hint;
use board_told::Fault;
use std::alloc::Global;
use std::fs;
use std::io::{ErrorKind, Read};
use std::rt::Files;

/// Returns the content of the file at `path`, or the system's error. Exhausted memory is one of
/// these errors.
fn read_file(rt: &impl Files, alloc: Global, path: &str) -> Result<Vec<u8>, ErrorKind> {
    let mut file = match fs::open(rt, path) {
        Ok(file) => file,
        Err(error) => return Err(error.kind()),
    };
    let mut bytes = Vec::new(alloc);
    match file.read_to_end(&mut bytes) {
        Ok(_) => Ok(bytes),
        Err(error) => Err(error.kind()),
    }
}

/// Returns the content of the board file at `path`. Fails if the file can't be opened or read, or
/// if memory is exhausted.
pub fn board_bytes(rt: &impl Files, alloc: Global, path: &str) -> Result<Vec<u8>, Fault>
    ensures { IfErr result (λ f. f ≡ Fault.BoardFile) }
{
    match read_file(rt, alloc, path) {
        Ok(bytes) => Ok(bytes),
        Err(_) => Err(Fault::BoardFile),
    }
}

/// Returns the content of the board file at `path`. On failure, returns a line that explains the
/// reason, if there is memory for it.
pub fn read_board_or_hint(
    rt: &impl Files,
    alloc: Global,
    path: &str,
) -> Result<Vec<u8>, Option<String>> {
    match read_file(rt, alloc, path) {
        Ok(bytes) => Ok(bytes),
        Err(why) => Err(unreadable_file_hint(alloc, path, why).ok()),
    }
}
