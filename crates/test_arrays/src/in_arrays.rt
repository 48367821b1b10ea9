//! A run whose reader and writer are arrays, so that only the board allocates memory.
use simulation::{Fault, board_bytes, whole};
use std::io::{Read, Write};
use std::rt::Files;
use std::{fs, io};
use test_fakes::{FakeReader, FakeWriter};

/// Reads a file into an array, and returns the number of bytes read. Bytes that don't fit are left
/// out.
fn read_file_prefix(rt: &impl Files, path: &str, bytes: &mut [u8]) -> Option<usize> {
    let mut file = fs::open(rt, path).ok()?;
    file.read(bytes).ok()
}

/// Runs a script file of at most 4096 bytes on the board of a board file, and prints its output.
pub(crate) fn run_in_arrays(
    rt: &(impl AllocGlobal + Files + Print),
    board_path: &str,
    script_path: &str,
) -> Result<(), Fault> {
    let alloc = rt.alloc();
    let board = board_bytes(rt, alloc, board_path)?;
    let mut bytes = [0; 4096];
    let Some(length) = read_file_prefix(rt, script_path, &mut bytes) else {
        return Err(Fault::Read);
    };
    let Some(script) = bytes.get(..length) else {
        return Err(Fault::Read);
    };
    let mut reader = FakeReader::new(script, 64, None);
    let mut writer = FakeWriter::<4096>::new(4096, None);
    whole(alloc, &board, &mut reader, &mut writer)?;
    match io::writer(rt).write_all(writer.flushed()) {
        Ok(()) => Ok(()),
        Err(_) => Err(Fault::Write),
    }
}
