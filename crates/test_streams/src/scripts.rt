//! Scripts with their output, and runs of scripts over readers and writers in fixed arrays.
use crate::board::MAIN;
use simulation::{Fault, demo, whole};
use std::process::Abort;
use test_fakes::{FakeReader, FakeWriter};

/// The board on which a script runs.
#[derive(Clone, Copy)]
pub(crate) enum Board {
    Demo,
    Main,
}

/// A script with its expected output.
#[derive(Clone, Copy)]
pub(crate) struct Example<'a> {
    pub(crate) board: Board,
    pub(crate) script: &'a [u8],
    pub(crate) output: &'a [u8],
}

/// Three lines for the demo board.
pub(crate) const SHORT: Example<'static> = Example {
    board: Board::Demo,
    script: b"a cr 0 0 4\na cw 0 4 4 7\na cr 0 4 4\n",
    output: b"a: 0x00011234\na: ok\na: 0x80000007\n",
};

/// A guest reads Command and Status, enables memory, programs its BAR, writes to it, reads back,
/// and disables memory. The host reads the bytes and the board's own Command, and the other guest
/// gets all ones.
pub(crate) const LONG: Example<'static> = Example {
    board: Board::Main,
    script: b"a cr 0 4 4
a cw 0 4 4 0xffff0003
a cr 0 4 4
a cw 0 0x14 4 0x80000000
a mw 0x80000010 4 0x12345678
host mr 0xc0100010 4
a mr 0x80000012 2
a cw 0 4 4 0
host cr 00:01.0 4 4
b mr 0x80000010 4
",
    output: b"a: 0x80000000
a: ok
a: 0x00000003
a: ok
a: ok
host: 0x12345678
a: 0x1234
a: ok
host: 0x00000003
b: 0xffffffff
",
};

/// How many bytes a read gives and a write accepts, and which read and which call of the writer
/// fail, counted from 0.
#[derive(Clone, Copy)]
pub(crate) struct Streams {
    pub(crate) per_read: usize,
    pub(crate) failing_read: Option<u32>,
    pub(crate) per_write: usize,
    pub(crate) failing_call: Option<u32>,
}

impl Streams {
    /// Returns streams that don't fail.
    pub(crate) fn infallible(per_read: usize, per_write: usize) -> Streams {
        Streams {
            per_read,
            failing_read: None,
            per_write,
            failing_call: None,
        }
    }
}

/// Runs a script, and returns how the run ended and the writer with the output.
pub(crate) fn run_example(
    rt: &(impl AllocGlobal + Abort),
    example: Example<'_>,
    streams: Streams,
) -> (Result<(), Fault>, FakeWriter<128>) {
    assert!(rt; streams.per_read > 0);
    let mut reader = FakeReader::new(example.script, streams.per_read, streams.failing_read);
    let mut writer = FakeWriter::<128>::new(streams.per_write, streams.failing_call);
    let end = match example.board {
        Board::Demo => demo(rt.alloc(), &mut reader, &mut writer),
        Board::Main => whole(rt.alloc(), MAIN.as_bytes(), &mut reader, &mut writer),
    };
    (end, writer)
}
