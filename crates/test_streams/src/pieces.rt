//! Scripts whose output must not depend on how many bytes a read gives.
use crate::scripts::{Board, Example, LONG, Streams, run_example};
use std::process::Abort;
use std::test::Fail;

/// Scripts for the main board, with their output.
const SCRIPTS: [(&[u8], &[u8]); 8] = [
    (
        b"a cw 0 0x10 4 0xffffffff
a cr 0 0x10 4
host cr 00:01.0 0x10 4
",
        b"a: ok
a: 0xffffffe1
host: 0x00002001
",
    ),
    (
        b"a cw 1 0x10 4 0xffffffff
a cr 1 0x14 4
a cw 1 0x14 4 0xffffffff
a cr 1 0x10 4
a cr 1 0x14 4
",
        b"a: ok
a: 0x00000000
a: ok
a: 0xff00000c
a: 0xffffffff
",
    ),
    (
        b"b cr 5 0 2
b cw 5 0 2 1
b cr 32 0 2
b cr 0 256 1
b raise 5 cfg 7 0x80
",
        b"b: 0xffff
b: ok
b: refused 303 range
b: refused 303 range
b: refused 601 empty slot
",
    ),
    (
        b"a cw 0 4 2 2
a cw 0 0x14 4 0xffffffff
a mr 0xfffffffc 4
a mr 0x100000000 4
",
        b"a: ok
a: ok
a: 0x00000000
a: 0xffffffff
",
    ),
    (
        b"a cw 0 4 2 2
a cw 1 4 2 2
a cw 0 0x14 4 0x80000000
a cw 1 0x10 4 0x80000000
a mr 0x80000000 4
a cw 0 4 2 0
a mr 0x80000000 4
",
        b"a: ok
a: ok
a: ok
a: ok
a: 0x00000000
a: ok
a: 0xa5a5a5a5
",
    ),
    (
        b"a mr 1 4
a mr 0 3
a mr 1 3
a cr 40 1 2
",
        b"a: refused 301 misaligned
a: refused 302 width
a: refused 302 width
a: refused 301 misaligned
",
    ),
    (
        b"c cr 0 0 4
host raise 0 cfg 7 1
",
        b"?: refused 402 unknown guest
host: refused 401 bad line
",
    ),
    (b"a cr 0 0", b"a: refused 401 bad line\n"),
];

/// Checks the output of a script when each read returns at most `per_read` bytes.
fn assert_answered(rt: &(impl AllocGlobal + Abort), example: Example<'_>, per_read: usize) {
    let (end, writer) = run_example(rt, example, Streams::infallible(per_read, 128));
    assert_eq!(rt; end, Ok(()), "{per_read} bytes a read");
    assert_eq!(rt; writer.flushed(), example.output, "{per_read} bytes a read");
}

fn assert_output_in_pieces(rt: &(impl AllocGlobal + Abort), example: Example<'_>) {
    assert_answered(rt, example, 1);
    assert_answered(rt, example, 7);
    assert_answered(rt, example, 4096);
}

fn assert_output_on_main_board(rt: &(impl AllocGlobal + Abort), script: &[u8], output: &[u8]) {
    let board = Board::Main;
    assert_output_in_pieces(
        rt,
        Example {
            board,
            script,
            output,
        },
    );
}

#[test]
fn scripts_in_pieces(rt: HostRuntime) -> Result<(), Fail> {
    assert_output_in_pieces(&rt, LONG);
    for (script, output) in SCRIPTS {
        assert_output_on_main_board(&rt, script, output);
    }
    Ok(())
}

/// A comment of 200 bytes, one of 201 bytes, and an empty script.
#[test]
fn comments_in_pieces(rt: HostRuntime) -> Result<(), Fail> {
    assert_output_on_main_board(&rt, &[b'#'; 200], b"");
    assert_output_on_main_board(&rt, &[b'#'; 201], b"?: refused 403 long line\n");
    assert_output_on_main_board(&rt, b"", b"");
    Ok(())
}

/// A line of 100,000 bytes is refused without being stored, and the next line is answered.
#[test]
fn a_long_line_in_pieces(rt: HostRuntime) -> Result<(), Fail> {
    let mut script = vec![in rt.alloc(); b'x'; 100_000]?;
    script.extend_from_slice(b"\na cr 0 0 4\n")?;
    let example = Example {
        board: Board::Demo,
        script: script.as_slice(),
        output: b"?: refused 403 long line\na: 0x00011234\n",
    };
    assert_output_in_pieces(&rt, example);
    Ok(())
}
