//! Streams that fail at each of their calls in turn.
use crate::scripts::{Board, Example, LONG, SHORT, Streams, run_example};
use simulation::Fault;
use std::process::Abort;
use std::test::Fail;

/// Checks that a run over failing streams ends with this fault, after writing a prefix of the
/// output.
fn assert_run_fails_with(
    rt: &(impl AllocGlobal + Abort),
    example: Example<'_>,
    streams: Streams,
    fault: Fault,
) {
    let (end, writer) = run_example(rt, example, streams);
    assert_eq!(rt; end, Err(fault));
    assert!(rt; example.output.starts_with(writer.bytes()));
    assert!(rt; writer.bytes().starts_with(writer.flushed()));
}

/// Lets each of `reads` reads and each of `calls` writes and flushes fail in turn. If none fails,
/// all output is written and flushed.
fn assert_each_failure_stops_run(
    rt: &(impl AllocGlobal + Abort),
    example: Example<'_>,
    streams: Streams,
    (reads, calls): (u32, u32),
) {
    for read in 0..reads {
        let failing_read = Some(read);
        let streams = Streams {
            failing_read,
            ..streams
        };
        assert_run_fails_with(rt, example, streams, Fault::Read);
    }
    for call in 0..calls {
        let failing_call = Some(call);
        let streams = Streams {
            failing_call,
            ..streams
        };
        assert_run_fails_with(rt, example, streams, Fault::Write);
    }
    let (end, writer) = run_example(rt, example, streams);
    assert_eq!(rt; end, Ok(()));
    assert_eq!(rt; writer.flushed(), example.output);
}

/// An answer needs one write, or several if a write accepts only five bytes. There is a flush
/// before the end is read and one at the end, and one after each answer if a read gives one byte.
#[test]
fn streams_fail_in_turn(rt: HostRuntime) {
    assert_each_failure_stops_run(&rt, SHORT, Streams::infallible(64, 64), (2, 5));
    assert_each_failure_stops_run(&rt, LONG, Streams::infallible(4096, 128), (2, 12));
    assert_each_failure_stops_run(&rt, LONG, Streams::infallible(4096, 5), (2, 29));
    assert_each_failure_stops_run(&rt, LONG, Streams::infallible(1, 128), (189, 21));
}

/// A line that is cut off by a failing read isn't executed.
#[test]
fn a_cut_line_is_not_executed(rt: HostRuntime) {
    let cut = Example {
        board: Board::Main,
        script: b"a cr 0 0 4\na cr 0 0",
        output: b"a: 0x00011234\na: refused 401 bad line\n",
    };
    let streams = Streams {
        failing_read: Some(1),
        ..Streams::infallible(64, 128)
    };
    let (end, writer) = run_example(&rt, cut, streams);
    assert_eq!(rt; end, Err(Fault::Read));
    assert_eq!(rt; writer.bytes(), b"a: 0x00011234\n".as_slice());
}

/// A write that accepts no bytes fails, and so does a failing write after one that accepted five
/// bytes.
#[test]
fn a_failing_write_leaves_a_prefix(rt: HostRuntime) {
    let line = Example {
        board: Board::Main,
        script: b"a cr 0 0 4",
        output: b"a: 0x00011234\n",
    };
    let five = Streams {
        failing_call: Some(1),
        ..Streams::infallible(64, 5)
    };
    let rows = [
        (five, b"a: 0x".as_slice()),
        (Streams::infallible(64, 0), b""),
    ];
    for (streams, written) in rows {
        let (end, writer) = run_example(&rt, line, streams);
        assert_eq!(rt; end, Err(Fault::Write));
        assert_eq!(rt; writer.bytes(), written);
    }
}
