//! The examples in the crate documentation of `host_bridge`, `session`, `window_packing` and
//! `monitor`, as tests.
ghost use Rattle.std.specs.Prelude.{◌≡◌, length};

use crate::board::MAIN;
use accesses::{Access, At, HostAccess, HostAt, Op, Reply};
use board_file::read_board;
use host_bridge::{Bdf, TreeWalk};
use monitor::{Engine, Monitor};
use session::{Board, LineText, Question, Report, ReportForm, Session};
use std::test::Fail;
use window_packing::set_up;

/// Returns the number of guests of a monitor.
fn count_guests(monitor: &Monitor) -> usize
    ensures { result ≡ length monitor.now.world.guests }
{
    monitor.names().len()
}

/// Returns the number of guests of an engine that routes by a walk over the board.
fn count_engine_guests(engine: &Engine<TreeWalk>) -> usize
    ensures { result ≡ length engine.now.world.guests }
{
    engine.names().len()
}

#[test]
fn cycles_and_accesses_of_a_host(rt: HostRuntime) -> Result<(), Fail> {
    let alloc = rt.alloc();
    let (mut host, _) = read_board(alloc, MAIN.as_bytes())?;
    let card = Bdf {
        bus: 0,
        device: 1,
        function: 0,
    };
    let identity = host.config_read(card, 0, 0b1111);
    host.config_write(card, 0x14, 0b1111, 0xc000_0000);
    host.config_write(card, 4, 0b0011, 2);
    host.store(&TreeWalk, 0xc000_0010, 4, 0x1234_5678);
    let low_half = host.load(&TreeWalk, 0xc000_0010, 2);
    assert_eq!(rt; identity, 0x0001_1234);
    assert_eq!(rt; low_half, 0x5678);
    Ok(())
}

#[test]
fn a_bridge_is_numbered_by_hand(rt: HostRuntime) -> Result<(), Fail> {
    let alloc = rt.alloc();
    let board = Board::parse(alloc, MAIN.as_bytes())?;
    let apertures = board.apertures();
    let mut session = Session::from_board(alloc, board);
    let bridge = Bdf {
        bus: 0,
        device: 2,
        function: 0,
    };
    let at = HostAt::Config {
        bdf: bridge,
        off: 0x18,
    };
    let numbers = HostAccess { at, width: 4 };
    let numbered = session
        .board()
        .map(|board| board.write(numbers, 0x0001_0100));
    let mut text = LineText::new();
    let more = session.run_line(b"host cr 01:00.0 0 4", &mut text)?;
    let question = Question {
        report: Report::Audit,
        form: ReportForm::Lines,
    };
    let audit = session.ask(alloc, question, &apertures)?;
    assert!(rt; numbered == Some(Reply::Done));
    assert!(rt; more.is_none());
    assert_eq!(rt; text.as_slice(), b"host: 0x00031234\n".as_slice());
    assert_eq!(rt; audit.text.as_str(), "audit: ok\n");
    assert_eq!(rt; audit.count, 0);
    Ok(())
}

#[test]
fn a_board_is_set_up(rt: HostRuntime) -> Result<(), Fail> {
    let alloc = rt.alloc();
    let (host, _) = read_board(alloc, MAIN.as_bytes())?;
    let ready = set_up(alloc, host)?;
    let found = ready.table().rows().len();
    let (mut host, _, _) = ready.into_parts();
    let card = Bdf {
        bus: 0,
        device: 1,
        function: 0,
    };
    let base = host.config_read(card, 0x14, 0b1111);
    assert_eq!(rt; found, 4);
    assert_eq!(rt; base, 0xc010_0000);
    Ok(())
}

#[test]
fn a_guest_and_the_host_read(rt: HostRuntime) -> Result<(), Fail> {
    let alloc = rt.alloc();
    let (host, guests) = read_board(alloc, MAIN.as_bytes())?;
    let ready = set_up(alloc, host)?;
    let mut monitor = Monitor::new(alloc, ready, &guests)?;
    assert!(rt; 0 < count_guests(&monitor));
    let identity = Access {
        at: At::Config { slot: 0, off: 0 },
        width: 4,
        op: Op::Read,
    };
    let reply = monitor.step(0, identity);
    let at = HostAt::Mem { addr: 0xc010_0000 };
    let seen = monitor.host_read(HostAccess { at, width: 4 });
    assert!(rt; reply == Reply::Value(0x0001_1234, 4));
    assert!(rt; seen == Reply::Value(0, 4));
    Ok(())
}

/// An engine that routes by a walk over the board answers like the monitor.
#[test]
fn a_guest_and_the_host_read_by_a_walk(rt: HostRuntime) -> Result<(), Fail> {
    let alloc = rt.alloc();
    let (host, guests) = read_board(alloc, MAIN.as_bytes())?;
    let ready = set_up(alloc, host)?;
    let mut engine = Engine::new_with_route(alloc, ready, TreeWalk, &guests)?;
    assert!(rt; 0 < count_engine_guests(&engine));
    let identity = Access {
        at: At::Config { slot: 0, off: 0 },
        width: 4,
        op: Op::Read,
    };
    let reply = engine.step(0, identity);
    let at = HostAt::Mem {
        addr: 0x4_0000_0000,
    };
    let seen = engine.host_read(HostAccess { at, width: 4 });
    assert!(rt; reply == Reply::Value(0x0001_1234, 4));
    assert!(rt; seen == Reply::Value(0xa5a5_a5a5, 4));
    Ok(())
}
