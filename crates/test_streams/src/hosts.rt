//! Configuration cycles, windows, claims and ports of one board, from reset on.
ghost use Rattle.std.specs.Prelude.{◌<◌};

use crate::board::MAIN;
use crate::by_path::path_behind_bridge_2;
use board_file::read_board;
use config_bytes::Cells;
use headers::{Bridge, BridgeDecl, IoDecode, PrefDecode, io_window, mem_window, pref_window};
use host_bridge::{Bdf, Host, Space, TreeWalk};
use std::alloc::Global;
use std::process::Abort;
use std::test::Fail;

/// The first and the last address of a window.
type Window = Option<(u64, u64)>;

/// A call with its expected result. Configuration words are those of function 0 of a device.
#[derive(Clone, Copy)]
enum Step {
    Read(Bdf, u8, u32),
    Write(Bdf, u8, u8, u32),
    Windows(Window, Window, Window),
    /// A claim by the endpoint at 2.0/0.0: the region, and the offset in it.
    Claim(Space, u64, Option<(u8, u64)>),
    In2(u32, u32),
    In4(u32, u32),
    Out4(u32, u32),
}

fn bdf_at(bus: u8, device: u8) -> Bdf
    requires { device < 32 }
{
    Bdf {
        bus,
        device,
        function: 0,
    }
}

/// Returns the windows in the registers of the bridge at 2.0: I/O, memory and prefetchable memory.
fn read_windows_of_bridge_2(alloc: Global, host: &mut Host) -> Result<[Window; 3], Fail> {
    let decl = BridgeDecl::new(0x1234, 2, 0, IoDecode::Bits16, PrefDecode::Bits64)?;
    let mut cells = Bridge::cells(alloc, &decl, false)?;
    for n in 7..13u8 {
        let word = host.config_read(bdf_at(0, 2), 4 * n, 0xf);
        cells.write(4 * u16::from(n), 0xf, word);
    }
    let cells: Cells = cells;
    Ok([
        io_window(&cells, &decl),
        mem_window(&cells, &decl),
        pref_window(&cells, &decl),
    ])
}

fn run_and_assert_step(
    rt: &impl Abort,
    alloc: Global,
    host: &mut Host,
    step: Step,
) -> Result<(), Fail> {
    match step {
        Step::Read(at, off, want) => {
            assert!(rt; off % 4 == 0);
            assert_eq!(rt; host.config_read(at, off, 0xf), want);
        }
        Step::Write(at, off, enables, data) => {
            assert!(rt; off % 4 == 0);
            host.config_write(at, off, enables, data);
        }
        Step::Windows(io, mem, pref) => {
            assert!(rt; read_windows_of_bridge_2(alloc, host)? == [io, mem, pref]);
        }
        Step::Claim(space, addr, want) => {
            let claim = host.claimant(space, addr);
            let at_path = claim
                .as_ref()
                .is_none_or(|it| it.path == path_behind_bridge_2(0));
            assert!(rt; at_path);
            assert_eq!(rt; claim.map(|it| (it.region, it.offset)), want);
        }
        Step::In2(port, want) => {
            assert!(rt; port % 2 == 0);
            assert_eq!(rt; host.inp(&TreeWalk, port, 2), want);
        }
        Step::In4(port, want) => {
            assert!(rt; port % 4 == 0);
            assert_eq!(rt; host.inp(&TreeWalk, port, 4), want);
        }
        Step::Out4(port, value) => {
            assert!(rt; port % 4 == 0);
            host.out(&TreeWalk, port, 4, value);
        }
    }
    Ok(())
}

#[test]
fn calls_of_a_host_from_reset_on(rt: HostRuntime) -> Result<(), Fail> {
    let alloc = rt.alloc();
    let (mut host, _) = read_board(alloc, MAIN.as_bytes())?;
    let (kib, mib) = (Some((0, 0xfff)), Some((0, 0xf_ffff)));
    let pref = Some((0x4_0000_0000, 0x4_00ff_ffff));
    let steps = [
        Step::Windows(kib, mib, mib),
        Step::Claim(Space::Mem, 0, None),
        Step::Read(bdf_at(1, 0), 0, 0xffff_ffff),
        Step::Write(bdf_at(0, 2), 0x18, 0xf, 0x0001_0100),
        Step::Read(bdf_at(1, 0), 0, 0x0003_1234),
        Step::Read(bdf_at(1, 1), 0, 0x0004_1234),
        Step::Read(bdf_at(1, 16), 0, 0xffff_ffff),
        Step::Write(bdf_at(0, 2), 0x24, 0xf, 0x00f1_0001),
        Step::Write(bdf_at(0, 2), 0x28, 0xf, 4),
        Step::Write(bdf_at(0, 2), 0x2c, 0xf, 4),
        Step::Windows(kib, mib, pref),
        Step::Write(bdf_at(0, 2), 0x1c, 3, 0x1010),
        Step::Write(bdf_at(0, 2), 4, 0xf, 3),
        Step::Write(bdf_at(1, 0), 0x14, 0xf, 0x1000),
        Step::Write(bdf_at(1, 0), 4, 0xf, 1),
        Step::Claim(Space::Io, 0x1004, Some((1, 4))),
        Step::In4(0x1004, 0),
        Step::Write(bdf_at(0, 2), 0x1c, 3, 0x00f0),
        Step::Windows(None, mib, pref),
        Step::Claim(Space::Io, 0x1004, None),
        Step::In4(0x1004, 0xffff_ffff),
        Step::Out4(0xcf8, 0x8000_1000),
        Step::In4(0xcfc, 0x0002_1234),
        Step::In2(0xcfe, 0x0002),
        Step::Out4(0xcf8, 0x7fff_ffff),
        Step::In4(0xcf8, 0x00ff_fffc),
        Step::In4(0xcfc, 0xffff_ffff),
        Step::In2(0xcf8, 0xffff),
    ];
    for step in steps {
        run_and_assert_step(&rt, alloc, &mut host, step)?;
    }
    Ok(())
}
