//! The state after a refused scan: it can differ from reset only in the bus numbers of bridges.
ghost use Rattle.std.specs.Prelude.{◌<◌, IfOk};
ghost use Rattle.model_board.specs.AtReset.{IsAtReset};

use bars::{BarDecl, Kind};
use bridge_forward::{Bus, Decl, Declared, Part, Path, is_lawful_board};
use bus_scan::{Fault, scan};
use config_bytes::Cell;
use headers::{
    Aperture, Apertures, BridgeDecl, EndpointDecl, EndpointValues, IoDecode, PrefDecode, Region,
};
use host_bridge::{Bdf, Host};
use std::alloc::Global;
use std::process::Abort;
use std::test::Fail;

fn declare_bridge(path: Path) -> Result<Decl, Fail> {
    let decl = BridgeDecl::new(0x1234, 2, 0, IoDecode::Bits32, PrefDecode::Bits64)?;
    let function = Declared::Bridge(decl);
    Ok(Decl { path, function })
}

/// Declares a bridge on bus 0, a second bridge behind it, and an endpoint with a region next to the
/// second bridge.
fn push_branch(alloc: Global, decls: &mut Vec<Decl>, root: Part) -> Result<(), Fail> {
    let mut behind = Path::on_root(root);
    behind.push(Part::new(0, 0));
    let mut beside = Path::on_root(root);
    beside.push(Part::new(1, 0));
    let region = Region {
        index: 0,
        bar: BarDecl::new(Kind::Io, 32)?,
        block: vec![in alloc; Cell::settable(0, 0xff); 32]?,
    };
    let values = EndpointValues {
        pin: 1,
        bar: vec![in alloc; region]?,
        ..EndpointValues::plain(alloc, 0x1234, 1, 0xff_0000)
    };
    decls.push(declare_bridge(Path::on_root(root))?)?;
    decls.push(declare_bridge(behind)?)?;
    decls.push(Decl {
        path: beside,
        function: Declared::Endpoint(EndpointDecl::new(values)?),
    })?;
    Ok(())
}

/// Declares a branch as in `push_branch` at each function of a device.
fn push_branch_per_function(alloc: Global, decls: &mut Vec<Decl>, device: u8) -> Result<(), Fail>
    requires { device < 16 }
{
    for function in 0..8u8 {
        push_branch(alloc, decls, Part::new(device, function))?;
    }
    Ok(())
}

/// Returns a host with one bridge more than there are bus numbers: 128 bridges on bus 0, and one
/// behind each.
fn build_host_with_256_bridges(rt: &impl Abort, alloc: Global) -> Result<Host, Fail>
    ensures { IfOk result (λ h. IsAtReset h.state) }
{
    let mut decls = Vec::new(alloc);
    for device in 0..16u8 {
        push_branch_per_function(alloc, &mut decls, device)?;
    }
    assert!(rt; is_lawful_board(&decls));
    let io = Aperture {
        first: 0x1000,
        last: 0xffff,
    };
    let mem = Aperture {
        first: 0xc000_0000,
        last: 0xdfff_ffff,
    };
    let apertures = Apertures::new(io, mem, None)?;
    Ok(Host::new(Bus::build(alloc, decls)?, apertures))
}

/// Two hosts with the same board, only one of which was scanned.
#[derive(Drop)]
struct Pair {
    scanned: Host,
    at_reset: Host,
}

impl Pair {
    /// Checks that the function at a BDF reads the same on both hosts, except for bytes 18h to 1Ah
    /// of a bridge.
    fn assert_alike(&mut self, rt: &impl Abort, at: Bdf, identity: u32, is_bridge: bool) {
        assert_eq!(rt; self.scanned.config_read(at, 0, 0b1111), identity, "{at:?}");
        for n in 0..64u8 {
            let enables = if is_bridge && n == 6 { 0b1000 } else { 0b1111 };
            let shown = self.scanned.config_read(at, 4 * n, enables);
            let wanted = self.at_reset.config_read(at, 4 * n, enables);
            assert_eq!(rt; shown, wanted, "{at:?}, word {n}");
        }
    }

    /// Programs the bus numbers of the bridge at a BDF, on both hosts.
    fn write_bus_numbers(&mut self, at: Bdf, numbers: u32) {
        self.scanned.config_write(at, 0x18, 0b0111, numbers);
        self.at_reset.config_write(at, 0x18, 0b0111, numbers);
    }

    /// Compares a bridge on bus 0, and the functions behind it while no other bridge leads to bus
    /// 1.
    fn assert_branch_alike(&mut self, rt: &impl Abort, root: Bdf) {
        self.assert_alike(rt, root, BRIDGE, true);
        self.write_bus_numbers(root, 0x0001_0100);
        self.assert_alike(rt, bdf_on_bus(1, 0, 0), BRIDGE, true);
        self.assert_alike(rt, bdf_on_bus(1, 1, 0), ENDPOINT, false);
        self.write_bus_numbers(root, 0);
    }
}

/// The first configuration word of each bridge: Device ID and Vendor ID. `ENDPOINT` is that of each
/// endpoint.
const BRIDGE: u32 = 0x0002_1234;

const ENDPOINT: u32 = 0x0001_1234;

fn bdf_on_bus(bus: u8, device: u8, function: u8) -> Bdf
    requires device { device < 16 }
    requires function { function < 8 }
{
    Bdf {
        bus,
        device,
        function,
    }
}

/// Clears the bus numbers of all bridges at a device of bus 0.
fn clear_bus_numbers_of_all_functions(pair: &mut Pair, device: u8)
    requires { device < 16 }
{
    for function in 0..8u8 {
        pair.write_bus_numbers(bdf_on_bus(0, device, function), 0);
    }
}

fn assert_device_alike(rt: &impl Abort, pair: &mut Pair, device: u8)
    requires { device < 16 }
{
    for function in 0..8u8 {
        pair.assert_branch_alike(rt, bdf_on_bus(0, device, function));
    }
}

/// The 256th bridge can't get a bus number. The scan is refused, and has written nothing but bus
/// numbers.
#[test]
fn a_refused_scan_writes_only_bus_numbers(rt: HostRuntime) -> Result<(), Fail> {
    let alloc = rt.alloc();
    let mut scanned = build_host_with_256_bridges(&rt, alloc)?;
    assert!(rt; scan(alloc, &mut scanned).err() == Some(Fault::Buses));
    let first = scanned.config_read(bdf_on_bus(0, 0, 0), 0x18, 0b1111);
    let last = scanned.config_read(bdf_on_bus(0, 15, 7), 0x18, 0b1111);
    assert_eq!(rt; first, 0x0002_0100);
    assert_eq!(rt; last, 0x00ff_ff00);
    let at_reset = build_host_with_256_bridges(&rt, alloc)?;
    let mut pair = Pair { scanned, at_reset };
    for device in 0..16u8 {
        clear_bus_numbers_of_all_functions(&mut pair, device);
    }
    for device in 0..16u8 {
        assert_device_alike(&rt, &mut pair, device);
    }
    Ok(())
}
