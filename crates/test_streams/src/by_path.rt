//! Endpoints borrowed, raised and reset by their paths, in a tree of buses and behind a host.
ghost use Rattle.std.specs.Prelude.{◌<◌, length};

use crate::board::MAIN;
use bars::{BarDecl, Kind};
use board_file::read_board;
use bridge_forward::{Bus, Decl, Declared, Part, Path, is_lawful_board};
use config_bytes::Cell;
use headers::{BridgeDecl, EndpointDecl, EndpointValues, IoDecode, Place, PrefDecode, Region};
use host_bridge::{Bdf, Host, Space, TreeWalk};
use std::alloc::{AllocError, Global};
use std::process::Abort;
use std::test::Fail;

pub(crate) fn path_on_root(device: u8) -> Path
    requires { device < 16 }
    ensures { length result < 16 }
{
    Path::on_root(Part::new(device, 0))
}

/// Returns the path of a device behind the bridge at device 2.
pub(crate) fn path_behind_bridge_2(device: u8) -> Path
    requires { device < 16 }
{
    let mut path = path_on_root(2);
    path.push(Part::new(device, 0));
    path
}

/// Returns an endpoint with a region in which four bytes are declared.
fn declare_endpoint(alloc: Global) -> Result<Declared, Fail> {
    let region = Region {
        index: 1,
        bar: BarDecl::new(Kind::Mem32 { pref: false }, 16)?,
        block: vec![in alloc; Cell::settable(0, 0xff); 4]?,
    };
    let values = EndpointValues {
        bar: vec![in alloc; region]?,
        ..EndpointValues::plain(alloc, 0x1234, 1, 0xff_0000)
    };
    Ok(Declared::Endpoint(EndpointDecl::new(values)?))
}

/// Returns a bus with an endpoint, a bridge, and an endpoint behind the bridge.
fn build_bus(rt: &impl Abort, alloc: Global) -> Result<Bus, Fail> {
    let bridge = BridgeDecl::new(0x1234, 2, 0, IoDecode::Bits16, PrefDecode::Bits64)?;
    let decls = vec![in alloc;
        Decl {
            path: path_on_root(1),
            function: declare_endpoint(alloc)?
        },
        Decl {
            path: path_on_root(2),
            function: Declared::Bridge(bridge)
        },
        Decl {
            path: path_behind_bridge_2(0),
            function: declare_endpoint(alloc)?
        },
    ]?;
    assert!(rt; is_lawful_board(&decls));
    Ok(Bus::build(alloc, decls)?)
}

/// Reads the word at the start of region 1 of the endpoint at a path, and overwrites it with all
/// ones.
fn swap_first_word_with_ones(bus: &mut Bus, path: &Path) -> Option<u32> {
    let endpoint = bus.endpoint_mut(path)?;
    let before = endpoint.read(1, 0, 0b1111);
    endpoint.write(1, 0, 0b1111, u32::MAX);
    Some(before)
}

/// A bridge can't be borrowed, nor can a missing function. A reset of one endpoint doesn't change
/// the others.
#[test]
fn only_endpoints_are_lent_or_reset(rt: HostRuntime) -> Result<(), Fail> {
    let mut bus = build_bus(&rt, rt.alloc())?;
    let (card, behind) = (path_on_root(1), path_behind_bridge_2(0));
    assert_eq!(rt; swap_first_word_with_ones(&mut bus, &card), Some(0));
    assert_eq!(rt; swap_first_word_with_ones(&mut bus, &card), Some(u32::MAX));
    assert_eq!(rt; swap_first_word_with_ones(&mut bus, &behind), Some(0));
    assert_eq!(rt; swap_first_word_with_ones(&mut bus, &path_on_root(2)), None);
    assert_eq!(rt; swap_first_word_with_ones(&mut bus, &path_on_root(3)), None);
    bus.reset_except_routing(&behind);
    bus.reset_except_routing(&path_on_root(2));
    bus.reset_except_routing(&path_on_root(3));
    assert_eq!(rt; swap_first_word_with_ones(&mut bus, &card), Some(u32::MAX));
    bus.reset_except_routing(&card);
    assert_eq!(rt; swap_first_word_with_ones(&mut bus, &card), Some(0));
    assert_eq!(rt; swap_first_word_with_ones(&mut bus, &behind), Some(0));
    Ok(())
}

/// Sets W1C bits in the upper byte of Status, as a device does, in the endpoint that claims a
/// memory address. Returns whether any endpoint claims the address.
fn raise_status_if_claimed(
    host: &mut Host,
    alloc: Global,
    addr: u64,
    mask: u8,
) -> Result<bool, AllocError> {
    // Establishes that no two functions have the same path.
    let _rows = host.routing(alloc)?;
    let Some(claim) = host.claimant(Space::Mem, addr) else {
        return Ok(false);
    };
    host.raise(&claim.path, Place::Cfg, 7, mask);
    Ok(true)
}

/// A device can set only W1C bits. A reset doesn't change Command or the base addresses.
#[test]
fn raise_sets_w1c_bits_reset_keeps_bases(rt: HostRuntime) -> Result<(), Fail> {
    let alloc = rt.alloc();
    let (mut host, _) = read_board(alloc, MAIN.as_bytes())?;
    let card = Bdf {
        bus: 0,
        device: 1,
        function: 0,
    };
    host.config_write(card, 0x14, 0b1111, 0xc010_0000);
    host.config_write(card, 0x04, 0b1111, 0xf900_0002);
    host.config_write(card, 0x3c, 0b0001, 0x5a);
    host.store(&TreeWalk, 0xc010_0010, 4, 0x1234_5678);
    assert_eq!(rt; host.config_read(card, 0x04, 0b1111), 0x0000_0002);
    assert!(rt; raise_status_if_claimed(&mut host, alloc, 0xc010_0010, 0x8f)?);
    assert!(rt; !raise_status_if_claimed(&mut host, alloc, 0, 0xff)?);
    host.reset_except_routing(&path_behind_bridge_2(0));
    host.reset_except_routing(&path_on_root(2));
    assert_eq!(rt; host.config_read(card, 0x04, 0b1111), 0x8900_0002);
    assert_eq!(rt; host.config_read(card, 0x3c, 0b1111), 0x0000_015a);
    host.reset_except_routing(&path_on_root(1));
    assert_eq!(rt; host.config_read(card, 0x04, 0b1111), 0x8000_0002);
    assert_eq!(rt; host.config_read(card, 0x14, 0b1111), 0xc010_0000);
    assert_eq!(rt; host.config_read(card, 0x3c, 0b1111), 0x0000_0100);
    assert_eq!(rt; host.load(&TreeWalk, 0xc010_0010, 4), 0);
    Ok(())
}
