//! The registers of a function that the scan reads: identification, header type and interrupt pin
//! (PCI Local Bus 3.0, sections 6.2.1 and 6.2.4).
ghost use Rattle.std.specs.Prelude.{◌≡◌, ◌<◌, ◌/◌, ◌%◌, ◌^◌, Some, None};
ghost use Rattle.model_board.specs.{Paths.Path, Board.{Board, has_multifunction_bit}, Cycles.reached, Lawful.IsLawfulDecl, State.BoardFunction};
ghost use Rattle.model_set_up.specs.Scanning.{BusNumbers, numbered_file};
ghost use Rattle.paths.specs.BusAddresses.{bus_address_of};
ghost use Rattle.host_bridge.specs.HostState.{with_latch};
ghost use Rattle.bus_scan.specs.Sights.{seen_of};

use host_bridge::{Bdf, Host};

/// The header layout of a function, with the interrupt pin of an endpoint.
#[derive(Clone, Copy)]
pub(crate) enum Layout {
    Endpoint { pin: u8 },
    Bridge,
}

/// The identification of a function: its Vendor ID and Device ID, the multifunction bit of its
/// header type, and its header layout.
#[derive(Clone, Copy)]
pub(crate) struct ProbedHeader {
    pub(crate) vendor: u16,
    pub(crate) device: u16,
    pub(crate) is_multifunction: bool,
    pub(crate) layout: Layout,
}

/// Extracts a byte of a word. Lane 0 is the lowest byte.
fn byte_of(word: u32, lane: u32) -> u8
    requires { lane < 4 }
    ensures { result ≡ word / 256 ^ lane % 256 }
{
    (word >> (8 * lane) & 0xff) as u8
}

/// Reads the Vendor ID, Device ID, header type and interrupt pin of a function. Returns `None` if
/// the Vendor ID reads FFFFh because no function responds.
pub(crate) fn probe_header(host: &mut Host, at: Bdf) -> Option<ProbedHeader>
    ensures none { let fs = host.old.state.functions in
        reached fs (bus_address_of at) ≡ None → result ≡ None }
    ensures some { let fs = host.old.state.functions in
        (b : Board) (numbers : Path → BusNumbers) (f : BoardFunction)
        → reached fs (bus_address_of at) ≡ Some f →
        f.file ≡ numbered_file b numbers f.path f.decl → IsLawfulDecl f.decl
        → result ≡ Some (seen_of (has_multifunction_bit b f.path) f.decl) }
    ensures after { host.new ≡ with_latch 0 host.old }
{
    let identity = host.config_read(at, 0x00, 0b1111);
    let vendor = (identity & 0xffff) as u16;
    if vendor == 0xffff {
        return None;
    }
    let header_type = byte_of(host.config_read(at, 0x0c, 0b0100), 2);
    let layout = if header_type & 0x7f == 1 {
        Layout::Bridge
    } else {
        Layout::Endpoint {
            pin: byte_of(host.config_read(at, 0x3c, 0b0010), 1),
        }
    };
    Some(ProbedHeader {
        vendor,
        device: (identity >> 16) as u16,
        is_multifunction: header_type & 0x80 != 0,
        layout,
    })
}
