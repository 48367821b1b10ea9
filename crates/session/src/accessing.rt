//! Reads and writes by firmware.
ghost use Rattle.std.specs.Prelude.{◌≡◌, ◌%◌};
ghost use Rattle.model_registers.specs.{Registers.all_bytes, ByteEnables.IsWidth};
ghost use Rattle.model_board.specs.Ports.{config_reply, after_config_write};
ghost use Rattle.model_guests.specs.Accesses.{reads, writes};
ghost use Rattle.model_lines.specs.HostAccesses.{answer};
ghost use Rattle.paths.specs.BusAddresses.{bus_address_of};
ghost use Rattle.host_bridge.specs.HostState.{with_functions, with_latch};
ghost use Rattle.accesses.specs.{Accesses.reply_of, Replies.{IsRefusal, IsShown}};
ghost use Rattle.lines.specs.FirmwareLines.{host_asked};
ghost use Rattle.session.specs.Hosts.{after_asked};

use accesses::{Bdf, HostAccess, HostAt, Reply};
use config_bytes::{enables_of, shift_lanes_down, to_lanes};
use host_bridge::{Host, TreeWalk};

/// Reads 1, 2 or 4 bytes at a configuration offset of the function at a BDF.
fn config_read(host: &mut Host, at: Bdf, off: u8, width: u64) -> u32
    requires width { IsWidth width }
    requires aligned { off % width ≡ 0 }
    ensures value { result
        ≡ config_reply host.old.state.functions (bus_address_of at) off (all_bytes width) }
    ensures after { host.new ≡ with_latch 0 host.old }
{
    let from = u64::from(off);
    let word = host.config_read(at, off / 4 * 4, enables_of(from, width));
    shift_lanes_down(from, word)
}

/// Writes the low 1, 2 or 4 bytes of a value at a configuration offset of the function at a BDF.
fn config_write(host: &mut Host, at: Bdf, off: u8, width: u64, value: u32)
    requires width { IsWidth width }
    requires aligned { off % width ≡ 0 }
    ensures { let fs = host.old.state.functions in
        let changed = after_config_write fs (bus_address_of at) off (all_bytes width) value in
        host.new ≡ with_latch 0 (with_functions changed host.old) }
{
    let from = u64::from(off);
    let enables = enables_of(from, width);
    host.config_write(at, off / 4 * 4, enables, to_lanes(from, value));
}

/// Answers a read. Refuses with 302 if its width is not 1, 2 or 4 bytes, else with 301 if its
/// offset, port or address is not a multiple of the width, else with 303 if its offset is above 255
/// or its port above FFFFFFFFh. A refusal changes nothing. A configuration read leaves
/// CONFIG_ADDRESS 0, and nothing else ever changes. Allocates no memory.
pub fn read(host: &mut Host, from: HostAccess) -> Reply
    ensures reply { reply_of result ≡ answer host.old.state (host_asked from reads) }
    ensures after { host.new ≡ after_asked host.old (host_asked from reads) }
    ensures shown { IsShown result }
    ensures refused { IsRefusal result → host.new ≡ host.old }
{
    if let Some(why) = from.fault() {
        return Reply::Refused(why);
    }
    let HostAccess { at, width } = from;
    let value = match at {
        HostAt::Config { bdf, off } => config_read(host, bdf, off as u8, width),
        HostAt::Io { port } => host.inp(&TreeWalk, port as u32, width),
        HostAt::Mem { addr } => host.load(&TreeWalk, addr, width),
    };
    Reply::Value(value, width)
}

/// Writes the low bytes of a value, as many as the access is wide. Refuses the same accesses as
/// `read`. A refusal changes nothing. A configuration write leaves CONFIG_ADDRESS 0. Allocates no
/// memory.
pub fn write(host: &mut Host, to: HostAccess, value: u32) -> Reply
    ensures reply { reply_of result ≡ answer host.old.state (host_asked to (writes value)) }
    ensures after { host.new ≡ after_asked host.old (host_asked to (writes value)) }
    ensures shown { IsShown result }
    ensures refused { IsRefusal result → host.new ≡ host.old }
{
    if let Some(why) = to.fault() {
        return Reply::Refused(why);
    }
    let HostAccess { at, width } = to;
    match at {
        HostAt::Config { bdf, off } => config_write(host, bdf, off as u8, width, value),
        HostAt::Io { port } => host.out(&TreeWalk, port as u32, width, value),
        HostAt::Mem { addr } => host.store(&TreeWalk, addr, width, value),
    }
    Reply::Done
}
