//! A host with its guests, generic over the way in which addresses are routed to functions.
ghost use Rattle.std.specs.Prelude.{◌≡◌, ◌<◌, ◌%◌, length};
ghost use Rattle.model_registers.specs.{Registers.all_bytes, ByteEnables.IsWidth};
ghost use Rattle.model_board.specs.Ports.{config_reply};
ghost use Rattle.model_guests.specs.{Accesses.{configuration, port, reads, writes}, Lone.{answer, own_latch, at_target, destination, reply_at}, Guests.lone_of, Lines.{guest_event, host_move}, WorldNow.{move_reply, names_now, host_reply}, Calls.asks};
ghost use Rattle.model_handoff.specs.{Actions.calls, Changes.after_on_machine};
ghost use Rattle.bars.specs.Kinds.{named_space};
ghost use Rattle.paths.specs.BusAddresses.{bus_address_of};
ghost use Rattle.accesses.specs.{Accesses.{access_of, host_access_of, op_of, part_of, reply_of}, Replies.{IsRefusal, IsShown}};
ghost use Rattle.monitor.specs.{Views.texts, ByIndex.{name_nth, lone_nth}, Counts.{after_access_nth, after_event_nth}, Reaches.target_in, Moves.move_nth, Queries.IsGuestNth};
ghost use Rattle.model_guests.specs.Accesses as guests;

use crate::access::change_count::touches_command_or_bars;
use crate::access::config::{
    function_in_slot, function_or_refusal, read_as_guest, write_guest_copies_and_count,
};
use crate::access::config_address::write_latch;
use crate::access::decode::{decode_address, slot_bar_to_board};
use crate::device::raise::{has_byte_at, raise_if_uncopied};
use crate::guest::Guest;
use crate::slots::moving::{find_move_refusal, move_and_reset};
use accesses::{
    Access, At, HostAccess, HostAt, Names, Op, Place, Refusal, Reply, master_abort_reply,
};
use bars::Space;
use config_bytes::{enables_of, shift_lanes_down, to_lanes};
use guest_functions::Select;
use host_bridge::{Bdf, Host, Route};
use paths::is_address_port;
use std::marker::Model;

/// The monitor over any route: a host, a route that fits it, and the guests with their names.
#[derive(Drop)]
pub struct Engine<R: Route> {
    pub(crate) host: Host,
    pub(crate) route: R,
    pub(crate) names: Names,
    pub(crate) guests: Vec<Guest>,
}

impl<R: Route> Model for Engine<R> {
    ghost use Rattle.model_handoff.specs.Changes.{MachineNow};

    ghost Value = { MachineNow };

    ghost use Rattle.monitor.specs.{Views.{texts, machine_shown}, Keeping.IsSound};

    ghost view = { λ e. machine_shown e.host (texts e.names) e.guests.items };

    ghost invariant = { λ e. R.fits e.route e.host
        × IsSound e.host (texts e.names) e.guests.items };
}

impl<R: Route> Engine<R> {
    ghost use Rattle.monitor.specs.{Views.{texts, machine_shown}, Keeping.IsSound};

    /// Returns a monitor over a host whose board agrees with these guests.
    pub(crate) fn from_parts(host: Host, route: R, names: Names, guests: Vec<Guest>) -> Engine<R>
        requires fits { R.fits route host }
        requires sound { IsSound host (texts names) guests.items }
        ensures { result ≡ machine_shown host (texts names) guests.items }
    {
        Engine {
            host,
            route,
            names,
            guests,
        }
    }

    /// Returns the guests' names, in the order of the guests.
    pub fn names(&self) -> &Names
        ensures { texts result.now ≡ names_now self.now.world }
    {
        &self.names
    }

    /// Returns the monitor's record of a guest.
    pub(crate) fn guest(&self, guest: usize) -> &Guest
        requires { guest < length self.now.world.guests }
        ensures { IsGuestNth self.now.world guest result.now }
    {
        &self.guests[guest]
    }

    /// Reads or writes at a guest's I/O or memory address. An unclaimed read returns all ones, and
    /// an unclaimed write is dropped. Two things make this faster: the function is accessed
    /// directly, since the board would route the byte's physical address to the same function, and
    /// the body is inlined at each call.
    #[inline(always)]
    fn region_access(&mut self, guest: usize, space: Space, addr: u64, width: u64, op: Op) -> Reply
        requires there { guest < length self.old.world.guests }
        requires width { IsWidth width }
        requires aligned { addr % width ≡ 0 }
        ensures reply { let target = at_target (target_in (named_space space) addr) in
            reply_of result ≡ reply_at (lone_nth self.old.world guest) (op_of op) width target }
        ensures after { let target = at_target (target_in (named_space space) addr) in
            self.new ≡ after_access_nth guest (op_of op) width target self.old }
        ensures shown { IsShown result }
        ensures served { ¬ IsRefusal result }
    {
        let slots = &self.guests[guest].slots;
        let Some((slot, region, offset)) = decode_address(slots, space, addr) else {
            return master_abort_reply(op, width);
        };
        let at = slot_bar_to_board(slots, slot, region, offset);
        match op {
            Op::Read => {
                let value = self.host.region_read(at, width);
                Reply::Value(value, width)
            }
            Op::Write(value) => {
                self.host.region_write(at, width, value);
                Reply::Done
            }
        }
    }

    /// Reads the configuration space of the function in a slot. An empty slot reads as all ones.
    fn config_read(&mut self, guest: usize, slot: usize, off: u8, width: u64) -> Reply
        requires there { guest < length self.old.world.guests }
        requires width { IsWidth width }
        requires aligned { off % width ≡ 0 }
        ensures reply { let target = at_target (configuration slot off) in
            reply_of result ≡ reply_at (lone_nth self.old.world guest) reads width target }
        ensures after { self.new ≡ self.old }
        ensures shown { IsShown result }
        ensures served { ¬ IsRefusal result }
    {
        let Some(held) = function_in_slot(&self.guests[guest].slots, slot) else {
            return master_abort_reply(Op::Read, width);
        };
        Reply::Value(read_as_guest(&mut self.host, held, off, width), width)
    }

    /// Writes the configuration space of the function in a slot. A write to an empty slot is
    /// dropped. No other access can change where a region is decoded, so only this one updates the
    /// change count, and data accesses don't pay for it.
    fn config_write(&mut self, guest: usize, slot: usize, off: u8, width: u64, value: u32)
        requires there { guest < length self.old.world.guests }
        requires width { IsWidth width }
        requires aligned { off % width ≡ 0 }
        ensures { let target = at_target (configuration slot off) in
            self.new ≡ after_access_nth guest (writes value) width target self.old }
    {
        let Some(_) = function_in_slot(&self.guests[guest].slots, slot) else {
            return;
        };
        let from = u64::from(off);
        let word = off / 4 * 4;
        let moved = to_lanes(from, value);
        let enables = enables_of(from, width);
        let tells = touches_command_or_bars(from, width);
        let (index, others) = write_guest_copies_and_count(
            &mut self.guests,
            guest,
            slot,
            word,
            enables,
            moved,
            tells,
        );
        self.host.config_write_nth(index, word, others, moved);
    }

    /// Reads or writes the configuration space of the function in a slot. An empty slot reads as
    /// all ones, and writes to it are dropped.
    fn config_access(&mut self, guest: usize, slot: usize, off: u8, width: u64, op: Op) -> Reply
        requires there { guest < length self.old.world.guests }
        requires width { IsWidth width }
        requires aligned { off % width ≡ 0 }
        ensures reply { let target = at_target (configuration slot off) in
            reply_of result ≡ reply_at (lone_nth self.old.world guest) (op_of op) width target }
        ensures after { let target = at_target (configuration slot off) in
            self.new ≡ after_access_nth guest (op_of op) width target self.old }
        ensures shown { IsShown result }
        ensures served { ¬ IsRefusal result }
    {
        match op {
            Op::Read => self.config_read(guest, slot, off, width),
            Op::Write(value) => {
                self.config_write(guest, slot, off, width, value);
                Reply::Done
            }
        }
    }

    /// Reads or writes the four bytes of a guest's CONFIG_ADDRESS.
    fn latch_access(&mut self, guest: usize, op: Op) -> Reply
        requires { guest < length self.old.world.guests }
        ensures reply { reply_of result
            ≡ reply_at (lone_nth self.old.world guest) (op_of op) 4 own_latch }
        ensures after { self.new ≡ after_access_nth guest (op_of op) 4 own_latch self.old }
        ensures shown { IsShown result }
        ensures served { ¬ IsRefusal result }
    {
        match op {
            Op::Read => Reply::Value(self.guests[guest].latch.value(), 4),
            Op::Write(value) => {
                write_latch(&mut self.guests, guest, value);
                Reply::Done
            }
        }
    }

    /// Reads or writes an I/O port of a guest. 4 bytes at CF8h are the guest's CONFIG_ADDRESS, CFCh
    /// to CFFh are the slot that CONFIG_ADDRESS selects while its enable bit is set, and all other
    /// ports belong to the guest's regions.
    fn port_access(&mut self, guest: usize, at: u64, width: u64, op: Op) -> Reply
        requires there { guest < length self.old.world.guests }
        requires width { IsWidth width }
        requires aligned { at % width ≡ 0 }
        ensures reply { let lone = lone_nth self.old.world guest in
            reply_of result
            ≡ reply_at lone (op_of op) width (destination lone.latch width (port at)) }
        ensures after { let target = destination (lone_nth self.old.world guest).latch width
            (port at) in
            self.new ≡ after_access_nth guest (op_of op) width target self.old }
        ensures shown { IsShown result }
        ensures served { ¬ IsRefusal result }
    {
        if is_address_port(at, width) {
            return self.latch_access(guest, op);
        }
        match self.guests[guest].latch.select(at) {
            Select::Ordinary => self.region_access(guest, Space::Io, at, width, op),
            Select::Nowhere => master_abort_reply(op, width),
            Select::Slot(slot, off) => self.config_access(guest, usize::from(slot), off, width, op),
        }
    }

    /// Answers a guest's access just as the guest's functions and its CONFIG_ADDRESS would in
    /// isolation.
    fn access(&mut self, guest: usize, access: Access) -> Reply
        requires { guest < length self.old.world.guests }
        ensures reply { reply_of result
            ≡ answer (lone_nth self.old.world guest) (guests.access (access_of access)) }
        ensures after { self.new
            ≡ after_event_nth guest (guests.access (access_of access)) self.old }
        ensures shown { IsShown result }
        ensures refused { IsRefusal result → self.new ≡ self.old }
    {
        if let Some(why) = access.fault() {
            return Reply::Refused(why);
        }
        let Access { at, width, op } = access;
        match at {
            At::Config { slot, off } => {
                self.config_access(guest, slot as usize, off as u8, width, op)
            }
            At::Io { port } => self.port_access(guest, port, width, op),
            At::Mem { addr } => self.region_access(guest, Space::Mem, addr, width, op),
        }
    }

    /// Answers an access of a guest. Refuses with 302 if its width is not 1, 2 or 4 bytes, else
    /// with 301 if its offset, port or address is not a multiple of the width, else with 303 if its
    /// slot is above 31, its offset above 255 or its port above FFFFFFFFh. A refusal changes
    /// nothing. Allocates no memory.
    pub fn step(&mut self, guest: usize, access: Access) -> Reply
        requires { guest < length self.old.world.guests }
        ensures reply { let e = guests.access (access_of access) in
            reply_of result
            ≡ answer (lone_of self.old.world.guests (name_nth self.old.world guest)) e }
        ensures after { let e = guests.access (access_of access) in
            self.new ≡ after_on_machine self.old
            (calls (asks (guest_event (name_nth self.old.world guest) e))) }
        ensures shown { IsShown result }
        ensures refused { IsRefusal result → self.new ≡ self.old }
    {
        let _ = &self.names;
        self.access(guest, access)
    }

    /// Sets W1C bits of one byte of the function in a guest's slot. A refusal changes nothing.
    fn raise_in_slot(&mut self, guest: usize, slot: u64, place: Place, off: u64, mask: u8) -> Reply
        requires { guest < length self.old.world.guests }
        ensures reply { let e = guests.raises
            (record { slot = slot; part = part_of place; offset = off; mask = mask }) in
            reply_of result ≡ answer (lone_nth self.old.world guest) e }
        ensures after { let e = guests.raises
            (record { slot = slot; part = part_of place; offset = off; mask = mask }) in
            self.new ≡ after_event_nth guest e self.old }
        ensures shown { IsShown result }
        ensures refused { IsRefusal result → self.new ≡ self.old }
    {
        let held = match function_or_refusal(&self.guests[guest].slots, slot) {
            Ok(held) => held,
            Err(why) => return Reply::Refused(why),
        };
        if !has_byte_at(held, place, off) {
            return Reply::Refused(Refusal::Range);
        }
        raise_if_uncopied(&mut self.host, held.index, place, off, mask);
        Reply::Done
    }

    /// Sets W1C bits of one byte of a guest's function, as its device does. An undeclared byte
    /// isn't changed, nor is a byte that guests have a copy of. Refuses with 303 if the slot is
    /// above 31, else with 601 if it is empty, else with 303 for a configuration offset above 255,
    /// a base address register at which no region begins, or an offset that is not below the
    /// region's size. A refusal changes nothing. Allocates no memory.
    pub fn raise(&mut self, guest: usize, slot: u64, place: Place, off: u64, mask: u8) -> Reply
        requires { guest < length self.old.world.guests }
        ensures reply { let e = guests.raises
            (record { slot = slot; part = part_of place; offset = off; mask = mask }) in
            reply_of result
            ≡ answer (lone_of self.old.world.guests (name_nth self.old.world guest)) e }
        ensures after { let e = guests.raises
            (record { slot = slot; part = part_of place; offset = off; mask = mask }) in
            self.new ≡ after_on_machine self.old
            (calls (asks (guest_event (name_nth self.old.world guest) e))) }
        ensures shown { IsShown result }
        ensures refused { IsRefusal result → self.new ≡ self.old }
    {
        let _ = &self.names;
        self.raise_in_slot(guest, slot, place, off, mask)
    }

    /// Moves a function from a guest's slot to an empty slot of any guest, and resets it. The
    /// source slot is then empty. Refuses with 303 if a slot is above 31, else with 601 if the
    /// source slot is empty, else with 602 if the target slot is occupied. A refusal changes
    /// nothing.
    pub fn move_function(&mut self, from: usize, slot: u64, to: usize, target: u64) -> Reply
        requires from { from < length self.old.world.guests }
        requires to { to < length self.old.world.guests }
        ensures reply { reply_of result
            ≡ move_reply self.old.world.guests (move_nth self.old.world from slot to target) }
        ensures after { self.new
            ≡ after_on_machine self.old
            (calls (asks (host_move (move_nth self.old.world from slot to target)))) }
        ensures shown { IsShown result }
        ensures refused { IsRefusal result → self.new ≡ self.old }
    {
        let source = &self.guests[from].slots;
        if let Some(why) = find_move_refusal(source, slot, &self.guests[to].slots, target) {
            return Reply::Refused(why);
        }
        move_and_reset(
            &mut self.host,
            &mut self.guests,
            from,
            slot as usize,
            to,
            target as usize,
        );
        Reply::Done
    }

    /// Answers a read by the host from the board's physical address spaces.
    pub fn host_read(&mut self, read: HostAccess) -> Reply
        ensures reply { reply_of result ≡ host_reply self.old.world (host_access_of read) }
        ensures after { self.new ≡ self.old }
        ensures shown { IsShown result }
    {
        if let Some(why) = read.fault() {
            return Reply::Refused(why);
        }
        let HostAccess { at, width } = read;
        let value = match at {
            HostAt::Config { bdf, off } => read_config_at(&mut self.host, bdf, off as u8, width),
            HostAt::Io { port } => self.host.inp(&self.route, port as u32, width),
            HostAt::Mem { addr } => self.host.load(&self.route, addr, width),
        };
        Reply::Value(value, width)
    }
}

/// Reads 1, 2 or 4 bytes at a configuration offset of the function at a BDF. The host's
/// CONFIG_ADDRESS is 0, and is 0 again afterwards.
fn read_config_at(host: &mut Host, at: Bdf, off: u8, width: u64) -> u32
    requires width { IsWidth width }
    requires aligned { off % width ≡ 0 }
    requires latch { host.old.state.latch ≡ 0 }
    ensures value { result
        ≡ config_reply host.old.state.functions (bus_address_of at) off (all_bytes width) }
    ensures after { host.new ≡ host.old }
{
    let from = u64::from(off);
    let word = host.config_read(at, off / 4 * 4, enables_of(from, width));
    shift_lanes_down(from, word)
}
