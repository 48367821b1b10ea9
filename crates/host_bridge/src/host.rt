//! The host bridge.
ghost use Rattle.std.specs.{Prelude.{◌≡◌, ◌%◌, ◌<◌, IfOk, IfSome, IsTrue, find, length, slice_get}, Option.option_and_then};
ghost use Rattle.lists.specs.Elements.{EachPair};
ghost use Rattle.model_registers.specs.ByteEnables.{lanes, IsWidth};
ghost use Rattle.bars.specs.{Kinds.named_space, Slots.bases_from};
ghost use Rattle.model_board.specs.{Paths.{path_before, path_eq}, Board.IsBoard, AtReset.{board_at, IsAtReset}, Cycles.reached, Routing.routing, Claims.first_claim, Ports.{selected, selected_register, config_reply, after_config_write, claim_reply, after_claim_write, port_reply, after_port_write, memory_reply, after_memory_write}};
ghost use Rattle.bridge_forward.specs.{Locating.located_claim, BasesNow.bases_nth, RoutingRows.{primary_bus_nth, secondary_bus_nth}};
ghost use Rattle.paths.specs.BusAddresses.{bus_address_of};
ghost use Rattle.host_bridge.specs.{HostState.{with_functions, with_latch}, Landings.IsLanding};

use crate::latch::{Target, cycle_of, port_access_target};
use crate::route::Route;
use bars::{BarWithBase, Space, enabled_bits};
use bridge_forward::{BarOffset, Bus, Claim, Path, RoutingRow};
use config_bytes::{Op, all_ones, enables_of, shift_lanes_down, to_lanes};
use headers::Apertures;
use paths::{Bdf, Latch};
use std::alloc::{AllocError, Global};
use std::marker::Model;

/// The host bridge: the tree of buses below it, the CONFIG_ADDRESS register, and the apertures
/// available to set-up. It never lends the tree or a mutable function, so every access goes through
/// the methods of this type.
#[derive(Drop)]
pub struct Host {
    pub(crate) root: Bus,
    latch: Latch,
    apertures: Apertures,
}

impl Model for Host {
    ghost use Rattle.host_bridge.specs.HostState.{HostState};

    ghost Value = { HostState };

    ghost view = { λ h. record {
      state = record { functions = h.root; latch = h.latch };
      apertures = h.apertures;
    } };
}

impl Host {
    /// Creates a host bridge for a tree of buses. CONFIG_ADDRESS is 0.
    pub fn new(root: Bus, apertures: Apertures) -> Host
        ensures { result ≡ record {
          state = record { functions = root; latch = 0 };
          apertures = apertures;
        } }
    {
        Host {
            root,
            latch: Latch::new(),
            apertures,
        }
    }

    /// Creates the same board at reset, from the declarations of its functions.
    pub fn copy_at_reset(&self, alloc: Global) -> Result<Host, AllocError>
        requires { IsBoard (board_at self.now.state.functions) }
        ensures board { let board = board_at self.now.state.functions in
            IfOk result (λ h. board_at h.state.functions ≡ board) }
        ensures apertures { IfOk result (λ h. h.apertures ≡ self.now.apertures) }
        ensures at_reset { IfOk result (λ h. IsAtReset h.state) }
    {
        let root = self.root.rebuild_at_reset(alloc)?;
        Ok(Host::new(root, self.apertures))
    }

    /// Returns the apertures available to set-up.
    pub fn apertures(&self) -> Apertures
        ensures { result ≡ self.now.apertures }
    {
        self.apertures
    }

    /// Reads the enabled bytes of CONFIG_DATA: the configuration word that CONFIG_ADDRESS selects.
    fn read_config_data(&mut self, enables: u8) -> u32
        ensures value { let s = self.old.state in let off = selected_register s.latch in
            result ≡ config_reply s.functions (selected s.latch) off (lanes enables) }
        ensures after { self.new ≡ self.old }
    {
        self.root
            .cycle(cycle_of(self.latch, enables, Op::Read))
            .unwrap_or_else(|| enabled_bits(enables))
    }

    /// Writes the enabled bytes of CONFIG_DATA.
    fn write_config_data(&mut self, enables: u8, data: u32)
        ensures { let s = self.old.state in let off = selected_register s.latch in
            let fs = after_config_write s.functions (selected s.latch) off (lanes enables) «data» in
            self.new ≡ with_functions fs self.old }
    {
        let _ = self
            .root
            .cycle(cycle_of(self.latch, enables, Op::Write(data)));
    }

    /// Reads the enabled bytes of the configuration word at `off`, a multiple of 4, of the function
    /// at a BDF. Routing follows the current bus number registers of the bridges. Disabled bytes
    /// read 0. On a master abort, enabled bytes read all ones. Leaves CONFIG_ADDRESS at 0 (PCI
    /// Local Bus 3.0, section 3.2.2.3.2).
    pub fn config_read(&mut self, at: Bdf, off: u8, enables: u8) -> u32
        requires { off % 4 ≡ 0 }
        ensures value { let fs = self.old.state.functions in
            result ≡ config_reply fs (bus_address_of at) off (lanes enables) }
        ensures after { self.new ≡ with_latch 0 self.old }
    {
        self.latch = Latch::selecting(at, off);
        let word = self.read_config_data(enables);
        self.latch = Latch::new();
        word
    }

    /// Writes the enabled bytes of the configuration word at `off`, a multiple of 4, of the
    /// function at a BDF. Routing follows the current bus number registers of the bridges. A write
    /// that ends in a master abort is dropped. Leaves CONFIG_ADDRESS at 0.
    pub fn config_write(&mut self, at: Bdf, off: u8, enables: u8, data: u32)
        requires { off % 4 ≡ 0 }
        ensures { let fs = self.old.state.functions in
            let changed = after_config_write fs (bus_address_of at) off (lanes enables) «data» in
            self.new ≡ with_latch 0 (with_functions changed self.old) }
    {
        self.latch = Latch::selecting(at, off);
        self.write_config_data(enables, data);
        self.latch = Latch::new();
    }

    /// Returns the CONFIG_ADDRESS register.
    pub fn latch(&self) -> Latch
        ensures { result ≡ self.now.state.latch }
    {
        self.latch
    }

    /// Sets CONFIG_ADDRESS to 0, which disables CONFIG_DATA.
    pub fn clear_latch(&mut self)
        ensures { self.new ≡ with_latch 0 self.old }
    {
        self.latch = Latch::new();
    }

    /// Returns the first claim of an address, by path order and then by BAR register. A claim is a
    /// region that decodes the address behind bridges that all forward it.
    pub fn claimant(&self, space: Space, addr: u64) -> Option<Claim>
        ensures { result ≡ first_claim self.now.state.functions (named_space space) addr }
    {
        self.root.claimant(space, addr)
    }

    /// Returns the first claim of an address, with the index of its endpoint.
    pub(crate) fn find_bar_offset(&self, space: Space, addr: u64) -> Option<BarOffset>
        ensures claim { let fs = self.now.state.functions in
            located_claim fs result ≡ first_claim fs (named_space space) addr }
        ensures within { IfSome result (λ l. l.index < length self.now.state.functions) }
    {
        self.root.locate(space, addr)
    }

    /// Returns the index of the function at a path, if there is one.
    pub fn index_of(&self, path: &Path) -> Option<usize>
        ensures function { let fs = self.now.state.functions in
            option_and_then (slice_get fs) result ≡ find (λ f. path_eq f.path path.now) fs }
        ensures within { IfSome result (λ i. i < length self.now.state.functions) }
    {
        self.root.index_of(path)
    }

    /// Returns the routing registers of all functions in path order, for an audit.
    pub fn routing(&self, alloc: Global) -> Result<Vec<RoutingRow>, AllocError>
        ensures rows { IfOk result (λ v. v.items ≡ routing self.now.state.functions) }
        ensures in_order { EachPair (λ f g.
            IsTrue (path_before f.path g.path)) self.now.state.functions }
    {
        self.root.routing_rows(alloc)
    }

    /// Returns the Secondary Bus Number of the bridge at an index, or `None` if there is no bridge,
    /// for an audit.
    pub fn secondary_bus_nth(&self, index: usize) -> Option<u8>
        ensures { result ≡ secondary_bus_nth self.now.state.functions index }
    {
        self.root.secondary_bus_nth(index)
    }

    /// Returns the Primary Bus Number of the bridge at an index, or `None` if there is no bridge,
    /// for an audit.
    pub fn primary_bus_nth(&self, index: usize) -> Option<u8>
        ensures { result ≡ primary_bus_nth self.now.state.functions index }
    {
        self.root.primary_bus_nth(index)
    }

    /// Returns the regions of the endpoint at an index with their base addresses, each at the index
    /// of its first BAR register. All entries are `None` if there is no endpoint.
    pub fn bars_with_base_nth(&self, index: usize) -> [Option<BarWithBase>; 6]
        ensures { bases_from 0 result ≡ bases_nth self.now.state.functions index }
    {
        self.root.bars_with_bases_nth(index)
    }

    /// Returns the index of the function that configuration accesses to a BDF reach, for an audit.
    /// Changes nothing.
    pub fn index_reached_by_bdf(&mut self, at: Bdf) -> Option<usize>
        ensures function { let fs = self.old.state.functions in
            option_and_then (slice_get fs) result ≡ reached fs (bus_address_of at) }
        ensures within { IfSome result (λ i. i < length self.old.state.functions) }
        ensures after { self.new ≡ self.old }
    {
        let cycle = cycle_of(Latch::selecting(at, 0), 0, Op::Read);
        self.root.index_reached_by(&cycle)
    }

    /// Reads 1, 2 or 4 bytes at a claim that is known already, so that no address has to be looked
    /// up.
    #[inline(always)]
    pub fn region_read(&mut self, from: BarOffset, width: u64) -> u32
        requires landing { IsLanding self.old.state.functions from width }
        requires width { IsWidth width }
        ensures value { let fs = self.old.state.functions in
            result ≡ claim_reply fs width (located_claim fs (Some from)) }
        ensures after { self.new ≡ self.old }
    {
        let BarOffset {
            index,
            region,
            offset,
        } = from;
        let enables = enables_of(offset, width);
        match self.root.endpoint_nth(index) {
            Some(endpoint) => shift_lanes_down(
                offset,
                endpoint.read(region, offset / 4 * 4, enables),
            ),
            None => unreachable!(),
        }
    }

    /// Writes the low 1, 2 or 4 bytes of a value at a claim that is known already, so that no
    /// address has to be looked up.
    #[inline(always)]
    pub fn region_write(&mut self, to: BarOffset, width: u64, value: u32)
        requires landing { IsLanding self.old.state.functions to width }
        requires width { IsWidth width }
        ensures { let fs = self.old.state.functions in
            let claim = located_claim fs (Some to) in
            self.new ≡ with_functions (after_claim_write fs width value claim) self.old }
    {
        let BarOffset {
            index,
            region,
            offset,
        } = to;
        let enables = enables_of(offset, width);
        let data = to_lanes(offset, value);
        match self.root.endpoint_nth(index) {
            Some(endpoint) => endpoint.write(region, offset / 4 * 4, enables, data),
            None => unreachable!(),
        }
    }

    /// Reads `width` bytes at an address. An unclaimed address reads all ones.
    fn claimed_or_ones<R: Route>(&mut self, route: &R, space: Space, addr: u64, width: u64) -> u32
        requires fits { R.fits route.now self.old }
        requires width { IsWidth width }
        requires aligned { addr % width ≡ 0 }
        ensures value { let fs = self.old.state.functions in
            result ≡ claim_reply fs width (first_claim fs (named_space space) addr) }
        ensures after { self.new ≡ self.old }
    {
        match route.claimed_bar_offset(self, space, addr) {
            Some(from) => self.region_read(from, width),
            None => all_ones(width),
        }
    }

    /// Writes the low `width` bytes of a value at an address. Drops the write if no region claims
    /// the address.
    fn write_if_claimed<R: Route>(
        &mut self,
        route: &R,
        space: Space,
        addr: u64,
        width: u64,
        value: u32,
    )
        requires fits { R.fits route.now self.old }
        requires width { IsWidth width }
        requires aligned { addr % width ≡ 0 }
        ensures { let fs = self.old.state.functions in
            let claim = first_claim fs (named_space space) addr in
            self.new ≡ with_functions (after_claim_write fs width value claim) self.old }
    {
        match route.claimed_bar_offset(self, space, addr) {
            Some(to) => self.region_write(to, width, value),
            None => {}
        }
    }

    /// Reads 1, 2 or 4 bytes at an I/O port. A 4-byte read at CF8h returns CONFIG_ADDRESS. Ports
    /// CFCh to CFFh access a configuration register if CONFIG_ADDRESS is enabled. Any other read
    /// goes to the region that claims the port. A read that no function answers returns all ones.
    pub fn inp<R: Route>(&mut self, route: &R, port: u32, width: u64) -> u32
        requires fits { R.fits route.now self.old }
        requires width { IsWidth width }
        requires aligned { port % width ≡ 0 }
        ensures value { result ≡ port_reply self.old.state port width }
        ensures after { self.new ≡ self.old }
    {
        let addr = u64::from(port);
        match port_access_target(self.latch, port, width) {
            Target::ConfigAddress => self.latch.value(),
            Target::ConfigData => shift_lanes_down(
                addr,
                self.read_config_data(enables_of(addr, width)),
            ),
            Target::Ordinary => self.claimed_or_ones(route, Space::Io, addr, width),
        }
    }

    /// Writes the low 1, 2 or 4 bytes of a value at an I/O port. A 4-byte write at CF8h sets
    /// CONFIG_ADDRESS. Ports CFCh to CFFh access a configuration register if CONFIG_ADDRESS is
    /// enabled. Any other write goes to the region that claims the port. A write that no function
    /// claims is dropped.
    pub fn out<R: Route>(&mut self, route: &R, port: u32, width: u64, value: u32)
        requires fits { R.fits route.now self.old }
        requires width { IsWidth width }
        requires aligned { port % width ≡ 0 }
        ensures { let state = after_port_write self.old.state port width value in
            self.new ≡ record self.old { state = state } }
    {
        let addr = u64::from(port);
        match port_access_target(self.latch, port, width) {
            Target::ConfigAddress => self.latch.write(value),
            Target::ConfigData => {
                self.write_config_data(enables_of(addr, width), to_lanes(addr, value));
            }
            Target::Ordinary => self.write_if_claimed(route, Space::Io, addr, width, value),
        }
    }

    /// Reads 1, 2 or 4 bytes at a memory address. An unclaimed address reads all ones.
    pub fn load<R: Route>(&mut self, route: &R, addr: u64, width: u64) -> u32
        requires fits { R.fits route.now self.old }
        requires width { IsWidth width }
        requires aligned { addr % width ≡ 0 }
        ensures value { result ≡ memory_reply self.old.state addr width }
        ensures after { self.new ≡ self.old }
    {
        self.claimed_or_ones(route, Space::Mem, addr, width)
    }

    /// Writes the low 1, 2 or 4 bytes of a value at a memory address. Drops the write if no region
    /// claims the address.
    pub fn store<R: Route>(&mut self, route: &R, addr: u64, width: u64, value: u32)
        requires fits { R.fits route.now self.old }
        requires width { IsWidth width }
        requires aligned { addr % width ≡ 0 }
        ensures { let state = after_memory_write self.old.state addr width value in
            self.new ≡ record self.old { state = state } }
    {
        self.write_if_claimed(route, Space::Mem, addr, width, value);
    }
}
