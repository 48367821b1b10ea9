//! A function of a board: an endpoint or a bridge.
ghost use Rattle.std.specs.{Prelude.{◌≡◌, ◌%◌, ◌&&◌, ◌==◌, nat_le, IfOk}, Borrow.sem, Option.{option_copied, option_copied_mut}};
ghost use Rattle.model_registers.specs.{Registers.{config, number, read, write}, ByteEnables.{LiesInWord, lanes}, Decoding.command_word};
ghost use Rattle.model_board.specs.{Board.is_bridge, Routing.ranges_of, Lawful.IsLawfulDecl, Cycles.{secondary_register, subordinate_register}};
ghost use Rattle.bars.specs.Slots.{bases_from};
ghost use Rattle.bridge_forward.specs.{BasesNow.bases_of, BridgeDecls.declared_bridge, ByIndex.ranges_told, RoutingRows.{named_ranges, primary_of, secondary_of}};

use crate::bridge::BridgeFn;
use crate::by_index::ProgrammedRanges;
use crate::decl::Declared;
use crate::endpoint::EndpointFn;
use crate::routing::{Ranges, RoutingRow};
use bars::BarWithBase;
use config_bytes::{Op, enables_of, shift_lanes_down};
use headers::BridgeDecl;
use paths::Path;
use std::alloc::{AllocError, Global};

/// An endpoint or a bridge, with its registers.
#[derive(Drop)]
pub(crate) enum Function {
    Endpoint(EndpointFn),
    Bridge(BridgeFn),
}

impl Function {
    ghost use Rattle.config_bytes.specs.Ops.{is_write};
    ghost use Rattle.bridge_forward.specs.{Cycled.{reply_to, after_access}, Decls.declared, ResetAlone.after_leaf_reset, Functions.{decl_of, file_of, with_cells, reset_cells, endpoint_in, LendsLeaf}};

    /// Creates the function at reset. `multifunction` is bit 7 of the header type.
    pub(crate) fn new(
        alloc: Global,
        decl: Declared,
        multifunction: bool,
    ) -> Result<Function, AllocError>
        ensures decl { IfOk result (λ f. decl_of f ≡ declared decl) }
        ensures cells { IfOk result (λ f.
            file_of f ≡ reset_cells (declared decl) multifunction) }
        ensures lawful { IfOk result (λ _. IsLawfulDecl (declared decl)) }
    {
        match decl {
            Declared::Endpoint(decl) => Ok(Function::Endpoint(EndpointFn::new(
                alloc,
                decl,
                multifunction,
            )?)),
            Declared::Bridge(decl) => Ok(Function::Bridge(BridgeFn::new(
                alloc,
                decl,
                multifunction,
            )?)),
        }
    }

    /// Returns a copy of the declaration.
    #[tactic(auto, using(std::proofs::lemmas::List::Elements::same_from_all_zip))]
    pub(crate) fn copy_declaration(&self) -> Result<Declared, AllocError>
        ensures { IfOk result (λ d. declared d ≡ decl_of self.now) }
    {
        match self {
            Function::Endpoint(endpoint) => Ok(Declared::Endpoint(endpoint.decl().clone()?)),
            Function::Bridge(bridge) => Ok(Declared::Bridge(bridge.decl())),
        }
    }

    /// Reads or writes the enabled bytes of the configuration word at `off`, a multiple of 4. A
    /// write returns 0.
    pub(crate) fn access(&mut self, op: Op, off: u8, enables: u8) -> u32
        requires { off % 4 ≡ 0 }
        ensures reply { result ≡ reply_to op off enables (file_of self.old) }
        ensures after { self.new
            ≡ with_cells self.old (after_access op off enables (file_of self.old)) }
    {
        match op {
            Op::Read => self.config_read(off, enables),
            Op::Write(data) => {
                self.config_write(off, enables, data);
                0
            }
        }
    }

    fn config_read(&self, off: u8, enables: u8) -> u32
        requires { off % 4 ≡ 0 }
        ensures { result ≡ read (file_of self.now) (config off) (lanes enables) }
    {
        match self {
            Function::Endpoint(endpoint) => endpoint.config_read(off, enables),
            Function::Bridge(bridge) => bridge.config_read(off, enables),
        }
    }

    fn config_write(&mut self, off: u8, enables: u8, data: u32)
        requires { off % 4 ≡ 0 }
        ensures { self.new
            ≡ with_cells self.old
            (write (lanes enables) «data» (config off) (file_of self.old)) }
    {
        match self {
            Function::Endpoint(endpoint) => endpoint.config_write(off, enables, data),
            Function::Bridge(bridge) => bridge.config_write(off, enables, data),
        }
    }

    /// Returns the Command register.
    fn command(&self) -> u16
        ensures { result ≡ command_word (file_of self.now) }
    {
        match self {
            Function::Endpoint(endpoint) => endpoint.command(),
            Function::Bridge(bridge) => bridge.command(),
        }
    }

    /// Returns the declaration of a bridge, or `None` for an endpoint.
    pub(crate) fn bridge_decl(&self) -> Option<BridgeDecl>
        ensures { result ≡ declared_bridge (decl_of self.now) }
    {
        match self {
            Function::Endpoint(_) => None,
            Function::Bridge(bridge) => Some(bridge.decl()),
        }
    }

    /// Returns the Secondary Bus Number of a bridge, or `None` for an endpoint.
    pub(crate) fn secondary(&self) -> Option<u8>
        ensures { result ≡ secondary_of (decl_of self.now) (file_of self.now) }
    {
        match self {
            Function::Endpoint(_) => None,
            Function::Bridge(bridge) => Some(bridge.secondary()),
        }
    }

    /// Returns the Primary Bus Number of a bridge, or `None` for an endpoint.
    pub(crate) fn primary(&self) -> Option<u8>
        ensures { result ≡ primary_of (decl_of self.now) (file_of self.now) }
    {
        match self {
            Function::Endpoint(_) => None,
            Function::Bridge(bridge) => Some(bridge.primary()),
        }
    }

    /// Returns the programmed regions of an endpoint or windows of a bridge.
    fn ranges(&self, alloc: Global) -> Result<Ranges, AllocError>
        ensures { IfOk result (λ r.
            named_ranges r ≡ ranges_of (file_of self.now) (decl_of self.now)) }
    {
        match self {
            Function::Endpoint(endpoint) => Ok(Ranges::Regions(endpoint.regions(alloc)?)),
            Function::Bridge(bridge) => Ok(bridge.programmed_windows()),
        }
    }

    /// Returns the regions of an endpoint at their programmed base addresses, each at the index of
    /// its first BAR register. All entries are `None` for a bridge.
    pub(crate) fn bars_with_bases(&self) -> [Option<BarWithBase>; 6]
        ensures { bases_from 0 result ≡ bases_of (decl_of self.now) (file_of self.now) }
    {
        match self {
            Function::Endpoint(endpoint) => endpoint.bars_with_bases(),
            Function::Bridge(_) => [None; 6],
        }
    }

    /// Returns the programmed regions of an endpoint or windows of a bridge, without allocating.
    pub(crate) fn programmed_ranges(&self) -> ProgrammedRanges
        ensures { ranges_told result ≡ ranges_of (file_of self.now) (decl_of self.now) }
    {
        match self {
            Function::Endpoint(endpoint) => ProgrammedRanges::Regions(endpoint.bars_with_bases()),
            Function::Bridge(bridge) => bridge.programmed_window_ranges(),
        }
    }

    /// Returns the value of the `width` bytes of configuration space at offset `off`. The bytes
    /// must not cross a word boundary.
    pub(crate) fn config_value(&self, off: u8, width: u64) -> u32
        requires { LiesInWord off width }
        ensures { result ≡ number (file_of self.now) (config off) width }
    {
        let from = u64::from(off);
        let word = self.config_read(off / 4 * 4, enables_of(from, width));
        shift_lanes_down(from, word)
    }

    /// Returns the routing registers, labelled with the path of the function.
    pub(crate) fn routing_row(&self, alloc: Global, path: &Path) -> Result<RoutingRow, AllocError>
        ensures { IfOk result (λ r. r ≡ record {
          path = path.now;
          command = command_word (file_of self.now);
          ranges = ranges_of (file_of self.now) (decl_of self.now);
        }) }
    {
        Ok(RoutingRow {
            path: path.copied(),
            command: self.command(),
            ranges: self.ranges(alloc)?,
        })
    }

    /// Resets an endpoint, except for its Command register and BARs. Does nothing to a bridge.
    pub(crate) fn reset_except_routing(&mut self)
        ensures { self.new
            ≡ with_cells self.old (after_leaf_reset (decl_of self.old) (file_of self.old)) }
    {
        match self {
            Function::Endpoint(endpoint) => endpoint.reset(),
            Function::Bridge(_) => (),
        }
    }

    /// Returns whether the function is a bridge.
    pub(crate) fn is_bridge(&self) -> bool
        ensures { result ≡ is_bridge (decl_of self.now) }
    {
        match self {
            Function::Endpoint(_) => false,
            Function::Bridge(_) => true,
        }
    }

    /// Returns whether the operation is a write and the function is a bridge.
    pub(crate) fn is_write_to_bridge(&self, op: Op) -> bool
        ensures { result ≡ (is_write op && is_bridge (decl_of self.now)) }
    {
        op.is_write() && self.is_bridge()
    }

    /// Returns whether the function is a bridge that claims type 1 cycles for the bus: its
    /// Secondary Bus Number ≤ `bus` ≤ its Subordinate Bus Number.
    pub(crate) fn covers_bus(&self, bus: u8) -> bool
        ensures { result
            ≡ (is_bridge (decl_of self.now) && nat_le (secondary_register (file_of self.now)) bus
            && nat_le bus (subordinate_register (file_of self.now))) }
    {
        match self {
            Function::Endpoint(_) => false,
            Function::Bridge(bridge) => bridge.secondary() <= bus && bus <= bridge.subordinate(),
        }
    }

    /// Returns whether the function is a bridge with this Secondary Bus Number.
    pub(crate) fn has_secondary_bus(&self, bus: u8) -> bool
        ensures { result
            ≡ (is_bridge (decl_of self.now) && (secondary_register (file_of self.now) == bus)) }
    {
        match self {
            Function::Endpoint(_) => false,
            Function::Bridge(bridge) => bridge.secondary() == bus,
        }
    }

    /// Returns the endpoint, or `None` for a bridge.
    pub(crate) fn endpoint(&self) -> Option<&EndpointFn>
        ensures { option_copied result ≡ endpoint_in self.now }
    {
        match self {
            Function::Endpoint(endpoint) => Some(endpoint),
            Function::Bridge(_) => None,
        }
    }

    /// Borrows the endpoint mutably, or returns `None` for a bridge.
    pub(crate) fn endpoint_mut(&mut self) -> Option<&mut EndpointFn>
        ensures* lends { sem 𝓛 (LendsLeaf self.entry result) }
        ensures value { option_copied_mut result ≡ endpoint_in self.old }
    {
        match self {
            Function::Endpoint(endpoint) => Some(endpoint),
            Function::Bridge(_) => None,
        }
    }
}
