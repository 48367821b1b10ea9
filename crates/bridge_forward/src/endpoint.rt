//! An endpoint with its configuration registers and register blocks.
ghost use Rattle.std.specs.Prelude.{◌≡◌, ◌%◌, ◌+◌, ◌*◌, ◌≤◌, ◌<◌, ◌⊎◌, IfOk, IfSome, IfNone, IsTrue, map};
ghost use Rattle.model_registers.specs.{Registers.{config, block, cell_at, read, write, raise}, DeviceBytes.{is_device_byte, set_value}, ByteEnables.lanes, DeclarationRules.IsLawfulEndpoint, EndpointTable.endpoint_reset, Decoding.{base_address, command_word, lone_claim}, CopiedFiles.after_reset};
ghost use Rattle.bars.specs.{Kinds.named_space, Slots.bases_from, Hits.named_hit};
ghost use Rattle.headers.specs.Places.{place_of};
ghost use Rattle.bridge_forward.specs.RoutingRows.{base_of};

use crate::blocks::{bar_decls, cells_of_all_blocks, reset_all};
use crate::offsets;
use crate::routing::collect_regions;
use crate::routing_region::RoutingRegion;
use bars::{BarWithBase, Bars, Space};
use config_bytes::Cells;
use headers::{Endpoint, EndpointDecl, Place, command};
use std::alloc::{AllocError, Global};
use std::marker::Model;

/// Copies the six entries.
fn copy_regions(regions: &[Option<BarWithBase>; 6]) -> [Option<BarWithBase>; 6]
    ensures { result ≡ regions.now }
{
    [
        regions[0], regions[1], regions[2], regions[3], regions[4], regions[5],
    ]
}

/// An endpoint: its declaration and the state of its registers.
///
/// `blocks` has one entry for each of the six BAR registers, so that an access finds its register
/// block by index. The entry is empty if no region starts at that register. Command is also kept as
/// a number, because every address lookup reads it.
#[derive(Drop)]
pub struct EndpointFn {
    command: u16,
    bars: Bars,
    config: Cells,
    blocks: Vec<Cells>,
    decl: EndpointDecl,
}

impl Model for EndpointFn {
    ghost use Rattle.std.specs.Prelude.{◌++◌};
    ghost use Rattle.model_registers.specs.Decoding.{Function};
    ghost use Rattle.bridge_forward.specs.EndpointParts.{region_parts, block_at, IsEndpointFn};

    ghost Value = { Function };

    ghost view = { λ e. record {
      decl = e.decl;
      file = e.config.now
          ++ region_parts e.bars (block_at e.blocks.items);
    } };

    ghost invariant = { λ e. IsEndpointFn e.decl e.config e.command e.bars e.blocks.items };
}

impl EndpointFn {
    /// Creates the endpoint at reset. `multifunction` sets bit 7 of the header type, for a device
    /// with further functions.
    pub(crate) fn new(
        alloc: Global,
        decl: EndpointDecl,
        multifunction: bool,
    ) -> Result<EndpointFn, AllocError>
        ensures made { IfOk result (λ e.
            e ≡ record { decl = decl; file = endpoint_reset decl multifunction }) }
        ensures lawful { IfOk result (λ _. IsLawfulEndpoint decl) }
    {
        let config = Endpoint::cells(alloc, &decl, multifunction)?;
        let regions = &decl.values().bar;
        let bars = Bars::new(bar_decls(regions));
        let blocks = cells_of_all_blocks(alloc, regions)?;
        let command = command(&config).0;
        Ok(EndpointFn {
            decl,
            config,
            command,
            bars,
            blocks,
        })
    }

    /// Returns the declaration of the endpoint.
    pub fn decl(&self) -> &EndpointDecl
        ensures { result.now ≡ self.now.decl }
    {
        &self.decl
    }

    /// Returns the Command register.
    pub(crate) fn command(&self) -> u16
        ensures { result ≡ command_word self.now.file }
    {
        self.command
    }

    /// Returns the regions at their programmed base addresses.
    pub(crate) fn regions(&self, alloc: Global) -> Result<Vec<RoutingRegion>, AllocError>
        ensures { IfOk result (λ v.
            map base_of v.items ≡ map (base_address self.now.file) self.now.decl.regions) }
    {
        collect_regions(alloc, self.bars.regions())
    }

    /// Returns the regions at their programmed base addresses, each at the index of its first BAR
    /// register. Doesn't allocate.
    pub(crate) fn bars_with_bases(&self) -> [Option<BarWithBase>; 6]
        ensures { bases_from 0 result ≡ map (base_address self.now.file) self.now.decl.regions }
    {
        copy_regions(self.bars.regions())
    }

    /// Reads the enabled bytes of the word at `off`, a multiple of 4, in the register block behind
    /// BAR register `reg`. Disabled bytes, offsets past the end of the block, and registers without
    /// a region read 0.
    pub fn read(&self, reg: u8, off: u64, enables: u8) -> u32
        requires { off % 4 ≡ 0 }
        ensures { result ≡ read self.now.file (block reg off) (lanes enables) }
    {
        match self.blocks.get(usize::from(reg)) {
            Some(block) => offsets::read_or_zero(block, off, enables),
            None => 0,
        }
    }

    /// Writes the enabled bytes of the word at `off`, a multiple of 4, in the register block behind
    /// BAR register `reg`. Writes to unimplemented bytes are ignored.
    pub fn write(&mut self, reg: u8, off: u64, enables: u8, data: u32)
        requires { off % 4 ≡ 0 }
        ensures { self.new
            ≡ record self.old {
              file = write (lanes enables) «data»
                  (block reg off) self.old.file;
            } }
    {
        let Some(block) = self.blocks.get_mut(usize::from(reg)) else {
            return;
        };
        offsets::write_or_ignore(block, off, enables, data);
    }

    /// Sets the W1C bits of `mask` in the register byte at `off`. Other bits, and other register
    /// bytes, don't change.
    pub fn raise(&mut self, place: Place, off: u64, mask: u8)
        ensures { self.new
            ≡ record self.old { file = raise mask (place_of place off) self.old.file } }
    {
        match place {
            Place::Cfg => {
                offsets::raise_or_ignore(&mut self.config, off, mask);
                self.command = command(&self.config).0;
            }
            Place::Bar(reg) => {
                if let Some(block) = self.blocks.get_mut(usize::from(reg)) {
                    offsets::raise_or_ignore(block, off, mask);
                }
            }
        }
    }

    /// Returns the value of a register byte that belongs to the device, or 0 if it isn't
    /// implemented.
    pub fn value(&self, place: Place, off: u64) -> u8
        requires { IsTrue (is_device_byte (place_of place off)) }
        ensures { result ≡ (cell_at self.now.file (place_of place off)).value }
    {
        match place {
            Place::Cfg => offsets::value_or_zero(&self.config, off),
            Place::Bar(reg) => match self.blocks.get(usize::from(reg)) {
                Some(block) => offsets::value_or_zero(block, off),
                None => 0,
            },
        }
    }

    /// Sets the value of a register byte that belongs to the device, ignoring its write mask and
    /// W1C mask, which stay the same. Other register bytes don't change. Does nothing if the byte
    /// isn't implemented.
    pub fn set(&mut self, place: Place, off: u64, value: u8)
        requires { IsTrue (is_device_byte (place_of place off)) }
        ensures { self.new
            ≡ record self.old { file = set_value value (place_of place off) self.old.file } }
    {
        match place {
            Place::Cfg => {
                offsets::set_or_ignore(&mut self.config, off, value);
                self.command = command(&self.config).0;
            }
            Place::Bar(reg) => {
                if let Some(block) = self.blocks.get_mut(usize::from(reg)) {
                    offsets::set_or_ignore(block, off, value);
                }
            }
        }
    }

    /// Resets the endpoint, except for its Command register and BARs. The header type keeps its
    /// reset value.
    pub fn reset(&mut self)
        ensures { self.new ≡ record self.old { file = after_reset self.old.decl self.old.file } }
    {
        self.config.reset_outside(0x04, 0x05);
        self.command = command(&self.config).0;
        reset_all(&mut self.blocks);
    }

    /// Reads the enabled bytes of the configuration word at `off`, a multiple of 4.
    pub fn config_read(&self, off: u8, enables: u8) -> u32
        requires { off % 4 ≡ 0 }
        ensures { result ≡ read self.now.file (config off) (lanes enables) }
    {
        match bar_index_of_offset(off) {
            Some(reg) => self.bars.read(reg, enables),
            None => self.config.read(u16::from(off), enables),
        }
    }

    /// Writes the enabled bytes of the configuration word at `off`, a multiple of 4.
    pub fn config_write(&mut self, off: u8, enables: u8, data: u32)
        requires { off % 4 ≡ 0 }
        ensures { self.new
            ≡ record self.old {
              file = write (lanes enables) «data»
                  (config off) self.old.file;
            } }
    {
        match bar_index_of_offset(off) {
            Some(reg) => self.bars.write(reg, enables, data),
            None => {
                self.config.write(u16::from(off), enables, data);
                self.command = command(&self.config).0;
            }
        }
    }

    /// Returns the first BAR register whose region decodes the address, with the offset in the
    /// region. Only the Command register and the BARs of this endpoint count (PCI Local Bus 3.0,
    /// section 6.2.5).
    pub fn decode(&self, space: Space, addr: u64) -> Option<(u8, u64)>
        ensures { named_hit result ≡ lone_claim self.now (named_space space) addr }
    {
        self.bars.decode(space, addr, self.command)
    }
}

/// Returns the index of the BAR register at `off`, a multiple of 4, or `None` if `off` isn't the
/// offset of a BAR.
fn bar_index_of_offset(off: u8) -> Option<u8>
    requires { off % 4 ≡ 0 }
    ensures there { IfSome result (λ reg. (reg < 6) × (off ≡ 0x10 + 4 * reg)) }
    ensures elsewhere { IfNone result ((off < 0x10) ⊎ (0x28 ≤ off)) }
{
    match off {
        0x10..=0x27 => Some((off - 0x10) / 4),
        _ => None,
    }
}
