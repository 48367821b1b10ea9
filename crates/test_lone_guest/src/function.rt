//! A guest's function, as a register file of its own.
use crate::declared::{LoneBlock, LoneEndpoint, LoneRegion};
use crate::file::{self, declare_register};
use crate::register::Register;
use accesses::Place;
use bars::{Kind, Space};
use std::alloc::{AllocError, Global};

/// A function with its guest and slot: 256 bytes of configuration space, and the bytes at the start
/// of each region.
#[derive(Drop)]
pub(crate) struct Function {
    pub(crate) guest: usize,
    pub(crate) slot: u64,
    config: Vec<Register>,
    regions: Vec<LoneRegion>,
}

/// Declares the header of an endpoint, without the base address registers (PCI Local Bus 3.0,
/// section 6.1). A guest always reads Header Type as 00h.
fn declare_header(file: &mut [Register], decl: &LoneEndpoint) {
    declare_register(file, 0x04, 2, 0, 0x0547, 0);
    declare_register(file, 0x0c, 2, 0, 0xffff, 0);
    declare_register(file, 0x3c, 1, 0, 0xff, 0);
    for [offset, width, value, cleared] in &decl.header {
        declare_register(file, *offset as usize, *width as usize, *value, 0, *cleared);
    }
}

/// Returns the offset of a region's first base address register.
fn bar_offset(region: &LoneRegion) -> u8 {
    0x10u8.wrapping_add(region.index.wrapping_mul(4))
}

/// Declares a base address register (PCI Local Bus 3.0, section 6.2.5.1). The bits at or above the
/// region's size are writable, and the low bits encode its kind.
fn declare_bar(file: &mut [Register], region: &LoneRegion) {
    let (width, kind_bits) = match region.kind {
        Kind::Io => (4, 1),
        Kind::Mem32 { pref } => (4, if pref { 8 } else { 0 }),
        Kind::Mem64 { pref } => (8, if pref { 12 } else { 4 }),
    };
    let size_bits = region.size.wrapping_sub(1);
    declare_register(
        file,
        usize::from(bar_offset(region)),
        width,
        kind_bits,
        !size_bits,
        0,
    );
}

/// Declares a block of device-specific registers.
fn declare_block(file: &mut [Register], block: &LoneBlock) {
    let registers = file.iter_mut().skip(usize::from(block.off));
    for (register, declared) in registers.zip(block.block.iter()) {
        *register = *declared;
    }
}

impl Function {
    /// Returns the declared function at reset, in a slot of a guest.
    pub(crate) fn new(
        alloc: Global,
        guest: usize,
        slot: u64,
        decl: LoneEndpoint,
    ) -> Result<Function, AllocError> {
        let mut config = vec![in alloc; Register::new(0, 0, 0); 256]?;
        declare_header(&mut config, &decl);
        for region in &decl.bar {
            declare_bar(&mut config, region);
        }
        for block in &decl.config {
            declare_block(&mut config, block);
        }
        let mut regions = decl.bar;
        regions.sort_unstable_by_key(|region| region.index);
        Ok(Function {
            guest,
            slot,
            config,
            regions,
        })
    }

    /// Returns the present base address of a region.
    fn base(&self, region: &LoneRegion) -> u64 {
        let off = u64::from(bar_offset(region));
        let low = u64::from(file::read(&self.config, off, 4));
        match region.kind {
            Kind::Io => low & !3,
            Kind::Mem32 { pref: _ } => low & !15,
            Kind::Mem64 { pref: _ } => {
                let high = u64::from(file::read(&self.config, off + 4, 4));
                high << 32 | low & !15
            }
        }
    }

    /// Returns whether Command enables decoding in a space (PCI Local Bus 3.0, section 6.2.2).
    fn is_space_enabled(&self, space: Space) -> bool {
        let bit = match space {
            Space::Io => 1,
            Space::Mem => 2,
        };
        file::read(&self.config, 4, 1) & bit != 0
    }

    /// Returns the offset of an address in a region, if the region decodes the address at present.
    fn offset_if_decoded(&self, region: &LoneRegion, space: Space, addr: u64) -> Option<u64> {
        let is_io = matches!(region.kind, Kind::Io);
        let base = self.base(region);
        if is_io != matches!(space, Space::Io) || !self.is_space_enabled(space) || addr < base {
            return None;
        }
        let off = addr - base;
        if off < region.size { Some(off) } else { None }
    }

    /// Returns the lowest base address register whose region decodes an address at present, and the
    /// offset in the region.
    pub(crate) fn decode(&self, space: Space, addr: u64) -> Option<(Place, u64)> {
        for region in &self.regions {
            if let Some(off) = self.offset_if_decoded(region, space, addr) {
                return Some((Place::Bar(region.index), off));
            }
        }
        None
    }

    /// Returns whether a raise at an offset of a place is in range.
    pub(crate) fn is_in_range(&self, place: Place, off: u64) -> bool {
        match place {
            Place::Cfg => off < 256,
            Place::Bar(index) => {
                self.regions
                    .iter()
                    .any(|region| region.index == index && off < region.size)
            }
        }
    }

    /// Returns the register file of a place.
    fn register_file_mut(&mut self, place: Place) -> Option<&mut Vec<Register>> {
        match place {
            Place::Cfg => Some(&mut self.config),
            Place::Bar(index) => {
                let region = self
                    .regions
                    .iter_mut()
                    .find(|region| region.index == index)?;
                Some(&mut region.block)
            }
        }
    }

    pub(crate) fn read(&mut self, place: Place, off: u64, width: u64) -> u32 {
        match self.register_file_mut(place) {
            Some(file) => file::read(file, off, width),
            None => 0,
        }
    }

    pub(crate) fn write(&mut self, place: Place, off: u64, width: u64, value: u32) {
        if let Some(file) = self.register_file_mut(place) {
            file::write(file, off, width, value);
        }
    }

    pub(crate) fn raise(&mut self, place: Place, off: u64, mask: u8) {
        if let Some(file) = self.register_file_mut(place) {
            file::raise(file, off, mask);
        }
    }

    /// Moves the function to a slot of a guest, and resets it.
    pub(crate) fn move_and_reset(&mut self, guest: usize, slot: u64) {
        self.guest = guest;
        self.slot = slot;
        file::reset(&mut self.config);
        for region in self.regions.iter_mut() {
            file::reset(&mut region.block);
        }
    }
}
