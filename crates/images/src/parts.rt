//! The parts of a declaration as little-endian bytes.
ghost use Rattle.std.specs.Prelude.{◌≡◌, ◌≤◌, ◌<◌, length};
ghost use Rattle.model_registers.specs.Cell.{IsCell};
ghost use Rattle.bars.specs.Kinds.{kind_of};
ghost use Rattle.model_images.specs.{Layouts.le_bytes, ImageBytes.{kind_number, pin_number}};
ghost use Rattle.images.specs.Parts.{block_head, cell_bytes, endpoint_head, region_head};

use bars::Kind;
use byteorder::{ByteOrder, LittleEndian};
use config_bytes::Cell;
use headers::{ConfigBlock, EndpointDecl, Region};

/// Returns the bytes of a 16-bit number.
fn u16_to_le_bytes(number: u16) -> [u8; 2]
    ensures { result ≡ le_bytes 2 number }
{
    let mut bytes = [0; 2];
    LittleEndian::write_u16(&mut bytes, number);
    bytes
}

/// Returns the bytes of the low 24 bits of a number.
fn low_u24_to_le_bytes(number: u32) -> [u8; 3]
    ensures { result ≡ le_bytes 3 number }
{
    let mut bytes = [0; 4];
    LittleEndian::write_u32(&mut bytes, number);
    let [first, second, third, _] = bytes;
    [first, second, third]
}

/// Returns the bytes of a 64-bit number.
fn u64_to_le_bytes(number: u64) -> [u8; 8]
    ensures { result ≡ le_bytes 8 number }
{
    let mut bytes = [0; 8];
    LittleEndian::write_u64(&mut bytes, number);
    bytes
}

/// Returns the write mask of a register byte.
fn write_mask(cell: &Cell) -> u8
    ensures { result ≡ cell.now.writable }
{
    cell.with_value(0).written(0xff).value()
}

/// Returns the W1C mask of a register byte.
fn w1c_mask(cell: &Cell) -> u8
    ensures { result ≡ cell.now.clearable }
{
    cell.with_value(0).raised(0xff).value()
}

/// Returns the three bytes that declare a register byte: its value, its write mask and its W1C
/// mask.
#[tactic(auto, unfolding(crate::specs::Parts::cell_bytes))]
pub(crate) fn cell_bytes(cell: &Cell) -> [u8; 3]
    ensures bytes { result ≡ cell_bytes cell.now }
    ensures lawful { IsCell cell.now }
{
    [cell.value(), write_mask(cell), w1c_mask(cell)]
}

/// Returns the number of a region's kind in the saved state.
fn kind_number(kind: Kind) -> u8
    ensures { result ≡ kind_number (kind_of kind) }
{
    match kind {
        Kind::Io => 0,
        Kind::Mem32 { pref } => if pref { 2 } else { 1 },
        Kind::Mem64 { pref } => if pref { 4 } else { 3 },
    }
}

/// Returns the bytes in front of a region's declared bytes: its first register, its kind, its size,
/// and the number of declared bytes.
pub(crate) fn region_head_bytes(region: &Region) -> [u8; 12]
    requires index { region.now.index < 256 }
    requires count { length region.now.cells ≤ 4096 }
    ensures { result ≡ region_head region.now }
{
    let index = region.index;
    let kind = kind_number(region.bar.kind());
    let [a, b, c, d, e, f, g, h] = u64_to_le_bytes(region.bar.size());
    let [low, high] = u16_to_le_bytes(region.block.len() as u16);
    [index, kind, a, b, c, d, e, f, g, h, low, high]
}

/// Returns the bytes in front of a block's declared bytes: the offset of the first one, and how
/// many there are.
#[tactic(auto, unfolding(crate::specs::Parts::block_head))]
pub(crate) fn block_head_bytes(block: &ConfigBlock) -> [u8; 2]
    requires offset { block.now.offset < 256 }
    requires count { length block.now.cells < 256 }
    ensures { result ≡ block_head block.now }
{
    [block.off as u8, block.block.len() as u8]
}

/// Returns Interrupt Pin, with bit 7 set if the function keeps bit 7 of its header type clear.
fn pin_byte(pin: u8, multifunction: bool) -> u8
    requires { pin < 0x80 }
    ensures { result ≡ pin_number (pin, multifunction) }
{
    if multifunction { pin } else { pin + 0x80 }
}

/// Returns the bytes in front of an endpoint's regions: its identity and other header values, and
/// the number of regions.
#[tactic(auto, unfolding(crate::specs::Parts::endpoint_head))]
pub(crate) fn endpoint_head_bytes(decl: &EndpointDecl) -> [u8; 18]
    requires { length decl.now.regions < 256 }
    ensures { result ≡ endpoint_head decl.now }
{
    let values = decl.values();
    let [v0, v1] = u16_to_le_bytes(values.vendor);
    let [d0, d1] = u16_to_le_bytes(values.device);
    let [c0, c1, c2] = low_u24_to_le_bytes(values.class);
    let [m0, m1] = u16_to_le_bytes(values.subvendor);
    let [n0, n1] = u16_to_le_bytes(values.subsystem);
    let [s0, s1] = u16_to_le_bytes(values.status);
    let count = values.bar.len() as u8;
    [
        v0,
        v1,
        d0,
        d1,
        values.revision,
        c0,
        c1,
        c2,
        m0,
        m1,
        n0,
        n1,
        pin_byte(values.pin, values.multifunction),
        values.min_gnt,
        values.max_lat,
        s0,
        s1,
        count,
    ]
}
