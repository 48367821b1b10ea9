//! Loads saved values into one function, only by writes that the guest or the device could make
//! itself. The bytes have been checked before, so no call refuses them with 905, 906 or 908. No
//! call allocates memory.
ghost use Rattle.std.specs.Prelude.{◌≡◌, ◌≤◌, ◌<◌, ◌+◌, ◌*◌, ◌^◌, ℕ, IsSome, IsTrue, Some, drop, length, slice_get};
ghost use Rattle.model_registers.specs.{Declarations.{ConfigBlock, Region}, Decoding.Function, DeviceBytes.is_device_byte, Registers.{config, write, all_bytes}};
ghost use Rattle.model_images.specs.{Images.restored, StepLaws.{put_run, written_run, header_values, header_steps, blocks_steps, blocks_size, region_steps, regions_steps, base_size, steps}};
ghost use Rattle.headers.specs.Places.{place_of};
ghost use Rattle.bridge_forward.specs.Lending.{endpoint_nth};
ghost use Rattle.host_bridge.specs.{ByIndex.with_file_nth, HostState.with_functions};
ghost use Rattle.monitor.specs.{Configs.HoldsAt, Counts.counts_of, Loadings.{KeepsFunction, Becomes, IsLoadable, filled_with, regions_size}};

use crate::access::config::{function_in_slot, write_guest_copies_and_count};
use crate::guest::Guest;
use accesses::Place;
use config_bytes::{enables_of, to_lanes};
use headers::bar_width_in_bytes;
use host_bridge::Host;

/// Returns the host's index for the function in a guest's slot.
fn host_index_of_slot(guests: &[Guest], guest: usize, slot: usize) -> usize
    requires { HoldsAt guests.now guest slot }
    ensures { (holds : HoldsAt guests.now guest slot) → result ≡ holds.slot.held.index }
{
    match function_in_slot(&guests[guest].slots, slot) {
        Some(held) => held.index,
        None => unreachable!(),
    }
}

/// Sets consecutive bytes of an endpoint as its device does, starting at offset `first`.
fn set_device_bytes_nth(host: &mut Host, index: usize, place: Place, first: u64, bytes: &[u8])
    requires there { IsSome (endpoint_nth host.old.state.functions index) }
    requires own { (n : ℕ) → n < length bytes.now
        → IsTrue (is_device_byte (place_of place (first + n))) }
    requires low { first + length bytes.now < 2 ^ 63 }
    ensures { let fs = host.old.state.functions in
        let put = put_run bytes.now (place_of place first) in
        host.new ≡ with_functions (with_file_nth put index fs) host.old }
{
    let mut left = bytes;
    let mut off = first;
    while let Some((byte, rest)) = left.split_first() {
        host.set_device_byte_nth(index, place, off, *byte);
        off += 1;
        left = rest;
    }
}

/// Writes a configuration byte of the function in a slot as its guest does, but doesn't touch the
/// change count.
fn guest_config_write_byte(
    host: &mut Host,
    guests: &mut [Guest],
    guest: usize,
    slot: usize,
    off: u8,
    value: u8,
)
    requires { KeepsFunction host.old guests.old guest slot }
    ensures becomes { (k : KeepsFunction host.old guests.old guest slot)
        → Becomes k (write (all_bytes 1) value (config off) k.f.file) host.new guests.new }
    ensures counts { counts_of guests.new ≡ counts_of guests.old }
{
    let from = u64::from(off);
    let word = off / 4 * 4;
    let moved = to_lanes(from, u32::from(value));
    let enables = enables_of(from, 1);
    let (index, others) = write_guest_copies_and_count(
        guests, guest, slot, word, enables, moved, false,
    );
    host.config_write_nth(index, word, others, moved);
}

/// Writes consecutive configuration bytes as the guest does, starting at an offset.
fn guest_config_write_bytes(
    host: &mut Host,
    guests: &mut [Guest],
    guest: usize,
    slot: usize,
    first: u8,
    bytes: &[u8],
)
    requires keeps { KeepsFunction host.old guests.old guest slot }
    requires within { first + length bytes.now ≤ 255 }
    ensures becomes { (k : KeepsFunction host.old guests.old guest slot)
        → Becomes k (written_run bytes.now (config first) k.f.file) host.new guests.new }
    ensures counts { counts_of guests.new ≡ counts_of guests.old }
{
    let mut left = bytes;
    let mut off = first;
    while let Some((byte, rest)) = left.split_first() {
        guest_config_write_byte(host, guests, guest, slot, off, *byte);
        off += 1;
        left = rest;
    }
}

/// Loads the header registers that can differ from their reset values: Command, Status, Cache Line
/// Size, Latency Timer and Interrupt Line.
fn load_header(host: &mut Host, guests: &mut [Guest], guest: usize, slot: usize, values: &[u8])
    requires keeps { KeepsFunction host.old guests.old guest slot }
    requires enough { header_values ≤ length values.now }
    ensures becomes { (k : KeepsFunction host.old guests.old guest slot)
        → Becomes k (header_steps values.now k.f.file) host.new guests.new }
    ensures counts { counts_of guests.new ≡ counts_of guests.old }
{
    guest_config_write_bytes(host, guests, guest, slot, 0x04, &values[4..6]);
    let index = host_index_of_slot(guests, guest, slot);
    set_device_bytes_nth(host, index, Place::Cfg, 0x06, &values[6..8]);
    guest_config_write_bytes(host, guests, guest, slot, 0x0c, &values[12..14]);
    guest_config_write_bytes(host, guests, guest, slot, 0x3c, &values[19..20]);
}

/// Returns how many configuration blocks an endpoint has.
fn block_count(host: &Host, index: usize) -> usize
    ensures { (e : Function) → endpoint_nth host.now.state.functions index ≡ Some e
        → result ≡ length e.decl.blocks }
{
    match host.endpoint_ref_nth(index) {
        Some(endpoint) => endpoint.decl().values().config.len(),
        None => 0,
    }
}

/// Returns the offset and the length of a configuration block, in bytes.
fn block_offset_and_length(host: &Host, index: usize, block: usize) -> (u16, usize)
    requires { (e : Function) × (b : ConfigBlock)
        × (endpoint_nth host.now.state.functions index ≡ Some e)
        × (slice_get e.decl.blocks block ≡ Some b) }
    ensures { (e : Function) (b : ConfigBlock)
        → endpoint_nth host.now.state.functions index ≡ Some e
        → slice_get e.decl.blocks block ≡ Some b
        → result ≡ (b.offset, length b.cells) }
{
    match host.endpoint_ref_nth(index) {
        Some(endpoint) => {
            let block = &endpoint.decl().values().config[block];
            (block.off, block.block.len())
        }
        None => unreachable!(),
    }
}

/// Loads the configuration blocks of the function in a slot, and returns the remaining values.
fn load_blocks_and_advance<'a>(
    host: &mut Host,
    guests: &[Guest],
    guest: usize,
    slot: usize,
    values: &'a [u8],
) -> &'a [u8]
    requires { (k : KeepsFunction host.old guests.now guest slot)
        × (blocks_size k.f.decl.blocks ≤ length values.now) }
    ensures becomes { (k : KeepsFunction host.old guests.now guest slot)
        → blocks_size k.f.decl.blocks ≤ length values.now
        → Becomes k (blocks_steps k.f.decl.blocks values.now k.f.file) host.new guests.now }
    ensures left { (k : KeepsFunction host.old guests.now guest slot)
        → blocks_size k.f.decl.blocks ≤ length values.now
        → result.now ≡ drop (blocks_size k.f.decl.blocks) values.now }
{
    let index = host_index_of_slot(guests, guest, slot);
    let count = block_count(host, index);
    let mut left = values;
    for block in 0..count {
        let (off, size) = block_offset_and_length(host, index, block);
        let (now, rest) = left.split_at(size);
        set_device_bytes_nth(host, index, Place::Cfg, u64::from(off), now);
        left = rest;
    }
    left
}

/// Returns how many regions an endpoint has.
fn region_count(host: &Host, index: usize) -> usize
    ensures { (e : Function) → endpoint_nth host.now.state.functions index ≡ Some e
        → result ≡ length e.decl.regions }
{
    match host.endpoint_ref_nth(index) {
        Some(endpoint) => endpoint.decl().values().bar.len(),
        None => 0,
    }
}

/// Returns a region's base address register, the register's width in bytes, and how many bytes of
/// the region are declared.
fn region_bar_width_and_cell_count(host: &Host, index: usize, region: usize) -> (u8, usize, usize)
    requires { (e : Function) × (r : Region)
        × (endpoint_nth host.now.state.functions index ≡ Some e)
        × (slice_get e.decl.regions region ≡ Some r) }
    ensures { (e : Function) (r : Region) → endpoint_nth host.now.state.functions index ≡ Some e
        → slice_get e.decl.regions region ≡ Some r
        → result ≡ (r.index, base_size r, length r.cells) }
{
    match host.endpoint_ref_nth(index) {
        Some(endpoint) => {
            let region = &endpoint.decl().values().bar[region];
            let width = bar_width_in_bytes(region.bar.kind());
            (region.index, usize::from(width), region.block.len())
        }
        None => unreachable!(),
    }
}

/// Loads the base address register of a region and the declared bytes in the region, and returns
/// the remaining values.
fn load_region_and_advance<'a>(
    host: &mut Host,
    guests: &mut [Guest],
    guest: usize,
    slot: usize,
    region: usize,
    values: &'a [u8],
) -> &'a [u8]
    requires { (k : KeepsFunction host.old guests.old guest slot) × (r : Region)
        × (slice_get k.f.decl.regions region ≡ Some r)
        × (base_size r + length r.cells ≤ length values.now) }
    ensures becomes { (k : KeepsFunction host.old guests.old guest slot) (r : Region)
        → slice_get k.f.decl.regions region ≡ Some r
        → base_size r + length r.cells ≤ length values.now
        → Becomes k (region_steps r values.now k.f.file) host.new guests.new }
    ensures left { (k : KeepsFunction host.old guests.old guest slot) (r : Region)
        → slice_get k.f.decl.regions region ≡ Some r
        → base_size r + length r.cells ≤ length values.now
        → result.now ≡ drop (base_size r + length r.cells) values.now }
    ensures counts { counts_of guests.new ≡ counts_of guests.old }
{
    let index = host_index_of_slot(guests, guest, slot);
    let (reg, width, count) = region_bar_width_and_cell_count(host, index, region);
    let (base, rest) = values.split_at(width);
    guest_config_write_bytes(host, guests, guest, slot, 0x10 + 4 * reg, base);
    let (cells, rest) = rest.split_at(count);
    let index = host_index_of_slot(guests, guest, slot);
    set_device_bytes_nth(host, index, Place::Bar(reg), 0, cells);
    rest
}

/// Loads all regions of the function in a slot.
fn load_regions(host: &mut Host, guests: &mut [Guest], guest: usize, slot: usize, values: &[u8])
    requires { (k : KeepsFunction host.old guests.old guest slot)
        × (regions_size k.f.decl.regions ≤ length values.now) }
    ensures becomes { (k : KeepsFunction host.old guests.old guest slot)
        → regions_size k.f.decl.regions ≤ length values.now
        → Becomes k (regions_steps k.f.decl.regions values.now k.f.file) host.new guests.new }
    ensures counts { counts_of guests.new ≡ counts_of guests.old }
{
    let count = region_count(host, host_index_of_slot(guests, guest, slot));
    let mut left = values;
    for region in 0..count {
        left = load_region_and_advance(host, guests, guest, slot, region, left);
    }
}

/// Loads the saved value of each register byte, by guest writes and device writes.
fn load_registers(host: &mut Host, guests: &mut [Guest], guest: usize, slot: usize, values: &[u8])
    requires { (k : KeepsFunction host.old guests.old guest slot) × IsLoadable k values.now }
    ensures becomes { (k : KeepsFunction host.old guests.old guest slot) → IsLoadable k values.now
        → Becomes k (steps k.f.decl values.now k.f.file) host.new guests.new }
    ensures counts { counts_of guests.new ≡ counts_of guests.old }
{
    load_header(host, guests, guest, slot, values);
    let (_, left) = values.split_at(23);
    let left = load_blocks_and_advance(host, guests, guest, slot, left);
    load_regions(host, guests, guest, slot, left);
}

/// Loads saved values into the function in a slot. The function is at reset, and its registers can
/// hold the values. Nothing else changes, not even the change count.
pub(crate) fn load_function(
    host: &mut Host,
    guests: &mut [Guest],
    guest: usize,
    slot: usize,
    values: &[u8],
)
    requires { (k : KeepsFunction host.old guests.old guest slot) × IsLoadable k values.now }
    ensures loaded { (k : KeepsFunction host.old guests.old guest slot) → IsLoadable k values.now
        → Becomes k (restored (filled_with values.now k.f)).file host.new guests.new }
    ensures counts { counts_of guests.new ≡ counts_of guests.old }
{
    load_registers(host, guests, guest, slot, values);
}
