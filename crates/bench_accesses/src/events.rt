//! Timing of a guest's accesses.
ghost use Rattle.std.specs.Prelude.{◌≡◌, ◌<◌, ◌≤◌, length};

use crate::row::{CALLS, print_ns_per_call_and_sum};
use monitor::{Access, At, Monitor, Op, Reply};
use std::io;
use std::rt::Clock;
use std::time::Instant;

/// Performs a 4-byte access of the first guest. Returns the value read, or 0 for a write or a
/// refusal.
fn access_first_guest_or_zero(monitor: &mut Monitor, at: At, op: Op) -> u32
    requires { 0 < length monitor.old.world.guests }
    ensures { length monitor.new.world.guests ≡ length monitor.old.world.guests }
{
    match monitor.step(0, Access { at, width: 4, op }) {
        Reply::Value(value, _) => value,
        Reply::Done => 0,
        Reply::Refused(_) => 0,
    }
}

/// Returns whether a memory region begins at a base address register, by writing all ones and
/// reading the register.
fn probe_is_memory_bar(monitor: &mut Monitor, register: At) -> bool
    requires { 0 < length monitor.old.world.guests }
    ensures { length monitor.new.world.guests ≡ length monitor.old.world.guests }
{
    access_first_guest_or_zero(monitor, register, Op::Write(u32::MAX));
    let shown = access_first_guest_or_zero(monitor, register, Op::Read);
    shown != 0 && shown % 2 == 0
}

/// Programs the first memory region of the function in a slot with an address and enables it, as a
/// guest's driver does.
fn enable_first_memory_bar(monitor: &mut Monitor, slot: u64, base: u32)
    requires { 0 < length monitor.old.world.guests }
    ensures { length monitor.new.world.guests ≡ length monitor.old.world.guests }
{
    for register in 0..6 {
        let at = At::Config {
            slot,
            off: 0x10 + 4 * register,
        };
        if probe_is_memory_bar(monitor, at) {
            access_first_guest_or_zero(monitor, at, Op::Write(base));
            let command = At::Config { slot, off: 0x04 };
            access_first_guest_or_zero(monitor, command, Op::Write(0b10));
            return;
        }
    }
}

/// Returns the address for the region of a slot: 64 MB for slot 0, and 64 MB more for each further
/// slot.
fn region_base_of_slot(slot: u8) -> u32
    requires { slot < 32 }
{
    (1 + u32::from(slot)) << 26
}

/// Enables a region for each slot below a count, and writes to its first sixteen words.
fn enable_and_write_regions(monitor: &mut Monitor, slot_count: u8)
    requires guest { 0 < length monitor.old.world.guests }
    requires slot_count { slot_count ≤ 32 }
    ensures { length monitor.new.world.guests ≡ length monitor.old.world.guests }
{
    for slot in 0..slot_count {
        let base = region_base_of_slot(slot);
        enable_first_memory_bar(monitor, u64::from(slot), base);
        for word in 0..16 {
            let addr = u64::from(base) + 4 * word;
            access_first_guest_or_zero(monitor, At::Mem { addr }, Op::Write(0x0101_0101));
        }
    }
}

/// Reads configuration words of the function in a slot, and returns their sum.
fn sum_config_reads(monitor: &mut Monitor, slot: u8) -> u64
    requires { 0 < length monitor.old.world.guests }
    ensures { length monitor.new.world.guests ≡ length monitor.old.world.guests }
{
    let mut sum: u64 = 0;
    for call in 0..CALLS {
        let at = At::Config {
            slot: u64::from(slot),
            off: call % 4 * 4,
        };
        sum = sum.wrapping_add(u64::from(access_first_guest_or_zero(monitor, at, Op::Read)));
    }
    sum
}

/// Reads memory words in the region of a slot, and returns their sum.
fn sum_memory_reads(monitor: &mut Monitor, slot: u8) -> u64
    requires guest { 0 < length monitor.old.world.guests }
    requires slot { slot < 32 }
    ensures { length monitor.new.world.guests ≡ length monitor.old.world.guests }
{
    let base = u64::from(region_base_of_slot(slot));
    let mut sum: u64 = 0;
    for call in 0..CALLS {
        let addr = base + call % 16 * 4;
        sum = sum.wrapping_add(u64::from(access_first_guest_or_zero(
            monitor,
            At::Mem { addr },
            Op::Read,
        )));
    }
    sum
}

/// Writes memory words in the region of a slot, and returns the first word of the region.
fn write_words_and_read_first(monitor: &mut Monitor, slot: u8) -> u64
    requires guest { 0 < length monitor.old.world.guests }
    requires slot { slot < 32 }
    ensures { length monitor.new.world.guests ≡ length monitor.old.world.guests }
{
    let base = u64::from(region_base_of_slot(slot));
    for call in 0..CALLS {
        let addr = base + call % 16 * 4;
        access_first_guest_or_zero(monitor, At::Mem { addr }, Op::Write(call as u32));
    }
    u64::from(access_first_guest_or_zero(monitor, At::Mem { addr: base }, Op::Read))
}

/// Prints the time per access and the sum for a guest's configuration reads, for memory reads and
/// writes in its first slot, and for memory reads in its last slot.
pub(crate) fn measure_guest_accesses(
    rt: &(impl Clock + Print),
    monitor: &mut Monitor,
    slot_count: u8,
) -> io::Result<()>
    requires guest { 0 < length monitor.old.world.guests }
    requires some { 0 < slot_count }
    requires slot_count { slot_count ≤ 32 }
{
    enable_and_write_regions(monitor, slot_count);
    let start = Instant::now(rt)?;
    let sum = sum_config_reads(monitor, 0);
    print_ns_per_call_and_sum(rt, &start, sum)?;
    let start = Instant::now(rt)?;
    let sum = sum_memory_reads(monitor, 0);
    print_ns_per_call_and_sum(rt, &start, sum)?;
    let start = Instant::now(rt)?;
    let sum = write_words_and_read_first(monitor, 0);
    print_ns_per_call_and_sum(rt, &start, sum)?;
    let start = Instant::now(rt)?;
    let sum = sum_memory_reads(monitor, slot_count - 1);
    print_ns_per_call_and_sum(rt, &start, sum)
}
