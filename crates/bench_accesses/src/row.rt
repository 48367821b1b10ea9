//! Timing of accesses to a board.
ghost use Rattle.std.specs.Prelude.{◌≡◌};
ghost use Rattle.claim_table.specs.Tables.{FitsTable};

use crate::target::Target;
use bars::Space;
use claim_table::Table;
use host_bridge::{Host, Route, TreeWalk};
use std::io;
use std::rt::Clock;
use std::time::Instant;

/// The number of calls that are timed together.
pub(crate) const CALLS: u64 = 400_000;

/// Reads configuration words, and returns their sum, so that the compiler can't remove a call.
/// Changes only CONFIG_ADDRESS of the host.
fn sum_config_reads(host: &mut Host, target: Target) -> u64
    ensures { host.new.state.functions ≡ host.old.state.functions }
{
    let mut sum: u64 = 0;
    for call in 0..CALLS {
        let off = call % 4 * 4;
        sum = sum.wrapping_add(u64::from(host.config_read(target.at, off as u8, 0b1111)));
    }
    sum
}

/// Looks up the claims of addresses by a route, and returns the sum of their offsets.
fn sum_claim_offsets<R: Route>(host: &Host, route: &R, target: Target) -> u64
    requires { R.fits route.now host.now }
{
    let mut sum: u64 = 0;
    for call in 0..CALLS {
        let addr = target.addr + call % 16 * 4;
        if let Some(claim) = route.claimed_bar_offset(host, Space::Mem, addr) {
            sum = sum.wrapping_add(claim.offset);
        }
    }
    sum
}

/// Reads memory words by a route, and returns their sum. The host isn't changed.
fn sum_memory_reads<R: Route>(host: &mut Host, route: &R, target: Target) -> u64
    requires { R.fits route.now host.old }
    ensures { host.new ≡ host.old }
{
    let mut sum: u64 = 0;
    for call in 0..CALLS {
        let addr = target.addr + call % 16 * 4;
        sum = sum.wrapping_add(u64::from(host.load(route, addr, 4)));
    }
    sum
}

/// Prints the time per call since `since`, in nanoseconds, and the sum of the results.
pub(crate) fn print_ns_per_call_and_sum(
    rt: &(impl Clock + Print),
    since: &Instant,
    sum: u64,
) -> io::Result<()> {
    let passed = since.elapsed(rt)?.as_nanos() / u128::from(CALLS);
    print!(rt; "{passed} {sum} ")
}

/// Prints the times and the sums for claims and memory reads by each route, and for configuration
/// reads.
pub(crate) fn measure_accesses(
    rt: &(impl Clock + Print),
    host: &mut Host,
    table: &Table,
    target: Target,
) -> io::Result<()>
    requires { FitsTable table.now host.old }
{
    let start = Instant::now(rt)?;
    let sum = sum_claim_offsets(host, &TreeWalk, target);
    print_ns_per_call_and_sum(rt, &start, sum)?;
    let start = Instant::now(rt)?;
    let sum = sum_memory_reads(host, &TreeWalk, target);
    print_ns_per_call_and_sum(rt, &start, sum)?;
    let start = Instant::now(rt)?;
    let sum = sum_claim_offsets(host, table, target);
    print_ns_per_call_and_sum(rt, &start, sum)?;
    let start = Instant::now(rt)?;
    let sum = sum_memory_reads(host, table, target);
    print_ns_per_call_and_sum(rt, &start, sum)?;
    let start = Instant::now(rt)?;
    let sum = sum_config_reads(host, target);
    print_ns_per_call_and_sum(rt, &start, sum)
}
