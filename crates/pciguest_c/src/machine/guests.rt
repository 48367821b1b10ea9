//! The calls that count the guests of a machine and return their names.
ghost use Rattle.std.specs.Prelude.{◌≡◌, ◌<◌, ◌≤◌, IfErr, IfOk, IfSome, length};
ghost use Rattle.monitor.specs.ByIndex.{name_nth};
ghost use Rattle.pciguest_c.specs.{Handles.machine_of, Calls.{Answers, guest_count, guest_name, buffer, number}};

use crate::handle::Handle;
use crate::texts::reports::store_text_if_fits;
use crate::values::arguments::guest_count;
use crate::values::numbers::{ARGUMENT, store_result_if_ok};
use arrayvec::ArrayString;
use monitor::Monitor;
use std::alloc::Global;

/// Returns a guest's name, or 902 if there is no such guest.
fn guest_name_or_error(machine: &Monitor, guest: usize) -> Result<ArrayString<16>, u32>
    ensures name { IfOk result (λ n. n.bytes ≡ name_nth machine.now.world guest) }
    ensures there { IfOk result (λ _. guest < length machine.now.world.guests) }
    ensures none { IfErr result (λ n.
        (n ≡ 902) × (length machine.now.world.guests ≤ guest)) }
{
    match machine.names().get(guest) {
        Some(name) => Ok(*name),
        None => Err(ARGUMENT),
    }
}

/// Stores the number of guests.
#[unsafe(no_mangle)]
pub extern "C" fn pciguest_raw_guest_count(
    alloc: Global,
    handle: &mut Handle,
    count: &mut usize,
) -> u32
    ensures { Answers guest_count handle.old handle.new result
        (number count.old) (number count.new) }
{
    store_result_if_ok(
        handle.with_machine(alloc, |machine| Ok(guest_count(machine))),
        count,
    )
}

/// Writes a guest's name to the front of `out`, and stores the length of the name even if `out` is
/// too small. Every name fits in 16 bytes.
#[unsafe(no_mangle)]
pub extern "C" fn pciguest_raw_guest_name(
    alloc: Global,
    handle: &mut Handle,
    guest: usize,
    out: &mut [u8],
    needed: &mut usize,
) -> u32
    ensures name { Answers (guest_name guest) handle.old handle.new result
        (buffer out.old needed.old) (buffer out.new needed.new) }
    ensures enough { IfSome (machine_of handle.old) (λ m. guest < length m.world.guests →
        16 ≤ length out.old → result ≡ 0) }
{
    match handle.with_machine(alloc, |machine| guest_name_or_error(machine, guest)) {
        Ok(name) => store_text_if_fits(name.as_str().as_bytes(), out, needed),
        Err(number) => number,
    }
}
