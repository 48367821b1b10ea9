//! Reads by the host, and moves of functions between slots. Each call returns 0 or an error number.
ghost use Rattle.std.specs.Prelude.{◌≡◌, ◌<◌, None, Some, true, false, IfErr, IfOk, length, option_map};
ghost use Rattle.accesses.specs.Accesses.{host_target_of, reply_of};
ghost use Rattle.pciguest_c.specs.{Told.{at_bus, host_target_told}, Calls.{Answers, host_read, read_as_host, move, are_guests, nothing, number}};

use crate::handle::Handle;
use crate::values::arguments::check_guest;
use crate::values::numbers::{ARGUMENT, status_of_reply, store_value_if_ok};
use accesses::{Bdf, HostAccess, HostAt, Reply};
use monitor::Monitor;
use std::alloc::Global;

/// Returns the target of a host access, or `None` if there is no such space, device or function.
pub fn parse_host_target(
    space: u32,
    bus: u8,
    device: u8,
    function: u8,
    place: u64,
) -> Option<HostAt>
    ensures { option_map host_target_of result
        ≡ host_target_told space (at_bus bus device function) place }
{
    match space {
        0 => {
            if device > 31 || function > 7 {
                return None;
            }
            let bdf = Bdf {
                bus,
                device,
                function,
            };
            Some(HostAt::Config { bdf, off: place })
        }
        1 => Some(HostAt::Io { port: place }),
        2 => Some(HostAt::Mem { addr: place }),
        _ => None,
    }
}

/// Reads as the host, or returns 902 if there is no such space, device or function.
#[tactic(auto, unfolding(crate::specs::Calls::read_as_host))]
fn read_as_host(
    machine: &mut Monitor,
    space: u32,
    bus: u8,
    device: u8,
    function: u8,
    place: u64,
    width: u64,
) -> Result<Reply, u32>
    ensures read { IfOk result (λ r. read_as_host machine.old
        (host_target_told space (at_bus bus device function) place) width
        ≡ Some (reply_of r)) }
    ensures none { IfErr result (λ n. n ≡ 902) }
    ensures nowhere { IfErr result (λ _. read_as_host machine.old
        (host_target_told space (at_bus bus device function) place) width ≡ None) }
    ensures kept { machine.new ≡ machine.old }
{
    let at = parse_host_target(space, bus, device, function, place).ok_or(ARGUMENT)?;
    Ok(machine.host_read(HostAccess { at, width }))
}

/// Checks that there are guests with both indices, or returns 902.
fn check_both_guests(machine: &Monitor, from: usize, to: usize) -> Result<(), u32>
    ensures from { IfOk result (λ _. from < length machine.now.world.guests) }
    ensures to { IfOk result (λ _. to < length machine.now.world.guests) }
    ensures there { IfOk result (λ _. are_guests machine.now from to ≡ true) }
    ensures none { IfErr result (λ n. n ≡ 902) }
    ensures nobody { IfErr result (λ _. are_guests machine.now from to ≡ false) }
{
    check_guest(machine, from)?;
    check_guest(machine, to)
}

/// Reads 1, 2 or 4 bytes as the host does, at a physical BDF, port or address. Bus, device and
/// function are used only for configuration space.
#[unsafe(no_mangle)]
pub extern "C" fn pciguest_raw_host_read(
    alloc: Global,
    handle: &mut Handle,
    space: u32,
    bus: u8,
    device: u8,
    function: u8,
    place: u64,
    width: u32,
    value: &mut u32,
) -> u32
    ensures { Answers (host_read space bus device function place width) handle.old handle.new
        result (number value.old) (number value.new) }
{
    let answer = handle.with_machine(alloc, |machine| {
        let width = u64::from(width);
        read_as_host(machine, space, bus, device, function, place, width)
    });
    store_value_if_ok(answer, value)
}

/// Moves a function from a guest's slot to a slot of any guest, and resets the function.
#[unsafe(no_mangle)]
pub extern "C" fn pciguest_raw_move(
    alloc: Global,
    handle: &mut Handle,
    from: usize,
    slot: u64,
    to: usize,
    target: u64,
) -> u32
    ensures { Answers (move from slot to target) handle.old handle.new result nothing nothing }
{
    status_of_reply(handle.with_machine(alloc, |machine| {
        check_both_guests(machine, from, to)?;
        Ok(machine.move_function(from, slot, to, target))
    }))
}
