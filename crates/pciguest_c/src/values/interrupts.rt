//! The interrupt pin of a function, its route to bus 0, and Interrupt Disable in Command.
ghost use Rattle.std.specs.Prelude.{◌≡◌};
ghost use Rattle.model_registers.specs.{ByteEnables.LiesInWord, Registers.{config, number}};
ghost use Rattle.model_board.specs.Ports.{file_at};
ghost use Rattle.model_guests.specs.WorldNow.{board_state};
ghost use Rattle.monitor.specs.FunctionsTold.{function_named, seat_named};
ghost use Rattle.pciguest_c.specs.InterruptsTold.{guest_command_or_zero, current_command, pin_and_route_or_zeros, interrupt_of};

use crate::values::arguments::guest_count;
use intx_swizzle::swizzle_to_root;
use monitor::{Assignment, LiveFunction, Monitor};
use paths::Path;

/// A function's interrupt pin, 1 to 4, and the device and pin on bus 0 to which it is routed. These
/// fields are 0 if the function has no pin. `is_disabled` is Interrupt Disable in Command.
#[repr(C)]
#[derive(Clone, Copy)]
pub struct Interrupt {
    pub pin: u32,
    pub root_device: u32,
    pub root_pin: u32,
    pub is_disabled: u32,
}

/// The interrupt of a function on a board driven by firmware: all 0, because firmware reads
/// Interrupt Pin itself.
pub const NO_INTERRUPT: Interrupt = Interrupt {
    pin: 0,
    root_device: 0,
    root_pin: 0,
    is_disabled: 0,
};

/// Reads a register on the board of the function at a path, or returns 0 if there is no such
/// function.
fn board_register_or_zero(machine: &Monitor, path: &Path, offset: u8, width: u64) -> u32
    requires { LiesInWord offset width }
    ensures { let fs = (board_state machine.now.world).functions in
        result ≡ number (file_at fs path.now) (config offset) width }
{
    let host = machine.host();
    match host.index_of(path) {
        Some(index) => host.peek_config_nth(index, offset, width).unwrap_or(0),
        None => 0,
    }
}

/// Returns the guest's copy of the Command register for the function in a slot, or 0 if there is no
/// such function.
fn guest_command_or_zero(machine: &Monitor, seat: Assignment) -> u32
    ensures { result ≡ guest_command_or_zero machine.now.world (seat_named seat) }
{
    if seat.guest >= guest_count(machine) {
        return 0;
    }
    match machine.own_registers(seat.guest, seat.slot) {
        Some(own) => u32::from(own.command),
        None => 0,
    }
}

/// Returns a function's Command register: the guest's copy if the function is assigned, or else the
/// register on the board.
fn current_command(machine: &Monitor, function: &LiveFunction) -> u32
    ensures { result ≡ current_command machine.now.world (function_named function.now) }
{
    match function.seat {
        Some(seat) => guest_command_or_zero(machine, seat),
        None => board_register_or_zero(machine, &function.path, 4, 2),
    }
}

/// Returns a pin with the device and pin on bus 0 to which it is routed, or zeros if the function
/// has no pin.
fn pin_and_route_or_zeros(path: &Path, pin: u32) -> (u32, u32, u32)
    ensures { result ≡ pin_and_route_or_zeros path.now pin }
{
    if pin < 1 || pin > 4 {
        return (0, 0, 0);
    }
    let (device, root) = swizzle_to_root(path, pin as u8);
    (pin, u32::from(device), u32::from(root))
}

/// Returns the interrupt description of a function.
#[tactic(auto, unfolding(crate::specs::InterruptsTold::interrupt_of))]
pub fn interrupt_of(machine: &Monitor, function: &LiveFunction) -> Interrupt
    ensures { result ≡ interrupt_of machine.now.world (function_named function.now) }
{
    let pin = board_register_or_zero(machine, &function.path, 0x3d, 1);
    let (pin, root_device, root_pin) = pin_and_route_or_zeros(&function.path, pin);
    Interrupt {
        pin,
        root_device,
        root_pin,
        is_disabled: current_command(machine, function) / 0x400 % 2,
    }
}
