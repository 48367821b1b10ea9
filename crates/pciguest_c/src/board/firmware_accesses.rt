//! Reads and writes by firmware. Each call returns 0 or an error number.
ghost use Rattle.std.specs.Prelude.{◌≡◌, None, Some, IfErr, IfOk};
ghost use Rattle.accesses.specs.{Accesses.{op_of, reply_of}, Replies.IsRefusal};
ghost use Rattle.pciguest_c.specs.{Told.{at_bus, host_target_told}, Calls.{AnswersBoard, board_read, board_write, access_as_firmware, nothing, number}};

use crate::handle::Handle;
use crate::machine::host::parse_host_target;
use crate::values::numbers::{ARGUMENT, status_of_reply, store_value_if_ok};
use accesses::{HostAccess, Op, Reply};
use session::Board;
use std::alloc::Global;

/// Performs an access by firmware. Returns 902 if there is no such space, device or function.
#[tactic(auto, unfolding(crate::specs::Calls::access_as_firmware))]
fn access_as_firmware(
    board: &mut Board,
    space: u32,
    bus: u8,
    device: u8,
    function: u8,
    place: u64,
    width: u64,
    op: Op,
) -> Result<Reply, u32>
    ensures asked { IfOk result (λ r. access_as_firmware board.old
        (host_target_told space (at_bus bus device function) place) width (op_of op)
        ≡ Some (reply_of r, board.new)) }
    ensures none { IfErr result (λ n. n ≡ 902) }
    ensures nowhere { IfErr result (λ _. access_as_firmware board.old
        (host_target_told space (at_bus bus device function) place) width (op_of op) ≡ None) }
    ensures kept { IfErr result (λ _. board.new ≡ board.old) }
    ensures unchanged { IfOk result (λ r. IsRefusal r → board.new ≡ board.old) }
{
    let at = parse_host_target(space, bus, device, function, place).ok_or(ARGUMENT)?;
    match op {
        Op::Read => Ok(board.read(HostAccess { at, width })),
        Op::Write(value) => Ok(board.write(HostAccess { at, width }, value)),
    }
}

/// Reads 1, 2 or 4 bytes as firmware does, in any state of the registers. Bus, device and function
/// are used only for configuration space.
#[unsafe(no_mangle)]
pub extern "C" fn pciguest_raw_board_read(
    alloc: Global,
    handle: &mut Handle,
    space: u32,
    bus: u8,
    device: u8,
    function: u8,
    place: u64,
    width: u32,
    value: &mut u32,
) -> u32
    ensures { AnswersBoard (board_read space bus device function place width)
        handle.old handle.new result (number value.old) (number value.new) }
{
    let answer = handle.with_board(alloc, |board| {
        let width = u64::from(width);
        access_as_firmware(board, space, bus, device, function, place, width, Op::Read)
    });
    store_value_if_ok(answer, value)
}

/// Writes the low 1, 2 or 4 bytes of a value as firmware does, in any state of the registers. Bus,
/// device and function are used only for configuration space.
#[unsafe(no_mangle)]
pub extern "C" fn pciguest_raw_board_write(
    alloc: Global,
    handle: &mut Handle,
    space: u32,
    bus: u8,
    device: u8,
    function: u8,
    place: u64,
    width: u32,
    value: u32,
) -> u32
    ensures { AnswersBoard (board_write space bus device function place width value)
        handle.old handle.new result nothing nothing }
{
    status_of_reply(handle.with_board(alloc, |board| {
        let width = u64::from(width);
        access_as_firmware(
            board,
            space,
            bus,
            device,
            function,
            place,
            width,
            Op::Write(value),
        )
    }))
}
