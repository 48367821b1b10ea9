//! The calls that explain the outcome of a guest's access, or which function responds to an
//! address, port or BDF on a board.
ghost use Rattle.std.specs.Prelude.{◌≡◌, IfOk, IfErr, string_bytes};
ghost use Rattle.model_lines.specs.Sessions.{driven, given};
ghost use Rattle.pciguest_c.specs.{Told.{target_told, at_bus, host_target_told}, Calls.{AnswersOrRunsOut, AnswersBoardOrRunsOut, why, board_why, telling_why, explaining, text, buffer, refusal, tells, unless_out}, TextsTold.form_of};

use crate::handle::Handle;
use crate::machine::host::parse_host_target;
use crate::texts::forms::form_of;
use crate::texts::reports::store_text_if_fits;
use crate::values::arguments::parse_guest_target;
use crate::values::numbers::{ARGUMENT, MEMORY};
use board_told::explain_guest_access;
use monitor::Monitor;
use session::{Board, ReportForm};
use std::alloc::Global;

/// Explains the outcome of a guest's access, or returns the error number.
#[tactic(auto, unfolding(crate::specs::Calls::telling_why))]
fn explain_guest_target(
    alloc: Global,
    form: ReportForm,
    machine: &Monitor,
    guest: usize,
    space: u32,
    slot: u64,
    place: u64,
) -> Result<String, u32>
    ensures told { IfOk result (λ s.
        telling_why form machine.now guest (target_told space slot place)
        ≡ tells (text (string_bytes s)) (given machine.now)) }
    ensures refused { IfErr result (λ n.
        unless_out n (telling_why form machine.now guest (target_told space slot place))
        ≡ refusal n) }
{
    let at = parse_guest_target(machine, guest, space, slot, place)?;
    explain_guest_access(alloc, form, machine, guest, at).map_err(|fault| u32::from(fault.number()))
}

/// Writes an explanation of a guest's access to the front of `out`, as lines or as a one-line JSON
/// object, and stores the length of the text even if `out` is too small. The text depends only on the
/// guest's own functions and CONFIG_ADDRESS.
#[unsafe(no_mangle)]
pub extern "C" fn pciguest_raw_why_in(
    alloc: Global,
    handle: &mut Handle,
    guest: usize,
    space: u32,
    slot: u64,
    place: u64,
    out: &mut [u8],
    needed: &mut usize,
    is_json: bool,
) -> u32
    ensures { let form = form_of is_json in
        AnswersOrRunsOut (why form guest space slot place) handle.old handle.new result
        (buffer out.old needed.old) (buffer out.new needed.new) }
{
    let form = form_of(is_json);
    let answer = handle.with_machine(alloc, |machine| {
        explain_guest_target(alloc, form, machine, guest, space, slot, place)
    });
    match answer {
        Ok(text) => store_text_if_fits(text.as_bytes(), out, needed),
        Err(number) => number,
    }
}

/// Explains which function responds to an address, port or BDF, as JSON. Returns 902 if there is no
/// such space, device or function, or 299 if memory is exhausted.
#[tactic(auto, unfolding(crate::specs::Calls::explaining))]
fn explain_board_access_as_json(
    alloc: Global,
    board: &mut Board,
    space: u32,
    bus: u8,
    device: u8,
    function: u8,
    place: u64,
) -> Result<String, u32>
    ensures told { let at = host_target_told space (at_bus bus device function) place in
        IfOk result (λ s.
        explaining at board.old ≡ tells (text (string_bytes s)) (driven board.old)) }
    ensures refused { let at = host_target_told space (at_bus bus device function) place in
        IfErr result (λ n. unless_out n (explaining at board.old) ≡ refusal n) }
    ensures kept { board.new ≡ board.old }
{
    let at = parse_host_target(space, bus, device, function, place).ok_or(ARGUMENT)?;
    board
        .explain_access(alloc, ReportForm::Json, at)
        .map_err(|_| MEMORY)
}

/// Writes a one-line JSON object to the front of `out` that explains which function responds to an
/// address, port or BDF, or why none does, according to the current registers. Stores the length of
/// the text even if `out` is too small. Bus, device and function are used only for configuration
/// space, where `place` is ignored. The board doesn't change.
#[unsafe(no_mangle)]
pub extern "C" fn pciguest_raw_board_why_json(
    alloc: Global,
    handle: &mut Handle,
    space: u32,
    bus: u8,
    device: u8,
    function: u8,
    place: u64,
    out: &mut [u8],
    needed: &mut usize,
) -> u32
    ensures { AnswersBoardOrRunsOut (board_why space bus device function place) handle.old
        handle.new result (buffer out.old needed.old) (buffer out.new needed.new) }
{
    let answer = handle.with_board(alloc, |board| {
        explain_board_access_as_json(alloc, board, space, bus, device, function, place)
    });
    match answer {
        Ok(text) => store_text_if_fits(text.as_bytes(), out, needed),
        Err(number) => number,
    }
}
