//! Programs a plan into the registers of a board, by configuration cycles only.
ghost use Rattle.std.specs.Prelude.{◌≡◌, ◌/◌, ◌%◌, ◌^◌, ◌<◌};
ghost use Rattle.model_set_up.specs.{SetUp.set_up_state, Scanning.IsNumbered, SetUpWrites.planned, UniqueClaimant.CanBePlaced};
ghost use Rattle.model_board.specs.AtReset.{board_at};
ghost use Rattle.bars.specs.Slots.{placed, bases_from};
ghost use Rattle.paths.specs.BusAddresses.{bus_address_of};
ghost use Rattle.window_packing.specs.WordWrites.{word, after_word, after_words, base_words, endpoint_words, bridge_words, memory_base_and_limit, io_base_and_limit, io_base_and_limit_upper, words_of, host_after};

use crate::board_plan::Plan;
use crate::function_program::{FunctionProgram, RegisterValues, WindowSetting};
use bars::BarWithBase;
use host_bridge::{Bdf, Host};

/// The offset of Command. All offsets here are those of words (PCI Local Bus 3.0, section 6.1;
/// PCI-to-PCI Bridge Architecture 1.2, section 3.2).
const COMMAND: u8 = 0x04;

const BASE_ADDRESS: u8 = 0x10;

const IO_BASE: u8 = 0x1c;

const MEMORY_BASE: u8 = 0x20;

const PREF_BASE: u8 = 0x24;

const PREF_BASE_UPPER: u8 = 0x28;

const PREF_LIMIT_UPPER: u8 = 0x2c;

const IO_UPPER: u8 = 0x30;

/// The byte enables for a whole word. Words with Status or Secondary Status in their upper half are
/// written with `LOW_HALF` instead, because writing a one there clears a status bit.
const WORD: u8 = 0b1111;

const LOW_HALF: u8 = 0b0011;

/// Writes a plan into the host that was scanned for it. In path order, writes the BARs of each
/// endpoint and then its Command register, or the windows of each bridge and then its Command
/// register. Leaves all other registers as the scan left them.
pub fn program(host: &mut Host, plan: &Plan)
    requires registers { IsNumbered host.old.state }
    requires placeable { CanBePlaced (board_at host.old.state.functions) host.old.apertures }
    requires planned { plan.now ≡ planned (board_at host.old.state.functions) host.old.apertures }
    ensures { let b = board_at host.old.state.functions in
        host.new ≡ record host.old { state = set_up_state b host.old.apertures } }
{
    for setting in plan.settings() {
        program_function(host, setting);
    }
}

/// Writes the settings of one function.
fn program_function(host: &mut Host, setting: &FunctionProgram)
    ensures { let words = words_of setting.now.writes in
        host.new ≡ host_after
        (after_words setting.now.at words host.old.state.functions) host.old }
{
    let writes = setting.writes;
    match writes {
        RegisterValues::Endpoint { command, bases } => write_bars_and_command(
            host, setting.at, command, &bases,
        ),
        RegisterValues::Bridge { io, mem, pref } => write_windows_and_enable_spaces(
            host, setting.at, io, mem, pref,
        ),
    }
}

/// Writes the base address of each region, and then Command.
fn write_bars_and_command(host: &mut Host, at: Bdf, command: u16, bases: &[Option<BarWithBase>; 6])
    ensures { let words = endpoint_words command (bases_from 0 bases.now) in
        host.new ≡ host_after
        (after_words (bus_address_of at) words host.old.state.functions) host.old }
{
    for index in 0..6u8 {
        if let Some(region) = bases[usize::from(index)] {
            write_bar(host, at, index, region);
        }
    }
    write_config_word(host, at, COMMAND, LOW_HALF, u32::from(command));
}

/// Writes the base address of a region to the BAR register at an index. For a 64-bit BAR, also
/// writes the upper half to the next register.
fn write_bar(host: &mut Host, at: Bdf, index: u8, region: BarWithBase)
    requires { index < 6 }
    ensures { let words = base_words (placed index region) in
        host.new ≡ host_after
        (after_words (bus_address_of at) words host.old.state.functions) host.old }
{
    let register = BASE_ADDRESS + 4 * index;
    let lower = (region.base & 0xffff_ffff) as u32;
    write_config_word(host, at, register, WORD, lower);
    if region.decl.kind().uses_two_registers() {
        let upper = (region.base >> 32) as u32;
        write_config_word(host, at, register + 4, WORD, upper);
    }
}

/// Writes the windows, and then Command. The words are the same for every bridge: a bridge ignores
/// writes to window registers that it doesn't implement, and its decode type bits are read-only.
fn write_windows_and_enable_spaces(
    host: &mut Host,
    at: Bdf,
    io: WindowSetting,
    mem: WindowSetting,
    pref: WindowSetting,
)
    ensures { let words = bridge_words (record { io = io; mem = mem; pref = pref }) in
        host.new ≡ host_after
        (after_words (bus_address_of at) words host.old.state.functions) host.old }
{
    write_config_word(host, at, IO_BASE, LOW_HALF, io_base_and_limit(io));
    write_config_word(host, at, MEMORY_BASE, WORD, memory_base_and_limit(mem));
    write_config_word(host, at, PREF_BASE, WORD, memory_base_and_limit(pref));
    write_config_word(host, at, PREF_BASE_UPPER, WORD, upper_half(pref.first));
    write_config_word(host, at, PREF_LIMIT_UPPER, WORD, upper_half(pref.last));
    write_config_word(host, at, IO_UPPER, WORD, io_base_and_limit_upper(io));
    // Enables forwarding of I/O and memory accesses.
    let command = headers::Command::both_space_enables().0;
    write_config_word(host, at, COMMAND, LOW_HALF, u32::from(command));
}

/// Writes the enabled bytes of the configuration word at `off`.
fn write_config_word(host: &mut Host, at: Bdf, off: u8, enables: u8, value: u32)
    requires { off % 4 ≡ 0 }
    ensures { let write = word off enables value in
        host.new ≡ host_after
        (after_word (bus_address_of at) write host.old.state.functions) host.old }
{
    host.config_write(at, off, enables, value);
}

/// Returns the word with a memory window's base in its lower half and its limit in its upper half.
/// Bits 15 to 4 of each contain bits 31 to 20 of the address.
fn memory_base_and_limit(span: WindowSetting) -> u32
    ensures { result ≡ memory_base_and_limit span }
{
    let base = (span.first >> 20 & 0xfff) as u32 * 16;
    let limit = (span.last >> 20 & 0xfff) as u32 * 16;
    base + limit * 0x1_0000
}

/// Returns the two bytes with an I/O window's base and limit. Bits 7 to 4 of each contain bits 15
/// to 12 of the address.
fn io_base_and_limit(span: WindowSetting) -> u32
    ensures { result ≡ io_base_and_limit span }
{
    let base = (span.first >> 12 & 0xf) as u32 * 16;
    let limit = (span.last >> 12 & 0xf) as u32 * 16;
    base + limit * 0x100
}

/// Returns the word with I/O Base Upper 16 Bits in its lower half and I/O Limit Upper 16 Bits in
/// its upper half.
fn io_base_and_limit_upper(span: WindowSetting) -> u32
    ensures { result ≡ io_base_and_limit_upper span }
{
    let base = (span.first >> 16 & 0xffff) as u32;
    let limit = (span.last >> 16 & 0xffff) as u32;
    base + limit * 0x1_0000
}

/// Returns bits 63 to 32 of an address.
fn upper_half(address: u64) -> u32
    ensures { result ≡ address / 2 ^ 32 }
{
    (address >> 32) as u32
}
