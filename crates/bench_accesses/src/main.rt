//! Layer: tests. Below: monitor, board_file.
//!
//! Measures the cost of one access to a board and of one access of a guest. `bench_accesses BOARD`
//! prints a row of numbers, in nanoseconds and each with a checksum. Without an argument it prints
//! nothing.
#![tactic(auto)]

ghost use Rattle.std.specs.Prelude.{◌≡◌, length, IfSome};
ghost use Rattle.model_guests.specs.World.{HasLawfulGuests};
ghost use Rattle.monitor.specs.Beginnings.{world_of};

mod events;
mod row;
mod target;

use crate::events::measure_guest_accesses;
use crate::row::measure_accesses;
use crate::target::last_memory_target;
use board_file::read_board;
use claim_table::Table;
use monitor::{GuestDecl, Monitor};
use std::alloc::Global;
use std::io::Read;
use std::process::ExitCode;
use std::rt::{Clock, Env, Files};
use std::{env, fs};
use window_packing::{Ready, set_up};

/// Reads the file at a path.
fn read_file(rt: &impl Files, alloc: Global, path: &str) -> Option<Vec<u8>> {
    let mut file = fs::open(rt, path).ok()?;
    let mut bytes = Vec::new(alloc);
    file.read_to_end(&mut bytes).ok()?;
    Some(bytes)
}

/// Measures a board after set-up. Returns None if the board has no memory region.
fn measure_board(rt: &(impl Clock + Print), alloc: Global, ready: Ready) -> Option<()> {
    let target = last_memory_target(&ready)?;
    let Ok(table) = Table::build(alloc, &ready) else {
        return None;
    };
    let (mut host, _functions, _plan) = ready.into_parts();
    measure_accesses(rt, &mut host, &table, target).ok()
}

/// Returns a board after set-up, and its guests. Returns None if the file or its board is refused.
fn read_and_set_up(alloc: Global, board: &[u8]) -> Option<(Ready, Vec<GuestDecl>)>
    ensures { IfSome result (λ r. HasLawfulGuests (world_of r.0 r.1.items)) }
{
    let Ok((host, guests)) = read_board(alloc, board) else {
        return None;
    };
    let Ok(ready) = set_up(alloc, host) else {
        return None;
    };
    Some((ready, guests))
}

/// Returns the number of guests of a monitor.
fn guest_count(monitor: &Monitor) -> usize
    ensures { result ≡ length monitor.now.world.guests }
{
    monitor.names().len()
}

/// Measures accesses of the first guest of a board. Returns None if the guest has no function.
fn measure_first_guest(rt: &(impl Clock + Print), alloc: Global, board: &[u8]) -> Option<()> {
    let (ready, guests) = read_and_set_up(alloc, board)?;
    let slots = guests.first()?.slots.len();
    let mut monitor = Monitor::new(alloc, ready, &guests).ok()?;
    if guest_count(&monitor) == 0 || slots == 0 {
        return None;
    }
    measure_guest_accesses(rt, &mut monitor, slots as u8).ok()
}

/// Measures the board file that the argument names. Returns None if its board has no memory region
/// or no guest, or can't be set up.
fn measure_board_file(rt: &(impl AllocGlobal + Clock + Env + Files + Print)) -> Option<()> {
    let alloc = rt.alloc();
    let words: Vec<String> = env::args(rt).ok()?.collect(alloc).ok()?;
    if words.len() < 2 {
        return Some(());
    }
    let board = read_file(rt, alloc, words[1].as_str())?;
    let (ready, _guests) = read_and_set_up(alloc, &board)?;
    measure_board(rt, alloc, ready)?;
    measure_first_guest(rt, alloc, &board)
}

fn main(rt: HostRuntime) -> ExitCode {
    match measure_board_file(&rt) {
        Some(()) => ExitCode::SUCCESS,
        None => ExitCode::FAILURE,
    }
}
