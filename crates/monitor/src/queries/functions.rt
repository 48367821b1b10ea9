//! Descriptions of the board's functions as they are now.
ghost use Rattle.std.specs.{Prelude.{◌≡◌, ◌<◌, ◌^◌, Some, length, option_map, slice_get}, Result.result_map_both};
ghost use Rattle.model_board.specs.State.{BoardFunction};
ghost use Rattle.model_findings.specs.Orderly.{IsStateOfBoard};
ghost use Rattle.model_guests.specs.{Guests.GuestsNow, WorldNow.board_state};
ghost use Rattle.model_handoff.specs.Functions.{seat_of, function_nth, slot_answer};
ghost use Rattle.monitor.specs.{ByIndex.name_nth, FunctionsTold.{function_named, seat_kept}};
ghost use Rattle.model_board.specs.Paths as board;

use crate::access::config::function_or_refusal;
use crate::engine::Engine;
use crate::guest::Guest;
use crate::slots::assignment::{Assignment, find_assignment};
use findings::{Identity, address_of, identity_nth};
use host_bridge::{Bdf, Host, ProgrammedRanges, Route};
use paths::Path;

/// A function of the board: its path, its BDF, its identity, its regions or windows as the board's
/// registers define them, and the slot that it is assigned to, if any.
#[derive(Debug, Drop)]
pub struct LiveFunction {
    pub path: Path,
    pub at: Bdf,
    pub identity: Identity,
    pub ranges: ProgrammedRanges,
    pub seat: Option<Assignment>,
}

/// Returns the description of the function at an index.
fn describe_function_nth(host: &Host, guests: &[Guest], index: usize) -> Option<LiveFunction>
    requires board { IsStateOfBoard host.now.state.functions }
    requires few { length guests.now < 2 ^ 63 }
    ensures { (gs : GuestsNow)
        → ((p : board.Path) →
        option_map (λ (f : BoardFunction). f.path) (slice_get host.now.state.functions index)
        ≡ Some p
        → seat_kept index 0 guests.now ≡ seat_of gs p)
        → option_map function_named result ≡ function_nth host.now.state gs index }
{
    let path = host.path_nth(index)?;
    let identity = identity_nth(host, index)?;
    let ranges = host.programmed_ranges_nth(index)?;
    Some(LiveFunction {
        at: address_of(host, &path),
        identity,
        ranges,
        seat: find_assignment(guests, index, 0),
        path,
    })
}

impl<R: Route> Engine<R> {
    /// Returns the number of functions on the board, including bridges.
    pub fn count(&self) -> usize
        ensures { result ≡ length (board_state self.now.world).functions }
    {
        let _ = &self.names;
        self.host.count()
    }

    /// Returns the description of the function at an index in path order, or None past the last
    /// one. Allocates no memory.
    pub fn function(&self, index: usize) -> Option<LiveFunction>
        ensures { option_map function_named result
            ≡ function_nth (board_state self.now.world) self.now.world.guests index }
    {
        let _ = &self.names;
        describe_function_nth(&self.host, &self.guests, index)
    }

    /// Returns the description of the function in a slot of a guest. Fails with 303 if the slot is
    /// above 31, else with 601 if it is empty. Allocates no memory.
    pub fn slot_function(&self, guest: usize, slot: u64) -> Result<LiveFunction, u16>
        requires { guest < length self.now.world.guests }
        ensures { result_map_both function_named (λ n. n) result
            ≡ slot_answer (board_state self.now.world) self.now.world.guests
            (name_nth self.now.world guest) slot }
    {
        let _ = &self.names;
        let held = match function_or_refusal(&self.guests[guest].slots, slot) {
            Ok(held) => held,
            Err(why) => return Err(why.number()),
        };
        match describe_function_nth(&self.host, &self.guests, held.index) {
            Some(function) => Ok(function),
            None => Err(601),
        }
    }
}
