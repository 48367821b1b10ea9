//! Descriptions of the functions of a board that firmware drives, as its registers are now.
ghost use Rattle.std.specs.Prelude.{◌≡◌, length, option_map};
ghost use Rattle.model_registers.specs.Decoding.{opens_space};
ghost use Rattle.model_board.specs.{Cycles.reached, State.BoardFunction};
ghost use Rattle.model_findings.specs.Orderly.{IsStateOfBoard};
ghost use Rattle.model_handoff.specs.{Functions.is_there, DrivenFunctions.driven_function_nth};
ghost use Rattle.paths.specs.BusAddresses.{bus_address_of};
ghost use Rattle.bars.specs.Kinds.{named_space};
ghost use Rattle.session.specs.DrivenFunctions.{driven_function_named};

use crate::board::Board;
use findings::{address_of, identity_nth};
use host_bridge::{Bdf, Host, Path, Space};
use monitor::LiveFunction;

/// A function of a board that firmware drives: its description without an assignment, whether a
/// configuration cycle to its BDF reaches it, and which spaces its Command enables.
#[derive(Debug, Drop)]
pub struct DrivenFunction {
    pub function: LiveFunction,
    pub is_found: bool,
    pub opens_io: bool,
    pub opens_memory: bool,
}

/// Returns whether Command enables decoding in a space.
fn is_space_enabled(command: u32, space: Space) -> bool
    ensures { result ≡ opens_space command (named_space space) }
{
    command & u32::from(space.command_bit()) != 0
}

/// Returns whether a configuration cycle to a BDF reaches the function at a path.
fn bdf_reaches_path(host: &mut Host, at: Bdf, path: &Path) -> bool
    ensures found { let found = reached host.old.state.functions (bus_address_of at) in
        result ≡ is_there path.now (option_map (λ (f : BoardFunction). f.path) found) }
    ensures kept { host.new ≡ host.old }
{
    let Some(index) = host.index_reached_by_bdf(at) else {
        return false;
    };
    match host.path_nth(index) {
        Some(other) => other == *path,
        None => false,
    }
}

/// Returns the description of the function at an index.
fn driven_function_nth(host: &mut Host, index: usize) -> Option<DrivenFunction>
    requires { IsStateOfBoard host.old.state.functions }
    ensures told { option_map driven_function_named result
        ≡ driven_function_nth host.old.state index }
    ensures kept { host.new ≡ host.old }
{
    let path = host.path_nth(index)?;
    let identity = identity_nth(host, index)?;
    let ranges = host.programmed_ranges_nth(index)?;
    let command = host.peek_config_nth(index, 4, 2)?;
    let at = address_of(host, &path);
    let is_found = bdf_reaches_path(host, at, &path);
    Some(DrivenFunction {
        function: LiveFunction {
            path,
            at,
            identity,
            ranges,
            seat: None,
        },
        is_found,
        opens_io: is_space_enabled(command, Space::Io),
        opens_memory: is_space_enabled(command, Space::Mem),
    })
}

impl Board {
    /// Returns the number of functions on the board, including bridges.
    pub fn function_count(&self) -> usize
        ensures { result ≡ length self.now.state.functions }
    {
        self.host.count()
    }

    /// Returns the description of the function at an index in path order, or None past the last
    /// one: its path, its BDF, its identity, its regions or windows as the registers define them,
    /// whether a configuration cycle to its BDF reaches it, and which spaces its Command enables.
    /// Changes nothing, and allocates no memory.
    pub fn function(&mut self, index: usize) -> Option<DrivenFunction>
        ensures told { option_map driven_function_named result
            ≡ driven_function_nth self.old.state index }
        ensures after { self.new ≡ self.old }
    {
        driven_function_nth(&mut self.host, index)
    }
}
