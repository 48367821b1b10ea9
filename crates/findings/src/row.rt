//! Interprets the routing registers of a function.
ghost use Rattle.std.specs.{Prelude.{◌≡◌, option_map}, List.list_any};
ghost use Rattle.bars.specs.Kinds.{named_space};
ghost use Rattle.model_registers.specs.Decoding.{opens_space, same_space};
ghost use Rattle.model_board.specs.Windows.{is_in};
ghost use Rattle.model_findings.specs.Agents.{extent_holds, forwarded_extents};
ghost use Rattle.bridge_forward.specs.RoutingRows.{window_of};
ghost use Rattle.findings.specs.Extents.{extent_of, extents_of};

use bars::Space;
use bridge_forward::{Ranges, RoutingRow, Window};

/// Returns whether a Command value enables the space.
pub fn enables_space(command: u16, space: Space) -> bool
    ensures { result ≡ opens_space command (named_space space) }
{
    command & space.command_bit() != 0
}

/// Returns whether two spaces are equal.
pub(crate) fn is_same_space(x: Space, y: Space) -> bool
    ensures { result ≡ same_space (named_space x) (named_space y) }
{
    matches!((x, y), (Space::Io, Space::Io) | (Space::Mem, Space::Mem))
}

/// Returns whether a window contains an address.
pub(crate) fn holds(window: Window, addr: u64) -> bool
    ensures { result ≡ extent_holds addr (extent_of window) }
{
    window.first <= addr && addr <= window.last
}

/// Returns whether there is a window and it contains the address.
pub fn is_in_window(window: Option<Window>, addr: u64) -> bool
    ensures { result ≡ is_in addr (option_map window_of window) }
{
    match window {
        Some(held) => held.first <= addr && addr <= held.last,
        None => false,
    }
}

/// Returns whether either of two windows contains an address.
pub(crate) fn either_holds(one: Option<Window>, other: Option<Window>, addr: u64) -> bool
    ensures { result ≡ list_any (extent_holds addr) (extents_of one other) }
{
    one.is_some_and(|w| holds(w, addr)) || other.is_some_and(|w| holds(w, addr))
}

/// Returns the windows through which a bridge forwards accesses in a space: at most one for I/O,
/// and at most two for memory.
pub(crate) fn forwarding_windows(row: &RoutingRow, space: Space) -> (Option<Window>, Option<Window>)
    ensures { extents_of result.0 result.1 ≡ forwarded_extents (named_space space) row.now }
{
    match &row.ranges {
        Ranges::Regions(_) => (None, None),
        Ranges::Windows { io, mem, pref } => {
            if !enables_space(row.command, space) {
                return (None, None);
            }
            match space {
                Space::Io => (*io, None),
                Space::Mem => (*mem, *pref),
            }
        }
    }
}
