//! Determines why a bridge doesn't forward an address (PCI-to-PCI Bridge Architecture 1.2, section
//! 3.2.5 and chapter 4).
ghost use Rattle.std.specs.{Prelude.{◌≡◌, map, option_map}, Option.option_to_list};
ghost use Rattle.bars.specs.Kinds.{named_space};
ghost use Rattle.model_board.specs.Routing.{row_forwards};
ghost use Rattle.model_lines.specs.Why.{io_windows, pref_windows};
ghost use Rattle.bridge_forward.specs.RoutingRows.{named_ranges, window_of};
ghost use Rattle.findings.specs.{WhyByRows.{row_windows, row_hindrance}, WhyTold.{window_told, windows_told, hindrance_told}};

use crate::causes::{BlockReason, NamedWindow, WindowName};
use crate::row::{enables_space, is_in_window};
use bars::Space;
use bridge_forward::{Ranges, RoutingRow, Window};
use headers::{BridgeDecl, IoDecode, PrefDecode};

/// Returns whether the function is a bridge that forwards the address.
pub(crate) fn forwards(row: &RoutingRow, space: Space, addr: u64) -> bool
    ensures { result ≡ row_forwards (named_space space) addr row.now }
{
    match &row.ranges {
        Ranges::Regions(_) => false,
        Ranges::Windows { io, mem, pref } => {
            enables_space(row.command, space)
                && match space {
                    Space::Io => is_in_window(*io, addr),
                    Space::Mem => is_in_window(*mem, addr) || is_in_window(*pref, addr),
                }
        }
    }
}

/// Returns the I/O window, if the bridge implements one.
fn io_window_if_implemented(decl: &BridgeDecl, window: Option<Window>) -> Option<NamedWindow>
    ensures { map window_told (option_to_list result)
        ≡ io_windows decl.now.io (option_map window_of window) }
{
    match decl.io() {
        IoDecode::Unimplemented => None,
        IoDecode::Bits16 | IoDecode::Bits32 => Some(NamedWindow {
            name: WindowName::Io,
            window,
        }),
    }
}

/// Returns the prefetchable window, if the bridge implements one.
fn pref_window_if_implemented(decl: &BridgeDecl, window: Option<Window>) -> Option<NamedWindow>
    ensures { map window_told (option_to_list result)
        ≡ pref_windows decl.now.pref (option_map window_of window) }
{
    match decl.pref() {
        PrefDecode::Unimplemented => None,
        PrefDecode::Bits32 | PrefDecode::Bits64 => Some(NamedWindow {
            name: WindowName::Prefetchable,
            window,
        }),
    }
}

/// Returns the bridge's windows for a space. Only the memory window is mandatory.
fn named_windows_in_space(
    decl: &BridgeDecl,
    ranges: &Ranges,
    space: Space,
) -> (Option<NamedWindow>, Option<NamedWindow>)
    ensures { windows_told result.0 result.1
        ≡ row_windows (named_space space) decl.now (named_ranges ranges.now) }
{
    match ranges {
        Ranges::Regions(_) => (None, None),
        Ranges::Windows { io, mem, pref } => match space {
            Space::Io => (None, io_window_if_implemented(decl, *io)),
            Space::Mem => {
                let memory = NamedWindow {
                    name: WindowName::Memory,
                    window: *mem,
                };
                (Some(memory), pref_window_if_implemented(decl, *pref))
            }
        },
    }
}

/// Returns the reason why a bridge doesn't forward an address. The caller has checked that it
/// doesn't.
pub(crate) fn block_reason(row: &RoutingRow, decl: Option<BridgeDecl>, space: Space) -> BlockReason
    ensures { hindrance_told result ≡ row_hindrance (named_space space) decl row.now }
{
    let Some(decl) = decl else {
        return BlockReason::Misses {
            one: None,
            other: None,
        };
    };
    if !enables_space(row.command, space) {
        return BlockReason::Closes {
            command: row.command,
        };
    }
    let (one, other) = named_windows_in_space(&decl, &row.ranges, space);
    BlockReason::Misses { one, other }
}
