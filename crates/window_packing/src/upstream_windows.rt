//! The bridges above each function.
ghost use Rattle.std.specs.Prelude.{◌≡◌, ℕ, suc, ◌≤◌, length, slice_get, IfOk};
ghost use Rattle.model_board.specs.Board.{IsBoard};
ghost use Rattle.model_set_up.specs.FunctionTable.{TableRow, board_in};
ghost use Rattle.window_packing.specs.{Buses.{behind, nothing_above, AreAbove}, declared.upstream_windows.UpstreamSupport.UpstreamSupport as AboveValue};

use bus_scan::{Enumerated, EnumeratedFunction};
use headers::{IoDecode, PrefDecode};
use std::alloc::{AllocError, Global};

/// The bus of a function and the properties of the bridges above it. Bus index 0 is bus 0, and
/// index 1 + n is the bus behind the function of row n. The flags say whether all bridges above
/// have an I/O window, a prefetchable window, and a 64-bit prefetchable window.
#[derive(Clone, Copy)]
pub(crate) struct UpstreamSupport {
    pub(crate) bus: usize,
    pub(crate) io: bool,
    pub(crate) pref: bool,
    pub(crate) pref64: bool,
}

/// Returns the properties for functions on the bus behind the function of a row, given the
/// properties `up` of that function.
fn support_behind(bus: usize, row: &EnumeratedFunction, up: UpstreamSupport) -> UpstreamSupport
    ensures { result ≡ behind bus row.now.decl up }
{
    match row.found {
        Enumerated::Endpoint { pin: _, bars: _ } => UpstreamSupport { bus, ..up },
        Enumerated::Bridge {
            secondary: _,
            subordinate: _,
            io,
            pref,
        } => UpstreamSupport {
            bus,
            io: up.io && io != IoDecode::Unimplemented,
            pref: up.pref && pref != PrefDecode::Unimplemented,
            pref64: up.pref64 && pref == PrefDecode::Bits64,
        },
    }
}

/// Returns the properties of the bridges above a bus, given the properties for the functions in the
/// first rows.
fn support_of_bus(
    rows: &[EnumeratedFunction],
    above: &[UpstreamSupport],
    bus: usize,
) -> UpstreamSupport
    requires known { bus ≤ length above.now }
    requires there { length above.now ≤ length rows.now }
    ensures root { bus ≡ 0 → result ≡ nothing_above }
    ensures others { (n : ℕ) (r : TableRow) (up : AboveValue) → bus ≡ suc n →
        slice_get rows.now n ≡ Some r
        → slice_get above.now n ≡ Some up → result ≡ behind bus r.decl up }
{
    if bus == 0 {
        return UpstreamSupport {
            bus,
            io: true,
            pref: true,
            pref64: true,
        };
    }
    support_behind(bus, &rows[bus - 1], above[bus - 1])
}

/// Returns the properties for each function. In path order, the bridge above a function is the last
/// one before it whose path is one part shorter.
pub(crate) fn all_support(
    alloc: Global,
    rows: &[EnumeratedFunction],
) -> Result<Vec<UpstreamSupport>, AllocError>
    requires { IsBoard (board_in rows.now) }
    ensures { IfOk result (λ v. AreAbove (board_in rows.now) v.items) }
{
    let mut list = Vec::with_capacity(alloc, rows.len())?;
    let mut buses = [0; 17];
    for i in 0..rows.len() {
        let row = &rows[i];
        let depth = row.path.parts().len();
        list.push(support_of_bus(rows, &list, buses[depth - 1]))?;
        buses[depth] = i + 1;
    }
    Ok(list)
}
