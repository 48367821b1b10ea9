//! How much of its aperture a pool needs.
ghost use Rattle.std.specs.Prelude.{◌≡◌, ◌-◌, [], IfOk, IfSome, nat_le};
ghost use Rattle.model_board.specs.{Board.{Board, IsBoard}, Lawful.HasLawfulDecls};
ghost use Rattle.model_set_up.specs.{FunctionTable.board_in, Placement.{aperture_end_or_zero, fits}};
ghost use Rattle.bus_scan.specs.SizedTables.{IsTableOf};
ghost use Rattle.window_packing.specs.{Buses.AreAbove, Packs.{pack_of, IsBounded}, Plans.named_pool, Uses.{pool_use, told_use}};

use crate::bus_packs::pack_pool;
use crate::pack::PackedBus;
use crate::pool::Pool;
use crate::pool_placement::{aperture_end_or_zero, root_bus_start_or_zero};
use crate::upstream_windows::{UpstreamSupport, all_support};
use bus_scan::{EnumeratedFunction, FunctionTable};
use headers::Apertures;
use std::alloc::{AllocError, Global};

/// How much of its aperture a pool needs, in bytes.
#[derive(Clone, Copy, Debug, PartialEq, Eq)]
pub struct PoolUse {
    /// The address at which the pool begins: the lowest one in the aperture that is a multiple of
    /// the pool's largest alignment.
    pub first: u64,
    /// The distance from `first` to the end of the last region or window.
    pub extent: u64,
    /// The distance from `first` to the end of the aperture.
    pub room: u64,
}

/// Computes the space that a pool needs from its packed bus 0 and the end of its aperture.
fn pool_use_of_root_bus(apertures: &Apertures, pool: Pool, end: u64, root: &PackedBus) -> PoolUse
    requires end { end ≡ aperture_end_or_zero apertures.now (named_pool pool) }
    requires bounded { IsBounded root.now }
    ensures { (b : Board) → root.now ≡ pack_of b apertures.now (named_pool pool) []
        → result ≡ pool_use b apertures.now (named_pool pool) }
{
    let first = root_bus_start_or_zero(apertures, pool, root);
    PoolUse {
        first,
        extent: root.end,
        room: end.saturating_sub(first),
    }
}

/// Computes the space that a pool needs from the rows of a table.
fn pool_use_of_rows(
    alloc: Global,
    pool: Pool,
    rows: &[EnumeratedFunction],
    above: &[UpstreamSupport],
    apertures: &Apertures,
) -> Result<Option<PoolUse>, AllocError>
    requires board { IsBoard (board_in rows.now) }
    requires declarations { HasLawfulDecls (board_in rows.now) }
    requires above { AreAbove (board_in rows.now) above.now }
    ensures { IfOk result (λ u.
        u ≡ told_use (board_in rows.now) apertures.now (named_pool pool)) }
{
    let end = aperture_end_or_zero(apertures, pool);
    match pack_pool(alloc, pool, rows, above, apertures)? {
        Some(packs) => Ok(Some(pool_use_of_root_bus(apertures, pool, end, &packs[0]))),
        None => Ok(None),
    }
}

/// Returns how much of its aperture a pool needs, whether it fits or not. Returns `None` if the
/// pool needs more than 2^63 bytes.
pub fn pool_use(
    alloc: Global,
    pool: Pool,
    table: &FunctionTable,
    apertures: &Apertures,
) -> Result<Option<PoolUse>, AllocError>
    requires { IsTableOf (board_in table.now) table.now }

    // Holds for every board with this table. The pool fits if `extent` is at most `room`.
    ensures value { IfOk result (λ u.
        (b : Board) → IsTableOf b table.now →
        u ≡ told_use b apertures.now (named_pool pool)) }
    ensures fits { IfOk result (λ r. IfSome r (λ u. (b : Board) → IsTableOf b table.now →
        fits b apertures.now (named_pool pool) ≡ nat_le u.extent u.room)) }
{
    let rows = table.rows();
    let above = all_support(alloc, rows)?;
    pool_use_of_rows(alloc, pool, rows, &above, apertures)
}
