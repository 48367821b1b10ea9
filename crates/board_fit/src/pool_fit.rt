//! Computes how well the pools fit their apertures.
ghost use Rattle.std.specs.Prelude.{◌≡◌, IfOk};
ghost use Rattle.model_board.specs.Board.{Board};
ghost use Rattle.model_set_up.specs.FunctionTable.{board_in};
ghost use Rattle.bus_scan.specs.SizedTables.{IsTableOf};
ghost use Rattle.board_fit.specs.PoolFits.{size_of, aperture_size, pool_fit, pools_to_report, reported_pool_fits};

use bus_scan::{Fault, FunctionTable};
use headers::{Aperture, Apertures};
use std::alloc::{AllocError, Global};
use window_packing::{Pool, PoolUse, pool_use};

/// A pool with the size of its aperture and the part of it in use.
#[derive(Clone, Copy, Debug)]
pub struct PoolFit {
    pub pool: Pool,
    /// The size of the aperture in bytes, or `None` if the board has no aperture for the pool.
    pub size: Option<u128>,
    /// The part in use, or `None` if the pool needs more than 2^63 bytes.
    pub used: Option<PoolUse>,
}

/// Returns the size of an aperture in bytes.
fn size_of(aperture: Aperture) -> u128
    ensures { result ≡ size_of aperture }
{
    let end = u128::from(aperture.last) + 1;
    end.saturating_sub(u128::from(aperture.first))
}

/// Returns the size in bytes of the aperture of a pool, if the board has one.
fn aperture_size(apertures: &Apertures, pool: Pool) -> Option<u128>
    ensures { result ≡ aperture_size apertures.now pool }
{
    match pool {
        Pool::Io => Some(size_of(apertures.io())),
        Pool::Mem => Some(size_of(apertures.mem())),
        Pool::Pref => match apertures.pref() {
            Some(aperture) => Some(size_of(aperture)),
            None => None,
        },
    }
}

/// Returns the fit of one pool, for a board with this function table.
fn pool_fit(
    alloc: Global,
    pool: Pool,
    table: &FunctionTable,
    apertures: &Apertures,
) -> Result<PoolFit, AllocError>
    requires { IsTableOf (board_in table.now) table.now }
    ensures { IfOk result (λ x.
        (b : Board) → IsTableOf b table.now → x ≡ pool_fit b apertures.now pool) }
{
    Ok(PoolFit {
        pool,
        size: aperture_size(apertures, pool),
        used: pool_use(alloc, pool, table, apertures)?,
    })
}

/// Returns the pools to report: all pools if there is no fault, only the pool that doesn't fit if
/// that is the fault, and none for any other fault.
fn pools_to_report(fault: Option<Fault>) -> &'static [Pool]
    ensures { result.now ≡ pools_to_report fault }
{
    match fault {
        None => &[Pool::Io, Pool::Mem, Pool::Pref],
        Some(Fault::IoPool) => &[Pool::Io],
        Some(Fault::MemoryPool) => &[Pool::Mem],
        Some(Fault::PrefetchablePool) => &[Pool::Pref],
        Some(_) => &[],
    }
}

/// Returns the fits of the pools to report, for a board with this function table.
pub(crate) fn reported_pool_fits(
    alloc: Global,
    table: &FunctionTable,
    apertures: &Apertures,
    fault: Option<Fault>,
) -> Result<Vec<PoolFit>, AllocError>
    requires { IsTableOf (board_in table.now) table.now }
    ensures { IfOk result (λ v.
        (b : Board) → IsTableOf b table.now
        → v.items ≡ reported_pool_fits b apertures.now fault) }
{
    let mut fits = Vec::new(alloc);
    'pools: for pool in pools_to_report(fault) {
        fits.push(pool_fit(alloc, *pool, table, apertures)?)?;
    }
    Ok(fits)
}
