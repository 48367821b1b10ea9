//! Packs all buses of a board. A bus can only be packed after the buses behind its bridges.
ghost use Rattle.std.specs.Prelude.{◌≡◌, ◌+◌, ◌<◌, ◌^◌, [], All, IfOk, IfSome, IsNone, IsFalse, MatchOption, length};
ghost use Rattle.model_registers.specs.Apertures.{IsLawfulApertures};
ghost use Rattle.lists.specs.Elements.{Each};
ghost use Rattle.model_board.specs.{Board.IsBoard, Lawful.HasLawfulDecls};
ghost use Rattle.model_set_up.specs.{FunctionTable.board_in, Placement.fits};
ghost use Rattle.window_packing.specs.{Plans.named_pool, Buses.AreAbove, Packs.{pack_of, packs_of, IsBounded}};

use crate::bus_items::push_function_items;
use crate::item::PlacementItem;
use crate::pack::{PackedBus, pack_bus};
use crate::pool::Pool;
use crate::upstream_windows::UpstreamSupport;
use bus_scan::EnumeratedFunction;
use headers::Apertures;
use std::alloc::{AllocError, Global};

/// Creates empty item lists for bus 0 and `count` more buses.
fn empty_lists_per_bus(alloc: Global, count: usize) -> Result<Vec<Vec<PlacementItem>>, AllocError>
    ensures buses { IfOk result (λ v. length v.items ≡ count + 1) }
    ensures none { IfOk result (λ v. All (λ own. own.items ≡ []) v.items) }
{
    let mut items = Vec::new(alloc);
    for _ in 0..count {
        items.push(Vec::new(alloc))?;
    }
    items.push(Vec::new(alloc))?;
    Ok(items)
}

/// Packs the regions and windows of a pool on each bus. The result contains bus 0, and then the bus
/// behind each function in row order; the bus behind an endpoint is empty. Returns `None` if a bus
/// ends above 2^63, because the pool then can't fit in its aperture.
///
/// Each bus is sorted once, so packing takes about as long as sorting all regions and windows.
pub(crate) fn pack_pool(
    alloc: Global,
    pool: Pool,
    rows: &[EnumeratedFunction],
    above: &[UpstreamSupport],
    apertures: &Apertures,
) -> Result<Option<Vec<PackedBus>>, AllocError>
    requires board { IsBoard (board_in rows.now) }
    requires declarations { HasLawfulDecls (board_in rows.now) }
    requires above { AreAbove (board_in rows.now) above.now }
    requires apertures { IsLawfulApertures apertures.now }
    ensures packed { IfOk result (λ r. MatchOption r
        (IsFalse (fits (board_in rows.now) apertures.now (named_pool pool)))
        (λ packs. packs.items ≡ packs_of (board_in rows.now) apertures.now (named_pool pool))) }
    ensures large { IfOk result (λ r.
        IsNone r → 2 ^ 63
        < (pack_of (board_in rows.now) apertures.now (named_pool pool) []).end) }
    ensures bounded { IfOk result (λ r. IfSome r (λ packs. Each IsBounded packs.items)) }
{
    let unit = pool.unit();
    let mut items = empty_lists_per_bus(alloc, rows.len())?;
    let mut packs = Vec::new(alloc);
    'rows: for i in (0..rows.len()).rev() {
        let behind = items.pop().unwrap();
        let Some(pack) = pack_bus(alloc, unit, behind)? else {
            return Ok(None);
        };
        let above = &above[i];
        let own = &mut items[above.bus];
        push_function_items(own, pool, &rows[i], above, apertures, &pack)?;
        packs.push(pack)?;
    }
    let root = items.pop().unwrap();
    let Some(pack) = pack_bus(alloc, unit, root)? else {
        return Ok(None);
    };
    packs.push(pack)?;
    packs.reverse();
    Ok(Some(packs))
}
