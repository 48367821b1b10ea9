//! Finds the lowest address of a BAR that is outside the given windows.
ghost use Rattle.std.specs.{Prelude.{◌≡◌, ◌&&◌, not, map, filter}, Option.{option_map, option_to_list}, List.list_any};
ghost use Rattle.model_set_up.specs.PlacedRegions.{holds};
ghost use Rattle.model_findings.specs.Agents.{extent_holds};
ghost use Rattle.findings.specs.Extents.{extent_of, extents_of, least_of, first_missed_address};

use crate::region::LiveBar;
use crate::row::either_holds;
use bridge_forward::Window;

/// Returns the smaller of two addresses, or the only one that is given.
pub(crate) fn min_of_present(one: Option<u64>, other: Option<u64>) -> Option<u64>
    ensures { result ≡ least_of one other }
{
    match (one, other) {
        (None, y) => y,
        (x, None) => x,
        (Some(x), Some(y)) => Some(x.min(y)),
    }
}

/// Returns the address if it is in the BAR and in neither window.
fn address_if_missed(
    region: &LiveBar,
    one: Option<Window>,
    other: Option<Window>,
    addr: Option<u64>,
) -> Option<u64>
    ensures { let q = region.now in option_to_list result
        ≡ filter (λ n.
        holds q.space n q && not (list_any (extent_holds n) (extents_of one other))) (option_to_list addr) }
{
    let addr = addr?;
    if region.holds(addr) && !either_holds(one, other, addr) {
        Some(addr)
    } else {
        None
    }
}

/// Returns the address after a window if it is in the BAR and in neither of the two windows.
fn address_after_if_missed(
    region: &LiveBar,
    one: Option<Window>,
    other: Option<Window>,
    window: Option<Window>,
) -> Option<u64>
    ensures { let q = region.now in option_to_list result
        ≡ filter (λ n.
        holds q.space n q && not (list_any (extent_holds n) (extents_of one other)))
        (map (λ e. e.end) (option_to_list (option_map extent_of window))) }
{
    let end = region.address_after_if_held(window?)?;
    if either_holds(one, other, end) {
        None
    } else {
        Some(end)
    }
}

/// Returns the lowest address of a BAR that is in neither window, if there is one.
pub(crate) fn first_missed_address(
    region: &LiveBar,
    one: Option<Window>,
    other: Option<Window>,
) -> Option<u64>
    ensures { result ≡ first_missed_address (extents_of one other) region.now }
{
    let first = address_if_missed(region, one, other, Some(region.region.base));
    let after_one = address_after_if_missed(region, one, other, one);
    let after_other = address_after_if_missed(region, one, other, other);
    min_of_present(first, min_of_present(after_one, after_other))
}
