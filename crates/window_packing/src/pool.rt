//! The pools: one for each aperture.
ghost use Rattle.std.specs.Prelude.{◌≡◌, List};
ghost use Rattle.model_registers.specs.Declarations.{Bridge};
ghost use Rattle.model_set_up.specs.Pools.{unit_of, pool_of, pool_for_prefetchable, can_reach_pref_aperture};
ghost use Rattle.bars.specs.Kinds.{kind_of};
ghost use Rattle.window_packing.specs.{Plans.named_pool, Packs.IsOver};

use crate::upstream_windows::UpstreamSupport;
use bars::Kind;
use headers::{Aperture, Apertures};

/// The aperture in which a region or window is placed.
#[derive(Clone, Copy, Debug, PartialEq, Eq, PartialOrd, Ord)]
pub enum Pool {
    Io,
    Mem,
    Pref,
}

impl Pool {
    /// Returns the window granularity of the pool, in bytes.
    pub(crate) fn unit(self) -> u64
        ensures { result ≡ unit_of (named_pool self) }
    {
        match self {
            Pool::Io => 1 << 12,
            Pool::Mem | Pool::Pref => 1 << 20,
        }
    }
}

/// Returns whether the bridges above a prefetchable region can forward addresses of the
/// prefetchable aperture. An aperture that ends below 4 GB needs prefetchable windows. Any other
/// aperture needs 64-bit prefetchable windows and a 64-bit region.
fn can_reach_pref_aperture(aperture: &Aperture, above: &UpstreamSupport, wide: bool) -> bool
    ensures { (ds : List Bridge) → IsOver ds above.now →
        result ≡ can_reach_pref_aperture aperture.now ds wide }
{
    if aperture.last < 1 << 32 {
        above.pref
    } else {
        wide && above.pref64
    }
}

/// Returns the pool of a prefetchable memory region: the prefetchable pool, or the memory pool if
/// the region can't use the prefetchable aperture.
fn pool_for_prefetchable(apertures: &Apertures, above: &UpstreamSupport, wide: bool) -> Pool
    ensures { (ds : List Bridge) → IsOver ds above.now →
        named_pool result ≡ pool_for_prefetchable apertures.now.pref ds wide }
{
    match apertures.pref() {
        Some(aperture) if can_reach_pref_aperture(&aperture, above, wide) => Pool::Pref,
        _ => Pool::Mem,
    }
}

/// Returns the pool of a region of this kind behind these bridges.
pub(crate) fn pool_of(apertures: &Apertures, above: &UpstreamSupport, kind: Kind) -> Pool
    ensures { (ds : List Bridge) → IsOver ds above.now →
        named_pool result ≡ pool_of apertures.now ds (kind_of kind) }
{
    match kind {
        Kind::Io => Pool::Io,
        Kind::Mem32 { pref: true } => pool_for_prefetchable(apertures, above, false),
        Kind::Mem64 { pref: true } => pool_for_prefetchable(apertures, above, true),
        Kind::Mem32 { pref: false } | Kind::Mem64 { pref: false } => Pool::Mem,
    }
}
