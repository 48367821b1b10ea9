//! A cache of the bridge that leads to each bus number, filled in by configuration cycles.
ghost use Rattle.std.specs.Prelude.{◌≡◌, ◌≤◌, if◌then◌else◌, IfOk, None, get_or, replicate, slice_set};
ghost use Rattle.bridge_forward.specs.Known.{known_entry};

use std::alloc::{AllocError, Global};
use std::marker::Model;

/// The cache: for each bus number, the index of the bridge that leads to it and the generation in
/// which it was found. An entry is valid only in the current generation. Set-up writes each bridge
/// about thirteen times and invalidates the cache every time, so invalidating only increments the
/// generation instead of clearing 256 entries.
#[derive(Drop)]
pub(crate) struct Routes {
    bridges: Vec<(u64, usize)>,
    time: u64,
}

impl Model for Routes {
    ghost use Rattle.std.specs.Prelude.{List, ℕ, Option};
    ghost use Rattle.bridge_forward.specs.Known.{known_now, AreKept};

    ghost Value = { List (Option ℕ) };

    ghost view = { λ r. known_now r.time r.bridges.items };

    ghost invariant = { λ r. AreKept r.time r.bridges.items };
}

/// Returns the cache entry for a bridge that was found in generation `time`. For `None`, returns an
/// entry that is valid in no generation.
fn cache_entry(time: u64, bridge: Option<usize>) -> (u64, usize)
    requires { 1 ≤ time }
    ensures known { known_entry time result ≡ bridge }
    ensures past { result.0 ≤ time }
{
    match bridge {
        Some(bridge) => (time, bridge),
        None => (0, 0),
    }
}

impl Routes {
    ghost use Rattle.bridge_forward.specs.Leading.{AreUnknown};

    /// Creates an empty cache for the 256 bus numbers.
    pub(crate) fn new_empty(alloc: Global) -> Result<Routes, AllocError>
        ensures { IfOk result AreUnknown }
    {
        let bridges = vec![in alloc; (0, 0); 256]?;
        Ok(Routes { bridges, time: 1 })
    }

    /// Returns the cached bridge for a bus number.
    pub(crate) fn cached_bridge(&self, bus: u8) -> Option<usize>
        ensures { result ≡ get_or self.now bus None }
    {
        let (found, bridge) = self.bridges[usize::from(bus)];
        if found == self.time {
            Some(bridge)
        } else {
            None
        }
    }

    /// Caches the bridge for a bus number. `None` invalidates the entry.
    pub(crate) fn set_cached_bridge(&mut self, bus: u8, bridge: Option<usize>)
        ensures { self.new ≡ slice_set self.old bus bridge }
    {
        self.bridges[usize::from(bus)] = cache_entry(self.time, bridge);
    }

    /// Invalidates all entries.
    fn invalidate_all(&mut self)
        ensures { self.new ≡ replicate 256 None }
    {
        if self.time < u64::MAX {
            self.time += 1;
        } else {
            self.bridges.fill((0, 0));
            self.time = 1;
        }
    }

    /// Invalidates all entries if `changed` is true.
    pub(crate) fn invalidate_all_if(&mut self, changed: bool)
        ensures { self.new ≡ (if changed then replicate 256 None else self.old) }
    {
        if changed {
            self.invalidate_all();
        }
    }
}
