//! A row of a layout: a placed region or window.
use crate::pool::Pool;
use host_bridge::Path;
use std::marker::Model;

/// What a row describes: the region whose first BAR register has this index (0 to 5), or a bridge
/// window.
#[derive(Clone, Copy, Debug, PartialEq, Eq)]
pub enum Placed {
    Region(u8),
    Window,
}

/// A placed region or window: the path of its function, its pool, its first address, and its size
/// in bytes.
#[derive(Debug, Drop)]
pub struct PlanRow {
    pub path: Path,
    pub what: Placed,
    pub pool: Pool,
    pub first: u64,
    pub size: u64,
}

impl Model for PlanRow {
    ghost use Rattle.model_set_up.specs.Layout.{LayoutRow};
    ghost use Rattle.window_packing.specs.Plans.{named_pool, named_placed};

    ghost Value = { LayoutRow };

    ghost view = { λ r. record {
      path = r.path;
      what = named_placed r.what;
      pool = named_pool r.pool;
      first = r.first;
      size = r.size;
    } };
}
