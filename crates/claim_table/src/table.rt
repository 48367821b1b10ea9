//! The claim table.
ghost use Rattle.std.specs.Prelude.{◌≡◌, IfOk, map};
ghost use Rattle.model_board.specs.Routing.{RoutingRow as RowValue};

use crate::open_regions::enabled_regions_sorted;
use crate::region_entry::RegionEntry;
use crate::search::{entries_of_space, entry_at};
use bridge_forward::RoutingRow;
use host_bridge::{BarOffset, Claim, Host, Path, Route, Space};
use std::alloc::{AllocError, Global};
use std::marker::Model;
use window_packing::Ready;

/// The enabled regions of a board, sorted by first address in each address space. Each has the
/// index of its function in the board's list of functions. Address lookups use binary search.
#[derive(Drop)]
pub struct Table {
    paths: Vec<Path>,
    ports: Vec<RegionEntry>,
    memory: Vec<RegionEntry>,
}

impl Model for Table {
    ghost use Rattle.std.specs.Prelude.{List};
    ghost use Rattle.claim_table.specs.{Tables.TableEntry, Entries.{table_of, AreEntries}};

    ghost Value = { List TableEntry };

    ghost view = { λ t. table_of t.paths.items t.ports.items t.memory.items };

    ghost invariant = { λ t. AreEntries t.paths.items t.ports.items
        × AreEntries t.paths.items t.memory.items };
}

/// Copies the paths of all rows.
fn copy_paths(alloc: Global, rows: &[RoutingRow]) -> Result<Vec<Path>, AllocError>
    ensures { IfOk result (λ v. v.items ≡ map (λ (r : RowValue). r.path) rows.now) }
{
    rows.iter().map(|row| row.path.copied()).collect(alloc)
}

impl Table {
    ghost use Rattle.model_board.specs.Routing.{routing};
    ghost use Rattle.model_findings.specs.Orderly.{IsOrderly, IsStateOfBoard};
    ghost use Rattle.host_bridge.specs.HostState.{HostState};
    ghost use Rattle.claim_table.specs.Tables.{FitsTable};

    /// Builds the table of a consistently routed board, regardless of who programmed it. The table
    /// fits every host with the same routing registers. Fails only if memory is exhausted.
    pub fn of_enabled_regions(alloc: Global, host: &Host) -> Result<Table, AllocError>
        requires board { IsStateOfBoard host.now.state.functions }
        requires order { IsOrderly (routing host.now.state.functions) }
        ensures { IfOk result (λ t.
            (h : HostState) → routing h.state.functions ≡ routing host.now.state.functions →
            FitsTable t h) }
    {
        let rows = host.routing(alloc)?;
        Ok(Table {
            paths: copy_paths(alloc, &rows)?,
            ports: enabled_regions_sorted(alloc, Space::Io, &rows)?,
            memory: enabled_regions_sorted(alloc, Space::Mem, &rows)?,
        })
    }

    /// Builds the table of a board after set-up, which is consistently routed and has all regions
    /// enabled. The table fits every host with the same routing registers. Fails only if memory is
    /// exhausted.
    #[tactic(auto, using(crate::proofs::Readies::ready_state))]
    pub fn build(alloc: Global, ready: &Ready) -> Result<Table, AllocError>
        ensures { IfOk result (λ t.
            (h : HostState) → routing h.state.functions ≡ routing ready.now.host.state.functions
            → FitsTable t h) }
    {
        Table::of_enabled_regions(alloc, ready.host())
    }
}

impl Route for Table {
    ghost use Rattle.claim_table.specs.{Tables.FitsTable, Fitting.fits_by_routing};

    ghost fits = { FitsTable };

    ghost by_routing = { fits_by_routing };

    fn claimant(&self, _host: &Host, space: Space, addr: u64) -> Option<Claim> {
        let entry = entry_at(entries_of_space(space, &self.ports, &self.memory), addr)?;
        Some(Claim {
            path: self.paths[entry.function].copied(),
            region: entry.region,
            offset: addr - entry.first,
        })
    }

    fn claimed_bar_offset(&self, _host: &Host, space: Space, addr: u64) -> Option<BarOffset> {
        let entry = entry_at(entries_of_space(space, &self.ports, &self.memory), addr)?;
        Some(BarOffset {
            index: entry.function,
            region: entry.region,
            offset: addr - entry.first,
        })
    }
}
