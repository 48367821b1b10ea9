//! The plan of a board: the addresses of its regions and windows, and the register values to write.
ghost use Rattle.std.specs.Prelude.{◌≡◌, IfOk};

use crate::function_program::FunctionProgram;
use crate::layout_row::PlanRow;
use crate::pool::Pool;
use crate::pool_placement::Placement;
use crate::rows::push_pool_rows;
use host_bridge::Path;
use std::alloc::{AllocError, Global};
use std::marker::Model;

/// The addresses of all regions and windows of a board, and the register values to write into its
/// functions, in path order. `rows` computes the list of addresses on demand.
#[derive(Debug, Drop)]
pub struct Plan {
    paths: Vec<Path>,
    placement: Placement,
    settings: Vec<FunctionProgram>,
}

impl Model for Plan {
    ghost use Rattle.model_set_up.specs.SetUpWrites.{Plan};
    ghost use Rattle.window_packing.specs.LayoutRows.{rows_of, AreListable};

    ghost Value = { Plan };

    ghost view = { λ p.
        record { rows = rows_of p.paths.items p.placement; settings = p.settings.items } };

    ghost invariant = { λ p. AreListable p.paths.items p.placement };
}

impl Plan {
    ghost use Rattle.window_packing.specs.LayoutRows.{rows_of, AreListable};

    /// Creates the plan for functions with these paths, from their placement and settings.
    pub(crate) fn new(
        paths: Vec<Path>,
        placement: Placement,
        settings: Vec<FunctionProgram>,
    ) -> Plan
        requires { AreListable paths.items placement }
        ensures { result
            ≡ record { rows = rows_of paths.items placement; settings = settings.items } }
    {
        Plan {
            paths,
            placement,
            settings,
        }
    }

    /// Returns all regions and windows: first the I/O pool, then memory, then prefetchable memory.
    /// Within a pool, buses are in path order, and the rows of a bus are sorted by address.
    pub fn rows(&self, alloc: Global) -> Result<Vec<PlanRow>, AllocError>
        ensures { IfOk result (λ v. v.items ≡ self.now.rows) }
    {
        let mut list = Vec::new(alloc);
        push_pool_rows(&mut list, &self.paths, Pool::Io, &self.placement.io)?;
        push_pool_rows(&mut list, &self.paths, Pool::Mem, &self.placement.mem)?;
        push_pool_rows(&mut list, &self.paths, Pool::Pref, &self.placement.pref)?;
        Ok(list)
    }

    /// Returns the register values to write into each function, in path order.
    pub fn settings(&self) -> &[FunctionProgram]
        ensures { result.now ≡ self.now.settings }
    {
        &self.settings
    }
}
