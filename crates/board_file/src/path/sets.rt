//! Sets of function paths. A lookup in a set takes logarithmic time.
ghost use Rattle.std.specs.{Prelude.{◌≡◌, ◌<◌, IfOk, length, map, filter}, BTreeSet.IsFromIterResult};
ghost use Rattle.model_board.specs.Places.{has_path, has_bridge};
ghost use Rattle.paths.specs.PathOrders.{path_cmp};
ghost use Rattle.board_file.specs.{EntryRules.is_existing_bus, Rules.names_endpoint};

use crate::path::places::{FunctionPath, path_unless_empty};
use crate::path::text::PathText;
use paths::{Part, Path};
use std::alloc::{AllocError, Global};
use std::collections::BTreeSet;
use std::marker::Model;

/// The paths of all functions, and a separate set with the paths of bridges.
#[derive(Drop)]
pub(crate) struct PathSets<'a> {
    functions: &'a [FunctionPath],
    all: BTreeSet<Path>,
    bridges: BTreeSet<Path>,
}

impl<'a> Model for PathSets<'a> {
    ghost use Rattle.std.specs.Prelude.{List};
    ghost use Rattle.model_board.specs.Places.{Standing};
    ghost use Rattle.board_file.specs.PathSets.{AreSetsOf};

    ghost Value = { List Standing };

    ghost view = { λ s. s.functions.now };

    ghost invariant = { λ s. AreSetsOf s.functions.now s.all s.bridges };
}

/// Returns the paths of all functions.
fn all_paths(alloc: Global, functions: &[FunctionPath]) -> Result<BTreeSet<Path>, AllocError>
    ensures { IfOk result (IsFromIterResult path_cmp (map (λ s. s.path) functions.now)) }
{
    functions
        .iter()
        .map(|function| function.path.copied())
        .collect(alloc)
}

/// Returns the paths of all bridges.
fn bridge_paths(alloc: Global, functions: &[FunctionPath]) -> Result<BTreeSet<Path>, AllocError>
    ensures { IfOk result (IsFromIterResult path_cmp
        (map (λ s. s.path) (filter (λ s. s.is_bridge) functions.now))) }
{
    functions
        .iter()
        .filter(|function| function.is_bridge)
        .map(|function| function.path.copied())
        .collect(alloc)
}

impl<'a> PathSets<'a> {
    /// Builds the sets for these functions.
    pub(crate) fn new(
        alloc: Global,
        functions: &'a [FunctionPath],
    ) -> Result<PathSets<'a>, AllocError>
        ensures { IfOk result (λ s. s ≡ functions.now) }
    {
        let all = all_paths(alloc, functions)?;
        let bridges = bridge_paths(alloc, functions)?;
        Ok(PathSets {
            functions,
            all,
            bridges,
        })
    }

    pub(crate) fn has_path(&self, path: &Path) -> bool
        ensures { result ≡ has_path self.now path.now }
    {
        self.all.contains(path)
    }

    fn has_bridge(&self, path: &Path) -> bool
        ensures { result ≡ has_bridge self.now path.now }
    {
        self.bridges.contains(path)
    }

    /// Returns whether the parts lead to an existing bus: bus 0, or a bus behind a bridge.
    pub(crate) fn is_existing_bus(&self, bus: &[Part]) -> bool
        requires { length bus.now < 16 }
        ensures { result ≡ is_existing_bus self.now bus.now }
    {
        match path_unless_empty(bus) {
            Some(bridge) => self.has_bridge(&bridge),
            None => true,
        }
    }

    /// Returns whether the text is the path of an endpoint.
    pub(crate) fn names_endpoint(&self, text: &PathText<'_>) -> bool
        ensures { result ≡ names_endpoint self.now text.now }
    {
        let path = text.path_or_zero();
        text.is_path() && self.has_path(&path) && !self.has_bridge(&path)
    }
}
