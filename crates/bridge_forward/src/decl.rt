//! The declarations of the functions of a board.
ghost use Rattle.std.specs.{Prelude.{◌≡◌, ◌↔◌, ◌&&◌, ◌||◌, not, IsTrue}, BTreeSet.contains, Ordering.is_lt};
ghost use Rattle.model_board.specs.{Paths.{path_before, function_zero}, Board.{IsBoard, declares_multifunction}, Places.{board_of, standing}};
ghost use Rattle.paths.specs.PathOrders.{path_cmp};
ghost use Rattle.bridge_forward.specs.Devices.{is_nonzero_function};

use crate::places::{HasPath, are_lawful_places};
use headers::{BridgeDecl, EndpointDecl};
use paths::Path;
use std::cmp::Ordering;
use std::collections::BTreeSet;
use std::marker::Model;

/// The declaration of an endpoint or a bridge.
#[derive(Debug, Drop)]
pub enum Declared {
    Endpoint(EndpointDecl),
    Bridge(BridgeDecl),
}

/// A function of a board: its path and its declaration.
#[derive(Debug, Drop)]
pub struct Decl {
    pub path: Path,
    pub function: Declared,
}

impl Model for Decl {
    ghost use Rattle.model_board.specs.Board.{Row};

    ghost Value = { Row };

    ghost use Rattle.bridge_forward.specs.Decls.{declared};

    ghost view = { λ d. record { path = d.path; decl = declared d.function } };
}

impl Decl {
    /// Compares two functions by path order.
    #[tactic(auto, using(paths::specs::PathLaws::paths_before))]
    pub(crate) fn compare(&self, other: &Decl) -> Ordering
        ensures { is_lt result ≡ path_before self.now.path other.now.path }
    {
        self.path.cmp(&other.path)
    }

    /// Returns whether the function number is 1 to 7.
    pub(crate) fn is_nonzero_function(&self) -> bool
        ensures { result ≡ is_nonzero_function self.now.path }
    {
        self.path.last().function() != 0
    }

    /// Returns whether the function's device is in the set. The set identifies each device by the
    /// path of its function 0.
    fn is_device_in_set(&self, devices: &BTreeSet<Path>) -> bool
        ensures { result ≡ contains path_cmp devices.now (function_zero self.now.path) }
    {
        devices.contains(&self.path.function_zero())
    }

    /// Returns whether the declaration sets bit 7 of the header type in functions 1 to 7.
    fn declares_multifunction(&self) -> bool
        ensures { result ≡ declares_multifunction self.now.decl }
    {
        match &self.function {
            Declared::Endpoint(endpoint) => endpoint.values().multifunction,
            Declared::Bridge(bridge) => bridge.multifunction(),
        }
    }

    /// Returns bit 7 of the header type of the function. `devices` contains the function 0 of each
    /// device with several functions.
    pub(crate) fn has_multifunction_bit(&self, devices: &BTreeSet<Path>) -> bool
        ensures { result
            ≡ (contains path_cmp devices.now (function_zero self.now.path)
            && (not (is_nonzero_function self.now.path)
            || declares_multifunction self.now.decl)) }
    {
        self.is_device_in_set(devices)
            && (!self.is_nonzero_function() || self.declares_multifunction())
    }
}

impl HasPath for Decl {
    ghost standing = { standing };

    fn path(&self) -> &Path {
        &self.path
    }

    fn is_bridge(&self) -> bool {
        match &self.function {
            Declared::Endpoint(_) => false,
            Declared::Bridge(_) => true,
        }
    }
}

/// Returns whether the functions, in any order, form a valid board: their paths are unique, every
/// path is on bus 0 or behind one of the bridges, and every device has a function 0. Doesn't
/// allocate.
pub fn is_lawful_board(decls: &[Decl]) -> bool
    ensures { IsTrue result ↔ IsBoard (board_of decls.now) }
{
    are_lawful_places(decls)
}
