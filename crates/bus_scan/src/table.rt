//! The result of enumeration: a table of functions.
ghost use Rattle.std.specs.Prelude.{◌≡◌};

use bars::BarDecl;
use headers::{IoDecode, PrefDecode};
use host_bridge::{Bdf, Path};
use std::marker::Model;

/// The layout of a function. An endpoint has an interrupt pin (0 for none, 1 to 4 for INTA# to
/// INTD#) and regions, each at the index of its first BAR register. A bridge has a range of bus
/// numbers, both ends inclusive, and the decoding of its windows. Before sizing, there are no
/// regions and no windows.
#[derive(Debug, Drop)]
pub enum Enumerated {
    Endpoint {
        pin: u8,
        bars: [Option<BarDecl>; 6],
    },
    Bridge {
        secondary: u8,
        subordinate: u8,
        io: IoDecode,
        pref: PrefDecode,
    },
}

/// A function: its path, the number of the bus it is on, its Vendor ID and Device ID, and its
/// layout.
#[derive(Debug, Drop)]
pub struct EnumeratedFunction {
    pub path: Path,
    pub bus: u8,
    pub vendor: u16,
    pub device: u16,
    pub found: Enumerated,
}

impl Model for EnumeratedFunction {
    ghost use Rattle.model_set_up.specs.FunctionTable.{TableRow};
    ghost use Rattle.bus_scan.specs.Rows.{decl_of, range_of};

    ghost Value = { TableRow };

    ghost view = { λ r. record {
      path = r.path;
      bus = r.bus;
      behind = range_of r.found;
      decl = decl_of r.vendor r.device r.found;
    } };
}

impl EnumeratedFunction {
    ghost use Rattle.std.specs.Prelude.{Option};
    ghost use Rattle.model_board.specs.Paths.{last_part};
    ghost use Rattle.paths.specs.BusAddresses.{bus_address_of};
    ghost use Rattle.bus_scan.specs.Rows.{ended};

    /// Returns the BDF of the function.
    pub fn address(&self) -> Bdf
        ensures { bus_address_of result
            ≡ record { bus = self.now.bus; part = last_part self.now.path } }
    {
        let part = self.path.last();
        Bdf {
            bus: self.bus,
            device: part.device(),
            function: part.function(),
        }
    }

    /// Sets the last bus number behind a bridge. Does nothing to an endpoint.
    pub(crate) fn set_subordinate_if_bridge(&mut self, last: u8)
        ensures { self.new ≡ record self.old { behind = ended last self.old.behind } }
    {
        if let Enumerated::Bridge { subordinate, .. } = &mut self.found {
            *subordinate = last;
        }
    }
}

/// The functions of a board in path order.
#[derive(Debug, Drop)]
pub struct FunctionTable {
    pub(crate) rows: Vec<EnumeratedFunction>,
}

impl Model for FunctionTable {
    ghost use Rattle.std.specs.Prelude.{List};
    ghost use Rattle.model_set_up.specs.FunctionTable.{TableRow};

    ghost Value = { List TableRow };

    ghost view = { λ t. t.rows.items };
}

impl FunctionTable {
    /// Creates a table from rows in path order.
    pub(crate) fn of(rows: Vec<EnumeratedFunction>) -> FunctionTable
        ensures { result ≡ rows.items }
    {
        FunctionTable { rows }
    }

    /// Returns the functions in path order.
    pub fn rows(&self) -> &[EnumeratedFunction]
        ensures { result.now ≡ self.now }
    {
        &self.rows
    }
}
