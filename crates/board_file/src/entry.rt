//! References to the entries of a board file.
ghost use Rattle.std.specs.Prelude.{◌≡◌};
ghost use Rattle.board_file.specs.Schema.{parts, part_key};

/// A kind of table inside an `endpoint` table.
#[derive(Clone, Copy, Debug, PartialEq, Eq)]
pub enum EndpointPart {
    /// A `bar` table: a BAR.
    Bar,
    /// A `config` table: a block of device-specific configuration registers.
    Config,
    /// A `capability` table: a structure of the capability list.
    Capability,
}

impl EndpointPart {
    /// Returns all kinds, in the order in which the tables of an endpoint are checked.
    pub fn all() -> &'static [EndpointPart]
        ensures { result.now ≡ parts }
    {
        &[
            EndpointPart::Bar,
            EndpointPart::Config,
            EndpointPart::Capability,
        ]
    }

    /// Returns the key of the tables in an `endpoint` table.
    pub fn key(self) -> &'static str
        ensures { result.now ≡ part_key self }
    {
        match self {
            EndpointPart::Bar => "bar",
            EndpointPart::Config => "config",
            EndpointPart::Capability => "capability",
        }
    }
}

/// A reference to a table or slot of a board file. Indices count from 0.
#[derive(Clone, Copy, Debug, PartialEq, Eq)]
pub enum Entry {
    /// The whole file, as the top-level table.
    File,
    /// The `host` table.
    Host,
    /// `Endpoint(i)` is the `i`-th `endpoint` table.
    Endpoint(usize),
    /// `Part(part, i, j)` is the `j`-th table of this kind inside endpoint `i`.
    Part(EndpointPart, usize, usize),
    /// `Bridge(i)` is the `i`-th `bridge` table.
    Bridge(usize),
    /// `Guest(i)` is the `i`-th `guest` table.
    Guest(usize),
    /// `Slot(i, j)` is the `j`-th string in the `slots` of guest `i`.
    Slot(usize, usize),
}
