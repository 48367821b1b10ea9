//! The keys that are defined for each kind of table in a board file.
ghost use Rattle.std.specs.Prelude.{◌≡◌, map};
ghost use Rattle.board_file.specs.Schema.{fields, field_of, register_key};

use crate::document::schema::{Field, Keyword, TableKind, ValueType};
use crate::entry::EndpointPart;

/// The key of a register whose number may have any value that fits.
#[derive(Clone, Copy, Debug)]
pub enum RegisterKey {
    Device,
    Revision,
    Subvendor,
    Subsystem,
    MinGnt,
    MaxLat,
}

impl RegisterKey {
    /// Returns the key as it stands in a board file.
    pub fn text(self) -> &'static str
        ensures { result.now ≡ register_key self }
    {
        match self {
            RegisterKey::Device => "device",
            RegisterKey::Revision => "revision",
            RegisterKey::Subvendor => "subvendor",
            RegisterKey::Subsystem => "subsystem",
            RegisterKey::MinGnt => "min_gnt",
            RegisterKey::MaxLat => "max_lat",
        }
    }
}

// Defines a required key.
macro_rules! needed {
    ($key:literal, $form:expr) => {
        Field {
            key: $key,
            needed: true,
            form: $form,
        }
    };
}

// Defines an optional key.
macro_rules! optional {
    ($key:literal, $form:expr) => {
        Field {
            key: $key,
            needed: false,
            form: $form,
        }
    };
}

const TOP: [Field; 4] = [
    needed!("host", ValueType::Table(TableKind::Host)),
    optional!("endpoint", ValueType::Tables(TableKind::Endpoint)),
    optional!("bridge", ValueType::Tables(TableKind::Bridge)),
    optional!("guest", ValueType::Tables(TableKind::Guest)),
];

const HOST: [Field; 4] = [
    needed!("io", ValueType::Pair),
    needed!("mem", ValueType::Pair),
    optional!("pref", ValueType::Pair),
    optional!("devices", ValueType::Integer),
];

const ENDPOINT: [Field; 16] = [
    needed!("at", ValueType::Text),
    needed!("vendor", ValueType::Integer),
    needed!("device", ValueType::Integer),
    optional!("revision", ValueType::Integer),
    needed!("class", ValueType::Integer),
    optional!("subvendor", ValueType::Integer),
    optional!("subsystem", ValueType::Integer),
    optional!("pin", ValueType::Integer),
    optional!("min_gnt", ValueType::Integer),
    optional!("max_lat", ValueType::Integer),
    optional!("status", ValueType::Integer),
    optional!("fixed_status", ValueType::Integer),
    optional!("multifunction", ValueType::Boolean),
    optional!("bar", ValueType::Tables(TableKind::Part(EndpointPart::Bar))),
    optional!(
        "config",
        ValueType::Tables(TableKind::Part(EndpointPart::Config))
    ),
    optional!(
        "capability",
        ValueType::Tables(TableKind::Part(EndpointPart::Capability))
    ),
];

const BAR: [Field; 7] = [
    needed!("index", ValueType::Integer),
    needed!("kind", ValueType::Word(Keyword::RegionKind)),
    needed!("size", ValueType::Integer),
    optional!("block", ValueType::Integer),
    optional!("reset", ValueType::Text),
    optional!("rw", ValueType::Text),
    optional!("w1c", ValueType::Text),
];

const CONFIG: [Field; 5] = [
    needed!("off", ValueType::Integer),
    needed!("block", ValueType::Integer),
    optional!("reset", ValueType::Text),
    optional!("rw", ValueType::Text),
    optional!("w1c", ValueType::Text),
];

const CAPABILITY: [Field; 6] = [
    needed!("id", ValueType::Integer),
    needed!("off", ValueType::Integer),
    needed!("block", ValueType::Integer),
    optional!("reset", ValueType::Text),
    optional!("rw", ValueType::Text),
    optional!("w1c", ValueType::Text),
];

const BRIDGE: [Field; 9] = [
    needed!("at", ValueType::Text),
    needed!("vendor", ValueType::Integer),
    needed!("device", ValueType::Integer),
    optional!("revision", ValueType::Integer),
    optional!("fixed_status", ValueType::Integer),
    optional!("fixed_secondary_status", ValueType::Integer),
    optional!("multifunction", ValueType::Boolean),
    needed!("io", ValueType::Word(Keyword::IoDecode)),
    needed!("pref", ValueType::Word(Keyword::PrefDecode)),
];

const GUEST: [Field; 2] = [
    needed!("name", ValueType::Text),
    needed!("slots", ValueType::Texts),
];

/// Returns the keys that are defined for a table of this level.
pub fn fields(level: TableKind) -> &'static [Field]
    ensures { map field_of result.now ≡ fields level }
{
    match level {
        TableKind::Top => &TOP,
        TableKind::Host => &HOST,
        TableKind::Endpoint => &ENDPOINT,
        TableKind::Part(EndpointPart::Bar) => &BAR,
        TableKind::Part(EndpointPart::Config) => &CONFIG,
        TableKind::Part(EndpointPart::Capability) => &CAPABILITY,
        TableKind::Bridge => &BRIDGE,
        TableKind::Guest => &GUEST,
    }
}
