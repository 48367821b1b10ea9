//! The contents of a board file, before any check of the values.
ghost use Rattle.std.specs.Prelude.{◌≡◌};
ghost use Rattle.board_file.specs.Rules.{device_limit};
ghost use Rattle.board_file.specs.Entries as said;

pub use crate::functions::bar::BarEntry;
pub use crate::functions::blocks::PatternTexts;
pub use crate::functions::bridge::BridgeEntry;
pub use crate::functions::capability::CapabilityEntry;
pub use crate::functions::config::ConfigEntry;
pub use crate::functions::endpoint::EndpointEntry;
pub use crate::guests::GuestEntry;
use std::marker::Model;

/// The first and the last address of an aperture.
#[derive(Clone, Copy)]
pub struct Bounds {
    pub first: i64,
    pub last: i64,
}

/// All entries of a board file.
#[derive(Drop)]
pub struct FileEntries<'a> {
    pub io: Bounds,
    pub mem: Bounds,
    pub pref: Option<Bounds>,
    /// How many devices a bus may have.
    pub devices: i64,
    pub endpoints: Vec<EndpointEntry<'a>>,
    pub bridges: Vec<BridgeEntry<'a>>,
    pub guests: Vec<GuestEntry<'a>>,
}

impl<'a> Model for FileEntries<'a> {
    ghost Value = { said.File };

    ghost view = { λ f. record {
      io = f.io;
      mem = f.mem;
      pref = f.pref;
      devices = f.devices;
      endpoints = f.endpoints.items;
      bridges = f.bridges.items;
      guests = f.guests.items;
    } };
}

impl<'a> FileEntries<'a> {
    /// Returns how many devices a bus of the board may have: 16 or 32. If the file has another
    /// number, which breaks a rule, returns 32.
    pub fn device_limit(&self) -> u8
        ensures { result ≡ device_limit self.now.devices }
    {
        if self.devices == 16 { 16 } else { 32 }
    }
}
