//! Remarks on accepted board files.
ghost use Rattle.std.specs.Prelude.{◌≡◌};
ghost use Rattle.board_fit.specs.Remarks.{aperture_key, entry_of, key_of, other_of};

use board_file::{EndpointPart, Entry};
use window_packing::Pool;

/// A possible mistake in a board file, or a reason why its board can't be set up. List indices
/// start at 0.
#[derive(Clone, Copy, Debug)]
pub enum Remark {
    /// A bridge with nothing behind it, by its index.
    EmptyBridge(usize),
    /// An endpoint that isn't in any guest's slots, by its index.
    EndpointOfNone(usize),
    /// A guest without slots, by its index.
    GuestWithoutSlots(usize),
    /// An aperture more than ten times as large as the part of it in use.
    WideAperture(Pool),
    /// The first bridge for which no bus number is left, by its index.
    BridgeTooMany(usize),
    /// An I/O BAR behind a bridge without an I/O window: the indices of its endpoint, of the BAR in
    /// the endpoint's list, and of the bridge.
    NoIoWindow(usize, usize, usize),
}

/// Returns the key of a pool's aperture in the host table.
pub(crate) fn aperture_key(pool: Pool) -> &'static str
    ensures { result.now ≡ aperture_key pool }
{
    match pool {
        Pool::Io => "io",
        Pool::Mem => "mem",
        Pool::Pref => "pref",
    }
}

impl Remark {
    /// Returns the entry that the remark is about.
    pub(crate) fn entry(self) -> Entry
        ensures { result ≡ entry_of self }
    {
        match self {
            Remark::EmptyBridge(index) => Entry::Bridge(index),
            Remark::EndpointOfNone(index) => Entry::Endpoint(index),
            Remark::GuestWithoutSlots(index) => Entry::Guest(index),
            Remark::WideAperture(_) => Entry::Host,
            Remark::BridgeTooMany(index) => Entry::Bridge(index),
            Remark::NoIoWindow(endpoint, bar, _) => Entry::Part(EndpointPart::Bar, endpoint, bar),
        }
    }

    /// Returns the key of the entry to point at.
    pub(crate) fn key(self) -> &'static str
        ensures { result.now ≡ key_of self }
    {
        match self {
            Remark::EmptyBridge(_) | Remark::EndpointOfNone(_) | Remark::BridgeTooMany(_) => "at",
            Remark::GuestWithoutSlots(_) => "name",
            Remark::WideAperture(pool) => aperture_key(pool),
            Remark::NoIoWindow(_, _, _) => "kind",
        }
    }

    /// Returns the other entry that the remark refers to, if any.
    pub(crate) fn other(self) -> Option<Entry>
        ensures { result ≡ other_of self }
    {
        match self {
            Remark::NoIoWindow(_, _, bridge) => Some(Entry::Bridge(bridge)),
            _ => None,
        }
    }
}
