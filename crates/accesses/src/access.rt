//! The accesses of guests and the host, and the replies to them.
use crate::refusal::Refusal;
use config_bytes::Op;
use paths::Bdf;

/// The target of a guest's access, in the guest's own address spaces. The fields aren't validated
/// yet.
#[derive(Clone, Copy, Debug, PartialEq, Eq)]
pub enum At {
    /// A byte offset in the configuration space of the function in a slot.
    Config { slot: u64, off: u64 },
    /// An I/O port.
    Io { port: u64 },
    /// A memory address.
    Mem { addr: u64 },
}

/// A guest's access. The width is in bytes and isn't validated yet.
#[derive(Clone, Copy, Debug, PartialEq, Eq)]
pub struct Access {
    pub at: At,
    pub width: u64,
    pub op: Op,
}

/// The reply to an access, to a raise, or to a read by the host.
#[derive(Clone, Copy, Debug, PartialEq, Eq)]
pub enum Reply {
    /// The value read, and its width in bytes.
    Value(u32, u64),
    Done,
    Refused(Refusal),
}

/// The target of a read by the host, in the board's physical address spaces.
#[derive(Clone, Copy, Debug, PartialEq, Eq)]
pub enum HostAt {
    /// A byte offset in the configuration space of the function at a BDF.
    Config { bdf: Bdf, off: u64 },
    /// An I/O port.
    Io { port: u64 },
    /// A memory address.
    Mem { addr: u64 },
}

/// A read by the host. The width is in bytes and isn't validated yet.
#[derive(Clone, Copy, Debug, PartialEq, Eq)]
pub struct HostAccess {
    pub at: HostAt,
    pub width: u64,
}
