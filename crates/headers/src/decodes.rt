//! The address decode modes of bridge windows (PCI-to-PCI Bridge Architecture 1.2, chapters 3.2.5.6
//! and 3.2.5.9).

/// Whether a bridge implements an I/O window, and with how many address bits.
#[derive(Clone, Copy, Debug, PartialEq, Eq)]
pub enum IoDecode {
    Unimplemented,
    Bits16,
    Bits32,
}

/// Whether a bridge implements a prefetchable memory window, and with how many address bits.
#[derive(Clone, Copy, Debug, PartialEq, Eq)]
pub enum PrefDecode {
    Unimplemented,
    Bits32,
    Bits64,
}
