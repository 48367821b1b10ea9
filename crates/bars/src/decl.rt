//! The declaration of a BAR: its kind and size.
ghost use Rattle.std.specs.Prelude.{◌≡◌, ◌==◌, ◌-◌, ◌^◌, ◌↔◌, IsOk, IfOk};
ghost use Rattle.model_registers.specs.{Declarations.{IsLawfulSize, registers_of, least_size, greatest_size}, EndpointTable.{type_bits, base_width}, Decoding.{space_of, command_bit}};
ghost use Rattle.bars.specs.Kinds.{kind_of, named_space};

use std::marker::Model;
use thiserror::Error;

/// The address spaces that contain regions.
#[derive(Clone, Copy, Debug, PartialEq, Eq)]
pub enum Space {
    Io,
    Mem,
}

/// The kind of a BAR. `pref` marks prefetchable memory.
#[derive(Clone, Copy, Debug, PartialEq, Eq)]
pub enum Kind {
    Io,
    Mem32 { pref: bool },
    Mem64 { pref: bool },
}

/// The reason why a BAR of some kind can't have a size.
#[derive(Clone, Copy, Debug, PartialEq, Eq, Error)]
pub enum BarFault {
    #[error("too small")]
    TooSmall,
    #[error("too large")]
    TooLarge,
    #[error("not a power of two")]
    NotPower,
}

impl Space {
    /// Returns the bit of the Command register that enables decoding in this space (section 6.2.2).
    pub fn command_bit(self) -> u16
        ensures { result ≡ command_bit (named_space self) }
    {
        match self {
            Space::Io => 1,
            Space::Mem => 2,
        }
    }
}

impl BarFault {
    /// Returns the error number, 107.
    pub fn number(self) -> u16
        ensures { result ≡ 107 }
    {
        107
    }
}

impl Kind {
    /// Returns the address space of this kind of region.
    pub fn space(self) -> Space
        ensures { named_space result ≡ space_of (kind_of self) }
    {
        match self {
            Kind::Io => Space::Io,
            Kind::Mem32 { pref: _ } | Kind::Mem64 { pref: _ } => Space::Mem,
        }
    }

    /// Returns whether the BAR uses two registers.
    pub fn uses_two_registers(self) -> bool
        ensures { result ≡ (registers_of (kind_of self) == 2) }
    {
        matches!(self, Kind::Mem64 { pref: _ })
    }

    /// Returns a mask that covers the whole BAR: the low 32 bits, or all 64 bits for a 64-bit BAR.
    pub fn bar_width_mask(self) -> u64
        ensures { result ≡ 2 ^ base_width (kind_of self) - 1 }
    {
        if self.uses_two_registers() {
            u64::MAX
        } else {
            0xffff_ffff
        }
    }

    /// Returns the read-only type bits of the first register: bits 1 and 0 of an I/O BAR, bits 3 to
    /// 0 of a memory BAR.
    pub fn type_bits(self) -> u32
        ensures { result ≡ type_bits (kind_of self) }
    {
        match self {
            Kind::Io => 1,
            Kind::Mem32 { pref } => if pref { 8 } else { 0 },
            Kind::Mem64 { pref } => if pref { 12 } else { 4 },
        }
    }

    /// Returns the minimum and maximum region size of this kind, in bytes.
    pub fn size_limits(self) -> (u64, u64)
        ensures least { result.0 ≡ least_size (kind_of self) }
        ensures greatest { result.1 ≡ greatest_size (kind_of self) }
    {
        match self {
            Kind::Io => (4, 256),
            Kind::Mem32 { pref: _ } => (16, 1 << 31),
            Kind::Mem64 { pref: _ } => (16, 1 << 40),
        }
    }
}

/// The kind of a BAR and the size of its region in bytes. The size is a power of two, from 4 to 256
/// for I/O, from 16 to 2^31 for 32-bit memory, and from 16 to 2^40 for 64-bit memory.
#[derive(Clone, Copy, Debug)]
pub struct BarDecl {
    kind: Kind,
    size: u64,
}

impl Model for BarDecl {
    ghost use Rattle.model_registers.specs.Declarations.{Bar, IsLawfulSize};
    ghost use Rattle.bars.specs.Kinds.{kind_of, named_kind};

    ghost Value = { Bar };

    ghost view = { λ b. record { kind = kind_of b.kind; size = b.size } };

    ghost invariant = { λ b. IsLawfulSize (kind_of b.kind) b.size };

    ghost inverse = { λ v. record { kind = named_kind v.kind; size = v.size } };
}

impl BarDecl {
    /// Declares a region of `size` bytes. Fails if the kind doesn't allow this size.
    pub fn new(kind: Kind, size: u64) -> Result<BarDecl, BarFault>
        ensures taken { IsOk result ↔ IsLawfulSize (kind_of kind) size }
        ensures declared { IfOk result (λ b. b ≡ record { kind = kind_of kind; size = size }) }
    {
        let (least, greatest) = kind.size_limits();
        if size < least {
            return Err(BarFault::TooSmall);
        }
        if greatest < size {
            return Err(BarFault::TooLarge);
        }
        if !size.is_power_of_two() {
            return Err(BarFault::NotPower);
        }
        Ok(BarDecl { kind, size })
    }

    /// Returns the kind of the BAR.
    pub fn kind(&self) -> Kind
        ensures { kind_of result ≡ self.now.kind }
    {
        self.kind
    }

    /// Returns the size of the region in bytes.
    pub fn size(&self) -> u64
        ensures value { result ≡ self.now.size }
        ensures lawful { IsLawfulSize self.now.kind self.now.size }
    {
        self.size
    }
}
