//! The address apertures that set-up may assign from.
ghost use Rattle.std.specs.Prelude.{◌≡◌, ◌↔◌, ◌<◌, is_ok, IsOk, IfOk};
ghost use Rattle.model_registers.specs.Apertures.{is_whole_units, is_io_aperture, is_mem_aperture, is_pref_aperture, has_lawful_pref, are_lawful, IsLawfulApertures};

use std::marker::Model;
use thiserror::Error;

/// The reason why an aperture isn't valid.
#[derive(Clone, Copy, Debug, PartialEq, Eq, Error)]
pub enum ApertureFault {
    #[error("empty, the last address is below the first")]
    Empty,
    #[error("not whole units of 4 KB, as 0x1000 to 0xffff are")]
    Pages,
    #[error("not whole units of 1 MB, as 0xc0000000 to 0xdfffffff are")]
    Megabytes,
    #[error("too low, it begins below 0x1000")]
    BelowIo,
    #[error("too high, it ends above 0xffff")]
    AboveIo,
    #[error("too high, it ends above 0xffffffff")]
    AboveMem,
    #[error("too high, it ends above 0x7fffffffffffffff")]
    AbovePref,
    #[error("across 4 GB, it begins below 0x100000000 and ends above")]
    Across,
    #[error("meets mem")]
    MeetsMem,
}

impl ApertureFault {
    /// Returns the error number, 111.
    pub fn number(self) -> u16
        ensures { result ≡ 111 }
    {
        111
    }
}

/// The first and last address of an aperture, both included.
#[derive(Clone, Copy, Debug, PartialEq, Eq)]
pub struct Aperture {
    pub first: u64,
    pub last: u64,
}

impl Model for Aperture {
    ghost use Rattle.model_registers.specs.Apertures.{Aperture};

    ghost Value = { Aperture };

    ghost view = { λ a. record { first = a.first; last = a.last } };

    ghost inverse = { λ v. record { first = v.first; last = v.last } };
}

impl Aperture {
    /// Returns whether the aperture is nonempty and consists of whole units of `unit` bytes.
    fn is_whole_units(&self, unit: u64) -> bool
        requires { 0 < unit }
        ensures { result ≡ is_whole_units unit self.now }
    {
        self.first <= self.last && self.first % unit == 0 && self.last % unit == unit - 1
    }

    /// Checks that the aperture is nonempty and consists of whole units of `unit` bytes. Fails with
    /// `fault` if it starts or ends inside a unit.
    fn check_whole_units(&self, unit: u64, fault: ApertureFault) -> Result<(), ApertureFault>
        requires { 0 < unit }
        ensures { is_ok result ≡ is_whole_units unit self.now }
    {
        if self.is_whole_units(unit) {
            Ok(())
        } else if self.last < self.first {
            Err(ApertureFault::Empty)
        } else {
            Err(fault)
        }
    }

    /// Checks that this can be the I/O aperture: whole 4 KB pages, none below 1000h or above FFFFh.
    pub fn check_io(&self) -> Result<(), ApertureFault>
        ensures { is_ok result ≡ is_io_aperture self.now }
    {
        self.check_whole_units(1 << 12, ApertureFault::Pages)?;
        if self.first < 0x1000 {
            Err(ApertureFault::BelowIo)
        } else if self.last > 0xffff {
            Err(ApertureFault::AboveIo)
        } else {
            Ok(())
        }
    }

    /// Checks that this can be the memory aperture: whole megabytes, all below 4 GB.
    pub fn check_mem(&self) -> Result<(), ApertureFault>
        ensures { is_ok result ≡ is_mem_aperture self.now }
    {
        self.check_whole_units(1 << 20, ApertureFault::Megabytes)?;
        if self.last < 1 << 32 {
            Ok(())
        } else {
            Err(ApertureFault::AboveMem)
        }
    }

    /// Checks that this can be the prefetchable aperture of a board whose memory aperture is `mem`:
    /// whole megabytes below 2^63, that lie all below or all above 4 GB, and don't overlap `mem`.
    pub fn check_pref(&self, mem: &Aperture) -> Result<(), ApertureFault>
        ensures { is_ok result ≡ is_pref_aperture mem.now self.now }
    {
        self.check_whole_units(1 << 20, ApertureFault::Megabytes)?;
        if self.last >= 1 << 63 {
            Err(ApertureFault::AbovePref)
        } else if self.last >= 1 << 32 && self.first < 1 << 32 {
            Err(ApertureFault::Across)
        } else if mem.last < self.first || self.last < mem.first {
            Ok(())
        } else {
            Err(ApertureFault::MeetsMem)
        }
    }
}

/// Checks the prefetchable aperture, if there is one, against the memory aperture.
fn check_pref(mem: &Aperture, pref: &Option<Aperture>) -> Result<(), ApertureFault>
    ensures { is_ok result ≡ has_lawful_pref mem.now pref.now }
{
    match pref {
        Some(pref) => pref.check_pref(mem),
        None => Ok(()),
    }
}

/// Valid apertures for I/O, for memory, and for prefetchable memory if the board has a separate
/// aperture for it.
#[derive(Clone, Copy, Debug)]
pub struct Apertures {
    io: Aperture,
    mem: Aperture,
    pref: Option<Aperture>,
}

impl Model for Apertures {
    ghost use Rattle.model_registers.specs.Apertures.{Apertures, IsLawfulApertures};

    ghost Value = { Apertures };

    ghost view = { λ a. record { io = a.io; mem = a.mem; pref = a.pref } };

    ghost invariant = { λ a. IsLawfulApertures
        (record { io = a.io; mem = a.mem; pref = a.pref }) };

    ghost inverse = { λ v. record { io = v.io; mem = v.mem; pref = v.pref } };
}

impl Apertures {
    /// Returns these apertures if all are valid: nonempty, I/O in whole 4 KB pages within 1000h to
    /// FFFFh, the others in whole megabytes, memory below 4 GB, and prefetchable memory below 2^63,
    /// entirely below or above 4 GB, without overlapping memory.
    pub fn new(
        io: Aperture,
        mem: Aperture,
        pref: Option<Aperture>,
    ) -> Result<Apertures, ApertureFault>
        ensures taken { is_ok result ≡ are_lawful (record { io = io; mem = mem; pref = pref }) }
        ensures lawful { IsOk result
            ↔ IsLawfulApertures (record { io = io; mem = mem; pref = pref }) }
        ensures apertures { IfOk result (λ a. a ≡ record { io = io; mem = mem; pref = pref }) }
    {
        io.check_io()?;
        mem.check_mem()?;
        check_pref(&mem, &pref)?;
        Ok(Apertures { io, mem, pref })
    }

    /// Returns the aperture for I/O regions and windows.
    pub fn io(&self) -> Aperture
        ensures value { result ≡ self.now.io }
        ensures lawful { IsLawfulApertures self.now }
    {
        self.io
    }

    /// Returns the aperture for memory.
    pub fn mem(&self) -> Aperture
        ensures { result ≡ self.now.mem }
    {
        self.mem
    }

    /// Returns the aperture for prefetchable memory, if the board has one.
    pub fn pref(&self) -> Option<Aperture>
        ensures { result ≡ self.now.pref }
    {
        self.pref
    }
}
