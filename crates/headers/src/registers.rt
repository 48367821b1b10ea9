//! The Command and Status registers as sets of flags (PCI Local Bus 3.0, chapters 6.2.2 and 6.2.3).
ghost use Rattle.std.specs.Prelude.{◌≡◌, ⊤, [], ◌∷◌, codes};
ghost use Rattle.model_registers.specs.EndpointTable.{command_mask};

use bitflags::{Flag, Flags, bitflag_items};

/// The Command register. The named bits are implemented by endpoints and bridges, except that
/// bridges don't implement `INTERRUPT_DISABLE`. All other bits are read-only zero.
#[derive(Clone, Copy, PartialEq, Eq, Debug)]
pub struct Command(pub u16);

bitflag_items! {
    impl Command: u16 {
        const IO_SPACE = 0x0001;
        const MEMORY_SPACE = 0x0002;
        const BUS_MASTER = 0x0004;
        const PARITY_ERROR_RESPONSE = 0x0040;
        const SERR_ENABLE = 0x0100;
        const INTERRUPT_DISABLE = 0x0400;
    }
}

impl Flags for Command {
    type Bits = u16;

    ghost exact = { ⊤ };

    ghost table = { (codes "IO_SPACE", 0x0001) ∷ (codes "MEMORY_SPACE", 0x0002)
        ∷ (codes "BUS_MASTER", 0x0004) ∷ (codes "PARITY_ERROR_RESPONSE", 0x0040) ∷ (codes "SERR_ENABLE", 0x0100) ∷ (codes "INTERRUPT_DISABLE", 0x0400) ∷ [] };

    ghost set_of = { λ c. c.0 };

    fn flags<'a>() -> &'a [Flag<Command>] {
        Command::FLAGS
    }

    fn bits(&self) -> u16 {
        self.0
    }

    fn from_bits_retain(bits: u16) -> Command {
        Command(bits)
    }
}

impl Command {
    /// Returns the bits that are writable in an endpoint: all named bits.
    pub fn writable_in_endpoint() -> Command
        ensures { result.0 ≡ command_mask }
    {
        Command(Command::writable_in_bridge().0 | Command::INTERRUPT_DISABLE.0)
    }

    /// Returns the bits that are writable in a bridge.
    pub fn writable_in_bridge() -> Command
        ensures { result.0 ≡ 0x0147 }
    {
        let transfers = Command::both_space_enables().0 | Command::BUS_MASTER.0;
        let errors = Command::PARITY_ERROR_RESPONSE.0 | Command::SERR_ENABLE.0;
        Command(transfers | errors)
    }

    /// Returns the bits that enable I/O and memory decoding.
    pub fn both_space_enables() -> Command
        ensures { result.0 ≡ 3 }
    {
        Command(Command::IO_SPACE.0 | Command::MEMORY_SPACE.0)
    }
}

/// The Status register. The function sets the named bits, and software clears them by writing 1.
#[derive(Clone, Copy, PartialEq, Eq, Debug)]
pub struct Status(pub u16);

bitflag_items! {
    impl Status: u16 {
        const MASTER_DATA_PARITY_ERROR = 0x0100;
        const SIGNALED_TARGET_ABORT = 0x0800;
        const RECEIVED_TARGET_ABORT = 0x1000;
        const RECEIVED_MASTER_ABORT = 0x2000;
        const SIGNALED_SYSTEM_ERROR = 0x4000;
        const DETECTED_PARITY_ERROR = 0x8000;
    }
}

impl Flags for Status {
    type Bits = u16;

    ghost exact = { ⊤ };

    ghost table = { (codes "MASTER_DATA_PARITY_ERROR", 0x0100)
        ∷ (codes "SIGNALED_TARGET_ABORT", 0x0800) ∷ (codes "RECEIVED_TARGET_ABORT", 0x1000) ∷ (codes "RECEIVED_MASTER_ABORT", 0x2000) ∷ (codes "SIGNALED_SYSTEM_ERROR", 0x4000) ∷ (codes "DETECTED_PARITY_ERROR", 0x8000) ∷ [] };

    ghost set_of = { λ s. s.0 };

    fn flags<'a>() -> &'a [Flag<Status>] {
        Status::FLAGS
    }

    fn bits(&self) -> u16 {
        self.0
    }

    fn from_bits_retain(bits: u16) -> Status {
        Status(bits)
    }
}
