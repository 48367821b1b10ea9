//! The register values that set-up writes into one function.
use bars::BarWithBase;
use host_bridge::Bdf;
use std::marker::Model;

/// The first and last address of a window, both inclusive. In a disabled window the first address
/// is above the last.
#[derive(Clone, Copy, Debug, PartialEq, Eq)]
pub struct WindowSetting {
    pub first: u64,
    pub last: u64,
}

impl Model for WindowSetting {
    ghost use Rattle.model_registers.specs.BridgeTable.{Window};

    ghost Value = { Window };

    ghost view = { λ s. record { first = s.first; last = s.last } };

    ghost inverse = { λ v. record { first = v.first; last = v.last } };
}

/// The register values for a function: Command and the base address of each region, at the index of
/// its first BAR register, or the windows of a bridge.
#[derive(Clone, Copy, Debug)]
pub enum RegisterValues {
    Endpoint {
        command: u16,
        bases: [Option<BarWithBase>; 6],
    },
    Bridge {
        io: WindowSetting,
        mem: WindowSetting,
        pref: WindowSetting,
    },
}

/// The register values for the function at a BDF.
#[derive(Debug, Drop)]
pub struct FunctionProgram {
    pub at: Bdf,
    pub writes: RegisterValues,
}

impl Model for FunctionProgram {
    ghost use Rattle.model_set_up.specs.SetUpWrites.{FunctionProgram};
    ghost use Rattle.paths.specs.BusAddresses.{bus_address_of};
    ghost use Rattle.window_packing.specs.Plans.{writes_of};

    ghost Value = { FunctionProgram };

    ghost view = { λ s. record { at = bus_address_of s.at; writes = writes_of s.writes } };
}
