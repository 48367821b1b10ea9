//! Determines the role of an I/O port in the configuration mechanism (PCI Local Bus 3.0, section
//! 3.2.2.3.2).
ghost use Rattle.std.specs.Prelude.{◌≡◌};
ghost use Rattle.model_lines.specs.WhyPorts.{port_use};
ghost use Rattle.findings.specs.WhyTold.{use_told};

use host_bridge::Bdf;
use paths::Latch;

/// The role of an I/O port in the configuration mechanism.
#[derive(Clone, Copy, Debug, PartialEq, Eq)]
pub enum PortUse {
    /// CONFIG_ADDRESS. Only accesses of 4 bytes reach it; smaller ones go to an ordinary port.
    HoldsLatch,
    /// CONFIG_DATA: a byte of the configuration space that CONFIG_ADDRESS selects.
    ShowsData { at: Bdf, offset: u8 },
    /// CONFIG_DATA while CONFIG_ADDRESS isn't enabled: an ordinary port.
    HidesData,
    LikeOthers,
}

/// Returns the role of a port, given the value of CONFIG_ADDRESS.
pub fn port_use(latch: Latch, port: u64) -> PortUse
    ensures { use_told result ≡ port_use latch port }
{
    if port == 0xcf8 {
        return PortUse::HoldsLatch;
    }
    if port < 0xcfc || 0xcff < port {
        return PortUse::LikeOthers;
    }
    if !latch.is_enabled_data_port(port) {
        return PortUse::HidesData;
    }
    PortUse::ShowsData {
        at: latch.selected_bdf(),
        offset: latch.selected_offset() + (port - 0xcfc) as u8,
    }
}
