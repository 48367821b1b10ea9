//! Decoding of CONFIG_ADDRESS and the I/O ports of the host bridge (PCI Local Bus 3.0, section
//! 3.2.2.3.2).
ghost use Rattle.std.specs.Prelude.{◌≡◌, List};
ghost use Rattle.model_board.specs.{State.BoardFunction, Cycles.reached, Ports.{selected, selected_register, port_target}};
ghost use Rattle.bridge_forward.specs.Cycled.{reached_by};
ghost use Rattle.host_bridge.specs.Targets.{named_target};

use bridge_forward::{Cycle, CycleType};
use config_bytes::Op;
use paths::{Bdf, Latch, is_address_port};

/// The target of an I/O port access: the CONFIG_ADDRESS register, CONFIG_DATA with the
/// configuration register that CONFIG_ADDRESS selects, or any region that claims the port.
#[derive(Clone, Copy)]
pub(crate) enum Target {
    ConfigAddress,
    ConfigData,
    Ordinary,
}

/// Returns the configuration cycle that the host bridge puts on bus 0 for the function and word
/// selected by CONFIG_ADDRESS: type 0 for bus 0, and type 1 for other buses.
pub(crate) fn cycle_of(latch: Latch, enables: u8, op: Op) -> Cycle
    ensures reached { (fs : List BoardFunction) →
        reached_by fs result ≡ reached fs (selected latch) }
    ensures offset { result.offset ≡ selected_register latch }
    ensures enables { result.enables ≡ enables }
    ensures op { result.op ≡ op }
{
    let Bdf {
        bus,
        device,
        function,
    } = latch.selected_bdf();
    let kind = if bus == 0 {
        CycleType::Type0
    } else {
        CycleType::Type1 { bus }
    };
    Cycle {
        kind,
        device,
        function,
        offset: latch.selected_offset(),
        enables,
        op,
    }
}

/// Returns the target of a port access of `width` bytes.
pub(crate) fn port_access_target(latch: Latch, port: u32, width: u64) -> Target
    ensures { named_target latch port result ≡ port_target latch port width }
{
    let port = u64::from(port);
    if is_address_port(port, width) {
        Target::ConfigAddress
    } else if latch.is_enabled_data_port(port) {
        Target::ConfigData
    } else {
        Target::Ordinary
    }
}
