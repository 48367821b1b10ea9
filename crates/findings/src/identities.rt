//! Reads the identity registers of a function (PCI Local Bus 3.0, sections 6.2.1 and 6.2.4).
ghost use Rattle.std.specs.Prelude.{◌≡◌, ◌≤◌, ◌+◌, ◌%◌, option_map, slice_get};
ghost use Rattle.model_board.specs.State.{BoardFunction};
ghost use Rattle.model_handoff.specs.Functions.{subsystem_id_or_zero};
ghost use Rattle.findings.specs.Identities.{identity_told, identity_nth};

use host_bridge::Host;

/// The identity registers of a function. For a bridge, `subvendor` and `subsystem` are 0.
#[derive(Clone, Copy, Debug, PartialEq, Eq)]
pub struct Identity {
    pub vendor: u32,
    pub device: u32,
    pub revision: u32,
    pub class: u32,
    pub subvendor: u32,
    pub subsystem: u32,
}

/// Reads the 16-bit subsystem register at `off` of the function at an index. Returns 0 for a
/// bridge.
fn subsystem_id_or_zero(host: &Host, index: usize, off: u8) -> Option<u32>
    requires { off % 4 + 2 ≤ 4 }
    ensures { let fs = host.now.state.functions in
        result ≡ option_map (λ (f : BoardFunction). subsystem_id_or_zero f.decl f.file off)
        (slice_get fs index) }
{
    match host.secondary_bus_nth(index) {
        Some(_) => Some(0),
        None => host.peek_config_nth(index, off, 2),
    }
}

/// Reads the identity registers of the function at an index, if there is one.
pub fn identity_nth(host: &Host, index: usize) -> Option<Identity>
    ensures { option_map identity_told result ≡ identity_nth host.now.state.functions index }
{
    Some(Identity {
        vendor: host.peek_config_nth(index, 0x00, 2)?,
        device: host.peek_config_nth(index, 0x02, 2)?,
        revision: host.peek_config_nth(index, 0x08, 1)?,
        class: host.peek_config_nth(index, 0x09, 3)?,
        subvendor: subsystem_id_or_zero(host, index, 0x2c)?,
        subsystem: subsystem_id_or_zero(host, index, 0x2e)?,
    })
}
