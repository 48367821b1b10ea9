//! Changes of an endpoint identified by its path. None of these calls allocates.
ghost use Rattle.std.specs.Prelude.{◌≡◌, IsSome};
ghost use Rattle.model_registers.specs.Registers.{raise};
ghost use Rattle.model_board.specs.State.{with_file};
ghost use Rattle.headers.specs.Places.{place_of};
ghost use Rattle.bridge_forward.specs.Lending.{endpoint_at, with_endpoint_reset};
ghost use Rattle.host_bridge.specs.HostState.{with_functions};

use crate::host::Host;
use bridge_forward::Path;
use headers::Place;

impl Host {
    /// Sets the W1C bits of `mask` in one register byte of the endpoint at a path (PCI Local Bus
    /// 3.0, section 6.2.3). Other bits, and other register bytes, don't change.
    pub fn raise(&mut self, path: &Path, place: Place, off: u64, mask: u8)
        requires { IsSome (endpoint_at self.old.state.functions path.now) }
        ensures { let fs = self.old.state.functions in
            let raised = with_file (raise mask (place_of place off)) path.now fs in
            self.new ≡ with_functions raised self.old }
    {
        match self.index_of(path) {
            Some(index) => self.raise_w1c_bits_nth(index, place, off, mask),
            None => unreachable!(),
        }
    }

    /// Resets the endpoint at a path, except for its Command register and BARs. Does nothing if
    /// there is no endpoint. Other functions, CONFIG_ADDRESS and the apertures don't change.
    pub fn reset_except_routing(&mut self, path: &Path)
        ensures { let fs = self.old.state.functions in
            self.new ≡ with_functions (with_endpoint_reset path.now fs) self.old }
    {
        match self.index_of(path) {
            Some(index) => self.reset_except_routing_nth(index),
            None => {}
        }
    }
}
