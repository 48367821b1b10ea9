//! Reads and changes of a function identified by its index. None of these calls allocates.
ghost use Rattle.std.specs.{Prelude.{◌≡◌, ◌%◌, IsSome, IsTrue, length, option_map, slice_get}, Option.option_copied};
ghost use Rattle.model_registers.specs.{Registers.{cell_at, config, number, raise, read, write}, ByteEnables.{LiesInWord, lanes}, DeviceBytes.{is_device_byte, set_value}};
ghost use Rattle.model_board.specs.State.{BoardFunction};
ghost use Rattle.headers.specs.Places.{place_of};
ghost use Rattle.bridge_forward.specs.{BridgeDecls.declared_bridge_nth, ByIndex.{ranges_told, programmed_ranges_nth}, Lending.endpoint_nth};
ghost use Rattle.host_bridge.specs.{ByIndex.{file_nth, with_file_nth, with_reset_nth}, HostState.with_functions, Landings.IsReached};

use crate::host::Host;
use bridge_forward::{EndpointFn, Path, ProgrammedRanges};
use headers::{BridgeDecl, Place};

impl Host {
    /// Returns the number of functions on the board.
    pub fn count(&self) -> usize
        ensures { result ≡ length self.now.state.functions }
    {
        self.root.function_count()
    }

    /// Returns the path of the function at an index, in path order.
    pub fn path_nth(&self, index: usize) -> Option<Path>
        ensures { result
            ≡ option_map (λ (f : BoardFunction). f.path)
            (slice_get self.now.state.functions index) }
    {
        self.root.path_nth(index)
    }

    /// Returns the value of the `width` bytes of configuration space at offset `off` of the
    /// function at an index. The bytes must not cross a word boundary.
    pub fn peek_config_nth(&self, index: usize, off: u8, width: u64) -> Option<u32>
        requires { LiesInWord off width }
        ensures { let fs = self.now.state.functions in
            result ≡ option_map (λ (f : BoardFunction). number f.file (config off) width)
            (slice_get fs index) }
    {
        self.root.config_value_nth(index, off, width)
    }

    /// Returns the declaration of the bridge at an index, or `None` if there is no bridge.
    pub fn bridge_decl_nth(&self, index: usize) -> Option<BridgeDecl>
        ensures { result ≡ declared_bridge_nth self.now.state.functions index }
    {
        self.root.bridge_decl_nth(index)
    }

    /// Returns a shared borrow of the endpoint at an index, or `None` if there is no endpoint.
    pub fn endpoint_ref_nth(&self, index: usize) -> Option<&EndpointFn>
        ensures { option_copied result ≡ endpoint_nth self.now.state.functions index }
    {
        self.root.endpoint_ref_nth(index)
    }

    /// Returns the regions or windows of the function at an index.
    pub fn programmed_ranges_nth(&self, index: usize) -> Option<ProgrammedRanges>
        ensures { option_map ranges_told result
            ≡ programmed_ranges_nth self.now.state.functions index }
    {
        self.root.programmed_ranges_nth(index)
    }

    /// Reads the enabled bytes of the configuration word at `off`, a multiple of 4, of the endpoint
    /// at an index. Disabled bytes read 0. The endpoint must be reachable by configuration cycles;
    /// the index avoids a search by bus number.
    pub fn config_read_nth(&mut self, index: usize, off: u8, enables: u8) -> u32
        requires there { IsSome (endpoint_nth self.old.state.functions index) }
        requires reached { IsReached self.old.state.functions index }
        requires word { off % 4 ≡ 0 }
        ensures value { result
            ≡ read (file_nth self.old.state.functions index) (config off) (lanes enables) }
        ensures after { self.new ≡ self.old }
    {
        match self.root.endpoint_nth(index) {
            Some(endpoint) => endpoint.config_read(off, enables),
            None => unreachable!(),
        }
    }

    /// Writes the enabled bytes of the configuration word at `off`, a multiple of 4, of the
    /// endpoint at an index. The endpoint must be reachable by configuration cycles.
    pub fn config_write_nth(&mut self, index: usize, off: u8, enables: u8, data: u32)
        requires there { IsSome (endpoint_nth self.old.state.functions index) }
        requires reached { IsReached self.old.state.functions index }
        requires word { off % 4 ≡ 0 }
        ensures { let written = with_file_nth
            (write (lanes enables) «data» (config off)) index self.old.state.functions in
            self.new ≡ with_functions written self.old }
    {
        match self.root.endpoint_nth(index) {
            Some(endpoint) => endpoint.config_write(off, enables, data),
            None => unreachable!(),
        }
    }

    /// Sets the W1C bits of `mask` in one register byte of the endpoint at an index. Other bits,
    /// and other register bytes, don't change.
    pub fn raise_w1c_bits_nth(&mut self, index: usize, place: Place, off: u64, mask: u8)
        requires { IsSome (endpoint_nth self.old.state.functions index) }
        ensures { let raised = with_file_nth
            (raise mask (place_of place off)) index self.old.state.functions in
            self.new ≡ with_functions raised self.old }
    {
        match self.root.endpoint_nth(index) {
            Some(endpoint) => endpoint.raise(place, off, mask),
            None => unreachable!(),
        }
    }

    /// Returns the value of a register byte that belongs to the device, or 0 if it isn't
    /// implemented.
    pub fn device_byte_or_zero_nth(&mut self, index: usize, place: Place, off: u64) -> u8
        requires there { IsSome (endpoint_nth self.old.state.functions index) }
        requires own { IsTrue (is_device_byte (place_of place off)) }
        ensures value { result
            ≡ (cell_at (file_nth self.old.state.functions index) (place_of place off)).value }
        ensures after { self.new ≡ self.old }
    {
        match self.root.endpoint_nth(index) {
            Some(endpoint) => endpoint.value(place, off),
            None => unreachable!(),
        }
    }

    /// Sets the value of a register byte that belongs to the device, ignoring its write mask and
    /// W1C mask, which stay the same. Other register bytes don't change. Does nothing if the byte
    /// isn't implemented.
    pub fn set_device_byte_nth(&mut self, index: usize, place: Place, off: u64, value: u8)
        requires there { IsSome (endpoint_nth self.old.state.functions index) }
        requires own { IsTrue (is_device_byte (place_of place off)) }
        ensures { let set = with_file_nth
            (set_value value (place_of place off)) index self.old.state.functions in
            self.new ≡ with_functions set self.old }
    {
        match self.root.endpoint_nth(index) {
            Some(endpoint) => endpoint.set(place, off, value),
            None => unreachable!(),
        }
    }

    /// Resets the endpoint at an index, except for its Command register and BARs. Does nothing if
    /// there is no endpoint. Other functions, CONFIG_ADDRESS and the apertures don't change.
    pub fn reset_except_routing_nth(&mut self, index: usize)
        ensures { self.new
            ≡ with_functions (with_reset_nth index self.old.state.functions) self.old }
    {
        let Some(endpoint) = self.root.endpoint_nth(index) else {
            return;
        };
        endpoint.reset();
    }
}
