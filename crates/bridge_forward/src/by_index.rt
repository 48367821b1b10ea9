//! Accessors for a function by its index: register values, address ranges, bridge declarations, and
//! a shared borrow of an endpoint. None of them allocates.
ghost use Rattle.std.specs.{Prelude.{◌≡◌, length, option_map, slice_get}, Option.option_copied};
ghost use Rattle.model_registers.specs.{Registers.{config, number}, ByteEnables.LiesInWord};
ghost use Rattle.model_board.specs.State.{BoardFunction};
ghost use Rattle.bridge_forward.specs.{BridgeDecls.declared_bridge_nth, ByIndex.{ranges_told, programmed_ranges_nth}, Lending.endpoint_nth};

use crate::bus::Bus;
use crate::endpoint::EndpointFn;
use crate::routing::Window;
use bars::BarWithBase;
use headers::BridgeDecl;
use paths::Path;

/// The programmed address ranges of a function: the regions of an endpoint, each at the index of
/// its first BAR register, or the windows of a bridge.
#[derive(Clone, Copy, Debug)]
pub enum ProgrammedRanges {
    Regions([Option<BarWithBase>; 6]),
    Windows {
        io: Option<Window>,
        mem: Option<Window>,
        pref: Option<Window>,
    },
}

impl Bus {
    /// Returns the number of functions on the board.
    pub fn function_count(&self) -> usize
        ensures { result ≡ length self.now }
    {
        self.nodes.len()
    }

    /// Returns the path of the function at an index, in path order.
    pub fn path_nth(&self, index: usize) -> Option<Path>
        ensures { result
            ≡ option_map (λ (f : BoardFunction). f.path) (slice_get self.now index) }
    {
        let node = self.nodes.get(index)?;
        Some(node.path.copied())
    }

    /// Returns the value of the `width` bytes of configuration space at offset `off` of the
    /// function at an index. The bytes must not cross a word boundary.
    pub fn config_value_nth(&self, index: usize, off: u8, width: u64) -> Option<u32>
        requires { LiesInWord off width }
        ensures { result
            ≡ option_map (λ (f : BoardFunction). number f.file (config off) width)
            (slice_get self.now index) }
    {
        let node = self.nodes.get(index)?;
        Some(node.function.config_value(off, width))
    }

    /// Returns the declaration of the bridge at an index, or `None` if there is no bridge.
    pub fn bridge_decl_nth(&self, index: usize) -> Option<BridgeDecl>
        ensures { result ≡ declared_bridge_nth self.now index }
    {
        if index >= self.nodes.len() {
            return None;
        }
        let node = &self.nodes[index];
        node.function.bridge_decl()
    }

    /// Returns a shared borrow of the endpoint at an index, or `None` if there is no endpoint.
    pub fn endpoint_ref_nth(&self, index: usize) -> Option<&EndpointFn>
        ensures { option_copied result ≡ endpoint_nth self.now index }
    {
        if index >= self.nodes.len() {
            return None;
        }
        let node = &self.nodes[index];
        node.function.endpoint()
    }

    /// Returns the regions or windows of the function at an index.
    pub fn programmed_ranges_nth(&self, index: usize) -> Option<ProgrammedRanges>
        ensures { option_map ranges_told result ≡ programmed_ranges_nth self.now index }
    {
        let node = self.nodes.get(index)?;
        Some(node.function.programmed_ranges())
    }
}
