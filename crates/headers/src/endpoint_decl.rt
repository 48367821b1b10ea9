//! The declaration of an endpoint.
ghost use Rattle.std.specs.{Prelude.{◌≡◌, [], IfNone, IfOk, map, option_map}, Result.result_err};
ghost use Rattle.lists.specs.Elements.{Each};
ghost use Rattle.model_registers.specs.{Declarations.{IsLawfulSize, HasLawfulRegions}, EndpointTable.{opened, closed}, DeclarationRules.{first_broken, has_values_in_range, has_own_registers, endpoint_rules, with_ordered_regions, IsLawfulEndpoint}};
ghost use Rattle.bars.specs.Resets.{at_reset};
ghost use Rattle.headers.specs.Faults.{number_of};

use crate::config_block::{self, ConfigBlock};
use crate::fault::DeclFault;
use crate::own_registers::have_valid_bar_registers;
use crate::region::{self, Region};
use bars::BarDecl;
use std::alloc::Global;
use std::marker::Model;

/// The values declared for an endpoint, not yet validated. Regions and blocks may be in any order.
/// `multifunction` says whether bit 7 of the header type may be set in functions 1 to 7.
#[derive(Clone, Debug, Drop)]
pub struct EndpointValues {
    pub vendor: u16,
    pub device: u16,
    pub revision: u8,
    pub class: u32,
    pub subvendor: u16,
    pub subsystem: u16,
    pub pin: u8,
    pub min_gnt: u8,
    pub max_lat: u8,
    pub status: u16,
    pub multifunction: bool,
    pub bar: Vec<Region>,
    pub config: Vec<ConfigBlock>,
}

impl Model for EndpointValues {
    ghost use Rattle.model_registers.specs.Declarations.{Endpoint};

    ghost Value = { Endpoint };

    ghost use Rattle.model_registers.specs.DeclarationRules.{FitsRegisters};
    ghost use Rattle.headers.specs.Values.{endpoint_of};

    ghost view = { endpoint_of };

    ghost invariant = { λ v. FitsRegisters (endpoint_of v) };
}

impl EndpointValues {
    ghost use Rattle.model_registers.specs.Declarations.{plain_endpoint};

    /// Returns an endpoint with this identity and class code, without regions or device-specific
    /// registers. All other values are 0. The header type may have bit 7 set.
    pub fn plain(alloc: Global, vendor: u16, device: u16, class: u32) -> EndpointValues
        ensures { result ≡ plain_endpoint vendor device class }
    {
        EndpointValues {
            vendor,
            device,
            revision: 0,
            class,
            subvendor: 0,
            subsystem: 0,
            pin: 0,
            min_gnt: 0,
            max_lat: 0,
            status: 0,
            multifunction: true,
            bar: Vec::new(alloc),
            config: Vec::new(alloc),
        }
    }

    fn has_values_in_range(&self) -> bool
        ensures { result ≡ has_values_in_range self.now }
    {
        self.vendor < 0xffff
            && self.class < 1 << 24
            && self.pin <= 4
            && self.status & 0xffe0 | config_block::capabilities_list_bit(&self.config)
                == self.status
            && region::blocks_are_within_limit(&self.bar)
            && config_block::are_lawful(&self.config)
    }

    fn has_valid_bar_registers(&self) -> bool
        ensures { result ≡ has_own_registers self.now.regions }
    {
        have_valid_bar_registers(&self.bar)
    }

    /// Returns the first rule that the values break.
    fn first_broken_rule(&self) -> Option<DeclFault>
        ensures first { option_map number_of result ≡ first_broken (endpoint_rules self.now) }
        ensures sizes { IfNone result (Each (λ r. IsLawfulSize r.kind r.size) self.now.regions) }
    {
        if !self.has_values_in_range() {
            Some(DeclFault::Number)
        } else if !self.has_valid_bar_registers() {
            Some(DeclFault::Register)
        } else if !region::each_block_fits_its_region(&self.bar) {
            Some(DeclFault::Size)
        } else if !config_block::are_disjoint(&self.config) {
            Some(DeclFault::CellMasks)
        } else {
            None
        }
    }
}

/// A valid declaration of an endpoint, with its regions in the order of their registers.
#[derive(Clone, Debug, Drop)]
pub struct EndpointDecl {
    values: EndpointValues,
}

impl Model for EndpointDecl {
    ghost use Rattle.model_registers.specs.{Declarations.Endpoint, DeclarationRules.IsLawfulEndpoint};

    ghost Value = { Endpoint };

    ghost view = { λ d. d.values };

    ghost invariant = { λ d. IsLawfulEndpoint d.values };
}

impl EndpointDecl {
    /// Validates these values. Fails with the first rule that they break, in the order 104, 106,
    /// 107, 112.
    pub fn new(values: EndpointValues) -> Result<EndpointDecl, DeclFault>
        ensures refused { option_map number_of (result_err result)
            ≡ first_broken (endpoint_rules values) }
        ensures declared { IfOk result (λ d. d ≡ with_ordered_regions values) }
        ensures lawful { IfOk result IsLawfulEndpoint }
        ensures complete { IsLawfulEndpoint values → result ≡ Ok values }
    {
        if let Some(fault) = values.first_broken_rule() {
            return Err(fault);
        }
        let mut values = values;
        values.bar.sort_unstable_by_key(|region| region.index);
        Ok(EndpointDecl { values })
    }

    /// Returns the declared values, with the regions in the order of their registers.
    pub fn values(&self) -> &EndpointValues
        ensures values { result.now ≡ self.now }
        ensures lawful { IsLawfulEndpoint self.now }
    {
        &self.values
    }

    /// Returns the BAR declarations by index, in the form that `bars::Bars::new` requires.
    pub fn bar_decls_by_index(&self) -> [Option<BarDecl>; 6]
        ensures bases { at_reset result ≡ map closed self.now.regions }
        ensures lawful { HasLawfulRegions (map opened (at_reset result)) }
    {
        region::bar_decls_by_index(&self.values.bar)
    }
}
