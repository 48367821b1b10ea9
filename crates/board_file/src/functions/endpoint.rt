//! The `endpoint` tables of a board file.
ghost use Rattle.std.specs.{Prelude.{◌≡◌, ◌||◌, not, is_none, IsTrue, IfOk, OnOk, flat_map, map}, List.enumerate_from};
ghost use Rattle.model_registers.specs.DeclarationRules.{first_broken, endpoint_rules as declaration_rules, has_own_registers, with_ordered_regions, IsLawfulEndpoint};
ghost use Rattle.board_file.specs.{Bars.region, Blocks.Gives, Endpoints.{endpoint, part_count, has_valid_bar_indices, endpoint_numbers, endpoint_rules, is_declarable, masks_hold, declared_endpoint, HasSmallNumbers}, Problems.{Adds, broken, of_bars, of_configs, of_capabilities, of_endpoint}};
ghost use Rattle.board_file.specs.Endpoints as said;

use crate::document::keys::RegisterKey;
use crate::document::reading::{
    FromTable, boolean_or_true, entries_at_or_empty, integer_or_zero, text_or_empty,
};
use crate::entries::{BarEntry, CapabilityEntry, ConfigEntry, FileEntries};
use crate::entry::{EndpointPart, Entry};
use crate::fault::BoardFault;
use crate::finding::{Violation, push_broken_rules};
use crate::functions::bar::has_valid_index;
use crate::functions::numbers::{
    fits_byte_rule, fits_half_word_rule, fixed_status_rule, has_at_most_15_slashes, has_only_bits,
    is_between, magnitude_as_u8, magnitude_as_u16, magnitude_as_u64, multifunction_rule,
};
use crate::functions::part::{declare_all_if_masks_hold, push_part_problems};
use crate::path::text::PathText;
use crate::rule::Rule;
use headers::{ConfigBlock, EndpointDecl, EndpointValues, Region, have_valid_bar_registers};
use std::alloc::{AllocError, Global};
use std::marker::Model;
use toml::Table;

/// An `endpoint` table.
#[derive(Drop)]
pub struct EndpointEntry<'a> {
    pub at: PathText<'a>,
    pub vendor: i64,
    pub device: i64,
    pub revision: i64,
    pub class: i64,
    pub subvendor: i64,
    pub subsystem: i64,
    pub pin: i64,
    pub min_gnt: i64,
    pub max_lat: i64,
    pub status: i64,
    pub fixed_status: i64,
    pub multifunction: bool,
    pub bars: Vec<BarEntry<'a>>,
    pub configs: Vec<ConfigEntry<'a>>,
    pub capabilities: Vec<CapabilityEntry<'a>>,
}

impl<'a> Model for EndpointEntry<'a> {
    ghost Value = { said.Endpoint };

    ghost view = { λ e. record {
      at = e.at;
      vendor = e.vendor;
      device = e.device;
      revision = e.revision;
      class = e.class;
      subvendor = e.subvendor;
      subsystem = e.subsystem;
      pin = e.pin;
      min_gnt = e.min_gnt;
      max_lat = e.max_lat;
      status = e.status;
      fixed_status = e.fixed_status;
      multifunction = e.multifunction;
      bars = e.bars.items;
      configs = e.configs.items;
      capabilities = e.capabilities.items;
    } };
}

impl<'a> FromTable<'a> for EndpointEntry<'a> {
    ghost said = { endpoint };

    fn from_table(alloc: Global, table: &'a Table) -> Result<Self, AllocError> {
        Ok(EndpointEntry {
            at: PathText::new(text_or_empty(table, "at")),
            vendor: integer_or_zero(table, "vendor"),
            device: integer_or_zero(table, "device"),
            revision: integer_or_zero(table, "revision"),
            class: integer_or_zero(table, "class"),
            subvendor: integer_or_zero(table, "subvendor"),
            subsystem: integer_or_zero(table, "subsystem"),
            pin: integer_or_zero(table, "pin"),
            min_gnt: integer_or_zero(table, "min_gnt"),
            max_lat: integer_or_zero(table, "max_lat"),
            status: integer_or_zero(table, "status"),
            fixed_status: integer_or_zero(table, "fixed_status"),
            multifunction: boolean_or_true(table, "multifunction"),
            bars: entries_at_or_empty(alloc, table, "bar")?,
            configs: entries_at_or_empty(alloc, table, "config")?,
            capabilities: entries_at_or_empty(alloc, table, "capability")?,
        })
    }
}

impl<'a> EndpointEntry<'a> {
    /// Returns the number of tables of this kind inside the endpoint.
    pub fn count(&self, part: EndpointPart) -> usize
        ensures { result ≡ part_count part self.now }
    {
        match part {
            EndpointPart::Bar => self.bars.len(),
            EndpointPart::Config => self.configs.len(),
            EndpointPart::Capability => self.capabilities.len(),
        }
    }

    /// Builds the declaration. Returns `None` if a pattern isn't valid, or if configuration blocks
    /// or structures overlap.
    pub(crate) fn declare_if_masks_hold(
        &self,
        alloc: Global,
    ) -> Result<Option<EndpointDecl>, AllocError>
        requires { IsTrue (is_declarable self.now) }
        ensures { IfOk result (λ found.
            Gives (masks_hold self.now) found (λ d. (d ≡ declared_endpoint self.now)
            × IsLawfulEndpoint d)) }
    {
        let Some(regions) = declare_all_if_masks_hold(alloc, &self.bars)? else {
            return Ok(None);
        };
        let Some(blocks) = declare_all_if_masks_hold(alloc, &self.configs)? else {
            return Ok(None);
        };
        let Some(capabilities) = declare_all_if_masks_hold(alloc, &self.capabilities)? else {
            return Ok(None);
        };
        let values = values_without_capabilities(self, regions, blocks).with_capabilities(
            alloc,
            &capabilities,
        )?;
        Ok(declare_endpoint_if_valid(values))
    }
}

/// Returns whether the indices of all BARs are valid.
fn has_valid_bar_indices(endpoint: &EndpointEntry<'_>) -> bool
    ensures { result ≡ has_valid_bar_indices endpoint.now }
{
    endpoint.bars.iter().all(|bar| has_valid_index(bar))
}

/// Returns whether no BARs share a register and none needs more than the six registers. Also
/// returns true if an index isn't valid, which another rule reports.
fn has_disjoint_bars_if_indices_valid(endpoint: &EndpointEntry<'_>) -> bool
    ensures { result
        ≡ (not (has_valid_bar_indices endpoint.now)
        || has_own_registers (map region endpoint.now.bars)) }
{
    !has_valid_bar_indices(endpoint) || have_valid_bar_registers(&endpoint.bars)
}

/// Appends the problems of an endpoint's numbers.
fn push_number_problems(
    problems: &mut Vec<Violation<'_>>,
    entry: Entry,
    endpoint: &EndpointEntry<'_>,
) -> Result<(), AllocError>
    ensures { OnOk result (Adds (broken entry (endpoint_numbers endpoint.now)) problems.old.items
        problems.new.items) }
{
    push_broken_rules(
        problems,
        entry,
        &[
            (Rule::Vendor, is_between(0, 0xfffe, endpoint.vendor)),
            fits_half_word_rule(RegisterKey::Device, endpoint.device),
            fits_byte_rule(RegisterKey::Revision, endpoint.revision),
            (Rule::Class, is_between(0, 0xff_ffff, endpoint.class)),
            fits_half_word_rule(RegisterKey::Subvendor, endpoint.subvendor),
            fits_half_word_rule(RegisterKey::Subsystem, endpoint.subsystem),
            (Rule::Pin, is_between(0, 4, endpoint.pin)),
            fits_byte_rule(RegisterKey::MinGnt, endpoint.min_gnt),
            fits_byte_rule(RegisterKey::MaxLat, endpoint.max_lat),
            (Rule::Status, has_only_bits(0xf900, endpoint.status)),
            fixed_status_rule(endpoint.fixed_status),
            multifunction_rule(&endpoint.at, endpoint.multifunction),
        ],
    )
}

/// Appends the problems of an endpoint, except those of the tables inside it.
fn push_own_endpoint_problems(
    problems: &mut Vec<Violation<'_>>,
    fault: BoardFault,
    index: usize,
    endpoint: &EndpointEntry<'_>,
) -> Result<(), AllocError>
    ensures { OnOk result (Adds (broken (Entry.Endpoint index) (endpoint_rules fault endpoint.now))
        problems.old.items problems.new.items) }
{
    let entry = Entry::Endpoint(index);
    match fault {
        BoardFault::Number => push_number_problems(problems, entry, endpoint),
        BoardFault::TooMany => {
            let slashes = has_at_most_15_slashes(&endpoint.at);
            push_broken_rules(problems, entry, &[(Rule::Slashes, slashes)])
        }
        BoardFault::Register => {
            let own = has_disjoint_bars_if_indices_valid(endpoint);
            push_broken_rules(problems, entry, &[(Rule::OwnRegisters, own)])
        }
        _ => Ok(()),
    }
}

/// Appends the problems of an endpoint's BARs.
fn push_bar_problems(
    alloc: Global,
    problems: &mut Vec<Violation<'_>>,
    fault: BoardFault,
    index: usize,
    endpoint: &EndpointEntry<'_>,
) -> Result<(), AllocError>
    ensures { OnOk result (Adds (of_bars fault index endpoint.now) problems.old.items
        problems.new.items) }
{
    let (part, bars) = (EndpointPart::Bar, &endpoint.bars);
    push_part_problems(alloc, problems, fault, part, index, endpoint, bars)
}

/// Appends the problems of an endpoint's own registers.
fn push_config_problems(
    alloc: Global,
    problems: &mut Vec<Violation<'_>>,
    fault: BoardFault,
    index: usize,
    endpoint: &EndpointEntry<'_>,
) -> Result<(), AllocError>
    ensures { OnOk result (Adds (of_configs fault index endpoint.now) problems.old.items
        problems.new.items) }
{
    let (part, configs) = (EndpointPart::Config, &endpoint.configs);
    push_part_problems(alloc, problems, fault, part, index, endpoint, configs)
}

/// Appends the problems of an endpoint's capability list.
fn push_capability_problems(
    alloc: Global,
    problems: &mut Vec<Violation<'_>>,
    fault: BoardFault,
    index: usize,
    endpoint: &EndpointEntry<'_>,
) -> Result<(), AllocError>
    ensures { OnOk result (Adds (of_capabilities fault index endpoint.now) problems.old.items
        problems.new.items) }
{
    let (part, capabilities) = (EndpointPart::Capability, &endpoint.capabilities);
    push_part_problems(alloc, problems, fault, part, index, endpoint, capabilities)
}

/// Appends the problems of an endpoint, and then those of the tables inside it.
fn push_endpoint_problems(
    alloc: Global,
    problems: &mut Vec<Violation<'_>>,
    fault: BoardFault,
    index: usize,
    endpoint: &EndpointEntry<'_>,
) -> Result<(), AllocError>
    ensures { OnOk result
        (Adds (of_endpoint fault (index, endpoint.now)) problems.old.items problems.new.items) }
{
    push_own_endpoint_problems(problems, fault, index, endpoint)?;
    push_bar_problems(alloc, problems, fault, index, endpoint)?;
    push_config_problems(alloc, problems, fault, index, endpoint)?;
    push_capability_problems(alloc, problems, fault, index, endpoint)
}

/// Appends the problems of all endpoints.
pub(crate) fn push_all_endpoint_problems(
    alloc: Global,
    problems: &mut Vec<Violation<'_>>,
    file: &FileEntries<'_>,
    fault: BoardFault,
) -> Result<(), AllocError>
    ensures { OnOk result
        (Adds (flat_map (of_endpoint fault) (enumerate_from 0 file.now.endpoints))
        problems.old.items problems.new.items) }
{
    'endpoints: for (index, endpoint) in file.endpoints.iter().enumerate() {
        push_endpoint_problems(alloc, problems, fault, index, endpoint)?;
    }
    Ok(())
}

/// Returns the values of an endpoint, with the given BARs and configuration blocks, and without a
/// capability list.
fn values_without_capabilities(
    entry: &EndpointEntry<'_>,
    bar: Vec<Region>,
    config: Vec<ConfigBlock>,
) -> EndpointValues
    requires { HasSmallNumbers entry.now }
    ensures { result
        ≡ record (said.plain_values entry.now) { regions = bar.items; blocks = config.items } }
{
    EndpointValues {
        vendor: magnitude_as_u16(entry.vendor),
        device: magnitude_as_u16(entry.device),
        revision: magnitude_as_u8(entry.revision),
        class: magnitude_as_u64(entry.class) as u32,
        subvendor: magnitude_as_u16(entry.subvendor),
        subsystem: magnitude_as_u16(entry.subsystem),
        pin: magnitude_as_u8(entry.pin),
        min_gnt: magnitude_as_u8(entry.min_gnt),
        max_lat: magnitude_as_u8(entry.max_lat),
        status: magnitude_as_u16(entry.status) | magnitude_as_u16(entry.fixed_status),
        multifunction: entry.multifunction,
        bar,
        config,
    }
}

/// Declares an endpoint. Returns `None` if the values break a rule.
fn declare_endpoint_if_valid(values: EndpointValues) -> Option<EndpointDecl>
    ensures { Gives (is_none (first_broken (declaration_rules values))) result (λ d.
        (d ≡ with_ordered_regions values) × IsLawfulEndpoint d) }
{
    match EndpointDecl::new(values) {
        Ok(decl) => Some(decl),
        Err(_) => None,
    }
}
