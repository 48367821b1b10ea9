//! The `capability` tables of an endpoint: the structures of its capability list.
ghost use Rattle.std.specs.Prelude.{◌≡◌, ◌%◌, ◌==◌, ◌&&◌, ◌<◌, ◌^◌, nat_abs, IfOk};
ghost use Rattle.board_file.specs.{Capabilities.{capability, capability_extent, capability_rules, capability_holds, declared_capability, is_capability}, Blocks.Gives, Rules.is_between};
ghost use Rattle.board_file.specs.Capabilities as said;

use crate::document::reading::{FromTable, integer_or_zero};
use crate::entries::{ConfigEntry, EndpointEntry};
use crate::entry::Entry;
use crate::fault::BoardFault;
use crate::finding::{Violation, push_broken_rules};
use crate::functions::blocks::{
    ByteRange, HasExtent, are_patterns_valid, build_block_if_valid, overlaps_none,
    overlaps_none_of_first,
};
use crate::functions::numbers::{ends_at_or_before, is_between, magnitude_as_u8, magnitude_as_u64};
use crate::functions::part::PartEntry;
use crate::rule::Rule;
use headers::Capability;
use std::alloc::{AllocError, Global};
use std::marker::Model;
use toml::Table;

/// A `capability` table: a structure of a capability list. Its offset is that of its header, and
/// its block follows the two bytes of the header.
#[derive(Drop)]
pub struct CapabilityEntry<'a> {
    pub id: i64,
    pub config: ConfigEntry<'a>,
}

impl<'a> Model for CapabilityEntry<'a> {
    ghost Value = { said.Capability };

    ghost view = { λ c. record { id = c.id; config = c.config } };
}

impl<'a> FromTable<'a> for CapabilityEntry<'a> {
    ghost said = { capability };

    fn from_table(alloc: Global, table: &'a Table) -> Result<Self, AllocError> {
        Ok(CapabilityEntry {
            id: integer_or_zero(table, "id"),
            config: ConfigEntry::from_table(alloc, table)?,
        })
    }
}

impl<'a> HasExtent for CapabilityEntry<'a> {
    ghost extent_of = { capability_extent };

    /// Returns the range of the structure, with its header of two bytes.
    fn extent(&self) -> ByteRange {
        ByteRange {
            off: magnitude_as_u64(self.config.off),
            len: 2 + magnitude_as_u64(self.config.block),
        }
    }
}

/// Returns whether a structure of a capability list may begin at this offset.
fn is_valid_capability_offset(off: i64) -> bool
    ensures { result ≡ (is_between 0x40 0xfc off && (nat_abs off % 4 == 0)) }
{
    is_between(0x40, 0xfc, off) && off.unsigned_abs() % 4 == 0
}

impl<'a> PartEntry for CapabilityEntry<'a> {
    type Declared = Capability;

    ghost rules = { λ fault e. capability_rules fault e.configs e.capabilities };

    ghost is_declarable = { is_capability };

    ghost holds = { capability_holds };

    ghost declaration = { declared_capability };

    fn push_problems(
        &self,
        alloc: Global,
        problems: &mut Vec<Violation<'_>>,
        fault: BoardFault,
        endpoint: &EndpointEntry<'_>,
        index: usize,
        entry: Entry,
    ) -> Result<(), AllocError> {
        let config = &self.config;
        match fault {
            BoardFault::Number => push_broken_rules(
                problems,
                entry,
                &[
                    (Rule::CapabilityId, is_between(1, 0xff, self.id)),
                    (Rule::CapabilityOff, is_valid_capability_offset(config.off)),
                    (Rule::CapabilityBlock, is_between(1, 190, config.block)),
                    // (the header has two bytes)
                    (
                        Rule::ConfigEnd,
                        ends_at_or_before(254, config.off, config.block),
                    ),
                ],
            ),
            BoardFault::CellMasks => {
                let masks = are_patterns_valid(alloc, config.block, &config.patterns)?;
                let own = overlaps_none(&endpoint.configs, self.extent())
                    && overlaps_none_of_first(&endpoint.capabilities, index, self.extent());
                push_broken_rules(
                    problems,
                    entry,
                    &[(Rule::ConfigMasks, masks), (Rule::OwnOffsets, own)],
                )
            }
            _ => Ok(()),
        }
    }

    fn declare_if_masks_hold(&self, alloc: Global) -> Result<Option<Capability>, AllocError> {
        declare_capability_if_masks_hold(alloc, self)
    }
}

/// Builds the structure of a table. Returns `None` if a pattern isn't valid.
fn declare_capability_if_masks_hold(
    alloc: Global,
    table: &CapabilityEntry<'_>,
) -> Result<Option<Capability>, AllocError>
    requires id { nat_abs table.now.id < 2 ^ 8 }
    requires off { nat_abs table.now.config.off < 2 ^ 8 }
    ensures { IfOk result (λ found.
        Gives (capability_holds table.now) found (λ d. d ≡ declared_capability table.now)) }
{
    let config = &table.config;
    match build_block_if_valid(
        alloc,
        magnitude_as_u64(config.block) as usize,
        &config.patterns,
    )? {
        Some(block) => Ok(Some(Capability {
            id: magnitude_as_u8(table.id),
            off: magnitude_as_u8(config.off),
            block,
        })),
        None => Ok(None),
    }
}
