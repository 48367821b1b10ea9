//! The `config` tables of an endpoint: blocks of device-specific configuration registers.
ghost use Rattle.board_file.specs.Configs.{config, config_extent, config_rules, config_holds, config_block, is_config_block};
ghost use Rattle.board_file.specs.Configs as said;

use crate::document::reading::{FromTable, integer_or_zero, read_register_patterns};
use crate::entries::EndpointEntry;
use crate::entry::Entry;
use crate::fault::BoardFault;
use crate::finding::{Violation, push_broken_rules};
use crate::functions::blocks::{
    ByteRange, HasExtent, PatternTexts, are_patterns_valid, build_block_if_valid,
    overlaps_none_of_first,
};
use crate::functions::numbers::{
    ends_at_or_before, is_between, magnitude_as_u16, magnitude_as_u64,
};
use crate::functions::part::PartEntry;
use crate::rule::Rule;
use headers::ConfigBlock;
use std::alloc::{AllocError, Global};
use std::marker::Model;
use toml::Table;

/// A `config` table: a block of device-specific configuration registers.
#[derive(Drop)]
pub struct ConfigEntry<'a> {
    pub off: i64,
    pub block: i64,
    pub patterns: PatternTexts<'a>,
}

impl<'a> Model for ConfigEntry<'a> {
    ghost Value = { said.Config };

    ghost view = { λ c. record { off = c.off; block = c.block; patterns = c.patterns } };
}

impl<'a> FromTable<'a> for ConfigEntry<'a> {
    ghost said = { config };

    fn from_table(_alloc: Global, table: &'a Table) -> Result<Self, AllocError> {
        Ok(ConfigEntry {
            off: integer_or_zero(table, "off"),
            block: integer_or_zero(table, "block"),
            patterns: read_register_patterns(table),
        })
    }
}

impl<'a> HasExtent for ConfigEntry<'a> {
    ghost extent_of = { config_extent };

    fn extent(&self) -> ByteRange {
        ByteRange {
            off: magnitude_as_u64(self.off),
            len: magnitude_as_u64(self.block),
        }
    }
}

impl<'a> PartEntry for ConfigEntry<'a> {
    type Declared = ConfigBlock;

    ghost rules = { λ fault e. config_rules fault e.configs };

    ghost is_declarable = { is_config_block };

    ghost holds = { config_holds };

    ghost declaration = { config_block };

    fn push_problems(
        &self,
        alloc: Global,
        problems: &mut Vec<Violation<'_>>,
        fault: BoardFault,
        endpoint: &EndpointEntry<'_>,
        index: usize,
        entry: Entry,
    ) -> Result<(), AllocError> {
        match fault {
            BoardFault::Number => push_broken_rules(
                problems,
                entry,
                &[
                    (Rule::ConfigOff, is_between(0x40, 0xff, self.off)),
                    (Rule::ConfigBlock, is_between(1, 192, self.block)),
                    (
                        Rule::ConfigEnd,
                        ends_at_or_before(256, self.off, self.block),
                    ),
                ],
            ),
            BoardFault::CellMasks => {
                let masks = are_patterns_valid(alloc, self.block, &self.patterns)?;
                let own = overlaps_none_of_first(&endpoint.configs, index, self.extent());
                push_broken_rules(
                    problems,
                    entry,
                    &[(Rule::ConfigMasks, masks), (Rule::OwnOffsets, own)],
                )
            }
            _ => Ok(()),
        }
    }

    fn declare_if_masks_hold(&self, alloc: Global) -> Result<Option<ConfigBlock>, AllocError> {
        match build_block_if_valid(alloc, magnitude_as_u64(self.block) as usize, &self.patterns)? {
            Some(block) => Ok(Some(ConfigBlock {
                off: magnitude_as_u16(self.off),
                block,
            })),
            None => Ok(None),
        }
    }
}
