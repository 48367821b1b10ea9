//! The `bar` tables of an endpoint: its BARs.
ghost use Rattle.std.specs.Prelude.{◌≡◌, nat_abs, IsTrue};
ghost use Rattle.bars.specs.Kinds.{kind_of};
ghost use Rattle.board_file.specs.{Bars.{bar, bar_rules, bar_holds, is_region, region}, Rules.{is_between, is_valid_bar_size}};
ghost use Rattle.board_file.specs.Bars as said;

use crate::document::keywords::parse_region_kind;
use crate::document::reading::{FromTable, integer_or_zero, read_register_patterns, text_or_empty};
use crate::entries::EndpointEntry;
use crate::entry::Entry;
use crate::fault::BoardFault;
use crate::finding::{Violation, push_broken_rules};
use crate::functions::blocks::{PatternTexts, are_patterns_valid, build_block_if_valid};
use crate::functions::numbers::{is_between, magnitude_as_u8, magnitude_as_u64};
use crate::functions::part::PartEntry;
use crate::rule::Rule;
use bars::{BarDecl, Kind};
use headers::{Region, UsesBars};
use std::alloc::{AllocError, Global};
use std::marker::Model;
use toml::Table;

/// A `bar` table: a BAR of an endpoint.
#[derive(Drop)]
pub struct BarEntry<'a> {
    pub index: i64,
    pub kind: Kind,
    pub size: i64,
    pub block: i64,
    pub patterns: PatternTexts<'a>,
}

impl<'a> Model for BarEntry<'a> {
    ghost Value = { said.Bar };

    ghost view = { λ b. record {
      index = b.index;
      kind = kind_of b.kind;
      size = b.size;
      block = b.block;
      patterns = b.patterns;
    } };
}

impl<'a> FromTable<'a> for BarEntry<'a> {
    ghost said = { bar };

    fn from_table(_alloc: Global, table: &'a Table) -> Result<Self, AllocError> {
        Ok(BarEntry {
            index: integer_or_zero(table, "index"),
            kind: parse_region_kind(text_or_empty(table, "kind")).unwrap_or(Kind::Io),
            size: integer_or_zero(table, "size"),
            block: integer_or_zero(table, "block"),
            patterns: read_register_patterns(table),
        })
    }
}

impl<'a> UsesBars for BarEntry<'a> {
    ghost region = { region };

    fn index(&self) -> u64 {
        self.index.unsigned_abs()
    }

    fn kind(&self) -> Kind {
        self.kind
    }
}

/// Returns whether the index of a BAR is 0 to 5.
pub(crate) fn has_valid_index(bar: &BarEntry<'_>) -> bool
    ensures { result ≡ is_between 0 5 bar.now.index }
{
    0 <= bar.index && bar.index <= 5
}

/// Returns whether a BAR of this kind can have this size: a power of two within the limits of the
/// kind.
fn is_valid_bar_size(kind: Kind, size: i64) -> bool
    ensures { result ≡ is_valid_bar_size (kind_of kind) size }
{
    0 <= size && BarDecl::new(kind, size.unsigned_abs()).is_ok()
}

/// Declares a BAR whose size was checked.
fn bar_decl(kind: Kind, size: i64) -> BarDecl
    requires { IsTrue (is_valid_bar_size (kind_of kind) size) }
    ensures { result ≡ record { kind = kind_of kind; size = nat_abs size } }
{
    BarDecl::new(kind, magnitude_as_u64(size)).unwrap()
}

impl<'a> PartEntry for BarEntry<'a> {
    type Declared = Region;

    ghost rules = { λ fault e. bar_rules fault };

    ghost is_declarable = { is_region };

    ghost holds = { bar_holds };

    ghost declaration = { region };

    fn push_problems(
        &self,
        alloc: Global,
        problems: &mut Vec<Violation<'_>>,
        fault: BoardFault,
        _endpoint: &EndpointEntry<'_>,
        _index: usize,
        entry: Entry,
    ) -> Result<(), AllocError> {
        match fault {
            BoardFault::Number => {
                let block = is_between(0, 4096, self.block);
                push_broken_rules(problems, entry, &[(Rule::BarBlock, block)])
            }
            BoardFault::Register => push_broken_rules(
                problems,
                entry,
                &[(Rule::Index, has_valid_index(self))],
            ),
            BoardFault::Size => push_broken_rules(
                problems,
                entry,
                &[
                    (Rule::Size, is_valid_bar_size(self.kind, self.size)),
                    (Rule::BlockFits, self.block <= self.size),
                ],
            ),
            BoardFault::CellMasks => {
                let masks = are_patterns_valid(alloc, self.block, &self.patterns)?;
                push_broken_rules(problems, entry, &[(Rule::BarMasks, masks)])
            }
            _ => Ok(()),
        }
    }

    fn declare_if_masks_hold(&self, alloc: Global) -> Result<Option<Region>, AllocError> {
        match build_block_if_valid(alloc, magnitude_as_u64(self.block) as usize, &self.patterns)? {
            Some(block) => Ok(Some(Region {
                index: magnitude_as_u8(self.index),
                bar: bar_decl(self.kind, self.size),
                block,
            })),
            None => Ok(None),
        }
    }
}
