//! The `bridge` tables of a board file.
ghost use Rattle.std.specs.{Prelude.{◌≡◌, ◌<◌, ◌^◌, nat_abs, IsTrue, OnOk, flat_map}, List.enumerate_from};
ghost use Rattle.model_registers.specs.DeclarationRules.{IsLawfulBridge};
ghost use Rattle.headers.specs.Decodes.{io_decode_of, pref_decode_of};
ghost use Rattle.board_file.specs.{Entries.bridge, Functions.{bridge as declared_bridge}, Rules.has_only_fixed_bits, Problems.{Adds, of_bridge}};
ghost use Rattle.board_file.specs.Entries as said;

use crate::document::keys::RegisterKey;
use crate::document::keywords::{parse_io_decode, parse_pref_decode};
use crate::document::reading::{FromTable, boolean_or_true, integer_or_zero, text_or_empty};
use crate::entries::FileEntries;
use crate::entry::Entry;
use crate::fault::BoardFault;
use crate::finding::{Violation, push_broken_rules};
use crate::functions::numbers::{
    fits_byte_rule, fits_half_word_rule, fixed_status_rule, has_at_most_15_slashes,
    has_only_fixed_bits, is_between, magnitude_as_u8, magnitude_as_u16, multifunction_rule,
};
use crate::path::text::PathText;
use crate::rule::Rule;
use headers::{BridgeDecl, IoDecode, PrefDecode};
use std::alloc::{AllocError, Global};
use std::marker::Model;
use toml::Table;

/// A `bridge` table.
#[derive(Drop)]
pub struct BridgeEntry<'a> {
    pub at: PathText<'a>,
    pub vendor: i64,
    pub device: i64,
    pub revision: i64,
    pub fixed_status: i64,
    pub fixed_secondary_status: i64,
    pub multifunction: bool,
    pub io: IoDecode,
    pub pref: PrefDecode,
}

impl<'a> Model for BridgeEntry<'a> {
    ghost Value = { said.Bridge };

    ghost view = { λ b. record {
      at = b.at;
      vendor = b.vendor;
      device = b.device;
      revision = b.revision;
      fixed_status = b.fixed_status;
      fixed_secondary_status = b.fixed_secondary_status;
      multifunction = b.multifunction;
      io = io_decode_of b.io;
      pref = pref_decode_of b.pref;
    } };
}

impl<'a> FromTable<'a> for BridgeEntry<'a> {
    ghost said = { bridge };

    fn from_table(_alloc: Global, table: &'a Table) -> Result<Self, AllocError> {
        Ok(BridgeEntry {
            at: PathText::new(text_or_empty(table, "at")),
            vendor: integer_or_zero(table, "vendor"),
            device: integer_or_zero(table, "device"),
            revision: integer_or_zero(table, "revision"),
            fixed_status: integer_or_zero(table, "fixed_status"),
            fixed_secondary_status: integer_or_zero(table, "fixed_secondary_status"),
            multifunction: boolean_or_true(table, "multifunction"),
            io: parse_io_decode(text_or_empty(table, "io")).unwrap_or(IoDecode::Unimplemented),
            pref: parse_pref_decode(text_or_empty(table, "pref")).unwrap_or(
                PrefDecode::Unimplemented,
            ),
        })
    }
}

impl<'a> BridgeEntry<'a> {
    /// Builds the declaration.
    pub(crate) fn declare(&self) -> BridgeDecl
        requires vendor { nat_abs self.now.vendor < 0xffff }
        requires device { nat_abs self.now.device < 2 ^ 16 }
        requires revision { nat_abs self.now.revision < 2 ^ 8 }
        requires status { IsTrue (has_only_fixed_bits self.now.fixed_status) }
        requires secondary_status { IsTrue (has_only_fixed_bits self.now.fixed_secondary_status) }
        ensures value { result ≡ declared_bridge self.now }
        ensures lawful { IsLawfulBridge result }
    {
        BridgeDecl::new(
            magnitude_as_u16(self.vendor),
            magnitude_as_u16(self.device),
            magnitude_as_u8(self.revision),
            self.io,
            self.pref,
        )
        .unwrap()
        .with_fixed_status(
            magnitude_as_u16(self.fixed_status),
            magnitude_as_u16(self.fixed_secondary_status),
        )
        .unwrap()
        .with_multifunction(self.multifunction)
    }
}

/// Appends the problems of a bridge.
fn push_bridge_problems(
    problems: &mut Vec<Violation<'_>>,
    fault: BoardFault,
    index: usize,
    bridge: &BridgeEntry<'_>,
) -> Result<(), AllocError>
    ensures { OnOk result
        (Adds (of_bridge fault (index, bridge.now)) problems.old.items problems.new.items) }
{
    let entry = Entry::Bridge(index);
    match fault {
        BoardFault::Number => push_broken_rules(
            problems,
            entry,
            &[
                (Rule::Vendor, is_between(0, 0xfffe, bridge.vendor)),
                fits_half_word_rule(RegisterKey::Device, bridge.device),
                fits_byte_rule(RegisterKey::Revision, bridge.revision),
                fixed_status_rule(bridge.fixed_status),
                (
                    Rule::FixedSecondaryStatus,
                    has_only_fixed_bits(bridge.fixed_secondary_status),
                ),
                multifunction_rule(&bridge.at, bridge.multifunction),
            ],
        ),
        BoardFault::TooMany => {
            let slashes = has_at_most_15_slashes(&bridge.at);
            push_broken_rules(problems, entry, &[(Rule::Slashes, slashes)])
        }
        _ => Ok(()),
    }
}

/// Appends the problems of all bridges.
pub(crate) fn push_all_bridge_problems(
    problems: &mut Vec<Violation<'_>>,
    file: &FileEntries<'_>,
    fault: BoardFault,
) -> Result<(), AllocError>
    ensures { OnOk result
        (Adds (flat_map (of_bridge fault) (enumerate_from 0 file.now.bridges))
        problems.old.items problems.new.items) }
{
    'bridges: for (index, bridge) in file.bridges.iter().enumerate() {
        push_bridge_problems(problems, fault, index, bridge)?;
    }
    Ok(())
}
