//! Declared regions of a function.
ghost use Rattle.std.specs.{Prelude.{◌≡◌, ◌*◌, nat_le, length, map}, List.list_all, Bool.OnTrue};
ghost use Rattle.model_registers.specs.{Declarations.{IsLawfulRegion, IsLawfulSize, HasLawfulRegions, registers_of}, EndpointTable.{base_cells, opened, closed}};
ghost use Rattle.lists.specs.Elements.{Each};
ghost use Rattle.bars.specs.{Kinds.kind_of, Resets.at_reset};
ghost use Rattle.headers.specs.Rows.{IsRow, row_cells};

use crate::config_register::ConfigRegister;
use crate::own_registers::UsesBars;
use bars::{BarDecl, Kind};
use config_bytes::Cell;
use std::marker::Model;

/// A region: its BAR index and declaration, and the bytes at its beginning. A 64-bit region uses
/// the registers `index` and `index + 1`.
#[derive(Clone, Debug, Drop)]
pub struct Region {
    pub index: u8,
    pub bar: BarDecl,
    pub block: Vec<Cell>,
}

impl Model for Region {
    ghost use Rattle.model_registers.specs.Declarations.{Region};

    ghost Value = { Region };

    ghost view = { λ r.
        record { index = r.index; kind = r.bar.kind; size = r.bar.size; cells = r.block.items } };
}

impl UsesBars for Region {
    ghost region = { λ r. r };

    fn index(&self) -> u64 {
        u64::from(self.index)
    }

    fn kind(&self) -> Kind {
        self.bar.kind()
    }
}

/// Returns the size of a BAR of this kind in bytes.
pub fn bar_width_in_bytes(kind: Kind) -> u8
    ensures { result ≡ 4 * registers_of (kind_of kind) }
{
    match kind {
        Kind::Io | Kind::Mem32 { pref: _ } => 4,
        Kind::Mem64 { pref: _ } => 8,
    }
}

impl Region {
    /// Returns the BAR of the region as a register row.
    pub fn bar_register_row(&self) -> ConfigRegister
        requires { IsLawfulRegion self.now }
        ensures cells { row_cells result
            ≡ base_cells self.now.index self.now.kind self.now.size 0 }
        ensures row { IsRow result }
    {
        let kind = self.bar.kind();
        let off = 0x10 + 4 * u16::from(self.index);
        let writable = kind.bar_width_mask() - (self.bar.size() - 1);
        ConfigRegister::new(
            off,
            bar_width_in_bytes(kind),
            u64::from(kind.type_bits()),
            writable,
            0,
        )
    }

    fn block_fits(&self) -> bool
        ensures value { result ≡ nat_le (length self.now.cells) self.now.size }
        ensures size { IsLawfulSize self.now.kind self.now.size }
    {
        self.block.len() as u64 <= self.bar.size()
    }
}

/// Returns whether no block has more than 4096 cells.
pub(crate) fn blocks_are_within_limit(regions: &[Region]) -> bool
    ensures { result ≡ list_all (λ r. nat_le (length r.cells) 4096) regions.now }
{
    regions.iter().all(|region| region.block.len() <= 4096)
}

/// Returns whether each block fits its region.
pub(crate) fn each_block_fits_its_region(regions: &[Region]) -> bool
    ensures value { result ≡ list_all (λ r. nat_le (length r.cells) r.size) regions.now }
    ensures sizes { OnTrue result (Each (λ r. IsLawfulSize r.kind r.size) regions.now) }
{
    let mut left = regions;
    while let Some((first, rest)) = left.split_first() {
        if !first.block_fits() {
            return false;
        }
        left = rest;
    }
    true
}

/// Returns the declared BARs by index.
pub(crate) fn bar_decls_by_index(regions: &[Region]) -> [Option<BarDecl>; 6]
    requires { HasLawfulRegions regions.now }
    ensures bases { at_reset result ≡ map closed regions.now }
    ensures lawful { HasLawfulRegions (map opened (at_reset result)) }
{
    let mut bars = [None; 6];
    for region in regions {
        bars[usize::from(region.index)] = Some(region.bar);
    }
    bars
}
