//! Device-specific registers in configuration space.
ghost use Rattle.std.specs.{Prelude.◌≡◌, List.{list_all, list_any}};
ghost use Rattle.lists.specs.Elements.{all_pairs};
ghost use Rattle.model_registers.specs.DeclarationRules.{is_read_only, is_capabilities_pointer, is_config_block, capabilities_list_bit, blocks_apart};

use config_bytes::Cell;
use std::marker::Model;

/// Consecutive register bytes from offset `off` on. In a valid declaration there is at least one,
/// and they lie within 40h to FFh. A block may also be the Capabilities Pointer: one read-only byte
/// at 34h (PCI Local Bus 3.0, chapter 6.7).
#[derive(Clone, Debug, Drop)]
pub struct ConfigBlock {
    pub off: u16,
    pub block: Vec<Cell>,
}

impl Model for ConfigBlock {
    ghost use Rattle.model_registers.specs.Declarations.{ConfigBlock};

    ghost Value = { ConfigBlock };

    ghost view = { λ b. record { offset = b.off; cells = b.block.items } };
}

fn are_read_only(cells: &[Cell]) -> bool
    ensures { result ≡ list_all is_read_only cells.now }
{
    cells.iter().all(|cell| cell.is_read_only())
}

impl ConfigBlock {
    fn is_capabilities_pointer(&self) -> bool
        ensures { result ≡ is_capabilities_pointer self.now }
    {
        self.off == 0x34 && self.block.len() == 1 && are_read_only(&self.block)
    }

    fn is_lawful(&self) -> bool
        ensures { result ≡ is_config_block self.now }
    {
        let off = usize::from(self.off);
        let len = self.block.len();
        (off >= 0x40 || self.is_capabilities_pointer()) && len > 0 && off + len <= 0x100
    }

    fn is_disjoint_from(&self, other: &ConfigBlock) -> bool
        ensures { result ≡ blocks_apart self.now other.now }
    {
        let off = usize::from(self.off);
        let other_off = usize::from(other.off);
        off + self.block.len() <= other_off || other_off + other.block.len() <= off
    }

    fn is_disjoint_from_all(&self, others: &[ConfigBlock]) -> bool
        ensures { result ≡ list_all (blocks_apart self.now) others.now }
    {
        others.iter().all(|other| self.is_disjoint_from(other))
    }
}

/// Returns whether each block is the Capabilities Pointer, or is nonempty and within 40h to FFh.
pub(crate) fn are_lawful(blocks: &[ConfigBlock]) -> bool
    ensures { result ≡ list_all is_config_block blocks.now }
{
    blocks.iter().all(|block| block.is_lawful())
}

fn have_capabilities_pointer(blocks: &[ConfigBlock]) -> bool
    ensures { result ≡ list_any is_capabilities_pointer blocks.now }
{
    blocks.iter().any(|block| block.is_capabilities_pointer())
}

/// Returns bit 4 of Status, which is set if one of the blocks is the Capabilities Pointer.
pub(crate) fn capabilities_list_bit(blocks: &[ConfigBlock]) -> u16
    ensures { result ≡ capabilities_list_bit blocks.now }
{
    if have_capabilities_pointer(blocks) {
        0x10
    } else {
        0
    }
}

/// Returns whether no two blocks overlap.
pub(crate) fn are_disjoint(blocks: &[ConfigBlock]) -> bool
    ensures { result ≡ all_pairs blocks_apart blocks.now }
{
    let mut left = blocks;
    while let Some((first, rest)) = left.split_first() {
        if !first.is_disjoint_from_all(rest) {
            return false;
        }
        left = rest;
    }
    true
}
