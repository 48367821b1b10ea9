//! Capability lists (PCI Local Bus 3.0, chapter 6.7).
ghost use Rattle.std.specs.Prelude.{◌≡◌, ◌++◌, IfOk, OnOk};
ghost use Rattle.model_registers.specs.Capabilities.{first_offset_or_zero, structure, structures, pointer, with_capabilities, value_at_or_zero, is_pointed_to, as_listed_capability, capabilities_linked_forward, capabilities_if_pointer_first, listed};

use crate::config_block::ConfigBlock;
use crate::endpoint_decl::{EndpointDecl, EndpointValues};
use config_bytes::Cell;
use std::alloc::{AllocError, Global};
use std::marker::Model;

/// A structure of a capability list: its Capability ID, its offset, and the bytes after its header,
/// which has two bytes.
#[derive(Debug, Drop)]
pub struct Capability {
    pub id: u8,
    pub off: u8,
    pub block: Vec<Cell>,
}

impl Model for Capability {
    ghost use Rattle.model_registers.specs.Capabilities.{Capability};

    ghost Value = { Capability };

    ghost view = { λ c. record { id = c.id; offset = c.off; cells = c.block.items } };
}

/// Returns the offset of the first structure, or 0 if there is none.
fn first_offset_or_zero(list: &[Capability]) -> u8
    ensures { result ≡ first_offset_or_zero list.now }
{
    match list.split_first() {
        Some((first, _)) => first.off,
        None => 0,
    }
}

/// Returns the registers of a structure that is followed by one at offset `next`, or by none if
/// that is 0.
fn capability_block(
    alloc: Global,
    capability: &Capability,
    next: u8,
) -> Result<ConfigBlock, AllocError>
    ensures { IfOk result (λ b. b ≡ structure capability.now next) }
{
    let mut block = Vec::new(alloc);
    block.push(Cell::fixed(capability.id))?;
    block.push(Cell::fixed(next))?;
    block.extend_from_slice(&capability.block)?;
    Ok(ConfigBlock {
        off: u16::from(capability.off),
        block,
    })
}

/// Appends the registers of all structures of a list.
fn push_capability_blocks(
    alloc: Global,
    blocks: &mut Vec<ConfigBlock>,
    list: &[Capability],
) -> Result<(), AllocError>
    ensures { OnOk result (blocks.new.items ≡ blocks.old.items ++ structures list.now) }
{
    let mut left = list;
    while let Some((first, rest)) = left.split_first() {
        let block = capability_block(alloc, first, first_offset_or_zero(rest))?;
        blocks.push(block)?;
        left = rest;
    }
    Ok(())
}

/// Returns the Capabilities Pointer of a list.
fn pointer_block(alloc: Global, list: &[Capability]) -> Result<ConfigBlock, AllocError>
    ensures { IfOk result (λ b. b ≡ pointer list.now) }
{
    let mut block = Vec::new(alloc);
    block.push(Cell::fixed(first_offset_or_zero(list)))?;
    Ok(ConfigBlock { off: 0x34, block })
}

impl EndpointValues {
    /// Adds a capability list to the values of an endpoint that has none: the Capabilities Pointer,
    /// the structures in this order, and bit 4 of Status. An empty list changes nothing. Fails if
    /// memory is exhausted.
    pub fn with_capabilities(
        self,
        alloc: Global,
        list: &[Capability],
    ) -> Result<EndpointValues, AllocError>
        ensures { IfOk result (λ v. v ≡ with_capabilities list.now self) }
    {
        if list.is_empty() {
            return Ok(self);
        }
        let mut values = self;
        let mut blocks = Vec::new(alloc);
        blocks.push(pointer_block(alloc, list)?)?;
        push_capability_blocks(alloc, &mut blocks, list)?;
        blocks.append(&mut values.config)?;
        values.config = blocks;
        values.status |= 0x10;
        Ok(values)
    }
}

/// A structure of a declared capability list: its Capability ID, its offset, and its size, which
/// includes the two bytes of its header.
#[derive(Debug, Drop)]
pub struct ListedCapability {
    pub id: u8,
    pub off: u16,
    pub size: usize,
}

impl Model for ListedCapability {
    ghost use Rattle.model_registers.specs.Capabilities.{Listed};

    ghost Value = { Listed };

    ghost view = { λ c. record { id = c.id; offset = c.off; size = c.size } };
}

/// Returns the reset value of the byte at an index of a block, or 0 if the block is shorter.
fn value_at_or_zero(block: &ConfigBlock, index: usize) -> u8
    ensures { result ≡ value_at_or_zero index block.now }
{
    block.block.get(index).map_or(0, |cell| cell.value())
}

/// Returns whether a pointer with the value `at` points to the block. The value 0 ends a list.
fn is_pointed_to(at: u8, block: &ConfigBlock) -> bool
    ensures { result ≡ is_pointed_to at block.now }
{
    at != 0 && block.off == u16::from(at)
}

/// Returns a block as a structure of a list.
fn as_listed_capability(block: &ConfigBlock) -> ListedCapability
    ensures { result ≡ as_listed_capability block.now }
{
    ListedCapability {
        id: value_at_or_zero(block, 0),
        off: block.off,
        size: block.block.len(),
    }
}

/// Returns the structures among these blocks that a pointer with the value `first` leads to.
fn capabilities_linked_forward(
    alloc: Global,
    first: u8,
    blocks: &[ConfigBlock],
) -> Result<Vec<ListedCapability>, AllocError>
    ensures { IfOk result (λ v. v.items ≡ capabilities_linked_forward first blocks.now) }
{
    let mut found = Vec::new(alloc);
    let mut at = first;
    let mut left = blocks;
    while let Some((block, rest)) = left.split_first() {
        if is_pointed_to(at, block) {
            found.push(as_listed_capability(block))?;
            at = value_at_or_zero(block, 1);
        }
        left = rest;
    }
    Ok(found)
}

/// Returns the structures that the Capabilities Pointer leads to, if the first block is that
/// register.
fn capabilities_if_pointer_first(
    alloc: Global,
    blocks: &[ConfigBlock],
) -> Result<Vec<ListedCapability>, AllocError>
    ensures { IfOk result (λ v. v.items ≡ capabilities_if_pointer_first blocks.now) }
{
    match blocks.split_first() {
        Some((first, rest)) => {
            if first.off == 0x34 {
                capabilities_linked_forward(alloc, value_at_or_zero(first, 0), rest)
            } else {
                Ok(Vec::new(alloc))
            }
        }
        None => Ok(Vec::new(alloc)),
    }
}

impl EndpointDecl {
    /// Returns the structures of the endpoint's capability list, in the order of the list. Returns
    /// none if Status has no list. Fails if memory is exhausted.
    pub fn capabilities(&self, alloc: Global) -> Result<Vec<ListedCapability>, AllocError>
        ensures { IfOk result (λ v. v.items ≡ listed self.now) }
    {
        let values = self.values();
        if values.status & 0x10 == 0 {
            return Ok(Vec::new(alloc));
        }
        capabilities_if_pointer_first(alloc, &values.config)
    }
}
