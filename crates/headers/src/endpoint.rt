//! Endpoints, which have type 0 headers (PCI Local Bus 3.0, chapter 6.1).
ghost use Rattle.std.specs.Prelude.{◌≡◌, ◌++◌, IfOk, OnOk, flat_map};
ghost use Rattle.lists.specs.Elements.{Each};
ghost use Rattle.model_registers.specs.{DeclarationRules.IsConfigBlock, EndpointTable.{block_cells, header_cells, config_reset}};
ghost use Rattle.config_bytes.specs.CellFile.{file_of};
ghost use Rattle.headers.specs.Rows.{IsRow, row_cells};

use crate::config_block::ConfigBlock;
use crate::config_register::ConfigRegister;
use crate::endpoint_decl::EndpointDecl;
use crate::registers::Command;
use crate::table::{header_type, push_block, push_rows};
use config_bytes::{Cell, Cells};
use std::alloc::{AllocError, Global};

/// The registers of an endpoint.
pub struct Endpoint;

/// Appends the cells of the device-specific registers.
fn push_blocks(cells: &mut Vec<(u16, Cell)>, blocks: &[ConfigBlock]) -> Result<(), AllocError>
    requires { Each IsConfigBlock blocks.now }
    ensures { OnOk result (file_of cells.new.items
        ≡ file_of cells.old.items ++ flat_map block_cells blocks.now) }
{
    let mut left = blocks;
    while let Some((first, rest)) = left.split_first() {
        push_block(cells, first.off, &first.block)?;
        left = rest;
    }
    Ok(())
}

/// Returns the header registers of an endpoint, without its BARs.
pub fn endpoint_rows_without_bars(decl: &EndpointDecl, multifunction: bool) -> [ConfigRegister; 14]
    ensures cells { flat_map row_cells result ≡ header_cells decl.now multifunction 0 }
    ensures rows { Each IsRow result }
{
    let values = decl.values();
    [
        ConfigRegister::new(0x00, 2, u64::from(values.vendor), 0, 0),
        ConfigRegister::new(0x02, 2, u64::from(values.device), 0, 0),
        ConfigRegister::new(0x04, 2, 0, u64::from(Command::writable_in_endpoint().0), 0),
        ConfigRegister::new(0x06, 2, u64::from(values.status), 0, 0xf900),
        ConfigRegister::new(0x08, 1, u64::from(values.revision), 0, 0),
        ConfigRegister::new(0x09, 3, u64::from(values.class), 0, 0),
        ConfigRegister::new(0x0c, 2, 0, 0xffff, 0),
        ConfigRegister::new(0x0e, 1, header_type(0, multifunction), 0, 0),
        ConfigRegister::new(0x2c, 2, u64::from(values.subvendor), 0, 0),
        ConfigRegister::new(0x2e, 2, u64::from(values.subsystem), 0, 0),
        ConfigRegister::new(0x3c, 1, 0, 0xff, 0),
        ConfigRegister::new(0x3d, 1, u64::from(values.pin), 0, 0),
        ConfigRegister::new(0x3e, 1, u64::from(values.min_gnt), 0, 0),
        ConfigRegister::new(0x3f, 1, u64::from(values.max_lat), 0, 0),
    ]
}

impl Endpoint {
    /// Creates the register file of an endpoint at reset, without its BARs. `multifunction` is set
    /// if its device has two or more functions. Fails if memory is exhausted.
    pub fn cells(
        alloc: Global,
        decl: &EndpointDecl,
        multifunction: bool,
    ) -> Result<Cells, AllocError>
        ensures { IfOk result (λ f.
            f ≡ record {
              now = config_reset decl.now multifunction;
              initial = config_reset decl.now multifunction;
            }) }
    {
        let mut cells = Vec::with_capacity(alloc, 64)?;
        push_rows(&mut cells, &endpoint_rows_without_bars(decl, multifunction))?;
        push_blocks(&mut cells, &decl.values().config)?;
        Cells::new(alloc, &cells)
    }
}
