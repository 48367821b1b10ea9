//! Building lists of cells from register rows and blocks.
ghost use Rattle.std.specs.Prelude.{◌≡◌, ◌+◌, ◌≤◌, ◌++◌, OnOk, length, flat_map};
ghost use Rattle.lists.specs.Elements.{Each};
ghost use Rattle.model_registers.specs.{Registers.{config, cells_from}, EndpointTable.header_type};
ghost use Rattle.config_bytes.specs.CellFile.{file_of};
ghost use Rattle.headers.specs.Rows.{IsRow, row_cells};

use crate::config_register::ConfigRegister;
use config_bytes::Cell;
use std::alloc::AllocError;

/// Returns the Header Type register: the layout, and in bit 7 whether the device has more than one
/// function (PCI Local Bus 3.0, chapter 6.2.1).
pub(crate) fn header_type(layout: u8, multifunction: bool) -> u64
    ensures { result ≡ header_type layout multifunction }
{
    u64::from(layout) + if multifunction { 0x80 } else { 0 }
}

/// Appends the cells of a register, lowest byte first.
fn push_row(cells: &mut Vec<(u16, Cell)>, row: ConfigRegister) -> Result<(), AllocError>
    requires { IsRow row }
    ensures { OnOk result (file_of cells.new.items ≡ file_of cells.old.items ++ row_cells row) }
{
    let mut left = row;
    while left.width > 0 {
        cells.push((left.off, left.lowest_byte_cell()))?;
        left = left.without_lowest_byte();
    }
    Ok(())
}

/// Appends the cells of all registers.
pub(crate) fn push_rows(
    cells: &mut Vec<(u16, Cell)>,
    rows: &[ConfigRegister],
) -> Result<(), AllocError>
    requires { Each IsRow rows.now }
    ensures { OnOk result (file_of cells.new.items
        ≡ file_of cells.old.items ++ flat_map row_cells rows.now) }
{
    let mut left = rows;
    while let Some((row, rest)) = left.split_first() {
        push_row(cells, *row)?;
        left = rest;
    }
    Ok(())
}

/// Appends the cells of a block, starting at offset `off`.
pub(crate) fn push_block(
    cells: &mut Vec<(u16, Cell)>,
    off: u16,
    block: &[Cell],
) -> Result<(), AllocError>
    requires { off + length block.now ≤ 0x100 }
    ensures { OnOk result (file_of cells.new.items
        ≡ file_of cells.old.items ++ cells_from (config off) block.now) }
{
    let mut left = block;
    let mut at = off;
    while let Some((cell, rest)) = left.split_first() {
        cells.push((at, *cell))?;
        at += 1;
        left = rest;
    }
    Ok(())
}
