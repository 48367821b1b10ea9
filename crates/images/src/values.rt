//! Validation of saved register values against a declaration.
ghost use Rattle.std.specs.Prelude.{◌≡◌, ◌%◌, ◌<◌, ◌≤◌, Ok, Err, IfErr, IfOk, false, drop, flat_map, length};
ghost use Rattle.lists.specs.Elements.{Each};
ghost use Rattle.model_registers.specs.{DeclarationRules.IsConfigBlock, Declarations.IsLawfulRegion, EndpointTable.{block_cells, endpoint_reset, region_cells}, Registers.config};
ghost use Rattle.model_images.specs.{Images.can_hold, LoadedBytes.after_values};
ghost use Rattle.headers.specs.Rows.{IsRow, row_cells};
ghost use Rattle.images.specs.Faults.{number_of};

use crate::fault::ImageFault;
use headers::{ConfigBlock, ConfigRegister, EndpointDecl, Region, endpoint_rows_without_bars};

/// Returns whether the lowest byte of a register can hold a value. Status and device-specific
/// registers can hold any; elsewhere bits outside the masks must be as declared.
fn low_byte_can_hold(row: &ConfigRegister, byte: u8) -> bool
    ensures { result ≡ can_hold (record {
      place = config row.now.off;
      cell = record {
        value = row.now.value % 256;
        writable = row.now.writable % 256;
        clearable = row.now.clearable % 256;
      };
    }) byte }
{
    let off = row.off;
    let value = (row.value % 256) as u8;
    let writable = (row.writable % 256) as u8;
    let clearable = (row.clearable % 256) as u8;
    let is_device = off == 6 || off == 7 || off == 0x34 || off >= 0x40;
    is_device || byte & !writable & !clearable == value & !writable & !clearable
}

/// Checks the saved value of each byte of a register, and returns the bytes after them.
fn strip_fitting_values_of_row(row: ConfigRegister, bytes: &[u8]) -> Result<&[u8], ImageFault>
    requires { IsRow row }
    ensures left { IfOk result (λ rest. after_values (row_cells row) bytes.now ≡ Ok rest.now) }
    ensures refused { IfErr result (λ why.
        after_values (row_cells row) bytes.now ≡ Err (number_of why)) }
{
    let mut left = row;
    let mut tail = bytes;
    while left.width > 0 {
        let Some((byte, rest)) = tail.split_first() else {
            return Err(ImageFault::NoImage);
        };
        if !low_byte_can_hold(&left, *byte) {
            return Err(ImageFault::NoImage);
        }
        left = left.without_lowest_byte();
        tail = rest;
    }
    Ok(tail)
}

/// Returns the bytes after the first `count`, whatever the values of these are.
fn skip_bytes(count: usize, bytes: &[u8]) -> Result<&[u8], ImageFault>
    ensures room { IfOk result (λ _. count ≤ length bytes.now) }
    ensures left { IfOk result (λ rest. rest.now ≡ drop count bytes.now) }
    ensures missing { IfErr result (λ why. (number_of why ≡ 905) × (length bytes.now < count)) }
{
    if bytes.len() < count {
        return Err(ImageFault::NoImage);
    }
    Ok(&bytes[count..])
}

/// Checks the saved values of a list of registers, and returns the bytes after them.
fn strip_fitting_values_of_rows<'a>(
    rows: &[ConfigRegister],
    bytes: &'a [u8],
) -> Result<&'a [u8], ImageFault>
    requires { Each IsRow rows.now }
    ensures left { IfOk result (λ rest.
        after_values (flat_map row_cells rows.now) bytes.now ≡ Ok rest.now) }
    ensures refused { IfErr result (λ why.
        after_values (flat_map row_cells rows.now) bytes.now ≡ Err (number_of why)) }
{
    let mut left = rows;
    let mut bytes = bytes;
    while let Some((row, rest)) = left.split_first() {
        bytes = strip_fitting_values_of_row(*row, bytes)?;
        left = rest;
    }
    Ok(bytes)
}

/// Returns the bytes after the saved values of the device-specific configuration registers, which
/// can hold any value.
fn skip_block_values<'a>(blocks: &[ConfigBlock], bytes: &'a [u8]) -> Result<&'a [u8], ImageFault>
    requires { Each IsConfigBlock blocks.now }
    ensures left { IfOk result (λ rest.
        after_values (flat_map block_cells blocks.now) bytes.now ≡ Ok rest.now) }
    ensures refused { IfErr result (λ why.
        after_values (flat_map block_cells blocks.now) bytes.now ≡ Err (number_of why)) }
{
    let mut left = blocks;
    let mut bytes = bytes;
    while let Some((block, rest)) = left.split_first() {
        bytes = skip_bytes(block.block.len(), bytes)?;
        left = rest;
    }
    Ok(bytes)
}

/// Checks the saved values of the regions, and returns the bytes after them. The values of a region
/// are those of its base address register, and then its declared bytes.
fn strip_fitting_values_of_regions<'a>(
    regions: &[Region],
    bytes: &'a [u8],
) -> Result<&'a [u8], ImageFault>
    requires { Each IsLawfulRegion regions.now }
    ensures left { IfOk result (λ rest.
        after_values (flat_map (region_cells (λ r. 0)) regions.now) bytes.now ≡ Ok rest.now) }
    ensures refused { IfErr result (λ why.
        after_values (flat_map (region_cells (λ r. 0)) regions.now) bytes.now
        ≡ Err (number_of why)) }
{
    let mut left = regions;
    let mut bytes = bytes;
    while let Some((region, rest)) = left.split_first() {
        let cells = strip_fitting_values_of_row(region.bar_register_row(), bytes)?;
        bytes = skip_bytes(region.block.len(), cells)?;
        left = rest;
    }
    Ok(bytes)
}

/// Checks a saved value for each register byte of an endpoint, and returns the bytes after them.
/// Refuses with 905 if the bytes end early or a register can't hold its value.
pub(crate) fn strip_fitting_values_of_endpoint<'a>(
    decl: &EndpointDecl,
    bytes: &'a [u8],
) -> Result<&'a [u8], ImageFault>
    ensures left { IfOk result (λ rest.
        after_values (endpoint_reset decl.now false) bytes.now ≡ Ok rest.now) }
    ensures refused { IfErr result (λ why.
        after_values (endpoint_reset decl.now false) bytes.now ≡ Err (number_of why)) }
{
    let values = decl.values();
    let bytes = strip_fitting_values_of_rows(&endpoint_rows_without_bars(decl, false), bytes)?;
    let bytes = skip_block_values(&values.config, bytes)?;
    strip_fitting_values_of_regions(&values.bar, bytes)
}
