//! The register bytes of a function's configuration space, or of one region's block.
ghost use Rattle.std.specs.{Prelude.{◌≡◌, ◌==◌, ◌<◌, ◌%◌, ◌^◌, All, IfOk, not, length, if◌then◌else◌}, List.list_all};
ghost use Rattle.model_registers.specs.{Cell.written, Registers.{config, changed, read, write, raise, cell_at}, DeviceBytes.set_value, ByteEnables.{enabled_bytes, is_enabled, lanes}, FileLaws.IsConfigFile};
ghost use Rattle.lists.specs.Elements.{Each};
ghost use Rattle.config_bytes.specs.CellFile.{HasDistinctOffsets, KeepsPlaces, file_of, placed, placed_outside, reset_outside};

use crate::cell::{Cell, prove_cells_are_lawful};
use byteorder::{ByteOrder, LittleEndian};
use std::alloc::{AllocError, Global};
use std::marker::Model;

/// Bytes by offset, with their reset values (PCI Local Bus 3.0, chapter 6). An offset without a
/// cell reads 0, and writes and raises there are dropped. Only `new` allocates memory.
///
/// Every access of the simulator ends here, so the cells are in a table indexed by offset: an
/// access finds its bytes in constant time, however many cells there are. Gaps in the table hold
/// read-only zero bytes, so an access never checks whether an offset has a cell. `initial` holds
/// the offsets and reset cells in the order given to `new`.
#[derive(Drop)]
pub struct Cells {
    table: Vec<Cell>,
    initial: Vec<(u16, Cell)>,
}

impl Model for Cells {
    ghost use Rattle.config_bytes.specs.CellFile.{CellFile, IsTable, file_from, file_of};

    ghost Value = { CellFile };

    ghost view = { λ f. record {
      now = file_from f.table.items f.initial.items;
      initial = file_of f.initial.items;
    } };

    ghost invariant = { λ f. IsTable f.table.items f.initial.items };
}

/// Returns whether byte lane `lane`, 0 to 3, is enabled.
fn is_enabled(enables: u8, lane: u8) -> bool
    requires { lane < 4 }
    ensures { result ≡ is_enabled enables lane }
{
    (enables >> lane) & 1 == 1
}

/// Returns the table length needed for the highest offset.
fn required_table_length(cells: &[(u16, Cell)]) -> usize
    ensures { All (λ c. c.0 < result) cells.now }
{
    cells
        .iter()
        .map(|(off, _)| usize::from(*off) + 1)
        .max()
        .unwrap_or(0)
}

/// Stores each cell in the table at its offset.
fn store_at_offsets(table: &mut [Cell], cells: &[(u16, Cell)])
    requires { Each (λ c. c.0 < length table.old) cells.now }
    ensures { table.new ≡ placed cells.now table.old }
{
    for (off, cell) in cells {
        table[usize::from(*off)] = *cell;
    }
}

/// Stores each cell in the table at its offset, and skips the cells at offsets `first` to `last`.
fn store_at_offsets_outside(table: &mut [Cell], cells: &[(u16, Cell)], first: u16, last: u16)
    requires { Each (λ c. c.0 < length table.old) cells.now }
    ensures { table.new ≡ placed_outside first last cells.now table.old }
{
    for (off, cell) in cells {
        if *off < first || *off > last {
            table[usize::from(*off)] = *cell;
        }
    }
}

/// Returns whether none of these cells is at offset `off`.
fn is_free(off: u16, cells: &[(u16, Cell)]) -> bool
    ensures { result ≡ list_all (λ c. not (off == c.0)) cells.now }
{
    cells.iter().all(|(other, _)| off != *other)
}

/// Returns whether none of these cells is at offset `off`, checking the cell at index `off` first.
/// The cells of a region's block are consecutive from offset 0, so for a block the first check is
/// enough.
fn is_free_fast(off: u16, cells: &[(u16, Cell)]) -> bool
    ensures { result ≡ list_all (λ c. not (off == c.0)) cells.now }
{
    let at = usize::from(off);
    if at < cells.len() {
        let (other, _) = cells[at];
        if other == off {
            return false;
        }
    }
    is_free(off, cells)
}

impl Cells {
    /// Creates a register file from cells at distinct offsets, 0 to 65535, in any order. The table
    /// extends to the highest offset. Fails if memory is exhausted.
    pub fn new(alloc: Global, cells: &[(u16, Cell)]) -> Result<Cells, AllocError>
        requires { HasDistinctOffsets cells.now }
        ensures cells { IfOk result (λ f.
            f ≡ record { now = file_of cells.now; initial = file_of cells.now }) }
        ensures places { IfOk result (λ f. IsConfigFile f.now) }
        ensures kept { IfOk result KeepsPlaces }
    {
        let initial = Vec::from_slice(alloc, cells)?;
        let mut table = vec![in alloc; Cell::fixed(0); required_table_length(cells)]?;
        store_at_offsets(table.as_mut_slice(), cells);
        Ok(Cells { table, initial })
    }

    /// Returns the byte at offset `off`, or 0 if it isn't enabled.
    fn byte_if_enabled(&self, off: u16, enabled: bool) -> u8
        ensures byte { result
            ≡ (if enabled then (cell_at self.now.now (config off)).value else 0) }
        ensures places { IsConfigFile self.now.now }
        ensures kept { KeepsPlaces self.now }
    {
        let value = self
            .table
            .get(usize::from(off))
            .map_or(0, |cell| cell.value());
        if enabled { value } else { 0 }
    }

    /// Reads the little-endian word at `off`, a multiple of 4. Bit n of `enables`, 0 to 3, enables
    /// the byte at `off + n` (PCI Local Bus 3.0, chapter 3.2.2). Disabled bytes read 0.
    #[inline(always)]
    pub fn read(&self, off: u16, enables: u8) -> u32
        requires { off % 4 ≡ 0 }
        ensures word { result ≡ read self.now.now (config off) (lanes enables) }
        ensures enabled { result ≡ enabled_bytes (lanes enables) result }

        // If only the lower two bytes are enabled, the result fits a 16-bit register.
        ensures low { enables < 4 → result < 2 ^ 16 }
        ensures places { IsConfigFile self.now.now }
        ensures kept { KeepsPlaces self.now }
    {
        // Most reads access a whole word. Handling them first saves a third of the time, because
        // the bytes needn't be tested for being enabled.
        if enables == 0b1111 {
            let bytes = [
                self.byte_if_enabled(off, true),
                self.byte_if_enabled(off + 1, true),
                self.byte_if_enabled(off + 2, true),
                self.byte_if_enabled(off + 3, true),
            ];
            return LittleEndian::read_u32(&bytes);
        }
        let bytes = [
            self.byte_if_enabled(off, is_enabled(enables, 0)),
            self.byte_if_enabled(off + 1, is_enabled(enables, 1)),
            self.byte_if_enabled(off + 2, is_enabled(enables, 2)),
            self.byte_if_enabled(off + 3, is_enabled(enables, 3)),
        ];
        LittleEndian::read_u32(&bytes)
    }

    /// Writes a byte to the cell at offset `off` if `enabled` is set.
    fn write_byte_if_enabled(&mut self, off: u16, enabled: bool, byte: u8)
        ensures cells { self.new ≡ record self.old {
          now =
              if enabled then changed (written byte) (config off) self.old.now else self.old.now;
        } }
        ensures places { IsConfigFile self.new.now }
        ensures kept { KeepsPlaces self.new }
    {
        let at = usize::from(off);
        if at < self.table.len() && enabled {
            self.table[at] = self.table[at].written(byte);
        }
    }

    /// Writes the enabled bytes of the little-endian `data` at `off`, a multiple of 4. Each byte is
    /// written under its cell's masks. All other cells are unchanged.
    #[inline(always)]
    pub fn write(&mut self, off: u16, enables: u8, data: u32)
        requires { off % 4 ≡ 0 }
        ensures cells { self.new
            ≡ record self.old { now = write (lanes enables) «data» (config off) self.old.now } }
        ensures places { IsConfigFile self.new.now }
        ensures kept { KeepsPlaces self.new }
    {
        let mut bytes = [0; 4];
        LittleEndian::write_u32(&mut bytes, data);
        let [first, second, third, fourth] = bytes;
        self.write_byte_if_enabled(off, is_enabled(enables, 0), first);
        self.write_byte_if_enabled(off + 1, is_enabled(enables, 1), second);
        self.write_byte_if_enabled(off + 2, is_enabled(enables, 2), third);
        self.write_byte_if_enabled(off + 3, is_enabled(enables, 3), fourth);
    }

    /// Sets the bits of `mask` in the cell at `off`, as a device does. Only W1C bits can be set.
    /// All other cells are unchanged.
    pub fn raise(&mut self, off: u16, mask: u8)
        ensures cells { self.new
            ≡ record self.old { now = raise mask (config off) self.old.now } }
        ensures places { IsConfigFile self.new.now }
        ensures kept { KeepsPlaces self.new }
    {
        let at = usize::from(off);
        if at < self.table.len() {
            self.table[at] = self.table[at].raised(mask);
        }
    }

    /// Returns the value of the cell at `off`, or 0 if there is no cell.
    pub fn value(&self, off: u16) -> u8
        ensures { result ≡ (cell_at self.now.now (config off)).value }
    {
        self.byte_if_enabled(off, true)
    }

    /// Sets the value of the cell at `off`, ignoring and keeping its masks. Without a cell there,
    /// nothing changes. This checks the declared offsets, because a gap in the table looks like a
    /// cell.
    pub fn set(&mut self, off: u16, value: u8)
        ensures cells { self.new
            ≡ record self.old { now = set_value value (config off) self.old.now } }
        ensures places { IsConfigFile self.new.now }
        ensures kept { KeepsPlaces self.new }
    {
        if is_free_fast(off, &self.initial) {
            return;
        }
        let at = usize::from(off);
        self.table[at] = self.table[at].with_value(value);
    }

    /// Restores the reset value of every cell.
    pub fn reset(&mut self)
        ensures cells { self.new ≡ record self.old { now = self.old.initial } }
        ensures places { IsConfigFile self.new.now }
        ensures kept { KeepsPlaces self.new }
    {
        store_at_offsets(self.table.as_mut_slice(), self.initial.as_slice());
    }

    /// Restores the reset value of every cell except those at offsets `first` to `last`, both
    /// included.
    pub fn reset_outside(&mut self, first: u16, last: u16)
        ensures cells { self.new
            ≡ record self.old { now = reset_outside first last self.old.initial self.old.now } }
        ensures places { IsConfigFile self.new.now }
        ensures kept { KeepsPlaces self.new }
    {
        store_at_offsets_outside(
            self.table.as_mut_slice(),
            self.initial.as_slice(),
            first,
            last,
        );
    }
}
