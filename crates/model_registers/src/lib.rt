//! Layer: definitions. Below: lists. Above: model_board, config_bytes, bars.
//!
//! The formal model of register bytes, register files and register tables of PCI functions, with
//! theorems about them.
#![tactic(auto)]

ghost use Rattle.std.specs.Prelude.{◌≡◌, ℕ};
ghost use Rattle.model_registers.specs.{Cell.{no_cell, written}, AccessLaws.{AlignedLiesInWord, NumberByLanes, LanesFit, NumberFromWord, AllOnesByLanes, WriteByLanes, DisabledRead, DisabledStay, NumberFits, ReadsEnabled}, FileLaws.{JoinedCell, JoinedChange, JoinedWrite, ReadNone, WriteNone, ReadSecond, ReadFirst, PlacesStay, RegionCells, RegionCell, RegionRead, RegionChange, RegionWrite, RegionHasNoConfig, RegionHasNoOther, ConfigHasNoBlock, ConfigStays}, RegisterLaws.{ChangeAtPlace, FieldReads, FieldWrites, EnabledFieldReads, EnabledFieldWrites}, BaseLaws.{ReadsOfBases, WritesOfBases}, Sizing.SizesRead, DecodingLaws.{HitIsOfRegion, HitsByBases, HitsOfRegisters}, OwnCopies.{OwnReads, OwnWrites, OwnStay, OwnHits, ResetHoldsOwn}, Capabilities.{ListStays, NoListStays, ListsDeclared}};

/// Proves that writes to an unimplemented byte are dropped.
pub fn missing_cell_drops_writes()
    ensures { (b : ℕ) → written b no_cell ≡ no_cell }
{}

/// Proves that changing one byte of a register file leaves all other bytes unchanged, and that a
/// multi-byte register reads its value and is written under its write mask.
pub fn registers_obey_write_masks()
    ensures change { ChangeAtPlace }
    ensures reads { FieldReads }
    ensures writes { FieldWrites }
{}

/// Proves that reading or writing a value of 1, 2 or 4 bytes accesses the enabled bytes of the word
/// that contains it.
pub fn accesses_touch_enabled_bytes()
    ensures aligned { AlignedLiesInWord }
    ensures number { NumberByLanes }
    ensures fits { LanesFit }
    ensures number_from_word { NumberFromWord }
    ensures all_ones { AllOnesByLanes }
    ensures write { WriteByLanes }
    ensures disabled_read { DisabledRead }
    ensures disabled_stay { DisabledStay }
{}

/// Proves that for register files that hold bytes, a value of `n` bytes is below 256^n, and the
/// disabled bytes of a read are 0.
pub fn disabled_bytes_read_zero()
    ensures number { NumberFits }
    ensures read { ReadsEnabled }
{}

/// Proves that a write to concatenated register files writes each file separately, and that a file
/// without the accessed byte is skipped.
pub fn joined_files_write_separately()
    ensures cell { JoinedCell }
    ensures change { JoinedChange }
    ensures write { JoinedWrite }
    ensures read_none { ReadNone }
    ensures write_none { WriteNone }
    ensures read_second { ReadSecond }
    ensures read_first { ReadFirst }
    ensures places { PlacesStay }
{}

/// Proves that a region contains exactly the cells of its block, at the same offsets.
pub fn region_holds_its_block_cells()
    ensures cells { RegionCells }
    ensures cell { RegionCell }
    ensures read { RegionRead }
    ensures change { RegionChange }
    ensures write { RegionWrite }
    ensures no_config { RegionHasNoConfig }
    ensures no_other { RegionHasNoOther }
    ensures no_block { ConfigHasNoBlock }
    ensures config_stays { ConfigStays }
{}

/// Proves how byte enables select the bytes of a multi-byte register.
pub fn byte_enables_select_bytes()
    ensures reads { EnabledFieldReads }
    ensures writes { EnabledFieldWrites }
{}

/// Proves that reads, writes and sizing of a BAR can be computed with integers.
pub fn bars_compute_as_integers()
    ensures reads { ReadsOfBases }
    ensures writes { WritesOfBases }
    ensures sizes { SizesRead }
{}

/// Proves that a function decodes addresses by its Command register and BARs only, and that each
/// hit lies in one of its regions, at an offset below the region's size.
pub fn decode_uses_command_and_bars()
    ensures by_bases { HitsByBases }
    ensures of_registers { HitsOfRegisters }
    ensures of_region { HitIsOfRegion }
{}

/// Proves that a function's register file can be split into the guest's own copies and the bytes to
/// which accesses are forwarded.
pub fn own_copies_and_rest_make_file()
    ensures reads { OwnReads }
    ensures writes { OwnWrites }
    ensures stay { OwnStay }
    ensures hits { OwnHits }
    ensures reset { ResetHoldsOwn }
{}

/// Proves that walking a capability list finds the declared structures, in order, whatever accesses
/// and raises there were.
pub fn capability_walk_finds_declared()
    ensures { ListStays }
{}

/// Proves that without a capability list, bit 4 of Status and the byte at 34h read 0, whatever
/// accesses and raises there were.
pub fn no_capability_list_reads_zero()
    ensures { NoListStays }
{}

/// Proves that an endpoint with a capability list lists the declared structures, in order, with
/// their sizes.
pub fn listed_capabilities_match_decl()
    ensures { ListsDeclared }
{}
