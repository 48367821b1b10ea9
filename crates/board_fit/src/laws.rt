//! Theorems about the explanations for boards that can't be set up.
ghost use Rattle.board_fit.specs.ReasonLaws.{BusAndIoFaultsNameEntries};

/// Establishes that at least one entry of the file is named as the cause if a board can't be set up
/// because it lacks bus numbers (201) or an I/O window (202).
pub fn bus_and_io_faults_name_entries()
    ensures { BusAndIoFaultsNameEntries }
{}
