//! Judges a board: whether it can be set up, how well its pools fit their apertures, and which
//! entries of its file deserve a remark.
ghost use Rattle.std.specs.Prelude.{◌≡◌, ◌≢◌, ◌⊎◌, None, Some, IfOk, IfErr, map};
ghost use Rattle.toml.specs.View.{table_view};
ghost use Rattle.lists.specs.Elements.{Each};
ghost use Rattle.model_registers.specs.DeclarationRules.{first_broken};
ghost use Rattle.model_board.specs.{Board.Board, AtReset.IsAtReset};
ghost use Rattle.model_set_up.specs.{FunctionTable.board_in, SetUpWrites.set_up_rules};
ghost use Rattle.bus_scan.specs.{Faults.number_of, SizedTables.IsTableOf, declared.fault.Fault.TheVariants.Memory};
ghost use Rattle.window_packing.specs.Readies.{board_below};
ghost use Rattle.board_fit.specs.{PlacedRemarks.{remark_of, IsPlacedRemark}, PoolFits.reported_pool_fits, Verdicts.{remarks_of, IsVerdict}};

use crate::misfit::remarks_on_fault_causes;
use crate::placed_remark::{PlacedRemark, locate_remarks};
use crate::pool_fit::{PoolFit, reported_pool_fits};
use crate::remark::Remark;
use crate::warning_level::WarningLevel;
use crate::warnings::warnings;
use board_file::Source;
use board_file::entries::FileEntries;
use bus_scan::{Fault, FunctionTable};
use diagnostics::Places;
use headers::Apertures;
use host_bridge::Host;
use std::alloc::{AllocError, Global};
use window_packing::{enumerate, plan};

/// The verdict on a board.
#[derive(Drop)]
pub struct Verdict {
    /// The first set-up rule that the board breaks, if any.
    pub fault: Option<Fault>,
    /// How each pool fits its aperture. If a pool doesn't fit, only that pool is listed. For any
    /// other fault, the list is empty.
    pub fits: Vec<PoolFit>,
    /// Warnings about the file if the board can be set up. Otherwise, the entries that cause the
    /// fault.
    pub remarks: Vec<PlacedRemark>,
}

/// Returns warnings if there is no fault, and the entries that cause the fault if there is one.
fn warnings_or_causes(
    alloc: Global,
    warned: WarningLevel,
    file: &FileEntries<'_>,
    fits: &[PoolFit],
    fault: Option<Fault>,
) -> Result<Vec<Remark>, AllocError>
    ensures { IfOk result (λ v. v.items ≡ remarks_of warned file.now fits.now fault) }
{
    match fault {
        None => warnings(alloc, warned, file, fits),
        Some(fault) => remarks_on_fault_causes(alloc, file, fault),
    }
}

/// Adds a place in the file to each remark. Doesn't scan the file if there are no remarks.
fn locate_remarks_if_any(
    alloc: Global,
    source: &Source<'_>,
    remarks: &[Remark],
) -> Result<Vec<PlacedRemark>, AllocError>
    ensures same { IfOk result (λ v. map remark_of v.items ≡ remarks.now) }
    ensures places { let s = source.now in IfOk result (λ v.
        Each (IsPlacedRemark s.bytes.now (table_view s.document.now)) v.items) }
{
    if remarks.is_empty() {
        return Ok(Vec::new(alloc));
    }
    let places = Places::new(alloc, source.bytes, source.document)?;
    locate_remarks(alloc, &places, remarks)
}

/// Builds the verdict from the fits of the pools and the fault.
fn build_verdict(
    alloc: Global,
    warned: WarningLevel,
    source: &Source<'_>,
    fits: Vec<PoolFit>,
    fault: Option<Fault>,
) -> Result<Verdict, AllocError>
    ensures fault { IfOk result (λ v. v.fault ≡ fault) }
    ensures fits { IfOk result (λ v. v.fits.items ≡ fits.items) }
    ensures remarks { IfOk result (λ v.
        map remark_of v.remarks.items ≡ remarks_of warned source.now.file fits.items fault) }
    ensures places { let s = source.now in IfOk result (λ v.
        Each (IsPlacedRemark s.bytes.now (table_view s.document.now)) v.remarks.items) }
{
    let remarks = warnings_or_causes(alloc, warned, &source.file, &fits, fault)?;
    let remarks = locate_remarks_if_any(alloc, source, &remarks)?;
    Ok(Verdict {
        fault,
        fits,
        remarks,
    })
}

/// Computes the fits of the pools and builds the verdict.
fn fits_and_verdict(
    alloc: Global,
    warned: WarningLevel,
    source: &Source<'_>,
    table: &FunctionTable,
    apertures: &Apertures,
    fault: Option<Fault>,
) -> Result<Verdict, AllocError>
    requires { IsTableOf (board_in table.now) table.now }
    ensures fault { IfOk result (λ v. v.fault ≡ fault) }
    ensures fits { IfOk result (λ v. (b : Board) → IsTableOf b table.now
        → v.fits.items ≡ reported_pool_fits b apertures.now fault) }
    ensures remarks { IfOk result (λ v.
        map remark_of v.remarks.items ≡ remarks_of warned source.now.file v.fits.items fault) }
    ensures places { let s = source.now in IfOk result (λ v.
        Each (IsPlacedRemark s.bytes.now (table_view s.document.now)) v.remarks.items) }
{
    let fits = reported_pool_fits(alloc, table, apertures, fault)?;
    build_verdict(alloc, warned, source, fits, fault)
}

/// Checks whether a board with this function table can be set up.
fn check_placeable(alloc: Global, table: &FunctionTable, apertures: &Apertures) -> Result<(), Fault>
    requires { IsTableOf (board_in table.now) table.now }
    ensures kept { IfOk result (λ _.
        (b : Board) → IsTableOf b table.now →
        first_broken (set_up_rules b apertures.now) ≡ None) }
    ensures refused { IfErr result (λ f. (b : Board) → IsTableOf b table.now →
        (f ≡ Memory) ⊎ (first_broken (set_up_rules b apertures.now) ≡ Some (number_of f))) }
{
    plan(alloc, table, apertures)?;
    Ok(())
}

/// Returns the verdict on a board with this function table.
fn judge_function_table(
    alloc: Global,
    warned: WarningLevel,
    source: &Source<'_>,
    table: &FunctionTable,
    apertures: &Apertures,
) -> Result<Verdict, AllocError>
    requires { IsTableOf (board_in table.now) table.now }
    ensures known { IfOk result (λ v. v.fault ≢ Some Memory) }
    ensures verdict { IfOk result (λ v. (b : Board) → IsTableOf b table.now
        → IsVerdict warned source.now.file b apertures.now v) }
    ensures places { let s = source.now in IfOk result (λ v.
        Each (IsPlacedRemark s.bytes.now (table_view s.document.now)) v.remarks.items) }
{
    match check_placeable(alloc, table, apertures) {
        Ok(()) => fits_and_verdict(alloc, warned, source, table, apertures, None),
        Err(Fault::Memory) => Err(AllocError),
        Err(fault) => fits_and_verdict(alloc, warned, source, table, apertures, Some(fault)),
    }
}

/// Returns the verdict on the board that the file declares. `host` must have this board at reset.
/// `warned` selects which possible mistakes to warn about. Fails only if memory is exhausted.
pub fn judge(
    alloc: Global,
    warned: WarningLevel,
    source: &Source<'_>,
    host: Host,
) -> Result<Verdict, AllocError>
    requires { IsAtReset host.state }
    ensures known { IfOk result (λ v. v.fault ≢ Some Memory) }
    ensures verdict { IfOk result (λ v.
        IsVerdict warned source.now.file (board_below host) host.apertures v) }
    ensures places { let s = source.now in IfOk result (λ v.
        Each (IsPlacedRemark s.bytes.now (table_view s.document.now)) v.remarks.items) }
{
    let apertures = host.apertures();
    let mut host = host;
    match enumerate(alloc, &mut host) {
        Ok(table) => judge_function_table(alloc, warned, source, &table, &apertures),
        Err(Fault::Memory) => Err(AllocError),
        Err(fault) => build_verdict(alloc, warned, source, Vec::new(alloc), Some(fault)),
    }
}
