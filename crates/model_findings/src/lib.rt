//! Layer: definitions. Below: model_set_up, model_guests. Above: model_handoff, claim_table.
//!
//! Definitions of the audit and the readiness check for a board in any register state, with
//! theorems about both. The audit reports addresses that don't reach exactly one target and
//! functions that can't be found, and names the bridge and the address. The readiness check also
//! reports disabled BARs, BARs outside the apertures, BARs that may be prefetched although they
//! aren't prefetchable, and bridges with a wrong Primary Bus Number. The result of our own set-up
//! passes both.
#![tactic(auto)]

ghost use Rattle.model_findings.specs.{AuditExamples.WorkedExamples, Found.{FoundOnce, NumbersOfBoard, ScanFindsAll}, Orderly.OrderlyClaims, Witnesses.{NumberingDecides, ProblemsAreReal, ProblemsDecide, RoutingDecides}, SetUpPasses.{RoutedAsSetUp, SetUpPasses}, ReadyExamples.ReadyExamples, ReadyLaws.{LacksAreReal, LacksDecide, ReadyAsSetUp, ReadyDecides, ReadyIsFound, ReadyIsUsable, SetUpIsReady}};

/// Proves that in a consistent state an address is claimed by the enabled region that contains it
/// and by no other, and that each byte of an enabled region is claimed through every bridge above
/// the region.
pub fn consistent_claims_are_unique()
    ensures { OrderlyClaims }
{}

/// Proves that if the audit reports no function as not found, each function is reached by its BDF
/// and by no other, and a scan of all BDFs finds every function. This includes every board whose
/// bridges hold its own bus numbers.
pub fn found_functions_have_one_bdf()
    ensures once { FoundOnce }
    ensures scan { ScanFindsAll }
    ensures board { NumbersOfBoard }
{}

/// Proves that each reported problem is real, as its witness shows, and that a state has no
/// problems if and only if it is consistent and each function is reached by its BDF.
pub fn problems_are_real_and_complete()
    ensures real { ProblemsAreReal }
    ensures decide { ProblemsDecide }
    ensures routing { RoutingDecides }
    ensures numbering { NumberingDecides }
{}

/// Proves the audit's output for some example states.
pub fn worked_audit_examples()
    ensures { WorkedExamples }
{}

/// Proves that set-up leaves every board that it accepts without problems. The same holds for any
/// later state with the same routing registers and bus numbers.
pub fn set_up_passes_the_audit()
    ensures set_up { SetUpPasses }
    ensures later { RoutedAsSetUp }
{}

/// Proves that each reported readiness issue is real, as its witness shows. A state has no
/// readiness issues if and only if every BAR is enabled and within the apertures, no bridge
/// prefetches a BAR that isn't prefetchable, and every bridge has the right Primary Bus Number. The
/// state is ready if it also has no problems.
pub fn issues_are_real_and_complete()
    ensures real { LacksAreReal }
    ensures decide { LacksDecide }
    ensures ready { ReadyDecides }
{}

/// Proves that in a ready state each byte of each endpoint's regions is claimed at its programmed
/// address, within the apertures, and that each function is reached by its own BDF and no other.
pub fn ready_board_is_reachable()
    ensures regions { ReadyIsUsable }
    ensures functions { ReadyIsFound }
{}

/// Proves that set-up leaves every board that it accepts ready. The same holds for any later state
/// with the same routing registers and bus numbers.
pub fn set_up_leaves_board_ready()
    ensures set_up { SetUpIsReady }
    ensures later { ReadyAsSetUp }
{}

/// Proves the readiness check's output for some example states.
pub fn worked_readiness_examples()
    ensures { ReadyExamples }
{}
