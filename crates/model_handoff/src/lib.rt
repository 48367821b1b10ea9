//! Layer: definitions. Below: model_findings. Above: model_images, model_lines, report.
//!
//! The formal model of guests over a board that any firmware has handed over: the effect of their
//! accesses, the addresses of their BARs, the report on each function, and assigning and
//! unassigning functions, with theorems about all of these.
#![tactic(auto)]

ghost use Rattle.model_handoff.specs.{AgreementLaws.{FirstIsHandoff, FirstIsReset, KeepsAddresses, KeepsBoard, KeepsBridges, KeepsNumbers, KeepsProblems, KeepsReach, KeepsRouting, StateAgrees, StateIsOnly, StaysInOrder}, RegionLaws.{CycleReads, CycleWrites, FaultDecides, HitActs, HitReachesOver, MemoryBySpace, PortsBySpace, RegionIsClaimed, RegionReads, RegionWrites, ServedAfterEvents, ServedAfterMoves, ServedAtFirst}, AfterSetUp.{SetUpIsolates, SetUpTwoWorlds}, ReportLaws.{ClosedWithoutItems, CountsOfBoard, IdentitiesOfBoard, PinLines, ReportOfBoard}, SetUpCase.{SetUpAddresses, SetUpCanBeGiven, SetUpIsHandoff, SetUpIsInOrder, SetUpPlaces}, SetUpLaws.{HitReachesRegion, SetUpAgrees, SetUpAtFirst, SetUpIsOnly, SetUpKeepsNumbers, SetUpKeepsRouting}, ViewLaws.{OverReset, ResetAfterEvents, ResetAfterMoves, ResetAtFirst, ResetShown}, ResetCase.ResetIsHandoff, DevicesOver.{LawfulAfterDevices, ResetAfterDevices}, Kept.{LawfulAfter, LawfulAlong, LawfulAtFirst}, Examples.WorkedExamples, FunctionExamples.ToldFunctions, FunctionLaws.{NoSeatHolds, SeatsHold}, QueryLaws.{AccessLands, HitIsInside, InsideIsHit, NothingHit}, RegionBytes.BytesByAddress, StayLaws.RegionsStay, Actions.IsolatedByActions, CountLaws.{AnswersStay, ChangesTouchSlots, CountsGrow, RegionsStayAlong}, GivingLaws.{BoardAfterGift, BoardAfterTaking, GivenBack, GivenFunction, LawfulAfterGift, LawfulAfterTaking, OthersAfterGift, OthersAfterTaking, ShownAfterGift, ShownAfterTaking}};

/// Proves that exactly one state of the board agrees with the guests over a handoff. Before the
/// first event it is the handoff with each assigned function at reset.
pub fn one_board_state_fits_guests()
    ensures agrees { StateAgrees }
    ensures is_only { StateIsOnly }
    ensures first { FirstIsReset }
    ensures at_reset { FirstIsHandoff }
{}

/// Proves that guests can't change the board's functions, routing registers or bus numbers, and
/// that an audit of the board always gives the same result as an audit of the handoff.
pub fn guests_never_change_routing()
    ensures board { KeepsBoard }
    ensures bridges { KeepsBridges }
    ensures numbers { KeepsNumbers }
    ensures routing { KeepsRouting }
    ensures reach { KeepsReach }
    ensures addresses { KeepsAddresses }
    ensures problems { KeepsProblems }
    ensures order { StaysInOrder }
{}

/// Proves that each byte of an enabled region is claimed at its address in a consistent handoff,
/// and by that region only. A guest's access that hits a region corresponds to one of these bytes.
pub fn enabled_regions_are_claimed()
    ensures claimed { RegionIsClaimed }
    ensures hits { HitReachesOver }
{}

/// Proves that accessing a guest's function at its address in the handoff reads and changes the
/// guest's own register file.
pub fn board_access_hits_guest_file()
    ensures reads { RegionReads }
    ensures writes { RegionWrites }
    ensures hits { HitActs }
    ensures memory { MemoryBySpace }
    ensures ports { PortsBySpace }
    ensures cycle_reads { CycleReads }
    ensures cycle_writes { CycleWrites }
{}

/// Proves that if the audit passes and no assigned function has a disabled BAR, all regions of
/// assigned functions stay enabled on the board, whichever guest has them. The configuration stays
/// lawful along any script.
pub fn assigned_bars_stay_enabled()
    ensures first { ServedAtFirst }
    ensures events { ServedAfterEvents }
    ensures moves { ServedAfterMoves }
    ensures faults { FaultDecides }
    ensures lawful_first { LawfulAtFirst }
    ensures lawful_after { LawfulAfter }
    ensures lawful_along { LawfulAlong }
{}

/// Proves that a board at reset is a valid handoff.
pub fn reset_board_is_a_handoff()
    ensures { ResetIsHandoff }
{}

/// Proves that the board with every assigned function at reset identifies the handoff, whatever the
/// guests did.
pub fn resetting_assigned_gives_handoff()
    ensures over { OverReset }
    ensures shown { ResetShown }
    ensures first { ResetAtFirst }
    ensures events { ResetAfterEvents }
    ensures moves { ResetAfterMoves }
{}

/// Proves that events at devices keep the configuration lawful and leave the handoff unchanged.
pub fn devices_keep_handoff()
    ensures lawful { LawfulAfterDevices }
    ensures shown { ResetAfterDevices }
{}

/// Proves that set-up leaves a valid, consistent handoff without disabled BARs.
pub fn set_up_is_a_valid_handoff()
    ensures handoff { SetUpIsHandoff }
    ensures order { SetUpIsInOrder }
    ensures given { SetUpCanBeGiven }
    ensures places { SetUpPlaces }
    ensures addresses { SetUpAddresses }
{}

/// Proves that exactly one state of a board after set-up agrees with the guests. Before the first
/// event it is the state that set-up left. Whatever guests do, routing and bus numbers stay as
/// set-up left them, and each hit in a guest's function corresponds to a byte of a declared region,
/// which set-up placed and the board claims.
pub fn one_board_state_after_set_up()
    ensures agrees { SetUpAgrees }
    ensures is_only { SetUpIsOnly }
    ensures first { SetUpAtFirst }
    ensures routing { SetUpKeepsRouting }
    ensures numbers { SetUpKeepsNumbers }
    ensures hits { HitReachesRegion }
{}

/// Proves isolation on a board after set-up, as over any handoff: each guest's replies depend only
/// on its own functions and inputs, and configurations that agree on a guest give it the same
/// replies.
pub fn guests_isolated_after_set_up()
    ensures isolated { SetUpIsolates }
    ensures two_worlds { SetUpTwoWorlds }
{}

/// Proves that a report describes the board: it counts and identifies the board's functions, shows
/// the windows that have something placed behind them, and has a line for each interrupt pin in
/// use. Set-up disables all other windows.
pub fn report_describes_the_board()
    ensures report { ReportOfBoard }
    ensures counts { CountsOfBoard }
    ensures identities { IdentitiesOfBoard }
    ensures windows { ClosedWithoutItems }
    ensures pins { PinLines }
{}

/// Proves the results of example accesses by guests over some handoffs.
pub fn worked_handoff_examples()
    ensures { WorkedExamples }
{}

/// Proves that an access has the effect reported for its target, for any access width. The only
/// exception is the guest's own CONFIG_ADDRESS.
pub fn accesses_act_as_reported()
    ensures lands { AccessLands }
    ensures nothing { NothingHit }
{}

/// Proves that each hit lies in an enabled region at its reported address, and that each address of
/// an enabled region hits something. Accessing a byte by its slot and register has the same effect
/// as accessing the byte by its address.
pub fn hits_are_the_enabled_bytes()
    ensures inside { HitIsInside }
    ensures hit { InsideIsHit }
    ensures bytes { BytesByAddress }
{}

/// Proves that the regions of a guest's functions change address only through the guest's own
/// writes to Command or to BARs, moves that involve the slot, and resets at its device.
pub fn only_own_events_move_regions()
    ensures { RegionsStay }
{}

/// Proves that the assignment reported for a function is correct: the reported slot holds the
/// function, and if none is reported, no guest's slot holds it.
pub fn reported_slot_holds_function()
    ensures held { SeatsHold }
    ensures none { NoSeatHolds }
{}

/// Proves the reports on some functions of an example board, after set-up and one move.
pub fn worked_function_reports()
    ensures { ToldFunctions }
{}

/// Proves that assigning a function resets it in its slot and on the board, and changes nothing
/// else on the board. The configuration stays lawful, and the handoff differs only in this
/// function.
pub fn assigning_resets_function()
    ensures board { BoardAfterGift }
    ensures lawful { LawfulAfterGift }
    ensures shown { ShownAfterGift }
    ensures function { GivenFunction }
{}

/// Proves that unassigning a function resets it on the board and changes nothing else there. The
/// configuration stays lawful, and the handoff is unchanged.
pub fn unassigning_resets_function()
    ensures board { BoardAfterTaking }
    ensures lawful { LawfulAfterTaking }
    ensures shown { ShownAfterTaking }
{}

/// Proves that assigning or unassigning a function changes no other guest, and that unassigning a
/// function straight after assigning it restores all guests.
pub fn assigning_changes_one_guest()
    ensures gift { OthersAfterGift }
    ensures taking { OthersAfterTaking }
    ensures back { GivenBack }
{}

/// Proves isolation along any sequence of calls, assignments and unassignments: a guest's replies
/// and state depend only on its previous state, its own events, the events at its devices, and the
/// moves, assignments and unassignments that involve it.
pub fn guests_isolated_across_actions()
    ensures { IsolatedByActions }
{}

/// Proves that a guest's change counter increases by one with each action that may move a region of
/// the guest. While the counter is unchanged, every answer about the addresses of the guest's
/// regions stays valid.
pub fn unchanged_count_keeps_addresses()
    ensures along { RegionsStayAlong }
    ensures touched { ChangesTouchSlots }
    ensures counts { CountsGrow }
    ensures stay { AnswersStay }
{}
