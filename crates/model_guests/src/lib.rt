//! Layer: definitions. Below: model_board. Above: model_findings, accesses.
//!
//! The formal model of guests: the functions assigned to them, their scripts and replies, and the
//! events at their devices, with theorems about isolation.
#![tactic(auto)]

ghost use Rattle.model_guests.specs.{Isolation.{Isolated, IsolatedByOwnLines, OwnLinesAlone, TwoWorlds, TwoWorldsByOwnLines}, Seated.{ByIndex, SeatedAfterEvents, SeatedAfterMoves, SeatedAlong, SeatedAtFirst}, AgreedLaws.{CopiesNeverRise, FileOfSeat, ShowsFile}, ChangeLaws.{ChangesOneFunction, EventReachesBoard, LatchKeepsBoard, MoveResetsOneFunction, OneFile, RaisesAlike, ResetsAlike, WritesAlike}, ViewLaws.{ViewAgrees, ViewIsFile}, MoveLaws.{InputsWithin, MoveBetween, MoveWithin, MovedFunction}, LineRuns.{AfterAlong, CutIsBeginning, LinesOfPieces, OutputAlong, StoppedIsBeginning}, WorldNow.world_protocol, WorldLaws.{HandoffStays, LongLinesAlike, NamesAlong, NamesStay}, DeviceByteLaws.{ReadsLeaveGuests, ReadsWritten, WriteReachesBoard}, DeviceExamples.CountingDevice, DeviceLaws.{NamesAfterDevices, OthersAfterDevice, OwnAfterDevice, ResetByMoves, ResetReachesBoard, SeatedAfterDevices}, CapabilityLists.{GuestsFindLists, BoardShowsLists}};

/// Proves isolation over any handoff: a script's replies to a guest, and the guest's state
/// afterwards, depend only on the guest's own functions and CONFIG_ADDRESS, its own lines, and the
/// moves that involve it.
pub fn guests_are_isolated()
    ensures { Isolated }
{}

/// Proves that two configurations and scripts that agree on a guest's functions, lines and moves
/// give the guest the same reply lines, even over different handoffs.
pub fn two_worlds()
    ensures { TwoWorlds }
{}

/// Proves isolation for scripts without moves, over any handoff: a guest's inputs are then exactly
/// its own lines.
pub fn own_lines_decide_without_moves()
    ensures inputs { OwnLinesAlone }
    ensures isolated { IsolatedByOwnLines }
    ensures two_worlds { TwoWorldsByOwnLines }
{}

/// Proves that each assigned function is always in exactly one slot and remains the endpoint at its
/// path, whatever guests do and wherever functions are moved. Guest names and the handoff never
/// change.
pub fn functions_stay_in_one_slot()
    ensures first { SeatedAtFirst }
    ensures events { SeatedAfterEvents }
    ensures moves { SeatedAfterMoves }
    ensures along { SeatedAlong }
    ensures names { NamesStay }
    ensures names_along { NamesAlong }
    ensures handoff { HandoffStays }
    ensures index { ByIndex }
{}

/// Proves that an event in a guest's function changes the board in that function only. A write, a
/// raise or a reset changes on the board only bytes that the guest has no copies of.
pub fn event_changes_one_function()
    ensures writes { WritesAlike }
    ensures raises { RaisesAlike }
    ensures resets { ResetsAlike }
    ensures file { OneFile }
    ensures function { ChangesOneFunction }
    ensures latch { LatchKeepsBoard }
    ensures moves { MoveResetsOneFunction }
    ensures events { EventReachesBoard }
{}

/// Proves that the board holds the guest's value for each byte that the guest has no copy of, and
/// that no device raises bits in the copied bytes.
pub fn board_holds_uncopied_bytes()
    ensures shows { ShowsFile }
    ensures copies { CopiesNeverRise }
    ensures files { FileOfSeat }
{}

/// Proves that overlaying a guest's copies on the board's register file gives the guest's register
/// file.
pub fn overlay_gives_guest_registers()
    ensures file { ViewIsFile }
    ensures agrees { ViewAgrees }
{}

/// Proves that a move empties one slot and fills another, within one guest or between two guests.
/// Afterwards the function is at reset in its new slot, and its former slot is empty.
pub fn move_empties_and_fills_a_slot()
    ensures within { MoveWithin }
    ensures between { MoveBetween }
    ensures inputs { InputsWithin }
    ensures slots { MovedFunction }
{}

/// Proves that running a script in pieces has the same output and result as running the whole
/// script, and that a run that fails has written a prefix of the output.
pub fn script_in_pieces_runs_alike()
    ensures output { OutputAlong world_protocol }
    ensures after { AfterAlong world_protocol }
    ensures lines { LinesOfPieces }
    ensures long { LongLinesAlike }
    ensures stopped { StoppedIsBeginning world_protocol }
    ensures cut { CutIsBeginning world_protocol }
{}

/// Proves that resetting a function has the same effect as moving the function to an empty slot and
/// back. The reset reaches the board through the bytes that the guest has no copies of.
pub fn reset_is_a_move_out_and_back()
    ensures moves { ResetByMoves }
    ensures board { ResetReachesBoard }
{}

/// Proves that a guest's state after an event at its device depends only on its state before, and
/// that no other guest changes. Functions keep their slots, and guests keep their names.
pub fn device_event_changes_one_guest()
    ensures own { OwnAfterDevice }
    ensures others { OthersAfterDevice }
    ensures seated { SeatedAfterDevices }
    ensures names { NamesAfterDevices }
{}

/// Proves that a device's reads change nothing. A byte that a device writes to an existing cell is
/// read back, and changes that one byte of its function on the board.
pub fn device_write_changes_one_byte()
    ensures reads { ReadsLeaveGuests }
    ensures written { ReadsWritten }
    ensures board { WriteReachesBoard }
{}

/// Proves the behavior of an example device, which counts in a register that is read-only to its
/// driver.
pub fn device_can_count_in_read_only_register()
    ensures { CountingDevice }
{}

/// Proves that a guest that walks the capability list of a function in a slot finds the declared
/// structures, in order, after any of its own lines and any moves; and that the list on the board
/// is the same one.
pub fn guests_find_capability_lists()
    ensures guests { GuestsFindLists }
    ensures board { BoardShowsLists }
{}
