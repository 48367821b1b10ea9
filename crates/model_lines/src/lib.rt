//! Layer: definitions. Below: model_handoff. Above: findings, lines.
//!
//! Definitions of the questions and lines about a board, with theorems about them. `why` questions
//! explain the target of an address or a BDF in any register state. Firmware lines access the board
//! through the host bridge. A session combines firmware lines with requests for an audit, for
//! readiness or for an explanation, and with the line that hands the board over to its guests. The
//! replies that guests get afterwards are defined for boards set up by any firmware.
#![tactic(auto)]

ghost use Rattle.model_lines.specs.{WhyExamples.WhyExamples, GuestExamples.GuestExamples, WhyGuests.{FoundAsLocated, ClosedAreAll, ClosedAreTrue}, WhyPorts.{PortsByLatch, PortExamples}, WhyLaws.{AddressesExplained, NumbersExplained, OrderlyAnswersAlone, ReadyTellsNothing}, FirmwareLaws.{BadLinesChangeNothing, DataIsByNumber, LatchIsPort, LongLinesAlike, ReadsChangeNoRegister, RefusedChangesNothing}, FirmwareLines.board_protocol, Sessions.session_protocol, Requests.RequestExamples, SessionLaws.{HostWordsAreNoForm, QuestionsChangeNothing, RefusedStays, RequestsAreNoForm, DrivenIsFirmware, GivenIsScript, PlainSessions, AccessesTellWritten, GivenBy, IsolatedSessions, LinesTellWritten}, FirmwareLeaves.{AccessLeaves, LinesLeave}, SessionLists.SessionsShowLists, GivenLaws.{GivenAlike, GivenAsSetUp, GivenIsolated, GivenStays, OrderlyStays}};
ghost use Rattle.model_guests.specs.LineRuns.{AfterAlong, CutIsBeginning, OutputAlong, StoppedIsBeginning};

/// Proves that the explanation of an address is true, and that each region that contains the
/// address either answers or is listed. In a consistent state no other region would answer too, and
/// in a ready state no obstacle is listed.
pub fn address_explanations_are_true()
    ensures each { AddressesExplained }
    ensures orderly { OrderlyAnswersAlone }
    ensures ready { ReadyTellsNothing }
{}

/// Proves that a configuration cycle reaches the function at the end of the explained route, and
/// that everything reported as missing is indeed missing.
pub fn bdf_explanations_are_true()
    ensures { NumbersExplained }
{}

/// Proves that an access to an I/O port goes where the explanation of the port says, whatever the
/// value of CONFIG_ADDRESS.
pub fn port_explanations_are_true()
    ensures { PortsByLatch }
{}

/// Proves that a guest's explanation names the target of its access. The disabled regions that the
/// explanation lists are exactly those that contain the address.
pub fn guest_explanations_are_true()
    ensures located { FoundAsLocated }
    ensures closed { ClosedAreTrue }
    ensures all { ClosedAreAll }
{}

/// Proves what `why` answers for some example addresses, BDFs, ports and guest accesses.
pub fn worked_why_examples()
    ensures each { WhyExamples }
    ensures ports { PortExamples }
    ensures guests { GuestExamples }
{}

/// Proves that port CF8h accesses CONFIG_ADDRESS, and that while CONFIG_ADDRESS enables them, ports
/// CFCh to CFFh access the selected register. The effect is that of the same access by BDF, except
/// that an access by BDF leaves CONFIG_ADDRESS 0.
pub fn config_ports_act_as_bdf_access()
    ensures latch { LatchIsPort }
    ensures by_number { DataIsByNumber }
{}

/// Proves that only accepted writes change a register.
pub fn only_writes_change_registers()
    ensures refused { RefusedChangesNothing }
    ensures bad { BadLinesChangeNothing }
    ensures reads { ReadsChangeNoRegister }
{}

/// Proves that running a text in pieces has the same output and result as running the whole text,
/// and that a run that fails has written a prefix of the output.
pub fn firmware_in_pieces_runs_alike()
    ensures output { OutputAlong board_protocol }
    ensures after { AfterAlong board_protocol }
    ensures long { LongLinesAlike }
    ensures stopped { StoppedIsBeginning board_protocol }
    ensures cut { CutIsBeginning board_protocol }
{}

/// Proves that the lines that request an audit, readiness, an explanation or the handover aren't
/// valid firmware or script lines. Only the handover changes anything, and a refused handover
/// changes nothing.
pub fn only_handover_request_acts()
    ensures no_form { HostWordsAreNoForm }
    ensures requests_no_form { RequestsAreNoForm }
    ensures nothing { QuestionsChangeNothing }
    ensures refused { RefusedStays }
{}

/// Proves the requests that some example lines make.
pub fn worked_request_examples()
    ensures { RequestExamples }
{}

/// Proves that a session's lines behave exactly like firmware's lines if none of them requests an
/// audit, readiness, an explanation or the handover. After the handover, they behave like the lines
/// of a script.
pub fn plain_session_acts_as_firmware()
    ensures plain { PlainSessions }
    ensures firmware { DrivenIsFirmware }
    ensures script { GivenIsScript }
{}

/// Proves that a board at reset stays at reset until a write succeeds, whatever was read or
/// refused.
pub fn unwritten_board_stays_at_reset()
    ensures accesses { AccessesTellWritten }
    ensures lines { LinesTellWritten }
{}

/// Proves that if a session has guests, one of its lines handed the board over. From there on, a
/// guest's replies and state depend only on its own functions and inputs, whatever firmware did
/// before.
pub fn session_guests_are_isolated()
    ensures given { GivenBy }
    ensures isolated { IsolatedSessions }
{}

/// Proves that on any board that was handed over, by any firmware, a guest's replies and state
/// depend only on its own functions and inputs. So a guest gets the same replies on two such boards
/// that agree on its functions, and on a board from our own set-up. The board stays consistent,
/// with each region of an assigned function enabled.
pub fn any_firmware_isolates_guests()
    ensures isolated { GivenIsolated }
    ensures alike { GivenAlike }
    ensures set_up { GivenAsSetUp }
    ensures stays { GivenStays }
    ensures orderly { OrderlyStays }
{}

/// Proves that running a session in pieces has the same output and result as running the whole
/// session, and that a run that fails has written a prefix of the output.
pub fn session_in_pieces_runs_alike()
    ensures output { OutputAlong session_protocol }
    ensures after { AfterAlong session_protocol }
    ensures stopped { StoppedIsBeginning session_protocol }
    ensures cut { CutIsBeginning session_protocol }
{}

/// Proves that firmware accesses turn a handoff into another handoff of the same board.
pub fn firmware_states_are_handoffs()
    ensures access { AccessLeaves }
    ensures lines { LinesLeave }
{}

/// Proves that in every state that a session reaches, a walk of an endpoint's capability list on the
/// board finds the declared structures, in order.
pub fn sessions_show_capability_lists()
    ensures { SessionsShowLists }
{}
