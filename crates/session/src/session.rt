//! A session over a board.
ghost use Rattle.std.specs.{Prelude.{◌≡◌, ◌≢◌, ◌++◌, [], ⊤, option_map, string_bytes, is_some, Ok, None, IsOk, IfOk, IfErr, IfSome, OnOk, OnErr, MatchResult, IsFalse}, Borrow.sem, Option.option_copied_mut};
ghost use Rattle.model_guests.specs.{Text.Text, World.{World, IsLawfulWorld}};
ghost use Rattle.model_lines.specs.Sessions.{driven, given, at_reset, session_functions, session_protocol, session_output, after_session_line};
ghost use Rattle.lines.specs.Pieces.{IsBefore, with_more};
ghost use Rattle.board_file.specs.{declared.fault.BoardFault.TheVariants.Memory, Faults.number_of as file_number};
ghost use Rattle.session.specs.{Files.{Declares, Refuses}, Boards.{IsHandedOverAs, IsRefusalOf}, Questions.{told_by, counted_by}, Refusals.refusal_in, Stages.{board_in, machine_in, asks_for_more}};

use crate::asking::parse_line_unless_too_long;
use crate::board::Board;
use crate::questions::{Question, ReportForm, ask_machine};
use crate::stage::{Stage, answer_handover, hand_over};
use board_file::BoardFault;
use findings_render::CountedText;
use headers::Apertures;
use lines::{Answer, Answers, HostRequest, LineText};
use monitor::{HandoverFault, Monitor, Names};
use std::alloc::{AllocError, Global};
use std::marker::Model;

/// A board with its prospective guests: driven by firmware at first, and assigned to the guests
/// after the handover.
#[derive(Drop)]
pub struct Session {
    alloc: Global,
    stage: Stage,
}

impl Model for Session {
    ghost use Rattle.model_lines.specs.Sessions.{SessionNow};
    ghost use Rattle.session.specs.Stages.{session_now, IsAtLine};

    ghost Value = { SessionNow };

    ghost view = { λ s. session_now s.stage };

    ghost invariant = { λ s. IsAtLine s.stage };
}

impl Session {
    ghost use Rattle.session.specs.Lending.{LendsBoard, LendsMonitor};

    /// Opens a session over the board of a board file, at reset. Fails if the file is refused
    /// (1xx) or memory is exhausted (199).
    pub fn open(alloc: Global, file: &[u8]) -> Result<Session, BoardFault>
        ensures reset { IfOk result (λ x.
            (w : World) × Declares file.now w × IsLawfulWorld w × (x ≡ driven (at_reset w))) }
        ensures refused { IfErr result (λ f. f ≢ Memory → Refuses file.now (file_number f)) }
    {
        let board = Board::parse(alloc, file)?;
        Ok(Session::from_board(alloc, board))
    }

    /// Creates a session in which firmware drives the board.
    pub fn from_board(alloc: Global, board: Board) -> Session
        ensures { result ≡ driven board }
    {
        Session {
            alloc,
            stage: Stage::Driven(board),
        }
    }

    /// Creates a session after the handover: the monitor has the board and its guests.
    pub fn from_monitor(alloc: Global, monitor: Monitor) -> Session
        ensures { result ≡ given monitor }
    {
        Session {
            alloc,
            stage: Stage::Given(monitor),
        }
    }

    /// Returns whether firmware drives the board, before any handover to guests.
    pub fn is_before_handover(&self) -> bool
        ensures { result ≡ is_some (board_in self.now) }
    {
        matches!(self.stage, Stage::Driven(_))
    }

    /// Borrows the board, if firmware drives it.
    pub fn board(&mut self) -> Option<&mut Board>
        ensures* lends { sem 𝓛 (LendsBoard self.entry result) }
        ensures board { option_copied_mut result ≡ board_in self.old }
    {
        match &mut self.stage {
            Stage::Driven(board) => Some(board),
            _ => None,
        }
    }

    /// Borrows the monitor, which has the board and its guests, after the handover.
    pub fn monitor(&mut self) -> Option<&mut Monitor>
        ensures* lends { sem 𝓛 (LendsMonitor self.entry result) }
        ensures machine { option_copied_mut result ≡ machine_in self.old }
    {
        match &mut self.stage {
            Stage::Given(monitor) => Some(monitor),
            _ => None,
        }
    }

    /// Hands the board over to its guests in its present state, whoever configured it, like
    /// [`Board::hand_over`]. Does nothing if the guests have it already. Fails with 207 if the
    /// audit reports a problem, with 206 if a region of a function to assign is disabled, or with
    /// 299 if memory is exhausted, and then the board isn't changed.
    pub fn hand_over(&mut self, alloc: Global) -> Result<(), HandoverFault>
        ensures given { OnOk result (IfSome (board_in self.old) (λ b. IsHandedOverAs b self.new)) }
        ensures stays { IfSome (machine_in self.old)
            (λ _. IsOk result × (self.new ≡ self.old)) }
        ensures kept { OnErr result (self.new ≡ self.old) }
        ensures refused { IfErr result (λ f. IfSome (board_in self.old) (λ b. IsRefusalOf b f)) }
    {
        if !self.is_before_handover() {
            return Ok(());
        }
        hand_over(alloc, &mut self.stage)
    }

    /// Answers a question about the registers as they are now, whoever wrote them, given these
    /// apertures. Changes nothing, even if memory is exhausted.
    pub fn ask(
        &mut self,
        alloc: Global,
        question: Question,
        apertures: &Apertures,
    ) -> Result<CountedText, AllocError>
        ensures text { IfOk result (λ t. string_bytes t.text
            ≡ told_by question apertures.now (session_functions self.old)) }
        ensures count { IfOk result (λ t.
            t.count ≡ counted_by question apertures.now (session_functions self.old)) }
        ensures after { self.new ≡ self.old }
    {
        match &mut self.stage {
            Stage::Driven(board) => board.ask(alloc, question, apertures),
            Stage::Given(monitor) => ask_machine(alloc, monitor, question, apertures),
            Stage::Between => unreachable!(),
        }
    }

    /// Answers a line of the session. `long` means that the line's first bytes were discarded
    /// because it is too long.
    #[tactic(auto, using(crate::proofs::Reports::told_in_lines))]
    fn answer_line(
        &mut self,
        line: &[u8],
        long: bool,
        text: &mut LineText,
    ) -> Result<Answer, AllocError>
        requires { text.old.items ≡ [] }
        ensures text { IfOk result (λ a. (before : Text) → IsBefore long before →
            with_more text.new.items (option_map string_bytes a.more)
            ≡ session_output self.old (before ++ line.now)) }
        ensures refused { IfOk result (λ a. (before : Text) → IsBefore long before →
            a.refused ≡ refusal_in self.old (before ++ line.now)) }
        ensures after { OnOk result ((before : Text) → IsBefore long before →
            self.new ≡ after_session_line self.old (before ++ line.now)) }
        ensures more { IfOk result (λ a.
            IfSome a.more (λ _. (self.new ≡ self.old) × (text.new ≡ text.old))) }
        ensures kept { OnErr result ((self.new ≡ self.old) × (text.new ≡ text.old)) }
        ensures plain { (before : Text) → IsBefore long before →
            IsFalse (asks_for_more self.old (before ++ line.now)) →
            MatchResult result (λ a. a.more ≡ None) (λ _. ⊥) }
    {
        match &mut self.stage {
            Stage::Given(monitor) => {
                let refused = script::answer_line(monitor, line, long, text);
                Ok(Answer::one_line_at_most(refused))
            }
            Stage::Driven(board) => {
                let what = parse_line_unless_too_long(line, long);
                let apertures = board.apertures();
                match what.into_host_request() {
                    None => {
                        let refused = board.execute_or_refusal_number(what, text);
                        Ok(Answer::one_line_at_most(refused))
                    }
                    Some(request) => match request {
                        HostRequest::Report(report) => {
                            let form = ReportForm::Lines;
                            let question = Question { report, form };
                            let told = board.ask(self.alloc, question, &apertures)?;
                            Ok(Answer::text(told.text))
                        }
                        HostRequest::Why(at) => {
                            let told = board.explain_access(self.alloc, ReportForm::Lines, at)?;
                            Ok(Answer::text(told))
                        }
                        HostRequest::Guests => answer_handover(self.alloc, &mut self.stage, text),
                    },
                }
            }
            Stage::Between => unreachable!(),
        }
    }

    /// Runs a line, which comes without its line feed, and writes its output to an empty text:
    /// nothing, or one line with its line feed. Longer output, the answer to a query or the report
    /// of a refused handover, is returned instead, and then the session isn't changed. Only these
    /// lines allocate memory. If memory is exhausted, nothing is executed and nothing is written.
    pub fn run_line(
        &mut self,
        line: &[u8],
        text: &mut LineText,
    ) -> Result<Option<String>, AllocError>
        requires { text.old.items ≡ [] }
        ensures text { IfOk result (λ more.
            with_more text.new.items (option_map string_bytes more)
            ≡ session_output self.old line.now) }
        ensures after { OnOk result (self.new ≡ after_session_line self.old line.now) }
        ensures more { IfOk result (λ more.
            IfSome more (λ _. (self.new ≡ self.old) × (text.new ≡ text.old))) }
        ensures kept { OnErr result ((self.new ≡ self.old) × (text.new ≡ text.old)) }
        ensures plain { IsFalse (asks_for_more self.old line.now) → result ≡ Ok None }
    {
        let answer = self.answer_line(line, false, text)?;
        Ok(answer.more)
    }
}

/// The language of sessions: firmware accesses, queries and the handover line, and after the
/// handover the lines of a guest script.
pub struct SessionLines;

impl Answers<SessionLines> for Session {
    ghost protocol = { session_protocol };

    ghost refusal = { refusal_in };

    ghost TakesMemory = { ⊤ };

    fn answer(
        &mut self,
        line: &[u8],
        long: bool,
        text: &mut LineText,
    ) -> Result<Answer, AllocError> {
        self.answer_line(line, long, text)
    }

    fn guests(&self) -> Option<&Names> {
        match &self.stage {
            Stage::Driven(_) => None,
            Stage::Given(monitor) => Some(monitor.names()),
            Stage::Between => unreachable!(),
        }
    }
}
