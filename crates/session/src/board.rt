//! A board that firmware drives.
ghost use Rattle.std.specs.{Prelude.{◌≡◌, ◌≢◌, ◌≤◌, ◌++◌, ◌∷◌, [], false, not, codes, length, map, option_and_then, MatchOption, IfOk, IfErr, IfSome}, Bool.OnTrue};
ghost use Rattle.model_board.specs.AtReset.{board_at};
ghost use Rattle.model_guests.specs.{Accesses.{reads, writes}, Replies.reply_text, World.IsLawfulWorld, WorldNow.{board_state, names_now}};
ghost use Rattle.model_handoff.specs.Changes.{BeginsIn};
ghost use Rattle.model_lines.specs.{HostAccesses.answer, FirmwareLines.text_by, GivenLaws.IsGiven, Sessions.{at_reset, after_board_access, after_meant}};
ghost use Rattle.accesses.specs.{Accesses.reply_of, Replies.{IsRefusal, IsShown}};
ghost use Rattle.lines.specs.FirmwareLines.{host_asked, firmware_meaning_of};
ghost use Rattle.board_file.specs.{declared.fault.BoardFault.TheVariants.Memory, Faults.number_of as file_number};
ghost use Rattle.bus_scan.specs.{declared.fault.Fault.TheVariants.Memory as SetUpMemory, Faults.number_of as set_up_number};
ghost use Rattle.session.specs.{Boards.IsRefusalOf, Files.{Declares, Refuses, BreaksRule, IsAtFirst}, Refusals.refusal_by};
ghost use Rattle.monitor.specs.Beginnings.{with_no_slots};
ghost use Rattle.script.specs.Refusals.{refusal_of};

use crate::accessing;
use crate::opening::set_up_and_assign;
use accesses::{GuestDecl, HostAccess, Refusal, Reply};
use board_file::{BoardFault, read_board};
use headers::Apertures;
use host_bridge::Host;
use lines::{FirmwareCommand, LineText, write_named_reply_line};
use monitor::{Monitor, Refused};
use script::refusal_number;
use std::alloc::{AllocError, Global};
use std::marker::Model;

/// The board and the guests that a board file declares, driven by firmware from reset on. A flag
/// records whether firmware has written anything since reset, because our own set-up runs only on a
/// board at reset.
#[derive(Drop)]
pub struct Board {
    pub(crate) host: Host,
    guests: Vec<GuestDecl>,
    written: bool,
}

impl Model for Board {
    ghost use Rattle.model_lines.specs.Sessions.{DrivenNow};
    ghost use Rattle.session.specs.Boards.{board_now, IsBoardNow};

    ghost Value = { DrivenNow };

    ghost view = { λ b. board_now b.host b.guests.items b.written };

    ghost invariant = { λ b. IsBoardNow (board_now b.host b.guests.items b.written) };
}

impl Board {
    /// Returns the board of a board file, at reset. Validates and keeps the guests of the file, but
    /// assigns no function to them yet. Fails if the file is refused (1xx) or memory is
    /// exhausted (199).
    pub fn parse(alloc: Global, file: &[u8]) -> Result<Board, BoardFault>
        ensures declared { IfOk result (λ b. Declares file.now b.world) }
        ensures lawful { IfOk result (λ b. IsLawfulWorld b.world) }
        ensures reset { IfOk result (λ b. b ≡ at_reset b.world) }
        ensures refused { IfErr result (λ f. f ≢ Memory → Refuses file.now (file_number f)) }
    {
        let (host, guests) = read_board(alloc, file)?;
        Ok(Board {
            host,
            guests,
            written: false,
        })
    }

    /// Returns a new board with the functions of a machine's board, at reset, and with guests of
    /// the same names whose slots are empty. The machine isn't changed.
    pub fn recreate_at_reset(alloc: Global, machine: &Monitor) -> Result<Board, AllocError>
        ensures board { let board = board_at (board_state machine.now.world).functions in
            IfOk result (λ b. b.world.board ≡ board) }
        ensures guests { IfOk result (λ b.
            b.world.guests ≡ map with_no_slots (names_now machine.now.world)) }
        ensures reset { IfOk result (λ b. b ≡ at_reset b.world) }
    {
        let (host, guests) = machine.anew(alloc)?;
        Ok(Board {
            host,
            guests,
            written: false,
        })
    }

    /// Returns whether the board is at reset because nothing was written to it.
    pub fn is_at_reset(&self) -> bool
        ensures untouched { result ≡ not self.now.written }
        ensures reset { OnTrue result (self.now ≡ at_reset self.now.world) }
    {
        !self.written
    }

    /// Returns the apertures from which the board file lets addresses be assigned.
    pub fn apertures(&self) -> Apertures
        ensures { result ≡ self.now.world.apertures }
    {
        self.host.apertures()
    }

    /// Answers a read by firmware, or refuses it and changes nothing. Allocates no memory.
    pub fn read(&mut self, from: HostAccess) -> Reply
        ensures reply { reply_of result ≡ answer self.old.state (host_asked from reads) }
        ensures after { self.new ≡ after_board_access self.old (host_asked from reads) }
        ensures shown { IsShown result }
        ensures refused { IsRefusal result → self.new ≡ self.old }
    {
        accessing::read(&mut self.host, from)
    }

    /// Performs a write by firmware, or refuses it and changes nothing. Allocates no memory.
    pub fn write(&mut self, to: HostAccess, value: u32) -> Reply
        ensures reply { reply_of result ≡ answer self.old.state (host_asked to (writes value)) }
        ensures after { self.new ≡ after_board_access self.old (host_asked to (writes value)) }
        ensures shown { IsShown result }
        ensures refused { IsRefusal result → self.new ≡ self.old }
    {
        let reply = accessing::write(&mut self.host, to, value);
        if matches!(reply, Reply::Done) {
            self.written = true;
        }
        reply
    }

    /// Executes a line. Returns the name to print in front of the reply, and the reply, or None if
    /// the line has no output.
    fn run_with_label_if_output(&mut self, what: FirmwareCommand) -> Option<(&'static [u8], Reply)>
        ensures text { let text = text_by self.old.state (firmware_meaning_of what) in
            MatchOption result (text ≡ []) (λ a.
            text ≡ a.0.now ++ codes ": " ++ reply_text (reply_of a.1) ++ 10 ∷ []) }
        ensures refused { option_and_then (λ a. refusal_of (reply_of a.1)) result
            ≡ refusal_by self.old.state (firmware_meaning_of what) }
        ensures after { self.new ≡ after_meant self.old (firmware_meaning_of what) }
        ensures short { IfSome result (λ a. length a.0.now ≤ 16) }
        ensures shown { IfSome result (λ a. IsShown a.1) }
    {
        match what {
            FirmwareCommand::Nothing => None,
            FirmwareCommand::Read(from) => {
                let reply = self.read(from);
                Some((b"host", reply))
            }
            FirmwareCommand::Write(to, value) => {
                let reply = self.write(to, value);
                Some((b"host", reply))
            }
            FirmwareCommand::Asks(_) | FirmwareCommand::NoForm => {
                Some((b"host", Reply::Refused(Refusal::BadLine)))
            }
            FirmwareCommand::NotOfHost(why) => Some((b"?", Reply::Refused(why))),
        }
    }

    /// Executes a firmware line, and writes its output to an empty text: nothing, or one line with
    /// its line feed. Returns the number of the refusal, if the line is refused. Queries aren't
    /// handled here and count as bad lines. Allocates no memory.
    pub(crate) fn execute_or_refusal_number(
        &mut self,
        what: FirmwareCommand,
        text: &mut LineText,
    ) -> Option<u16>
        requires { text.old.items ≡ [] }
        ensures text { text.new.items ≡ text_by self.old.state (firmware_meaning_of what) }
        ensures refused { result ≡ refusal_by self.old.state (firmware_meaning_of what) }
        ensures after { self.new ≡ after_meant self.old (firmware_meaning_of what) }
    {
        let (name, reply) = self.run_with_label_if_output(what)?;
        write_named_reply_line(text, name, reply);
        refusal_number(reply)
    }

    /// Runs our own set-up on a copy of this board, which is at reset, and assigns its functions to
    /// the guests of the file. This board isn't changed. Fails if the board can't be set up
    /// (2xx) or memory is exhausted (299).
    pub fn set_up_copy(&self, alloc: Global) -> Result<Monitor, bus_scan::Fault>
        ensures made { IfOk result (BeginsIn (IsAtFirst self.now.world)) }
        ensures placement { IfErr result (λ f.
            f ≢ SetUpMemory → BreaksRule self.now.world (set_up_number f)) }
    {
        let host = self.host.copy_at_reset(alloc)?;
        set_up_and_assign(alloc, host, &self.guests)
    }

    /// Assigns the functions of this board to the guests of its file, in the present state of the
    /// board, whoever configured it. Resets each assigned function, except for the registers that
    /// guests have copies of, and clears CONFIG_ADDRESS. Fails with 207 if the audit reports a
    /// problem, with 206 if a region of a function to assign is disabled, or with 299 if memory is
    /// exhausted, and then returns the board unchanged.
    pub fn hand_over(self, alloc: Global) -> Result<Monitor, Refused<Board>>
        ensures given { IfOk result (BeginsIn (IsGiven self.world self.state)) }
        ensures kept { IfErr result (λ r. r.board ≡ self) }
        ensures refused { IfErr result (λ r. IsRefusalOf self r.fault) }
    {
        let Board {
            host,
            guests,
            written,
        } = self;
        match Monitor::hand_over(alloc, host, &guests) {
            Ok(monitor) => Ok(monitor),
            Err(refused) => {
                let Refused { board: host, fault } = refused;
                let board = Board {
                    host,
                    guests,
                    written,
                };
                Err(Refused { board, fault })
            }
        }
    }
}
