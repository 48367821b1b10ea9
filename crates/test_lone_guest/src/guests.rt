//! Guests with their functions and CONFIG_ADDRESS registers.
ghost use Rattle.std.specs.Prelude.{◌≤◌, None, ◌≡◌, IfSome};
ghost use Rattle.accesses.specs.Replies.{IsShown};

use crate::declared::LoneEndpoint;
use crate::function::Function;
use accesses::{Access, At, Names, Op, Place, Refusal, Reply};
use bars::Space;
use lines::{LineText, What, Who, parse_line, reply_line_text};
use std::alloc::{AllocError, Global};

/// The target of an access: a function, by its index in the list of all functions, with a place and
/// an offset, or `None` for an unclaimed access.
type Landing = Option<(usize, Place, u64)>;

/// All functions of all guests in one list, and the CONFIG_ADDRESS of each guest.
#[derive(Drop)]
pub struct LoneGuests {
    functions: Vec<Function>,
    latches: Vec<u32>,
}

/// Returns the first check that an access fails.
fn first_refusal(at: At, width: u64) -> Option<Refusal>
    ensures { result ≡ None → width ≤ 4 }
{
    let (number, out_of_range) = match at {
        At::Config { slot, off } => (off, slot > 31 || off > 255),
        At::Io { port } => (port, port > 0xffff_ffff),
        At::Mem { addr } => (addr, false),
    };
    if width != 1 && width != 2 && width != 4 {
        Some(Refusal::Width)
    } else if number % width != 0 {
        Some(Refusal::Misaligned)
    } else if out_of_range {
        Some(Refusal::Range)
    } else {
        None
    }
}

impl LoneGuests {
    /// Returns guests at reset, with CONFIG_ADDRESS 0. Each guest's endpoints are in its slots,
    /// from slot 0 on. Fails only if memory is exhausted.
    pub fn new(alloc: Global, guests: Vec<Vec<LoneEndpoint>>) -> Result<LoneGuests, AllocError> {
        let mut functions = Vec::new(alloc);
        let mut latches = Vec::new(alloc);
        for (guest, endpoints) in guests.into_iter().enumerate() {
            latches.push(0u32)?;
            for (slot, endpoint) in endpoints.into_iter().enumerate() {
                functions.push(Function::new(alloc, guest, slot as u64, endpoint)?)?;
            }
        }
        Ok(LoneGuests { functions, latches })
    }

    fn function_index(&self, guest: usize, slot: u64) -> Option<usize> {
        self.functions.iter().position(|function| function.guest == guest && function.slot == slot)
    }

    fn latch(&self, guest: usize) -> u32 {
        self.latches.get(guest).copied().unwrap_or(0)
    }

    /// Returns the first region of a guest that decodes an address, by slot and then by base
    /// address register.
    fn claimant(&self, guest: usize, space: Space, addr: u64) -> Landing {
        for slot in 0..32 {
            if let Some(index) = self.function_index(guest, slot) {
                let function = self.functions.get(index)?;
                if let Some((place, off)) = function.decode(space, addr) {
                    return Some((index, place, off));
                }
            }
        }
        None
    }

    /// Returns the target of an access to a port. CFCh to CFFh are CONFIG_DATA while CONFIG_ADDRESS
    /// is enabled. The guest's slots are the devices of bus 0, each with only function 0.
    fn landing_of_port(&self, guest: usize, port: u64) -> Landing {
        let latch = self.latch(guest);
        let is_enabled = latch & 0x8000_0000 != 0;
        if !is_enabled || port < 0xcfc || port > 0xcff {
            return self.claimant(guest, Space::Io, port);
        }
        if latch & 0x00ff_0700 != 0 {
            return None;
        }
        let index = self.function_index(guest, u64::from(latch >> 11 & 31))?;
        Some((index, Place::Cfg, u64::from(latch & 0xfc) + (port - 0xcfc)))
    }

    fn landing(&self, guest: usize, at: At) -> Landing {
        match at {
            At::Config { slot, off } => Some((self.function_index(guest, slot)?, Place::Cfg, off)),
            At::Io { port } => self.landing_of_port(guest, port),
            At::Mem { addr } => self.claimant(guest, Space::Mem, addr),
        }
    }

    fn read_or_all_ones(&mut self, landing: Landing, width: u64) -> u32 {
        if let Some((index, place, off)) = landing {
            if let Some(function) = self.functions.get_mut(index) {
                return function.read(place, off, width);
            }
        }
        match width {
            1 => 0xff,
            2 => 0xffff,
            _ => 0xffff_ffff,
        }
    }

    fn write(&mut self, landing: Landing, width: u64, value: u32) {
        if let Some((index, place, off)) = landing {
            if let Some(function) = self.functions.get_mut(index) {
                function.write(place, off, width, value);
            }
        }
    }

    /// Reads or writes the four bytes of CONFIG_ADDRESS at CF8h.
    fn access_latch(&mut self, guest: usize, op: Op) -> Reply
        ensures { IsShown result }
    {
        match op {
            Op::Read => Reply::Value(self.latch(guest), 4),
            Op::Write(value) => {
                if let Some(latch) = self.latches.get_mut(guest) {
                    *latch = value & 0x80ff_fffc;
                }
                Reply::Done
            }
        }
    }

    fn access(&mut self, guest: usize, access: Access) -> Reply
        ensures { IsShown result }
    {
        let Access { at, width, op } = access;
        if let Some(why) = first_refusal(at, width) {
            return Reply::Refused(why);
        }
        if width == 4 && at == (At::Io { port: 0xcf8 }) {
            return self.access_latch(guest, op);
        }
        let landing = self.landing(guest, at);
        match op {
            Op::Read => Reply::Value(self.read_or_all_ones(landing, width), width),
            Op::Write(value) => {
                self.write(landing, width, value);
                Reply::Done
            }
        }
    }

    fn raise(&mut self, guest: usize, slot: u64, place: Place, off: u64, mask: u8) -> Reply
        ensures { IsShown result }
    {
        if slot > 31 {
            return Reply::Refused(Refusal::Range);
        }
        let Some(index) = self.function_index(guest, slot) else {
            return Reply::Refused(Refusal::EmptySlot);
        };
        let Some(function) = self.functions.get_mut(index) else {
            return Reply::Refused(Refusal::EmptySlot);
        };
        if !function.is_in_range(place, off) {
            return Reply::Refused(Refusal::Range);
        }
        function.raise(place, off, mask);
        Reply::Done
    }

    fn move_function(&mut self, from: usize, slot: u64, to: usize, target: u64) -> Reply
        ensures { IsShown result }
    {
        if slot > 31 || target > 31 {
            return Reply::Refused(Refusal::Range);
        }
        let Some(index) = self.function_index(from, slot) else {
            return Reply::Refused(Refusal::EmptySlot);
        };
        if self.function_index(to, target).is_some() {
            return Reply::Refused(Refusal::SlotTaken);
        }
        if let Some(function) = self.functions.get_mut(index) {
            function.move_and_reset(to, target);
        }
        Reply::Done
    }

    /// Returns the reply to a parsed line. Returns `None` for a line without output, and for a read
    /// by the host, which this model can't answer.
    pub fn reply(&mut self, what: What) -> Option<Reply>
        ensures { IfSome result IsShown }
    {
        match what {
            What::Nothing | What::Host(_) => None,
            What::Guest(guest, access) => Some(self.access(guest, access)),
            What::Raise(guest, slot, place, off, mask) => {
                Some(self.raise(guest, slot, place, off, mask))
            }
            What::Move(from, slot, to, target) => {
                Some(self.move_function(from, slot, to, target))
            }
            What::Bad(_, why) => Some(Reply::Refused(why)),
        }
    }

    /// Returns the output for a line of a script, which comes without its line feed, with these
    /// guest names. Returns `None` for a line without output, and for a read by the host.
    pub fn answer_line(&mut self, line: &[u8], names: &Names) -> Option<LineText> {
        let what = parse_line(line, names).what;
        let who = match what {
            What::Guest(guest, _) | What::Raise(guest, _, _, _, _) => Who::Guest(guest),
            What::Bad(who, _) => who,
            What::Nothing | What::Host(_) | What::Move(_, _, _, _) => Who::Host,
        };
        let reply = self.reply(what)?;
        Some(reply_line_text(who, names, reply))
    }
}
