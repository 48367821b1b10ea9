//! A parser for files of guests. Each line is a keyword and its operands:
//!
//! - `guest NAME` starts a guest. Its endpoints follow, slot 0 first.
//! - `endpoint` starts an endpoint. Its declared registers, its regions and its device-specific
//!   configuration registers follow.
//! - `register OFFSET WIDTH VALUE CLEARED` declares a register of the header. No bit is writable.
//! - `bar INDEX KIND SIZE` declares a region. KIND is 0 (I/O), 1 (32-bit memory), 2 (32-bit
//!   prefetchable memory), 3 (64-bit memory) or 4 (64-bit prefetchable memory).
//! - `cells COUNT VALUE WRITABLE CLEARED` appends COUNT identical registers to the last region.
//! - `config OFFSET VALUE WRITABLE CLEARED` declares a device-specific configuration register.
use crate::declared::{LoneBlock, LoneEndpoint, LoneRegion};
use crate::register::Register;
use accesses::Names;
use arrayvec::ArrayString;
use bars::Kind;
use std::alloc::Global;

/// The guests' names and their endpoints.
#[derive(Drop)]
pub(crate) struct Declared {
    pub(crate) names: Names,
    pub(crate) guests: Vec<Vec<LoneEndpoint>>,
}

/// Returns the kind of a region from its number.
fn kind_from_number(number: u64) -> Kind {
    match number {
        0 => Kind::Io,
        1 | 2 => Kind::Mem32 { pref: number == 2 },
        _ => Kind::Mem64 { pref: number == 4 },
    }
}

fn byte_or_zero(number: u64) -> u8 {
    u8::try_from(number).unwrap_or(0)
}

fn parse_number_or_zero(text: &str) -> u64 {
    text.parse::<u64>().unwrap_or(0)
}

/// Parses the operands of a line. Missing ones are 0.
fn parse_operands(words: &[&str]) -> [u64; 4] {
    let mut numbers = [0u64; 4];
    for (slot, text) in numbers.iter_mut().zip(words.iter()) {
        *slot = parse_number_or_zero(text);
    }
    numbers
}

impl Declared {
    fn add_guest_if_room(&mut self, alloc: Global, name: &str) -> Option<()> {
        let mut text = ArrayString::new();
        text.try_push_str(name).ok()?;
        self.names.try_push(text).ok()?;
        self.guests.push(Vec::new(alloc)).ok()
    }

    /// Adds the region, the register or the registers in a line to the last endpoint.
    fn add_to_last_endpoint(&mut self, alloc: Global, kind: &str, numbers: [u64; 4]) -> Option<()> {
        let [first, second, third, fourth] = numbers;
        let last = self.guests.last_mut()?.last_mut()?;
        match kind {
            "register" => last.header.push(numbers).ok(),
            "bar" => {
                let block = Vec::new(alloc);
                let (index, kind, size) = (byte_or_zero(first), kind_from_number(second), third);
                last.bar
                    .push(LoneRegion {
                        index,
                        kind,
                        size,
                        block,
                    })
                    .ok()
            }
            "config" => {
                let register = Register::new(
                    byte_or_zero(second),
                    byte_or_zero(third),
                    byte_or_zero(fourth),
                );
                let mut block = Vec::new(alloc);
                block.push(register).ok()?;
                last.config
                    .push(LoneBlock {
                        off: byte_or_zero(first),
                        block,
                    })
                    .ok()
            }
            _ => {
                let register = Register::new(
                    byte_or_zero(second),
                    byte_or_zero(third),
                    byte_or_zero(fourth),
                );
                let block = &mut last.bar.last_mut()?.block;
                for _ in 0..first {
                    block.push(register).ok()?;
                }
                Some(())
            }
        }
    }

    /// Adds the declaration in a line.
    fn add_line(&mut self, alloc: Global, words: &[&str]) -> Option<()> {
        match words {
            [] => Some(()),
            ["guest", name] => self.add_guest_if_room(alloc, name),
            ["endpoint"] => {
                let added = LoneEndpoint {
                    header: Vec::new(alloc),
                    bar: Vec::new(alloc),
                    config: Vec::new(alloc),
                };
                self.guests.last_mut()?.push(added).ok()
            }
            [kind, rest @ ..] => self.add_to_last_endpoint(alloc, kind, parse_operands(rest)),
        }
    }
}

/// Parses a file of guests. Returns None if it has another form or memory is exhausted.
pub(crate) fn parse_guests(alloc: Global, text: &str) -> Option<Declared> {
    let mut declared = Declared {
        names: Names::new(),
        guests: Vec::new(alloc),
    };
    for line in text.lines() {
        let words: Vec<&str> = line.split_whitespace().collect(alloc).ok()?;
        declared.add_line(alloc, words.as_slice())?;
    }
    Some(declared)
}
