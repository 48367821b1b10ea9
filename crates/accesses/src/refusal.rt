//! Refusals of accesses, device events and script lines.
ghost use Rattle.std.specs.Prelude.{◌≡◌, ◌≤◌, ◌++◌, codes, decimal, length};
ghost use Rattle.model_guests.specs.Replies.{refusal_words};
ghost use Rattle.accesses.specs.Refusals.{number_of};

/// The reason why an access, a raise, a move, a query or a line is refused. Each has a number and a
/// message.
#[derive(Clone, Copy, Debug, PartialEq, Eq)]
pub enum Refusal {
    /// 301: the offset, port or address is not a multiple of the width.
    Misaligned,
    /// 302: the width is not 1, 2 or 4.
    Width,
    /// 303: a slot, offset, port or register is out of range.
    Range,
    /// 401: the line doesn't match the grammar.
    BadLine,
    /// 402: the first word of the line isn't the name of a guest.
    UnknownGuest,
    /// 403: the line is longer than 200 bytes.
    LongLine,
    /// 601: the slot is empty.
    EmptySlot,
    /// 602: the slot to which a function is to be moved is occupied.
    SlotTaken,
}

impl Refusal {
    /// Returns the number of the refusal.
    pub fn number(self) -> u16
        ensures { result ≡ number_of self }
    {
        match self {
            Refusal::Misaligned => 301,
            Refusal::Width => 302,
            Refusal::Range => 303,
            Refusal::BadLine => 401,
            Refusal::UnknownGuest => 402,
            Refusal::LongLine => 403,
            Refusal::EmptySlot => 601,
            Refusal::SlotTaken => 602,
        }
    }

    /// Returns the text of the refusal in a reply: `refused`, the number and the message.
    pub fn text(self) -> &'static [u8]
        ensures text { result.now ≡ codes "refused " ++ decimal (number_of self) ++ codes " "
            ++ refusal_words (number_of self) }
        ensures short { length result.now ≤ 25 }
    {
        match self {
            Refusal::Misaligned => b"refused 301 misaligned",
            Refusal::Width => b"refused 302 width",
            Refusal::Range => b"refused 303 range",
            Refusal::BadLine => b"refused 401 bad line",
            Refusal::UnknownGuest => b"refused 402 unknown guest",
            Refusal::LongLine => b"refused 403 long line",
            Refusal::EmptySlot => b"refused 601 empty slot",
            Refusal::SlotTaken => b"refused 602 slot taken",
        }
    }
}
