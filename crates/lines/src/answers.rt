//! The interface of servers that answer lines.
ghost use Rattle.std.specs.Prelude.{◌≡◌, ◌++◌, ℕ, [], Option, None, Some, option_map, string_bytes, IfOk, OnOk, OnErr};
ghost use Rattle.model_guests.specs.{Text.Text, LineRuns.Protocol};
ghost use Rattle.lines.specs.Pieces.{IsBefore, with_more};

use crate::replies::LineText;
use accesses::Names;
use std::alloc::AllocError;

/// The outcome of a line, besides the short text that it writes.
#[derive(Drop)]
pub struct Answer {
    /// The output after the short text, if the line writes more than one output line.
    pub more: Option<String>,
    /// The number of the refusal, if the line is refused.
    pub refused: Option<u16>,
}

impl Answer {
    /// Returns the outcome of a line that writes at most one output line.
    pub fn one_line_at_most(refused: Option<u16>) -> Answer
        ensures { result ≡ record { more = None; refused = refused } }
    {
        Answer {
            more: None,
            refused,
        }
    }

    /// Returns the outcome of an accepted line that writes `text`.
    pub fn text(text: String) -> Answer
        ensures { result ≡ record { more = Some text; refused = None } }
    {
        Answer {
            more: Some(text),
            refused: None,
        }
    }
}

/// A server that answers the lines of a language, one at a time. The parameter `L` identifies the
/// language. It lets a higher crate implement the trait for a type of another crate.
pub trait Answers<L> {
    /// The output of each line, and the state after the line.
    ghost protocol: { Protocol Self };

    /// The number of each line's refusal, or `None` if the line is accepted.
    ghost refusal: { Self → Text → Option ℕ };

    /// Whether any line of the language allocates memory, and so can fail because memory is
    /// exhausted.
    ghost TakesMemory: { Type 0 };

    /// Executes a line and writes its output to `text`, which must be empty: nothing, or one line
    /// with its line feed. Longer output is returned in the answer and follows `text`. If `long` is
    /// set, more than 200 bytes of the line preceded `line` and were skipped. The remaining bytes
    /// of a long line don't matter. If memory is exhausted, the line has no effect and writes
    /// nothing.
    fn answer(&mut self, line: &[u8], long: bool, text: &mut LineText) -> Result<Answer, AllocError>
        requires { text.old.items ≡ [] }
        ensures text { IfOk result (λ a. (before : Text) → IsBefore long before →
            with_more text.new.items (option_map string_bytes a.more)
            ≡ protocol.writes self.old (before ++ line.now)) }
        ensures refused { IfOk result (λ a. (before : Text) → IsBefore long before →
            a.refused ≡ refusal self.old (before ++ line.now)) }
        ensures after { OnOk result ((before : Text) → IsBefore long before →
            self.new ≡ protocol.next self.old (before ++ line.now)) }
        ensures kept { OnErr result ((self.new ≡ self.old) × (text.new ≡ text.old)) }
        ensures memory { OnErr result TakesMemory };

    /// Returns the names of the guests whose lines the server answers, or `None` if it answers
    /// firmware's lines.
    fn guests(&self) -> Option<&Names>;
}
