//! Parsing of firmware's requests other than accesses.
ghost use Rattle.std.specs.Prelude.{◌≡◌, ◌∷◌, [], map, option_map};
ghost use Rattle.model_lines.specs.{Reports.report_named, Requests.{why_place, request_of_word, request_of as request_of_words}};
ghost use Rattle.accesses.specs.Accesses.{host_target_of};
ghost use Rattle.lines.specs.Requests.{report_of, request_of};

use crate::firmware_line::parse_u32;
use crate::forms::parse_bdf;
use crate::numbers::parse_number;
use accesses::HostAt;

/// A report about the current registers of a board.
#[derive(Clone, Copy, Debug, PartialEq, Eq)]
pub enum Report {
    /// An audit: all problems.
    Audit,
    /// A readiness report: all problems and readiness issues.
    Ready,
}

impl Report {
    /// Returns the report that a word asks for, in a line or as a command of the program.
    pub fn from_word(word: &[u8]) -> Option<Report>
        ensures { option_map report_of result ≡ report_named word.now }
    {
        if word == b"audit".as_slice() {
            return Some(Report::Audit);
        }
        if word == b"ready".as_slice() {
            return Some(Report::Ready);
        }
        None
    }
}

/// A request to a session other than an access.
#[derive(Clone, Copy, Debug, PartialEq, Eq)]
pub enum HostRequest {
    /// A report about the current registers.
    Report(Report),
    /// The handover of the board to its guests.
    Guests,
    /// An explanation of what an access reaches. For configuration space, the target's offset is 0.
    Why(HostAt),
}

/// Parses the arguments of `why`: a space, and an address, a port or a BDF in it.
pub(crate) fn parse_why_arguments(space: &[u8], at: &[u8]) -> Option<HostAt>
    ensures { option_map host_target_of result ≡ why_place space.now at.now }
{
    if space == b"mem".as_slice() {
        let addr = parse_number(at)?;
        return Some(HostAt::Mem { addr });
    }
    if space == b"io".as_slice() {
        let port = u64::from(parse_u32(at)?);
        return Some(HostAt::Io { port });
    }
    if space == b"cfg".as_slice() {
        let bdf = parse_bdf(at)?;
        return Some(HostAt::Config { bdf, off: 0 });
    }
    None
}

/// Parses a request of one word.
pub(crate) fn parse_one_word_request(word: &[u8]) -> Option<HostRequest>
    ensures { option_map request_of result ≡ request_of_word word.now }
{
    if word == b"guests".as_slice() {
        return Some(HostRequest::Guests);
    }
    let report = Report::from_word(word)?;
    Some(HostRequest::Report(report))
}

/// Parses `why` and its two arguments.
fn parse_why(word: &[u8], space: &[u8], at: &[u8]) -> Option<HostRequest>
    ensures { option_map request_of result
        ≡ request_of_words (word.now ∷ space.now ∷ at.now ∷ []) }
{
    if word != b"why".as_slice() {
        return None;
    }
    let asked = parse_why_arguments(space, at)?;
    Some(HostRequest::Why(asked))
}

/// Parses the words after `host` as a request.
#[tactic(auto, using(crate::proofs::RequestCounts::no_request_of_few, crate::proofs::RequestCounts::no_request_of_many))]
pub(crate) fn parse_host_request(words: &[&[u8]]) -> Option<HostRequest>
    ensures { option_map request_of result ≡ request_of_words (map (λ w. w.now) words.now) }
{
    match words {
        [word] => parse_one_word_request(word),
        [word, space, at] => parse_why(word, space, at),
        _ => None,
    }
}
