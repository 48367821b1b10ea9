//! Checks board files: the rules of the format first, then whether the declared board can be set
//! up.
ghost use Rattle.std.specs.Prelude.{◌≡◌, ◌≢◌, None, List, Ok, Err, IfOk, IfErr, IsUtf8, option_map};
ghost use Rattle.toml.specs.{Errors.IsWithin, Parse.parse_document, View.table_view};
ghost use Rattle.model_board.specs.AtReset.{IsAtReset};
ghost use Rattle.model_guests.specs.World.{Guest};
ghost use Rattle.board_file.specs.{Meaning.{world_in, meaning}, Sources.IsRead, declared.fault.BoardFault.TheVariants.Memory};
ghost use Rattle.session.specs.declared.opening.OpenFault.TheVariants.{SetUp};
ghost use Rattle.board_told.specs.Checking.{IsFaultOf, IsOutOfMemory};
ghost use Rattle.board_file.specs.Faults as of_file;

use board_file::{BoardFault, Source};
use board_fit::{WarningLevel, judge, verdict_text};
use board_refusal::{refusal_report, toml_error_message};
use diagnostics::{MessageLayout, RenderOptions};
use host_bridge::Host;
use session::OpenFault;
use std::alloc::{AllocError, Global};
use toml::de::Error;

/// The result of checking a board file: the text to print, and the fault of the file or its board,
/// if any.
#[derive(Drop)]
pub struct Checked {
    pub text: String,
    pub fault: Option<OpenFault>,
}

/// Reports why the bytes can't be parsed as TOML, and where the parser stopped.
fn report_toml_error(
    alloc: Global,
    options: &RenderOptions<'_>,
    board: &[u8],
    error: &Error,
) -> Result<Checked, OpenFault>
    requires within { IsWithin board.now error.now }
    requires no_document { IsUtf8 board.now → parse_document board.now ≡ None }
    ensures fault { IfOk result (λ c. IsFaultOf board.now c.fault) }
    ensures memory { IfErr result IsOutOfMemory }
{
    match toml_error_message(alloc, options.layout, options.name, board, error) {
        Ok(text) => Ok(Checked {
            text,
            fault: Some(OpenFault::File(BoardFault::NotToml)),
        }),
        Err(_) => Err(OpenFault::File(BoardFault::Memory)),
    }
}

/// Reports each entry that breaks a rule of the board-file format.
fn report_broken_rules(
    alloc: Global,
    options: &RenderOptions<'_>,
    source: &Source<'_>,
    fault: BoardFault,
) -> Result<Checked, OpenFault>
    requires read { IsRead source.now }
    requires refused { fault ≢ Memory
        → meaning (table_view source.now.document.now) ≡ Err (of_file.number_of fault) }
    ensures fault { IfOk result (λ c. IsFaultOf source.now.bytes.now c.fault) }
    ensures memory { IfErr result IsOutOfMemory }
{
    if fault == BoardFault::Memory {
        return Err(OpenFault::File(fault));
    }
    match refusal_report(alloc, options.layout, options.name, source, fault) {
        Ok(text) => Ok(Checked {
            text,
            fault: Some(OpenFault::File(fault)),
        }),
        Err(_) => Err(OpenFault::File(BoardFault::Memory)),
    }
}

/// Wraps a set-up fault of the board as an `OpenFault`.
fn wrap_set_up_fault(fault: Option<bus_scan::Fault>) -> Option<OpenFault>
    ensures { result ≡ option_map SetUp fault }
{
    fault.map(OpenFault::SetUp)
}

/// Judges the board of an accepted file and renders the verdict.
fn judge_board(
    alloc: Global,
    options: &RenderOptions<'_>,
    warned: WarningLevel,
    source: &Source<'_>,
    host: Host,
) -> Result<Checked, AllocError>
    requires read { IsRead source.now }
    requires declared { (gs : List Guest)
        × (meaning (table_view source.now.document.now) ≡ Ok (world_in host gs)) }
    requires reset { IsAtReset host.state }
    ensures { IfOk result (λ c. IsFaultOf source.now.bytes.now c.fault) }
{
    let verdict = judge(alloc, warned, source, host)?;
    let text = verdict_text(alloc, options, source, &verdict)?;
    let fault = wrap_set_up_fault(verdict.fault);
    Ok(Checked { text, fault })
}

/// Like `judge_board`, but reports exhausted memory as a set-up fault (299).
fn judge_or_memory_fault(
    alloc: Global,
    options: &RenderOptions<'_>,
    warned: WarningLevel,
    source: &Source<'_>,
    host: Host,
) -> Result<Checked, OpenFault>
    requires read { IsRead source.now }
    requires declared { (gs : List Guest)
        × (meaning (table_view source.now.document.now) ≡ Ok (world_in host gs)) }
    requires reset { IsAtReset host.state }
    ensures fault { IfOk result (λ c. IsFaultOf source.now.bytes.now c.fault) }
    ensures memory { IfErr result IsOutOfMemory }
{
    match judge_board(alloc, options, warned, source, host) {
        Ok(checked) => Ok(checked),
        Err(_) => Err(OpenFault::SetUp(bus_scan::Fault::Memory)),
    }
}

/// Checks a board file. The text has a line for each entry that breaks a rule, or the verdict on
/// the declared board. `name` is the file name to print. With `MessageLayout::WithExcerpts`, the
/// offending line of the file follows each message. Fails only if memory is exhausted (199 or 299).
pub fn check_board_file(
    alloc: Global,
    layout: MessageLayout,
    warned: WarningLevel,
    name: &str,
    board: &[u8],
) -> Result<Checked, OpenFault>
    ensures fault { IfOk result (λ c. IsFaultOf board.now c.fault) }
    ensures memory { IfErr result IsOutOfMemory }
{
    let options = RenderOptions { layout, name };
    let document = match toml::table_from_slice(alloc, board) {
        Ok(document) => document,
        Err(e) if e.is_memory() => return Err(OpenFault::File(BoardFault::Memory)),
        Err(e) => return report_toml_error(alloc, &options, board, &e),
    };
    let Ok(source) = Source::new(alloc, board, &document) else {
        return Err(OpenFault::File(BoardFault::Memory));
    };
    match source.build_host_and_guests(alloc) {
        Ok((host, _)) => judge_or_memory_fault(alloc, &options, warned, &source, host),
        Err(fault) => report_broken_rules(alloc, &options, &source, fault),
    }
}
