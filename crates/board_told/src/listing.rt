//! Lists the board that a board file declares, once it is set up.
ghost use Rattle.std.specs.Prelude.{◌≡◌, IfOk, IfErr, string_bytes};
ghost use Rattle.model_guests.specs.World.{World};
ghost use Rattle.window_packing.specs.Readies.{board_below, IsReady};
ghost use Rattle.session.specs.{Faults.{OnFile, OnSetUp}, Files.{Refuses, Breaks, IsSetUp}};
ghost use Rattle.model_handoff.specs.FoundReport.{IsSetUpOf};
ghost use Rattle.board_told.specs.Listing.{report_in, IsReadyOf};

use accesses::GuestDecl;
use board_file::read_board;
use json_texts::report_json;
use report::report_text;
use session::{OpenFault, ReportForm};
use std::alloc::{AllocError, Global};
use window_packing::{Ready, set_up};

/// Reads a board file and sets up its board. Returns the board with its guests.
fn read_and_set_up_board(alloc: Global, board: &[u8]) -> Result<(Ready, Vec<GuestDecl>), OpenFault>
    ensures declared { IfOk result (λ v. IsReadyOf board.now v.0 v.1.items) }
    ensures file { IfErr result (OnFile (Refuses board.now)) }
    ensures placement { IfErr result (OnSetUp (Breaks board.now)) }
{
    let (host, guests) = read_board(alloc, board)?;
    let ready = set_up(alloc, host)?;
    Ok((ready, guests))
}

/// Renders the listing of a board that is set up and of its guests.
fn render_listing(
    alloc: Global,
    ready: &Ready,
    guests: &[GuestDecl],
    form: ReportForm,
) -> Result<String, AllocError>
    ensures text { IfOk result (λ t. (w : World) → IsSetUpOf
        (record { functions = ready.now.table; plan = ready.now.plan; guests = guests.now }) w
        → board_below ready.now.host ≡ w.board → string_bytes t ≡ report_in form w) }
    ensures ready { IsReady ready.now }
{
    match form {
        ReportForm::Lines => report_text(alloc, ready.table(), ready.plan(), guests),
        ReportForm::Json => report_json(alloc, ready.host(), ready.table(), ready.plan(), guests),
    }
}

/// Reads a board file, sets up its board and returns the listing.
///
/// Fails if the file is refused (1xx), if the board can't be set up (2xx), or if
/// memory is exhausted (199 or 299).
pub fn list_board_file(alloc: Global, board: &[u8], form: ReportForm) -> Result<String, OpenFault>
    ensures report { IfOk result (λ t.
        (w : World) × IsSetUp board.now w × (string_bytes t ≡ report_in form w)) }
    ensures file { IfErr result (OnFile (Refuses board.now)) }
    ensures placement { IfErr result (OnSetUp (Breaks board.now)) }
{
    let (ready, guests) = read_and_set_up_board(alloc, board)?;
    let Ok(text) = render_listing(alloc, &ready, &guests, form) else {
        return Err(OpenFault::SetUp(bus_scan::Fault::Memory));
    };
    Ok(text)
}
