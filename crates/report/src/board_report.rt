//! The complete report of a board.
ghost use Rattle.std.specs.Prelude.{◌≡◌, OnOk, IfOk, not, count_by, string_bytes};
ghost use Rattle.lists.specs.Texts.{Adds};
ghost use Rattle.model_board.specs.Board.{is_bridge};
ghost use Rattle.model_guests.specs.{Text.{ended}, World.{World}};
ghost use Rattle.model_handoff.specs.{Report.{report}, FoundReport.{IsSetUpOf, count_line, functions_text, guests_text, found_report}};

use crate::lines::{push_function, push_slots_of_guest};
use accesses::GuestDecl;
use bus_scan::{Enumerated, EnumeratedFunction, FunctionTable};
use std::alloc::{AllocError, Global};
use window_packing::{FunctionProgram, Plan};

/// Returns whether the function is a bridge.
fn is_bridge(row: &EnumeratedFunction) -> bool
    ensures { result ≡ is_bridge row.now.decl }
{
    match &row.found {
        Enumerated::Endpoint { .. } => false,
        Enumerated::Bridge { .. } => true,
    }
}

/// Counts the endpoints.
pub fn count_endpoints(rows: &[EnumeratedFunction]) -> usize
    ensures { result ≡ count_by (λ r. not (is_bridge r.decl)) rows.now }
{
    rows.iter().filter(|row| !is_bridge(row)).count()
}

/// Counts the bridges.
pub fn count_bridges(rows: &[EnumeratedFunction]) -> usize
    ensures { result ≡ count_by (λ r. is_bridge r.decl) rows.now }
{
    rows.iter().filter(|row| is_bridge(row)).count()
}

/// Appends the line with the number of endpoints and bridges.
fn push_function_counts(text: &mut String, rows: &[EnumeratedFunction]) -> Result<(), AllocError>
    ensures { OnOk result (Adds text.old text.new (ended (count_line rows.now))) }
{
    let endpoints = count_endpoints(rows);
    let bridges = count_bridges(rows);
    writeln!(text, "endpoints {endpoints} bridges {bridges}")
}

/// Appends the lines of all functions, each with the register values that set-up wrote.
fn push_functions(
    text: &mut String,
    rows: &[EnumeratedFunction],
    settings: &[FunctionProgram],
) -> Result<(), AllocError>
    ensures { OnOk result (Adds text.old text.new (functions_text rows.now settings.now)) }
{
    for (row, setting) in rows.iter().zip(settings) {
        push_function(text, row, &setting.writes)?;
    }
    Ok(())
}

/// Appends the lines of all guests.
fn push_guests(text: &mut String, guests: &[GuestDecl]) -> Result<(), AllocError>
    ensures { OnOk result (Adds text.old text.new (guests_text guests.now)) }
{
    for guest in guests {
        push_slots_of_guest(text, guest)?;
    }
    Ok(())
}

/// Returns the report of a board after set-up, from its table, its plan and its guests. Fails only
/// if memory is exhausted.
pub fn report_text(
    alloc: Global,
    table: &FunctionTable,
    plan: &Plan,
    guests: &[GuestDecl],
) -> Result<String, AllocError>
    ensures board { IfOk result (λ t. (w : World)
        → IsSetUpOf (record { functions = table.now; plan = plan.now; guests = guests.now }) w
        → string_bytes t ≡ report w) }
    ensures found { IfOk result (λ t. string_bytes t
        ≡ found_report (record { functions = table.now; plan = plan.now; guests = guests.now })) }
{
    let mut text = String::new(alloc);
    push_function_counts(&mut text, table.rows())?;
    push_functions(&mut text, table.rows(), plan.settings())?;
    push_guests(&mut text, guests)?;
    Ok(text)
}
