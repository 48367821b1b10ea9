//! Renders the listing of a board as JSON.
ghost use Rattle.std.specs.Prelude.{◌≡◌, IfOk, string_bytes};
ghost use Rattle.serde_json.specs.View.{view};
ghost use Rattle.model_board.specs.AtReset.{board_at};
ghost use Rattle.model_guests.specs.World.{World};
ghost use Rattle.model_handoff.specs.FoundReport.{IsSetUpOf};
ghost use Rattle.json_texts.specs.{ReportValue.{value_line, report_json_text}, FoundValue.{found_value}};

use crate::functions::function_values;
use crate::has_value::values;
use accesses::GuestDecl;
use bus_scan::FunctionTable;
use host_bridge::Host;
use report::{count_bridges, count_endpoints};
use serde_json::{Value, json};
use std::alloc::{AllocError, Global};
use window_packing::Plan;

/// Returns the JSON object for a board that is set up.
fn report_value(
    alloc: Global,
    host: &Host,
    table: &FunctionTable,
    plan: &Plan,
    guests: &[GuestDecl],
) -> Result<Value, AllocError>
    ensures { IfOk result (λ v. view v
        ≡ found_value host.now.state.functions
        (record { functions = table.now; plan = plan.now; guests = guests.now })) }
{
    let bridges = count_bridges(table.rows());
    let endpoints = count_endpoints(table.rows());
    let functions = function_values(alloc, host, table.rows(), plan.settings())?;
    let guests = values(alloc, guests)?;
    json!(in alloc; {
        "bridges": bridges,
        "endpoints": endpoints,
        "functions": functions,
        "guests": guests
    })
}

/// Renders the listing of a board that is set up as a JSON object on one line, from its host, its
/// function table, its plan and its guests. Fails only if memory is exhausted.
pub fn report_json(
    alloc: Global,
    host: &Host,
    table: &FunctionTable,
    plan: &Plan,
    guests: &[GuestDecl],
) -> Result<String, AllocError>
    ensures board { IfOk result (λ t. (w : World)
        → IsSetUpOf (record { functions = table.now; plan = plan.now; guests = guests.now }) w
        → board_at host.now.state.functions ≡ w.board
        → string_bytes t ≡ report_json_text w) }
    ensures found { IfOk result (λ t. string_bytes t ≡ value_line
        (found_value host.now.state.functions
        (record { functions = table.now; plan = plan.now; guests = guests.now }))) }
{
    let value = report_value(alloc, host, table, plan, guests)?;
    let mut text = value.to_string(alloc)?;
    text.push('\n')?;
    Ok(text)
}
