//! Explains the target of a guest's access, as lines of text or as JSON.
ghost use Rattle.std.specs.Prelude.{◌≡◌, ◌<◌, None, length, map, IfOk, IfErr, OnOk, string_bytes};
ghost use Rattle.lists.specs.Texts.{Adds};
ghost use Rattle.model_guests.specs.Text.{text_of_lines};
ghost use Rattle.model_lines.specs.{WhyText.why_line, WhyGuests.target_lines};
ghost use Rattle.model_lines.specs.WhyGuests as model;
ghost use Rattle.accesses.specs.Accesses.{target_of};
ghost use Rattle.serde_json.specs.View.{view};
ghost use Rattle.board_told.specs.{GuestFindings.{lone_asked, fault_at, closed_told, finding_told, IsWhyFault}, GuestLines.text_told, WhyJson.{closed_value, finding_value, guest_json, explain_guest_access}};

use crate::closed::ClosedInSlot;
use crate::finding::{Finding, WhyFault, find_target};
use crate::finding_lines::{push_bar_lines_if_unclaimed, push_finding_line};
use accesses::{At, Place};
use findings::{PortUse, port_use};
use findings_render::push_port_line_if_any;
use json_texts::{HasValue, bdf_value, explanation_json, values};
use monitor::Monitor;
use paths::Latch;
use serde_json::{Value, json};
use session::ReportForm;
use std::alloc::{AllocError, Global};

/// Appends the line about the role of an I/O port in the configuration mechanism. Appends nothing
/// for other ports and for other places.
fn push_use_line_if_config_port(
    alloc: Global,
    text: &mut String,
    latch: Latch,
    at: At,
) -> Result<(), AllocError>
    ensures { OnOk result (Adds text.old text.new
        (text_of_lines (map why_line (target_lines latch (target_of at))))) }
{
    match at {
        At::Io { port } => push_port_line_if_any(alloc, text, latch, port, port_use(latch, port)),
        At::Config { .. } | At::Mem { .. } => Ok(()),
    }
}

/// Returns the explanation as lines of text.
fn finding_text(
    alloc: Global,
    latch: Latch,
    at: At,
    finding: &Finding,
) -> Result<String, AllocError>
    ensures { IfOk result (λ t.
        string_bytes t ≡ text_told latch (target_of at) (finding_told finding.now)) }
{
    let mut text = String::new(alloc);
    push_use_line_if_config_port(alloc, &mut text, latch, at)?;
    push_finding_line(&mut text, at, finding)?;
    push_bar_lines_if_unclaimed(&mut text, finding)?;
    Ok(text)
}

impl HasValue for ClosedInSlot {
    ghost Told = { model.ClosedRegion };

    ghost told = { closed_told };

    ghost shown = { closed_value };

    fn value(&self, alloc: Global) -> Result<Value, AllocError> {
        json!(in alloc; {
            "bar": self.register,
            "base": self.first,
            "command": self.command,
            "size": self.size,
            "slot": self.slot
        })
    }
}

/// Returns the JSON value of a finding.
fn finding_value(alloc: Global, finding: &Finding) -> Result<Value, AllocError>
    ensures { IfOk result (λ v. view v ≡ finding_value (finding_told finding.now)) }
{
    match finding {
        Finding::Answers(hit) => {
            let bar = match hit.place {
                Place::Cfg => Value::Null,
                Place::Bar(register) => Value::from(register),
            };
            json!(in alloc; {"bar": bar, "offset": hit.offset, "slot": hit.slot, "type": "answers"})
        }
        Finding::Nobody(all) => {
            json!(in alloc; {"regions": values(alloc, all)?, "type": "nobody"})
        }
        Finding::Empty { slot } => json!(in alloc; {"slot": *slot, "type": "empty"}),
        Finding::NoSlot { at } => {
            json!(in alloc; {"number": bdf_value(alloc, *at)?, "type": "no slot"})
        }
    }
}

/// Returns the explanation as a JSON object on one line.
fn finding_json(
    alloc: Global,
    latch: Latch,
    at: At,
    finding: &Finding,
) -> Result<String, AllocError>
    ensures { IfOk result (λ t.
        string_bytes t ≡ guest_json latch (target_of at) (finding_told finding.now)) }
{
    let found = finding_value(alloc, finding)?;
    match at {
        At::Io { port } => explanation_json(alloc, port_use(latch, port), found),
        At::Config { .. } | At::Mem { .. } => explanation_json(alloc, PortUse::LikeOthers, found),
    }
}

/// Explains why a guest's access to one byte reaches its target.
///
/// As lines, the text has a line about the port's role in the configuration mechanism (only for
/// CONFIG_ADDRESS and CONFIG_DATA), a line with the finding, and a line for each disabled BAR of
/// the guest that contains an unclaimed address. As JSON, the text is one object on one line. Only
/// the guest's own functions and CONFIG_ADDRESS are considered.
///
/// Refused with 303 if a one-byte read would be: for a slot above 31, an offset above 255 or a port
/// above FFFFFFFFh. Fails with 299 if memory is exhausted.
pub fn explain_guest_access(
    alloc: Global,
    form: ReportForm,
    monitor: &Monitor,
    guest: usize,
    at: At,
) -> Result<String, WhyFault>
    requires { guest < length monitor.now.world.guests }
    ensures text { let g = lone_asked monitor.now.world guest in
        IfOk result (λ t. string_bytes t ≡ explain_guest_access form g (target_of at)) }
    ensures served { IfOk result (λ _. fault_at (target_of at) ≡ None) }
    ensures refused { IfErr result (λ e. IsWhyFault e (fault_at (target_of at))) }
{
    let finding = match find_target(alloc, monitor, guest, at) {
        Ok(finding) => finding,
        Err(fault) => return Err(fault),
    };
    let latch = monitor.latch(guest);
    match form {
        ReportForm::Lines => finding_text(alloc, latch, at, &finding).map_err(|_| WhyFault::Memory),
        ReportForm::Json => finding_json(alloc, latch, at, &finding).map_err(|_| WhyFault::Memory),
    }
}
