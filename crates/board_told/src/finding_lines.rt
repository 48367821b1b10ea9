//! Renders the finding for a guest's access as lines of text.
ghost use Rattle.std.specs.Prelude.{◌++◌, OnOk, Some, codes};
ghost use Rattle.lists.specs.Texts.{Adds};
ghost use Rattle.model_lines.specs.{WhyText.why_line, WhyGuests.{answers, target_text, finding_text}};
ghost use Rattle.accesses.specs.Accesses.{target_of};
ghost use Rattle.model_guests.specs.{PathTexts.hexadecimal, Text.ended};
ghost use Rattle.monitor.specs.Queries.{hit_named};
ghost use Rattle.board_told.specs.{GuestFindings.finding_told, GuestLines.{head_text, place_line, closed_line, told_lines, lines_of_closed}};

use crate::closed::ClosedInSlot;
use crate::finding::Finding;
use accesses::{At, Place};
use findings_render::{ShownDisabled, shown_bdf};
use monitor::DecodedByte;
use std::alloc::AllocError;
use std::fmt;

/// Displays the slot and offset, port or address of a query.
#[derive(Clone, Copy)]
struct ShownPlace(At);

impl fmt::Display for ShownPlace {
    ghost output = { λ p. Some (target_text (target_of p.0)) };

    fn fmt<W: fmt::Write>(&self, f: &mut fmt::Formatter<W>) -> fmt::Result {
        match self.0 {
            At::Config { slot, off } => write!(f, "slot {slot} offset 0x{off:x}"),
            At::Io { port } => write!(f, "I/O 0x{port:x}"),
            At::Mem { addr } => write!(f, "memory 0x{addr:x}"),
        }
    }
}

/// Displays the offset of the byte that answers an access.
#[derive(Clone, Copy)]
struct ShownOffset(u64);

impl fmt::Display for ShownOffset {
    ghost output = { λ o. Some (codes " responds at offset " ++ hexadecimal o.0) };

    fn fmt<W: fmt::Write>(&self, f: &mut fmt::Formatter<W>) -> fmt::Result {
        let offset = self.0;
        write!(f, " responds at offset 0x{offset:x}")
    }
}

/// Displays the byte that answers an access.
#[derive(Clone, Copy)]
struct ShownHit(DecodedByte);

impl fmt::Display for ShownHit {
    ghost output = { λ h. Some (finding_text (answers (hit_named h.0))) };

    fn fmt<W: fmt::Write>(&self, f: &mut fmt::Formatter<W>) -> fmt::Result {
        let slot = self.0.slot;
        let offset = self.0.offset;
        match self.0.place {
            Place::Cfg => { write!(f, "slot {slot} configuration space{}", ShownOffset(offset)) }
            Place::Bar(register) => {
                write!(f, "slot {slot} bar{register}{}", ShownOffset(offset))
            }
        }
    }
}

/// Displays a finding.
#[derive(Clone, Copy)]
struct ShownFinding<'a>(&'a Finding);

impl<'a> fmt::Display for ShownFinding<'a> {
    ghost output = { λ g. Some (finding_text (finding_told g.0.now)) };

    fn fmt<W: fmt::Write>(&self, f: &mut fmt::Formatter<W>) -> fmt::Result {
        match self.0 {
            Finding::Answers(hit) => write!(f, "{}", ShownHit(*hit)),
            Finding::Nobody(_) => write!(f, "nothing responds"),
            Finding::Empty { slot } => write!(f, "slot {slot} is empty"),
            Finding::NoSlot { at } => write!(f, "there is no slot at {}", shown_bdf(*at)),
        }
    }
}

/// Appends the line with the queried place and its finding.
pub(crate) fn push_finding_line(
    text: &mut String,
    at: At,
    finding: &Finding,
) -> Result<(), AllocError>
    ensures { OnOk result (Adds text.old text.new
        (ended (why_line (head_text (target_of at) (finding_told finding.now))))) }
{
    writeln!(text, "why: {}: {}", ShownPlace(at), ShownFinding(finding))
}

/// Appends the slot, index, address and size of a disabled BAR.
fn push_disabled_bar_place(text: &mut String, closed: &ClosedInSlot) -> Result<(), AllocError>
    ensures { OnOk result (Adds text.old text.new (place_line closed.now)) }
{
    let slot = closed.slot;
    let register = closed.register;
    let first = closed.first;
    let size = closed.size;
    write!(
        text,
        "why: slot {slot} bar{register} at 0x{first:x} size 0x{size:x}: "
    )
}

/// Appends the line for a disabled BAR.
fn push_disabled_bar_line(text: &mut String, closed: &ClosedInSlot) -> Result<(), AllocError>
    ensures { OnOk result (Adds text.old text.new (closed_line closed.now)) }
{
    push_disabled_bar_place(text, closed)?;
    write!(text, "{}", ShownDisabled(closed.command))?;
    text.push('\n')
}

/// Appends a line for each disabled BAR.
fn push_disabled_bar_lines(text: &mut String, all: &[ClosedInSlot]) -> Result<(), AllocError>
    ensures { OnOk result (Adds text.old text.new (told_lines all.now)) }
{
    for closed in all {
        push_disabled_bar_line(text, closed)?;
    }
    Ok(())
}

/// Appends a line for each disabled BAR that contains an unclaimed address. Appends nothing for
/// other findings.
pub(crate) fn push_bar_lines_if_unclaimed(
    text: &mut String,
    finding: &Finding,
) -> Result<(), AllocError>
    ensures { OnOk result (Adds text.old text.new
        (lines_of_closed (finding_told finding.now))) }
{
    match finding {
        Finding::Nobody(all) => push_disabled_bar_lines(text, all),
        Finding::Answers(_) | Finding::Empty { .. } | Finding::NoSlot { .. } => Ok(()),
    }
}
