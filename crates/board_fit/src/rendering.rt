//! Renders verdicts as text.
use crate::judging::Verdict;
use crate::placed_remark::PlacedRemark;
use crate::pool_fit::PoolFit;
use crate::remark::{Remark, aperture_key};
use board_file::{Entry, Source};
use bus_scan::Fault;
use diagnostics::{
    Head, Places, RenderOptions, Subject, TextPlace, find_value_or_entry_place,
    push_head_excerpt_if_enabled,
};
use std::alloc::{AllocError, Global};
use std::fmt;
use window_packing::Pool;

/// Returns the name of a pool.
fn name_of(pool: Pool) -> &'static str {
    match pool {
        Pool::Io => "I/O pool",
        Pool::Mem => "memory pool",
        Pool::Pref => "prefetchable pool",
    }
}

/// Displays the fit of a pool.
impl fmt::Display for PoolFit {
    fn fmt<W: fmt::Write>(&self, f: &mut fmt::Formatter<W>) -> fmt::Result {
        let pool = name_of(self.pool);
        match (self.size, self.used) {
            (None, _) => write!(f, "{pool}: no aperture"),
            (_, None) => write!(f, "{pool}: more than 0x8000000000000000 bytes used"),
            (_, Some(used)) => write!(
                f,
                "{pool}: 0x{:x} of 0x{:x} bytes used, from 0x{:x} on",
                used.extent, used.room, used.first
            ),
        }
    }
}

const OPEN_IT: &str = "  help: give the bridge io = \"16\" or \"32\", or the BAR a memory kind\n";

/// Appends what is wrong with the entry of a remark.
fn push_why_remarked(text: &mut String, placed: &PlacedRemark) -> Result<(), AllocError> {
    text.push_str(match placed.remark {
        Remark::EmptyBridge(_) => "is a bridge with nothing behind it",
        Remark::EndpointOfNone(_) => "is not in the slots of any guest",
        Remark::GuestWithoutSlots(_) => "has no slots",
        Remark::WideAperture(_) => "is more than ten times as large as its pool needs",
        Remark::BridgeTooMany(_) => "is one bridge too many (at most 255)",
        Remark::NoIoWindow(_, _, _) => "requires an I/O window, but ",
    })?;
    match placed.other {
        Some(bridge) => write!(text, "{bridge} above it has none (io = \"none\")"),
        None => Ok(()),
    }
}

/// Appends why a pool doesn't fit its aperture.
fn push_why_pool_does_not_fit(text: &mut String, fit: &PoolFit) -> Result<(), AllocError> {
    let pool = name_of(fit.pool);
    match fit.used {
        None => write!(
            text,
            "is too small: the {pool} needs more than 0x8000000000000000 bytes"
        ),
        Some(used) => write!(
            text,
            "has 0x{:x} bytes from 0x{:x} on, but the {pool} needs 0x{:x}",
            used.room, used.first, used.extent
        ),
    }
}

/// Returns the beginning of an error, if there is a fault, or else of a warning.
fn error_or_warning_head<'a>(
    options: &RenderOptions<'a>,
    source: &Source<'a>,
    fault: Option<Fault>,
    entry: Entry,
    key: &'static str,
    place: Option<TextPlace>,
) -> Head<'a> {
    Head {
        options: *options,
        label: if fault.is_some() { "error" } else { "warning" },
        bytes: source.bytes,
        document: source.document,
        entry,
        key,
        place,
    }
}

/// Appends the end of a message, with the number of the fault, and the line of the file if excerpts
/// are shown.
fn push_fault_number_and_excerpt(
    alloc: Global,
    text: &mut String,
    fault: Option<Fault>,
    head: &Head<'_>,
) -> Result<(), AllocError> {
    if let Some(fault) = fault {
        write!(text, " ({})", fault.number())?;
    }
    text.push('\n')?;
    push_head_excerpt_if_enabled(alloc, text, head)
}

/// Appends the message that a pool doesn't fit its aperture.
fn push_misfit_message<'a>(
    alloc: Global,
    text: &mut String,
    options: &RenderOptions<'a>,
    source: &Source<'a>,
    fault: Fault,
    fit: &PoolFit,
) -> Result<(), AllocError> {
    let key = aperture_key(fit.pool);
    let places = Places::new(alloc, source.bytes, source.document)?;
    let place = find_value_or_entry_place(alloc, &places, Entry::Host, key)?;
    let head = error_or_warning_head(options, source, Some(fault), Entry::Host, key, place);
    write!(text, "{head}{key} ")?;
    push_why_pool_does_not_fit(text, fit)?;
    push_fault_number_and_excerpt(alloc, text, Some(fault), &head)
}

/// Appends how the pools fit: `ok` and a line for each pool, or the pool that doesn't fit.
fn push_fits_or_misfits<'a>(
    alloc: Global,
    text: &mut String,
    options: &RenderOptions<'a>,
    source: &Source<'a>,
    verdict: &Verdict,
) -> Result<(), AllocError> {
    if verdict.fault.is_none() {
        text.push_str("ok\n")?;
    }
    for fit in &verdict.fits {
        match verdict.fault {
            Some(fault) => push_misfit_message(alloc, text, options, source, fault, fit)?,
            None => writeln!(text, "{fit}")?,
        }
    }
    Ok(())
}

/// Renders a verdict: `ok` and a line for each pool, or the pool that doesn't fit; and then a
/// message for each remark. Fails only if memory is exhausted.
pub fn verdict_text<'a>(
    alloc: Global,
    options: &RenderOptions<'a>,
    source: &Source<'a>,
    verdict: &Verdict,
) -> Result<String, AllocError> {
    let mut text = String::new(alloc);
    push_fits_or_misfits(alloc, &mut text, options, source, verdict)?;
    for placed in &verdict.remarks {
        let (entry, key) = (placed.remark.entry(), placed.remark.key());
        let head = error_or_warning_head(options, source, verdict.fault, entry, key, placed.place);
        write!(text, "{head}{} ", Subject(head))?;
        push_why_remarked(&mut text, placed)?;
        push_fault_number_and_excerpt(alloc, &mut text, verdict.fault, &head)?;
        if let Remark::NoIoWindow(_, _, _) = placed.remark {
            text.push_str(OPEN_IT)?;
        }
    }
    Ok(text)
}
