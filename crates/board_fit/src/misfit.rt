//! Finds the entries of a file that prevent its board from being set up.
ghost use Rattle.std.specs.Prelude.{◌≡◌, IfOk};
ghost use Rattle.bars.specs.Kinds.{kind_of};
ghost use Rattle.headers.specs.Decodes.{io_decode_of};
ghost use Rattle.board_fit.specs.Misfits.{is_io, has_no_io_window, is_above_without_io_window, first_bridge_blocking_io, no_io_window_bar_remarks, remarks_on_io_bars_if_blocked, no_io_window_remarks, remarks_on_blocked_io, remark_on_bridge_256, remarks_on_fault_causes};

use crate::remark::Remark;
use bars::Kind;
use board_file::entries::{BarEntry, BridgeEntry, EndpointEntry, FileEntries};
use bus_scan::Fault;
use headers::IoDecode;
use paths::Path;
use std::alloc::{AllocError, Global};

/// Returns whether a BAR of this kind is an I/O BAR.
fn is_io(kind: Kind) -> bool
    ensures { result ≡ is_io (kind_of kind) }
{
    match kind {
        Kind::Io => true,
        Kind::Mem32 { pref: _ } | Kind::Mem64 { pref: _ } => false,
    }
}

/// Returns whether a bridge has no I/O window.
fn has_no_io_window(io: IoDecode) -> bool
    ensures { result ≡ has_no_io_window (io_decode_of io) }
{
    match io {
        IoDecode::Unimplemented => true,
        _ => false,
    }
}

/// Returns whether a bridge is above the path and has no I/O window.
fn is_above_without_io_window(path: &Path, bridge: &BridgeEntry<'_>) -> bool
    ensures { result ≡ is_above_without_io_window path.now bridge.now }
{
    has_no_io_window(bridge.io) && bridge.at.path_or_zero().is_ancestor_of(path)
}

/// Returns the index of the first bridge above the path that has no I/O window.
fn first_bridge_blocking_io(bridges: &[BridgeEntry<'_>], path: &Path) -> Option<usize>
    ensures { result ≡ first_bridge_blocking_io bridges.now path.now }
{
    bridges
        .iter()
        .position(|bridge| is_above_without_io_window(path, bridge))
}

/// Returns a remark for each I/O BAR of an endpoint that is behind the given bridge.
fn no_io_window_bar_remarks(
    alloc: Global,
    endpoint: usize,
    bridge: usize,
    bars: &[BarEntry<'_>],
) -> Result<Vec<Remark>, AllocError>
    ensures { IfOk result (λ v. v.items ≡ no_io_window_bar_remarks endpoint bridge bars.now) }
{
    bars.iter()
        .enumerate()
        .filter(|(_, bar)| is_io(bar.kind))
        .map(|(index, _)| Remark::NoIoWindow(endpoint, index, bridge))
        .collect(alloc)
}

/// Like `no_io_window_bar_remarks`, but returns no remarks if there is no bridge.
fn remarks_on_io_bars_if_blocked(
    alloc: Global,
    endpoint: usize,
    bridge: Option<usize>,
    bars: &[BarEntry<'_>],
) -> Result<Vec<Remark>, AllocError>
    ensures { IfOk result (λ v.
        v.items ≡ remarks_on_io_bars_if_blocked endpoint bridge bars.now) }
{
    match bridge {
        Some(bridge) => no_io_window_bar_remarks(alloc, endpoint, bridge, bars),
        None => Ok(Vec::new(alloc)),
    }
}

/// Returns a remark for each I/O BAR of an endpoint that is behind a bridge without an I/O window.
#[tactic(auto, unfolding(crate::specs::Misfits::no_io_window_remarks))]
fn no_io_window_remarks(
    alloc: Global,
    bridges: &[BridgeEntry<'_>],
    index: usize,
    endpoint: &EndpointEntry<'_>,
) -> Result<Vec<Remark>, AllocError>
    ensures { IfOk result (λ v.
        v.items ≡ no_io_window_remarks bridges.now (index, endpoint.now)) }
{
    let bridge = first_bridge_blocking_io(bridges, &endpoint.at.path_or_zero());
    remarks_on_io_bars_if_blocked(alloc, index, bridge, &endpoint.bars)
}

/// Returns a remark for each I/O BAR of the file that is behind a bridge without an I/O window.
fn remarks_on_blocked_io(alloc: Global, file: &FileEntries<'_>) -> Result<Vec<Remark>, AllocError>
    ensures { IfOk result (λ v. v.items ≡ remarks_on_blocked_io file.now) }
{
    let mut remarks = Vec::new(alloc);
    'endpoints: for (index, endpoint) in file.endpoints.iter().enumerate() {
        let blocked = no_io_window_remarks(alloc, &file.bridges, index, endpoint)?;
        remarks.extend_from_slice(&blocked)?;
    }
    Ok(remarks)
}

/// Returns a remark on the first bridge for which no bus number is left, if there are more than 255
/// bridges.
fn remark_on_bridge_256(alloc: Global, file: &FileEntries<'_>) -> Result<Vec<Remark>, AllocError>
    ensures { IfOk result (λ v. v.items ≡ remark_on_bridge_256 file.now) }
{
    let mut remarks = Vec::new(alloc);
    if 255 < file.bridges.len() {
        remarks.push(Remark::BridgeTooMany(255))?;
    }
    Ok(remarks)
}

/// Returns a remark for each entry that prevents the board from being set up. Only faults about bus
/// numbers (201) and I/O windows (202) have entries to name.
pub(crate) fn remarks_on_fault_causes(
    alloc: Global,
    file: &FileEntries<'_>,
    fault: Fault,
) -> Result<Vec<Remark>, AllocError>
    ensures { IfOk result (λ v. v.items ≡ remarks_on_fault_causes file.now fault) }
{
    match fault {
        Fault::Buses => remark_on_bridge_256(alloc, file),
        Fault::NoIoWindow => remarks_on_blocked_io(alloc, file),
        _ => Ok(Vec::new(alloc)),
    }
}
