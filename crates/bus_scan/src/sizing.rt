//! Sizing of BARs and detection of window decoding, by configuration cycles only (PCI Local Bus
//! 3.0, section 6.2.5.1; PCI-to-PCI Bridge Architecture 1.2, sections 3.2.5.6 and 3.2.5.9).
ghost use Rattle.std.specs.Prelude.{◌≡◌, ◌%◌, ◌<◌, IsFalse, IfSome, Some};
ghost use Rattle.model_registers.specs.{Declarations.{Bar, IsLawfulSize}, Sizing.ShowsSize, ByteEnables.lanes};
ghost use Rattle.model_board.specs.AtReset.{board_at};
ghost use Rattle.model_set_up.specs.{Scanning.IsNumbered, FunctionTable.{scanned_table, sized_table, board_in}};
ghost use Rattle.headers.specs.Decodes.{io_decode_of, pref_decode_of};
ghost use Rattle.paths.specs.BusAddresses.{bus_address_of};
ghost use Rattle.bus_scan.specs.{SizedTables.IsTableOf, Probes.{mask_shown, TakesBack, IsEndpointReached, IsBridgeReached, regions_reached, io_reached, pref_reached}, SizedRows.{bar_at, bars_of, is_upper_half, is_after_wide, IsScannedRow, SizesRow}};

use crate::table::{Enumerated, EnumeratedFunction, FunctionTable};
use bars::{BarDecl, size_of_mask};
use headers::{IoDecode, PrefDecode};
use host_bridge::{Bdf, Host};

/// The offset of Base Address Register 0.
const BASES: u8 = 0x10;

/// The offset of I/O Base and I/O Limit. The upper half of this word is Secondary Status.
const IO_WINDOW: u8 = 0x1c;

/// The offset of Prefetchable Memory Base and Limit.
const PREFETCHABLE_WINDOW: u8 = 0x24;

/// Writes all ones to the enabled bytes of a register, reads them back, and restores the previous
/// value. Returns the value that was read back.
fn probe_with_all_ones(host: &mut Host, at: Bdf, off: u8, enables: u8) -> u32
    requires word { off % 4 ≡ 0 }
    requires taken { TakesBack host.old.state (bus_address_of at) off (lanes enables) }
    ensures mask { result
        ≡ mask_shown host.old.state.functions (bus_address_of at) off (lanes enables) }
    ensures host { host.new ≡ host.old }
{
    let before = host.config_read(at, off, enables);
    host.config_write(at, off, enables, u32::MAX);
    let mask = host.config_read(at, off, enables);
    host.config_write(at, off, enables, before);
    mask
}

/// Returns the region whose BAR registers read `low` and `high` after all ones were written, if
/// there is one.
fn bar_from_probed_words(low: u32, high: u32) -> Option<BarDecl>
    ensures shown { IfSome result (λ b. IsLawfulSize b.kind b.size × ShowsSize b low high) }
    ensures found { (b : Bar) → IsLawfulSize b.kind b.size → ShowsSize b low high →
        result ≡ Some b }
{
    let (kind, size) = size_of_mask(low, high)?;
    Some(BarDecl::new(kind, size).unwrap())
}

/// Sizes the region that starts at a BAR register of an endpoint whose decoding is disabled. Probes
/// the next register only if the type bits declare a 64-bit BAR.
fn size_bar(host: &mut Host, at: Bdf, reg: u8) -> Option<BarDecl>
    requires register { reg < 6 }
    requires registers { IsNumbered host.old.state }
    requires endpoint { IsEndpointReached host.old.state.functions (bus_address_of at) }
    requires begins { IsFalse
        (is_upper_half reg (regions_reached host.old.state.functions (bus_address_of at))) }
    ensures bar { result
        ≡ bar_at reg (regions_reached host.old.state.functions (bus_address_of at)) }
    ensures host { host.new ≡ host.old }
{
    let off = BASES + 4 * reg;
    let low = probe_with_all_ones(host, at, off, 0b1111);
    let high = if reg < 5 && low & 0b111 == 0b100 {
        probe_with_all_ones(host, at, off + 4, 0b1111)
    } else {
        0
    };
    bar_from_probed_words(low, high)
}

/// Returns whether a BAR register is the upper half of the 64-bit BAR before it.
fn is_upper_half(bars: &[Option<BarDecl>; 6], reg: u8) -> bool
    requires { reg < 6 }
    ensures { result ≡ is_after_wide bars.now reg }
{
    let slot = usize::from(reg);
    if slot > 0
        && let Some(bar) = bars[slot - 1]
    {
        bar.kind().uses_two_registers()
    } else {
        false
    }
}

/// Sizes the regions of an endpoint. Each is at the index of its first BAR register.
fn size_bars(host: &mut Host, at: Bdf) -> [Option<BarDecl>; 6]
    requires registers { IsNumbered host.old.state }
    requires endpoint { IsEndpointReached host.old.state.functions (bus_address_of at) }
    ensures bars { result
        ≡ bars_of (regions_reached host.old.state.functions (bus_address_of at)) }
    ensures host { host.new ≡ host.old }
{
    let mut bars = [None; 6];
    for reg in 0..6u8 {
        bars[usize::from(reg)] = if is_upper_half(&bars, reg) {
            None
        } else {
            size_bar(host, at, reg)
        };
    }
    bars
}

/// Detects how a bridge decodes its I/O window, by probing I/O Base and I/O Limit. Leaves Secondary
/// Status, in the same word, unchanged.
fn detect_io_decode(host: &mut Host, at: Bdf) -> IoDecode
    requires registers { IsNumbered host.old.state }
    requires bridge { IsBridgeReached host.old.state.functions (bus_address_of at) }
    ensures decode { io_decode_of result
        ≡ io_reached host.old.state.functions (bus_address_of at) }
    ensures host { host.new ≡ host.old }
{
    let mask = probe_with_all_ones(host, at, IO_WINDOW, 0b0011);
    if mask == 0 {
        IoDecode::Unimplemented
    } else if mask & 0xf == 0 {
        IoDecode::Bits16
    } else {
        IoDecode::Bits32
    }
}

/// Detects how a bridge decodes its prefetchable memory window, by probing its base and limit.
fn detect_pref_decode(host: &mut Host, at: Bdf) -> PrefDecode
    requires registers { IsNumbered host.old.state }
    requires bridge { IsBridgeReached host.old.state.functions (bus_address_of at) }
    ensures decode { pref_decode_of result
        ≡ pref_reached host.old.state.functions (bus_address_of at) }
    ensures host { host.new ≡ host.old }
{
    let mask = probe_with_all_ones(host, at, PREFETCHABLE_WINDOW, 0b1111);
    if mask == 0 {
        PrefDecode::Unimplemented
    } else if mask & 0xf == 0 {
        PrefDecode::Bits32
    } else {
        PrefDecode::Bits64
    }
}

/// Sizes one function: fills in the regions or windows in its row.
fn size_function(host: &mut Host, row: &mut EnumeratedFunction)
    requires registers { IsNumbered host.old.state }
    requires scanned { IsScannedRow (board_at host.old.state.functions) row.old }
    ensures sized { SizesRow (board_at host.old.state.functions) row.old row.new }
    ensures host { host.new ≡ host.old }
{
    let at = row.address();
    match &mut row.found {
        Enumerated::Endpoint { pin: _, bars } => *bars = size_bars(host, at),
        Enumerated::Bridge {
            secondary: _,
            subordinate: _,
            io,
            pref,
        } => {
            *io = detect_io_decode(host, at);
            *pref = detect_pref_decode(host, at);
        }
    }
}

/// Fills in the regions and windows of all functions of a numbered board, using only configuration
/// cycles. Writes all ones to each register, reads it back and restores it, so that all registers
/// have their previous values in the end. All decoding must be disabled, as after a reset. The
/// resulting table describes a valid board.
pub fn size_all(host: &mut Host, table: &mut FunctionTable)
    requires registers { IsNumbered host.old.state }
    requires scanned { table.old ≡ scanned_table (board_at host.old.state.functions) }
    ensures sized { table.new ≡ sized_table (board_at host.old.state.functions) }
    ensures board { IsTableOf (board_at host.new.state.functions) table.new }
    ensures found { IsTableOf (board_in table.new) table.new }
    ensures host { host.new ≡ host.old }
{
    for row in table.rows.iter_mut() {
        size_function(host, row);
    }
}
