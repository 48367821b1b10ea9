//! Enumeration of a board by configuration cycles (PCI-to-PCI Bridge Architecture 1.2, section
//! 3.2.5).
ghost use Rattle.std.specs.Prelude.{◌≡◌, ◌⊎◌, ◌<◌, ◌+◌, [], ◌∷◌, ◌++◌, length, IfOk, IfErr, MatchResult, IsTrue, Some, find, ℕ, ◌≤◌};
ghost use Rattle.model_board.specs.{Paths.{Path as PathValue, path_eq, devfn_count}, Board.{Board, Row, is_bridge_at, has_multifunction_bit, IsBoard}, BusNumbers.{Enumerates, secondary}, State.state_of, Cycles.reached, AtReset.{board_at, IsAtReset}};
ghost use Rattle.model_set_up.specs.{Scanning.{BusNumbers, numbered_file, numbered_state, IsNumbered, HasOwnNumbers}, ScanOrder.{on, next_devfn_to_probe, met}, FunctionTable.{TableRow, scanned_table}};
ghost use Rattle.paths.specs.BusAddresses.{bus_address_of};
ghost use Rattle.bus_scan.specs.{declared.fault.Fault.TheVariants.{Buses, Memory}, Scans.{given, ComesTo, OnBus, IsBridgeThere, IsRefused}, Sights.seen_of, Rows.{decl_of, range_of}};

use crate::bus_parts::{DEEPEST, PARTS, bdf_at_devfn, next_devfn_to_probe, path_at_devfn};
use crate::fault::Fault;
use crate::probed_header::{Layout, ProbedHeader, probe_header};
use crate::table::{Enumerated, EnumeratedFunction, FunctionTable};
use bridge_forward::Part;
use headers::{IoDecode, PrefDecode};
use host_bridge::{Bdf, Host, Path};
use std::alloc::{AllocError, Global};

/// A scan in progress: the functions found so far, and the last assigned bus number. While the
/// buses behind a bridge are being scanned, the bridge's Subordinate Bus Number is FFh, in its row
/// as in its register.
#[derive(Drop)]
struct Enumeration {
    rows: Vec<EnumeratedFunction>,
    last: u8,
}

/// Writes the Primary, Secondary and Subordinate Bus Number of the bridge at a BDF, in one dword
/// with the Secondary Latency Timer, which stays 0: no processor writes three bytes at once.
fn write_bus_numbers(host: &mut Host, at: Bdf, primary: u8, secondary: u8, subordinate: u8)
    ensures written { (b : Board) (numbers : PathValue → BusNumbers) (p : PathValue)
        → IsBoard b → IsTrue (is_bridge_at b p)
        → host.old.state ≡ state_of b (numbered_file b numbers)
        → reached host.old.state.functions (bus_address_of at)
        ≡ find (λ f. path_eq f.path p) host.old.state.functions
        → host.new.state ≡ state_of b (numbered_file b
        (given p (record { primary = primary; secondary = secondary; subordinate = subordinate }) numbers)) }
    ensures kept { host.new.apertures ≡ host.old.apertures }
{
    let numbers = u32::from_le_bytes([primary, secondary, subordinate, 0]);
    host.config_write(at, 0x18, 0b1111, numbers);
}

impl Enumeration {
    /// Appends a function to the table.
    fn push_function(
        &mut self,
        path: Path,
        bus: u8,
        seen: ProbedHeader,
        found: Enumerated,
    ) -> Result<(), AllocError>
        ensures last { IfOk result (λ _. self.new.last ≡ self.old.last) }
        ensures rows { let row : TableRow = record {
          path = path;
          bus = bus;
          behind = range_of found;
          decl = decl_of seen.vendor seen.device found;
        } in
            IfOk result (λ _. self.new.rows.items ≡ self.old.rows.items ++ row ∷ []) }
    {
        self.rows.push(EnumeratedFunction {
            path,
            bus,
            vendor: seen.vendor,
            device: seen.device,
            found,
        })?;
        Ok(())
    }

    /// Assigns the next bus number to the secondary bus of a bridge, and returns that number.
    /// Forwards all higher bus numbers as well, so that the scan can reach every bus behind the
    /// bridge.
    fn push_and_number_bridge(
        &mut self,
        host: &mut Host,
        at: Bdf,
        bus: u8,
        path: Path,
        seen: ProbedHeader,
    ) -> Result<u8, Fault>
        ensures opened { (b : Board) (on_path : PathValue) (n : ℕ) (r : Row) →
            IsBridgeThere b on_path bus n r (bus_address_of at)
            → path ≡ on on_path n → seen ≡ seen_of (has_multifunction_bit b path) r.decl
            → ComesTo b (on on_path n) host.old self.old
            → MatchResult result
            (λ number. (number ≡ secondary b (on on_path n))
            × ComesTo b (on (on on_path n) 0) host.new self.new)
            (λ f. IsRefused b f host.new.state) }
        ensures rows { IfOk result (λ _. length self.old.rows.items < length self.new.rows.items) }
        ensures kept { host.new.apertures ≡ host.old.apertures }
    {
        if self.last == 255 {
            return Err(Fault::Buses);
        }
        let number = self.last + 1;
        let found = Enumerated::Bridge {
            secondary: number,
            subordinate: 0xff,
            io: IoDecode::Unimplemented,
            pref: PrefDecode::Unimplemented,
        };
        self.push_function(path, bus, seen, found)?;
        write_bus_numbers(host, at, bus, number, 0xff);
        self.last = number;
        Ok(number)
    }

    /// Sets the Subordinate Bus Number of a bridge to the last assigned bus number, in its register
    /// and in its row.
    fn set_final_subordinate(&mut self, host: &mut Host, at: Bdf, bus: u8, number: u8, index: usize)
        requires { index < length self.old.rows.items }
        ensures closed { (b : Board) (on_path : PathValue) (n : ℕ) (r : Row) →
            IsBridgeThere b on_path bus n r (bus_address_of at)
            → number ≡ secondary b (on on_path n) → index ≡ length (met b (on on_path n))
            → ComesTo b (on (on on_path n) devfn_count) host.old self.old
            → ComesTo b (on on_path (next_devfn_to_probe b on_path n)) host.new self.new }
        ensures rows { length self.new.rows.items ≡ length self.old.rows.items }
        ensures kept { host.new.apertures ≡ host.old.apertures }
    {
        let last = self.last;
        let row = &mut self.rows[index];
        row.set_subordinate_if_bridge(last);
        write_bus_numbers(host, at, bus, number, last);
    }

    /// Numbers a bridge, and adds the bridge and everything behind it to the table.
    #[cycle(scan)]
    fn scan_bridge(
        &mut self,
        host: &mut Host,
        at: Bdf,
        bus: u8,
        path: Path,
        seen: ProbedHeader,
    ) -> Result<(), Fault>
        ensures scanned { (b : Board) (on_path : PathValue) (n : ℕ) (r : Row) →
            IsBridgeThere b on_path bus n r (bus_address_of at)
            → path ≡ on on_path n → seen ≡ seen_of (has_multifunction_bit b path) r.decl
            → ComesTo b (on on_path n) host.old self.old
            → MatchResult result
            (λ _. ComesTo b (on on_path (next_devfn_to_probe b on_path n)) host.new self.new)
            (λ f. IsRefused b f host.new.state) }
        ensures rows { IfOk result (λ _.
            length self.old.rows.items ≤ length self.new.rows.items) }
        ensures kept { host.new.apertures ≡ host.old.apertures }
    {
        let index = self.rows.len();
        let number = self.push_and_number_bridge(host, at, bus, path.copied(), seen)?;
        let parts = path.parts();
        if parts.len() < DEEPEST {
            self.scan_bus(host, parts, number)?;
        }
        self.set_final_subordinate(host, at, bus, number, index);
        Ok(())
    }

    /// Adds the function at position `n` of the scan order of a bus, and everything behind it, to
    /// the table. Returns the position to probe next.
    #[cycle(scan)]
    fn scan_and_next_devfn(
        &mut self,
        host: &mut Host,
        bus: &[Part],
        number: u8,
        n: u16,
    ) -> Result<u16, Fault>
        requires short { length bus.now < 16 }
        requires part { n < PARTS }
        ensures later { IfOk result (λ m. (n < m) × (m ≤ PARTS)) }
        ensures scanned { (b : Board) → OnBus b bus.now number
            → ComesTo b (on bus.now n) host.old self.old
            → MatchResult result
            (λ m. ComesTo b (on bus.now m) host.new self.new)
            (λ f. IsRefused b f host.new.state) }
        ensures rows { IfOk result (λ _.
            length self.old.rows.items ≤ length self.new.rows.items) }
        ensures kept { host.new.apertures ≡ host.old.apertures }
    {
        let at = bdf_at_devfn(number, n);
        let Some(seen) = probe_header(host, at) else {
            return Ok(next_devfn_to_probe(n, false));
        };
        let path = path_at_devfn(bus, n);
        match seen.layout {
            Layout::Endpoint { pin } => {
                let bars = [None, None, None, None, None, None];
                self.push_function(path, number, seen, Enumerated::Endpoint { pin, bars })?;
            }
            Layout::Bridge => self.scan_bridge(host, at, number, path, seen)?,
        }
        Ok(next_devfn_to_probe(n, seen.is_multifunction))
    }

    /// Adds all functions on a bus and behind it to the table. `bus` is the path of the bridge
    /// above, or empty for bus 0.
    #[cycle(scan)]
    fn scan_bus(&mut self, host: &mut Host, bus: &[Part], number: u8) -> Result<(), Fault>
        requires { length bus.now < 16 }
        ensures scanned { (b : Board) → OnBus b bus.now number
            → ComesTo b (on bus.now 0) host.old self.old
            → MatchResult result
            (λ _. ComesTo b (on bus.now devfn_count) host.new self.new)
            (λ f. IsRefused b f host.new.state) }
        ensures rows { IfOk result (λ _.
            length self.old.rows.items ≤ length self.new.rows.items) }
        ensures kept { host.new.apertures ≡ host.old.apertures }
    {
        let mut n = 0;
        while n < PARTS {
            n = self.scan_and_next_devfn(host, bus, number, n)?;
        }
        Ok(())
    }
}

/// Enumerates a board at reset: assigns bus numbers to the bridges in the order in which they are
/// found (PCI-to-PCI Bridge Architecture 1.2, section 3.2.5), and returns the functions, without
/// the sizes of their regions. A device whose function 0 has Vendor ID FFFFh is absent. Functions 1
/// to 7 are probed only if bit 7 of the header type of function 0 is set. The scan uses only
/// configuration cycles, and allocates only the rows of the table.
///
/// # Errors
///
/// `Fault::Buses` if the board has more than 255 bridges; the 256th bridge isn't written.
/// `Fault::Memory` if memory is exhausted.
pub fn scan(alloc: Global, host: &mut Host) -> Result<FunctionTable, Fault>
    requires { IsAtReset host.old.state }
    ensures board { board_at host.new.state.functions ≡ board_at host.old.state.functions }
    ensures table { let b = board_at host.new.state.functions in IfOk result (λ t.
        t ≡ scanned_table b) }
    ensures registers { IfOk result (λ _. IsNumbered host.new.state) }
    ensures numbered { let b = board_at host.old.state.functions in
        IfOk result (λ _. host.new ≡ record host.old { state = numbered_state b }) }
    ensures refused { let b = board_at host.old.state.functions in
        IfErr result (λ f. (f ≡ Memory) ⊎ ((f ≡ Buses) × (Enumerates b → ⊥))) }
    ensures own { let b = board_at host.old.state.functions in HasOwnNumbers b host.new.state }
    ensures kept { host.new.apertures ≡ host.old.apertures }
{
    let mut found = Enumeration {
        rows: Vec::new(alloc),
        last: 0,
    };
    found.scan_bus(host, &[], 0)?;
    Ok(FunctionTable::of(found.rows))
}
