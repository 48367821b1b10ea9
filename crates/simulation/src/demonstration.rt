//! The `demo` command: a script on the demo board.
ghost use Rattle.std.specs.Prelude.{◌≡◌, ◌+◌, ◌-◌, ◌^◌, ◌<◌, IfErr};
ghost use Rattle.lines.specs.Runs.{ends};
ghost use Rattle.simulation.specs.{Demo.demo_board, Faults.{read_faults, write_faults, OnFile, OnSetUp, OnRun, IsOfBoard, IsOfRun}, Running.IsRun};
ghost use Rattle.session.specs.Files.{Refuses, Breaks};

use crate::running::whole;
use board_told::Fault;
use std::alloc::Global;
use streams::{Reader, Writer};

/// The demo board: one guest, and one endpoint without BARs, with pin A and with Detected Parity
/// Error set.
const DEMO_BOARD: &str = concat!(
    "[host]\n",
    "io = [0x1000, 0xffff]\n",
    "mem = [0xc0000000, 0xdfffffff]\n",
    "\n",
    "[[endpoint]]\n",
    "at = \"1.0\"\n",
    "vendor = 0x1234\n",
    "device = 0x0001\n",
    "class = 0xff0000\n",
    "status = 0x8000\n",
    "pin = 1\n",
    "\n",
    "[[guest]]\n",
    "name = \"a\"\n",
    "slots = [\"1.0\"]\n",
);

/// Runs a script on the demo board, as [`whole`] does on the board of a file.
pub fn demo<R: Reader, W: Writer>(
    alloc: Global,
    reader: &mut R,
    writer: &mut W,
) -> Result<(), Fault>
    requires reader_has_room { R.failures reader.old < 2 ^ 64 - 1 }
    requires writer_has_room { W.failures writer.old < 2 ^ 64 - 1 }

    // The effect of the script on the demo board.
    ensures runs { OnRun (IsRun demo_board (ends (R.rest reader.old) (R.rest reader.new)
        (W.written writer.old) (W.written writer.new) (W.flushed writer.new))) result }

    // The definitions of board files and of set-up, applied to the text of the demo board.
    ensures file { IfErr result (OnFile (Refuses demo_board)) }
    ensures placement { IfErr result (OnSetUp (Breaks demo_board)) }
    ensures faults { IfErr result IsOfRun }
    ensures nothing { IfErr result
        (λ f. IsOfBoard f → (reader.new ≡ reader.old) × (writer.new ≡ writer.old)) }

    // A read or write fault is returned exactly if the reader or the writer failed during the call.
    ensures reads { R.failures reader.new ≡ R.failures reader.old + read_faults result }
    ensures writes { W.failures writer.new ≡ W.failures writer.old + write_faults result }
{
    whole(alloc, DEMO_BOARD.as_bytes(), reader, writer)
}
