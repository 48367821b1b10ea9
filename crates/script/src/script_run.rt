//! Runs of whole scripts.
ghost use Rattle.std.specs.Prelude.{◌≡◌, ◌+◌, ◌-◌, ◌^◌, ◌<◌, IsErrOf};
ghost use Rattle.model_handoff.specs.Changes.{machine_protocol};
ghost use Rattle.lines.specs.{Faults.{read_failures_of, write_failures_of}, Runs.{Runs, ends}};

use crate::answers::Script;
use lines::RunFault;
use monitor::Monitor;
use streams::{Reader, Writer};

/// Runs a script on the monitor as it is read. Each line is answered before the next one is parsed.
/// All replies are flushed before more input is read, so that the author of the script can wait for
/// them. Long lines aren't stored, and no memory is allocated. Failed operations aren't retried.
pub fn run<R: Reader, W: Writer>(
    monitor: &mut Monitor,
    reader: &mut R,
    writer: &mut W,
) -> Result<(), RunFault>
    requires reader_has_room { R.failures reader.old < 2 ^ 64 - 1 }
    requires writer_has_room { W.failures writer.old < 2 ^ 64 - 1 }

    // A read or write fault is returned exactly if the reader or the writer failed during the call.
    ensures reads { R.failures reader.new ≡ R.failures reader.old + read_failures_of result }
    ensures writes { W.failures writer.new ≡ W.failures writer.old + write_failures_of result }

    // No line allocates memory.
    ensures memory { ¬ IsErrOf result RunFault.Memory }

    // The effect of the script's lines.
    ensures runs { Runs machine_protocol monitor.old monitor.new
        (ends (R.rest reader.old) (R.rest reader.new)
        (W.written writer.old) (W.written writer.new) (W.flushed writer.new)) result }
{
    lines::run::<Script, Monitor, R, W>(monitor, reader, writer)
}
