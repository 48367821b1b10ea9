//! Runs of whole scripts.
ghost use Rattle.std.specs.{Prelude.{◌≡◌, ◌+◌, ◌-◌, ◌^◌, ◌<◌, [], false, ◌⊎◌, OnOk, IfErr, IsErrOf, Err}, Io.KnownBytes.{Consumes, IsAtEnd}};
ghost use Rattle.model_guests.specs.{Text.Text, LineRuns.HasNoEnd};
ghost use Rattle.lines.specs.{Faults.{read_failures_of, write_failures_of, number_of, of_stop}, Pieces.Reaches, Runs.{Runs, ends}};

use crate::answers::Answers;
use crate::pending::Pending;
use crate::pieces::{Stop, run_complete_and_flush, run_last_and_flush};
use streams::{Reader, Writer};
use thiserror::Error;

/// The reason why a run ended early.
#[derive(Clone, Copy, Debug, PartialEq, Eq, Error)]
pub enum RunFault {
    #[error("read failed")]
    Read,
    /// A write or a flush failed, or a write accepted no byte.
    #[error("write failed")]
    Write,
    /// Memory was exhausted while a line was executed. This happens only in languages in which some
    /// line allocates memory.
    #[error("memory")]
    Memory,
}

impl RunFault {
    /// Returns the number of the fault: 501, 502 or 299.
    pub fn number(self) -> u16
        ensures { result ≡ number_of self }
    {
        match self {
            RunFault::Read => 501,
            RunFault::Write => 502,
            RunFault::Memory => 299,
        }
    }
}

impl From<Stop> for RunFault {
    ghost from_gives = { λ s f. f ≡ of_stop s };

    fn from(stop: Stop) -> RunFault {
        match stop {
            Stop::Failed => RunFault::Write,
            Stop::Memory => RunFault::Memory,
        }
    }
}

/// Executes the lines of a script that end with a line feed, as they are read. The text after the
/// last line feed stays in `pending`.
fn run_complete_until_end<L, S: Answers<L>, R: Reader, W: Writer>(
    server: &mut S,
    pending: &mut Pending,
    reader: &mut R,
    writer: &mut W,
) -> Result<(), RunFault>
    requires empty { pending.old ≡ record { text = []; long = false } }
    requires reader_has_room { R.failures reader.old < 2 ^ 64 - 1 }
    requires writer_has_room { W.failures writer.old < 2 ^ 64 - 1 }
    ensures reads { R.failures reader.new ≡ R.failures reader.old + read_failures_of result }
    ensures writes { W.failures writer.new ≡ W.failures writer.old + write_failures_of result }
    ensures end { OnOk result (IsAtEnd (R.rest reader.new)) }
    ensures rest { OnOk result (HasNoEnd pending.new.text) }
    ensures runs { OnOk result ((read : Text)
        × Consumes (R.rest reader.old) (R.rest reader.new) read
        × Reaches S.protocol server.old read pending.new.text pending.new.long
        (W.written writer.old) (W.written writer.new) server.new) }
    ensures failed { IfErr result (λ fault. Runs {T = Unit {0}} S.protocol server.old server.new
        (ends (R.rest reader.old) (R.rest reader.new) (W.written writer.old) (W.written writer.new)
        (W.flushed writer.new)) (Err fault)) }
    ensures memory { IsErrOf result RunFault.Memory → S.TakesMemory }
    ensures flushed { OnOk result ((W.flushed writer.new ≡ W.written writer.new)
        ⊎ (writer.new ≡ writer.old)) }
    ensures lacking_flushed { IsErrOf result RunFault.Memory →
        (W.flushed writer.new ≡ W.written writer.new) ⊎ (writer.new ≡ writer.old) }
{
    loop {
        let Ok(more) = pending.read_more(reader) else {
            return Err(RunFault::Read);
        };
        if !more {
            return Ok(());
        }
        run_complete_and_flush(server, pending, writer)?;
    }
}

/// Runs the lines of a script as they are read. Each line is answered before the next one is
/// parsed. All replies are flushed before more input is read, so that the author of the script can
/// wait for them. Long lines aren't stored, and memory is allocated only by lines of a language in
/// which some line allocates it. Failed operations aren't retried.
pub fn run<L, S: Answers<L>, R: Reader, W: Writer>(
    server: &mut S,
    reader: &mut R,
    writer: &mut W,
) -> Result<(), RunFault>
    requires reader_has_room { R.failures reader.old < 2 ^ 64 - 1 }
    requires writer_has_room { W.failures writer.old < 2 ^ 64 - 1 }

    // A read or write fault is returned exactly if the reader or the writer failed during the call.
    ensures reads { R.failures reader.new ≡ R.failures reader.old + read_failures_of result }
    ensures writes { W.failures writer.new ≡ W.failures writer.old + write_failures_of result }

    // The effect of the script's lines.
    ensures runs { Runs S.protocol server.old server.new
        (ends (R.rest reader.old) (R.rest reader.new)
        (W.written writer.old) (W.written writer.new) (W.flushed writer.new)) result }

    // If memory was exhausted, the output of all earlier lines was flushed.
    ensures lacking_flushed { IsErrOf result RunFault.Memory →
        (W.flushed writer.new ≡ W.written writer.new) ⊎ (writer.new ≡ writer.old) }
    ensures memory { IsErrOf result RunFault.Memory → S.TakesMemory }
{
    let mut pending = Pending::new();
    run_complete_until_end(server, &mut pending, reader, writer)?;
    run_last_and_flush(server, &pending, writer)?;
    Ok(())
}
