//! A run of all lines of a session.
ghost use Rattle.std.specs.Prelude.{◌≡◌, ◌+◌, ◌-◌, ◌^◌, ◌<◌, ◌⊎◌, IsErrOf};
ghost use Rattle.model_lines.specs.Sessions.{session_protocol};
ghost use Rattle.lines.specs.{Faults.{read_failures_of, write_failures_of}, Runs.{Runs, ends}};

use crate::session::{Session, SessionLines};
use lines::RunFault;
use streams::{Reader, Writer};

/// Runs the lines of a session, in pieces as they are read. Each line is answered before the next
/// one is parsed, and all answers are flushed before more is read. Only queries and a handover
/// allocate memory. Failed calls aren't retried.
pub fn run<R: Reader, W: Writer>(
    session: &mut Session,
    reader: &mut R,
    writer: &mut W,
) -> Result<(), RunFault>
    requires reader_has_room { R.failures reader.old < 2 ^ 64 - 1 }
    requires writer_has_room { W.failures writer.old < 2 ^ 64 - 1 }

    // The result is a fault of the reader or the writer exactly if that stream failed during the
    // call.
    ensures reads { R.failures reader.new ≡ R.failures reader.old + read_failures_of result }
    ensures writes { W.failures writer.new ≡ W.failures writer.old + write_failures_of result }

    // The lines were run up to where the run ended.
    ensures runs { Runs session_protocol session.old session.new
        (ends (R.rest reader.old) (R.rest reader.new)
        (W.written writer.old) (W.written writer.new) (W.flushed writer.new)) result }

    // If memory is exhausted at a line, the output of all lines before it has been flushed.
    ensures lacking_flushed { IsErrOf result RunFault.Memory →
        (W.flushed writer.new ≡ W.written writer.new) ⊎ (writer.new ≡ writer.old) }
{
    lines::run::<SessionLines, Session, R, W>(session, reader, writer)
}
