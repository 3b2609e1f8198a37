//! The end of a run: what was written is flushed, and the status follows.

ghost use Rattle.std.specs.Prelude.{◌≡◌, ◌≤◌, ◌⊎◌, ℕ, List, IsErr};
ghost use Rattle.tube_io.specs.Causes.{Rose};
ghost use Rattle.tube_io.specs.Sends.{Sends};
ghost use Rattle.cli_words.specs.Usage.{usage_line};
ghost use Rattle.tube_report.specs.Causes.{fault_line};
ghost use Rattle.codac_run.specs.Reports.{Writes, IsBare};

use crate::ended::{Ended, Status};
use cli_words::write_usage;
use log_fields::Cause;
use tube_io::{Flushed, Sink, WriteFault};
use tube_report::write_fault;

/// Flushes what was written, and answers the status, or that a write failed.
pub(crate) fn finish<K: Sink>(
    sink: &mut K,
    written: Result<(), WriteFault>,
    status: Status,
) -> Status
    requires { status ≡ Status.WriteFault → ⊥ }
    ensures writes { (old : K) (text : List ℕ) → Sends K.written K.flushed K.faults text old sink.old written → Writes text status (K.written old) (K.written sink.new) (K.flushed sink.new) result }
    ensures failed { (old : K) (text : List ℕ) → Sends K.written K.flushed K.faults text old sink.old written → result ≡ Status.WriteFault → Rose (K.faults old) (K.faults sink.new) }
    ensures unflushed { (old : K) (text : List ℕ) → Sends K.written K.flushed K.faults text old sink.old written → result ≡ Status.WriteFault → K.flushed sink.new ≡ K.flushed old }
    ensures only { (result ≡ status) ⊎ (result ≡ Status.WriteFault) }
    ensures told { IsErr written → result ≡ Status.WriteFault }
    ensures later { K.faults sink.old ≤ K.faults sink.new }
{
    if written.is_err() {
        return Status::WriteFault;
    }
    match sink.flush() {
        Flushed::Done => status,
        Flushed::Failed => Status::WriteFault,
    }
}

/// Writes how the program is called.
pub(crate) fn usage<K: Sink>(sink: &mut K) -> Ended
    ensures writes { Writes usage_line Status.Usage (K.written sink.old) (K.written sink.new) (K.flushed sink.new) result.status × IsBare result }
    ensures failed { result.status ≡ Status.WriteFault → Rose (K.faults sink.old) (K.faults sink.new) }
    ensures unflushed { result.status ≡ Status.WriteFault → K.flushed sink.new ≡ K.flushed sink.old }
{
    let written = write_usage(sink);
    Ended::only(finish(sink, written, Status::Usage))
}

/// Writes why the log is refused.
pub(crate) fn refuse<K: Sink>(sink: &mut K, number: u32, cause: Cause) -> Ended
    ensures writes { Writes (fault_line number cause) Status.Refused (K.written sink.old) (K.written sink.new) (K.flushed sink.new) result.status × IsBare result }
    ensures failed { result.status ≡ Status.WriteFault → Rose (K.faults sink.old) (K.faults sink.new) }
    ensures unflushed { result.status ≡ Status.WriteFault → K.flushed sink.new ≡ K.flushed sink.old }
{
    let written = write_fault(number, cause, sink);
    Ended::only(finish(sink, written, Status::Refused))
}
