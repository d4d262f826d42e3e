ghost use Rattle.std.specs.Prelude.{◌≡◌, ◌≤◌, ℕ, List, Option, IfOk};
ghost use Rattle.byte_streams.specs.Fault.{Rose};
ghost use Rattle.byte_streams.specs.Writing.{EndsWriting};
ghost use Rattle.selfcheck.specs.declared.command.Command.{Command};
ghost use Rattle.named_runs.specs.Shown.{Ended};
ghost use Rattle.selfcheck.specs.Watched.{IsSeenOutputOf};

use crate::output::Output;
use book_base::NoMemory;
use byte_streams::{Sink, Status, write_text};

/// Writes the output of a command to the sink, and returns its status; without memory for the
/// output nothing is written.
pub(crate) fn write_told<K: Sink>(output: Result<Output, NoMemory>, sink: &mut K) -> Status
    ensures ends { (command : Command) (shown : Option (List Ended)) (bytes : List ℕ)
        → IfOk output (λ told. IsSeenOutputOf command shown shown bytes told.status told.text.items)
        → EndsWriting (IsSeenOutputOf command shown shown bytes) result
        (K.taken sink.old) (K.taken sink.new) }
    ensures fault { IfOk output (λ told. ¬ (told.status ≡ Status.WriteFault))
        → result ≡ Status.WriteFault → Rose (K.faults sink.old) (K.faults sink.new) }
    ensures calm { ¬ (result ≡ Status.WriteFault) → K.faults sink.new ≡ K.faults sink.old }
    ensures unwritten { IfOk output (λ told. ¬ (told.status ≡ Status.NoMemory))
        → result ≡ Status.NoMemory → sink.new ≡ sink.old }
    ensures later { K.faults sink.old ≤ K.faults sink.new }
{
    match output {
        Ok(output) => write_text(sink, output.status, &output.text),
        Err(NoMemory) => Status::NoMemory,
    }
}
