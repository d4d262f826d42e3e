//! Writes the answer of a run that two monitors watched.

ghost use Rattle.std.specs.Prelude.{◌≡◌, ◌⊎◌, IfOk};
ghost use Rattle.byte_streams.specs.Fault.{LeavesSink};
ghost use Rattle.byte_streams.specs.Writing.{EndsWriting};
ghost use Rattle.monitor.specs.MonitorTexts.{IsAnswerText, IsAnswerOutput, status_of};

use crate::Witness;
use book_base::NoMemory;
use book_text::write_book;
use byte_streams::{Sink, Status, write_text};
use seq_objects::Kind;
use std::alloc::Global;

/// Writes the text of the answer of a monitored run. All of the text is built before its first byte
/// is written.
pub(crate) fn write_answer<K: Sink>(
    alloc: Global,
    kind: Kind,
    answer: &Option<Witness>,
    sink: &mut K,
) -> Status
    ensures ends { EndsWriting (IsAnswerOutput kind answer.now) result (K.taken sink.old)
        (K.taken sink.new) }
    ensures status { (result ≡ status_of answer.now) ⊎ (result ≡ Status.WriteFault)
        ⊎ (result ≡ Status.NoMemory) }
    ensures faults { LeavesSink K.faults result sink.old sink.new }
{
    match answer_text(alloc, kind, answer) {
        Ok(text) => write_text(sink, status_of(answer), &text),
        Err(NoMemory) => Status::NoMemory,
    }
}

/// The status that comes with the answer of a monitored run: `Found` where there is a witness.
fn status_of(answer: &Option<Witness>) -> Status
    ensures { result ≡ status_of answer.now }
{
    match answer {
        None => Status::Fine,
        Some(_) => Status::Found,
    }
}

/// The text of the answer of a monitored run.
fn answer_text(alloc: Global, kind: Kind, answer: &Option<Witness>) -> Result<Vec<u8>, NoMemory>
    ensures { IfOk result (λ text. IsAnswerText kind answer.now text.items) }
{
    let Some(witness) = answer else {
        return Ok(b"legal\n".to_vec(alloc)?);
    };
    let mut text = b"illegal\n".to_vec(alloc)?;
    let shown = write_book(alloc, kind, &witness.book)?;
    text.extend_from_slice(&shown)?;
    Ok(text)
}
