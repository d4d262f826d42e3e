//! Programs that read one input, and write one output.

ghost use Rattle.std.specs.Prelude.{◌≡◌, ℕ, ◌≤◌, List, length, IfOk, IfErr};
ghost use Rattle.book_base.specs.declared.fault.TextFault.{TextFault};
ghost use Rattle.text_fields.specs.Faults.{IsFaultOf};
ghost use Rattle.byte_streams.specs.Fault.{Rose};
ghost use Rattle.byte_streams.specs.Program.{IsAnswer, IsRefusedFor, IsOutput, Ends};
ghost use Rattle.byte_streams.specs.Writing.{EndsWriting};

use crate::INPUT_LIMIT;
use crate::failed::ReadAllError;
use crate::sink::Sink;
use crate::source::Source;
use crate::status::Status;
use crate::transfer::{read_all, write_text};
use book_base::{NoMemory, ReadFault, TextFault, What};
use std::alloc::Global;
use text_fields::refusal;

/// The answer of a program to an input that it doesn't refuse.
#[derive(Drop)]
pub enum ProgramAnswer {
    /// A text with the status `Fine`: a picture, a certificate, or that nothing was found.
    Fine(Vec<u8>),
    /// A text with the status `Found`, which says what was found.
    Found(Vec<u8>),
}

/// A program that reads one input, and writes one output.
pub trait TextProgram {
    /// This text is an answer to this input with the status `Fine`.
    ghost is_fine: { Self → List ℕ → List ℕ → Type 0 };

    /// This text is an answer to this input with the status `Found`.
    ghost is_found: { Self → List ℕ → List ℕ → Type 0 };

    /// This input is refused for this fault.
    ghost is_fault: { Self → List ℕ → TextFault → Type 0 };

    /// The answer of the program to an input, or why the input is refused.
    fn answer(&self, alloc: Global, bytes: &[u8]) -> Result<ProgramAnswer, ReadFault>
        // The answer's text is one that the program may answer, with the answer's status, to this
        // input.
        ensures told { IfOk result
            (IsAnswer (is_fine self.now bytes.now) (is_found self.now bytes.now)) }
        // An error is a fault for which the input is refused, or want of memory.
        ensures refused { IfErr result (IsFaultOf (is_fault self.now bytes.now)) };
}

/// Reads a source, and writes a program's output: its answer with the status `Fine` or `Found`, or
/// why it refuses the input. An input longer than [`INPUT_LIMIT`] is refused.
pub fn run_program<P: TextProgram, S: Source, K: Sink>(
    program: &P,
    alloc: Global,
    source: &mut S,
    sink: &mut K,
) -> Status
    // Either the output for the bytes that were read is written with its status, or a prefix of it
    // where a write failed; or the status is `ReadFault` or `NoMemory`, and nothing is written.
    ensures ends { Ends
        (IsOutput (P.is_fine program.now) (P.is_found program.now) (P.is_fault program.now)) result
        (S.left source.old) (S.left source.new) (K.taken sink.old) (K.taken sink.new) }
    // `ReadFault` is answered only where the source's count of faults rose in this call.
    ensures read_fault { result ≡ Status.ReadFault
        → Rose (S.faults source.old) (S.faults source.new) }
    // `WriteFault` is answered only where the sink's count of faults rose in this call.
    ensures write_fault { result ≡ Status.WriteFault
        → Rose (K.faults sink.old) (K.faults sink.new) }
    // A status other than `ReadFault` is answered only where the source's count of faults stayed.
    ensures read_calm { ¬ (result ≡ Status.ReadFault) → S.faults source.new ≡ S.faults source.old }
    // A status other than `WriteFault` is answered only where the sink's count of faults stayed.
    ensures write_calm { ¬ (result ≡ Status.WriteFault) → K.faults sink.new ≡ K.faults sink.old }
{
    match read_all(alloc, source) {
        Ok(bytes) => write_output(program, alloc, &bytes, sink),
        Err(ReadAllError::Fault) => Status::ReadFault,
        Err(ReadAllError::NoMemory) => Status::NoMemory,
    }
}

// Writes the output of a program for the bytes that were read. Where memory for the output is
// lacking, nothing is written.
fn write_output<P: TextProgram, K: Sink>(
    program: &P,
    alloc: Global,
    bytes: &[u8],
    sink: &mut K,
) -> Status
    ensures ends { EndsWriting
        (IsOutput (P.is_fine program.now) (P.is_found program.now)
        (P.is_fault program.now) bytes.now) result
        (K.taken sink.old) (K.taken sink.new) }
    ensures fault { result ≡ Status.WriteFault → Rose (K.faults sink.old) (K.faults sink.new) }
    ensures calm { ¬ (result ≡ Status.WriteFault) → K.faults sink.new ≡ K.faults sink.old }
{
    match output_for(program, alloc, bytes) {
        Ok(output) => write_text(sink, output.status, &output.text),
        Err(NoMemory) => Status::NoMemory,
    }
}

// A text, and the status that the program ends with once it is written.
#[derive(Drop)]
struct Output {
    status: Status,
    text: Vec<u8>,
}

// The output of a program for the bytes that were read.
fn output_for<P: TextProgram>(program: &P, alloc: Global, bytes: &[u8]) -> Result<Output, NoMemory>
    ensures { IfOk result (λ output.
        IsOutput (P.is_fine program.now) (P.is_found program.now) (P.is_fault program.now) bytes.now
        output.status output.text.items) }
{
    match answer_within(program, alloc, bytes) {
        Ok(ProgramAnswer::Fine(text)) => Ok(Output {
            status: Status::Fine,
            text,
        }),
        Ok(ProgramAnswer::Found(text)) => Ok(Output {
            status: Status::Found,
            text,
        }),
        Err(ReadFault::Text(fault)) => Ok(Output {
            status: Status::Refused,
            text: refusal(alloc, fault)?,
        }),
        Err(ReadFault::NoMemory) => Err(NoMemory),
    }
}

// The answer of a program to an input, which is refused where it is longer than `INPUT_LIMIT`.
fn answer_within<P: TextProgram>(
    program: &P,
    alloc: Global,
    bytes: &[u8],
) -> Result<ProgramAnswer, ReadFault>
    ensures short { IfOk result (λ _. length bytes.now ≤ INPUT_LIMIT) }
    ensures told { IfOk result
        (IsAnswer (P.is_fine program.now bytes.now) (P.is_found program.now bytes.now)) }
    ensures refused { IfErr result (IsFaultOf (IsRefusedFor (P.is_fault program.now) bytes.now)) }
{
    if bytes.len() > INPUT_LIMIT {
        return Err(ReadFault::Text(TextFault {
            line: 0,
            what: What::Long,
        }));
    }
    program.answer(alloc, bytes)
}
