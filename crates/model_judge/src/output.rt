//! What the program writes, and the code that it ends with.

ghost use Rattle.std.specs.Prelude.{◌≡◌, ◌≤◌, ◌++◌, length, IfOk, IfErr, OnOk, OnErr};
ghost use Rattle.text_fields.specs.Faults.{IsFaultOf};
ghost use Rattle.byte_streams.specs.Fault.{Rose};
ghost use Rattle.byte_streams.specs.Program.{IsRefusedFor};
ghost use Rattle.byte_streams.specs.Status.{code_of};
ghost use Rattle.byte_streams.specs.declared.TheConstants.{INPUT_LIMIT};
ghost use Rattle.model_judge.specs.Verdicts.{IsModelVerdict};
ghost use Rattle.model_text.specs.ModelRules.{IsFirstModelFault};
ghost use Rattle.model_judge.specs.Output.{verdict_text, verdict_code, IsOutput, Writes, Ends};

use crate::judging::{ModelVerdict, judge_model};
use book_base::{NoMemory, ReadFault, TextFault, What};
use byte_streams::{Failed, INPUT_LIMIT, ReadAllError, Sink, Source, Status, read_all, write_all};
use model_text::put_model_operation;
use seq_objects::put_number;
use std::alloc::Global;
use text_fields::refusal;

/// The code that the program ends with where a step is needed that isn't told.
const OPEN: u8 = 8;

// A text, and the code that the program ends with once it is written.
#[derive(Drop)]
struct Output {
    code: u8,
    text: Vec<u8>,
}

/// Reads a source, judges the book of the model's text that it has, and writes the verdict, or why
/// the text is refused. An input longer than [`INPUT_LIMIT`] is refused.
pub(crate) fn run_judge<S: Source, K: Sink>(alloc: Global, source: &mut S, sink: &mut K) -> u8
    // Either the output for the bytes that were read is written, with its code, or a prefix of it
    // where a write failed; or a read failed or memory was lacking, and nothing is written.
    ensures ends { Ends result
        (S.left source.old) (S.left source.new) (K.taken sink.old) (K.taken sink.new) }
    // The code of `ReadFault` is answered only where the source's count of faults rose in this
    // call.
    ensures read_fault { result ≡ code_of Status.ReadFault
        → Rose (S.faults source.old) (S.faults source.new) }
    // The code of `WriteFault` is answered only where the sink's count of faults rose in this call.
    ensures write_fault { result ≡ code_of Status.WriteFault
        → Rose (K.faults sink.old) (K.faults sink.new) }
    // Another code than that of `ReadFault` is answered only where the source's count of faults
    // stayed.
    ensures read_calm { ¬ (result ≡ code_of Status.ReadFault)
        → S.faults source.new ≡ S.faults source.old }
    // Another code than that of `WriteFault` is answered only where the sink's count of faults
    // stayed.
    ensures write_calm { ¬ (result ≡ code_of Status.WriteFault)
        → K.faults sink.new ≡ K.faults sink.old }
{
    match read_all(alloc, source) {
        Ok(bytes) => write_output(alloc, &bytes, sink),
        Err(ReadAllError::Fault) => Status::ReadFault.code(),
        Err(ReadAllError::NoMemory) => Status::NoMemory.code(),
    }
}

// Writes the output for the bytes that were read. Where memory for it is lacking, nothing is
// written.
fn write_output<K: Sink>(alloc: Global, bytes: &[u8], sink: &mut K) -> u8
    ensures ends { Writes bytes.now result (K.taken sink.old) (K.taken sink.new) }
    ensures read { ¬ (result ≡ code_of Status.ReadFault) }
    ensures fault { result ≡ code_of Status.WriteFault
        → Rose (K.faults sink.old) (K.faults sink.new) }
    ensures calm { ¬ (result ≡ code_of Status.WriteFault) → K.faults sink.new ≡ K.faults sink.old }
{
    match output_for(alloc, bytes) {
        Ok(output) => match write_all(sink, &output.text) {
            Ok(()) => output.code,
            Err(Failed) => Status::WriteFault.code(),
        },
        Err(NoMemory) => Status::NoMemory.code(),
    }
}

// The output for the bytes that were read.
fn output_for(alloc: Global, bytes: &[u8]) -> Result<Output, NoMemory>
    ensures output { IfOk result (λ output. IsOutput bytes.now output.code output.text.items) }
    ensures read { IfOk result (λ output. ¬ (output.code ≡ code_of Status.ReadFault)) }
    ensures written { IfOk result (λ output. ¬ (output.code ≡ code_of Status.WriteFault)) }
{
    match judge_within(alloc, bytes) {
        Ok(verdict) => Ok(Output {
            code: code_for(verdict),
            text: text_of(alloc, verdict)?,
        }),
        Err(ReadFault::Text(fault)) => Ok(Output {
            code: Status::Refused.code(),
            text: refusal(alloc, fault)?,
        }),
        Err(ReadFault::NoMemory) => Err(NoMemory),
    }
}

// The verdict on the bytes, which are refused where there are more than `INPUT_LIMIT`.
fn judge_within(alloc: Global, bytes: &[u8]) -> Result<ModelVerdict, ReadFault>
    ensures short { IfOk result (λ _. length bytes.now ≤ INPUT_LIMIT) }
    ensures verdict { IfOk result (IsModelVerdict bytes.now) }
    ensures refused { IfErr result (IsFaultOf (IsRefusedFor IsFirstModelFault bytes.now)) }
{
    if bytes.len() > INPUT_LIMIT {
        return Err(ReadFault::Text(TextFault {
            line: 0,
            what: What::Long,
        }));
    }
    judge_model(alloc, bytes)
}

// The code that the program ends with once a verdict is written.
fn code_for(verdict: ModelVerdict) -> u8
    ensures { result ≡ verdict_code verdict }
{
    match verdict {
        ModelVerdict::Legal => Status::Fine.code(),
        ModelVerdict::Illegal => Status::Found.code(),
        ModelVerdict::Open(_, _) => OPEN,
    }
}

// The line of a verdict.
fn text_of(alloc: Global, verdict: ModelVerdict) -> Result<Vec<u8>, NoMemory>
    ensures { IfOk result (λ text. text.items ≡ verdict_text verdict) }
{
    match verdict {
        ModelVerdict::Legal => Ok(b"legal\n".to_vec(alloc)?),
        ModelVerdict::Illegal => Ok(b"illegal\n".to_vec(alloc)?),
        ModelVerdict::Open(state, op) => {
            let mut text = b"open ".to_vec(alloc)?;
            put_number(&mut text, state)?;
            put_model_operation(&mut text, op)?;
            text.extend_from_slice(b"\n")?;
            Ok(text)
        }
    }
}
