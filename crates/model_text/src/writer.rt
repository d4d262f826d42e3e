//! The text of a model.

ghost use Rattle.std.specs.Prelude.{◌≡◌, ℕ, ◌<◌, ◌^◌, ◌++◌, [], length, Some, IfOk, OnOk};
ghost use Rattle.book_base.specs.declared.call.Record.{Record};
ghost use Rattle.book_base.specs.Book.{calls_of, record_of, IsCall};
ghost use Rattle.text_fields.specs.declared.version.Version.TheVariants.{Second};
ghost use Rattle.text_fields.specs.Lines.{line_text, text_of};
ghost use Rattle.text_fields.specs.Head.{callers_words, calls_words};
ghost use Rattle.book_text.specs.CallLines.{answer_words, calls_from};
ghost use Rattle.book_text.specs.Fields.{spaced, HasWords};
ghost use Rattle.model_text.specs.Told.{AllFollow};
ghost use Rattle.model_text.specs.Grammar.{told_words, IsLine, IsSubject, IsWrittenBook, IsWrittenModel};
ghost use Rattle.model_text.specs.ModelRules.{IsModelText};
ghost use Rattle.model_text.specs.Written.{head_lines, call_line, call_texts, IsSubjectWritten};

use crate::model_words::put_model_operation;
use crate::told_line::{Subject, ToldLine};
use book_base::{Book, Call, Cut, NoMemory};
use book_text::fields::{put_counts, put_pairs, put_spaced, put_title};
use seq_objects::{put_number, put_reply};
use sketch::announced;
use std::alloc::Global;

/// The one text of a model: of a book, and what was told of the model.
pub fn write_model(alloc: Global, book: &Book, told: &[ToldLine]) -> Result<Vec<u8>, NoMemory>
    // Each told line may follow those before it: the lines rise, and the steps keep the promises.
    requires follow { AllFollow [] told.now }
    // The bytes are what is written of the book and the told lines.
    ensures written { IfOk result (λ bytes. IsWrittenModel bytes.items book.now told.now) }
    // A reader reads the bytes as the book and the told lines.
    ensures read { IfOk result (λ bytes. IsModelText bytes.items book.now told.now) }
{
    let mut out = write_book(alloc, book)?;
    put_title(&mut out, b"steps")?;
    for line in told {
        put_told_line(&mut out, *line)?;
    }
    out.extend_from_slice(b"end\n")?;
    Ok(out)
}

/// The text of a model's book.
pub fn write_book(alloc: Global, book: &Book) -> Result<Vec<u8>, NoMemory>
    ensures { IfOk result (λ bytes. IsWrittenBook bytes.items book.now) }
{
    let mut out = Vec::new(alloc);
    put_head(&mut out, &announced(book))?;
    for caller in 0..book.callers() {
        put_calls(&mut out, book, caller)?;
    }
    out.extend_from_slice(b"end\n")?;
    Ok(out)
}

/// Appends the head of a model's book with these numbers of calls.
fn put_head(out: &mut Vec<u8>, calls: &Cut) -> Result<(), NoMemory>
    ensures { OnOk result (out.new.items ≡ out.old.items ++ text_of (head_lines calls.now)) }
{
    put_title(out, b"book")?;
    out.extend_from_slice(b"object model\n")?;
    put_callers(out, calls.n())?;
    put_calls_line(out, calls)
}

/// Appends the line of the number of callers.
fn put_callers(out: &mut Vec<u8>, n: u32) -> Result<(), NoMemory>
    ensures { OnOk result (out.new.items ≡ out.old.items ++ line_text (callers_words n)) }
{
    out.extend_from_slice(b"callers ")?;
    put_number(out, u64::from(n))?;
    out.push(b'\n')?;
    Ok(())
}

/// Appends the line of the numbers of calls.
fn put_calls_line(out: &mut Vec<u8>, calls: &Cut) -> Result<(), NoMemory>
    ensures { OnOk result (out.new.items ≡ out.old.items ++ line_text (calls_words calls.now)) }
{
    out.extend_from_slice(b"calls")?;
    put_counts(out, calls)?;
    out.push(b'\n')?;
    Ok(())
}

/// Appends the lines of a caller's calls.
fn put_calls(out: &mut Vec<u8>, book: &Book, caller: u32) -> Result<(), NoMemory>
    requires { caller < length book.now }
    ensures ok { OnOk result (out.new.items ≡ out.old.items
        ++ text_of (call_texts book.now (calls_from caller 0 (calls_of book.now caller)))) }
    ensures words { OnOk result ((number : ℕ) → number < calls_of book.now caller
        → HasWords book.now (record { caller = caller; number = number })) }
{
    for number in 0..book.calls(caller) {
        put_call(out, book, Call { caller, number })?;
    }
    Ok(())
}

/// Appends the line of a call.
fn put_call(out: &mut Vec<u8>, book: &Book, call: Call) -> Result<(), NoMemory>
    requires { IsCall book.now call }
    ensures ok { OnOk result (out.new.items
        ≡ out.old.items ++ line_text (call_line book.now call)) }
    ensures words { OnOk result (HasWords book.now call) }
{
    put_number(out, u64::from(call.caller))?;
    put_spaced(out, call.number)?;
    put_model_operation(out, book.op(call))?;
    put_answer(out, book, call)?;
    out.push(b'\n')?;
    Ok(())
}

/// Appends the reply and the view of a call, where it is answered.
fn put_answer(out: &mut Vec<u8>, book: &Book, call: Call) -> Result<(), NoMemory>
    requires { IsCall book.now call }
    ensures ok { OnOk result (out.new.items ≡ out.old.items
        ++ spaced (answer_words Second (record_of book.now call))) }
    ensures small { OnOk result ((answer : Record)
        → record_of book.now call ≡ Some answer → answer.reply < 2 ^ 64) }
{
    if call.number >= book.answers(call.caller) {
        return Ok(());
    }
    let record = book.record(call);
    out.push(b' ')?;
    put_reply(out, record.reply)?;
    out.extend_from_slice(b" view")?;
    put_pairs(out, &record.view)
}

/// Appends a told line.
fn put_told_line(out: &mut Vec<u8>, line: ToldLine) -> Result<(), NoMemory>
    ensures ok { OnOk result (out.new.items ≡ out.old.items ++ line_text (told_words line)) }
    ensures may { OnOk result (IsLine line) }
{
    put_subject(out, line.subject)?;
    out.push(b' ')?;
    put_reply(out, line.reply)?;
    out.push(b'\n')?;
    Ok(())
}

/// Appends what a told line speaks of.
fn put_subject(out: &mut Vec<u8>, subject: Subject) -> Result<(), NoMemory>
    ensures ok { OnOk result (IsSubjectWritten out.old.items out.new.items subject) }
    ensures may { OnOk result (IsSubject subject) }
{
    match subject {
        Subject::Leaves(op) => {
            out.extend_from_slice(b"leaves")?;
            put_model_operation(out, op)
        }
        Subject::Step(state, op, next) => {
            put_number(out, state)?;
            put_model_operation(out, op)?;
            put_spaced(out, next)
        }
    }
}
