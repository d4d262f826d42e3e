//! The text of a book.

ghost use Rattle.std.specs.Prelude.{◌≡◌, ℕ, ◌<◌, ◌^◌, ◌++◌, length, Some, IfOk, OnOk};
ghost use Rattle.book_base.specs.declared.call.Record.{Record};
ghost use Rattle.book_base.specs.Book.{calls_of, record_of, IsCall};
ghost use Rattle.text_fields.specs.declared.version.Version.TheVariants.{Second};
ghost use Rattle.book_text.specs.CallLines.{answer_words};
ghost use Rattle.book_text.specs.Grammar.{IsWrittenText};
ghost use Rattle.book_text.specs.BookRules.{IsBookText};
ghost use Rattle.book_text.specs.Fields.{spaced, call_text, caller_text, HasWords};

use crate::fields::{put_head, put_operation, put_pairs, put_spaced};
use book_base::{Book, Call, NoMemory};
use seq_objects::{Kind, put_number, put_reply};
use sketch::announced;
use std::alloc::Global;

/// The one text of a book, in version 2, for an object of this kind.
pub fn write_book(alloc: Global, kind: Kind, book: &Book) -> Result<Vec<u8>, NoMemory>
    // The bytes are what is written of the book.
    ensures written { IfOk result (λ bytes. IsWrittenText Second bytes.items kind book.now) }
    // A reader reads the bytes as the book and its kind.
    ensures read { IfOk result (λ bytes. IsBookText Second bytes.items kind book.now) }
{
    let mut out = Vec::new(alloc);
    put_head(&mut out, b"book", kind, &announced(book))?;
    for caller in 0..book.callers() {
        put_calls(&mut out, kind, book, caller)?;
    }
    out.extend_from_slice(b"end\n")?;
    Ok(out)
}

/// Appends the lines of a caller's calls.
fn put_calls(out: &mut Vec<u8>, kind: Kind, book: &Book, caller: u32) -> Result<(), NoMemory>
    requires { caller < length book.now }
    ensures ok { OnOk result (out.new.items ≡ out.old.items ++ caller_text kind book.now caller) }
    ensures words { OnOk result ((number : ℕ) → number < calls_of book.now caller
        → HasWords book.now (record { caller = caller; number = number })) }
{
    for number in 0..book.calls(caller) {
        put_call(out, kind, book, Call { caller, number })?;
    }
    Ok(())
}

/// Appends the line of a call.
fn put_call(out: &mut Vec<u8>, kind: Kind, book: &Book, call: Call) -> Result<(), NoMemory>
    requires { IsCall book.now call }
    ensures ok { OnOk result (out.new.items ≡ out.old.items ++ call_text kind book.now call) }
    ensures words { OnOk result (HasWords book.now call) }
{
    put_number(out, u64::from(call.caller))?;
    put_spaced(out, call.number)?;
    put_operation(out, kind, book.op(call))?;
    put_answer(out, book, call)?;
    out.push(b'\n')?;
    Ok(())
}

/// Appends the reply and the view of a call, where it is answered.
fn put_answer(out: &mut Vec<u8>, book: &Book, call: Call) -> Result<(), NoMemory>
    requires { IsCall book.now call }
    ensures ok { OnOk result (out.new.items ≡ out.old.items
        ++ spaced (answer_words Second (record_of book.now call))) }
    ensures small { OnOk result ((answer : Record)
        → record_of book.now call ≡ Some answer → answer.reply < 2 ^ 64) }
{
    if call.number >= book.answers(call.caller) {
        return Ok(());
    }
    let record = book.record(call);
    out.push(b' ')?;
    put_reply(out, record.reply)?;
    out.extend_from_slice(b" view")?;
    put_pairs(out, &record.view)
}
