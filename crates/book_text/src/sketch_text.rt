//! The text of a sketch.

ghost use Rattle.std.specs.Prelude.{◌≡◌, ℕ, ◌++◌, IfOk, OnOk};
ghost use Rattle.book_base.specs.Book.{IsCall, IsAnswered};
ghost use Rattle.seq_objects.specs.declared.kind.Kind.{Kind};
ghost use Rattle.text_fields.specs.Lines.{line_text, text_of};
ghost use Rattle.sketch.specs.declared.event.Event.TheVariants.{Invoke, Return};
ghost use Rattle.sketch.specs.Sketch.{IsEventOf};
ghost use Rattle.book_text.specs.Sketches.{event_words, sketch_lines, AreEventsOf};

use crate::fields::{put_operation, put_place, put_title};
use book_base::{Book, Call, NoMemory};
use seq_objects::{Kind, put_reply};
use sketch::Event;
use std::alloc::Global;

/// The text of these events of a book, in version 2, for an object of this kind.
pub fn events_text(
    alloc: Global,
    kind: Kind,
    book: &Book,
    events: &[Event],
) -> Result<Vec<u8>, NoMemory>
    // Each of the events is one of the book's.
    requires { AreEventsOf book.now events.now }
    // The bytes are the title, the lines of the events in order, and the end.
    ensures { IfOk result (λ bytes. bytes.items ≡ text_of (sketch_lines kind book.now events.now)) }
{
    let mut out = Vec::new(alloc);
    put_title(&mut out, b"sketch")?;
    for event in events {
        put_event(&mut out, kind, book, *event)?;
    }
    out.extend_from_slice(b"end\n")?;
    Ok(out)
}

/// Appends the line of an event.
fn put_event(out: &mut Vec<u8>, kind: Kind, book: &Book, event: Event) -> Result<(), NoMemory>
    requires { IsEventOf book.now event }
    ensures { OnOk result (out.new.items ≡ out.old.items
        ++ line_text (event_words kind book.now event)) }
{
    match event {
        Event::Invoke(call) => put_invocation(out, kind, book, call)?,
        Event::Return(call) => put_return(out, book, call)?,
    }
    Ok(())
}

/// Appends the line of an invocation.
fn put_invocation(out: &mut Vec<u8>, kind: Kind, book: &Book, call: Call) -> Result<(), NoMemory>
    requires { IsCall book.now call }
    ensures { OnOk result (out.new.items ≡ out.old.items
        ++ line_text (event_words kind book.now (Invoke call))) }
{
    out.extend_from_slice(b"call")?;
    put_place(out, call)?;
    put_operation(out, kind, book.op(call))?;
    out.push(b'\n')?;
    Ok(())
}

/// Appends the line of a return.
fn put_return(out: &mut Vec<u8>, book: &Book, call: Call) -> Result<(), NoMemory>
    requires { IsAnswered book.now call }
    ensures { OnOk result ((kind : Kind) → out.new.items ≡ out.old.items
        ++ line_text (event_words kind book.now (Return call))) }
{
    out.extend_from_slice(b"return")?;
    put_place(out, call)?;
    out.push(b' ')?;
    put_reply(out, book.record(call).reply)?;
    out.push(b'\n')?;
    Ok(())
}
