//! The values that calls show in the picture of a book, and the CSS classes of a call's SVG
//! element: that of its value's colour, and that of a mark.

ghost use Rattle.std.specs.Prelude.{◌≡◌, ◌==◌, [], ◌++◌, option_map, string_bytes, IfOk, OnOk};
ghost use Rattle.std.specs.List.{position};
ghost use Rattle.book_base.specs.Book.{IsCall, record_of};
ghost use Rattle.sketch.specs.declared.event.Event.{Event};
ghost use Rattle.sketch.specs.Sketch.{IsEventOf, StandsIn};
ghost use Rattle.book_picture.specs.Values.{has_argument, value_in_reply, value_of_step, value_of_call, with_value, with_event, values_after, place_among, colour_of, colour_class, mark_class};

use book_base::{Book, Call, NoMemory, OpWord, SeqObject, low};
use seq_objects::Kind;
use sketch::Event;
use std::alloc::Global;

/// How many colours for values there are.
const COLOURS: usize = 8;

/// Each value that a call shows is below this number.
const VALUES: u64 = 1 << 32;

/// The high 32 bits of a reply word that shows a value.
const VALUE_TAG: u64 = 2;

/// The values that the invoked calls of a list of events show, each once, in the order in which
/// they are first shown.
pub(crate) fn values_of(
    alloc: Global,
    kind: Kind,
    book: &Book,
    events: &[Event],
) -> Result<Vec<u64>, NoMemory>
    requires { (event : Event) → StandsIn events.now event → IsEventOf book.now event }
    ensures { IfOk result (λ values. values.items ≡ values_after kind book.now [] events.now) }
{
    let mut values = Vec::new(alloc);
    for event in events {
        add_event(&mut values, kind, book, *event)?;
    }
    Ok(values)
}

// Appends the value that the call of an invocation shows, where it shows one that the list lacks. A
// return appends nothing.
fn add_event(values: &mut Vec<u64>, kind: Kind, book: &Book, event: Event) -> Result<(), NoMemory>
    requires { IsEventOf book.now event }
    ensures { OnOk result (values.new.items ≡ with_event kind book.now values.old.items event) }
{
    match event {
        Event::Invoke(call) => add_value(values, value_of(kind, book, call)),
        Event::Return(_) => Ok(()),
    }
}

// Appends a value, where there is one and the list lacks it.
fn add_value(values: &mut Vec<u64>, value: Option<u64>) -> Result<(), NoMemory>
    ensures { OnOk result (values.new.items ≡ with_value values.old.items value) }
{
    match value {
        None => Ok(()),
        Some(value) => {
            if values.contains(&value) {
                Ok(())
            } else {
                Ok(values.push(value)?)
            }
        }
    }
}

/// The value that a call of a book shows, where it shows one: the first argument of its operation,
/// or else the value of its reply.
pub(crate) fn value_of(kind: Kind, book: &Book, call: Call) -> Option<u64>
    requires { IsCall book.now call }
    ensures { result ≡ value_of_call kind book.now call }
{
    let _callers = book.callers();
    let op = book.op(call);
    let reply = reply_of(book, call);
    value_of_step(kind, op, reply)
}

/// The reply to a call, where it is answered.
pub(crate) fn reply_of(book: &Book, call: Call) -> Option<u64>
    requires { IsCall book.now call }
    ensures { result ≡ option_map (λ r. r.reply) (record_of book.now call) }
{
    let _callers = book.callers();
    if call.number < book.answers(call.caller) {
        let record = book.record(call);
        Some(record.reply)
    } else {
        None
    }
}

// The value that an operation with its reply shows.
fn value_of_step(kind: Kind, op: OpWord, reply: Option<u64>) -> Option<u64>
    ensures { result ≡ value_of_step kind op reply }
{
    if kind.known(op) {
        if has_argument(kind, low(op) / VALUES) {
            Some(low(op) % VALUES)
        } else {
            value_in_reply(reply)
        }
    } else {
        value_in_reply(reply)
    }
}

// Whether a number follows the name of an operation that has this code.
fn has_argument(kind: Kind, code: u64) -> bool
    ensures { result ≡ has_argument kind code }
{
    match kind {
        Kind::Queue => code == 1,
        Kind::Stack => code == 1,
        Kind::Register => code == 1,
        Kind::Counter => false,
        Kind::IntSet => true,
        Kind::Pqueue => code == 1,
        Kind::CasRegister => code != 2,
        Kind::Map => true,
    }
}

// The value that a reply shows, where there is a reply and it shows one.
fn value_in_reply(reply: Option<u64>) -> Option<u64>
    ensures { result ≡ value_in_reply reply }
{
    let reply = reply?;
    if reply / VALUES == VALUE_TAG {
        Some(reply % VALUES)
    } else {
        None
    }
}

/// The number of a value's colour: the value's index in `values`, or 0 where `values` lacks it,
/// modulo the number of colours; `None` for no value.
pub(crate) fn colour_of(values: &[u64], value: Option<u64>) -> Option<usize>
    ensures { result ≡ colour_of values.now value }
{
    let value = value?;
    Some(place_among(values, value) % COLOURS)
}

// The index of a value in a list, or 0 where the list lacks it.
fn place_among(values: &[u64], value: u64) -> usize
    ensures { result ≡ place_among values.now value }
{
    place_of(values, value).unwrap_or(0)
}

// The first index of a value in a list, where the list has it.
fn place_of(values: &[u64], value: u64) -> Option<usize>
    ensures { result ≡ position (λ x. x == value) values.now }
{
    values.iter().position(|&x| x == value)
}

/// The classes of a call's element, by its colour and by whether the call is marked.
pub(crate) fn class_of(
    alloc: Global,
    colour: Option<usize>,
    is_marked: bool,
) -> Result<String, NoMemory>
    ensures { IfOk result
        (λ text. string_bytes text ≡ colour_class colour ++ mark_class is_marked) }
{
    let mut class = String::new(alloc);
    put_colour(&mut class, colour)?;
    class.push_str(mark_of(is_marked))?;
    Ok(class)
}

// Appends the class of a call's element for a colour: `value-N` for the colour N, and `plain` for
// none.
fn put_colour(class: &mut String, colour: Option<usize>) -> Result<(), NoMemory>
    ensures { OnOk result (string_bytes class.new ≡ string_bytes class.old ++ colour_class colour) }
{
    match colour {
        None => class.push_str("plain")?,
        Some(colour) => write!(class, "value-{colour}")?,
    }
    Ok(())
}

// The class of a marked call's element beside its colour; empty for a call that isn't marked.
fn mark_of(is_marked: bool) -> &'static str
    ensures { result.now ≡ mark_class is_marked }
{
    if is_marked { " marked" } else { "" }
}
