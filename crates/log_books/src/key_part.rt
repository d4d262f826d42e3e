//! What is written of one key: its name, its values' names, its calls' lines, and its book.

ghost use Rattle.std.specs.Prelude.{◌≡◌, ◌<◌, ◌++◌, All, IfOk, OnOk, length, map, option_map};
ghost use Rattle.history_books.specs.Calls.{IsInOrder};
ghost use Rattle.history_books.specs.BookOf.{IsBookOf};
ghost use Rattle.log_books.specs.Keys.{key_at};
ghost use Rattle.log_books.specs.Lines.{key_line, spaced, after_space, name_line, names_text, end_text, call_line, calls_text};
ghost use Rattle.log_books.specs.Parts.{IsPart};
ghost use Rattle.log_books.specs.Words.{names_of};

use crate::key_calls::{KeyCalls, LinedCall};
use crate::keys::KeyPlaces;
use crate::names::Names;
use crate::options::Options;
use crate::refused::log_refusal;
use book_base::{Call, NoMemory};
use book_text::write_book;
use history_books::{HistoryBook, HistoryError, TimedCall, are_in_order, book_of};
use history_text::{LogCall, LogError, LogFault, LogWhat};
use seq_objects::put_number;
use std::alloc::Global;

/// What is written of a key, and whether that ends with a book.
#[derive(Drop)]
pub struct KeyPart {
    pub text: Vec<u8>,
    pub has_book: bool,
}

// Appends the line of a key.
#[tactic(auto, unfolding(crate::specs::Lines::key_line))]
fn put_key(out: &mut Vec<u8>, key: Option<&[u8]>) -> Result<(), NoMemory>
    ensures { OnOk result (out.new.items
        ≡ out.old.items ++ key_line (option_map (λ key. key.now) key.entry)) }
{
    out.extend_from_slice(b"key")?;
    if let Some(key) = key {
        out.push(b' ')?;
        out.extend_from_slice(key)?;
    }
    out.push(b'\n')?;
    Ok(())
}

// Appends a number after a space.
fn put_spaced(out: &mut Vec<u8>, number: u64) -> Result<(), NoMemory>
    ensures { OnOk result (out.new.items ≡ out.old.items ++ spaced number) }
{
    out.push(b' ')?;
    put_number(out, number)
}

// Appends a name after a space, and nothing for a name of no bytes.
#[tactic(auto, unfolding(crate::specs::Lines::after_space))]
fn put_after_space(out: &mut Vec<u8>, name: &[u8]) -> Result<(), NoMemory>
    ensures { OnOk result (out.new.items ≡ out.old.items ++ after_space name.now) }
{
    if !name.is_empty() {
        out.push(b' ')?;
        out.extend_from_slice(name)?;
    }
    Ok(())
}

// Appends the line of a value's number and name.
fn put_name(out: &mut Vec<u8>, number: u64, name: &[u8]) -> Result<(), NoMemory>
    ensures { OnOk result (out.new.items ≡ out.old.items ++ name_line number name.now) }
{
    out.extend_from_slice(b"name")?;
    put_spaced(out, number)?;
    put_after_space(out, name)?;
    out.push(b'\n')?;
    Ok(())
}

// Appends the lines of the values' names, by their numbers.
fn put_names(out: &mut Vec<u8>, names: &Names) -> Result<(), NoMemory>
    ensures { OnOk result (out.new.items ≡ out.old.items ++ names_text 0 (names_of names.now)) }
{
    for number in 0..names.len() {
        put_name(out, number as u64, names.name(number))?;
    }
    Ok(())
}

// Appends the line of a call's answer after a space, where it has one.
fn put_end(out: &mut Vec<u8>, end: Option<u64>) -> Result<(), NoMemory>
    ensures { OnOk result (out.new.items ≡ out.old.items ++ end_text end) }
{
    match end {
        Some(line) => put_spaced(out, line),
        None => Ok(()),
    }
}

// Appends the line of a call, with its name in the book and its lines in the log.
fn put_call(out: &mut Vec<u8>, call: &LinedCall, name: &Call) -> Result<(), NoMemory>
    ensures { OnOk result (out.new.items ≡ out.old.items ++ call_line call.now name.now) }
{
    out.extend_from_slice(b"call")?;
    put_spaced(out, u64::from(name.caller))?;
    put_spaced(out, name.number)?;
    put_spaced(out, call.line)?;
    put_end(out, call.end)?;
    out.push(b'\n')?;
    Ok(())
}

// Appends the lines of the calls, each with its name in the book.
fn put_calls(out: &mut Vec<u8>, calls: &[LinedCall], names: &[Call]) -> Result<(), NoMemory>
    requires { length names.now ≡ length calls.now }
    ensures { OnOk result (out.new.items ≡ out.old.items ++ calls_text calls.now names.now) }
{
    for k in 0..calls.len() {
        put_call(out, &calls[k], &names[k])?;
    }
    Ok(())
}

// The calls, without their lines.
fn timed(alloc: Global, calls: &[LinedCall]) -> Result<Vec<TimedCall>, NoMemory>
    ensures { IfOk result (λ timed. timed.items ≡ map LinedCall.call calls.now) }
{
    let mut timed: Vec<TimedCall> = Vec::new(alloc);
    for lined in calls {
        timed.push(lined.call)?;
    }
    Ok(timed)
}

// The book of the calls of a key, or why there is none.
fn made(alloc: Global, calls: &[LinedCall]) -> Result<HistoryBook, LogError>
    ensures order { IfOk result (λ made. IsInOrder (map LinedCall.call calls.now)) }
    ensures book { IfOk result (λ made.
        IsBookOf (map LinedCall.call calls.now) made.book made.names.items) }
{
    let timed = timed(alloc, calls)?;
    if !are_in_order(&timed) {
        return Err(at_call(calls, 0, LogWhat::Time));
    }
    match book_of(alloc, &timed) {
        Ok(made) => Ok(made),
        Err(HistoryError::NoMemory) => Err(LogError::NoMemory),
        Err(HistoryError::TooMany(place)) => Err(at_call(calls, place, LogWhat::TooMany)),
        Err(HistoryError::Long(place)) => Err(at_call(calls, place, LogWhat::Long)),
    }
}

// The fault at a call's line.
fn at_call(calls: &[LinedCall], place: usize, what: LogWhat) -> LogError {
    let line = match calls.get(place) {
        Some(call) => call.line,
        None => 0,
    };
    LogError::Fault(LogFault { line, what })
}

/// What is written of one key of a log. A fault of the log's words is answered.
pub fn key_part<'a>(
    alloc: Global,
    options: &Options<'a>,
    log: &[LogCall<'a>],
    of_key: &KeyPlaces<'a>,
) -> Result<KeyPart, LogError>
    requires { All (λ place. place < length log.now) of_key.now.places.items }
    // The part has the lines of the key and the text of the book of its calls, or the line of a
    // fault.
    ensures { IfOk result (λ part.
        IsPart options.now log.now (key_at of_key.now) part.has_book part.text.items) }
{
    let calls = KeyCalls::of(alloc, options, log, &of_key.places)?;
    let mut text = Vec::new(alloc);
    put_key(&mut text, of_key.key)?;
    match made(alloc, &calls.calls) {
        Ok(made) => {
            put_names(&mut text, &calls.names)?;
            put_calls(&mut text, &calls.calls, &made.names)?;
            text.extend_from_slice(&write_book(alloc, options.kind, &made.book)?)?;
            Ok(KeyPart {
                text,
                has_book: true,
            })
        }
        Err(LogError::Fault(fault)) => {
            text.extend_from_slice(&log_refusal(alloc, fault)?)?;
            Ok(KeyPart {
                text,
                has_book: false,
            })
        }
        Err(LogError::NoMemory) => Err(LogError::NoMemory),
    }
}
