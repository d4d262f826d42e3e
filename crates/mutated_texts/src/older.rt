//! Texts that the library reads but doesn't write: those of version 1, and set books. This module
//! writes them, so that what was read can be compared with the text.

ghost use Rattle.std.specs.Prelude.{◌<◌, length};
ghost use Rattle.book_base.specs.Book.{IsCall};

use book_base::{Book, Call, Cut, NoMemory, OpWord, ReadFault, low};
use book_text::fields::{put_counts, put_pairs, put_spaced};
use book_text::read_book1;
use client_scripts::{read_script1, write_script};
use seq_objects::{Kind, put_number, put_reply};
use set_order::{Joins, read_setbook};
use sketch::announced;
use std::alloc::Global;

/// The place of the version's digit in the title of a script.
const VERSION_AT: usize = 7;

/// The words in which the two older forms of books differ.
#[derive(Clone, Copy)]
enum Words {
    /// A book of version 1 has the operations of a kind, and views as counts.
    First(Kind),
    /// A set book has joins, and views as pairs.
    Joins,
}

/// Reads a book of version 1, and writes what was read.
pub fn old_book(alloc: Global, bytes: &[u8]) -> Result<Vec<u8>, ReadFault> {
    let (kind, book) = read_book1(alloc, bytes)?;
    let mut out = Vec::new(alloc);
    out.extend_from_slice(b"book 1\nobject ")?;
    out.extend_from_slice(kind.name().as_bytes())?;
    put_book(&mut out, Words::First(kind), &book)?;
    Ok(out)
}

/// Reads a set book, and writes what was read.
pub fn set_book(alloc: Global, bytes: &[u8]) -> Result<Vec<u8>, ReadFault> {
    let book = read_setbook(alloc, bytes)?;
    let mut out = Vec::new(alloc);
    out.extend_from_slice(b"setbook 2\nobject joins")?;
    put_book(&mut out, Words::Joins, &book)?;
    Ok(out)
}

/// Reads a script of version 1, and writes what was read: the text of version 2, but with the title
/// of version 1.
pub fn old_script(alloc: Global, bytes: &[u8]) -> Result<Vec<u8>, ReadFault> {
    let script = read_script1(alloc, bytes)?;
    let mut out = write_script(alloc, &script)?;
    if let Some(version) = out.get_mut(VERSION_AT) {
        *version = b'1';
    }
    Ok(out)
}

// Appends all but the first two lines of a book.
fn put_book(out: &mut Vec<u8>, words: Words, book: &Book) -> Result<(), NoMemory> {
    out.extend_from_slice(b"\ncallers")?;
    put_spaced(out, u64::from(book.callers()))?;
    out.extend_from_slice(b"\ncalls")?;
    put_counts(out, &announced(book))?;
    out.push(b'\n')?;
    for caller in 0..book.callers() {
        put_calls(out, words, book, caller)?;
    }
    out.extend_from_slice(b"end\n")?;
    Ok(())
}

fn put_calls(out: &mut Vec<u8>, words: Words, book: &Book, caller: u32) -> Result<(), NoMemory>
    requires { caller < length book.now }
{
    for number in 0..book.calls(caller) {
        put_call(out, words, book, Call { caller, number })?;
    }
    Ok(())
}

fn put_call(out: &mut Vec<u8>, words: Words, book: &Book, call: Call) -> Result<(), NoMemory>
    requires { IsCall book.now call }
{
    put_number(out, u64::from(call.caller))?;
    put_spaced(out, call.number)?;
    out.push(b' ')?;
    words.put_op(out, book.op(call))?;
    if call.number < book.answers(call.caller) {
        let record = book.record(call);
        out.push(b' ')?;
        put_reply(out, record.reply)?;
        out.extend_from_slice(b" view")?;
        words.put_view(out, &record.view)?;
    }
    out.push(b'\n')?;
    Ok(())
}

impl Words {
    // Appends the words of an operation. In a set book an operation that is no join is written as a
    // counter writes an unknown one: the one operation word that a counter knows is a join's.
    fn put_op(self, out: &mut Vec<u8>, op: OpWord) -> Result<(), NoMemory> {
        match self {
            Words::First(kind) => kind.put_op(out, op),
            Words::Joins if Joins::knows(op) => {
                out.extend_from_slice(b"join ")?;
                put_number(out, low(op) & 31)
            }
            Words::Joins => Kind::Counter.put_op(out, op),
        }
    }

    fn put_view(self, out: &mut Vec<u8>, view: &Cut) -> Result<(), NoMemory> {
        match self {
            Words::First(_) => put_counts(out, view),
            Words::Joins => put_pairs(out, view),
        }
    }
}
