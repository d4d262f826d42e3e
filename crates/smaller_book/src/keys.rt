//! The keys that calls are about.
ghost use Rattle.std.specs.Prelude.{◌≡◌, ◌<◌, ◌==◌, true, false, length, Some, option_map, if◌then◌else◌, IsTrue};
ghost use Rattle.book_base.specs.Book.{IsCall, record_of};
ghost use Rattle.seq_objects.specs.Words.{code_of, argument_of, is_known_word};
ghost use Rattle.smaller_book.specs.Keys.{value_shown, key_by_kind, key_of_step, key_of_call, KeysMayGo};

use book_base::{Book, Call, NoMemory, OpWord, SeqObject, low};
use search_hints::has_one_open;
use seq_objects::Kind;
use std::alloc::Global;

/// How many values there are: a value is below this number.
const VALUES: u64 = 1 << 32;

/// What a reply word that shows a value has above its low 32 bits.
const VALUE_TAG: u64 = 2;

/// The code of the operation that puts a value in.
const PUT: u64 = 1;

/// The key that a call is about, where it is about one: of a queue, a stack or a priority queue the
/// value that the call puts in or shows, of a register the value that it writes or shows, of a set
/// or a map the argument.
pub fn key_of(kind: Kind, book: &Book, call: Call) -> Option<u64>
    // The call is one of the book.
    requires { IsCall book.now call }
    ensures { result ≡ key_of_call kind book.now call }
{
    let _callers = book.callers();
    let op = book.op(call);
    let reply = reply_of(book, call);
    key_of_step(kind, op, reply)
}

/// Whether all calls of a key may be left out of a book.
pub fn keys_may_go(kind: Kind, book: &Book) -> bool
    // The answer is `true` only where they may be left out.
    ensures may { IsTrue result → KeysMayGo kind book.now }
    // The answer is `false` only where the rule of keys doesn't serve the book.
    ensures stay { result ≡ false → ¬ KeysMayGo kind book.now }
{
    match kind {
        Kind::Queue => has_one_open(book),
        Kind::Stack => has_one_open(book),
        Kind::Pqueue => has_one_open(book),
        Kind::IntSet => true,
        Kind::Map => true,
        Kind::Register => true,
        Kind::Counter => true,
        Kind::CasRegister => true,
    }
}

/// The reply to a call, where it is answered.
pub fn reply_of(book: &Book, call: Call) -> Option<u64>
    requires { IsCall book.now call }
    ensures { result ≡ option_map (λ r. r.reply) (record_of book.now call) }
{
    let _callers = book.callers();
    if call.number < book.answers(call.caller) {
        let record = book.record(call);
        Some(record.reply)
    } else {
        None
    }
}

/// The keys that calls of a book are about, each once, from the least one up.
pub fn keys_of(alloc: Global, kind: Kind, book: &Book) -> Result<Vec<u64>, NoMemory> {
    let mut keys = Vec::new(alloc);
    for caller in 0..book.callers() {
        push_keys(kind, book, caller, &mut keys)?;
    }
    keys.sort_unstable();
    keys.dedup();
    Ok(keys)
}

// Appends the keys that a caller's calls are about.
fn push_keys(kind: Kind, book: &Book, caller: u32, keys: &mut Vec<u64>) -> Result<(), NoMemory>
    requires { caller < length book.now }
{
    for number in 0..book.calls(caller) {
        if let Some(key) = key_of(kind, book, Call { caller, number }) {
            keys.push(key)?;
        }
    }
    Ok(())
}

// The key that an operation is about, with its reply where it has one; an operation that the kind
// doesn't know is about none.
fn key_of_step(kind: Kind, op: OpWord, reply: Option<u64>) -> Option<u64>
    ensures { result ≡ key_of_step kind op reply }
{
    if kind.known(op) {
        key_by_kind(kind, op, reply)
    } else {
        None
    }
}

// The key that an operation which the kind knows is about, with its reply where it has one.
fn key_by_kind(kind: Kind, op: OpWord, reply: Option<u64>) -> Option<u64>
    requires { is_known_word kind op ≡ true }
    ensures { result ≡ key_by_kind kind op reply }
{
    match kind {
        Kind::Queue => value_moved(op, reply),
        Kind::Stack => value_moved(op, reply),
        Kind::Pqueue => value_moved(op, reply),
        Kind::IntSet => Some(argument(op)),
        Kind::Map => Some(argument(op)),
        Kind::Register => value_moved(op, reply),
        Kind::Counter => None,
        Kind::CasRegister => None,
    }
}

// The value that an operation of code 1 puts in or writes, or that the reply to another operation
// shows, where there is one.
fn value_moved(op: OpWord, reply: Option<u64>) -> Option<u64>
    ensures { result ≡ (if code_of op == 1 then Some (argument_of op) else value_shown reply) }
{
    if low(op) / VALUES == PUT {
        Some(argument(op))
    } else {
        value_shown(reply)
    }
}

// The argument of an operation.
fn argument(op: OpWord) -> u64
    ensures { result ≡ argument_of op }
{
    low(op) % VALUES
}

// The value that a reply shows, where there is a reply and it shows a value.
fn value_shown(reply: Option<u64>) -> Option<u64>
    ensures { result ≡ value_shown reply }
{
    let reply = reply?;
    if reply / VALUES == VALUE_TAG {
        Some(reply % VALUES)
    } else {
        None
    }
}
