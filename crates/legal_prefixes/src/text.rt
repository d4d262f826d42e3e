//! The text of the longest legal prefixes.

ghost use Rattle.std.specs.Prelude.{◌≡◌, ℕ, ◌++◌, flat_map, slice_get, Some, IfOk, OnOk};
ghost use Rattle.book_base.specs.declared.call.Place.{Place};
ghost use Rattle.book_base.specs.Book.{IsCall};
ghost use Rattle.legal_prefixes.specs.declared.blocked.Blocked.{Blocked};
ghost use Rattle.book_base.specs.Order.{call_at};
ghost use Rattle.legal_prefixes.specs.Longest.{AreLongest, IsLongest, AreAllBlocked};
ghost use Rattle.legal_prefixes.specs.Texts.{calls_text, start_text, call_text, place_line, blocked_line, item_text, held_text, prefix_text, head_text, more_text, TellsPrefixes};

use crate::blocked::{Blocked, blocked_after};
use crate::prefix::LegalPrefix;
use book_base::{Book, Call, NoMemory, Place};
use seq_objects::{Kind, put_number, put_reply};
use std::alloc::Global;

/// The most prefixes that are told.
const MOST_TOLD: usize = 8;

/// How many values there are: a map's item is its key times this number, plus its value.
const VALUES: u64 = 1 << 32;

/// The text of the longest legal prefixes of a book, and of the calls that may come next after each.
///
/// At most eight of them are told, and how many there are beyond these.
pub fn prefixes_text(
    alloc: Global,
    kind: Kind,
    book: &Book,
    prefixes: &[LegalPrefix],
) -> Result<Vec<u8>, NoMemory>
    // The book has no legal order, and the prefixes are its longest legal ones.
    requires { AreLongest kind book.now prefixes.now }
    // The answer tells the first eight prefixes, or all where there are no more, each with all calls
    // that may come next after it; and it says how many more there are.
    ensures { IfOk result (λ text. TellsPrefixes kind book.now prefixes.now text.items) }
{
    let mut out = Vec::new(alloc);
    for index in 0..prefixes.len().min(MOST_TOLD) {
        let prefix = &prefixes[index];
        let all = blocked_after(alloc, kind, book, prefix)?;
        put_head(&mut out, index, prefix)?;
        put_prefix(&mut out, kind, book, prefix, &all)?;
    }
    put_more(&mut out, prefixes.len().saturating_sub(MOST_TOLD) as u64)?;
    Ok(out)
}

// Appends the line before a prefix.
fn put_head(out: &mut Vec<u8>, index: usize, prefix: &LegalPrefix) -> Result<(), NoMemory>
    ensures { OnOk result (out.new.items ≡ out.old.items ++ head_text index prefix.now) }
{
    if index == 0 {
        put_start(out, prefix.places.len() as u64)
    } else {
        out.extend_from_slice(b"another longest legal prefix:\n")?;
        Ok(())
    }
}

// Appends the line that says how many prefixes aren't told, where there are any.
fn put_more(out: &mut Vec<u8>, more: u64) -> Result<(), NoMemory>
    ensures { OnOk result (out.new.items ≡ out.old.items ++ more_text more) }
{
    if more == 0 {
        Ok(())
    } else {
        out.extend_from_slice(b"longest legal prefixes that aren't told here: ")?;
        put_number(out, more)?;
        out.extend_from_slice(b"\n")?;
        Ok(())
    }
}

// Appends the lines of a longest legal prefix, and of the calls that may come next after it.
fn put_prefix(
    out: &mut Vec<u8>,
    kind: Kind,
    book: &Book,
    prefix: &LegalPrefix,
    all: &[Blocked],
) -> Result<(), NoMemory>
    requires longest { IsLongest kind book.now prefix.now }
    requires all { AreAllBlocked kind book.now prefix.now.cut prefix.now.words.items all.now }
    ensures { OnOk result
        (out.new.items ≡ out.old.items ++ prefix_text kind book.now prefix.now all.now) }
{
    put_places(out, kind, book, &prefix.places)?;
    out.extend_from_slice(b"then the object holds")?;
    put_held(out, kind, &prefix.words)?;
    out.extend_from_slice(b"\n")?;
    put_all_blocked(out, kind, book, all)?;
    Ok(())
}

// Appends the line that says how many places the prefix has.
fn put_start(out: &mut Vec<u8>, places: u64) -> Result<(), NoMemory>
    ensures { OnOk result (out.new.items ≡ out.old.items ++ start_text places) }
{
    out.extend_from_slice(b"no rule of these is broken; a longest legal prefix has ")?;
    put_number(out, places)?;
    out.extend_from_slice(after_count(places))?;
    Ok(())
}

// What stands after a number of calls.
fn after_count(calls: u64) -> &'static [u8]
    ensures { result.now ≡ calls_text calls }
{
    if calls == 1 {
        b" call:\n"
    } else {
        b" calls:\n"
    }
}

// Appends the lines of some places.
fn put_places(out: &mut Vec<u8>, kind: Kind, book: &Book, places: &[Place]) -> Result<(), NoMemory>
    requires { (k : ℕ) (place : Place) → slice_get places.now k ≡ Some place
        → IsCall book.now (call_at place) }
    ensures { OnOk result
        (out.new.items ≡ out.old.items ++ flat_map (place_line kind book.now) places.now) }
{
    for place in places {
        put_place(out, kind, book, *place)?;
    }
    Ok(())
}

// Appends the line of a place.
fn put_place(out: &mut Vec<u8>, kind: Kind, book: &Book, place: Place) -> Result<(), NoMemory>
    requires { IsCall book.now (call_at place) }
    ensures { OnOk result (out.new.items ≡ out.old.items ++ place_line kind book.now place) }
{
    let Place {
        caller,
        number,
        reply,
    } = place;
    put_call(out, kind, book, Call { caller, number })?;
    out.extend_from_slice(b" replies ")?;
    put_reply(out, reply)?;
    out.extend_from_slice(b"\n")?;
    Ok(())
}

// Appends the lines of some blocked calls.
fn put_all_blocked(
    out: &mut Vec<u8>,
    kind: Kind,
    book: &Book,
    all: &[Blocked],
) -> Result<(), NoMemory>
    requires { (k : ℕ) (blocked : Blocked) → slice_get all.now k ≡ Some blocked
        → IsCall book.now blocked.call }
    ensures { OnOk result
        (out.new.items ≡ out.old.items ++ flat_map (blocked_line kind book.now) all.now) }
{
    for blocked in all {
        put_blocked(out, kind, book, *blocked)?;
    }
    Ok(())
}

// Appends the line of a blocked call.
fn put_blocked(out: &mut Vec<u8>, kind: Kind, book: &Book, blocked: Blocked) -> Result<(), NoMemory>
    requires { IsCall book.now blocked.call }
    ensures { OnOk result (out.new.items ≡ out.old.items ++ blocked_line kind book.now blocked) }
{
    put_call(out, kind, book, blocked.call)?;
    out.extend_from_slice(b" replied ")?;
    put_reply(out, blocked.recorded)?;
    out.extend_from_slice(b", but here the object replies ")?;
    put_reply(out, blocked.given)?;
    out.extend_from_slice(b"\n")?;
    Ok(())
}

// Appends a call by its caller and its number, and its operation.
fn put_call(out: &mut Vec<u8>, kind: Kind, book: &Book, call: Call) -> Result<(), NoMemory>
    requires { IsCall book.now call }
    ensures { OnOk result (out.new.items ≡ out.old.items ++ call_text kind book.now call) }
{
    let op = book.op(call);
    out.extend_from_slice(b"call ")?;
    put_number(out, u64::from(call.caller))?;
    out.extend_from_slice(b" ")?;
    put_number(out, call.number)?;
    out.extend_from_slice(b" ")?;
    kind.put_op(out, op)?;
    Ok(())
}

// Appends the items of an object's list, with a space before each, or that there are none.
fn put_held(out: &mut Vec<u8>, kind: Kind, items: &[u64]) -> Result<(), NoMemory>
    ensures { OnOk result (out.new.items ≡ out.old.items ++ held_text kind items.now) }
{
    if items.is_empty() {
        out.extend_from_slice(b" nothing")?;
        Ok(())
    } else {
        put_items(out, kind, items)
    }
}

// Appends the items of an object's list, with a space before each.
fn put_items(out: &mut Vec<u8>, kind: Kind, items: &[u64]) -> Result<(), NoMemory>
    ensures { OnOk result
        (out.new.items ≡ out.old.items ++ flat_map (item_text kind) items.now) }
{
    for item in items {
        put_item(out, kind, *item)?;
    }
    Ok(())
}

// Appends an item of an object's list, with a space before it.
fn put_item(out: &mut Vec<u8>, kind: Kind, item: u64) -> Result<(), NoMemory>
    ensures { OnOk result (out.new.items ≡ out.old.items ++ item_text kind item) }
{
    match kind {
        Kind::Map => {
            out.extend_from_slice(b" ")?;
            put_number(out, item / VALUES)?;
            out.extend_from_slice(b"=")?;
            put_number(out, item % VALUES)?;
            Ok(())
        }
        Kind::Queue
        | Kind::Stack
        | Kind::Pqueue
        | Kind::IntSet
        | Kind::Register
        | Kind::Counter
        | Kind::CasRegister => {
            out.extend_from_slice(b" ")?;
            put_number(out, item)?;
            Ok(())
        }
    }
}
