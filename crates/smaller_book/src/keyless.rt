//! Calls of one key or of several, taken out of a book together.
ghost use Rattle.std.specs.Prelude.{◌≡◌, ℕ, ◌<◌, All, length, Some, IfOk, IfSome, IfNone};
ghost use Rattle.book_base.specs.declared.call.Call.{Call};
ghost use Rattle.book_base.specs.Book.{calls_of, IsCall};
ghost use Rattle.smaller_book.specs.Part.{IsPart, KeepsAnswers};
ghost use Rattle.smaller_book.specs.Numbers.{numbers_in};
ghost use Rattle.smaller_book.specs.Keys.{key_of_call, is_among, keys_from_to, row_without, all_without, KeysMayGo};
ghost use Rattle.smaller_book.specs.Evidence.{IsEvidence};
ghost use Rattle.smaller_book.specs.Minimal.{IsKeyNeeded, IsSmaller};

use crate::composing::smaller_still;
use crate::judging::is_illegal;
use crate::keys::{key_of, keys_may_go, keys_of};
use crate::numbered::part;
use crate::removal::{Smaller, has_fewer, push_if};
use book_base::{Book, Call, NoMemory};
use seq_objects::Kind;
use std::alloc::Global;

/// The book without the calls of as many keys as can be left out, one chunk of neighbouring keys
/// tried after another: all keys, their halves, their quarters, down to single ones. No book is
/// answered where no chunk can be left out.
pub fn without_halves(alloc: Global, kind: Kind, book: &Book) -> Result<Option<Smaller>, NoMemory>
    ensures { IfOk result (λ found. IfSome found (λ smaller.
        IsSmaller kind book.now (numbers_in smaller.numbers.items) smaller.book)) }
{
    let keys = keys_of(alloc, kind, book)?;
    let mut found = None;
    let mut size = keys.len();
    while size > 0 {
        found = without_chunks(alloc, kind, book, found, &keys, size)?;
        size /= 2;
    }
    Ok(found)
}

// The smaller book found before, or else the book, without the calls of those further keys that can
// be left out: chunks of this many neighbouring keys are tried one after another.
fn without_chunks(
    alloc: Global,
    kind: Kind,
    book: &Book,
    found: Option<Smaller>,
    keys: &[u64],
    size: usize,
) -> Result<Option<Smaller>, NoMemory>
    requires size { 0 < size }
    requires found { IfSome found (λ smaller.
        IsSmaller kind book.now (numbers_in smaller.numbers.items) smaller.book) }
    ensures { IfOk result (λ found. IfSome found (λ smaller.
        IsSmaller kind book.now (numbers_in smaller.numbers.items) smaller.book)) }
{
    let mut fewest = found;
    for chunk in keys.chunks(size) {
        if let (Some(first), Some(last)) = (chunk.first(), chunk.last()) {
            fewest = without_chunk(alloc, kind, book, fewest, *first, *last)?;
        }
    }
    Ok(fewest)
}

// The smaller book found before, or else the book, without the calls of the keys from a first one
// to a last one, where it has no legal order without them; else what was found before.
fn without_chunk(
    alloc: Global,
    kind: Kind,
    book: &Book,
    found: Option<Smaller>,
    first: u64,
    last: u64,
) -> Result<Option<Smaller>, NoMemory>
    requires found { IfSome found (λ smaller.
        IsSmaller kind book.now (numbers_in smaller.numbers.items) smaller.book) }
    ensures { IfOk result (λ found. IfSome found (λ smaller.
        IsSmaller kind book.now (numbers_in smaller.numbers.items) smaller.book)) }
{
    match found {
        None => without_some(alloc, kind, book, first, last),
        Some(smaller) => match without_some(alloc, kind, &smaller.book, first, last)? {
            None => Ok(Some(smaller)),
            Some(next) => Ok(Some(smaller_still(alloc, kind, book, smaller, next)?)),
        },
    }
}

// The book without the calls of the keys from `first` to `last`. No book is answered where it has
// no such calls, where it has a legal order without them, or where calls of keys may not be left
// out of it.
fn without_some(
    alloc: Global,
    kind: Kind,
    book: &Book,
    first: u64,
    last: u64,
) -> Result<Option<Smaller>, NoMemory>
    ensures { IfOk result (λ found. IfSome found (λ smaller.
        IsSmaller kind book.now (numbers_in smaller.numbers.items) smaller.book)) }
{
    if !keys_may_go(kind, book) {
        return Ok(None);
    }
    let smaller = part_without(alloc, kind, book, first, last)?;
    if !has_fewer(&smaller.book, book) {
        return Ok(None);
    }
    if is_illegal(alloc, kind, &smaller.book)? {
        Ok(Some(smaller))
    } else {
        Ok(None)
    }
}

/// The book without all calls of one key, the first key whose removal leaves a book without a legal
/// order. No book is answered where there is no such key, or where calls of keys may not be left
/// out of the book.
pub fn without_one_key(alloc: Global, kind: Kind, book: &Book) -> Result<Option<Smaller>, NoMemory>
    ensures smaller { IfOk result (λ found. IfSome found (λ smaller.
        IsSmaller kind book.now (numbers_in smaller.numbers.items) smaller.book)) }
    ensures none { IfOk result
        (λ found. IfNone found (KeysMayGo kind book.now → (call : Call) (key : ℕ)
        → IsCall book.now call → key_of_call kind book.now call ≡ Some key
        → IsKeyNeeded kind book.now key)) }
{
    if !keys_may_go(kind, book) {
        return Ok(None);
    }
    let mut needed = Vec::new(alloc);
    for caller in 0..book.callers() {
        let found = without_key_of_caller(alloc, kind, book, caller, &mut needed)?;
        match found {
            Some(smaller) => return Ok(Some(smaller)),
            None => {}
        }
    }
    Ok(None)
}

// The book without the calls of a key that some call of this caller is about, where it has no legal
// order without them. Keys that are known to be needed aren't tried again. Where no book is found,
// all keys of the caller's calls are known to be needed.
fn without_key_of_caller(
    alloc: Global,
    kind: Kind,
    book: &Book,
    caller: u32,
    needed: &mut Vec<u64>,
) -> Result<Option<Smaller>, NoMemory>
    requires may { KeysMayGo kind book.now }
    requires caller { caller < length book.now }
    requires needed { All (IsKeyNeeded kind book.now) needed.old.items }
    ensures needed { IfOk result (λ found. IfNone found
        (All (IsKeyNeeded kind book.now) needed.new.items)) }
    ensures smaller { IfOk result (λ found. IfSome found (λ smaller.
        IsSmaller kind book.now (numbers_in smaller.numbers.items) smaller.book)) }
    ensures none { IfOk result
        (λ found. IfNone found ((number key : ℕ) → number < calls_of book.now caller
        → key_of_call kind book.now (record { caller = caller; number = number }) ≡ Some key
        → IsKeyNeeded kind book.now key)) }
{
    for number in 0..book.calls(caller) {
        let found = without_key_of(alloc, kind, book, Call { caller, number }, needed)?;
        match found {
            Some(smaller) => return Ok(Some(smaller)),
            None => {}
        }
    }
    Ok(None)
}

// The book without the calls of this call's key, where it has no legal order without them. A key
// that is known to be needed isn't tried again.
fn without_key_of(
    alloc: Global,
    kind: Kind,
    book: &Book,
    call: Call,
    needed: &mut Vec<u64>,
) -> Result<Option<Smaller>, NoMemory>
    requires may { KeysMayGo kind book.now }
    requires call { IsCall book.now call }
    requires needed { All (IsKeyNeeded kind book.now) needed.old.items }
    ensures needed { IfOk result (λ found. IfNone found
        (All (IsKeyNeeded kind book.now) needed.new.items)) }
    ensures smaller { IfOk result (λ found. IfSome found (λ smaller.
        IsSmaller kind book.now (numbers_in smaller.numbers.items) smaller.book)) }
    ensures none { IfOk result (λ found. IfNone found ((key : ℕ)
        → key_of_call kind book.now call ≡ Some key → IsKeyNeeded kind book.now key)) }
{
    match key_of(kind, book, call) {
        None => Ok(None),
        Some(key) => without_new_key(alloc, kind, book, call, key, needed),
    }
}

// The book without the calls of this key, where the key isn't known to be needed and the book has
// no legal order without them. Where the book has one, the key is known to be needed from then on.
fn without_new_key(
    alloc: Global,
    kind: Kind,
    book: &Book,
    call: Call,
    key: u64,
    needed: &mut Vec<u64>,
) -> Result<Option<Smaller>, NoMemory>
    requires may { KeysMayGo kind book.now }
    requires call { IsCall book.now call }
    requires key { key_of_call kind book.now call ≡ Some key }
    requires needed { All (IsKeyNeeded kind book.now) needed.old.items }
    ensures needed { IfOk result (λ found. IfNone found
        (All (IsKeyNeeded kind book.now) needed.new.items)) }
    ensures smaller { IfOk result (λ found. IfSome found (λ smaller.
        IsSmaller kind book.now (numbers_in smaller.numbers.items) smaller.book)) }
    ensures none { IfOk result (λ found. IfNone found (IsKeyNeeded kind book.now key)) }
{
    if needed.contains(&key) {
        return Ok(None);
    }
    match without_key(alloc, kind, book, call, key)? {
        Some(smaller) => Ok(Some(smaller)),
        None => {
            needed.push(key)?;
            Ok(None)
        }
    }
}

// The book without the calls of this key, which this call is about, where it has no legal order
// without them.
fn without_key(
    alloc: Global,
    kind: Kind,
    book: &Book,
    call: Call,
    key: u64,
) -> Result<Option<Smaller>, NoMemory>
    requires may { KeysMayGo kind book.now }
    requires call { IsCall book.now call }
    requires key { key_of_call kind book.now call ≡ Some key }
    ensures smaller { IfOk result (λ found. IfSome found (λ smaller.
        IsSmaller kind book.now (numbers_in smaller.numbers.items) smaller.book)) }
    ensures none { IfOk result (λ found. IfNone found (IsKeyNeeded kind book.now key)) }
{
    let _call = call;
    let _callers = book.callers();
    let smaller = part_without(alloc, kind, book, key, key)?;
    if is_illegal(alloc, kind, &smaller.book)? {
        Ok(Some(smaller))
    } else {
        Ok(None)
    }
}

// The part of a book without the calls that are about the keys from a first one to a last one.
fn part_without(
    alloc: Global,
    kind: Kind,
    book: &Book,
    first: u64,
    last: u64,
) -> Result<Smaller, NoMemory>
    ensures part { IfOk result (λ smaller.
        IsPart book.now (all_without kind (keys_from_to first last) book.now) smaller.book) }
    ensures answers { IfOk result (λ smaller.
        KeepsAnswers book.now (all_without kind (keys_from_to first last) book.now) smaller.book) }
    ensures numbers { IfOk result (λ smaller.
        numbers_in smaller.numbers.items ≡ all_without kind (keys_from_to first last) book.now) }
    ensures evidence { IfOk result (λ smaller. KeysMayGo kind book.now
        → IsEvidence kind book.now (numbers_in smaller.numbers.items) smaller.book) }
{
    let _callers = book.callers();
    let numbers = numbers_without(alloc, kind, book, first, last)?;
    let smaller = part(alloc, book, &numbers)?;
    let _of_part = smaller.callers();
    Ok(Smaller {
        book: smaller,
        numbers,
    })
}

// For each caller the numbers of its calls that are about none of the keys from `first` to `last`.
fn numbers_without(
    alloc: Global,
    kind: Kind,
    book: &Book,
    first: u64,
    last: u64,
) -> Result<Vec<Vec<u64>>, NoMemory>
    ensures { IfOk result (λ rows.
        numbers_in rows.items ≡ all_without kind (keys_from_to first last) book.now) }
{
    let mut rows = Vec::new(alloc);
    for caller in 0..book.callers() {
        rows.push(numbers_of_caller(alloc, kind, book, caller, first, last)?)?;
    }
    Ok(rows)
}

// The numbers of a caller's calls that are about none of the keys from a first one to a last one.
fn numbers_of_caller(
    alloc: Global,
    kind: Kind,
    book: &Book,
    caller: u32,
    first: u64,
    last: u64,
) -> Result<Vec<u64>, NoMemory>
    requires { caller < length book.now }
    ensures { IfOk result (λ numbers.
        numbers.items ≡ row_without kind (keys_from_to first last) book.now caller) }
{
    let mut numbers = Vec::new(alloc);
    for number in 0..book.calls(caller) {
        let key = key_of(kind, book, Call { caller, number });
        let out = is_from_to(first, last, key);
        push_if(&mut numbers, !out, number)?;
    }
    Ok(numbers)
}

// Whether there is a key, and it is at least `first` and at most `last`.
fn is_from_to(first: u64, last: u64, key: Option<u64>) -> bool
    ensures { result ≡ is_among (keys_from_to first last) key }
{
    match key {
        Some(key) => first <= key && key <= last,
        None => false,
    }
}
