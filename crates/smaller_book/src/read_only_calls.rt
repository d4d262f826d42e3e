//! Read-only calls, taken out of a book while it has no legal order: one, or as many as can be.
ghost use Rattle.std.specs.Prelude.{◌<◌, length, IfOk, IfSome, IfNone};
ghost use Rattle.book_base.specs.declared.call.Call.{Call};
ghost use Rattle.book_base.specs.Book.{IsCall};
ghost use Rattle.seq_objects.specs.Objects.{kind_next};
ghost use Rattle.smaller_book.specs.Numbers.{numbers_in};
ghost use Rattle.smaller_book.specs.ReadOnly.{IsReadOnly};
ghost use Rattle.smaller_book.specs.Minimal.{IsNeeded, IsSmaller};

use crate::composing::smaller_still;
use crate::read_only::is_read_only;
use crate::removal::{Smaller, without, without_one};
use book_base::{Book, Call, NoMemory};
use seq_objects::Kind;
use std::alloc::Global;

/// The book without one read-only call, where that smaller book has no legal order. No book is
/// answered where leaving out any one such call gives a book with a legal order.
pub fn without_read_only(
    alloc: Global,
    kind: Kind,
    book: &Book,
) -> Result<Option<Smaller>, NoMemory>
    ensures smaller { IfOk result (λ found. IfSome found (λ smaller.
        IsSmaller kind book.now (numbers_in smaller.numbers.items) smaller.book)) }
    ensures none { IfOk result (λ found. IfNone found ((call : Call)
        → IsReadOnly (kind_next kind) book.now call → IsNeeded kind book.now call)) }
{
    match without_one(alloc, kind, book, 0)? {
        None => Ok(None),
        Some((smaller, _caller)) => Ok(Some(smaller)),
    }
}

/// The book without read-only calls, which are tried one after another: a call is left out if the
/// book has no legal order then. Each is tried once, since a call without which the book has a
/// legal order can't be left out of a part of it either. No book is answered where no call is left
/// out.
pub fn without_singles(alloc: Global, kind: Kind, book: &Book) -> Result<Option<Smaller>, NoMemory>
    ensures { IfOk result (λ found. IfSome found (λ smaller.
        IsSmaller kind book.now (numbers_in smaller.numbers.items) smaller.book)) }
{
    let mut found = None;
    for caller in 0..book.callers() {
        found = without_singles_of(alloc, kind, book, found, caller)?;
    }
    Ok(found)
}

// The smaller book found before, or else the book, without further read-only calls of this
// caller that can be left out. The last call is tried first, so that the numbers of those that are still
// to be tried stay as they are.
fn without_singles_of(
    alloc: Global,
    kind: Kind,
    book: &Book,
    found: Option<Smaller>,
    caller: u32,
) -> Result<Option<Smaller>, NoMemory>
    requires caller { caller < length book.now }
    requires found { IfSome found (λ smaller.
        IsSmaller kind book.now (numbers_in smaller.numbers.items) smaller.book) }
    ensures { IfOk result (λ found. IfSome found (λ smaller.
        IsSmaller kind book.now (numbers_in smaller.numbers.items) smaller.book)) }
{
    let mut fewest = found;
    let count = book.calls(caller);
    for tried in 0..count {
        let call = Call {
            caller,
            number: count - 1 - tried,
        };
        fewest = without_single_too(alloc, kind, book, fewest, call)?;
    }
    Ok(fewest)
}

// The smaller book found before, or else the book, without this call, where the call is read-only and it
// has no legal order without the call; else what was found before.
fn without_single_too(
    alloc: Global,
    kind: Kind,
    book: &Book,
    found: Option<Smaller>,
    call: Call,
) -> Result<Option<Smaller>, NoMemory>
    requires { IfSome found (λ smaller.
        IsSmaller kind book.now (numbers_in smaller.numbers.items) smaller.book) }
    ensures { IfOk result (λ found. IfSome found (λ smaller.
        IsSmaller kind book.now (numbers_in smaller.numbers.items) smaller.book)) }
{
    match found {
        None => without_single(alloc, kind, book, call),
        Some(smaller) => match without_single(alloc, kind, &smaller.book, call)? {
            None => Ok(Some(smaller)),
            Some(next) => Ok(Some(smaller_still(alloc, kind, book, smaller, next)?)),
        },
    }
}

// The book without this call, where the call is read-only and the book has no legal order without
// it.
fn without_single(
    alloc: Global,
    kind: Kind,
    book: &Book,
    call: Call,
) -> Result<Option<Smaller>, NoMemory>
    ensures { IfOk result (λ found. IfSome found (λ smaller.
        IsSmaller kind book.now (numbers_in smaller.numbers.items) smaller.book)) }
{
    if call.caller >= book.callers() || call.number >= book.calls(call.caller) {
        return Ok(None);
    }
    if is_read_only(kind, book, call) {
        without(alloc, kind, book, call)
    } else {
        Ok(None)
    }
}
