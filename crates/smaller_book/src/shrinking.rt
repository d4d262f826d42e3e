//! From a book without a legal order a minimal part without one.
ghost use Rattle.std.specs.Prelude.{◌≡◌, ◌<◌, ℕ, Some, IfOk, IfSome, IfNone};
ghost use Rattle.book_base.specs.declared.call.Call.{Call};
ghost use Rattle.book_base.specs.Book.{IsCall};
ghost use Rattle.book_base.specs.Order.{HasLegalOrder};
ghost use Rattle.seq_objects.specs.Objects.{kind_next, kind_spec};
ghost use Rattle.smaller_book.specs.Part.{size_of};
ghost use Rattle.smaller_book.specs.Numbers.{numbers_in};
ghost use Rattle.smaller_book.specs.ReadOnly.{IsReadOnly};
ghost use Rattle.smaller_book.specs.Keys.{key_of_call, KeysMayGo};
ghost use Rattle.smaller_book.specs.Evidence.{IsEvidence};
ghost use Rattle.smaller_book.specs.Minimal.{IsNeeded, IsKeyNeeded, IsMinimal, IsSmaller, IsShrunk};

use crate::composing::{numbers_of_all, numbers_through, smaller_still};
use crate::cuts::earliest;
use crate::groups::without_unseen;
use crate::judging::is_illegal;
use crate::keyless::without_one_key;
use crate::read_only_calls::without_read_only;
use crate::removal::Smaller;
use crate::thinning::thinned;
use book_base::{Book, NoMemory};
use seq_objects::Kind;
use std::alloc::Global;

/// A part of a book that has no legal order: the part has none either, and is minimal. No part is
/// answered where the book has a legal order.
///
/// The rules are three: the book at an earlier cut, the book without calls that may go, and the
/// book without all calls of one key. Read-only calls may go, answered or not, and calls that set
/// the value of a register, with or without compare-and-set, or the item of a set or a map where all
/// calls are about one key, where no call that stays can tell: with a call that stays, those stay
/// that it may see. A key is a value of a queue, a stack, a priority queue or a register, or the
/// argument of an operation of a set or a map. Calls of a queue, a stack or a priority queue go by keys only where each view
/// holds at most one unanswered call of each caller. Where more than `FEW_CALLS` calls are left,
/// and each view holds at most one unanswered call of each caller, only such earlier cuts are tried
/// at which each view of the book still holds at most one. The calls are numbered anew with new
/// views, and the numbers that they had come with the book.
pub fn shrink(alloc: Global, kind: Kind, book: &Book) -> Result<Option<Smaller>, NoMemory>
    // Where no book is answered, the book has a legal order.
    ensures none { IfOk result (λ found. IfNone found (HasLegalOrder (kind_spec kind) book.now)) }
    // The smaller book is evidence of the book, and has its calls with the answered numbers: steps
    // lead to it from the book, each back to an earlier cut, to a book without some read-only and
    // unseen calls, or to one without all calls of some keys.
    ensures evidence { IfOk result (λ found. IfSome found (λ smaller.
        IsEvidence kind book.now (numbers_in smaller.numbers.items) smaller.book)) }
    // The smaller book has no legal order.
    ensures illegal { IfOk result
        (λ found. IfSome found (λ smaller. ¬ HasLegalOrder (kind_spec kind) smaller.book)) }
    // The smaller book has a legal order at each earlier cut at which it is tried, without any one
    // read-only call, and without all calls of any one key.
    ensures minimal { IfOk result (λ found. IfSome found (λ smaller.
        IsMinimal kind smaller.book)) }
{
    if !is_illegal(alloc, kind, book)? {
        return Ok(None);
    }
    let mut smaller = begun(alloc, kind, book)?;
    'shrinking: loop {
        let found = next_smaller(alloc, kind, &smaller.book)?;
        match found {
            None => return Ok(Some(smaller)),
            Some(next) => {
                let numbers = numbers_through(alloc, &smaller.numbers, &next.numbers)?;
                smaller = Smaller {
                    book: next.book,
                    numbers,
                };
            }
        }
    }
}

// The book without many of the calls that can be left out, and then at an earliest cut at which it
// has no legal order. Many calls are left out before single records are: each record that goes
// leaves an unanswered call, and a search has more to try.
fn begun(alloc: Global, kind: Kind, book: &Book) -> Result<Smaller, NoMemory>
    requires { ¬ HasLegalOrder (kind_spec kind) book.now }
    ensures { IfOk result (λ smaller. IsShrunk kind
        book.now (numbers_in smaller.numbers.items) smaller.book) }
{
    match thinned(alloc, kind, book)? {
        Some(without) => at_earliest_after(alloc, kind, book, without),
        None => at_earliest(alloc, kind, book),
    }
}

// The book at an earliest cut at which it has no legal order, with the numbers of its calls.
fn at_earliest(alloc: Global, kind: Kind, book: &Book) -> Result<Smaller, NoMemory>
    requires { ¬ HasLegalOrder (kind_spec kind) book.now }
    ensures { IfOk result (λ smaller. IsShrunk kind
        book.now (numbers_in smaller.numbers.items) smaller.book) }
{
    let _callers = book.callers();
    let part = earliest(alloc, kind, book)?;
    let numbers = numbers_of_all(alloc, &part)?;
    Ok(Smaller {
        book: part,
        numbers,
    })
}

// The book without calls that aren't needed, at an earliest cut at which it has no legal order. No
// book is answered where each read-only call and each key is needed.
fn next_smaller(alloc: Global, kind: Kind, book: &Book) -> Result<Option<Smaller>, NoMemory>
    ensures smaller { IfOk result (λ found. IfSome found (λ smaller.
        IsShrunk kind book.now (numbers_in smaller.numbers.items) smaller.book)) }
    ensures fewer { IfOk result (λ found. IfSome found (λ smaller.
        size_of smaller.book < size_of book.now)) }
    ensures read_only { IfOk result (λ found. IfNone found ((call : Call)
        → IsReadOnly (kind_next kind) book.now call → IsNeeded kind book.now call)) }
    ensures keys { IfOk result
        (λ found. IfNone found (KeysMayGo kind book.now → (call : Call) (key : ℕ)
        → IsCall book.now call → key_of_call kind book.now call ≡ Some key
        → IsKeyNeeded kind book.now key)) }
{
    match without_calls(alloc, kind, book)? {
        Some(without) => Ok(Some(settled(alloc, kind, book, without)?)),
        None => Ok(None),
    }
}

// The book without calls that no call which stays can tell, or else without the calls of a key that
// isn't needed, or else without a read-only call that isn't needed. No book is answered where each
// key and each read-only call is needed.
fn without_calls(alloc: Global, kind: Kind, book: &Book) -> Result<Option<Smaller>, NoMemory>
    ensures smaller { IfOk result (λ found. IfSome found (λ smaller.
        IsSmaller kind book.now (numbers_in smaller.numbers.items) smaller.book)) }
    ensures read_only { IfOk result (λ found. IfNone found ((call : Call)
        → IsReadOnly (kind_next kind) book.now call → IsNeeded kind book.now call)) }
    ensures keys { IfOk result
        (λ found. IfNone found (KeysMayGo kind book.now → (call : Call) (key : ℕ)
        → IsCall book.now call → key_of_call kind book.now call ≡ Some key
        → IsKeyNeeded kind book.now key)) }
{
    if let Some(smaller) = without_unseen(alloc, kind, book)? {
        return Ok(Some(smaller));
    }
    match without_one_key(alloc, kind, book)? {
        Some(smaller) => Ok(Some(smaller)),
        None => without_read_only(alloc, kind, book),
    }
}

// A smaller book without further calls that can be left out, at an earliest cut at which it has no
// legal order, with the numbers that its calls have in `book`.
fn settled(alloc: Global, kind: Kind, book: &Book, without: Smaller) -> Result<Smaller, NoMemory>
    requires { IsSmaller kind book.now (numbers_in without.numbers.items) without.book }
    ensures shrunk { IfOk result (λ smaller. IsShrunk kind
        book.now (numbers_in smaller.numbers.items) smaller.book) }
    ensures fewer { IfOk result (λ smaller. size_of smaller.book < size_of book.now) }
{
    match thinned(alloc, kind, &without.book)? {
        None => at_earliest_after(alloc, kind, book, without),
        Some(next) => {
            let thin = smaller_still(alloc, kind, book, without, next)?;
            at_earliest_after(alloc, kind, book, thin)
        }
    }
}

// A smaller book at an earliest cut at which it has no legal order, with the numbers that its calls
// have in `book`.
fn at_earliest_after(
    alloc: Global,
    kind: Kind,
    book: &Book,
    without: Smaller,
) -> Result<Smaller, NoMemory>
    requires { IsSmaller kind book.now (numbers_in without.numbers.items) without.book }
    ensures shrunk { IfOk result (λ smaller. IsShrunk kind
        book.now (numbers_in smaller.numbers.items) smaller.book) }
    ensures fewer { IfOk result (λ smaller. size_of smaller.book < size_of book.now) }
{
    let part = at_earliest(alloc, kind, &without.book)?;
    let numbers = numbers_through(alloc, &without.numbers, &part.numbers)?;
    Ok(Smaller {
        book: part.book,
        numbers,
    })
}
