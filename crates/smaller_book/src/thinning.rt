//! A book without many of the calls that it can lack and still have no legal order.
ghost use Rattle.std.specs.Prelude.{IfOk, IfSome};
ghost use Rattle.book_base.specs.Order.{HasLegalOrder};
ghost use Rattle.seq_objects.specs.Objects.{kind_spec};
ghost use Rattle.smaller_book.specs.Numbers.{numbers_in};
ghost use Rattle.smaller_book.specs.Minimal.{IsSmaller};

use crate::composing::smaller_still;
use crate::cuts::{without_later, without_open};
use crate::groups::without_unseen;
use crate::keyless::without_halves;
use crate::removal::Smaller;
use book_base::{Book, NoMemory};
use seq_objects::Kind;
use std::alloc::Global;

/// A smaller book without a legal order: the latest records go, and then the calls of keys, the
/// calls that no call which stays can tell, and further records. No book is answered where nothing
/// can be left out.
///
/// No answered call becomes unanswered while a view holds a later call of its caller: a search for
/// an order is short where each view holds at most one unanswered call of each caller.
pub fn thinned(alloc: Global, kind: Kind, book: &Book) -> Result<Option<Smaller>, NoMemory>
    requires { ¬ HasLegalOrder (kind_spec kind) book.now }
    ensures { IfOk result (λ found. IfSome found (λ smaller.
        IsSmaller kind book.now (numbers_in smaller.numbers.items) smaller.book)) }
{
    match without_unseen_first(alloc, kind, book)? {
        None => thinned_by_all(alloc, kind, book),
        Some(smaller) => match thinned_by_all(alloc, kind, &smaller.book)? {
            None => Ok(Some(smaller)),
            Some(next) => Ok(Some(smaller_still(alloc, kind, book, smaller, next)?)),
        },
    }
}

// The book of a register without the calls that no call which stays can tell. They go before any
// record does, since each record that goes leaves an unanswered call, and an unanswered
// compare-and-set may see each value.
fn without_unseen_first(alloc: Global, kind: Kind, book: &Book) -> Result<Option<Smaller>, NoMemory>
    ensures { IfOk result (λ found. IfSome found (λ smaller.
        IsSmaller kind book.now (numbers_in smaller.numbers.items) smaller.book)) }
{
    match kind {
        Kind::Register | Kind::CasRegister => without_unseen(alloc, kind, book),
        Kind::Queue | Kind::Stack | Kind::Pqueue => Ok(None),
        Kind::IntSet | Kind::Map | Kind::Counter => Ok(None),
    }
}

// The book without its latest records, and then without calls of keys, calls that no call which
// stays can tell, and further records.
fn thinned_by_all(alloc: Global, kind: Kind, book: &Book) -> Result<Option<Smaller>, NoMemory>
    requires { ¬ HasLegalOrder (kind_spec kind) book.now }
    ensures { IfOk result (λ found. IfSome found (λ smaller.
        IsSmaller kind book.now (numbers_in smaller.numbers.items) smaller.book)) }
{
    let early = without_later(alloc, kind, book)?;
    let keyless = without_halves_too(alloc, kind, book, early)?;
    let seen = without_unseen_too(alloc, kind, book, keyless)?;
    let open = without_open_too(alloc, kind, book, seen)?;
    without_halves_too(alloc, kind, book, open)
}

// The smaller book found before, or else the book, without the calls of keys that can be left out,
// chunk after chunk; where none can, what was found before.
fn without_halves_too(
    alloc: Global,
    kind: Kind,
    book: &Book,
    found: Option<Smaller>,
) -> Result<Option<Smaller>, NoMemory>
    requires { IfSome found (λ smaller.
        IsSmaller kind book.now (numbers_in smaller.numbers.items) smaller.book) }
    ensures { IfOk result (λ found. IfSome found (λ smaller.
        IsSmaller kind book.now (numbers_in smaller.numbers.items) smaller.book)) }
{
    match found {
        None => without_halves(alloc, kind, book),
        Some(smaller) => match without_halves(alloc, kind, &smaller.book)? {
            None => Ok(Some(smaller)),
            Some(next) => Ok(Some(smaller_still(alloc, kind, book, smaller, next)?)),
        },
    }
}

// The smaller book found before, or else the book, without the calls that no call which stays can
// tell; where all stay, what was found before.
fn without_unseen_too(
    alloc: Global,
    kind: Kind,
    book: &Book,
    found: Option<Smaller>,
) -> Result<Option<Smaller>, NoMemory>
    requires { IfSome found (λ smaller.
        IsSmaller kind book.now (numbers_in smaller.numbers.items) smaller.book) }
    ensures { IfOk result (λ found. IfSome found (λ smaller.
        IsSmaller kind book.now (numbers_in smaller.numbers.items) smaller.book)) }
{
    match found {
        None => without_unseen(alloc, kind, book),
        Some(smaller) => match without_unseen(alloc, kind, &smaller.book)? {
            None => Ok(Some(smaller)),
            Some(next) => Ok(Some(smaller_still(alloc, kind, book, smaller, next)?)),
        },
    }
}

// The smaller book found before, or else the book, without the records that can go while each view
// still holds at most one unanswered call of each caller; where no call goes with them, what was
// found before.
fn without_open_too(
    alloc: Global,
    kind: Kind,
    book: &Book,
    found: Option<Smaller>,
) -> Result<Option<Smaller>, NoMemory>
    requires illegal { ¬ HasLegalOrder (kind_spec kind) book.now }
    requires found { IfSome found (λ smaller.
        IsSmaller kind book.now (numbers_in smaller.numbers.items) smaller.book) }
    ensures { IfOk result (λ found. IfSome found (λ smaller.
        IsSmaller kind book.now (numbers_in smaller.numbers.items) smaller.book)) }
{
    match found {
        None => without_open(alloc, kind, book),
        Some(smaller) => match without_open(alloc, kind, &smaller.book)? {
            None => Ok(Some(smaller)),
            Some(next) => Ok(Some(smaller_still(alloc, kind, book, smaller, next)?)),
        },
    }
}
