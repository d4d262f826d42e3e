//! Whether a book has a legal order, for an object of a kind.
ghost use Rattle.std.specs.Prelude.{◌≡◌, ◌<◌, false, length, IfOk, IsTrue};
ghost use Rattle.book_base.specs.Cut.{IsWithin};
ghost use Rattle.book_base.specs.Book.{answered};
ghost use Rattle.book_base.specs.BookAt.{book_at};
ghost use Rattle.book_base.specs.Order.{HasLegalOrder};
ghost use Rattle.book_base.specs.Pruning.{HasOneOpen};
ghost use Rattle.seq_objects.specs.Objects.{kind_spec};
ghost use Rattle.smaller_book.specs.declared.TheConstants.{FEW_CALLS};
ghost use Rattle.smaller_book.specs.Part.{size_of};

use crate::FEW_CALLS;
use book_base::{Book, Cut, NoMemory};
use broken_rules::broken_rule;
use frontier_check::{Verdict, check};
use kind_search::SearchedKind;
use search_hints::has_one_open;
use seq_objects::Kind;
use std::alloc::Global;

/// Whether a book has no legal order.
pub fn is_illegal(alloc: Global, kind: Kind, book: &Book) -> Result<bool, NoMemory>
    ensures illegal { IfOk result
        (λ found. IsTrue found → ¬ HasLegalOrder (kind_spec kind) book.now) }
    ensures legal { IfOk result (λ found. found ≡ false → HasLegalOrder (kind_spec kind) book.now) }
{
    if !has_one_open(book) && breaks_rule(kind, book, MOST_PAIRED) {
        return Ok(true);
    }
    match check(alloc, &SearchedKind { kind }, book)? {
        Verdict::Legal(_) => Ok(false),
        Verdict::Illegal => Ok(true),
    }
}

/// The greatest number of calls with which all pairs of a book's calls are looked at for a broken
/// rule before an order is looked for. Pairs are looked at only where a view holds several
/// unanswered calls of one caller, since a search for an order can leave out little in that case.
const MOST_PAIRED: u64 = 512;

/// The greatest number of calls with which pairs of calls are looked at for a broken rule while
/// records are taken from a cut. It is greater than `MOST_PAIRED`, as no order is looked for then.
const MOST_PAIRED_AT_A_CUT: u64 = 2048;

// Whether a book is found to break a rule of its kind; false, without a look, for a book of more
// than `most` calls.
fn breaks_rule(kind: Kind, book: &Book, most: u64) -> bool
    ensures { IsTrue result → ¬ HasLegalOrder (kind_spec kind) book.now }
{
    if calls_of_all(book) > most {
        return false;
    }
    broken_rule(kind, book).is_some()
}

/// Whether the book at a cut is found to break a rule of its kind. No order is looked for.
pub fn breaks_rule_at(alloc: Global, kind: Kind, book: &Book, cut: &Cut) -> Result<bool, NoMemory>
    requires wide { length cut.now ≡ length book.now }
    requires within { IsWithin cut.now (answered book.now) }
    ensures { IfOk result
        (λ found. IsTrue found → ¬ HasLegalOrder (kind_spec kind) (book_at cut.now book.now)) }
{
    let _callers = book.callers();
    let part = book.at(alloc, cut)?;
    Ok(breaks_rule(kind, &part, MOST_PAIRED_AT_A_CUT))
}

/// Whether the book at a cut has more than `FEW_CALLS` calls, and each of its views holds at most
/// one unanswered call of each caller.
pub fn is_large_and_open_at(alloc: Global, book: &Book, cut: &Cut) -> Result<bool, NoMemory>
    requires wide { length cut.now ≡ length book.now }
    requires within { IsWithin cut.now (answered book.now) }
    ensures large { IfOk result (λ found. IsTrue found
        → FEW_CALLS < size_of (book_at cut.now book.now)) }
    ensures open { IfOk result (λ found. IsTrue found → HasOneOpen (book_at cut.now book.now)) }
{
    let _callers = book.callers();
    let part = book.at(alloc, cut)?;
    if calls_of_all(&part) <= FEW_CALLS {
        return Ok(false);
    }
    Ok(has_one_open(&part))
}

/// How many calls a book has.
pub fn calls_of_all(book: &Book) -> u64
    ensures { result ≡ size_of book.now }
{
    let mut total = 0;
    for caller in 0..book.callers() {
        total += book.calls(caller);
    }
    total
}

/// Whether the book at a cut has no legal order.
pub fn is_illegal_at(alloc: Global, kind: Kind, book: &Book, cut: &Cut) -> Result<bool, NoMemory>
    requires wide { length cut.now ≡ length book.now }
    requires within { IsWithin cut.now (answered book.now) }
    ensures illegal { IfOk result
        (λ found. IsTrue found → ¬ HasLegalOrder (kind_spec kind) (book_at cut.now book.now)) }
    ensures legal { IfOk result
        (λ found. found ≡ false → HasLegalOrder (kind_spec kind) (book_at cut.now book.now)) }
{
    let _callers = book.callers();
    let part = book.at(alloc, cut)?;
    is_illegal(alloc, kind, &part)
}
