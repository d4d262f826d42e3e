//! Which calls of a book are marked in its picture: those of a smaller book that no order explains
//! either.

ghost use Rattle.std.specs.Prelude.{is_some, IfOk};
ghost use Rattle.book_base.specs.Order.{HasLegalOrder};
ghost use Rattle.frontier_check.specs.Verdict.{IsRight};
ghost use Rattle.seq_objects.specs.Objects.{kind_spec};
ghost use Rattle.book_picture.specs.Bars.{order_in};
ghost use Rattle.book_picture.specs.MarkedCalls.{numbers_in};
ghost use Rattle.given_book.specs.Marking.{AreOfASmallerBook, AreMarksOf, AreMarksFor};

use book_base::{Book, NoMemory};
use book_picture::MarkedCalls;
use frontier_check::Verdict;
use seq_objects::Kind;
use smaller_book::{calls_of_all, shrink};
use std::alloc::Global;

/// The most calls of a book for which a smaller book is sought. Each try of the search for one is a
/// whole check.
const MOST_CALLS: u64 = 1024;

/// The calls that are marked in the picture of a book with this verdict: none where the book has a
/// legal order.
pub(crate) fn marks_for(alloc: Global, kind: Kind, book: &Book, verdict: &Verdict) -> MarkedCalls
    requires { IsRight (kind_spec kind) book.now verdict.now }
    ensures { AreMarksFor kind book.now (is_some (order_in verdict.now)) result }
{
    match verdict {
        Verdict::Legal(_) => MarkedCalls::Unasked,
        Verdict::Illegal => marks_of(alloc, kind, book),
    }
}

// The calls that are marked in the picture of a book without a legal order: those of a smaller
// book, or none where the book has too many calls or memory was wanted.
fn marks_of(alloc: Global, kind: Kind, book: &Book) -> MarkedCalls
    requires { ¬ HasLegalOrder (kind_spec kind) book.now }
    ensures { AreMarksOf kind book.now result }
{
    if calls_of_all(book) > MOST_CALLS {
        return MarkedCalls::TooLarge;
    }
    match smaller_numbers(alloc, kind, book) {
        Ok(numbers) => MarkedCalls::Smaller(numbers),
        Err(NoMemory) => MarkedCalls::NoMemory,
    }
}

// For each caller of a book without a legal order, the numbers of its calls in a smaller book.
fn smaller_numbers(alloc: Global, kind: Kind, book: &Book) -> Result<Vec<Vec<u64>>, NoMemory>
    requires { ¬ HasLegalOrder (kind_spec kind) book.now }
    ensures { IfOk result (λ numbers.
        AreOfASmallerBook kind book.now (numbers_in numbers.items)) }
{
    match shrink(alloc, kind, book)? {
        Some(smaller) => Ok(smaller.numbers),
        None => unreachable!(),
    }
}
