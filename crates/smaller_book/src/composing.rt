//! The numbers of a book's calls, and the numbers in a book of the calls of a part of a part of it.
ghost use Rattle.std.specs.Prelude.{◌≡◌, ℕ, ◌<◌, length, slice_index, IfOk};
ghost use Rattle.smaller_book.specs.Part.{numbers_of};
ghost use Rattle.smaller_book.specs.Numbers.{numbers_in, picked, composed};
ghost use Rattle.smaller_book.specs.Earliest.{all_numbers};
ghost use Rattle.smaller_book.specs.Minimal.{IsSmaller};

use crate::removal::{Smaller, numbers_below};
use book_base::{Book, NoMemory};
use seq_objects::Kind;
use std::alloc::Global;

/// The book of `next`, which was made from that of `smaller`, with the numbers that its calls have
/// in `book`.
pub fn smaller_still(
    alloc: Global,
    kind: Kind,
    book: &Book,
    smaller: Smaller,
    next: Smaller,
) -> Result<Smaller, NoMemory>
    requires first { IsSmaller kind book.now (numbers_in smaller.numbers.items) smaller.book }
    requires second { IsSmaller kind smaller.book (numbers_in next.numbers.items) next.book }
    ensures smaller { IfOk result (λ whole.
        IsSmaller kind book.now (numbers_in whole.numbers.items) whole.book) }
    ensures last { IfOk result (λ whole. whole.book ≡ next.book) }
{
    let _kind = kind;
    let _callers = book.callers();
    let numbers = numbers_through(alloc, &smaller.numbers, &next.numbers)?;
    Ok(Smaller {
        book: next.book,
        numbers,
    })
}

/// For each caller of a book the numbers of all its calls.
pub fn numbers_of_all(alloc: Global, book: &Book) -> Result<Vec<Vec<u64>>, NoMemory>
    ensures { IfOk result (λ rows. numbers_in rows.items ≡ all_numbers book.now) }
{
    let mut rows = Vec::new(alloc);
    for caller in 0..book.callers() {
        rows.push(numbers_below(alloc, book.calls(caller))?)?;
    }
    Ok(rows)
}

/// For each caller the numbers in the book of its calls in a part of a part: the entries of the
/// caller's list in `first`, at the places that its list in `second` names.
pub fn numbers_through(
    alloc: Global,
    first: &[Vec<u64>],
    second: &[Vec<u64>],
) -> Result<Vec<Vec<u64>>, NoMemory>
    // Both have a list for each caller.
    requires callers { length first.now ≡ length second.now }
    // Each place is one of the caller's list in `first`.
    requires inside { (i k : ℕ) → k < length (numbers_of (numbers_in second.now) i)
        → slice_index (numbers_of (numbers_in second.now) i) k
        < length (numbers_of (numbers_in first.now) i) }
    ensures { IfOk result (λ rows.
        numbers_in rows.items ≡ composed (numbers_in first.now) (numbers_in second.now)) }
{
    let mut rows = Vec::new(alloc);
    for caller in 0..second.len() {
        rows.push(numbers_at(alloc, &first[caller], &second[caller])?)?;
    }
    Ok(rows)
}

// The numbers at these places of a list of numbers.
fn numbers_at(alloc: Global, numbers: &[u64], places: &[u64]) -> Result<Vec<u64>, NoMemory>
    requires { (k : ℕ) → k < length places.now → slice_index places.now k < length numbers.now }
    ensures { IfOk result (λ found. found.items ≡ picked numbers.now places.now) }
{
    let mut found = Vec::new(alloc);
    for place in places {
        found.push(numbers[*place as usize])?;
    }
    Ok(found)
}
