//! Parts of a book that have the calls which a table keeps: a row for each caller, with whether each
//! of its calls stays.
ghost use Rattle.std.specs.Prelude.{◌<◌, length, IfOk, IfSome, IsTrue};
ghost use Rattle.book_base.specs.Book.{IsCall, calls_of};
ghost use Rattle.book_base.specs.Order.{HasLegalOrder};
ghost use Rattle.seq_objects.specs.Objects.{kind_spec};
ghost use Rattle.smaller_book.specs.Numbers.{numbers_in, AreNumbersOf, AreNumbersBelow};
ghost use Rattle.smaller_book.specs.Settings.{IsWithoutUnseen};
ghost use Rattle.smaller_book.specs.Minimal.{IsSmaller};

use crate::judging::is_illegal;
use crate::numbered::part;
use crate::removal::{Smaller, has_fewer, push_if};
use crate::unseen_calls::first_seen;
use book_base::{Book, Call, NoMemory};
use seq_objects::Kind;
use std::alloc::Global;

/// The part of a book that has the calls which a table keeps, where it has fewer calls and no legal
/// order. No book is answered where a call that goes is neither read-only nor unseen by those that
/// stay.
pub fn illegal_part(
    alloc: Global,
    kind: Kind,
    book: &Book,
    kept: &[Vec<bool>],
) -> Result<Option<Smaller>, NoMemory>
    ensures smaller { IfOk result (λ found. IfSome found (λ smaller.
        IsSmaller kind book.now (numbers_in smaller.numbers.items) smaller.book)) }
    ensures unseen { IfOk result (λ found. IfSome found (λ smaller.
        IsWithoutUnseen kind book.now (numbers_in smaller.numbers.items) smaller.book)) }
{
    let _callers = book.callers();
    let numbers = numbers_kept(alloc, book, kept)?;
    if first_seen(kind, book, &numbers).is_some() {
        return Ok(None);
    }
    let smaller = part(alloc, book, &numbers)?;
    let _of_part = smaller.callers();
    if !has_fewer(&smaller, book) {
        return Ok(None);
    }
    if is_illegal(alloc, kind, &smaller)? {
        Ok(Some(Smaller {
            book: smaller,
            numbers,
        }))
    } else {
        Ok(None)
    }
}

/// Whether the part of a book that has the calls which a table keeps has no legal order.
pub fn is_illegal_with(
    alloc: Global,
    kind: Kind,
    book: &Book,
    kept: &[Vec<bool>],
) -> Result<bool, NoMemory> {
    let numbers = numbers_kept(alloc, book, kept)?;
    let tried = part(alloc, book, &numbers)?;
    is_illegal(alloc, kind, &tried)
}

/// Whether a table keeps a call.
pub fn keeps(kept: &[Vec<bool>], call: Call) -> bool {
    match kept.get(call.caller as usize) {
        None => false,
        Some(row) => match row.get(call.number as usize) {
            None => false,
            Some(stays) => *stays,
        },
    }
}

/// Keeps a call, and answers whether it is new in the table.
pub fn keep(kept: &mut Vec<Vec<bool>>, call: Call) -> bool {
    match kept.get_mut(call.caller as usize) {
        None => false,
        Some(row) => match row.get_mut(call.number as usize) {
            None => false,
            Some(stays) => {
                let is_new = !*stays;
                *stays = true;
                is_new
            }
        },
    }
}

// For each caller the numbers of its calls that a table keeps.
fn numbers_kept(alloc: Global, book: &Book, kept: &[Vec<bool>]) -> Result<Vec<Vec<u64>>, NoMemory>
    ensures { IfOk result (λ rows. AreNumbersOf book.now (numbers_in rows.items)) }
{
    let mut rows = Vec::new(alloc);
    for caller in 0..book.callers() {
        rows.push(numbers_of_caller(alloc, book, kept, caller)?)?;
    }
    Ok(rows)
}

// The numbers of a caller's calls that a table keeps.
fn numbers_of_caller(
    alloc: Global,
    book: &Book,
    kept: &[Vec<bool>],
    caller: u32,
) -> Result<Vec<u64>, NoMemory>
    requires { caller < length book.now }
    ensures { IfOk result (λ numbers. AreNumbersBelow (calls_of book.now caller) numbers.items) }
{
    let mut numbers = Vec::new(alloc);
    for number in 0..book.calls(caller) {
        let stays = keeps(kept, Call { caller, number });
        push_if(&mut numbers, stays, number)?;
    }
    Ok(numbers)
}
