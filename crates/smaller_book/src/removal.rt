//! Single calls, taken out of a book.
ghost use Rattle.std.specs.Prelude.{◌≡◌, ℕ, ◌+◌, ◌-◌, ◌<◌, ◌≤◌, ◌++◌, [], ◌∷◌, length, if◌then◌else◌, IfOk, IfSome, IfNone, OnOk, IsTrue};
ghost use Rattle.std.specs.List.{range_with_len};
ghost use Rattle.book_base.specs.declared.call.Call.{Call};
ghost use Rattle.book_base.specs.Book.{calls_of, IsCall};
ghost use Rattle.seq_objects.specs.Objects.{kind_next};
ghost use Rattle.smaller_book.specs.Numbers.{numbers_in};
ghost use Rattle.smaller_book.specs.ReadOnly.{IsReadOnly};
ghost use Rattle.smaller_book.specs.Minimal.{numbers_except, row_but, all_but, IsNeeded, IsSmaller};

use crate::judging::is_illegal;
use crate::numbered::part;
use crate::read_only::is_read_only;
use book_base::{Book, Call, NoMemory};
use seq_objects::Kind;
use std::alloc::Global;

/// A smaller book, with the numbers that its calls have in the book from which it was made: a list
/// for each caller.
#[derive(Debug, Drop)]
pub struct Smaller {
    pub book: Book,
    pub numbers: Vec<Vec<u64>>,
}

/// Leaves out the first read-only call, of the caller `from` or a later one, whose removal leaves
/// a book without a legal order. The answer is that book with the call's caller; or no book, where
/// the removal of any one of these calls leaves a book with a legal order.
pub fn without_one(
    alloc: Global,
    kind: Kind,
    book: &Book,
    from: u32,
) -> Result<Option<(Smaller, u32)>, NoMemory>
    ensures smaller { IfOk result (λ found. IfSome found (λ (smaller, caller).
        IsSmaller kind book.now (numbers_in smaller.numbers.items) smaller.book)) }
    ensures none { IfOk result (λ found. IfNone found ((call : Call) → from ≤ call.caller
        → IsReadOnly (kind_next kind) book.now call
        → IsNeeded kind book.now call)) }
{
    for caller in from..book.callers() {
        let found = without_one_of(alloc, kind, book, caller)?;
        match found {
            Some(smaller) => return Ok(Some((smaller, caller))),
            None => {}
        }
    }
    Ok(None)
}

// The book without one read-only call of a caller, the first whose removal leaves a book without
// a legal order. No book is answered where the caller has no such call.
fn without_one_of(
    alloc: Global,
    kind: Kind,
    book: &Book,
    caller: u32,
) -> Result<Option<Smaller>, NoMemory>
    requires { caller < length book.now }
    ensures smaller { IfOk result (λ found. IfSome found (λ smaller.
        IsSmaller kind book.now (numbers_in smaller.numbers.items) smaller.book)) }
    ensures none { IfOk result (λ found. IfNone found ((number : ℕ)
        → IsReadOnly (kind_next kind) book.now (record { caller = caller; number = number })
        → IsNeeded kind book.now (record { caller = caller; number = number }))) }
{
    for number in 0..book.calls(caller) {
        let found = without_if_read_only(alloc, kind, book, Call { caller, number })?;
        match found {
            Some(smaller) => return Ok(Some(smaller)),
            None => {}
        }
    }
    Ok(None)
}

// The book without this call, where the call is read-only and the book has no legal order without
// it.
fn without_if_read_only(
    alloc: Global,
    kind: Kind,
    book: &Book,
    call: Call,
) -> Result<Option<Smaller>, NoMemory>
    requires { IsCall book.now call }
    ensures smaller { IfOk result (λ found. IfSome found (λ smaller.
        IsSmaller kind book.now (numbers_in smaller.numbers.items) smaller.book)) }
    ensures none { IfOk result (λ found. IfNone found
        (IsReadOnly (kind_next kind) book.now call → IsNeeded kind book.now call)) }
{
    if is_read_only(kind, book, call) {
        without(alloc, kind, book, call)
    } else {
        Ok(None)
    }
}

/// The book without this call, which is read-only, if that smaller book has no legal order.
pub fn without(
    alloc: Global,
    kind: Kind,
    book: &Book,
    call: Call,
) -> Result<Option<Smaller>, NoMemory>
    requires call { IsCall book.now call }
    requires goes { IsReadOnly (kind_next kind) book.now call }
    ensures smaller { IfOk result (λ found. IfSome found (λ smaller.
        IsSmaller kind book.now (numbers_in smaller.numbers.items) smaller.book)) }
    ensures none { IfOk result (λ found. IfNone found
        (IsNeeded kind book.now call)) }
{
    let _callers = book.callers();
    let numbers = all_numbers_but(alloc, book, call)?;
    let smaller = part(alloc, book, &numbers)?;
    let _of_part = smaller.callers();
    if is_illegal(alloc, kind, &smaller)? {
        Ok(Some(Smaller {
            book: smaller,
            numbers,
        }))
    } else {
        Ok(None)
    }
}

/// For each caller of a book the numbers of its calls, with `call` left out.
pub fn all_numbers_but(alloc: Global, book: &Book, call: Call) -> Result<Vec<Vec<u64>>, NoMemory>
    // The call is one of the book.
    requires { IsCall book.now call }
    ensures { IfOk result (λ rows. numbers_in rows.items ≡ all_but book.now call) }
{
    let mut rows = Vec::new(alloc);
    for caller in 0..book.callers() {
        rows.push(numbers_but(alloc, book, call, caller)?)?;
    }
    Ok(rows)
}

// The numbers of a caller's calls in a book, with `call` left out where it is the caller's.
fn numbers_but(alloc: Global, book: &Book, call: Call, caller: u32) -> Result<Vec<u64>, NoMemory>
    requires call { IsCall book.now call }
    requires caller { caller < length book.now }
    ensures { IfOk result (λ numbers. numbers.items ≡ row_but book.now call caller) }
{
    let count = book.calls(caller);
    if caller == call.caller {
        numbers_without(alloc, count, call.number)
    } else {
        numbers_below(alloc, count)
    }
}

// The numbers below `count` other than `number`, which is one of them.
fn numbers_without(alloc: Global, count: u64, number: u64) -> Result<Vec<u64>, NoMemory>
    requires { number < count }
    ensures { IfOk result (λ numbers. numbers.items ≡ numbers_except count number) }
{
    let mut numbers = Vec::new(alloc);
    for before in 0..number {
        numbers.push(before)?;
    }
    for after in number + 1..count {
        numbers.push(after)?;
    }
    Ok(numbers)
}

/// The numbers below a count.
pub fn numbers_below(alloc: Global, count: u64) -> Result<Vec<u64>, NoMemory>
    ensures { IfOk result (λ numbers. numbers.items ≡ range_with_len 0 count) }
{
    let mut numbers = Vec::new(alloc);
    for number in 0..count {
        numbers.push(number)?;
    }
    Ok(numbers)
}

/// Whether `few` has fewer calls of some caller than `book`.
pub fn has_fewer(few: &Book, book: &Book) -> bool
    requires { length few.now ≡ length book.now }
    ensures { IsTrue result → (i : ℕ) × (calls_of few.now i < calls_of book.now i) }
{
    for caller in 0..book.callers() {
        if few.calls(caller) < book.calls(caller) {
            return true;
        }
    }
    false
}

/// Appends a number if `keeps` is true.
pub fn push_if(numbers: &mut Vec<u64>, keeps: bool, number: u64) -> Result<(), NoMemory>
    ensures { OnOk result (numbers.new.items
        ≡ numbers.old.items ++ (if keeps then number ∷ [] else [])) }
{
    if keeps {
        Ok(numbers.push(number)?)
    } else {
        Ok(())
    }
}
