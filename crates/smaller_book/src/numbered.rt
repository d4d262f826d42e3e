//! The part of a book that has the calls with given numbers.
ghost use Rattle.std.specs.Prelude.{◌≡◌, ◌≢◌, ℕ, ◌+◌, ◌<◌, ◌≤◌, length, slice_index, IfOk, OnOk};
ghost use Rattle.book_base.specs.declared.call.Call.{Call};
ghost use Rattle.book_base.specs.Book.{page_of, calls_of, answers_of, operation_of, with_answer};
ghost use Rattle.book_base.specs.Refusal.{MayAnswer};
ghost use Rattle.smaller_book.specs.Part.{numbers_of, count_below, IsPart, KeepsAnswers};
ghost use Rattle.smaller_book.specs.Numbers.{numbers_in, AreNumbersOf};

use book_base::{Book, Call, Cut, NoMemory};
use std::alloc::Global;

/// The part of a book that has the calls with these numbers, a rising list for each caller. Calls
/// that are answered in the book are answered in the part.
pub fn part(alloc: Global, book: &Book, numbers: &[Vec<u64>]) -> Result<Book, NoMemory>
    // The numbers are rising numbers of calls of the book, a list for each caller.
    requires { AreNumbersOf book.now (numbers_in numbers.now) }
    // The answer is the part of the book that has the calls with these numbers.
    ensures part { IfOk result (IsPart book.now (numbers_in numbers.now)) }
    // Each call of the part that is answered in the book is answered in the part.
    ensures answers { IfOk result (KeepsAnswers book.now (numbers_in numbers.now)) }
{
    let callers = book.callers();
    let mut part = Book::with_calls(alloc, &sizes(book, numbers))?;
    for caller in 0..callers {
        put_operations(book, &numbers[caller as usize], caller, &mut part);
    }
    for answering in 0..callers {
        put_answers(book, numbers, answering, &mut part)?;
    }
    Ok(part)
}

// How many calls the part has of each caller.
fn sizes(book: &Book, numbers: &[Vec<u64>]) -> Cut
    requires { length numbers.now ≡ length book.now }
    ensures wide { length result ≡ length book.now }
    ensures counts { (i : ℕ)
        → slice_index result i ≡ length (numbers_of (numbers_in numbers.now) i) }
{
    let mut sizes = Cut::zero(book.callers());
    for caller in 0..book.callers() {
        sizes.set(caller, numbers[caller as usize].len() as u64);
    }
    sizes
}

// Gives call k of a caller in the part the operation that the book has for the caller's call with
// the number `numbers[k]`.
fn put_operations(book: &Book, numbers: &[u64], caller: u32, part: &mut Book)
    requires inside { (k : ℕ) → k < length numbers.now
        → slice_index numbers.now k < calls_of book.now caller }
    requires calls { calls_of part.old caller ≡ length numbers.now }
    ensures callers { length part.new ≡ length part.old }
    ensures calls { (i : ℕ) → calls_of part.new i ≡ calls_of part.old i }
    ensures records { (i : ℕ) → (page_of part.new i).records ≡ (page_of part.old i).records }
    ensures put { (k : ℕ) → k < length numbers.now
        → operation_of part.new (record { caller = caller; number = k })
        ≡ operation_of book.now (record { caller = caller; number = slice_index numbers.now k }) }
    ensures others { (call : Call) → call.caller ≢ caller
        → operation_of part.new call ≡ operation_of part.old call }
{
    for (k, number) in numbers.iter().enumerate() {
        let op = book.op(Call {
            caller,
            number: *number,
        });
        part.set_op(
            Call {
                caller,
                number: k as u64,
            },
            op,
        );
    }
}

// Puts into the part, which has no answer of a caller yet, all answers that the book has to the
// caller's calls in the part.
fn put_answers(
    book: &Book,
    numbers: &[Vec<u64>],
    caller: u32,
    part: &mut Book,
) -> Result<(), NoMemory>
    requires numbers { AreNumbersOf book.now (numbers_in numbers.now) }
    requires caller { caller < length book.now }
    requires part { IsPart book.now (numbers_in numbers.now) part.old }
    requires none { answers_of part.old caller ≡ 0 }
    ensures part { OnOk result (IsPart book.now (numbers_in numbers.now) part.new) }
    ensures answers { OnOk result ((k : ℕ) → k < length (numbers_of (numbers_in numbers.now) caller)
        → slice_index (numbers_of (numbers_in numbers.now) caller) k < answers_of book.now caller
        → k < answers_of part.new caller) }
    ensures others { OnOk result ((j : ℕ)
        → j ≢ caller → answers_of part.new j ≡ answers_of part.old j) }
{
    let answers = book.answers(caller);
    for number in &numbers[caller as usize] {
        if *number >= answers {
            return Ok(());
        }
        put_answer(book, numbers, caller, *number, part)?;
    }
    Ok(())
}

// Puts the book's answer to call `number` of a caller into the part, where this call is the
// caller's first unanswered one.
fn put_answer(
    book: &Book,
    numbers: &[Vec<u64>],
    caller: u32,
    number: u64,
    part: &mut Book,
) -> Result<(), NoMemory>
    requires numbers { AreNumbersOf book.now (numbers_in numbers.now) }
    requires answered { number < answers_of book.now caller }
    requires part { IsPart book.now (numbers_in numbers.now) part.old }
    requires inside { answers_of part.old caller
        < length (numbers_of (numbers_in numbers.now) caller) }
    requires here { slice_index (numbers_of (numbers_in numbers.now) caller)
        (answers_of part.old caller) ≡ number }
    ensures part { OnOk result (IsPart book.now (numbers_in numbers.now) part.new) }
    ensures answers { OnOk result (answers_of part.new caller ≡ answers_of part.old caller + 1) }
    ensures others { OnOk result ((j : ℕ)
        → j ≢ caller → answers_of part.new j ≡ answers_of part.old j) }
{
    let _callers = book.callers();
    let record = book.record(Call { caller, number });
    let view = renumbered(&record.view, numbers);
    part.put_answer(caller, record.reply, view)
}

// The view that counts of each caller those calls of a view whose numbers are in the caller's list.
fn renumbered(view: &Cut, numbers: &[Vec<u64>]) -> Cut
    requires { length numbers.now ≡ length view.now }
    ensures wide { length result ≡ length view.now }
    ensures counts { (i : ℕ) → slice_index result i
        ≡ count_below (numbers_of (numbers_in numbers.now) i) (slice_index view.now i) }
{
    let mut counts = *view;
    for caller in 0..view.n() {
        counts.set(
            caller,
            count_below(&numbers[caller as usize], view.get(caller)),
        );
    }
    counts
}

/// How many numbers stand in a list before the first one that isn't below a bound.
pub fn count_below(numbers: &[u64], bound: u64) -> u64
    ensures { result ≡ count_below numbers.now bound }
{
    numbers.iter().take_while(|number| **number < bound).count() as u64
}
