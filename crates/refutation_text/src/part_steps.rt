//! The parts that the steps of a refutation leave, one after another.

ghost use Rattle.std.specs.Prelude.{◌≡◌, ◌↔◌, ◌<◌, min, length, slice_index, IfOk, IfErr, IfSome, IfNone, IsTrue};
ghost use Rattle.book_base.specs.declared.call.Call.{Call};
ghost use Rattle.book_base.specs.Book.{IsCall, IsValid, answers_of};
ghost use Rattle.seq_objects.specs.declared.kind.Kind.{Kind};
ghost use Rattle.smaller_book.specs.Part.{numbers_of, count_below};
ghost use Rattle.smaller_book.specs.Numbers.{numbers_in, composed, AreNumbersOf};
ghost use Rattle.smaller_book.specs.Keys.{is_among, row_without, all_without};
ghost use Rattle.refutation_text.specs.Said.{At, Keys, Leave, Keep, step_said, steps_said};
ghost use Rattle.refutation_text.specs.Steps.{AreNamesOf, IsCalled, AreCalled, is_listed, row_listed, all_listed, keys_gone, IsCutOf, HasPlaces, Leaves, StepFails, LeaveAfter, IsFirstStepFault};

use crate::refutation::Step;
use book_base::{Book, Call, Cut, NoMemory};
use search_hints::has_one_open;
use seq_objects::Kind;
use smaller_book::{
    Smaller, all_numbers_but, count_below, first_seen, is_read_only, key_of, numbers_of_all,
    numbers_through, part, push_if,
};
use std::alloc::Global;

/// Why a step can't be made.
#[derive(Clone, Copy, Debug, PartialEq, Eq)]
pub enum StepFault {
    /// It names a caller that the book lacks, or a call that the part lacks.
    Lacks,
    /// It is of keys, and some view holds two unanswered calls of one caller.
    Open,
    /// A call that goes isn't read-only, and calls that stay may tell what it sets.
    Changes,
}

/// The part of a book that steps leave, with the numbers that its calls have in the book; or the
/// number, counted from 0, of the first step that can't be made, and why.
pub fn part_of(
    alloc: Global,
    kind: Kind,
    book: Book,
    steps: &[Step],
) -> Result<Result<Smaller, (u64, StepFault)>, NoMemory>
    // The answered part is the one that the steps leave, one after another.
    ensures left { IfOk result (λ answer. IfOk answer (λ part. LeaveAfter kind book
        (steps_said steps.now) (length steps.now) (numbers_in part.numbers.items) part.book)) }
    // The answered part is valid, and has a list of numbers for each caller, with a number for each
    // call.
    ensures names { IfOk result (λ answer. IfOk answer (λ part.
        AreNamesOf (numbers_in part.numbers.items) part.book)) }
    // A fault is that of the first step that can't be made.
    ensures fault { IfOk result (λ answer. IfErr answer (λ (s, why).
        IsFirstStepFault kind book (steps_said steps.now) s why)) }
{
    let _callers = book.callers();
    let numbers = numbers_of_all(alloc, &book)?;
    let mut left = Smaller { book, numbers };
    for s in 0..steps.len() {
        match after_step(alloc, kind, &left, &steps[s])? {
            Ok(next) => left = next,
            Err(why) => return Ok(Err((s as u64, why))),
        }
    }
    Ok(Ok(left))
}

// The part that a step leaves of a part of a book.
fn after_step(
    alloc: Global,
    kind: Kind,
    left: &Smaller,
    step: &Step,
) -> Result<Result<Smaller, StepFault>, NoMemory>
    requires { AreNamesOf (numbers_in left.now.numbers.items) left.now.book }
    ensures left { IfOk result (λ answer. IfOk answer (λ next.
        Leaves kind (numbers_in left.now.numbers.items) left.now.book (step_said step.now)
        (numbers_in next.numbers.items) next.book)) }
    ensures fault { IfOk result (λ answer. IfErr answer
        (StepFails kind (numbers_in left.now.numbers.items) left.now.book (step_said step.now))) }
{
    match step {
        Step::At(counts) => cut_back(alloc, kind, left, counts),
        Step::Without(keys) => without_keys(alloc, kind, left, true, keys),
        Step::Only(keys) => without_keys(alloc, kind, left, false, keys),
        Step::Leave(call) => without_call(alloc, kind, left, *call),
        Step::Keep(calls) => with_calls(alloc, kind, left, calls),
    }
}

// The part at a cut, whose counts are numbers of the book.
fn cut_back(
    alloc: Global,
    kind: Kind,
    left: &Smaller,
    counts: &Cut,
) -> Result<Result<Smaller, StepFault>, NoMemory>
    requires { AreNamesOf (numbers_in left.now.numbers.items) left.now.book }
    ensures left { IfOk result (λ answer. IfOk answer (λ next.
        Leaves kind (numbers_in left.now.numbers.items) left.now.book (At counts.now)
        (numbers_in next.numbers.items) next.book)) }
    ensures fault { IfOk result (λ answer. IfErr answer
        (StepFails kind (numbers_in left.now.numbers.items) left.now.book (At counts.now))) }
{
    let _kind = kind;
    for caller in left.book.callers()..counts.n() {
        if counts.get(caller) > 0 {
            return Ok(Err(StepFault::Lacks));
        }
    }
    let book = left.book.at(alloc, &cut_of(left, counts))?;
    let _callers = book.callers();
    let places = numbers_of_all(alloc, &book)?;
    let numbers = numbers_through(alloc, &left.numbers, &places)?;
    Ok(Ok(Smaller { book, numbers }))
}

// The cut of a part that holds the answered calls whose numbers in the book are below the counts.
fn cut_of(left: &Smaller, counts: &Cut) -> Cut
    requires { AreNamesOf (numbers_in left.now.numbers.items) left.now.book }
    ensures { IsCutOf (numbers_in left.now.numbers.items) left.now.book counts.now result }
{
    let mut cut = Cut::zero(left.book.callers());
    for caller in 0..left.book.callers() {
        cut.set(caller, count_of(left, counts, caller));
    }
    cut
}

// How many answered calls of a caller in a part have numbers of the book below its count.
fn count_of(left: &Smaller, counts: &Cut, caller: u32) -> u64
    requires names { AreNamesOf (numbers_in left.now.numbers.items) left.now.book }
    requires caller { caller < length left.now.book }
    ensures { result ≡ min (count_below (numbers_of (numbers_in left.now.numbers.items) caller)
        (slice_index counts.now caller)) (answers_of left.now.book caller) }
{
    let below = count_below(&left.numbers[caller as usize], bound_of(counts, caller));
    below.min(left.book.answers(caller))
}

// The count of a caller, which is 0 where the counts have none for it.
fn bound_of(counts: &Cut, caller: u32) -> u64
    ensures { result ≡ slice_index counts.now caller }
{
    if caller < counts.n() {
        counts.get(caller)
    } else {
        0
    }
}

// The part without the calls of these keys, or of all other keys.
fn without_keys(
    alloc: Global,
    kind: Kind,
    left: &Smaller,
    these: bool,
    keys: &[u64],
) -> Result<Result<Smaller, StepFault>, NoMemory>
    requires { AreNamesOf (numbers_in left.now.numbers.items) left.now.book }
    ensures left { IfOk result (λ answer. IfOk answer (λ next.
        Leaves kind (numbers_in left.now.numbers.items) left.now.book (Keys these keys.now)
        (numbers_in next.numbers.items) next.book)) }
    ensures fault { IfOk result (λ answer. IfErr answer
        (StepFails kind (numbers_in left.now.numbers.items) left.now.book (Keys these keys.now))) }
{
    if !has_one_open(&left.book) {
        return Ok(Err(StepFault::Open));
    }
    let places = places_without(alloc, kind, &left.book, these, keys)?;
    Ok(Ok(part_at(alloc, left, &places)?))
}

// The places of the calls of a book that have no key that goes.
fn places_without(
    alloc: Global,
    kind: Kind,
    book: &Book,
    these: bool,
    keys: &[u64],
) -> Result<Vec<Vec<u64>>, NoMemory>
    ensures { IfOk result (λ rows.
        numbers_in rows.items ≡ all_without kind (keys_gone these keys.now) book.now) }
{
    let mut rows = Vec::new(alloc);
    for caller in 0..book.callers() {
        rows.push(row_of_places(alloc, kind, book, caller, these, keys)?)?;
    }
    Ok(rows)
}

// The places of a caller's calls in a book that have no key that goes.
fn row_of_places(
    alloc: Global,
    kind: Kind,
    book: &Book,
    caller: u32,
    these: bool,
    keys: &[u64],
) -> Result<Vec<u64>, NoMemory>
    requires { caller < length book.now }
    ensures { IfOk result (λ row.
        row.items ≡ row_without kind (keys_gone these keys.now) book.now caller) }
{
    let mut row = Vec::new(alloc);
    for number in 0..book.calls(caller) {
        let key = key_of(kind, book, Call { caller, number });
        let goes = is_gone(these, keys, key);
        push_if(&mut row, !goes, number)?;
    }
    Ok(row)
}

// Whether there is a key, and its calls go.
fn is_gone(these: bool, keys: &[u64], key: Option<u64>) -> bool
    ensures { result ≡ is_among (keys_gone these keys.now) key }
{
    match key {
        Some(key) => {
            let is_listed = keys.contains(&key);
            if these { is_listed } else { !is_listed }
        }
        None => false,
    }
}

// The part without one call, which has to be read-only.
fn without_call(
    alloc: Global,
    kind: Kind,
    left: &Smaller,
    named: Call,
) -> Result<Result<Smaller, StepFault>, NoMemory>
    requires { AreNamesOf (numbers_in left.now.numbers.items) left.now.book }
    ensures left { IfOk result (λ answer. IfOk answer (λ next.
        Leaves kind (numbers_in left.now.numbers.items) left.now.book (Leave named)
        (numbers_in next.numbers.items) next.book)) }
    ensures fault { IfOk result (λ answer. IfErr answer
        (StepFails kind (numbers_in left.now.numbers.items) left.now.book (Leave named))) }
{
    let Some(call) = call_in(left, named) else {
        return Ok(Err(StepFault::Lacks));
    };
    if !is_read_only(kind, &left.book, call) {
        return Ok(Err(StepFault::Changes));
    }
    let places = all_numbers_but(alloc, &left.book, call)?;
    Ok(Ok(part_at(alloc, left, &places)?))
}

// The part with these calls alone, where each other one may go.
fn with_calls(
    alloc: Global,
    kind: Kind,
    left: &Smaller,
    calls: &[Call],
) -> Result<Result<Smaller, StepFault>, NoMemory>
    requires { AreNamesOf (numbers_in left.now.numbers.items) left.now.book }
    ensures left { IfOk result (λ answer. IfOk answer (λ next.
        Leaves kind (numbers_in left.now.numbers.items) left.now.book (Keep calls.now)
        (numbers_in next.numbers.items) next.book)) }
    ensures fault { IfOk result (λ answer. IfErr answer
        (StepFails kind (numbers_in left.now.numbers.items) left.now.book (Keep calls.now))) }
{
    if !has_calls(left, calls) {
        return Ok(Err(StepFault::Lacks));
    }
    let places = places_of(alloc, left, calls)?;
    if first_seen(kind, &left.book, &places).is_some() {
        return Ok(Err(StepFault::Changes));
    }
    Ok(Ok(part_at(alloc, left, &places)?))
}

// Whether each of these calls of the book is in a part.
fn has_calls(left: &Smaller, calls: &[Call]) -> bool
    requires { AreNamesOf (numbers_in left.now.numbers.items) left.now.book }
    ensures { IsTrue result
        ↔ AreCalled (numbers_in left.now.numbers.items) left.now.book calls.now }
{
    for k in 0..calls.len() {
        if call_in(left, calls[k]).is_none() {
            return false;
        }
    }
    true
}

// The places in a part of the calls that are, in the book, among these.
fn places_of(alloc: Global, left: &Smaller, calls: &[Call]) -> Result<Vec<Vec<u64>>, NoMemory>
    requires { AreNamesOf (numbers_in left.now.numbers.items) left.now.book }
    ensures { IfOk result (λ rows. numbers_in rows.items
        ≡ all_listed (numbers_in left.now.numbers.items) calls.now left.now.book) }
{
    let mut rows = Vec::new(alloc);
    for caller in 0..left.book.callers() {
        rows.push(row_of(alloc, left, calls, caller)?)?;
    }
    Ok(rows)
}

// The places in a part of the calls of a caller that are, in the book, among these.
fn row_of(alloc: Global, left: &Smaller, calls: &[Call], caller: u32) -> Result<Vec<u64>, NoMemory>
    requires names { AreNamesOf (numbers_in left.now.numbers.items) left.now.book }
    requires caller { caller < length left.now.book }
    ensures { IfOk result (λ row. row.items
        ≡ row_listed (numbers_in left.now.numbers.items) calls.now left.now.book caller) }
{
    let mut row = Vec::new(alloc);
    for place in 0..left.book.calls(caller) {
        let number = number_of(
            left,
            Call {
                caller,
                number: place,
            },
        );
        let stays = is_listed(calls, Call { caller, number });
        push_if(&mut row, stays, place)?;
    }
    Ok(row)
}

// Whether a call is one of these.
fn is_listed(calls: &[Call], call: Call) -> bool
    ensures { result ≡ is_listed calls.now call }
{
    calls.iter().any(|other| other.caller == call.caller && other.number == call.number)
}

/// The call of a part that is, in the book, the one that is named.
pub(crate) fn call_in(left: &Smaller, named: Call) -> Option<Call>
    // The part is valid, and has a list of numbers for each caller, with a number for each call.
    requires { AreNamesOf (numbers_in left.now.numbers.items) left.now.book }
    // A call that is answered is one of the part, and is the one that is named.
    ensures found { IfSome result
        (IsCalled (numbers_in left.now.numbers.items) left.now.book named) }
    // None is answered only where no call of the part is.
    ensures none { IfNone result ((call : Call)
        → IsCalled (numbers_in left.now.numbers.items) left.now.book named call → ⊥) }
{
    let caller = named.caller;
    if caller >= left.book.callers() {
        return None;
    }
    for number in 0..left.book.calls(caller) {
        if number_of(left, Call { caller, number }) == named.number {
            return Some(Call { caller, number });
        }
    }
    None
}

// The number in the book of a call of a part.
pub(crate) fn number_of(left: &Smaller, call: Call) -> u64
    requires names { AreNamesOf (numbers_in left.now.numbers.items) left.now.book }
    requires call { IsCall left.now.book call }
    ensures { result ≡ slice_index (numbers_of (numbers_in left.now.numbers.items) call.caller)
        call.number }
{
    let _callers = left.book.callers();
    number_at(&left.numbers[call.caller as usize], call.number)
}

// The number at a place of a list.
fn number_at(numbers: &[u64], place: u64) -> u64
    requires { place < length numbers.now }
    ensures { result ≡ slice_index numbers.now place }
{
    numbers[place as usize]
}

// The part of a part that has the calls at these places.
fn part_at(alloc: Global, left: &Smaller, places: &[Vec<u64>]) -> Result<Smaller, NoMemory>
    requires names { AreNamesOf (numbers_in left.now.numbers.items) left.now.book }
    requires places { AreNumbersOf left.now.book (numbers_in places.now) }
    ensures part { IfOk result (λ next.
        HasPlaces left.now.book (numbers_in places.now) next.book) }
    ensures numbers { IfOk result (λ next. numbers_in next.numbers.items
        ≡ composed (numbers_in left.now.numbers.items) (numbers_in places.now)) }
    ensures valid { IfOk result (λ next. IsValid next.book) }
{
    let book = part(alloc, &left.book, places)?;
    let _callers = book.callers();
    let numbers = numbers_through(alloc, &left.numbers, places)?;
    Ok(Smaller { book, numbers })
}
