//! The book at the earliest cuts at which it has no legal order.
ghost use Rattle.std.specs.Prelude.{◌≡◌, ℕ, ◌<◌, ◌≤◌, length, slice_index, slice_set, IfOk, IfSome, IsTrue};
ghost use Rattle.book_base.specs.Cut.{IsWithin};
ghost use Rattle.book_base.specs.Book.{answers_of, answered};
ghost use Rattle.book_base.specs.Order.{HasLegalOrder};
ghost use Rattle.seq_objects.specs.Objects.{kind_spec};
ghost use Rattle.smaller_book.specs.Numbers.{numbers_in};
ghost use Rattle.smaller_book.specs.Minimal.{IsSmaller};
ghost use Rattle.smaller_book.specs.Earliest.{IsAtSomeCut, IsEarliest, IsIllegalCut, IsLeastAt, IsLeastCut};

use crate::FEW_CALLS;
use crate::composing::numbers_of_all;
use crate::judging::{breaks_rule_at, calls_of_all, is_illegal_at, is_large_and_open_at};
use crate::open_cuts::least_open_cut;
use crate::removal::{Smaller, has_fewer};
use book_base::{Book, Call, Cut, NoMemory};
use seq_objects::Kind;
use std::alloc::Global;

/// The book at a cut at which it has no legal order; the result has a legal order at each earlier
/// cut at which it is tried. Its calls are those that its views hold.
///
/// Where a book has no legal order at a cut, it has none at any later cut (Castañeda and Rodríguez
/// 2023), so that cuts are found by halving. The first cut holds the records whose views hold at
/// most n calls, for the least n with which the book has no legal order. From this cut records are
/// removed, first while the book breaks a rule, which needs no search, and then while it has no
/// legal order. With each record that is gone a search for an order has more to try, until few
/// calls are left. So where more than `FEW_CALLS` calls are left, and each view holds at most one
/// unanswered call of each caller, only cuts are tried at which each view still holds at most one.
pub fn earliest(alloc: Global, kind: Kind, book: &Book) -> Result<Book, NoMemory>
    // The book has no legal order.
    requires { ¬ HasLegalOrder (kind_spec kind) book.now }
    // The answer is the book at some cut within its records.
    ensures at_cut { IfOk result (IsAtSomeCut book.now) }
    // The part has no legal order.
    ensures illegal { IfOk result (λ part. ¬ HasLegalOrder (kind_spec kind) part) }
    // The part has a legal order at each cut that lacks a record of the part and at which the part
    // is tried; and each call of the part is in some view.
    ensures earliest { IfOk result (IsEarliest (kind_spec kind)) }
{
    let _callers = book.callers();
    let begun = first_illegal(alloc, kind, book)?;
    let broken = least_broken(alloc, kind, book, begun)?;
    let cut = least_cut(alloc, kind, book, broken)?;
    let part = book.at(alloc, &cut)?;
    Ok(part)
}

// A cut at which the book has no legal order, while it has one at each lesser cut at which the book
// at this cut is tried. It is found by removing records from `cut`. Where the book at `cut` has at
// most `FEW_CALLS` calls, or a view that holds several unanswered calls of one caller, any record
// may go; else first only records without which each view still holds at most one unanswered call
// of each caller.
fn least_cut(alloc: Global, kind: Kind, book: &Book, cut: Cut) -> Result<Cut, NoMemory>
    requires { IsIllegalCut (kind_spec kind) book.now cut }
    ensures { IfOk result (IsLeastCut (kind_spec kind) book.now) }
{
    let _callers = book.callers();
    if !is_large_and_open_at(alloc, book, &cut)? {
        return least_of_all(alloc, kind, book, cut);
    }
    let least = least_open_cut(alloc, kind, book, cut)?;
    if is_large_and_open_at(alloc, book, &least)? {
        Ok(least)
    } else {
        least_of_all(alloc, kind, book, least)
    }
}

/// The book at a cut at which it has no legal order: the cut of the records whose views hold at
/// most n calls, for the least n with which there is no legal order. No book is answered where the
/// book at this cut has no fewer calls.
pub fn without_later(alloc: Global, kind: Kind, book: &Book) -> Result<Option<Smaller>, NoMemory>
    // The book has no legal order.
    requires { ¬ HasLegalOrder (kind_spec kind) book.now }
    ensures { IfOk result (λ found. IfSome found (λ smaller.
        IsSmaller kind book.now (numbers_in smaller.numbers.items) smaller.book)) }
{
    let _callers = book.callers();
    let cut = first_illegal(alloc, kind, book)?;
    smaller_at(alloc, kind, book, &cut)
}

/// The book at a cut at which it has no legal order, while it has one at each lesser cut at which
/// each view holds at most one unanswered call of each caller. No book is answered where the book
/// at this cut has no fewer calls, or where the whole book has at most `FEW_CALLS` calls.
pub fn without_open(alloc: Global, kind: Kind, book: &Book) -> Result<Option<Smaller>, NoMemory>
    // The book has no legal order.
    requires { ¬ HasLegalOrder (kind_spec kind) book.now }
    ensures { IfOk result (λ found. IfSome found (λ smaller.
        IsSmaller kind book.now (numbers_in smaller.numbers.items) smaller.book)) }
{
    let _callers = book.callers();
    if calls_of_all(book) <= FEW_CALLS {
        return Ok(None);
    }
    let cut = least_open_cut(alloc, kind, book, all_records(book))?;
    smaller_at(alloc, kind, book, &cut)
}

// The book at a cut at which it has no legal order, where it has fewer calls there than in all.
fn smaller_at(
    alloc: Global,
    kind: Kind,
    book: &Book,
    cut: &Cut,
) -> Result<Option<Smaller>, NoMemory>
    requires { IsIllegalCut (kind_spec kind) book.now cut.now }
    ensures { IfOk result (λ found. IfSome found (λ smaller.
        IsSmaller kind book.now (numbers_in smaller.numbers.items) smaller.book)) }
{
    let _callers = book.callers();
    let part = book.at(alloc, cut)?;
    if !has_fewer(&part, book) {
        return Ok(None);
    }
    let numbers = numbers_of_all(alloc, &part)?;
    Ok(Some(Smaller {
        book: part,
        numbers,
    }))
}

// The cut that holds all records of a book.
fn all_records(book: &Book) -> Cut
    ensures { result ≡ answered book.now }
{
    let mut cut = Cut::zero(book.callers());
    for caller in 0..book.callers() {
        cut.set(caller, book.answers(caller));
    }
    cut
}

// A cut at which the book has no legal order: it holds each caller's first records whose views hold
// at most some number of calls, for the least number that halving finds. A number with which the
// cut found so far would lose no record needs no search.
fn first_illegal(alloc: Global, kind: Kind, book: &Book) -> Result<Cut, NoMemory>
    requires { ¬ HasLegalOrder (kind_spec kind) book.now }
    ensures { IfOk result (IsIllegalCut (kind_spec kind) book.now) }
{
    let _callers = book.callers();
    let mut cut = all_records(book);
    let mut low = 0;
    let mut high = calls_of_all(book);
    while low < high {
        let middle = low + (high - low) / 2;
        let tried = records_up_to(book, middle);
        if cut.within(&tried) {
            high = middle;
        } else if is_illegal_at(alloc, kind, book, &tried)? {
            cut = tried;
            high = middle;
        } else {
            low = middle + 1;
        }
    }
    Ok(cut)
}

// The cut that holds each caller's first records whose views hold at most this many calls.
fn records_up_to(book: &Book, most: u64) -> Cut
    ensures wide { length result ≡ length book.now }
    ensures within { IsWithin result (answered book.now) }
{
    let mut cut = Cut::zero(book.callers());
    for caller in 0..book.callers() {
        cut.set(caller, count_up_to(book, caller, most));
    }
    cut
}

// How many records a caller has before the first one whose view holds more than this many calls.
fn count_up_to(book: &Book, caller: u32, most: u64) -> u64
    requires { caller < length book.now }
    ensures { result ≤ answers_of book.now caller }
{
    for number in 0..book.answers(caller) {
        let record = book.record(Call { caller, number });
        if held_by(&record.view) > most {
            return number;
        }
    }
    book.answers(caller)
}

// How many calls a view holds.
fn held_by(view: &Cut) -> u64 {
    let mut held: u64 = 0;
    for count in view.counts() {
        held = held.saturating_add(*count);
    }
    held
}

// Takes records from a cut, of one caller after another, while the book is found to break a rule at
// the cut. Where it isn't found to break one at the given cut, this cut is the answer.
fn least_broken(alloc: Global, kind: Kind, book: &Book, cut: Cut) -> Result<Cut, NoMemory>
    requires { IsIllegalCut (kind_spec kind) book.now cut }
    ensures { IfOk result (IsIllegalCut (kind_spec kind) book.now) }
{
    let mut least = cut;
    if !breaks_rule_at(alloc, kind, book, &cut)? {
        return Ok(least);
    }
    for caller in 0..book.callers() {
        let count = broken_count(alloc, kind, book, &least, caller)?;
        least.set(caller, count);
    }
    Ok(least)
}

// A lower count for a caller: with it in the cut, in place of the caller's count there, the book is
// still found to break a rule. Where no lower count is found, the answer is the caller's count in
// the cut. The count 0 is tried first, since most callers have nothing to do with a rule, and then
// the range is halved.
fn broken_count(
    alloc: Global,
    kind: Kind,
    book: &Book,
    cut: &Cut,
    caller: u32,
) -> Result<u64, NoMemory>
    requires cut { IsIllegalCut (kind_spec kind) book.now cut.now }
    requires caller { caller < length book.now }
    ensures { IfOk result
        (λ count. IsIllegalCut (kind_spec kind) book.now (slice_set cut.now caller count)) }
{
    if is_broken_with(alloc, kind, book, cut, caller, 0)? {
        return Ok(0);
    }
    let mut low = 1;
    let mut high = cut.get(caller);
    while low < high {
        let middle = low + (high - low) / 2;
        if is_broken_with(alloc, kind, book, cut, caller, middle)? {
            high = middle;
        } else {
            low = middle + 1;
        }
    }
    Ok(high)
}

// Whether the book is found to break a rule at `cut` with its count for `caller` replaced by
// `count`.
fn is_broken_with(
    alloc: Global,
    kind: Kind,
    book: &Book,
    cut: &Cut,
    caller: u32,
    count: u64,
) -> Result<bool, NoMemory>
    requires cut { IsIllegalCut (kind_spec kind) book.now cut.now }
    requires caller { caller < length book.now }
    requires few { count ≤ slice_index cut.now caller }
    ensures { IfOk result (λ found. IsTrue found
        → IsIllegalCut (kind_spec kind) book.now (slice_set cut.now caller count)) }
{
    let tried = with_count(cut, caller, count);
    let found = breaks_rule_at(alloc, kind, book, &tried)?;
    Ok(found)
}

// Takes from a cut, of one caller after another, as many records as can go while the book has no
// legal order at the cut.
fn least_of_all(alloc: Global, kind: Kind, book: &Book, cut: Cut) -> Result<Cut, NoMemory>
    requires { IsIllegalCut (kind_spec kind) book.now cut }
    ensures { IfOk result (IsLeastCut (kind_spec kind) book.now) }
{
    let mut least = cut;
    for caller in 0..book.callers() {
        let count = least_count(alloc, kind, book, &least, caller)?;
        least.set(caller, count);
    }
    Ok(least)
}

// The least count for a caller with which the book has no legal order, where the other counts of
// the cut stay. Steps down by 1, 2, 4 and so on are tried first, since most counts are little above
// the least ones; after a legal order the range is halved.
fn least_count(
    alloc: Global,
    kind: Kind,
    book: &Book,
    cut: &Cut,
    caller: u32,
) -> Result<u64, NoMemory>
    requires cut { IsIllegalCut (kind_spec kind) book.now cut.now }
    requires caller { caller < length book.now }
    ensures few { IfOk result (λ count. count ≤ slice_index cut.now caller) }
    ensures illegal { IfOk result
        (λ count. IsIllegalCut (kind_spec kind) book.now (slice_set cut.now caller count)) }
    ensures least { IfOk result
        (λ count. IsLeastAt (kind_spec kind) book.now (slice_set cut.now caller count) caller) }
{
    let mut low = 0;
    let mut high = cut.get(caller);
    let mut step: u64 = 1;
    while low < high {
        let middle = high - step.clamp(1, high - low);
        let tried = with_count(cut, caller, middle);
        if is_illegal_at(alloc, kind, book, &tried)? {
            high = middle;
            step = step.saturating_mul(2);
        } else {
            low = middle + 1;
            step = (high - low) / 2;
        }
    }
    Ok(high)
}

// The cut with its count of a caller replaced by this one.
fn with_count(cut: &Cut, caller: u32, count: u64) -> Cut
    requires { caller < length cut.now }
    ensures { result ≡ slice_set cut.now caller count }
{
    let mut changed = *cut;
    changed.set(caller, count);
    changed
}
