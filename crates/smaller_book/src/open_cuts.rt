//! Cuts at which each view of a book holds at most one unanswered call of each caller.
ghost use Rattle.std.specs.Prelude.{◌≡◌, ℕ, ◌+◌, ◌<◌, ◌≤◌, false, List, length, slice_index, Some, IfOk};
ghost use Rattle.book_base.specs.declared.call.Call.{Call};
ghost use Rattle.book_base.specs.declared.call.Record.{Record};
ghost use Rattle.book_base.specs.Cut.{IsWithin};
ghost use Rattle.book_base.specs.Book.{IsAnswered, record_of, answered};
ghost use Rattle.book_base.specs.BookAt.{book_at};
ghost use Rattle.book_base.specs.Pruning.{HasOneOpen};
ghost use Rattle.seq_objects.specs.Objects.{kind_spec};
ghost use Rattle.smaller_book.specs.Earliest.{IsIllegalCut, IsLegalBelow, IsLeastOpenCut};

use crate::judging::{calls_of_all, is_illegal_at};
use book_base::{Book, Call, Cut, NoMemory};
use seq_objects::Kind;
use std::alloc::Global;

/// Removes records of one caller after another from a cut at which the book has no legal order. In
/// the end the book has a legal order at each lesser cut, provided that each view of the book at
/// that lesser cut holds at most one unanswered call of each caller.
pub fn least_open_cut(alloc: Global, kind: Kind, book: &Book, cut: Cut) -> Result<Cut, NoMemory>
    requires { IsIllegalCut (kind_spec kind) book.now cut }
    ensures { IfOk result (IsLeastOpenCut (kind_spec kind) book.now) }
{
    let mut least = cut;
    for caller in 0..book.callers() {
        least = least_open_of(alloc, kind, book, least, caller)?;
    }
    Ok(least)
}

// Takes from a cut as many records of a caller as can go while the book has no legal order, and
// with them the records of all callers whose views would hold several unanswered calls of one
// caller. Steps down by 1, 2, 4 and so on are tried first, since most counts are little above the
// least ones; after a legal order the range is halved.
fn least_open_of(
    alloc: Global,
    kind: Kind,
    book: &Book,
    cut: Cut,
    caller: u32,
) -> Result<Cut, NoMemory>
    requires cut { IsIllegalCut (kind_spec kind) book.now cut }
    requires caller { caller < length book.now }
    ensures within { IfOk result (λ least. IsWithin least cut) }
    ensures illegal { IfOk result (IsIllegalCut (kind_spec kind) book.now) }
    ensures least { IfOk result
        (λ least. IsLegalBelow (kind_spec kind) book.now least caller (slice_index least caller)) }
{
    let _callers = book.callers();
    let mut least = cut;
    let mut low = 0;
    let mut step: u64 = 1;
    while low < least.get(caller) {
        let high = least.get(caller);
        let middle = high - step.clamp(1, high - low);
        let tried = open_below(book, &least, caller, middle);
        if is_illegal_at(alloc, kind, book, &tried)? {
            least = tried;
            step = step.saturating_mul(2);
        } else {
            low = middle + 1;
            step = (high - low) / 2;
        }
    }
    Ok(least)
}

// A cut within `cut` that counts at most `count` records of `caller`: records whose views hold
// several unanswered calls of one caller are removed, round after round, until none is. Within the
// answer lies each such cut at which every view holds at most one unanswered call of each caller.
fn open_below(book: &Book, cut: &Cut, caller: u32, count: u64) -> Cut
    requires wide { length cut.now ≡ length book.now }
    requires within { IsWithin cut.now (answered book.now) }
    requires caller { caller < length book.now }
    requires few { count ≤ slice_index cut.now caller }
    ensures wide { length result ≡ length book.now }
    ensures within { IsWithin result cut.now }
    ensures few { slice_index result caller ≤ count }
    ensures greatest { (other : List ℕ) → IsWithin other cut.now → slice_index other caller ≤ count
        → HasOneOpen (book_at other book.now) → IsWithin other result }
{
    let mut kept = *cut;
    kept.set(caller, count);
    for round in 0..calls_of_all(book) {
        let fewer = fewer_open(book, &kept);
        if kept.within(&fewer) {
            return kept;
        }
        kept = fewer;
    }
    kept
}

// The cut without the last records of each caller, as far as their views hold several unanswered
// calls of one caller: at least two calls more than the cut has records of that caller.
fn fewer_open(book: &Book, cut: &Cut) -> Cut
    requires wide { length cut.now ≡ length book.now }
    requires within { IsWithin cut.now (answered book.now) }
    ensures wide { length result ≡ length book.now }
    ensures within { IsWithin result cut.now }
    ensures greatest { (other : List ℕ) → IsWithin other cut.now
        → HasOneOpen (book_at other book.now) → IsWithin other result }
{
    let mut fewer = *cut;
    for caller in 0..book.callers() {
        let count = open_count(book, &fewer, caller);
        fewer.set(caller, count);
    }
    fewer
}

// How many records of a caller remain in a cut after its last ones are removed, as far as their
// views hold several unanswered calls of one caller: at least two calls more than the cut has
// records of that caller.
fn open_count(book: &Book, cut: &Cut, caller: u32) -> u64
    requires wide { length cut.now ≡ length book.now }
    requires within { IsWithin cut.now (answered book.now) }
    requires caller { caller < length book.now }
    ensures few { result ≤ slice_index cut.now caller }
    ensures greatest { (other : List ℕ) → IsWithin other cut.now
        → HasOneOpen (book_at other book.now) → slice_index other caller ≤ result }
{
    let _callers = book.callers();
    let mut count = cut.get(caller);
    while count > 0
        && !holds_one_open(
            book,
            cut,
            Call {
                caller,
                number: count - 1,
            },
        )
    {
        count -= 1;
    }
    count
}

// Whether the view of a call's record counts for each caller at most one call more than the cut has
// records of it.
fn holds_one_open(book: &Book, cut: &Cut, call: Call) -> bool
    requires wide { length cut.now ≡ length book.now }
    requires answered { IsAnswered book.now call }
    ensures { result ≡ false → (r : Record) × (i : ℕ) × (record_of book.now call ≡ Some r)
        × (slice_index cut.now i + 1 < slice_index r.view i) }
{
    let record = book.record(call);
    for other in 0..book.callers() {
        if record.view.get(other).saturating_sub(1) > cut.get(other) {
            return false;
        }
    }
    true
}
