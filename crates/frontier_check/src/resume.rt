ghost use Rattle.std.specs.Prelude.{◌≡◌, ℕ, ◌+◌, ◌<◌, ◌≤◌, ◌⊎◌, length, slice_index_or, take, IfOk, IfSome, IsTrue, OnOk};
ghost use Rattle.frontier_check.specs.declared.kept_order.OrderMark.{OrderMark};
ghost use Rattle.frontier_check.specs.Prefix.{IsBookCapacity, IsPut};
ghost use Rattle.frontier_check.specs.Standing.{IsQuiet, IsAsWide, StillStands, AreMarks};

use crate::kept_order::OrderMark;
use crate::prefix::{INTERVAL, Prefix, leaves_open};
use crate::walk::{empty_state, load};
use book_base::{Book, Cut, NoMemory, Place, SeqObject, State};
use std::alloc::Global;

// Whether no call of a cut was answered since the callers had the numbers `before` of records: for
// each caller, the cut counts no more calls than this number, or the book has no more records of
// the caller than this number.
fn is_quiet(book: &Book, cut: &Cut, before: &Cut) -> bool
    requires cut { length cut.now ≡ length book.now }
    requires before { length before.now ≡ length book.now }
    ensures { IsTrue result → IsQuiet cut.now before.now book.now }
{
    for caller in 0..book.callers() {
        let known = before.get(caller);
        if known < cut.get(caller) && known < book.answers(caller) {
            return false;
        }
    }
    true
}

// Whether the places before a mark may still begin an order of a book: no call of the mark's cut
// was answered since the mark was left, and each answered call that is its caller's next after that
// cut has a view that holds it.
fn still_stands(book: &Book, mark: &OrderMark) -> bool
    requires { IsAsWide book.now mark.now }
    ensures { IsTrue result → StillStands book.now mark.now }
{
    is_quiet(book, &mark.cut, &mark.answered) && leaves_open(book, &mark.cut)
}

// The index of the last mark for which the places before it may still begin an order of a book, if
// there is such a mark.
fn last_standing(book: &Book, marks: &[OrderMark]) -> Option<usize>
    requires { (k : ℕ) (mark : OrderMark) → k < length marks.now
        → mark ≡ slice_index_or marks.now k mark
        → IsAsWide book.now mark }
    ensures within { IfSome result (λ k. k < length marks.now) }
    ensures stands { IfSome result (λ k. (mark : OrderMark) → mark ≡ slice_index_or marks.now k mark
        → StillStands book.now mark) }
{
    for back in 0..marks.len() {
        let index = marks.len() - 1 - back;
        if still_stands(book, &marks[index]) {
            return Some(index);
        }
    }
    None
}

// The places of an order before a mark, as a prefix with the cut and the words of the mark, and the
// other places of the order. The prefix has the state `here`, with these words.
fn prefix_at(
    alloc: Global,
    order: Vec<Place>,
    mark: &OrderMark,
    mut here: State,
) -> Result<(Prefix, Vec<Place>), NoMemory>
    requires len { mark.now.len ≤ length order.items }
    requires words { length mark.now.words.items ≤ here.room }
    ensures places { IfOk result (λ r. r.0.places.items ≡ take mark.now.len order.items) }
    ensures cut { IfOk result (λ r. r.0.cut ≡ mark.now.cut) }
    ensures words { IfOk result (λ r. r.0.here.words ≡ mark.now.words.items) }
    ensures room { IfOk result (λ r. r.0.here.room ≡ here.room) }
{
    load(&mut here, &mark.words);
    let later = Vec::from_slice(alloc, &order[mark.len..])?;
    let mut places = order;
    places.truncate(mark.len);
    let prefix = Prefix {
        places,
        cut: mark.cut,
        here,
    };
    Ok((prefix, later))
}

// How many of an order's first marks are kept where places are put after the mark with the index
// `index`, which has `len` places before it: the marks before it, and the mark itself where `len`
// is a multiple of `INTERVAL`.
fn kept_of(index: usize, len: usize) -> usize
    ensures { result ≤ index + 1 }
{
    if len % INTERVAL == 0 {
        index.saturating_add(1)
    } else {
        index
    }
}

/// Splits an order at its last mark that still stands: the last one for which the places before it
/// may still begin an order of the book. Answers the places before that mark as a prefix, and the
/// other places. The marks after that mark are removed, and the mark itself too where the number of
/// places before it isn't a multiple of `INTERVAL`. Where no mark still stands, the prefix without
/// places and the whole order are answered, and all marks are removed.
pub fn resume<S: SeqObject>(
    alloc: Global,
    object: &S,
    book: &Book,
    order: Vec<Place>,
    marks: &mut Vec<OrderMark>,
) -> Result<(Prefix, Vec<Place>), NoMemory>
    requires marks { AreMarks (S.spec object.now) book.now order.items 0 marks.old.items }
    ensures put { IfOk result (λ r. IsPut (S.spec object.now) book.now r.0) }
    ensures room { IfOk result (λ r. IsBookCapacity (S.spec object.now) r.0.here.room) }
    ensures marks { IfOk result
        (λ r. AreMarks (S.spec object.now) book.now r.0.places.items 0 marks.new.items) }
    ensures fewer { OnOk result ((n : ℕ) × (marks.new.items ≡ take n marks.old.items)) }
{
    match last_standing(book, marks) {
        None => {
            marks.clear();
            Ok((Prefix::new(alloc, object, book)?, order))
        }
        Some(index) => {
            // This call is for its contract, by which the book is valid and has no more callers and
            // calls than a book may have.
            let _callers = book.callers();
            let here = empty_state(alloc, object)?;
            let found = prefix_at(alloc, order, &marks[index], here)?;
            let kept = kept_of(index, marks[index].len);
            marks.truncate(kept);
            Ok(found)
        }
    }
}
