ghost use Rattle.std.specs.Prelude.{◌≡◌, ℕ, ◌<◌, List, length, IfSome, IsTrue};
ghost use Rattle.book_base.specs.SeqSpec.{SeqSpec};
ghost use Rattle.book_base.specs.Next.{next_call};
ghost use Rattle.book_base.specs.Pruning.{HasOneOpen, IsForced, IsReached};
ghost use Rattle.search_hints.specs.Marks.{IsMarked, IsMarkedWithin, MarksAllNext, MarksSuffice};
ghost use Rattle.list_pruning.specs.Sights.{ListsValues};
ghost use Rattle.list_pruning.specs.LastFirst.{GivesLastFirst, HasTop, IsSmall, PutsKept, PutsPaired, StandFor, TakesLast};

use crate::again::puts_are_next_or_later;
use crate::forced::{forced_take, without_needless};
use crate::kept::kept_put;
use crate::top::Top;
use crate::words::{holds, last_word};
use crate::{is_put_once, next_least_take, value_put};
use book_base::{Book, Call, Cut};
use legal_orders::Reader;
use search_hints::{MarkedCallers, Sight};

/// The callers whose next calls a search has to try at a list of a stack: some of the marked
/// callers, and these marks suffice.
///
/// It is one caller alone where some marked caller's next call is one of three, looked for in this
/// order:
///
/// - a take of the last item, with the least view of all answered calls outside the cut that take
///   this value, if each call outside the cut that puts the value in may come next or is preceded
///   by the take;
/// - the only put of a value that isn't in the list, if the take of this value with the least view
///   may come next too;
/// - an answered put of a value that no answered call outside the cut takes, if no answered call
///   outside the cut takes an item of the list or finds nothing.
///
/// Otherwise it is all marked callers. Where the forced call is a take, those are left out whose
/// next calls put in the last item, or a value that this take doesn't show.
pub fn narrow_last_first<R: Reader>(
    reader: &R,
    sight: &Sight,
    book: &Book,
    cut: &Cut,
    words: &[u64],
    forced: u32,
    marks: MarkedCallers,
) -> MarkedCallers
    // The sight lists each call of the book that puts in a value, and each answered one that takes
    // it out.
    requires sight { ListsValues (R.reading reader.now) book.now sight.now }
    // Each view of the book holds at most one unanswered call of each caller.
    requires open { HasOneOpen book.now }
    // The cut has a count for each caller of the book.
    requires wide { length cut.now ≡ length book.now }
    // Of all answered calls outside the cut the forced caller's first one has the least view.
    requires forced { IsForced book.now cut.now forced }
    // The callers are marked whose next calls may come next after the cut, and no others.
    requires marks { MarksAllNext book.now cut.now marks }
    // Each caller that the answer marks was marked.
    ensures fewer { IsMarkedWithin result marks }
    // For each object that gives its last value first and begins with items below a bound, where
    // some order reaches this cut and list: where places continue an order from there, as many or
    // fewer that begin with the next call of a caller that the answer marks do too.
    ensures suffice { (spec : SeqSpec) (bound : ℕ)
        → GivesLastFirst (R.reading reader.now) spec.next bound → IsSmall bound spec.init
        → IsReached spec book.now cut.now words.now
        → MarksSuffice book.now spec.next cut.now words.now result }
{
    narrow_by(reader, sight, book, cut, words, words, true, forced, marks)
}

/// The callers whose next calls a search has to try at each list of a stack that has this top. They
/// are chosen as [`narrow_last_first`] chooses them at one list. A value that is put in once, by a
/// call that may come next, is in no list with the top, since each item is put in by a call of the
/// cut.
pub fn narrow_by_top<R: Reader>(
    reader: &R,
    sight: &Sight,
    book: &Book,
    cut: &Cut,
    top: Top,
    forced: u32,
    marks: MarkedCallers,
) -> MarkedCallers
    // The sight lists each call of the book that puts in a value, and each answered one that takes
    // it out.
    requires sight { ListsValues (R.reading reader.now) book.now sight.now }
    // Each view of the book holds at most one unanswered call of each caller.
    requires open { HasOneOpen book.now }
    // The cut has a count for each caller of the book.
    requires wide { length cut.now ≡ length book.now }
    // Of all answered calls outside the cut the forced caller's first one has the least view.
    requires forced { IsForced book.now cut.now forced }
    // The callers are marked whose next calls may come next after the cut, and no others.
    requires marks { MarksAllNext book.now cut.now marks }
    // Each caller that the answer marks was marked.
    ensures fewer { IsMarkedWithin result marks }
    // For each object that gives its last value first, and each list with this top: where places
    // continue an order from the cut and the list, as many or fewer that begin with the next call
    // of a caller that the answer marks do too.
    ensures suffice { (next : List ℕ → ℕ → List ℕ × ℕ) (bound : ℕ) (list : List ℕ)
        → GivesLastFirst (R.reading reader.now) next bound
        → HasTop (R.reading reader.now) book.now cut.now bound top list
        → MarksSuffice book.now next cut.now list result }
{
    match top.last {
        Some(value) => narrow_by(
            reader,
            sight,
            book,
            cut,
            &[value],
            &[],
            top.kept,
            forced,
            marks,
        ),
        None => narrow_by(reader, sight, book, cut, &[], &[], top.kept, forced, marks),
    }
}

// The callers whose next calls a search has to try at each list for which two lists of words stand,
// as `StandFor` says: the list ends with the last word of `ends`, and lacks each value that isn't
// among `others` and that a caller's next call, and no other call, puts in. Whether all of `others`
// are kept is looked at only where `look` is true.
fn narrow_by<R: Reader>(
    reader: &R,
    sight: &Sight,
    book: &Book,
    cut: &Cut,
    ends: &[u64],
    others: &[u64],
    look: bool,
    forced: u32,
    marks: MarkedCallers,
) -> MarkedCallers
    requires sight { ListsValues (R.reading reader.now) book.now sight.now }
    requires open { HasOneOpen book.now }
    requires wide { length cut.now ≡ length book.now }
    requires forced { IsForced book.now cut.now forced }
    requires marks { MarksAllNext book.now cut.now marks }
    ensures fewer { IsMarkedWithin result marks }
    ensures suffice { (next : List ℕ → ℕ → List ℕ × ℕ) (bound : ℕ) (list : List ℕ)
        → GivesLastFirst (R.reading reader.now) next bound
        → IsSmall bound list
        → StandFor (R.reading reader.now) book.now cut.now ends.now others.now look list
        → MarksSuffice book.now next cut.now list result }
{
    let _callers = book.callers();
    if let Some(caller) = last_take(reader, book, cut, ends, marks) {
        return MarkedCallers::only(caller);
    }
    if let Some(caller) = paired_put(reader, sight, book, cut, others, marks) {
        return MarkedCallers::only(caller);
    }
    if let Some(caller) = put_if_kept(reader, sight, book, cut, others, look, marks) {
        return MarkedCallers::only(caller);
    }
    match forced_take(reader, book, cut, forced) {
        Some(shown) => without_needless(reader, book, cut, ends, shown, marks),
        None => marks,
    }
}

// A marked caller whose next call is answered and puts in a kept value, where all of `others` are
// kept too and no answered call outside the cut finds nothing. It is `None` where `look` is false.
fn put_if_kept<R: Reader>(
    reader: &R,
    sight: &Sight,
    book: &Book,
    cut: &Cut,
    others: &[u64],
    look: bool,
    marks: MarkedCallers,
) -> Option<u32>
    requires sight { ListsValues (R.reading reader.now) book.now sight.now }
    requires wide { length cut.now ≡ length book.now }
    requires marks { MarksAllNext book.now cut.now marks }
    ensures look { IfSome result (λ _. IsTrue look) }
    ensures caller { IfSome result (λ i. i < length book.now) }
    ensures marked { IfSome result (IsMarked marks) }
    ensures put { IfSome result (PutsKept (R.reading reader.now) book.now cut.now others.now) }
{
    if look {
        kept_put(reader, sight, book, cut, others, marks)
    } else {
        None
    }
}

// A marked caller whose next call takes the last of `words`, with the least view of all answered
// calls outside the cut that take this value, where each call outside the cut that puts the value
// in may come next, or is preceded by the take.
fn last_take<R: Reader>(
    reader: &R,
    book: &Book,
    cut: &Cut,
    words: &[u64],
    marks: MarkedCallers,
) -> Option<u32>
    requires wide { length cut.now ≡ length book.now }
    requires marks { MarksAllNext book.now cut.now marks }
    ensures caller { IfSome result (λ i. i < length book.now) }
    ensures marked { IfSome result (IsMarked marks) }
    ensures take { IfSome result (TakesLast (R.reading reader.now) book.now cut.now words.now) }
{
    let value = last_word(words)?;
    let caller = next_least_take(reader, book, cut, marks, value)?;
    if !puts_are_next_or_later(reader, book, cut, marks, caller, value) {
        return None;
    }
    Some(caller)
}

// A marked caller whose next call is the only one that puts in some value, which isn't among
// `words`, where the take of this value with the least view may come next.
fn paired_put<R: Reader>(
    reader: &R,
    sight: &Sight,
    book: &Book,
    cut: &Cut,
    words: &[u64],
    marks: MarkedCallers,
) -> Option<u32>
    requires sight { ListsValues (R.reading reader.now) book.now sight.now }
    requires wide { length cut.now ≡ length book.now }
    requires marks { MarksAllNext book.now cut.now marks }
    ensures caller { IfSome result (λ i. i < length book.now) }
    ensures marked { IfSome result (IsMarked marks) }
    ensures put { IfSome result (PutsPaired (R.reading reader.now) book.now cut.now words.now) }
{
    for caller in 0..book.callers() {
        if marks.has(caller) && puts_paired(reader, sight, book, cut, words, marks, caller) {
            return Some(caller);
        }
    }
    None
}

// Whether a marked caller's next call is the only one that puts in some value, which isn't among
// `words`, and the take of this value with the least view may come next.
fn puts_paired<R: Reader>(
    reader: &R,
    sight: &Sight,
    book: &Book,
    cut: &Cut,
    words: &[u64],
    marks: MarkedCallers,
    caller: u32,
) -> bool
    requires sight { ListsValues (R.reading reader.now) book.now sight.now }
    requires wide { length cut.now ≡ length book.now }
    requires marks { MarksAllNext book.now cut.now marks }
    requires caller { caller < length book.now }
    requires marked { IsMarked marks caller }
    ensures { IsTrue result → PutsPaired (R.reading reader.now) book.now cut.now words.now caller }
{
    let put = Call {
        caller,
        number: cut.get(caller),
    };
    let Some(value) = value_put(reader, book, put) else {
        return false;
    };
    if !is_put_once(sight, value) {
        return false;
    }
    if holds(words, value) {
        return false;
    }
    next_least_take(reader, book, cut, marks, value).is_some()
}
