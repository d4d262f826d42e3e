ghost use Rattle.std.specs.Prelude.{◌≡◌, ◌↔◌, ◌⊎◌, ℕ, ◌<◌, false, length, Some, IfSome, IsTrue};
ghost use Rattle.book_base.specs.SeqSpec.{SeqSpec};
ghost use Rattle.book_base.specs.Book.{IsCall, operation_of};
ghost use Rattle.book_base.specs.Next.{next_call, MayComeNext};
ghost use Rattle.book_base.specs.Pruning.{HasOneOpen, IsForced, IsReached};
ghost use Rattle.search_hints.specs.Marks.{IsMarked, IsMarkedWithin, MarksAllNext, MarksSuffice};
ghost use Rattle.legal_orders.specs.Container.{Takes};
ghost use Rattle.list_pruning.specs.Sights.{ListsValues};
ghost use Rattle.list_pruning.specs.LeastFirst.{GivesLeastFirst, IsBelowFirst, IsNeverFirst, IsRising, IsTakenByNone, IsUnwanted, CouldTake, PutsLeast, TakesFirst};

use crate::outside::reads_outside;
use crate::sight::is_put_once;
use crate::takes::next_least_take;
use crate::values::{value_put, value_taken};
use book_base::{Book, Call, Cut};
use legal_orders::{Reader, Role};
use search_hints::{MarkedCallers, Sight};

/// The callers whose next calls a search has to try, in the book of a priority queue: some of the
/// marked callers, and these marks suffice. No clause says which.
///
/// The answer is the first of three that there is:
///
/// - one caller alone, whose next call takes the least item, with the least view of all answered
///   calls outside the cut that take this value, also of those that may not come next yet;
/// - one caller alone, whose next call is the only put of a value below all items, where the take
///   of this value with the least view may come next too;
/// - all marked callers but those, other than the forced one, whose next calls put in a value that
///   isn't below all items, or that no call which may come next may take.
pub fn narrow_least_first<R: Reader>(
    reader: &R,
    sight: &Sight,
    book: &Book,
    cut: &Cut,
    words: &[u64],
    forced: u32,
    marks: MarkedCallers,
) -> MarkedCallers
    // The sight lists each call of the book that puts in a value, and each answered one that takes
    // it out.
    requires sight { ListsValues (R.reading reader.now) book.now sight.now }
    // Each view of the book holds at most one unanswered call of each caller.
    requires open { HasOneOpen book.now }
    // The cut has a count for each caller of the book.
    requires wide { length cut.now ≡ length book.now }
    // Of all answered calls outside the cut the forced caller's first one has the least view.
    requires forced { IsForced book.now cut.now forced }
    // Exactly those callers are marked whose next calls after the cut may come next.
    requires marks { MarksAllNext book.now cut.now marks }
    // Each caller that the answer marks was marked.
    ensures fewer { IsMarkedWithin result marks }
    // For each object that gives its least value first and begins with a rising list, at a list
    // that some order reaches with this cut: where places continue an order from the cut and the
    // list, as many or fewer that begin with the next call of a caller that the answer marks do
    // too.
    ensures suffice { (spec : SeqSpec) (bound : ℕ)
        → GivesLeastFirst (R.reading reader.now) spec.next bound → IsRising bound spec.init
        → IsReached spec book.now cut.now words.now
        → MarksSuffice book.now spec.next cut.now words.now result }
{
    let _callers = book.callers();
    if let Some(caller) = first_take(reader, book, cut, words, marks) {
        return MarkedCallers::only(caller);
    }
    if let Some(caller) = least_put(reader, sight, book, cut, words, marks) {
        return MarkedCallers::only(caller);
    }
    without_unwanted(reader, book, cut, words, forced, marks)
}

// A marked caller whose next call takes the first of `words`, with the least view of all answered
// calls outside the cut that take this value.
fn first_take<R: Reader>(
    reader: &R,
    book: &Book,
    cut: &Cut,
    words: &[u64],
    marks: MarkedCallers,
) -> Option<u32>
    requires wide { length cut.now ≡ length book.now }
    ensures caller { IfSome result (λ i. i < length book.now) }
    ensures marked { IfSome result (IsMarked marks) }
    ensures take { IfSome result (TakesFirst (R.reading reader.now) book.now cut.now words.now) }
{
    match words.first() {
        Some(low) => next_least_take(reader, book, cut, marks, *low),
        None => None,
    }
}

// A marked caller whose next call is the only one that puts in some value less than all items,
// where the value's take with the least view may come next.
fn least_put<R: Reader>(
    reader: &R,
    sight: &Sight,
    book: &Book,
    cut: &Cut,
    words: &[u64],
    marks: MarkedCallers,
) -> Option<u32>
    requires sight { ListsValues (R.reading reader.now) book.now sight.now }
    requires wide { length cut.now ≡ length book.now }
    requires marks { MarksAllNext book.now cut.now marks }
    ensures caller { IfSome result (λ i. i < length book.now) }
    ensures marked { IfSome result (IsMarked marks) }
    ensures put { IfSome result (PutsLeast (R.reading reader.now) book.now cut.now words.now) }
{
    for caller in 0..book.callers() {
        if marks.has(caller) && puts_least(reader, sight, book, cut, words, marks, caller) {
            return Some(caller);
        }
    }
    None
}

// Whether a marked caller's next call is the only one that puts in some value less than all items,
// and the value's take with the least view may come next.
fn puts_least<R: Reader>(
    reader: &R,
    sight: &Sight,
    book: &Book,
    cut: &Cut,
    words: &[u64],
    marks: MarkedCallers,
    caller: u32,
) -> bool
    requires sight { ListsValues (R.reading reader.now) book.now sight.now }
    requires wide { length cut.now ≡ length book.now }
    requires marks { MarksAllNext book.now cut.now marks }
    requires caller { caller < length book.now }
    requires marked { IsMarked marks caller }
    ensures { IsTrue result → PutsLeast (R.reading reader.now) book.now cut.now words.now caller }
{
    let put = Call {
        caller,
        number: cut.get(caller),
    };
    let Some(value) = value_put(reader, book, put) else {
        return false;
    };
    if !is_below_first(words, value) {
        return false;
    }
    if !is_put_once(sight, value) {
        return false;
    }
    next_least_take(reader, book, cut, marks, value).is_some()
}

// Whether a value is less than the first of `words`, or there is no word.
fn is_below_first(words: &[u64], value: u64) -> bool
    ensures { IsTrue result ↔ IsBelowFirst value words.now }
{
    match words.first() {
        Some(low) => value < *low,
        None => true,
    }
}

// The marked callers but those, other than the forced one, whose next calls put in a value that
// isn't below all items, or that no call which may come next may take.
fn without_unwanted<R: Reader>(
    reader: &R,
    book: &Book,
    cut: &Cut,
    words: &[u64],
    forced: u32,
    marks: MarkedCallers,
) -> MarkedCallers
    requires wide { length cut.now ≡ length book.now }
    requires marks { MarksAllNext book.now cut.now marks }
    ensures fewer { IsMarkedWithin result marks }
    ensures unwanted { (i : ℕ) → IsMarked marks i → IsMarked result i
        ⊎ IsUnwanted (R.reading reader.now) book.now cut.now words.now forced i }
{
    let mut left = marks;
    for caller in 0..book.callers() {
        if marks.has(caller) && is_unwanted(reader, book, cut, words, forced, marks, caller) {
            left = left.without(caller);
        }
    }
    left
}

// Whether a marked caller's next call isn't the forced one, and puts in a value that isn't below
// all items, or that no call which may come next may take.
fn is_unwanted<R: Reader>(
    reader: &R,
    book: &Book,
    cut: &Cut,
    words: &[u64],
    forced: u32,
    marks: MarkedCallers,
    caller: u32,
) -> bool
    requires wide { length cut.now ≡ length book.now }
    requires marks { MarksAllNext book.now cut.now marks }
    requires caller { caller < length book.now }
    requires call { IsCall book.now (next_call cut.now caller) }
    ensures { IsTrue result
        → IsUnwanted (R.reading reader.now) book.now cut.now words.now forced caller }
{
    if caller == forced {
        return false;
    }
    let put = Call {
        caller,
        number: cut.get(caller),
    };
    let Some(value) = value_put(reader, book, put) else {
        return false;
    };
    if is_wanted(reader, book, cut, words, marks, value) {
        return false;
    }
    true
}

// Whether a value is less than all items, and a call that may come next may take it out.
fn is_wanted<R: Reader>(
    reader: &R,
    book: &Book,
    cut: &Cut,
    words: &[u64],
    marks: MarkedCallers,
    value: u64,
) -> bool
    requires wide { length cut.now ≡ length book.now }
    requires marks { MarksAllNext book.now cut.now marks }
    ensures { result ≡ false
        → IsNeverFirst (R.reading reader.now) book.now cut.now words.now value }
{
    if !is_below_first(words, value) {
        return false;
    }
    may_be_taken(reader, book, cut, marks, value)
}

// Whether some marked caller's next call may take out the value `value`.
fn may_be_taken<R: Reader>(
    reader: &R,
    book: &Book,
    cut: &Cut,
    marks: MarkedCallers,
    value: u64,
) -> bool
    requires wide { length cut.now ≡ length book.now }
    requires marks { MarksAllNext book.now cut.now marks }
    ensures { result ≡ false → IsTakenByNone (R.reading reader.now) book.now cut.now value }
{
    for caller in 0..book.callers() {
        if next_may_take(reader, book, cut, marks, value, caller) {
            return true;
        }
    }
    false
}

// Whether a caller is marked, and its next call is a take that is unanswered or shows the value.
fn next_may_take<R: Reader>(
    reader: &R,
    book: &Book,
    cut: &Cut,
    marks: MarkedCallers,
    value: u64,
    caller: u32,
) -> bool
    requires wide { length cut.now ≡ length book.now }
    requires marks { MarksAllNext book.now cut.now marks }
    requires caller { caller < length book.now }
    ensures { result ≡ false → MayComeNext book.now cut.now (next_call cut.now caller)
        → CouldTake (R.reading reader.now) book.now (next_call cut.now caller) value → ⊥ }
{
    if !marks.has(caller) {
        return false;
    }
    let number = cut.get(caller);
    let call = Call { caller, number };
    if number < book.answers(caller) {
        return reads_outside(reader, book, cut, call, value);
    }
    is_take(reader, book, call)
}

// Whether a call's operation is a take.
fn is_take<R: Reader>(reader: &R, book: &Book, call: Call) -> bool
    requires { IsCall book.now call }
    ensures { result ≡ false → (op : ℕ) → operation_of book.now call ≡ Some op
        → (R.reading reader.now).deed op ≡ Takes → ⊥ }
{
    match reader.role(book.op(call)) {
        Role::Take => true,
        Role::Put(_) | Role::Other => false,
    }
}
