ghost use Rattle.std.specs.Prelude.{◌≡◌, ℕ, ◌<◌, ◌≤◌, false, length, slice_index, IfSome, IsTrue};
ghost use Rattle.book_base.specs.declared.call.Call.{Call};
ghost use Rattle.book_base.specs.declared.call.Record.{Record};
ghost use Rattle.book_base.specs.Book.{IsAnswered, record_of};
ghost use Rattle.book_base.specs.Cut.{IsWithin};
ghost use Rattle.book_base.specs.Next.{next_call};
ghost use Rattle.book_base.specs.Pruning.{ViewsAreWithin};
ghost use Rattle.search_hints.specs.Marks.{IsMarked};
ghost use Rattle.legal_orders.specs.Calls.{TakesOut};
ghost use Rattle.list_pruning.specs.LeastFirst.{IsLeastTake};

use crate::values::value_taken;
use book_base::{Book, Call, Cut};
use legal_orders::Reader;
use search_hints::MarkedCallers;

/// A marked caller whose next call takes out the value `value`, with the least view of all answered
/// calls outside the cut that take it out. A call that the take's view doesn't hold has no lesser
/// view, so that few calls are looked at. No clause says that such a caller is found: where none
/// is, only time is lost.
pub fn next_least_take<R: Reader>(
    reader: &R,
    book: &Book,
    cut: &Cut,
    marks: MarkedCallers,
    value: u64,
) -> Option<u32>
    // The cut has a count for each caller of the book.
    requires wide { length cut.now ≡ length book.now }
    // The answer is a caller of the book, or `None`.
    ensures caller { IfSome result (λ i. i < length book.now) }
    // The answer is a marked caller, or `None`.
    ensures marked { IfSome result (IsMarked marks) }
    // The next call of the caller in the answer takes out the value, and has the least view of all
    // answered calls outside the cut that take it out.
    ensures take { IfSome result
        (λ i. IsLeastTake (R.reading reader.now) book.now cut.now value (next_call cut.now i)) }
{
    for caller in 0..book.callers() {
        if marks.has(caller) && takes_least(reader, book, cut, caller, value) {
            return Some(caller);
        }
    }
    None
}

// Whether a caller's next call takes out the value `value`, with the least view of all answered
// calls outside the cut that take it out.
fn takes_least<R: Reader>(reader: &R, book: &Book, cut: &Cut, caller: u32, value: u64) -> bool
    requires wide { length cut.now ≡ length book.now }
    requires caller { caller < length book.now }
    ensures { IsTrue result
        → IsLeastTake (R.reading reader.now) book.now cut.now value (next_call cut.now caller) }
{
    let take = Call {
        caller,
        number: cut.get(caller),
    };
    if take.number >= book.answers(caller) {
        return false;
    }
    match value_taken(reader, book, take) {
        Some(shown) => shown == value && has_least_view(reader, book, cut, take, value),
        None => false,
    }
}

// Whether the view of the answered call `take` is within those of all answered calls outside the
// cut that take out the value `value`.
fn has_least_view<R: Reader>(reader: &R, book: &Book, cut: &Cut, take: Call, value: u64) -> bool
    requires wide { length cut.now ≡ length book.now }
    requires take { IsAnswered book.now take }
    ensures { IsTrue result → (other : Call) → TakesOut (R.reading reader.now) book.now other value
        → slice_index cut.now other.caller ≤ other.number → ViewsAreWithin book.now take other }
{
    let view = book.view(take);
    for caller in 0..book.callers() {
        if takes_sooner(reader, book, view, caller, cut.get(caller), value) {
            return false;
        }
    }
    true
}

// Whether a caller has an answered call that takes out the value `value`, is held by `view`, has
// the number `from` or a greater one, and has an own view that doesn't contain `view`.
fn takes_sooner<R: Reader>(
    reader: &R,
    book: &Book,
    view: &Cut,
    caller: u32,
    from: u64,
    value: u64,
) -> bool
    requires wide { length view.now ≡ length book.now }
    requires caller { caller < length book.now }
    ensures { result ≡ false → (number : ℕ) → from ≤ number → number < slice_index view.now caller
        → TakesOut (R.reading reader.now) book.now
        (record { caller = caller; number = number }) value
        → (s : Record) → record_of book.now (record { caller = caller; number = number }) ≡ Some s
        → IsWithin view.now s.view }
{
    for number in from..view.get(caller) {
        if is_sooner(reader, book, view, Call { caller, number }, value) {
            return true;
        }
    }
    false
}

// Whether a call is answered and takes out the value `value`, and its own view doesn't contain
// `view`.
fn is_sooner<R: Reader>(reader: &R, book: &Book, view: &Cut, call: Call, value: u64) -> bool
    requires wide { length view.now ≡ length book.now }
    requires caller { call.caller < length book.now }
    ensures { result ≡ false → TakesOut (R.reading reader.now) book.now call value
        → (s : Record) → record_of book.now call ≡ Some s → IsWithin view.now s.view }
{
    if call.number >= book.answers(call.caller) {
        return false;
    }
    match value_taken(reader, book, call) {
        Some(shown) => shown == value && !view.within(book.view(call)),
        None => false,
    }
}
