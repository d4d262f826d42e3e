ghost use Rattle.std.specs.Prelude.{◌≡◌, ℕ, ◌<◌, ◌≤◌, false, length, slice_index, IsTrue};
ghost use Rattle.book_base.specs.Book.{IsAnswered, IsCall, calls_of};
ghost use Rattle.book_base.specs.Next.{next_call};
ghost use Rattle.search_hints.specs.Marks.{IsMarked, MarksAllNext};
ghost use Rattle.legal_orders.specs.Calls.{PutsIn};
ghost use Rattle.list_pruning.specs.LastFirst.{PutsAreNextOrLater};

use crate::value_put;
use book_base::{Book, Call, Cut};
use legal_orders::Reader;
use search_hints::MarkedCallers;

/// Whether each call outside the cut that puts in the value `value` is a marked caller's next call,
/// or is preceded by the next call of the caller `taker`, which is answered.
pub fn puts_are_next_or_later<R: Reader>(
    reader: &R,
    book: &Book,
    cut: &Cut,
    marks: MarkedCallers,
    taker: u32,
    value: u64,
) -> bool
    requires wide { length cut.now ≡ length book.now }
    requires marks { MarksAllNext book.now cut.now marks }
    requires taker { taker < length book.now }
    requires take { IsAnswered book.now (next_call cut.now taker) }
    ensures { IsTrue result → PutsAreNextOrLater (R.reading reader.now) book.now cut.now value
        (next_call cut.now taker) }
{
    let take = Call {
        caller: taker,
        number: cut.get(taker),
    };
    let view = book.view(take);
    for caller in 0..book.callers() {
        if puts_below(reader, book, cut, marks, caller, view.get(caller), value) {
            return false;
        }
    }
    true
}

// Whether some call of a caller, outside the cut and with a number below `below`, puts in the value
// `value`, and isn't a marked caller's next call.
fn puts_below<R: Reader>(
    reader: &R,
    book: &Book,
    cut: &Cut,
    marks: MarkedCallers,
    caller: u32,
    below: u64,
    value: u64,
) -> bool
    requires wide { length cut.now ≡ length book.now }
    requires caller { caller < length book.now }
    requires below { below ≤ calls_of book.now caller }
    ensures { result ≡ false → (number : ℕ) → slice_index cut.now caller ≤ number → number < below
        → PutsIn (R.reading reader.now) book.now (record { caller = caller; number = number }) value
        → IsMarked marks caller × (number ≡ slice_index cut.now caller) }
{
    for number in cut.get(caller)..below {
        if puts_past(reader, book, cut, marks, Call { caller, number }, value) {
            return true;
        }
    }
    false
}

// Whether a call puts in the value `value`, and isn't a marked caller's next call.
fn puts_past<R: Reader>(
    reader: &R,
    book: &Book,
    cut: &Cut,
    marks: MarkedCallers,
    call: Call,
    value: u64,
) -> bool
    requires wide { length cut.now ≡ length book.now }
    requires caller { call.caller < length book.now }
    requires call { IsCall book.now call }
    ensures { result ≡ false → PutsIn (R.reading reader.now) book.now call value
        → IsMarked marks call.caller × (call.number ≡ slice_index cut.now call.caller) }
{
    if marks.has(call.caller) && cut.get(call.caller) == call.number {
        return false;
    }
    match value_put(reader, book, call) {
        Some(put) => put == value,
        None => false,
    }
}
