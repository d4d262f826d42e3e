ghost use Rattle.std.specs.Prelude.{◌≡◌, ℕ, ◌*◌, ◌<◌, ◌≤◌, length, sum, slice_index, Some};
ghost use Rattle.book_base.specs.declared.call.Record.{Record};
ghost use Rattle.book_base.specs.declared.TheConstants.{MAX_CALLERS, MAX_CALLS};
ghost use Rattle.book_base.specs.Book.{IsCall, IsAnswered, IsValid, IsSmall, answers_of, record_of};
ghost use Rattle.book_base.specs.Cut.{Holds};
ghost use Rattle.queue_pairs.specs.Moments.{moment_of, IsHeldBy};
ghost use Rattle.queue_pairs.specs.Spans.{IsSpanOf, AreHolding, IsFirstBelow};

use crate::NEVER;
use book_base::{Book, Call, Cut};

/// When a call may take effect, as two moments: `first` is the moment of the first view that holds
/// the call, and `last` that of the call's own view. The moment of a view is the number of calls
/// that it counts. Where no view holds the call, `first` is later than the moment of any view, and
/// so is `last` where the call is unanswered.
#[derive(Clone, Copy, Debug, Drop)]
pub struct Span {
    pub first: u64,
    pub last: u64,
}

/// When a call may take effect: from the moment of the first view that holds it to that of its own
/// view, where a moment is how many calls a view counts. Where there is no such view, the moment is
/// [`NEVER`].
pub fn span_of(book: &Book, call: Call) -> Span
    requires { IsCall book.now call }
    ensures { IsSpanOf book.now call result }
{
    let _callers = book.callers();
    let first = first_of(book, call);
    let last = last_of(book, call);
    Span { first, last }
}

// The moment of the first view that holds a call, or `NEVER` where none does.
fn first_of(book: &Book, call: Call) -> u64
    requires { call.caller < length book.now }
    ensures { IsFirstBelow book.now call (length book.now) result }
{
    let mut first = NEVER;
    for caller in 0..book.callers() {
        first = first.min(first_of_caller(book, caller, call));
    }
    first
}

// The moment of a caller's first view that holds a call, or `NEVER` where none does.
fn first_of_caller(book: &Book, caller: u32, call: Call) -> u64
    requires valid { IsValid book.now }
    requires small { IsSmall book.now }
    requires caller { caller < length book.now }
    requires call { call.caller < length book.now }
    ensures few { result ≤ NEVER }
    ensures held { result < NEVER → IsHeldBy book.now call result }
    ensures least { (number : ℕ) (r : Record)
        → record_of book.now (record { caller = caller; number = number }) ≡ Some r
        → Holds r.view call → result ≤ moment_of r }
{
    let number = first_holding(book, caller, call);
    if number < book.answers(caller) {
        moment_at(book, Call { caller, number })
    } else {
        NEVER
    }
}

// The number of a caller's first record whose view holds a call, or how many records it has where
// none does. The views of all later records hold the call too, since a caller's views rise.
fn first_holding(book: &Book, caller: u32, call: Call) -> u64
    requires valid { IsValid book.now }
    requires caller { caller < length book.now }
    requires call { call.caller < length book.now }
    ensures { AreHolding book.now caller call result result }
{
    let mut low = 0;
    let mut high = book.answers(caller);
    while low < high {
        let middle = low + (high - low) / 2;
        let view = book
            .record(Call {
                caller,
                number: middle,
            })
            .view;
        if view.holds(call.caller, call.number) {
            high = middle;
        } else {
            low = middle + 1;
        }
    }
    low
}

// The moment of a call's own view, or `NEVER` where the call is unanswered.
fn last_of(book: &Book, call: Call) -> u64
    requires valid { IsValid book.now }
    requires small { IsSmall book.now }
    requires call { IsCall book.now call }
    ensures answered { (r : Record) → record_of book.now call ≡ Some r → result ≡ moment_of r }
    ensures few { IsAnswered book.now call → result < NEVER }
    ensures unanswered { answers_of book.now call.caller ≤ call.number → result ≡ NEVER }
{
    if call.number < book.answers(call.caller) {
        moment_at(book, call)
    } else {
        NEVER
    }
}

// The moment of an answered call's view.
fn moment_at(book: &Book, call: Call) -> u64
    requires valid { IsValid book.now }
    requires small { IsSmall book.now }
    requires answered { IsAnswered book.now call }
    ensures moment { (r : Record) → record_of book.now call ≡ Some r → result ≡ moment_of r }
    ensures few { result < NEVER }
{
    view_moment(&book.record(call).view)
}

// How many calls a view counts.
fn view_moment(view: &Cut) -> u64
    requires small { (i : ℕ) → slice_index view.now i ≤ MAX_CALLS }
    requires few { length view.now ≤ MAX_CALLERS }
    ensures moment { result ≡ sum view.now }
    ensures few { result ≤ MAX_CALLERS * MAX_CALLS }
{
    let mut moment: u64 = 0;
    for count in view.counts() {
        moment += *count;
    }
    moment
}
