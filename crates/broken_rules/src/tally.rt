//! How many calls of a book may have put a value in, or taken it, by the reply to one of its calls.

ghost use Rattle.std.specs.Prelude.{◌≡◌, ◌<◌, is_some, length};
ghost use Rattle.book_base.specs.Book.{calls_of, IsCall, record_of};
ghost use Rattle.broken_rules.specs.Deeds.{did};
ghost use Rattle.broken_rules.specs.Tallies as tallies;
ghost use Rattle.broken_rules.specs.Tallies.{count_of_caller};

use crate::act::act_of;
use book_base::{Book, Call, Cut};
use seq_objects::Kind;

/// Which calls are counted, for a value and a call, the last one.
#[derive(Clone, Copy, Debug)]
pub(crate) enum Tally {
    /// The answered takes of the value whose views are within the view of the last call.
    TakenBy,
    /// The puts of the value that the view of the last call holds.
    PutBy,
    /// The answered puts of the value whose views don't hold the last call.
    PutBefore,
    /// The takes of the value, and those without an answer, that the view of the last call holds.
    TakableBy,
}

/// How many calls of a book are counted, for the value `value` and the call `last`.
pub(crate) fn tally_of(kind: Kind, book: &Book, tally: Tally, value: u64, last: Call) -> u64
    requires call { IsCall book.now last }
    ensures count { result ≡ tallies.tally_of (did kind book.now) book.now tally value last }
{
    let mut count = 0;
    for caller in 0..book.callers() {
        count += tally_of_caller(kind, book, tally, value, last, caller);
    }
    count
}

// How many calls of a caller are counted.
fn tally_of_caller(
    kind: Kind,
    book: &Book,
    tally: Tally,
    value: u64,
    last: Call,
    caller: u32,
) -> u64
    requires caller { caller < length book.now }
    requires call { IsCall book.now last }
    ensures { result ≡ count_of_caller
        (tallies.is_tallied (did kind book.now) book.now tally value last) caller
        (calls_of book.now caller) }
{
    let mut count = 0;
    for number in 0..book.calls(caller) {
        if is_tallied(kind, book, tally, value, last, Call { caller, number }) {
            count += 1;
        }
    }
    count
}

// Whether a call is counted.
fn is_tallied(kind: Kind, book: &Book, tally: Tally, value: u64, last: Call, call: Call) -> bool
    requires last { IsCall book.now last }
    requires call { IsCall book.now call }
    ensures { result ≡ tallies.is_tallied (did kind book.now) book.now tally value last call }
{
    let act = act_of(kind, book, call);
    match tally {
        Tally::TakenBy => act.took(value) && ends_within(book, last, call),
        Tally::PutBy => act.puts(value) && ends_after(book, last, call),
        Tally::PutBefore => act.puts(value) && ends_before(book, last, call),
        Tally::TakableBy => act.may_take(value) && ends_after(book, last, call),
    }
}

// Whether a call is answered, and its view is within the view of the call `last`.
fn ends_within(book: &Book, last: Call, call: Call) -> bool
    requires last { IsCall book.now last }
    requires call { IsCall book.now call }
    ensures { result
        ≡ tallies.ends_within (record_of book.now last) (record_of book.now call) }
{
    if !is_answered(book, last) {
        return false;
    }
    if !is_answered(book, call) {
        return false;
    }
    is_within(&book.record(call).view, &book.record(last).view)
}

// Whether no count of a cut is greater than that of another cut.
fn is_within(cut: &Cut, other: &Cut) -> bool
    requires { length cut.now ≡ length other.now }
    ensures { result ≡ tallies.is_within cut.now other.now }
{
    cut.within(other)
}

// Whether a call is answered, and its view doesn't hold the call `last`.
fn ends_before(book: &Book, last: Call, call: Call) -> bool
    requires last { IsCall book.now last }
    requires call { IsCall book.now call }
    ensures { result ≡ tallies.ends_before last (record_of book.now call) }
{
    if is_answered(book, call) {
        !book.record(call).view.holds(last.caller, last.number)
    } else {
        false
    }
}

// Whether the call `last` is answered, and its view holds a call.
fn ends_after(book: &Book, last: Call, call: Call) -> bool
    requires last { IsCall book.now last }
    requires call { IsCall book.now call }
    ensures { result ≡ tallies.ends_after call (record_of book.now last) }
{
    if is_answered(book, last) {
        book.record(last).view.holds(call.caller, call.number)
    } else {
        false
    }
}

// Whether a call is answered.
fn is_answered(book: &Book, call: Call) -> bool
    requires { IsCall book.now call }
    ensures { result ≡ is_some (record_of book.now call) }
{
    call.number < book.answers(call.caller)
}
