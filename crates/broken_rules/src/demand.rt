//! The demands of rules: what has to hold of all calls of a book where two of its calls break a
//! rule.

ghost use Rattle.std.specs.Prelude.{◌≡◌, ◌↔◌, ◌⊎◌, ℕ, ◌<◌, length, IsTrue};
ghost use Rattle.book_base.specs.Book.{calls_of, IsCall, Precedes};
ghost use Rattle.broken_rules.specs.Deeds.{value_at, taken_at};
ghost use Rattle.broken_rules.specs.Entries as entries;
ghost use Rattle.broken_rules.specs.Entries.{PutsEntry};
ghost use Rattle.broken_rules.specs.Demands.{Puts, Took, MayTake, Removes, Missed, Meets, AllMeet};

use crate::act::{absence_of, act_of, taking_of};
use crate::entry::{puts_entry, shown_at};
use book_base::{Book, Call};
use seq_objects::Kind;

/// What may be asked of each call of a book where two calls of this book are given: the first call
/// and the second call.
#[derive(Clone, Copy, Debug)]
pub(crate) enum Demand {
    /// The puts of the value that the first call takes come after the first call.
    OwnPutsFollow,
    /// The puts of the value that the second call takes come after the first call.
    OtherPutsFollow,
    /// The puts of the value that the second call takes come before the first call, or after the
    /// second one.
    OtherPutsOutside,
    /// No call but the first one puts in the value that the second call takes.
    OnlyPut,
    /// No call but the second one is answered and takes the second call's value.
    OnlyTake,
    /// The takes that may take the first call's value come after the second call.
    TakesFollow,
    /// The calls that may take out the first call's key come before the first call, or after the
    /// second one.
    RemovalsOutside,
    /// The puts of the entry that the first call shows come after the first call, but for the first
    /// call itself.
    EntryPutsFollow,
    /// The puts of the entry that the second call shows come before the first call, or after the
    /// second one, but for the second call itself.
    EntryPutsOutside,
    /// The puts of the value that the second call takes come before both calls, or after both.
    OtherPutsBeside,
    /// The demand asks nothing.
    Nothing,
}

/// Whether all calls of a book meet a demand about two calls.
pub(crate) fn all_meet(kind: Kind, book: &Book, demand: Demand, first: Call, second: Call) -> bool
    requires first { IsCall book.now first }
    requires second { IsCall book.now second }
    ensures { IsTrue result ↔ AllMeet kind book.now demand first second }
{
    for caller in 0..book.callers() {
        if !caller_meets(kind, book, demand, first, second, caller) {
            return false;
        }
    }
    true
}

// Whether all calls of a caller meet a demand about two calls.
fn caller_meets(
    kind: Kind,
    book: &Book,
    demand: Demand,
    first: Call,
    second: Call,
    caller: u32,
) -> bool
    requires caller { caller < length book.now }
    requires first { IsCall book.now first }
    requires second { IsCall book.now second }
    ensures { IsTrue result ↔ ((number : ℕ) → number < calls_of book.now caller
        → Meets kind book.now demand first second (record { caller = caller; number = number })) }
{
    for number in 0..book.calls(caller) {
        if !meets(kind, book, demand, first, second, Call { caller, number }) {
            return false;
        }
    }
    true
}

// Whether a call meets a demand about two calls.
fn meets(kind: Kind, book: &Book, demand: Demand, first: Call, second: Call, call: Call) -> bool
    requires first { IsCall book.now first }
    requires second { IsCall book.now second }
    requires call { IsCall book.now call }
    ensures { IsTrue result ↔ Meets kind book.now demand first second call }
{
    match demand {
        Demand::OwnPutsFollow => put_follows(kind, book, first, first, call),
        Demand::OtherPutsFollow => put_follows(kind, book, second, first, call),
        Demand::OtherPutsOutside => put_is_outside(kind, book, first, second, call),
        Demand::OnlyPut => put_is_only(kind, book, first, second, call),
        Demand::OnlyTake => take_is_only(kind, book, second, call),
        Demand::TakesFollow => take_follows(kind, book, first, second, call),
        Demand::RemovalsOutside => removal_is_outside(kind, book, first, second, call),
        Demand::EntryPutsFollow => entry_put_follows(book, first, call),
        Demand::EntryPutsOutside => entry_put_is_outside(book, first, second, call),
        Demand::OtherPutsBeside => put_is_beside(kind, book, first, second, call),
        Demand::Nothing => true,
    }
}

// Whether the call `call`, if it puts in the value that the call `taker` takes, comes after the
// call `first`.
fn put_follows(kind: Kind, book: &Book, taker: Call, first: Call, call: Call) -> bool
    requires taker { IsCall book.now taker }
    requires first { IsCall book.now first }
    requires call { IsCall book.now call }
    ensures { IsTrue result
        ↔ (Puts kind book.now (taken_at kind book.now taker) call → Precedes book.now first call) }
{
    if puts_value(kind, book, taker, call) {
        book.precedes(first, call)
    } else {
        true
    }
}

// Whether the call `call`, if it puts in the value that the call `second` takes, comes before the
// call `first` or after the call `second`.
fn put_is_outside(kind: Kind, book: &Book, first: Call, second: Call, call: Call) -> bool
    requires first { IsCall book.now first }
    requires second { IsCall book.now second }
    requires call { IsCall book.now call }
    ensures { IsTrue result ↔ (Puts kind book.now (taken_at kind book.now second) call
        → Precedes book.now call first ⊎ Precedes book.now second call) }
{
    if puts_value(kind, book, second, call) {
        is_outside(book, first, second, call)
    } else {
        true
    }
}

// Whether the call `call`, if it puts in the value that the call `second` takes, comes before the
// calls `first` and `second` or after both.
fn put_is_beside(kind: Kind, book: &Book, first: Call, second: Call, call: Call) -> bool
    requires first { IsCall book.now first }
    requires second { IsCall book.now second }
    requires call { IsCall book.now call }
    ensures { IsTrue result ↔ (Puts kind book.now (taken_at kind book.now second) call
        → (Precedes book.now call first × Precedes book.now call second)
        ⊎ (Precedes book.now first call × Precedes book.now second call)) }
{
    if !puts_value(kind, book, second, call) {
        true
    } else if precedes_both(book, call, first, second) {
        true
    } else {
        follows_both(book, call, first, second)
    }
}

// Whether the call `call` comes before two calls.
fn precedes_both(book: &Book, call: Call, first: Call, second: Call) -> bool
    requires first { IsCall book.now first }
    requires second { IsCall book.now second }
    requires call { IsCall book.now call }
    ensures { IsTrue result ↔ (Precedes book.now call first × Precedes book.now call second) }
{
    if book.precedes(call, first) {
        book.precedes(call, second)
    } else {
        false
    }
}

// Whether the call `call` comes after two calls.
fn follows_both(book: &Book, call: Call, first: Call, second: Call) -> bool
    requires first { IsCall book.now first }
    requires second { IsCall book.now second }
    requires call { IsCall book.now call }
    ensures { IsTrue result ↔ (Precedes book.now first call × Precedes book.now second call) }
{
    if book.precedes(first, call) {
        book.precedes(second, call)
    } else {
        false
    }
}

// Whether the call `call` comes before the call `first` or after the call `second`.
fn is_outside(book: &Book, first: Call, second: Call, call: Call) -> bool
    requires first { IsCall book.now first }
    requires second { IsCall book.now second }
    requires call { IsCall book.now call }
    ensures { IsTrue result ↔ (Precedes book.now call first ⊎ Precedes book.now second call) }
{
    if book.precedes(call, first) {
        true
    } else {
        book.precedes(second, call)
    }
}

// Whether the call `call`, if it puts in the value that the call `taker` takes, is the call `only`.
fn put_is_only(kind: Kind, book: &Book, only: Call, taker: Call, call: Call) -> bool
    requires only { IsCall book.now only }
    requires taker { IsCall book.now taker }
    requires call { IsCall book.now call }
    ensures { IsTrue result
        ↔ (Puts kind book.now (taken_at kind book.now taker) call → call ≡ only) }
{
    if puts_value(kind, book, taker, call) {
        is_same(call, only)
    } else {
        true
    }
}

// Whether the call `call`, if it took the value of the call `only`, is the call `only` itself.
fn take_is_only(kind: Kind, book: &Book, only: Call, call: Call) -> bool
    requires only { IsCall book.now only }
    requires call { IsCall book.now call }
    ensures { IsTrue result
        ↔ (Took kind book.now (value_at kind book.now only) call → call ≡ only) }
{
    if takes_value(kind, book, only, call) {
        is_same(call, only)
    } else {
        true
    }
}

// Whether the call `call`, if it may take the value of the call `first`, comes after the call
// `second`.
fn take_follows(kind: Kind, book: &Book, first: Call, second: Call, call: Call) -> bool
    requires first { IsCall book.now first }
    requires second { IsCall book.now second }
    requires call { IsCall book.now call }
    ensures { IsTrue result
        ↔ (MayTake kind book.now (value_at kind book.now first) call
        → Precedes book.now second call) }
{
    if may_take_value(kind, book, first, call) {
        book.precedes(second, call)
    } else {
        true
    }
}

// Whether the call `call`, if it may take out the key of the call `first`, comes before the call
// `first` or after the call `second`.
fn removal_is_outside(kind: Kind, book: &Book, first: Call, second: Call, call: Call) -> bool
    requires first { IsCall book.now first }
    requires second { IsCall book.now second }
    requires call { IsCall book.now call }
    ensures { IsTrue result ↔ (Removes kind book.now (value_at kind book.now first) call
        → Precedes book.now call first ⊎ Precedes book.now second call) }
{
    if removes_key(kind, book, first, call) {
        is_outside(book, first, second, call)
    } else {
        true
    }
}

// Whether the call `call`, if it puts in the entry that the call `first` shows, is the call `first`
// or comes after it.
fn entry_put_follows(book: &Book, first: Call, call: Call) -> bool
    requires first { IsCall book.now first }
    requires call { IsCall book.now call }
    ensures { IsTrue result ↔ (PutsEntry book.now (entries.shown_at book.now first) call
        → (call ≡ first) ⊎ Precedes book.now first call) }
{
    if !puts_entry(book, shown_at(book, first), call) {
        true
    } else if is_same(call, first) {
        true
    } else {
        book.precedes(first, call)
    }
}

// Whether the call `call`, if it puts in the entry that the call `second` shows, is the call
// `second`, or comes before the call `first` or after the call `second`.
fn entry_put_is_outside(book: &Book, first: Call, second: Call, call: Call) -> bool
    requires first { IsCall book.now first }
    requires second { IsCall book.now second }
    requires call { IsCall book.now call }
    ensures { IsTrue result ↔ (PutsEntry book.now (entries.shown_at book.now second) call
        → (call ≡ second) ⊎ (Precedes book.now call first ⊎ Precedes book.now second call)) }
{
    if !puts_entry(book, shown_at(book, second), call) {
        true
    } else if is_same(call, second) {
        true
    } else {
        is_outside(book, first, second, call)
    }
}

// Whether the call `call` puts in the value that the call `taker` takes.
fn puts_value(kind: Kind, book: &Book, taker: Call, call: Call) -> bool
    requires taker { IsCall book.now taker }
    requires call { IsCall book.now call }
    ensures { IsTrue result ↔ Puts kind book.now (taken_at kind book.now taker) call }
{
    let value = taking_of(kind, book, taker).value();
    act_of(kind, book, call).puts(value)
}

// Whether the call `call` is answered and takes the value of the call `valued`.
fn takes_value(kind: Kind, book: &Book, valued: Call, call: Call) -> bool
    requires valued { IsCall book.now valued }
    requires call { IsCall book.now call }
    ensures { IsTrue result ↔ Took kind book.now (value_at kind book.now valued) call }
{
    let value = act_of(kind, book, valued).value();
    act_of(kind, book, call).took(value)
}

// Whether the call `call` may take the value of the call `valued`: it took it, or it is a take
// without an answer.
fn may_take_value(kind: Kind, book: &Book, valued: Call, call: Call) -> bool
    requires valued { IsCall book.now valued }
    requires call { IsCall book.now call }
    ensures { IsTrue result ↔ MayTake kind book.now (value_at kind book.now valued) call }
{
    let value = act_of(kind, book, valued).value();
    act_of(kind, book, call).may_take(value)
}

// Whether the call `call` may take out the key of the call `keyed`.
fn removes_key(kind: Kind, book: &Book, keyed: Call, call: Call) -> bool
    requires keyed { IsCall book.now keyed }
    requires call { IsCall book.now call }
    ensures { IsTrue result ↔ Removes kind book.now (value_at kind book.now keyed) call }
{
    let key = act_of(kind, book, keyed).value();
    absence_of(kind, book, call).puts(key)
}

/// Whether the call `call` is answered, and missed the key of the call `keyed`.
pub(crate) fn misses_key_of(kind: Kind, book: &Book, keyed: Call, call: Call) -> bool
    requires keyed { IsCall book.now keyed }
    requires call { IsCall book.now call }
    ensures { IsTrue result ↔ Missed kind book.now (value_at kind book.now keyed) call }
{
    let key = act_of(kind, book, keyed).value();
    absence_of(kind, book, call).took(key)
}

/// Whether two calls are the same call.
pub(crate) fn is_same(a: Call, b: Call) -> bool
    ensures { IsTrue result ↔ (a ≡ b) }
{
    a.caller == b.caller && a.number == b.number
}
