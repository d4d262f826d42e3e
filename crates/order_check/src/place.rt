ghost use Rattle.std.specs.Prelude.{◌≡◌, ℕ, ◌<◌, ◌↔◌, length, slice_index, IfSome, IfNone, IsTrue};
ghost use Rattle.book_base.specs.declared.call.Call.{Call};
ghost use Rattle.book_base.specs.SeqSpec.{SeqSpec};
ghost use Rattle.book_base.specs.Book.{IsCall, IsAnswered, IsValid, Precedes};
ghost use Rattle.book_base.specs.Order.{StandsAt, call_at};
ghost use Rattle.order_check.specs.Standing.{IsStanding, IsInPlace, IsFirstAt};

use crate::fault::OrderFault;
use book_base::{Book, Call, Cut, Place};

/// The call of a place.
pub fn call_at(place: Place) -> Call
    ensures { result ≡ call_at place }
{
    Call {
        caller: place.caller,
        number: place.number,
    }
}

/// The first of the tests on calls and records that a place fails, where the places before it pass
/// theirs.
///
/// The cut `standing` holds the calls before the place, and each caller's calls stand in their
/// order. So this cut decides each test, and earlier places are searched only where the place's
/// call precedes one of theirs, to name the first such place.
pub fn first_fault_at(book: &Book, order: &[Place], at: usize, standing: &Cut) -> Option<OrderFault>
    requires valid { IsValid book.now }
    requires place { at < length order.now }
    requires standing { IsStanding book.now order.now at standing.now }
    ensures fault { IfSome result
        (λ fault. (spec : SeqSpec) → IsFirstAt spec book.now order.now at fault) }
    ensures none { IfNone result (IsInPlace book.now order.now at) }
{
    let place = order[at];
    let call = call_at(place);
    if !is_call(book, call) {
        return Some(OrderFault::Unknown(at as u64));
    }
    let next = standing.get(call.caller);
    if call.number < next {
        return Some(OrderFault::Twice(at as u64));
    }
    if call.number > next {
        return Some(OrderFault::Skipped(at as u64));
    }
    if call.number >= book.answers(call.caller) {
        return None;
    }
    if let Some(earlier) = first_preceded(book, order, at, standing, call) {
        return Some(OrderFault::Late(earlier, at as u64));
    }
    let wanted = book.record(call).reply;
    if wanted != place.reply {
        return Some(OrderFault::Record(at as u64, wanted, place.reply));
    }
    None
}

// Whether a call is one of the book's.
fn is_call(book: &Book, call: Call) -> bool
    ensures { IsTrue result ↔ IsCall book.now call }
{
    call.caller < book.callers() && call.number < book.calls(call.caller)
}

// The least place below `before` whose call the given call precedes. There is none where the view
// of the given call holds all calls at the places below `before`.
fn first_preceded(
    book: &Book,
    order: &[Place],
    before: usize,
    standing: &Cut,
    call: Call,
) -> Option<u64>
    requires valid { IsValid book.now }
    requires place { before < length order.now }
    requires standing { IsStanding book.now order.now before standing.now }
    requires call { IsAnswered book.now call }
    requires next { call.number ≡ slice_index standing.now call.caller }
    ensures preceded { IfSome result (λ q. (q < before)
        × ((other : Call) × StandsAt order.now q other × Precedes book.now call other)) }
    ensures least { IfSome result (λ q. (j : ℕ) (other : Call)
        → j < q → StandsAt order.now j other → Precedes book.now call other → ⊥) }
    ensures none { IfNone result ((j : ℕ) (other : Call)
        → j < before → StandsAt order.now j other → Precedes book.now call other → ⊥) }
{
    if standing.within(&book.record(call).view) {
        return None;
    }
    for q in 0..before {
        if book.precedes(call, call_at(order[q])) {
            return Some(q as u64);
        }
    }
    None
}
