ghost use Rattle.std.specs.Prelude.{◌≡◌, ℕ, ◌<◌, ◌≤◌, ◌⊎◌, length, slice_index, IfOk, IfErr, IfSome, IfNone, OnOk, IsOk};
ghost use Rattle.book_base.specs.declared.call.Call.{Call};
ghost use Rattle.book_base.specs.Cut.{Holds};
ghost use Rattle.book_base.specs.Book.{IsAnswered};
ghost use Rattle.book_base.specs.Order.{IsLegalOrder};
ghost use Rattle.book_base.specs.Next.{HoldsAnswered};
ghost use Rattle.order_check.specs.Fault.{IsFirstFault};

use crate::fault::OrderFault;
use crate::place::{call_at, first_fault_at};
use book_base::{Book, Call, Cut, MAX_CALLERS, MAX_CALLS, NoMemory, Place, SeqObject, State};
use std::alloc::Global;

// The greatest number of calls that a book may have.
const MOST_CALLS: u64 = MAX_CALLERS as u64 * MAX_CALLS;

/// Judges a list of places, without a search: Ok where it is a legal order of the book, and else its
/// first fault.
pub fn check_order<S: SeqObject>(
    alloc: Global,
    object: &S,
    book: &Book,
    order: &[Place],
) -> Result<Result<(), OrderFault>, NoMemory>
    // An answer Ok comes only where the list is a legal order of the book.
    ensures legal { IfOk result
        (λ answer. OnOk answer (IsLegalOrder (S.spec object.now) book.now order.now)) }
    // A list that is a legal order of the book is answered Ok, want of memory aside.
    ensures accepted { IsLegalOrder (S.spec object.now) book.now order.now → IfOk result IsOk }
    // A fault is that of the first test that the list fails.
    ensures fault { IfOk result
        (λ answer. IfErr answer (IsFirstFault (S.spec object.now) book.now order.now)) }
{
    let mut standing = Cut::zero(book.callers());
    let mut state = State::with_room(alloc, object.capacity(MOST_CALLS))?;
    object.reset(&mut state);
    for p in 0..order.len() {
        if let Some(fault) = first_fault_at(book, order, p, &standing) {
            return Ok(Err(fault));
        }
        let place = order[p];
        let wanted = object.step(&mut state, book.op(call_at(place)));
        if wanted != place.reply {
            return Ok(Err(OrderFault::Run(p as u64, wanted, place.reply)));
        }
        standing.set(place.caller, place.number + 1);
    }
    match first_missing(book, &standing) {
        Some(call) => Ok(Err(OrderFault::Missing(call.caller, call.number))),
        None => Ok(Ok(())),
    }
}

// The least answered call, by caller and number, that a cut doesn't hold.
fn first_missing(book: &Book, standing: &Cut) -> Option<Call>
    requires { length standing.now ≡ length book.now }
    ensures answered { IfSome result (IsAnswered book.now) }
    ensures missing { IfSome result (λ call. slice_index standing.now call.caller ≤ call.number) }
    ensures least { IfSome result (λ call. (other : Call) → IsAnswered book.now other
        → (other.caller < call.caller)
        ⊎ ((other.caller ≡ call.caller) × (other.number < call.number))
        → Holds standing.now other) }
    ensures none { IfNone result (HoldsAnswered book.now standing.now) }
{
    for caller in 0..book.callers() {
        let number = standing.get(caller);
        if number < book.answers(caller) {
            return Some(Call { caller, number });
        }
    }
    None
}
