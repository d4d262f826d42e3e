ghost use Rattle.std.specs.Prelude.{◌≡◌, ℕ, IfSome, IfNone};
ghost use Rattle.book_base.specs.Book.{IsCall};
ghost use Rattle.legal_orders.specs.Calls.{PutsIn, TakesOut};

use book_base::{Book, Call};
use legal_orders::{Reader, Role};

/// The value that a call puts in, if it puts one in.
pub fn value_put<R: Reader>(reader: &R, book: &Book, call: Call) -> Option<u64>
    // The call is one of the book's.
    requires { IsCall book.now call }
    // The answer is a value only where the call puts it in.
    ensures some { IfSome result (PutsIn (R.reading reader.now) book.now call) }
    // The answer is `None` only where the call puts in no value.
    ensures none { IfNone result ((v : ℕ) → PutsIn (R.reading reader.now) book.now call v → ⊥) }
{
    match reader.role(book.op(call)) {
        Role::Put(value) => Some(value),
        Role::Take | Role::Other => None,
    }
}

/// The value that an answered call takes out, if it takes one out.
pub fn value_taken<R: Reader>(reader: &R, book: &Book, call: Call) -> Option<u64>
    // The answer is a value only where the call is answered and takes it out.
    ensures some { IfSome result (TakesOut (R.reading reader.now) book.now call) }
    // The answer is `None` only where the call isn't an answered one that takes out a value.
    ensures none { IfNone result ((v : ℕ) → TakesOut (R.reading reader.now) book.now call v → ⊥) }
{
    if call.caller >= book.callers() || call.number >= book.answers(call.caller) {
        return None;
    }
    match reader.role(book.op(call)) {
        Role::Take => reader.shown(book.record(call).reply),
        Role::Put(_) | Role::Other => None,
    }
}
