//! Which calls may come next after a cut.

ghost use Rattle.std.specs.Prelude.{◌≡◌, ◌<◌, ◌↔◌, length, IsTrue, Some};
ghost use Rattle.book_base.specs.declared.call.Record.{Record};
ghost use Rattle.book_base.specs.Book.{IsCall, record_of};
ghost use Rattle.book_base.specs.Next.{next_call, HoldsAnswered, MayComeNext};

use book_base::{Book, Call, Cut};

/// Whether a caller's next call after a cut may come next: it is a call of the book, and no call
/// outside the cut precedes it.
pub(crate) fn may_come(book: &Book, cut: &Cut, caller: u32) -> bool
    requires wide { length cut.now ≡ length book.now }
    requires caller { caller < length book.now }
    ensures { IsTrue result ↔ MayComeNext book.now cut.now (next_call cut.now caller) }
{
    let number = cut.get(caller);
    if number >= book.calls(caller) {
        return false;
    }
    let call = Call { caller, number };
    for other in 0..book.callers() {
        let first = Call {
            caller: other,
            number: cut.get(other),
        };
        if first.number < book.answers(other) && book.precedes(first, call) {
            return false;
        }
    }
    true
}

/// Whether a call is unanswered, or `reply` is its recorded reply.
pub(crate) fn is_recorded(book: &Book, call: Call, reply: u64) -> bool
    requires { IsCall book.now call }
    ensures { IsTrue result ↔ ((r : Record) → record_of book.now call ≡ Some r → r.reply ≡ reply) }
{
    call.number >= book.answers(call.caller) || book.record(call).reply == reply
}

/// Whether a cut holds all answered calls.
pub(crate) fn holds_answered(book: &Book, cut: &Cut) -> bool
    requires { length cut.now ≡ length book.now }
    ensures { IsTrue result ↔ HoldsAnswered book.now cut.now }
{
    for caller in 0..book.callers() {
        if cut.get(caller) < book.answers(caller) {
            return false;
        }
    }
    true
}
