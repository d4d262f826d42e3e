//! Replies of a book that its object gives at no list.
ghost use Rattle.std.specs.Prelude.{◌≡◌, ◌<◌, ◌≤◌, length, true, false, slice_index, not, IsTrue, IsFalse};
ghost use Rattle.book_base.specs.Book.{IsAnswered};
ghost use Rattle.book_base.specs.Order.{HasLegalOrder};
ghost use Rattle.book_base.specs.Reaching.{MayReply};
ghost use Rattle.frontier_check.specs.Replies.{IsTested};

use book_base::{Book, Call, Cut, OpWord, SeqObject};

/// Whether the object denies the recorded reply of an answered call that a cut lacks
/// (`SeqObject::may_reply`). Then the book has no legal order.
pub fn has_impossible_reply<S: SeqObject>(object: &S, book: &Book, cut: &Cut) -> bool
    requires { length cut.now ≡ length book.now }
    ensures { IsTrue result → HasLegalOrder (S.spec object.now) book.now → ⊥ }
{
    let may_reply = |op: OpWord, reply: u64| -> bool
        ensures { MayReply (S.spec object.entry.now).next op reply → IsTrue result }
    { object.may_reply(op, reply) };
    has_denied_reply(book, cut, may_reply)
}

// Whether a test of an operation and a reply denies the recorded reply of an answered call that a
// cut lacks.
fn has_denied_reply<F: Fn(OpWord, u64) -> bool>(book: &Book, cut: &Cut, test: F) -> bool
    requires test { F.IsAlwaysCallable test }
    requires wide { length cut.now ≡ length book.now }
    // Where the answer is `true`, the test denies the reply of some answered call that the cut
    // lacks.
    ensures denied { IsTrue result → (call : _) × (slice_index cut.now call.caller ≤ call.number)
        × IsTested (λ (op, reply) answer. F.post test op reply answer) book.now call false }
    // Where the answer is `false`, the test allows the reply of each answered call that the cut
    // lacks.
    ensures allowed { IsFalse result → (call : _) → IsAnswered book.now call
        → slice_index cut.now call.caller ≤ call.number
        → IsTested (λ (op, reply) answer. F.post test op reply answer) book.now call true }
{
    for caller in 0..book.callers() {
        if has_denied_reply_of(book, caller, cut.get(caller), &test) {
            return true;
        }
    }
    false
}

// Whether a test of an operation and a reply denies the recorded reply of an answered call of a
// caller, from the call with the number `first` on.
fn has_denied_reply_of<F: Fn(OpWord, u64) -> bool>(
    book: &Book,
    caller: u32,
    first: u64,
    test: &F,
) -> bool
    requires test { F.IsAlwaysCallable test.now }
    requires caller { caller < length book.now }
    ensures denied { IsTrue result → (number : _) × (first ≤ number)
        × IsTested (λ (op, reply) answer. F.post test.now op reply answer) book.now
        (record { caller = caller; number = number }) false }
    ensures allowed { IsFalse result → (number : _) → first ≤ number
        → IsAnswered book.now (record { caller = caller; number = number })
        → IsTested (λ (op, reply) answer. F.post test.now op reply answer) book.now
        (record { caller = caller; number = number }) true }
{
    let count = book.answers(caller);
    for number in first..count {
        if is_denied(book, Call { caller, number }, test) {
            return true;
        }
    }
    false
}

// Whether a test of an operation and a reply denies the recorded reply of an answered call.
fn is_denied<F: Fn(OpWord, u64) -> bool>(book: &Book, call: Call, test: &F) -> bool
    requires test { F.IsAlwaysCallable test.now }
    requires answered { IsAnswered book.now call }
    ensures { IsTested (λ (op, reply) answer. F.post test.now op reply answer) book.now call
        (not result) }
{
    let _callers = book.callers();
    !test(book.op(call), book.reply(call))
}
