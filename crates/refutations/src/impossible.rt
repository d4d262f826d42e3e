ghost use Rattle.std.specs.Prelude.{◌↔◌, ℕ, ◌<◌, length, IsTrue, IfSome, IfNone};
ghost use Rattle.book_base.specs.declared.call.Call.{Call};
ghost use Rattle.book_base.specs.Book.{IsAnswered};
ghost use Rattle.book_base.specs.Order.{HasLegalOrder};
ghost use Rattle.seq_objects.specs.Objects.{kind_spec};
ghost use Rattle.refutations.specs.Impossible.{IsImpossible, IsLesser};

use book_base::{Book, Call, SeqObject};
use seq_objects::Kind;

/// Whether an object of a kind gives the recorded reply of an answered call at no list, whatever
/// its other calls.
pub fn has_impossible_reply(kind: Kind, book: &Book, call: Call) -> bool
    // The call is answered.
    requires { IsAnswered book.now call }
    // `true` is answered exactly where the object gives the reply at no list.
    ensures impossible { IsTrue result ↔ IsImpossible (kind_spec kind) book.now call }
    // `true` is answered only where the book has no legal order.
    ensures none { IsTrue result → HasLegalOrder (kind_spec kind) book.now → ⊥ }
{
    let _callers = book.callers();
    !kind.may_reply(book.op(call), book.reply(call))
}

/// The least answered call, by caller and then by number, whose recorded reply an object of a kind
/// gives at no list.
pub fn first_impossible(kind: Kind, book: &Book) -> Option<Call>
    // The object gives the recorded reply of an answered call at no list.
    ensures impossible { IfSome result (IsImpossible (kind_spec kind) book.now) }
    // No lesser call has such a reply.
    ensures least { IfSome result (λ call. (other : Call) → IsLesser other call
        → IsImpossible (kind_spec kind) book.now other → ⊥) }
    // The answer is `None` only where no call has such a reply.
    ensures none { IfNone result
        ((call : Call) → IsImpossible (kind_spec kind) book.now call → ⊥) }
{
    for caller in 0..book.callers() {
        if let Some(number) = first_impossible_of(kind, book, caller) {
            return Some(Call { caller, number });
        }
    }
    None
}

// The least answered call of a caller whose recorded reply an object of a kind gives at no list.
fn first_impossible_of(kind: Kind, book: &Book, caller: u32) -> Option<u64>
    requires { caller < length book.now }
    ensures impossible { IfSome result (λ number.
        IsImpossible (kind_spec kind) book.now (record { caller = caller; number = number })) }
    ensures least { IfSome result (λ number. (k : ℕ) → k < number
        → IsImpossible (kind_spec kind) book.now (record { caller = caller; number = k }) → ⊥) }
    ensures none { IfNone result ((k : ℕ)
        → IsImpossible (kind_spec kind) book.now (record { caller = caller; number = k }) → ⊥) }
{
    for number in 0..book.answers(caller) {
        if has_impossible_reply(kind, book, Call { caller, number }) {
            return Some(number);
        }
    }
    None
}
