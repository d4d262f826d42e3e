//! Whether a call is read-only.
ghost use Rattle.std.specs.Prelude.{◌↔◌, IsTrue};
ghost use Rattle.book_base.specs.Book.{IsCall};
ghost use Rattle.seq_objects.specs.Objects.{kind_next};
ghost use Rattle.smaller_book.specs.ReadOnly.{LeavesAlways, IsReadOnly};

use book_base::{Book, Call, OpWord, SeqObject};
use seq_objects::{DONE, Kind, NONE, YES, wrapping_value_reply};

/// Whether a call is read-only: its operation doesn't change any list at which it has the recorded
/// reply, or no list at all where the call is unanswered.
pub fn is_read_only(kind: Kind, book: &Book, call: Call) -> bool
    // The call is one of the book.
    requires { IsCall book.now call }
    ensures { IsTrue result ↔ IsReadOnly (kind_next kind) book.now call }
{
    let _callers = book.callers();
    let op = book.op(call);
    if call.number < book.answers(call.caller) {
        let record = book.record(call);
        kind.leaves(op, record.reply)
    } else {
        leaves_always(kind, op)
    }
}

// Whether an operation changes no list. Each operation of each kind that changes a list does so
// with one of these replies.
#[tactic(auto, using(crate::proofs::LeavingAlways::leaves_always))]
fn leaves_always(kind: Kind, op: OpWord) -> bool
    ensures { IsTrue result ↔ LeavesAlways (kind_next kind) op }
{
    kind.leaves(op, DONE)
        && kind.leaves(op, NONE)
        && kind.leaves(op, YES)
        && kind.leaves(op, wrapping_value_reply(0))
}
