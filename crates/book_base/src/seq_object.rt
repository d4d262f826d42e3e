ghost use Rattle.std.specs.Prelude.{◌≡◌, ℕ, ◌*◌, ◌≤◌, Bool, false, List, length, IsTrue};
ghost use Rattle.book_base.specs.declared.TheConstants.{BAD, MAX_CALLERS, MAX_CALLS, MAX_ROOM};
ghost use Rattle.book_base.specs.SeqSpec.{SeqSpec};
ghost use Rattle.book_base.specs.Reaching.{IsCapacityFor, Leaves, MayReply};

use crate::OpWord;
use crate::state::State;

/// A sequential object: what each operation does to a list of words, and what it replies
/// (Herlihy and Wing 1990).
pub trait SeqObject {
    /// Whether the object knows an operation word.
    ghost is_known: { Self → ℕ → Bool };

    /// What the object does: `init` is the list that it begins with, and `next` gives for a list
    /// and an operation the list after the operation, and the reply.
    ghost spec: { Self → SeqSpec };

    /// Whether the object knows an operation word.
    fn known(&self, op: OpWord) -> bool
        ensures { result ≡ is_known self.now op };

    /// A capacity, in words, for the lists that the object reaches by at most so many operations.
    fn capacity(&self, operations: u64) -> u64
        // The operations are no more than a book may have calls.
        requires { operations ≤ MAX_CALLERS * MAX_CALLS }
        // Each list that the object reaches by at most so many operations fits the capacity.
        ensures fits { IsCapacityFor (spec self.now) operations result }
        // The capacity is at most `MAX_ROOM`.
        ensures few { result ≤ MAX_ROOM };

    /// Makes the list the one that the object begins with. The capacity doesn't change.
    fn reset(&self, state: &mut State)
        // The list that the object begins with fits the capacity.
        requires { length (spec self.now).init ≤ state.old.room }
        ensures { state.new ≡ record state.old { words = (spec self.now).init } };

    /// Makes one operation: the list becomes the next one, and the answer is the reply. The
    /// capacity doesn't change.
    fn step(&self, state: &mut State, op: OpWord) -> u64
        // The list after the operation fits the capacity.
        requires { length ((spec self.now).next state.old.words op).0 ≤ state.old.room }
        // The list becomes the one that the object has after the operation, and the capacity
        // doesn't change.
        ensures list { state.new
            ≡ record state.old { words = ((spec self.now).next state.old.words op).0 } }
        // The answer is the object's reply to the operation at the list before the operation.
        ensures reply { result ≡ ((spec self.now).next state.old.words op).1 };

    /// Whether an operation is known to be read-only with this reply: it changes no list at which
    /// it has the reply. The default knows of no read-only operation.
    fn leaves(&self, op: OpWord, reply: u64) -> bool
        // The answer is `true` only where the operation changes no list at which it has this reply.
        ensures { IsTrue result → Leaves (spec self.now).next op reply }
    {
        false
    }

    /// Whether an operation may have a reply: whether the object gives it at some list. The default
    /// knows of no reply that an operation can't have.
    fn may_reply(&self, op: OpWord, reply: u64) -> bool
        // The answer is `false` only where the object gives this reply to the operation at no list.
        ensures { MayReply (spec self.now).next op reply → IsTrue result }
    {
        true
    }

    /// An operation that the object doesn't know doesn't change the list, and its reply is `bad`.
    ghost unknown_is_bad: { (object : Self) (list : List ℕ) (op : ℕ) → is_known object op ≡ false
        → (spec object).next list op ≡ (list, BAD) };
}
