ghost use Rattle.std.specs.Prelude.{◌≡◌, ℕ, ◌*◌, ◌≤◌, ◌↔◌, List, length, Option, Some, IsTrue, IsFalse};
ghost use Rattle.book_base.specs.declared.TheConstants.{MAX_CALLERS, MAX_CALLS, MAX_ROOM};
ghost use Rattle.set_order.specs.Serving.{NeverRepliesFrom, SufficesAfter};

use book_base::{OpWord, State};

/// An object that serves a whole set of operations at once: what they do to a list of words, and
/// what it replies to each (Neiger 1994).
pub trait SetObject {
    /// The list that the object begins with.
    ghost init: { Self → List ℕ };

    /// The list after some operations are served at once at a list, and the reply to each; none
    /// where they may not be served together. A set order gives the operations in the order of
    /// their callers. An object may serve them otherwise in that order than in another one: no law
    /// asks that the order of the operations makes no difference.
    ghost served: { Self → List ℕ → List ℕ → Option (List ℕ × List ℕ) };

    /// A capacity, in words, for the lists to which sets of together at most so many operations
    /// take the object.
    fn capacity(&self, operations: u64) -> u64
        // The operations are no more than a book may have calls.
        requires { operations ≤ MAX_CALLERS * MAX_CALLS }
        // The capacity suffices for so many operations after the list that the object begins with.
        ensures fits { SufficesAfter (served self.now) (init self.now) operations result }
        // The capacity is at most `MAX_ROOM`.
        ensures few { result ≤ MAX_ROOM };

    /// Makes the list the one that the object begins with. The capacity doesn't change.
    fn reset(&self, state: &mut State)
        // The list that the object begins with fits the capacity.
        requires { length (init self.now) ≤ state.old.room }
        ensures { state.new ≡ record state.old { words = init self.now } };

    /// Serves some operations at once: the state's list becomes the one after them, and `replies`
    /// gets the reply to each of them in turn. Where the operations may not be served together, the
    /// answer is `false`, and the state doesn't change. Neither capacity changes, and no memory is
    /// taken.
    fn serve(&self, state: &mut State, ops: &[OpWord], replies: &mut State) -> bool
        // There is at least one operation.
        requires some { 1 ≤ length ops.now }
        // Where the object serves the operations at once, the list after them fits the capacity.
        requires room { (after replies : List ℕ) → served self.now state.old.words ops.now
            ≡ Some (after, replies) → length after ≤ state.old.room }
        // The replies have capacity for one word for each operation.
        requires replies { length ops.now ≤ replies.old.room }
        // An answer `true` comes only where the object serves the operations at once, and then the
        // list and the replies are those that it gives.
        ensures served { IsTrue result → served self.now state.old.words ops.now
            ≡ Some (state.new.words, replies.new.words) }
        // The answer is `false` exactly where the object doesn't serve these operations at once.
        ensures refused { IsFalse result ↔ (served self.now state.old.words ops.now ≡ None) }
        // The state doesn't change where the answer is `false`.
        ensures unchanged { IsFalse result → state.new ≡ state.old }
        // The capacity of the state doesn't change.
        ensures room { state.new.room ≡ state.old.room }
        // The capacity of the replies doesn't change.
        ensures replies { replies.new.room ≡ replies.old.room };

    /// Answers `false` only where an operation can't get this reply any more, alone or beside
    /// others, at this list or after more is served. An object that doesn't define this function
    /// always answers `true`.
    fn may_reply(&self, state: &State, op: OpWord, reply: u64) -> bool
        // The answer is `false` only where the operation never gets this reply, at this list or
        // after more is served.
        ensures { IsFalse result → NeverRepliesFrom (served self.now) state.now.words op reply }
    {
        true
    }

    /// Operations that are served at once get one reply each.
    ghost replies_to_each: { (object : Self) (list ops after replies : List ℕ)
        → served object list ops ≡ Some (after, replies) → length replies ≡ length ops };
}
