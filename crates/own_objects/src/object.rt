ghost use Rattle.std.specs.Prelude.{◌≡◌, ℕ, true, IsTrue, IfOk};
ghost use Rattle.own_objects.specs.Objects.{IsReadOnlyWith};

use book_base::{NoMemory, OpWord};
use std::alloc::Global;
use std::hash::Hash;

/// A sequential object of one's own: the state that it begins with, and what an operation does to a
/// state and replies (Herlihy and Wing 1990).
pub trait OwnObject {
    /// The states, as the program keeps them.
    type State: Eq + Hash + Drop;

    /// What a state is, however the program keeps it. No value of this type is made. It is `State`
    /// itself where a state is nothing but its fields; a list is written as an array, `[u64; 0]`,
    /// since a clause reads an array as a list of any length.
    type Value;

    /// What a state is.
    ghost value: { Self.State → Self.Value };

    /// The state that the object begins with.
    ghost initial: { Self → Self.Value };

    /// The state after an operation word at a state, and the reply.
    ghost next: { Self → Self.Value → ℕ → Self.Value × ℕ };

    /// The state that the object begins with.
    fn initial(&self, alloc: Global) -> Result<Self::State, NoMemory>
        ensures { IfOk result (λ state. value state ≡ initial self.now) };

    /// The state after an operation at a state, and the reply.
    fn step(
        &self,
        alloc: Global,
        state: &Self::State,
        op: OpWord,
    ) -> Result<(Self::State, u64), NoMemory>
        ensures { IfOk result
            (λ made. (value made.0, made.1) ≡ next self.now (value state.now) op) };

    /// Whether an operation is known to change no state at which it has this reply. A judgement
    /// takes such calls at once, so an object with reads is judged sooner where they are named. The
    /// default knows of none.
    fn leaves(&self, op: OpWord, reply: u64) -> bool
        // The answer is `true` only where the operation changes no state at which it has this
        // reply.
        ensures { IsTrue result → IsReadOnlyWith (next self.now) op reply }
    {
        false
    }

    /// States that compare as equal are the same.
    ghost same: { (a b : Self.State) → Self.State.eq a b ≡ true → value a ≡ value b };
}
