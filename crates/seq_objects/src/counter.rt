ghost use Rattle.std.specs.Prelude.{[], ◌∷◌, ◌≡◌, ◌↔◌, IsTrue};
ghost use Rattle.book_base.specs.Reaching.{Leaves, MayReply};
ghost use Rattle.seq_objects.specs.declared.kind.Kind.TheVariants as kinds;
ghost use Rattle.seq_objects.specs.Words.{is_known_word};
ghost use Rattle.seq_objects.specs.CounterSteps.{counter_operation, counter_after, counter_after-unknown};

use crate::entry::INC;
use crate::items::{first_or_zero, set_only};
use crate::kind::Kind;
use crate::reply::{is_value, wrapping_value_reply};
use book_base::{BAD, OpWord, SeqObject, State};

/// How many values a count can have: it counts modulo 2^32.
const COUNTS: u64 = 1 << 32;

/// A counter modulo 2^32, which is 0 at first.
#[derive(Clone, Copy, Debug)]
pub struct Counter;

/// An operation of a counter.
#[derive(Clone, Copy, Debug, PartialEq, Eq)]
pub enum CounterOperation {
    Increment,
}

impl CounterOperation {
    /// The operation that an operation word stands for, where a counter knows the word.
    pub fn from_word(word: OpWord) -> Option<CounterOperation>
        ensures { result ≡ counter_operation word }
    {
        if INC.has(word) {
            Some(CounterOperation::Increment)
        } else {
            None
        }
    }
}

impl SeqObject for Counter {
    ghost is_known = { λ _. is_known_word kinds.Counter };

    ghost spec = { λ _. record { init = 0 ∷ []; next = λ list op. counter_after list (counter_operation op) } };

    ghost unknown_is_bad = { λ _ list op. counter_after-unknown list op };

    fn known(&self, op: OpWord) -> bool {
        Kind::Counter.known(op)
    }

    #[tactic(auto, unfolding(crate::specs::Objects::kind_next))]
    fn capacity(&self, operations: u64) -> u64 {
        Kind::Counter.capacity(operations)
    }

    fn reset(&self, state: &mut State) {
        state.clear();
        state.push(0);
    }

    fn step(&self, state: &mut State, op: OpWord) -> u64 {
        match CounterOperation::from_word(op) {
            Some(CounterOperation::Increment) => {
                let count = first_or_zero(state) % COUNTS;
                set_only(state, (count + 1) % COUNTS);
                wrapping_value_reply(count)
            }
            None => BAD,
        }
    }

    fn leaves(&self, op: OpWord, reply: u64) -> bool
        // The answer is whether the operation of a counter is read-only with this reply: it changes
        // no list at which it has this reply.
        ensures { IsTrue result
            ↔ Leaves (λ list op. counter_after list (counter_operation op)) op reply }
    {
        match CounterOperation::from_word(op) {
            Some(CounterOperation::Increment) => !is_value(reply),
            None => true,
        }
    }

    fn may_reply(&self, op: OpWord, reply: u64) -> bool
        // The answer is whether the operation of a counter may have this reply: whether it has it
        // at some list.
        ensures { IsTrue result
            ↔ MayReply (λ list op. counter_after list (counter_operation op)) op reply }
    {
        match CounterOperation::from_word(op) {
            Some(CounterOperation::Increment) => is_value(reply),
            None => reply == BAD,
        }
    }
}
