ghost use Rattle.std.specs.Prelude.{[], ◌≡◌, ◌↔◌, IsTrue};
ghost use Rattle.book_base.specs.Reaching.{Leaves, MayReply};
ghost use Rattle.seq_objects.specs.declared.kind.Kind.TheVariants as kinds;
ghost use Rattle.seq_objects.specs.Words.{is_known_word};
ghost use Rattle.seq_objects.specs.PqueueSteps.{pqueue_operation, pqueue_after, pqueue_after-unknown};

use crate::entry::{INSERT, MIN, argument_of};
use crate::items::{insert_in_order, take_first};
use crate::kind::Kind;
use crate::reply::{DONE, is_value, is_value_or_none};
use book_base::{BAD, OpWord, SeqObject, State};

/// A priority queue, which gives the least item first.
#[derive(Clone, Copy, Debug)]
pub struct Pqueue;

/// An operation of a priority queue, with its argument.
#[derive(Clone, Copy, Debug, PartialEq, Eq)]
pub enum PqueueOperation {
    Insert(u32),
    Min,
}

impl PqueueOperation {
    /// The operation that an operation word stands for, where a priority queue knows the word.
    pub fn from_word(word: OpWord) -> Option<PqueueOperation>
        ensures { result ≡ pqueue_operation word }
    {
        if INSERT.has(word) {
            Some(PqueueOperation::Insert(argument_of(word)))
        } else if MIN.has(word) {
            Some(PqueueOperation::Min)
        } else {
            None
        }
    }
}

impl SeqObject for Pqueue {
    ghost is_known = { λ _. is_known_word kinds.Pqueue };

    ghost spec = { λ _. record { init = []; next = λ list op. pqueue_after list (pqueue_operation op) } };

    ghost unknown_is_bad = { λ _ list op. pqueue_after-unknown list op };

    fn known(&self, op: OpWord) -> bool {
        Kind::Pqueue.known(op)
    }

    #[tactic(auto, unfolding(crate::specs::Objects::kind_next))]
    fn capacity(&self, operations: u64) -> u64 {
        Kind::Pqueue.capacity(operations)
    }

    fn reset(&self, state: &mut State) {
        state.clear();
    }

    fn step(&self, state: &mut State, op: OpWord) -> u64 {
        match PqueueOperation::from_word(op) {
            Some(PqueueOperation::Insert(value)) => {
                insert_in_order(state, u64::from(value));
                DONE
            }
            Some(PqueueOperation::Min) => take_first(state),
            None => BAD,
        }
    }

    fn leaves(&self, op: OpWord, reply: u64) -> bool
        // The answer is whether the operation of a priority queue is read-only with this reply: it
        // changes no list at which it has this reply.
        ensures { IsTrue result
            ↔ Leaves (λ list op. pqueue_after list (pqueue_operation op)) op reply }
    {
        match PqueueOperation::from_word(op) {
            Some(PqueueOperation::Insert(_)) => reply != DONE,
            Some(PqueueOperation::Min) => !is_value(reply),
            None => true,
        }
    }

    fn may_reply(&self, op: OpWord, reply: u64) -> bool
        // The answer is whether the operation of a priority queue may have this reply: whether it
        // has it at some list.
        ensures { IsTrue result
            ↔ MayReply (λ list op. pqueue_after list (pqueue_operation op)) op reply }
    {
        match PqueueOperation::from_word(op) {
            Some(PqueueOperation::Insert(_)) => reply == DONE,
            Some(PqueueOperation::Min) => is_value_or_none(reply),
            None => reply == BAD,
        }
    }
}
