ghost use Rattle.std.specs.Prelude.{[], ◌≡◌, ◌↔◌, IsTrue};
ghost use Rattle.book_base.specs.Reaching.{Leaves, MayReply};
ghost use Rattle.seq_objects.specs.declared.kind.Kind.TheVariants as kinds;
ghost use Rattle.seq_objects.specs.Words.{is_known_word};
ghost use Rattle.seq_objects.specs.QueueSteps.{queue_operation, queue_after, queue_after-unknown};

use crate::entry::{DEQ, ENQ, argument_of};
use crate::items::take_first;
use crate::kind::Kind;
use crate::reply::{DONE, is_value, is_value_or_none};
use book_base::{BAD, OpWord, SeqObject, State};

/// A first-in first-out queue.
#[derive(Clone, Copy, Debug)]
pub struct Queue;

/// An operation of a queue, with its argument.
#[derive(Clone, Copy, Debug, PartialEq, Eq)]
pub enum QueueOperation {
    Enqueue(u32),
    Dequeue,
}

impl QueueOperation {
    /// The operation that an operation word stands for, where a queue knows the word.
    pub fn from_word(word: OpWord) -> Option<QueueOperation>
        ensures { result ≡ queue_operation word }
    {
        if ENQ.has(word) {
            Some(QueueOperation::Enqueue(argument_of(word)))
        } else if DEQ.has(word) {
            Some(QueueOperation::Dequeue)
        } else {
            None
        }
    }
}

impl SeqObject for Queue {
    ghost is_known = { λ _. is_known_word kinds.Queue };

    ghost spec = { λ _. record { init = []; next = λ list op. queue_after list (queue_operation op) } };

    ghost unknown_is_bad = { λ _ list op. queue_after-unknown list op };

    fn known(&self, op: OpWord) -> bool {
        Kind::Queue.known(op)
    }

    #[tactic(auto, unfolding(crate::specs::Objects::kind_next))]
    fn capacity(&self, operations: u64) -> u64 {
        Kind::Queue.capacity(operations)
    }

    fn reset(&self, state: &mut State) {
        state.clear();
    }

    fn step(&self, state: &mut State, op: OpWord) -> u64 {
        match QueueOperation::from_word(op) {
            Some(QueueOperation::Enqueue(value)) => {
                state.push(u64::from(value));
                DONE
            }
            Some(QueueOperation::Dequeue) => take_first(state),
            None => BAD,
        }
    }

    fn leaves(&self, op: OpWord, reply: u64) -> bool
        // The answer is whether the operation of a queue is read-only with this reply: it changes
        // no list at which it has this reply.
        ensures { IsTrue result
            ↔ Leaves (λ list op. queue_after list (queue_operation op)) op reply }
    {
        match QueueOperation::from_word(op) {
            Some(QueueOperation::Enqueue(_)) => reply != DONE,
            Some(QueueOperation::Dequeue) => !is_value(reply),
            None => true,
        }
    }

    fn may_reply(&self, op: OpWord, reply: u64) -> bool
        // The answer is whether the operation of a queue may have this reply: whether it has it at
        // some list.
        ensures { IsTrue result
            ↔ MayReply (λ list op. queue_after list (queue_operation op)) op reply }
    {
        match QueueOperation::from_word(op) {
            Some(QueueOperation::Enqueue(_)) => reply == DONE,
            Some(QueueOperation::Dequeue) => is_value_or_none(reply),
            None => reply == BAD,
        }
    }
}
