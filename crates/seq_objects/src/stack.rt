ghost use Rattle.std.specs.Prelude.{[], ◌≡◌, ◌↔◌, IsTrue};
ghost use Rattle.book_base.specs.Reaching.{Leaves, MayReply};
ghost use Rattle.seq_objects.specs.declared.kind.Kind.TheVariants as kinds;
ghost use Rattle.seq_objects.specs.Words.{is_known_word};
ghost use Rattle.seq_objects.specs.StackSteps.{stack_operation, stack_after, stack_after-unknown};

use crate::entry::{POP, PUSH, argument_of};
use crate::items::take_last;
use crate::kind::Kind;
use crate::reply::{DONE, is_value, is_value_or_none};
use book_base::{BAD, OpWord, SeqObject, State};

/// A last-in first-out stack.
#[derive(Clone, Copy, Debug)]
pub struct Stack;

/// An operation of a stack, with its argument.
#[derive(Clone, Copy, Debug, PartialEq, Eq)]
pub enum StackOperation {
    Push(u32),
    Pop,
}

impl StackOperation {
    /// The operation that an operation word stands for, where a stack knows the word.
    pub fn from_word(word: OpWord) -> Option<StackOperation>
        ensures { result ≡ stack_operation word }
    {
        if PUSH.has(word) {
            Some(StackOperation::Push(argument_of(word)))
        } else if POP.has(word) {
            Some(StackOperation::Pop)
        } else {
            None
        }
    }
}

impl SeqObject for Stack {
    ghost is_known = { λ _. is_known_word kinds.Stack };

    ghost spec = { λ _. record { init = []; next = λ list op. stack_after list (stack_operation op) } };

    ghost unknown_is_bad = { λ _ list op. stack_after-unknown list op };

    fn known(&self, op: OpWord) -> bool {
        Kind::Stack.known(op)
    }

    #[tactic(auto, unfolding(crate::specs::Objects::kind_next))]
    fn capacity(&self, operations: u64) -> u64 {
        Kind::Stack.capacity(operations)
    }

    fn reset(&self, state: &mut State) {
        state.clear();
    }

    fn step(&self, state: &mut State, op: OpWord) -> u64 {
        match StackOperation::from_word(op) {
            Some(StackOperation::Push(value)) => {
                state.push(u64::from(value));
                DONE
            }
            Some(StackOperation::Pop) => take_last(state),
            None => BAD,
        }
    }

    fn leaves(&self, op: OpWord, reply: u64) -> bool
        // The answer is whether the operation of a stack is read-only with this reply: it changes
        // no list at which it has this reply.
        ensures { IsTrue result
            ↔ Leaves (λ list op. stack_after list (stack_operation op)) op reply }
    {
        match StackOperation::from_word(op) {
            Some(StackOperation::Push(_)) => reply != DONE,
            Some(StackOperation::Pop) => !is_value(reply),
            None => true,
        }
    }

    fn may_reply(&self, op: OpWord, reply: u64) -> bool
        // The answer is whether the operation of a stack may have this reply: whether it has it at
        // some list.
        ensures { IsTrue result
            ↔ MayReply (λ list op. stack_after list (stack_operation op)) op reply }
    {
        match StackOperation::from_word(op) {
            Some(StackOperation::Push(_)) => reply == DONE,
            Some(StackOperation::Pop) => is_value_or_none(reply),
            None => reply == BAD,
        }
    }
}
