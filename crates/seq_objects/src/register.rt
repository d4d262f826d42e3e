ghost use Rattle.std.specs.Prelude.{[], ◌∷◌, ◌≡◌, ◌↔◌, IsTrue};
ghost use Rattle.book_base.specs.Reaching.{Leaves, MayReply};
ghost use Rattle.seq_objects.specs.declared.kind.Kind.TheVariants as kinds;
ghost use Rattle.seq_objects.specs.Words.{is_known_word};
ghost use Rattle.seq_objects.specs.RegisterSteps.{register_operation, register_after, register_after-unknown};

use crate::entry::{READ, WRITE, argument_of};
use crate::items::{first_or_zero, set_only};
use crate::kind::Kind;
use crate::reply::{DONE, is_value, wrapping_value_reply};
use book_base::{BAD, OpWord, SeqObject, State};

/// A register, which is 0 at first.
#[derive(Clone, Copy, Debug)]
pub struct Register;

/// An operation of a register, with its argument.
#[derive(Clone, Copy, Debug, PartialEq, Eq)]
pub enum RegisterOperation {
    Write(u32),
    Read,
}

impl RegisterOperation {
    /// The operation that an operation word stands for, where a register knows the word.
    pub fn from_word(word: OpWord) -> Option<RegisterOperation>
        ensures { result ≡ register_operation word }
    {
        if WRITE.has(word) {
            Some(RegisterOperation::Write(argument_of(word)))
        } else if READ.has(word) {
            Some(RegisterOperation::Read)
        } else {
            None
        }
    }
}

impl SeqObject for Register {
    ghost is_known = { λ _. is_known_word kinds.Register };

    ghost spec = { λ _. record { init = 0 ∷ []; next = λ list op. register_after list (register_operation op) } };

    ghost unknown_is_bad = { λ _ list op. register_after-unknown list op };

    fn known(&self, op: OpWord) -> bool {
        Kind::Register.known(op)
    }

    #[tactic(auto, unfolding(crate::specs::Objects::kind_next))]
    fn capacity(&self, operations: u64) -> u64 {
        Kind::Register.capacity(operations)
    }

    fn reset(&self, state: &mut State) {
        state.clear();
        state.push(0);
    }

    fn step(&self, state: &mut State, op: OpWord) -> u64 {
        match RegisterOperation::from_word(op) {
            Some(RegisterOperation::Write(value)) => {
                set_only(state, u64::from(value));
                DONE
            }
            Some(RegisterOperation::Read) => wrapping_value_reply(first_or_zero(state)),
            None => BAD,
        }
    }

    fn leaves(&self, op: OpWord, reply: u64) -> bool
        // The answer is whether the operation of a register is read-only with this reply: it
        // changes no list at which it has this reply.
        ensures { IsTrue result
            ↔ Leaves (λ list op. register_after list (register_operation op)) op reply }
    {
        match RegisterOperation::from_word(op) {
            Some(RegisterOperation::Write(_)) => reply != DONE,
            Some(RegisterOperation::Read) => true,
            None => true,
        }
    }

    fn may_reply(&self, op: OpWord, reply: u64) -> bool
        // The answer is whether the operation of a register may have this reply: whether it has it
        // at some list.
        ensures { IsTrue result
            ↔ MayReply (λ list op. register_after list (register_operation op)) op reply }
    {
        match RegisterOperation::from_word(op) {
            Some(RegisterOperation::Write(_)) => reply == DONE,
            Some(RegisterOperation::Read) => is_value(reply),
            None => reply == BAD,
        }
    }
}
