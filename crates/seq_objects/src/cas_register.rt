ghost use Rattle.std.specs.Prelude.{◌≡◌, ◌≤◌, [], ◌∷◌, length, ◌↔◌, IsTrue};
ghost use Rattle.book_base.specs.Reaching.{Leaves, MayReply};
ghost use Rattle.seq_objects.specs.declared.kind.Kind.TheVariants as kinds;
ghost use Rattle.seq_objects.specs.Words.{is_known_word};
ghost use Rattle.seq_objects.specs.CasRegisterSteps.{compared_and_set, cas_register_operation, cas_register_after, cas_register_after-unknown};

use crate::entry::{CAS, READ, WRITE, argument_of, extra_of};
use crate::items::{first_or_zero, set_only};
use crate::kind::Kind;
use crate::reply::{DONE, NO, YES, is_value, is_yes_or_no, wrapping_value_reply};
use book_base::{BAD, OpWord, SeqObject, State};

/// How many values a register can have: those below 2^32.
const VALUES: u64 = 1 << 32;

/// A register with compare-and-set, which is 0 at first.
#[derive(Clone, Copy, Debug)]
pub struct CasRegister;

/// An operation of a register with compare-and-set, with its arguments.
#[derive(Clone, Copy, Debug, PartialEq, Eq)]
pub enum CasRegisterOperation {
    Write(u32),
    Read,
    CompareAndSet(u32, u32),
}

impl CasRegisterOperation {
    /// The operation that an operation word stands for, where a register with compare-and-set knows
    /// the word.
    pub fn from_word(word: OpWord) -> Option<CasRegisterOperation>
        ensures { result ≡ cas_register_operation word }
    {
        if WRITE.has(word) {
            Some(CasRegisterOperation::Write(argument_of(word)))
        } else if READ.has(word) {
            Some(CasRegisterOperation::Read)
        } else if CAS.has(word) {
            let (expected, new) = (argument_of(word), extra_of(word));
            Some(CasRegisterOperation::CompareAndSet(expected, new))
        } else {
            None
        }
    }
}

/// Sets the register to `new` and replies `YES`, where it holds `expected`; else replies `NO`.
fn compare_and_set(state: &mut State, expected: u32, new: u32) -> u64
    requires { length (compared_and_set state.old.words expected new).0 ≤ state.old.room }
    ensures list { state.new ≡
        record state.old { words = (compared_and_set state.old.words expected new).0 } }
    ensures reply { result ≡ (compared_and_set state.old.words expected new).1 }
{
    if first_or_zero(state) % VALUES != u64::from(expected) {
        return NO;
    }
    set_only(state, u64::from(new));
    YES
}

impl SeqObject for CasRegister {
    ghost is_known = { λ _. is_known_word kinds.CasRegister };

    ghost spec = { λ _. record { init = 0 ∷ []; next = λ list op. cas_register_after list (cas_register_operation op) } };

    ghost unknown_is_bad = { λ _ list op. cas_register_after-unknown list op };

    fn known(&self, op: OpWord) -> bool {
        Kind::CasRegister.known(op)
    }

    #[tactic(auto, unfolding(crate::specs::Objects::kind_next))]
    fn capacity(&self, operations: u64) -> u64 {
        Kind::CasRegister.capacity(operations)
    }

    fn reset(&self, state: &mut State) {
        state.clear();
        state.push(0);
    }

    fn step(&self, state: &mut State, op: OpWord) -> u64 {
        match CasRegisterOperation::from_word(op) {
            Some(CasRegisterOperation::Write(value)) => {
                set_only(state, u64::from(value));
                DONE
            }
            Some(CasRegisterOperation::Read) => wrapping_value_reply(first_or_zero(state)),
            Some(CasRegisterOperation::CompareAndSet(expected, new)) => {
                compare_and_set(state, expected, new)
            }
            None => BAD,
        }
    }

    fn leaves(&self, op: OpWord, reply: u64) -> bool
        // The answer is whether the operation of a register with compare-and-set is read-only with
        // this reply: it changes no list at which it has this reply.
        ensures { IsTrue result
            ↔ Leaves (λ list op. cas_register_after list (cas_register_operation op)) op reply }
    {
        match CasRegisterOperation::from_word(op) {
            Some(CasRegisterOperation::Write(_)) => reply != DONE,
            Some(CasRegisterOperation::Read) => true,
            Some(CasRegisterOperation::CompareAndSet(_, _)) => reply != YES,
            None => true,
        }
    }

    fn may_reply(&self, op: OpWord, reply: u64) -> bool
        // The answer is whether the operation of a register with compare-and-set may have this
        // reply: whether it has it at some list.
        ensures { IsTrue result
            ↔ MayReply (λ list op. cas_register_after list (cas_register_operation op)) op reply }
    {
        match CasRegisterOperation::from_word(op) {
            Some(CasRegisterOperation::Write(_)) => reply == DONE,
            Some(CasRegisterOperation::Read) => is_value(reply),
            Some(CasRegisterOperation::CompareAndSet(_, _)) => is_yes_or_no(reply),
            None => reply == BAD,
        }
    }
}
