ghost use Rattle.std.specs.Prelude.{◌≡◌, ◌≤◌, [], length, ◌↔◌, IsTrue};
ghost use Rattle.book_base.specs.Reaching.{Leaves, MayReply};
ghost use Rattle.seq_objects.specs.declared.kind.Kind.TheVariants as kinds;
ghost use Rattle.seq_objects.specs.Words.{is_known_word};
ghost use Rattle.seq_objects.specs.IntSetSteps.{set_operation, set_after, added, removed, set_after-unknown};

use crate::entry::{ADD, HAS, REMOVE, argument_of};
use crate::items::{insert_in_order, place_of};
use crate::kind::Kind;
use crate::reply::{NO, YES, is_yes_or_no};
use book_base::{BAD, OpWord, SeqObject, State};

/// A set of numbers below 2^32.
#[derive(Clone, Copy, Debug)]
pub struct IntSet;

/// An operation of a set, with its argument.
#[derive(Clone, Copy, Debug, PartialEq, Eq)]
pub enum IntSetOperation {
    Add(u32),
    Remove(u32),
    Has(u32),
}

impl IntSetOperation {
    /// The operation that an operation word stands for, where a set knows the word.
    pub fn from_word(word: OpWord) -> Option<IntSetOperation>
        ensures { result ≡ set_operation word }
    {
        if ADD.has(word) {
            Some(IntSetOperation::Add(argument_of(word)))
        } else if REMOVE.has(word) {
            Some(IntSetOperation::Remove(argument_of(word)))
        } else if HAS.has(word) {
            Some(IntSetOperation::Has(argument_of(word)))
        } else {
            None
        }
    }
}

/// Adds a value and replies `YES`, where the set lacks it; else replies `NO`.
fn add(state: &mut State, value: u64) -> u64
    requires { length (added state.old.words value).0 ≤ state.old.room }
    ensures list { state.new ≡ record state.old { words = (added state.old.words value).0 } }
    ensures reply { result ≡ (added state.old.words value).1 }
{
    if place_of(state.words(), value).is_some() {
        return NO;
    }
    insert_in_order(state, value);
    YES
}

/// Takes a value out and replies `YES`, where the set has it; else replies `NO`.
fn remove(state: &mut State, value: u64) -> u64
    ensures list { state.new ≡ record state.old { words = (removed state.old.words value).0 } }
    ensures reply { result ≡ (removed state.old.words value).1 }
{
    let Some(place) = place_of(state.words(), value) else {
        return NO;
    };
    state.remove(place as u64);
    YES
}

impl SeqObject for IntSet {
    ghost is_known = { λ _. is_known_word kinds.IntSet };

    ghost spec = { λ _. record { init = []; next = λ list op. set_after list (set_operation op) } };

    ghost unknown_is_bad = { λ _ list op. set_after-unknown list op };

    fn known(&self, op: OpWord) -> bool {
        Kind::IntSet.known(op)
    }

    #[tactic(auto, unfolding(crate::specs::Objects::kind_next))]
    fn capacity(&self, operations: u64) -> u64 {
        Kind::IntSet.capacity(operations)
    }

    fn reset(&self, state: &mut State) {
        state.clear();
    }

    fn step(&self, state: &mut State, op: OpWord) -> u64 {
        match IntSetOperation::from_word(op) {
            Some(IntSetOperation::Add(value)) => add(state, u64::from(value)),
            Some(IntSetOperation::Remove(value)) => remove(state, u64::from(value)),
            Some(IntSetOperation::Has(value)) => {
                if place_of(state.words(), u64::from(value)).is_some() {
                    YES
                } else {
                    NO
                }
            }
            None => BAD,
        }
    }

    fn leaves(&self, op: OpWord, reply: u64) -> bool
        // The answer is whether the operation of a set is read-only with this reply: it changes no
        // list at which it has this reply.
        ensures { IsTrue result ↔ Leaves (λ list op. set_after list (set_operation op)) op reply }
    {
        match IntSetOperation::from_word(op) {
            Some(IntSetOperation::Add(_)) => reply != YES,
            Some(IntSetOperation::Remove(_)) => reply != YES,
            Some(IntSetOperation::Has(_)) => true,
            None => true,
        }
    }

    fn may_reply(&self, op: OpWord, reply: u64) -> bool
        // The answer is whether the operation of a set may have this reply: whether it has it at
        // some list.
        ensures { IsTrue result ↔ MayReply (λ list op. set_after list (set_operation op)) op reply }
    {
        match IntSetOperation::from_word(op) {
            Some(_) => is_yes_or_no(reply),
            None => reply == BAD,
        }
    }
}
