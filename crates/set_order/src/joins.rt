ghost use Rattle.std.specs.Prelude.{◌≡◌, ◌↔◌, ◌+◌, ◌^◌, ◌<◌, [], ◌∷◌, IsTrue};
ghost use Rattle.set_order.specs.Joins.{is_join, mask_of, with_join, with_joins, joins_some, join_reply, served_joins, HasMask};
ghost use Rattle.set_order.specs.ServingLaws.{served_joins-replies};

use crate::set_object::SetObject;
use book_base::{BAD, OpWord, State};
use seq_objects::wrapping_value_reply;

// The operation word that joins the number 0. The words that join the numbers 1 to 31 follow it.
const FIRST_JOIN: OpWord = 1 << 32;

// How many numbers may be joined.
const JOINS: OpWord = 32;

// How many masks there are: a mask has 32 bits, one for each number.
const MASKS: u64 = 1 << 32;

// The tag of a reply word that gives a mask.
const VALUE_TAG: u64 = 2;

/// A set of numbers below 32, to which each operation joins one. Operations that are served at once
/// see one another's numbers: each replies with all numbers that are joined after them (Neiger
/// 1994).
#[derive(Clone, Copy, Debug)]
pub struct Joins;

impl Joins {
    /// The operation that joins a number below 32.
    pub fn join(number: u32) -> OpWord
        // The number is below 32.
        requires { number < 32 }
        ensures { result ≡ 2 ^ 32 + number }
    {
        FIRST_JOIN + OpWord::from(number)
    }

    /// Whether an operation word joins a number.
    pub fn knows(op: OpWord) -> bool
        ensures { result ≡ is_join op }
    {
        op >= FIRST_JOIN && op < FIRST_JOIN + JOINS
    }
}

impl SetObject for Joins {
    ghost init = { λ _. 0 ∷ [] };

    ghost served = { λ _. served_joins };

    /// One word, for each number of operations: a list has no more at first, nor after a join.
    fn capacity(&self, _operations: u64) -> u64 {
        1
    }

    fn reset(&self, state: &mut State) {
        state.clear();
        state.push(0);
    }

    fn serve(&self, state: &mut State, ops: &[OpWord], replies: &mut State) -> bool {
        let mask = with_joins(mask(state), ops);
        if joins_some(ops) {
            state.clear();
            state.push(mask);
        }
        replies.clear();
        for op in ops {
            replies.push(join_reply(mask, *op));
        }
        true
    }

    /// Whether an operation may still get this reply. Numbers stay joined, so a join may get only a
    /// reply with all numbers that the list says are joined, and its own; any other operation may
    /// get only `BAD`.
    fn may_reply(&self, state: &State, op: OpWord, reply: u64) -> bool {
        if Joins::knows(op) {
            has_mask(reply, with_join(mask(state), op))
        } else {
            reply == BAD
        }
    }

    ghost replies_to_each = { λ _. served_joins-replies };
}

// The mask of the numbers that a list says are joined: its first word modulo 2^32, or 0 for the
// empty list.
fn mask(state: &State) -> u64
    ensures { result ≡ mask_of state.now.words }
{
    if state.is_empty() {
        0
    } else {
        state.get(0) % MASKS
    }
}

// The mask `mask` with the number that an operation joins, where it joins one.
fn with_join(mask: u64, op: OpWord) -> u64
    ensures { result ≡ with_join mask op }
{
    if Joins::knows(op) {
        mask | 1 << (op - FIRST_JOIN)
    } else {
        mask
    }
}

// The mask `mask` with the numbers that some operations join.
fn with_joins(mask: u64, ops: &[OpWord]) -> u64
    ensures { result ≡ with_joins mask ops.now }
{
    ops.iter().fold(mask, |mask, op| with_join(mask, *op))
}

// Whether a reply word gives a mask that has all numbers of the mask `mask`.
fn has_mask(reply: u64, mask: u64) -> bool
    ensures { IsTrue result ↔ HasMask reply mask }
{
    reply / MASKS == VALUE_TAG && reply % MASKS & mask == mask
}

// Whether one of some operations joins a number.
fn joins_some(ops: &[OpWord]) -> bool
    ensures { result ≡ joins_some ops.now }
{
    ops.iter().filter(|op| Joins::knows(**op)).count() > 0
}

// The reply to an operation when exactly the numbers of `mask` are joined: a join replies with the
// mask, any other operation gets `BAD`.
fn join_reply(mask: u64, op: OpWord) -> u64
    ensures { result ≡ join_reply mask op }
{
    if Joins::knows(op) {
        wrapping_value_reply(mask)
    } else {
        BAD
    }
}
