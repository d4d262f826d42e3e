ghost use Rattle.std.specs.Prelude.{◌≡◌, ◌≤◌, [], length, ◌↔◌, IsTrue};
ghost use Rattle.book_base.specs.Reaching.{Leaves, MayReply};
ghost use Rattle.seq_objects.specs.declared.kind.Kind.TheVariants as kinds;
ghost use Rattle.seq_objects.specs.Words.{is_known_word};
ghost use Rattle.seq_objects.specs.MapSteps as steps;
ghost use Rattle.seq_objects.specs.MapSteps.{map_operation, map_after, map_after-unknown, put_in, value_at, without, place_of_key};

use crate::entry::{DEL, GET, PUT, argument_of, extra_of};
use crate::items::insert_in_order;
use crate::kind::Kind;
use crate::reply::{NONE, is_value, is_value_or_none, wrapping_value_reply};
use book_base::{BAD, OpWord, SeqObject, State};

/// How many values a key can have.
const VALUES: u64 = 1 << 32;

/// A map of keys to values, both below 2^32.
#[derive(Clone, Copy, Debug)]
pub struct Map;

/// An operation of a map, with its arguments.
#[derive(Clone, Copy, Debug, PartialEq, Eq)]
pub enum MapOperation {
    Put(u32, u32),
    Get(u32),
    Delete(u32),
}

impl MapOperation {
    /// The operation that an operation word stands for, where a map knows the word.
    pub fn from_word(word: OpWord) -> Option<MapOperation>
        ensures { result ≡ map_operation word }
    {
        if PUT.has(word) {
            let (key, value) = (argument_of(word), extra_of(word));
            Some(MapOperation::Put(key, value))
        } else if GET.has(word) {
            Some(MapOperation::Get(argument_of(word)))
        } else if DEL.has(word) {
            Some(MapOperation::Delete(argument_of(word)))
        } else {
            None
        }
    }
}

/// The item of a map for a key and its value: the key times 2^32, plus the value.
fn item_of(key: u32, value: u32) -> u64
    ensures { result ≡ steps.item_of key value }
{
    u64::from(key) * VALUES + u64::from(value)
}

/// The place of the first item with a key, if there is one.
fn place_of_key(words: &[u64], key: u32) -> Option<usize>
    ensures { result ≡ place_of_key words.now key }
{
    words
        .iter()
        .position(|&item| item / VALUES == u64::from(key))
}

/// Gives a key a value: the reply gives the value that the key had, or says that it had none.
fn put(state: &mut State, key: u32, value: u32) -> u64
    requires { length (put_in state.old.words key value).0 ≤ state.old.room }
    ensures list { state.new ≡ record state.old { words = (put_in state.old.words key value).0 } }
    ensures reply { result ≡ (put_in state.old.words key value).1 }
{
    let item = item_of(key, value);
    let Some(place) = place_of_key(state.words(), key) else {
        insert_in_order(state, item);
        return NONE;
    };
    let old = state.remove(place as u64);
    state.insert(place as u64, item);
    wrapping_value_reply(old)
}

/// The reply that gives the value of a key, or says that the key has none.
fn get(state: &State, key: u32) -> u64
    ensures { result ≡ value_at state.now.words (place_of_key state.now.words key) }
{
    match place_of_key(state.words(), key) {
        Some(place) => wrapping_value_reply(state.get(place as u64)),
        None => NONE,
    }
}

/// Takes out the first item with a key: the reply gives its value, or says that there is none.
fn delete(state: &mut State, key: u32) -> u64
    ensures list { state.new ≡
        record state.old { words = without state.old.words (place_of_key state.old.words key) } }
    ensures reply { result ≡ value_at state.old.words (place_of_key state.old.words key) }
{
    match place_of_key(state.words(), key) {
        Some(place) => wrapping_value_reply(state.remove(place as u64)),
        None => NONE,
    }
}

impl SeqObject for Map {
    ghost is_known = { λ _. is_known_word kinds.Map };

    ghost spec = { λ _. record { init = []; next = λ list op. map_after list (map_operation op) } };

    ghost unknown_is_bad = { λ _ list op. map_after-unknown list op };

    fn known(&self, op: OpWord) -> bool {
        Kind::Map.known(op)
    }

    #[tactic(auto, unfolding(crate::specs::Objects::kind_next))]
    fn capacity(&self, operations: u64) -> u64 {
        Kind::Map.capacity(operations)
    }

    fn reset(&self, state: &mut State) {
        state.clear();
    }

    fn step(&self, state: &mut State, op: OpWord) -> u64 {
        match MapOperation::from_word(op) {
            Some(MapOperation::Put(key, value)) => put(state, key, value),
            Some(MapOperation::Get(key)) => get(state, key),
            Some(MapOperation::Delete(key)) => delete(state, key),
            None => BAD,
        }
    }

    fn leaves(&self, op: OpWord, reply: u64) -> bool
        // The answer is whether the operation of a map is read-only with this reply: it changes no
        // list at which it has this reply.
        ensures { IsTrue result ↔ Leaves (λ list op. map_after list (map_operation op)) op reply }
    {
        match MapOperation::from_word(op) {
            // A put whose reply is the value that it puts in found this value there and changes
            // nothing. A reply that is neither `NONE` nor a value is the reply of no put.
            Some(MapOperation::Put(_, value)) => {
                reply == wrapping_value_reply(u64::from(value)) || reply != NONE && !is_value(reply)
            }
            Some(MapOperation::Get(_)) => true,
            Some(MapOperation::Delete(_)) => !is_value(reply),
            None => true,
        }
    }

    fn may_reply(&self, op: OpWord, reply: u64) -> bool
        // The answer is whether the operation of a map may have this reply: whether it has it at
        // some list.
        ensures { IsTrue result ↔ MayReply (λ list op. map_after list (map_operation op)) op reply }
    {
        match MapOperation::from_word(op) {
            Some(_) => is_value_or_none(reply),
            None => reply == BAD,
        }
    }
}
