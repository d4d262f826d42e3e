ghost use Rattle.std.specs.Prelude.{◌≡◌, ◌≤◌, [], ◌∷◌, length};
ghost use Rattle.book_base.specs.State.{Contents};
ghost use Rattle.seq_objects.specs.Items as items;

use crate::reply::{NONE, wrapping_value_reply};
use book_base::State;

/// Takes out the first item: the reply gives it modulo 2^32, or says that there is none.
pub fn take_first(state: &mut State) -> u64
    ensures list { state.new ≡
        record state.old { words = (items.first_taken state.old.words).0 } }
    ensures reply { result ≡ (items.first_taken state.old.words).1 }
{
    if state.is_empty() {
        return NONE;
    }
    wrapping_value_reply(state.remove(0))
}

/// Takes out the last item: the reply gives it modulo 2^32, or says that there is none.
pub fn take_last(state: &mut State) -> u64
    ensures list { state.new ≡
        record state.old { words = (items.last_taken state.old.words).0 } }
    ensures reply { result ≡ (items.last_taken state.old.words).1 }
{
    if state.is_empty() {
        return NONE;
    }
    let last = state.len() - 1;
    wrapping_value_reply(state.remove(last))
}

/// The first item, or 0 where there is none.
pub fn first_or_zero(state: &State) -> u64
    ensures { result ≡ items.first_or_zero state.now.words }
{
    if state.is_empty() { 0 } else { state.get(0) }
}

/// Makes `item` the only item of the list.
pub fn set_only(state: &mut State, item: u64)
    requires { 1 ≤ state.old.room }
    ensures { state.new ≡ record state.old { words = item ∷ [] } }
{
    state.clear();
    state.push(item);
}

/// The first place of a value in a list, if it is there.
pub fn place_of(words: &[u64], value: u64) -> Option<usize>
    ensures { result ≡ items.place_of words.now value }
{
    words.iter().position(|&item| item == value)
}

/// The place of the first item greater than a value, or the length of the list where none is.
pub fn place_for(words: &[u64], value: u64) -> usize
    ensures { result ≡ items.place_for words.now value }
{
    words
        .iter()
        .position(|&item| value < item)
        .unwrap_or(words.len())
}

/// Puts a value before the first greater item, or at the end where none is greater.
pub fn insert_in_order(state: &mut State, value: u64)
    requires { length (items.inserted state.old.words value) ≤ state.old.room }
    ensures { state.new ≡ record state.old { words = items.inserted state.old.words value } }
{
    let place = place_for(state.words(), value);
    state.insert(place as u64, value);
}
