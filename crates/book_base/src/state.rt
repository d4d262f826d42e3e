ghost use Rattle.std.specs.Prelude.{◌≡◌, ℕ, ◌+◌, ◌<◌, ◌≤◌, List, [], ◌∷◌, ◌++◌, length, ◌↔◌, IfOk, IsTrue, Some, slice_get, insert, remove};
ghost use Rattle.book_base.specs.declared.TheConstants.{MAX_ROOM};

use crate::MAX_ROOM;
use crate::fault::NoMemory;
use std::alloc::Global;
use std::marker::Model;

/// The state of a sequential object: a list of words with a fixed capacity, which the code and the
/// clauses name `room`.
///
/// The list is never longer than its capacity, which is taken when the state is made, so that no
/// later call but [`State::copy`] takes memory.
#[derive(Debug, Drop)]
pub struct State {
    words: Vec<u64>,
    room: u64,
}

impl Model for State {
    ghost use Rattle.std.specs.Prelude.{◌≤◌, length, vec_capacity};
    ghost use Rattle.book_base.specs.State.{Contents};
    ghost use Rattle.book_base.specs.declared.TheConstants.{MAX_ROOM};

    ghost Value = { Contents };

    ghost view = { λ s. record { words = s.words.items; room = s.room } };

    ghost invariant = { λ s. (length s.words.items ≤ s.room) × (s.room ≤ vec_capacity s.words) × (s.room ≤ MAX_ROOM) };
}

impl State {
    /// An empty list with this capacity.
    pub fn with_room(alloc: Global, room: u64) -> Result<State, NoMemory>
        // The capacity is at most `MAX_ROOM`.
        requires { room ≤ MAX_ROOM }
        ensures { IfOk result (λ state. state ≡ record { words = []; room = room }) }
    {
        let words = Vec::with_capacity(alloc, room as usize)?;
        Ok(State { words, room })
    }

    /// The length of the list.
    pub fn len(&self) -> u64
        // The answer is how many words the list has.
        ensures count { result ≡ length self.now.words }
        // The list has no more words than its capacity.
        ensures fits { length self.now.words ≤ self.now.room }
    {
        self.words.len() as u64
    }

    /// Whether the list is empty.
    pub fn is_empty(&self) -> bool
        ensures { IsTrue result ↔ (self.now.words ≡ []) }
    {
        self.words.is_empty()
    }

    /// The capacity of the list.
    pub fn room(&self) -> u64
        // The answer is the capacity of the list.
        ensures room { result ≡ self.now.room }
        // The capacity is at most `MAX_ROOM`.
        ensures few { self.now.room ≤ MAX_ROOM }
    {
        self.room
    }

    /// The word at a place.
    pub fn get(&self, i: u64) -> u64
        // The list has a word at this place.
        requires { i < length self.now.words }
        ensures { slice_get self.now.words i ≡ Some result }
    {
        self.words[i as usize]
    }

    /// All words, in order.
    pub fn words(&self) -> &[u64]
        ensures { result.now ≡ self.now.words }
    {
        &self.words
    }

    /// Adds a word at the end.
    pub fn push(&mut self, word: u64)
        // The list has fewer words than its capacity.
        requires { length self.old.words < self.old.room }
        ensures { self.new ≡ record self.old { words = self.old.words ++ word ∷ [] } }
    {
        self.words.push(word).unwrap();
    }

    /// Puts a word in at a place. The words from this place on move one place further.
    pub fn insert(&mut self, i: u64, word: u64)
        // The place is one of the list's, or that after its last word.
        requires place { i ≤ length self.old.words }
        // The list has fewer words than its capacity.
        requires room { length self.old.words < self.old.room }
        ensures { self.new ≡ record self.old { words = insert self.old.words i word } }
    {
        self.words.insert(i as usize, word).unwrap();
    }

    /// Takes out the word at a place.
    pub fn remove(&mut self, i: u64) -> u64
        // The list has a word at this place.
        requires { i < length self.old.words }
        // The answer is the word that was at this place.
        ensures word { slice_get self.old.words i ≡ Some result }
        // The list has the other words in their order, and the capacity doesn't change.
        ensures rest { self.new ≡ record self.old { words = remove self.old.words i } }
    {
        self.words.remove(i as usize)
    }

    /// Empties the list.
    pub fn clear(&mut self)
        ensures { self.new ≡ record self.old { words = [] } }
    {
        self.words.clear();
    }

    /// Takes over another state's list. The capacity doesn't change.
    pub fn copy_from(&mut self, other: &State)
        // The other list has no more words than this state's capacity.
        requires { length other.now.words ≤ self.old.room }
        ensures { self.new ≡ record self.old { words = other.now.words } }
    {
        self.words.clear();
        self.words.extend_from_slice(&other.words).unwrap();
    }

    /// A state with the same list and the same capacity.
    pub fn copy(&self, alloc: Global) -> Result<State, NoMemory>
        ensures { IfOk result (λ state. state ≡ self.now) }
    {
        let mut words = Vec::with_capacity(alloc, self.room as usize)?;
        words.extend_from_slice(&self.words)?;
        Ok(State {
            words,
            room: self.room,
        })
    }
}
