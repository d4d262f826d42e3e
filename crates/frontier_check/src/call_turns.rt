ghost use Rattle.std.specs.Prelude.{◌≡◌, ◌<◌, ◌≤◌, length};

use crate::prefix::Prefix;
use book_base::{Book, Call, Cut, NoMemory, Place};
use std::alloc::Global;

/// The turn of each call after a prefix: of the calls that may come next, the one with the least
/// turn is tried first.
///
/// The turns are a guess. A search is right with any turns, so that no clause says what they are.
#[derive(Drop)]
pub struct CallTurns {
    turns: Vec<u32>,
    first: Cut,
    most: u64,
    guided: u32,
}

impl CallTurns {
    /// The turns of the calls after a prefix: first come the calls of a guide's later places, in
    /// the order of these places; then the other answered calls, the one whose view counts the
    /// fewest calls first; and last all others.
    pub fn new(
        alloc: Global,
        book: &Book,
        later: &[Place],
        prefix: &Prefix,
    ) -> Result<CallTurns, NoMemory>
        requires { length prefix.now.cut ≡ length book.now }
    {
        let most = most_calls(book, &prefix.cut);
        let size = (book.callers() as usize).saturating_mul(most as usize);
        let mut call_turns = CallTurns {
            turns: vec![in alloc; u32::MAX; size]?,
            first: prefix.cut,
            most,
            guided: u32::try_from(later.len()).unwrap_or(u32::MAX),
        };
        for caller in 0..book.callers() {
            call_turns.guess(book, caller, prefix.cut.get(caller), later.len());
        }
        for (index, place) in later.iter().enumerate() {
            call_turns.put(place.caller, place.number, index);
        }
        Ok(call_turns)
    }

    // Gives each answered call of a caller, from the number `first` on, a turn after those of the
    // guide's `later` places: the more calls its view counts, the later its turn.
    fn guess(&mut self, book: &Book, caller: u32, first: u64, later: usize)
        requires { caller < length book.now }
    {
        for number in first..book.answers(caller) {
            let count = total(book.view(Call { caller, number }));
            self.put(caller, number, count.saturating_add(later));
        }
    }

    // Sets the turn of a call, where the list of turns has an entry for it.
    fn put(&mut self, caller: u32, number: u64, turn: usize) {
        let turn = u32::try_from(turn).unwrap_or(u32::MAX);
        if let Some(at) = self.place_of(caller, number)
            && at < self.turns.len()
        {
            self.turns[at] = turn;
        }
    }

    // The index of a call's turn in the list of turns. `None` comes for a call that the prefix's
    // cut holds, and for a caller or a number that has no turn in this list.
    fn place_of(&self, caller: u32, number: u64) -> Option<usize> {
        if caller >= self.first.n() || number < self.first.get(caller) {
            return None;
        }
        let number = number - self.first.get(caller);
        if number >= self.most {
            return None;
        }
        let before = (caller as usize).saturating_mul(self.most as usize);
        Some(before.saturating_add(number as usize))
    }

    /// The turn of a call. Of the calls that aren't the guide's, those that don't change the
    /// object's list (`stays`) come before those that may change it: a call that doesn't change the
    /// list hinders no other call when it comes first.
    pub fn turn(&self, caller: u32, number: u64, stays: bool) -> u64 {
        let turn = match self.place_of(caller, number) {
            Some(at) if at < self.turns.len() => self.turns[at],
            _ => u32::MAX,
        };
        if stays || turn < self.guided {
            u64::from(turn)
        } else {
            u64::from(turn) + LATER
        }
    }
}

// What is added to the turn of a call that isn't the guide's and may change the object's list. It
// is more than any turn in the list of turns.
const LATER: u64 = 1 << 32;

// The greatest number of calls that a caller of a book has after a cut.
fn most_calls(book: &Book, cut: &Cut) -> u64
    requires { length cut.now ≡ length book.now }
{
    let mut most = 0;
    for caller in 0..book.callers() {
        most = book.calls(caller).saturating_sub(cut.get(caller)).max(most);
    }
    most
}

/// How many calls a view counts, of all callers together.
pub fn total(view: &Cut) -> usize {
    let mut calls = 0usize;
    for count in view.counts() {
        calls = calls.saturating_add(*count as usize);
    }
    calls
}
