ghost use Rattle.std.specs.Prelude.{◌≡◌, ℕ, ◌∷◌, [], unwrap_or, ◌≤◌, length, IfOk};
ghost use Rattle.book_base.specs.Book.{IsCall, operation_of};
ghost use Rattle.book_base.specs.Next.{next_call};
ghost use Rattle.refutations.specs.Closed.{first_item, item_after};
ghost use Rattle.refutations.specs.Stored.{item_of, Fits, IsBookCapacity};

use book_base::{Book, Call, MAX_CALLERS, MAX_CALLS, NoMemory, SeqObject, State};
use std::alloc::Global;

/// The greatest number of calls that a book may have.
pub const MOST_CALLS: u64 = MAX_CALLERS as u64 * MAX_CALLS;

/// An item of a list as it is stored: how many of its first calls each caller has made, and the
/// words of the object's list.
#[derive(Debug, PartialEq, Eq, Hash, Drop)]
pub struct StoredItem {
    pub counts: Vec<u16>,
    pub words: Vec<u64>,
}

/// An empty state with capacity for each list that the object reaches in a book.
pub fn empty_state<S: SeqObject>(alloc: Global, object: &S) -> Result<State, NoMemory>
    ensures { IfOk result (λ state. IsBookCapacity (S.spec object.now) state.room) }
{
    State::with_room(alloc, object.capacity(MOST_CALLS))
}

/// The item before all calls.
pub fn start<S: SeqObject>(
    alloc: Global,
    object: &S,
    book: &Book,
    state: &mut State,
) -> Result<StoredItem, NoMemory>
    requires { IsBookCapacity (S.spec object.now) state.old.room }
    ensures item { IfOk result (λ item. item_of item ≡ first_item (S.spec object.now) book.now) }
    ensures fits { IfOk result
        (λ item. Fits (S.spec object.now) book.now state.new.room (item_of item)) }
    ensures room { state.new.room ≡ state.old.room }
{
    object.reset(state);
    Ok(StoredItem {
        counts: vec![in alloc; 0; book.callers() as usize]?,
        words: Vec::from_slice(alloc, state.words())?,
    })
}

impl StoredItem {
    /// The same item once more.
    pub fn copy(&self, alloc: Global) -> Result<StoredItem, NoMemory>
        ensures { IfOk result (λ item. item_of item ≡ item_of self.now) }
    {
        Ok(StoredItem {
            counts: Vec::from_slice(alloc, &self.counts)?,
            words: Vec::from_slice(alloc, &self.words)?,
        })
    }

    /// The item after the next call of a caller, and the object's reply to this call.
    pub fn after<S: SeqObject>(
        &self,
        alloc: Global,
        object: &S,
        book: &Book,
        state: &mut State,
        caller: u32,
    ) -> Result<(StoredItem, u64), NoMemory>
        requires fits { Fits (S.spec object.now) book.now state.old.room (item_of self.now) }
        requires call { IsCall book.now (next_call self.now.counts.items caller) }
        ensures item { IfOk result (λ made. item_of made.0
            ≡ item_after (S.spec object.now) book.now (item_of self.now) caller) }
        ensures fits { IfOk result
            (λ made. Fits (S.spec object.now) book.now state.new.room (item_of made.0)) }
        ensures reply { IfOk result (λ made. made.1 ≡ ((S.spec object.now).next self.now.words.items
            (unwrap_or (operation_of book.now (next_call self.now.counts.items caller)) 0)).1) }
        ensures room { state.new.room ≡ state.old.room }
    {
        let _callers = book.callers();
        let number = u64::from(self.counts[caller as usize]);
        load(state, &self.words);
        let reply = object.step(state, book.op(Call { caller, number }));
        let words = Vec::from_slice(alloc, state.words())?;
        let mut counts = Vec::from_slice(alloc, &self.counts)?;
        counts[caller as usize] += 1;
        Ok((StoredItem { counts, words }, reply))
    }
}

// Makes `words` the list of a state, which keeps its capacity.
fn load(state: &mut State, words: &[u64])
    requires { length words.now ≤ state.old.room }
    ensures { state.new ≡ record state.old { words = words.now } }
{
    state.clear();
    for word in words {
        state.push(*word);
    }
}
