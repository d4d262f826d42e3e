ghost use Rattle.std.specs.Prelude.{◌≡◌, ◌<◌, ◌≤◌, length, slice_set, IfOk};
ghost use Rattle.book_base.specs.declared.TheConstants.{MAX_CALLS};
ghost use Rattle.frontier_check.specs.Prefix.{IsBookCapacity};
ghost use Rattle.frontier_check.specs.Search.{order_of};

use crate::choice::Choice;
use crate::memo::Memo;
use book_base::{MAX_CALLERS, MAX_CALLS, NoMemory, Place, SeqObject, State};
use std::alloc::Global;

/// The greatest number of calls that a book may have, so that a walk has fewer frames.
pub const MOST_CALLS: u64 = MAX_CALLERS as u64 * MAX_CALLS;

/// A frame of a walk: a place that was put, the words of the object's list before it, and the
/// choices that are still to be tried in its stead.
#[derive(Drop)]
pub struct WalkFrame {
    pub place: Place,
    pub words: Vec<u64>,
    pub choices: Vec<Choice>,
}

/// A walk says where a search is: the frames that lead from the prefix to a cut and a list, the
/// counts of this cut, the object's state with this list, the choices that are still to be tried at
/// them, the best one last, and a memo of the dead ends that were found.
///
/// Only `here` is a state of the object. A step changes it, and a retreat loads it with the words
/// of the last frame.
#[derive(Drop)]
pub struct Walk {
    pub frames: Vec<WalkFrame>,
    pub counts: Vec<u16>,
    pub here: State,
    pub choices: Vec<Choice>,
    pub memo: Memo,
}

/// The outcome of one step of a search.
#[derive(Drop)]
pub enum StepOutcome {
    /// The places of the prefix and then those of the frames are a legal order.
    Found,
    /// No places continue an order from the end of the prefix.
    NoneLeft,
    /// The search isn't over, and takes another step.
    GoesOn,
}

/// The places of some frames, in their order.
pub fn places(alloc: Global, frames: &[WalkFrame]) -> Result<Vec<Place>, NoMemory>
    ensures { IfOk result (λ order. order.items ≡ order_of frames.now) }
{
    let mut order = Vec::with_capacity(alloc, frames.len())?;
    for frame in frames {
        order.push(frame.place)?;
    }
    Ok(order)
}

/// An empty state with capacity for each list that the object reaches in a book.
pub fn empty_state<S: SeqObject>(alloc: Global, object: &S) -> Result<State, NoMemory>
    ensures { IfOk result (λ state. IsBookCapacity (S.spec object.now) state.room) }
{
    State::with_room(alloc, object.capacity(MOST_CALLS))
}

/// Makes `words` the list of a state, which keeps its capacity.
pub fn load(state: &mut State, words: &[u64])
    // The state has capacity for `words`.
    requires { length words.now ≤ state.old.room }
    ensures { state.new ≡ record state.old { words = words.now } }
{
    state.clear();
    for word in words {
        state.push(*word);
    }
}

/// Makes `number` the count of a caller among the counts of a cut. All other counts stay.
pub fn set_count(counts: &mut Vec<u16>, caller: u32, number: u64)
    requires caller { caller < length counts.old.items }
    requires number { number ≤ MAX_CALLS }
    ensures { counts.new.items ≡ slice_set counts.old.items caller number }
{
    counts[caller as usize] = number as u16;
}
