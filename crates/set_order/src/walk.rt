ghost use Rattle.std.specs.Prelude.{◌≡◌, ◌+◌, ◌<◌, ◌≤◌, ◌^◌, length, IfOk};
ghost use Rattle.std.specs.List.{AllByRecursion};
ghost use Rattle.book_base.specs.declared.TheConstants.{MAX_CALLERS, MAX_CALLS};
ghost use Rattle.set_order.specs.Search.{order_of, raised_by, picked};

use crate::place_set::PlaceSet;
use book_base::{MAX_CALLERS, MAX_CALLS, NoMemory, Place, State};
use frontier_check::Memo;
use std::alloc::Global;

/// The greatest number of calls that a book may have.
pub const MOST_CALLS: u64 = MAX_CALLERS as u64 * MAX_CALLS;

/// A number above that of the frames of a walk, each of which has a set of at least one call.
pub const DEPTH: u64 = MOST_CALLS + 1;

/// A frame of a walk: a cut and a list on the way to the walk's own, with the set that was put next
/// at them, the callers whose next calls were the candidates for this set, and `left`: the parts of
/// these callers that the numbers from 1 to `left` pick are still to be tried.
#[derive(Drop)]
pub struct SetFrame {
    pub counts: Vec<u16>,
    pub words: Vec<u64>,
    pub set: PlaceSet,
    pub callers: Vec<u32>,
    pub left: u32,
}

/// How far a search has come: the frames that lead to its cut and list; the counts of this cut, and
/// the state with this list; the callers whose next calls are the candidates for the next set;
/// `left`, where the parts of these callers that the numbers from 1 to `left` pick are still to be
/// tried; and a memo of the dead ends that were found.
#[derive(Drop)]
pub struct SetWalk {
    pub frames: Vec<SetFrame>,
    pub counts: Vec<u16>,
    pub here: State,
    pub callers: Vec<u32>,
    pub left: u32,
    pub memo: Memo,
}

/// The outcome of one more step of a search.
#[derive(Drop)]
pub enum StepOutcome {
    /// The frames have the sets of a legal set order.
    Found,
    /// The book has no legal set order.
    NoneLeft,
    /// The search goes on.
    GoesOn,
}

/// The sets of some frames, in order.
pub fn sets(alloc: Global, frames: &[SetFrame]) -> Result<Vec<PlaceSet>, NoMemory>
    ensures { IfOk result (λ order. order.items ≡ order_of frames.now) }
{
    let mut order = Vec::with_capacity(alloc, frames.len())?;
    for frame in frames {
        order.push(frame.set.copy(alloc)?)?;
    }
    Ok(order)
}

/// The counts of a cut raised by the calls of a set.
pub fn raised(alloc: Global, counts: &[u16], set: &[Place]) -> Result<Vec<u16>, NoMemory>
    requires callers { AllByRecursion (λ place. place.caller < length counts.now) set.now }
    requires numbers { AllByRecursion (λ place. place.number < MAX_CALLS) set.now }
    ensures { IfOk result (λ raised. raised.items ≡ raised_by counts.now set.now) }
{
    let mut raised = Vec::from_slice(alloc, counts)?;
    for place in set {
        raised[place.caller as usize] = place.number as u16 + 1;
    }
    Ok(raised)
}

/// The callers of a list that `number` picks by its binary digits: the first caller where the
/// lowest digit is 1, the second one by the next digit, and so on.
pub fn part_of(alloc: Global, callers: &[u32], number: u32) -> Result<Vec<u32>, NoMemory>
    ensures { IfOk result (λ part. part.items ≡ picked number callers.now) }
{
    let mut part = Vec::with_capacity(alloc, callers.len())?;
    let mut digits = number;
    for caller in callers {
        if digits % 2 == 1 {
            part.push(*caller)?;
        }
        digits /= 2;
    }
    Ok(part)
}

/// The greatest number that picks a part of `callers`: the one that picks all of them.
pub fn greatest(callers: &[u32]) -> u32
    requires { length callers.now ≤ MAX_CALLERS }
    ensures whole { result + 1 ≡ 2 ^ length callers.now }
    ensures few { result < 2 ^ MAX_CALLERS }
{
    (1 << callers.len()) - 1
}
