ghost use Rattle.std.specs.Prelude.{◌≡◌, ◌≤◌, None, IfOk};
ghost use Rattle.book_base.specs.declared.TheConstants.{MAX_CALLERS, MAX_CALLS};

use book_base::{MAX_CALLERS, MAX_CALLS, NoMemory, OpWord, State};
use std::alloc::Global;

/// What a machine works on while it answers, so that it takes no memory.
///
/// Between two answers it may hold what the machine keeps of the log for its next answer.
#[derive(Debug, Drop)]
pub struct Scratch {
    pub state: State,
    pub other: State,
    /// For each caller its operation that waits to be applied, where there is one.
    pub waiting: Vec<Option<OpWord>>,
}

impl Scratch {
    ghost use Rattle.test_objects.specs.Scratches.{IsClear};

    /// A scratch for logs of `n` callers with `cap` calls each: both states are empty, with
    /// capacity for one word more than there are calls, and no operation waits.
    pub fn new(alloc: Global, n: u32, cap: u64) -> Result<Scratch, NoMemory>
        // There is at least one caller.
        requires some_callers { 1 ≤ n }
        // There are at most `MAX_CALLERS` callers.
        requires few_callers { n ≤ MAX_CALLERS }
        // Each caller has at least one call.
        requires some_calls { 1 ≤ cap }
        // Each caller has at most `MAX_CALLS` calls.
        requires few_calls { cap ≤ MAX_CALLS }
        // Both states of the scratch are empty, with capacity for one word more than there are
        // calls, and no operation waits.
        ensures { IfOk result (IsClear n cap) }
    {
        let room = n as u64 * cap + 1;
        let state = State::with_room(alloc, room)?;
        let other = State::with_room(alloc, room)?;
        let waiting = Vec::from_elem(alloc, None, n as usize)?;
        Ok(Scratch {
            state,
            other,
            waiting,
        })
    }
}
