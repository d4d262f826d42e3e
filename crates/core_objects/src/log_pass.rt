ghost use Rattle.std.specs.Prelude.{◌≡◌, ◌≤◌, [], IfOk};
ghost use Rattle.book_base.specs.declared.TheConstants.{MAX_CALLERS, MAX_CALLS};
ghost use Rattle.core_objects.specs.CoreObjects.{ArePassesFor};
ghost use Rattle.core_objects.specs.LogPasses.{FitsLog};

use book_base::{MAX_CALLERS, MAX_CALLS, NoMemory, OpWord, SeqObject, State};
use std::alloc::Global;

/// What one caller holds to ask the log: the number of this caller, the number of callers and the
/// cap, and what the caller knows of the log.
#[derive(Drop)]
pub struct CorePass {
    pub(crate) caller: u32,
    pub(crate) callers: u32,
    pub(crate) cap: u64,
    // The tickets in the first places of the log, as far as the caller knows them, and the
    // operations of the calls that they stand for.
    pub(crate) tickets: Vec<u64>,
    pub(crate) log: Vec<OpWord>,
    // The list of the sequential object after the operations of `log`.
    pub(crate) state: State,
}

// The pass of a caller for the log of a sequential object, with `n` callers and `cap` calls each.
// It knows nothing of the log yet.
fn pass_for<S: SeqObject>(
    alloc: Global,
    object: &S,
    caller: u32,
    n: u32,
    cap: u64,
) -> Result<CorePass, NoMemory>
    requires few_callers { n ≤ MAX_CALLERS }
    requires few_calls { cap ≤ MAX_CALLS }
    ensures { IfOk result (λ pass. FitsLog (S.spec object.now) pass caller n cap []) }
{
    let places = u64::from(n) * cap;
    let tickets = Vec::with_capacity(alloc, places as usize)?;
    let log = Vec::with_capacity(alloc, places as usize)?;
    let mut state = State::with_room(alloc, object.capacity(places))?;
    object.reset(&mut state);
    Ok(CorePass {
        caller,
        callers: n,
        cap,
        tickets,
        log,
        state,
    })
}

// A pass of the log for each of `n` callers with `cap` calls each, in order.
pub(crate) fn log_passes_for<S: SeqObject>(
    alloc: Global,
    object: &S,
    n: u32,
    cap: u64,
) -> Result<Vec<CorePass>, NoMemory>
    requires few_callers { n ≤ MAX_CALLERS }
    requires few_calls { cap ≤ MAX_CALLS }
    ensures { IfOk result
        (λ passes. ArePassesFor (FitsLog (S.spec object.now)) n cap passes.items) }
{
    let mut passes = Vec::with_capacity(alloc, n as usize)?;
    for caller in 0..n {
        passes.push(pass_for(alloc, object, caller, n, cap)?)?;
    }
    Ok(passes)
}
