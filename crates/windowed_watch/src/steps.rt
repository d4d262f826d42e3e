//! Watches that are told of the events to come.

ghost use Rattle.std.specs.Prelude.{◌≡◌, ◌++◌, ◌∷◌, [], ℕ, ◌<◌, Some, None, List, length, slice_get, IfOk, IfErr, OnOk, OnErr, MatchOption};
ghost use Rattle.streams.specs.Stream.{StreamEvent, process_of};
ghost use Rattle.watch_core.specs.Event.{event_of};
ghost use Rattle.watch_core.specs.Verdict.{IsVerdict};
ghost use Rattle.watch_core.specs.Watch.{HasTaken};
ghost use Rattle.windowed_watch.specs.Ahead.{events_of, IsNextOf, HasNoneOf, IsTakable};
ghost use Rattle.watch_core.specs.declared.verdict.Refused.{Refused};

use watch_core::{Event, Refused, Verdict, Watch};

// The index of the next event of a process among those to come.
fn next_of(coming: &[Event], process: u64) -> Option<usize>
    ensures { MatchOption result (HasNoneOf (events_of coming.now) (length coming.now) process)
        (λ k. IsNextOf (events_of coming.now) k process) }
{
    for k in 0..coming.len() {
        if coming[k].process() == process {
            return Some(k);
        }
    }
    None
}

/// Tells a watch, where a process has a pending call and its next event among those to come is a
/// return, of the reply.
pub fn foretell(watch: &mut Watch, coming: &[Event], process: u64)
    ensures taken { (stream : List StreamEvent) → HasTaken watch.old stream (events_of coming.now)
        → HasTaken watch.new stream (events_of coming.now) }
    ensures kind { (watch.new.kind ≡ watch.old.kind) × (watch.new.limit ≡ watch.old.limit) }
{
    let Some(k) = next_of(coming, process) else {
        return;
    };
    let Event::Return { process: _, reply } = coming[k] else {
        return;
    };
    if let Some(by) = watch.taken().checked_add(k as u64 + 1) {
        watch.expect(process, reply, by);
    }
}

/// A watch takes an event, and where this is a call, it is told of its reply, if that is among the
/// events to come.
pub fn step(watch: &mut Watch, event: Event, coming: &[Event]) -> Result<(), Refused>
    ensures taken { OnOk result ((stream : List StreamEvent)
        → HasTaken watch.old stream (event_of event ∷ events_of coming.now)
        → HasTaken watch.new (stream ++ event_of event ∷ []) (events_of coming.now)) }
    ensures refused { IfErr result (λ why. (stream later : List StreamEvent)
        → HasTaken watch.old stream later → IsTakable (stream ++ event_of event ∷ [])
        → why ≡ Refused.NoMemory) }
    ensures same { OnErr result (watch.new ≡ watch.old) }
    ensures kind { (watch.new.kind ≡ watch.old.kind) × (watch.new.limit ≡ watch.old.limit) }
{
    watch.take(event)?;
    if let Event::Call { process, op: _ } = event {
        foretell(watch, coming, process);
    }
    Ok(())
}

/// What a copy of a watch says of some events more, where it is told of the replies in them and of
/// no later ones.
pub fn replay(watch: &Watch, coming: &[Event]) -> Result<Verdict, Refused>
    ensures verdict { IfOk result (λ verdict. (stream : List StreamEvent)
        → HasTaken watch.now stream (events_of coming.now)
        → IsVerdict watch.now.kind watch.now.limit (stream ++ events_of coming.now) []
        verdict) }
    ensures refused { IfErr result (λ why. (stream : List StreamEvent)
        → HasTaken watch.now stream (events_of coming.now)
        → IsTakable (stream ++ events_of coming.now) → why ≡ Refused.NoMemory) }
{
    let mut copy = watch.copy()?;
    for event in coming {
        foretell(&mut copy, coming, event.process());
    }
    for k in 0..coming.len() {
        step(&mut copy, coming[k], &coming[k + 1..])?;
    }
    Ok(copy.verdict())
}
