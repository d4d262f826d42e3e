ghost use Rattle.std.specs.Prelude.{◌≡◌, ℕ, ◌<◌, length, map, Some, slice_get, IfOk};
ghost use Rattle.book_base.specs.declared.call.Call.{Call};
ghost use Rattle.book_base.specs.Book.{IsCall, IsValid};
ghost use Rattle.sketch.specs.declared.event.Event.TheVariants.{Invoke};
ghost use Rattle.sketch.specs.Sketch.{IsSketch};
ghost use Rattle.sketch.specs.Intervals.{next_of, StandsFrom, IsIntervalOf, IsLaneOf, rows_of, HaveOneEach, StandOnTheirLanes, AreTold, LieWithin, AreApart, Meet};

use crate::Event;
use crate::interval::Interval;
use crate::place::place_from;
use book_base::{Book, Call, NoMemory};
use std::alloc::Global;

/// The intervals of a book's calls in its sketch: a lane for each caller, with its calls by number.
///
/// Where a call precedes another (Castañeda and Rodríguez 2023), its interval ends before the
/// other's begins.
pub fn call_lanes(
    alloc: Global,
    book: &Book,
    events: &[Event],
) -> Result<Vec<Vec<Interval>>, NoMemory>
    // The events are the book's sketch.
    requires { IsSketch book.now events.now }

    // There is a lane for each caller of the book.
    ensures lanes { IfOk result (λ lanes. length lanes.items ≡ length book.now) }
    // Each interval stands on the lane of its call's caller.
    ensures own { IfOk result (λ lanes. StandOnTheirLanes (rows_of lanes.items)) }
    // Each call of the book has exactly one interval.
    ensures once { IfOk result (λ lanes. HaveOneEach book.now (rows_of lanes.items)) }

    // Each interval begins where the sketch has its call's invocation, and ends after its return
    // or, where the call is unanswered, at the next invocation of its caller or after all events.
    ensures told { IfOk result (λ lanes. AreTold book.now events.now (rows_of lanes.items)) }
    // Each interval has at least one place, and ends no later than the events.
    ensures within { IfOk result (λ lanes. LieWithin events.now (rows_of lanes.items)) }

    // Where a call precedes another, its interval ends before the other's begins.
    ensures apart { IfOk result (λ lanes. AreApart book.now (rows_of lanes.items)) }
    // Where the interval of an answered call ends before another begins, the call precedes the
    // other interval's call.
    ensures meet { IfOk result (λ lanes. Meet book.now (rows_of lanes.items)) }
{
    let mut lanes = Vec::new(alloc);
    for caller in 0..book.callers() {
        lanes.push(lane(alloc, book, events, caller)?)?;
    }
    Ok(lanes)
}

// The intervals of a caller's calls, by number.
fn lane(
    alloc: Global,
    book: &Book,
    events: &[Event],
    caller: u32,
) -> Result<Vec<Interval>, NoMemory>
    requires valid { IsValid book.now }
    requires sketch { IsSketch book.now events.now }
    requires caller { caller < length book.now }
    ensures { IfOk result (λ lane. IsLaneOf book.now events.now caller lane.items) }
{
    let mut lane = Vec::new(alloc);
    let mut from = 0;
    for number in 0..book.calls(caller) {
        let interval = interval_from(book, events, from, Call { caller, number });
        from = interval.end;
        lane.push(interval)?;
    }
    Ok(lane)
}

// The interval of a call that is invoked at the place `from` or later.
fn interval_from(book: &Book, events: &[Event], from: usize, call: Call) -> Interval
    requires valid { IsValid book.now }
    requires sketch { IsSketch book.now events.now }
    requires call { IsCall book.now call }
    requires from { StandsFrom events.now from (Invoke call) }
    ensures call { result.call ≡ call }
    ensures told { IsIntervalOf book.now events.now result }
{
    let begin = place_from(events, from, Event::Invoke(call));
    let is_open = call.number >= book.answers(call.caller);
    let end = if is_open {
        open_end(book, events, begin, call)
    } else {
        place_from(events, begin, Event::Return(call)) + 1
    };
    Interval {
        call,
        begin,
        end,
        is_open,
    }
}

// The end of the interval of an unanswered call that is invoked at the place `begin`.
fn open_end(book: &Book, events: &[Event], begin: usize, call: Call) -> usize
    requires sketch { IsSketch book.now events.now }
    requires call { IsCall book.now call }
    requires begin { slice_get events.now begin ≡ Some (Invoke call) }
    ensures next { IsCall book.now (next_of call)
        → slice_get events.now result ≡ Some (Invoke (next_of call)) }
    ensures last { ¬ (IsCall book.now (next_of call)) → result ≡ length events.now }
{
    let calls = book.calls(call.caller);
    let next = Call {
        caller: call.caller,
        number: call.number + 1,
    };
    if next.number < calls {
        place_from(events, begin, Event::Invoke(next))
    } else {
        events.len()
    }
}
