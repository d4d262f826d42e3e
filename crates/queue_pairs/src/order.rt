ghost use Rattle.std.specs.Prelude.{◌↔◌, IsTrue};
ghost use Rattle.book_base.specs.Book.{IsCall};

use crate::table::{QueueDeal, Table, TimedCall};
use crate::walk::{PairStep, PairWalk, StepChoice};
use book_base::{Book, Call, MAX_CALLERS, MAX_CALLS, NoMemory, Place, SeqObject, State};
use std::alloc::Global;

// The greatest number of calls that a book may have.
const MOST_CALLS: u64 = MAX_CALLERS as u64 * MAX_CALLS;

/// A call, and the moment at which it takes effect.
#[derive(Clone, Copy)]
struct CallAtMoment {
    moment: u64,
    call: Call,
}

/// The calls of a walk's steps, and all other answered calls, in the order of their moments. Of
/// calls of one moment, those of the walk's steps come first, in the walk's order.
pub fn calls_in_order(
    alloc: Global,
    table: &Table,
    walk: &PairWalk,
) -> Result<Vec<Call>, NoMemory> {
    let mut events = Vec::new(alloc);
    for frame in &walk.frames {
        add_step(table, frame.choice, &mut events)?;
    }
    for caller in 0..MAX_CALLERS {
        if let Some(row) = table.rows.get(caller) {
            for timed in row {
                if let Some(moment) = left_moment(walk, caller, *timed) {
                    events.push(CallAtMoment {
                        moment,
                        call: timed.call,
                    })?;
                }
            }
        }
    }
    events.sort_by_key(|event| event.moment)?;
    let mut order = Vec::with_capacity(alloc, events.len())?;
    for event in &events {
        order.push(event.call)?;
    }
    Ok(order)
}

// Adds the calls of a step, each with its moment.
fn add_step(
    table: &Table,
    choice: StepChoice,
    events: &mut Vec<CallAtMoment>,
) -> Result<(), NoMemory> {
    match choice.step {
        PairStep::Pair(pair) => {
            events.push(CallAtMoment {
                moment: pair.put_moment,
                call: pair.put.call,
            })?;
            events.push(CallAtMoment {
                moment: pair.take_moment,
                call: pair.take.call,
            })?;
        }
        PairStep::Finds(after, upto) => {
            for find in &table.finds {
                if find.span.first > after && find.span.first <= upto {
                    events.push(CallAtMoment {
                        moment: upto,
                        call: find.call,
                    })?;
                }
            }
        }
    }
    Ok(())
}

// The moment of an answered call that is in no step of a walk: of a put whose value nobody takes,
// or of a call that is neither a put nor a take.
fn left_moment(walk: &PairWalk, caller: usize, timed: TimedCall) -> Option<u64> {
    if caller >= MAX_CALLERS || !timed.is_answered() {
        return None;
    }
    match timed.deal {
        QueueDeal::Put(_) if timed.call.number >= walk.here.puts[caller] as u64 => {
            Some(timed.span.first.max(walk.here.put_moment))
        }
        QueueDeal::Other => Some(timed.span.first),
        _ => None,
    }
}

/// The places of calls in an order, each with the reply that the object gives there. The answer is
/// `None` where a call isn't the book's, or where they are more than a book may have.
pub fn places_of<S: SeqObject>(
    alloc: Global,
    object: &S,
    book: &Book,
    calls: &[Call],
) -> Result<Option<Vec<Place>>, NoMemory> {
    if calls.len() as u64 > MOST_CALLS {
        return Ok(None);
    }
    let mut state = State::with_room(alloc, object.capacity(calls.len() as u64))?;
    object.reset(&mut state);
    let mut places = Vec::with_capacity(alloc, calls.len())?;
    for call in calls {
        if !is_call(book, *call) {
            return Ok(None);
        }
        let reply = object.step(&mut state, book.op(*call));
        places.push(Place {
            caller: call.caller,
            number: call.number,
            reply,
        })?;
    }
    Ok(Some(places))
}

// Whether a call is one of the book's.
fn is_call(book: &Book, call: Call) -> bool
    ensures { IsTrue result ↔ IsCall book.now call }
{
    call.caller < book.callers() && call.number < book.calls(call.caller)
}
