use crate::came::Came;
use book_base::{NoMemory, Place};
use seq_objects::{DONE, NONE};
use std::alloc::Global;
use std::marker::Brand;
use std::sync::ledger::Blank;
use std::thread::Threads;
use whole_runs::{CallFindings, Calls, End, Turns, queue_calls};

/// The reply of a dequeue that finds 5.
const VALUE_5: u64 = 8_589_934_597;

/// Two callers of a queue that call it one after the other, where each call checks itself.
#[derive(Drop)]
pub struct Enforced {
    turns: Turns,
    found: Option<Result<Calls, NoMemory>>,
}

/// The expected findings of one of two calls of a queue.
#[derive(Clone, Copy)]
struct Wanted {
    caller: u32,
    reply: u64,
    view: (u64, u64),
    seen: (u64, u64),
}

/// The expected findings of an enqueue that comes before the dequeue, and of that dequeue.
const ENQUEUE_FIRST: [Wanted; 2] = [
    Wanted {
        caller: 0,
        reply: DONE,
        view: (1, 0),
        seen: (1, 0),
    },
    Wanted {
        caller: 1,
        reply: VALUE_5,
        view: (1, 1),
        seen: (1, 1),
    },
];

/// The expected findings of a dequeue that comes before the enqueue, and of that enqueue.
const DEQUEUE_FIRST: [Wanted; 2] = [
    Wanted {
        caller: 1,
        reply: NONE,
        view: (0, 1),
        seen: (0, 1),
    },
    Wanted {
        caller: 0,
        reply: DONE,
        view: (1, 1),
        seen: (1, 1),
    },
];

impl Enforced {
    /// Two calls that are to be made in these turns, and aren't made yet.
    pub fn new(turns: Turns) -> Enforced {
        Enforced { turns, found: None }
    }

    /// Makes the two calls.
    pub fn act<R: Threads>(&mut self, rt: &R, alloc: Global) {
        let (first, second) = (Blank::new(1), Blank::new(1));
        self.found = Some(queue_calls::<Brand, Brand, _>(rt, alloc, first, second, self.turns));
    }

    /// The outcome of the two calls. The call after one that wasn't judged has the record of that
    /// call in its seen cut and in its order.
    pub fn came(&self) -> Came {
        let Some(found) = &self.found else {
            return Came::Nothing;
        };
        let Ok(((enqueue, dequeue), made, log)) = found else {
            return Came::NoMemory;
        };
        if *made != (1, 1) || log.len() != 2 {
            return Came::Wrong;
        }
        if self.turns == Turns::DequeueFirst {
            came_of(dequeue, enqueue, DEQUEUE_FIRST)
        } else {
            came_of(enqueue, dequeue, ENQUEUE_FIRST)
        }
    }
}

impl Wanted {
    // Whether the findings of a call are the expected ones: its reply is delivered with the order
    // `order`, or the call wasn't judged.
    fn is_found(&self, found: &CallFindings, order: &[Place]) -> bool {
        let is_ended = match &found.end {
            End::Delivered(places) => found.live && places.as_slice() == order,
            End::Illegal => false,
            End::Unjudged => !found.live,
        };
        is_ended && found.reply == self.reply && found.view == self.view && found.seen == self.seen
    }

    fn place(&self) -> Place {
        Place {
            caller: self.caller,
            number: 0,
            reply: self.reply,
        }
    }
}

// The outcome of two calls that are made one after the other. Whatever the outcome of the first,
// its record is in the order of the second.
fn came_of(first: &CallFindings, second: &CallFindings, wanted: [Wanted; 2]) -> Came {
    let [a, b] = wanted;
    let order = [a.place(), b.place()];
    if !a.is_found(first, &order[..1]) || !b.is_found(second, &order) {
        return Came::Wrong;
    }
    if first.is_unjudged() || second.is_unjudged() {
        Came::Unjudged
    } else {
        Came::Ordinary
    }
}
