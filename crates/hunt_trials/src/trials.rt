//! The objects that are hunted over, by their names.

use crate::counter::Counters;
use crate::locked::LockedObjects;
use crate::queues::Queues;
use crate::ring::Rings;
use crate::stack::Stacks;
use crate::trial::{HuntFindings, Size, hunt_over_kind};
use book_base::NoMemory;
use seq_objects::Kind;
use std::alloc::Global;
use std::thread::Threads;

/// The names of the wrong objects.
pub(crate) const WRONG: [&str; 4] = [
    "torn_counter",
    "twin_queues",
    "torn_ring",
    "unchecked_stack",
];

/// The names of the right objects.
pub(crate) const RIGHT: [&str; 12] = [
    "counter",
    "one_queue",
    "locked_ring",
    "checked_stack",
    "queue_behind_a_lock",
    "stack_behind_a_lock",
    "register_behind_a_lock",
    "counter_behind_a_lock",
    "set_behind_a_lock",
    "pqueue_behind_a_lock",
    "casreg_behind_a_lock",
    "map_behind_a_lock",
];

/// A hunt over the object with this name, if there is one.
pub(crate) fn hunt_over<R: Threads + Sync>(
    rt: &R,
    alloc: Global,
    name: &str,
    size: Size,
) -> Result<Option<HuntFindings>, NoMemory> {
    let found = match name {
        "torn_counter" | "counter" => {
            let maker = Counters {
                torn: name == "torn_counter",
            };
            hunt_over_kind(rt, alloc, &maker, Kind::Counter, size)?
        }
        "twin_queues" | "one_queue" => {
            let maker = Queues {
                twins: name == "twin_queues",
            };
            hunt_over_kind(rt, alloc, &maker, Kind::Queue, size)?
        }
        "torn_ring" | "locked_ring" => {
            let maker = Rings {
                torn: name == "torn_ring",
            };
            hunt_over_kind(rt, alloc, &maker, Kind::Queue, size)?
        }
        "unchecked_stack" | "checked_stack" => {
            let maker = Stacks {
                checks: name == "checked_stack",
            };
            hunt_over_kind(rt, alloc, &maker, Kind::Stack, size)?
        }
        _ => match kind_behind_a_lock(name) {
            Some(kind) => hunt_over_kind(rt, alloc, &LockedObjects { kind }, kind, size)?,
            None => return Ok(None),
        },
    };
    Ok(Some(found))
}

// The kind of the object behind a lock that has this name, if there is one.
fn kind_behind_a_lock(name: &str) -> Option<Kind> {
    match name {
        "queue_behind_a_lock" => Some(Kind::Queue),
        "stack_behind_a_lock" => Some(Kind::Stack),
        "register_behind_a_lock" => Some(Kind::Register),
        "counter_behind_a_lock" => Some(Kind::Counter),
        "set_behind_a_lock" => Some(Kind::IntSet),
        "pqueue_behind_a_lock" => Some(Kind::Pqueue),
        "casreg_behind_a_lock" => Some(Kind::CasRegister),
        "map_behind_a_lock" => Some(Kind::Map),
        _ => None,
    }
}
