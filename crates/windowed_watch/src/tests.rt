//! Counters: which event a watch names.

use crate::WindowedWatch;
use seq_objects::Kind;
use std::alloc::Global;
use std::test::Fail;
use watch_core::{Event, Verdict};

// The operation word of the one operation of a counter.
const COUNT: u128 = 1 << 32;

// The reply to the first call of a counter.
const FIRST_REPLY: u64 = 2 << 32;

// What a watch says of the events of a counter.
fn verdict_of(alloc: Global, window: usize, events: &[Event]) -> Result<Verdict, Fail> {
    let mut watch = WindowedWatch::new(alloc, Kind::Counter, 100, window, 1)?;
    for event in events {
        watch.take(*event)?;
    }
    watch.flush()?;
    Ok(watch.verdict())
}

// Two calls that overlap have the same reply. The second return is the first event with which there
// is no legal order, and its reply is known at the first one.
#[test]
fn the_first_illegal_event_is_named(rt: HostRuntime) -> Result<(), Fail> {
    let alloc = rt.alloc();
    let events = [
        Event::Call {
            process: 0,
            op: COUNT,
        },
        Event::Call {
            process: 1,
            op: COUNT,
        },
        Event::Return {
            process: 0,
            reply: FIRST_REPLY,
        },
        Event::Return {
            process: 1,
            reply: FIRST_REPLY,
        },
        Event::Call {
            process: 0,
            op: COUNT,
        },
    ];
    for window in [0, 1, 64] {
        assert_eq!(rt; verdict_of(alloc, window, &events)?, Verdict::Illegal(4, 4));
    }
    Ok(())
}
