use crate::table::open_rows;
use crate::two_calls::calls_on;
use crate::{CallFindings, End, Turns};
use book_base::NoMemory;
use drv_wrapper::{Announced, Answered, Viewed};
use row_table::Rows;
use seq_objects::Kind;
use std::alloc::Global;
use std::marker::Brand;
use std::sync::ledger::Blank;
use std::test::Fail;
use std::thread::Threads;
use world_core::{Program, Scrap};

// What two callers found of their calls, an enqueue and a dequeue, of a log object whose machine is
// the sequential object of `object`. Each caller judges its own call by the rules of a queue.
fn found_on<R: Threads>(
    rt: &R,
    alloc: Global,
    object: Kind,
    turns: Turns,
) -> Result<(CallFindings, CallFindings), NoMemory> {
    let (first, second) = (Blank::new(1), Blank::new(1));
    let (found, _, _) = calls_on::<Brand, Brand, R>(rt, alloc, object, first, second, turns)?;
    Ok(found)
}

// Whether a call was judged illegal and its caller is halted.
fn is_illegal(found: &CallFindings) -> bool {
    !found.live && matches!(found.end, End::Illegal)
}

#[test]
fn calls_in_two_threads_are_delivered(rt: HostRuntime) -> Result<(), Fail> {
    let (first, second) = found_on(&rt, rt.alloc(), Kind::Queue, Turns::Beside)?;
    assert!(rt; first.is_delivered() && second.is_delivered());
    Ok(())
}

// A counter knows neither an enqueue nor a dequeue, and replies `bad` to each.
#[test]
fn calls_of_what_is_no_queue_are_illegal(rt: HostRuntime) -> Result<(), Fail> {
    let (first, second) = found_on(&rt, rt.alloc(), Kind::Counter, Turns::EnqueueFirst)?;
    assert!(rt; is_illegal(&first) && is_illegal(&second));
    Ok(())
}

#[test]
fn a_call_after_what_stands_is_judged_as_any_other(rt: HostRuntime) -> Result<(), Fail> {
    let (first, second) = found_on(&rt, rt.alloc(), Kind::Queue, Turns::AfterWhatStands)?;
    assert!(rt; first.is_delivered() && second.is_delivered());
    let (first, second) = found_on(&rt, rt.alloc(), Kind::Counter, Turns::AfterWhatStands)?;
    assert!(rt; is_illegal(&first) && is_illegal(&second));
    Ok(())
}

// Whether the callers of a new table are idle.
fn are_idle_at_first(alloc: Global) -> Result<bool, NoMemory> {
    let (_rows, _bench, a, b, c) = open_rows(alloc)?;
    Ok(a.idle() && b.idle() && c.idle())
}

#[test]
fn new_callers_are_idle(rt: HostRuntime) -> Result<(), Fail> {
    assert!(rt; are_idle_at_first(rt.alloc())?);
    Ok(())
}

// The object word of a table for 16 callers with 256 calls each, the most that a table may have,
// read when the table is closed.
fn object_word(alloc: Global) -> Result<u64, NoMemory> {
    let (rows, bench) = Rows::open(alloc, Scrap, 16, 256)?;
    let world = rows.close(alloc, bench)?;
    Ok(world.word(208_928))
}

#[test]
fn the_largest_table_with_an_object_word(rt: HostRuntime) -> Result<(), Fail> {
    assert_eq!(rt; object_word(rt.alloc())?, 0);
    Ok(())
}

// Takes a value that can be sent to another thread.
fn send<T: Send>(_value: &T) {}

// A call of a caller may be continued on another thread, in whichever state it is.
fn _send_each<P: Program + Send>(
    announced: &Announced<P>,
    answered: &Answered<P>,
    viewed: &Viewed<P>,
) {
    send(announced);
    send(answered);
    send(viewed);
}
