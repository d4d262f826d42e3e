ghost use Rattle.std.specs.Prelude.{ℕ};

use crate::bounded_queue::BoundedQueue;
use crate::twin_queues::TwinQueues;
use crate::{CellCounter, CellRegister, TornCounter};
use book_base::{NoMemory, OpWord};
use byte_streams::{MemorySink, Status};
use client_scripts::{Script, make_script, read_script};
use drv_wrapper::{BlackBox, ObjectPass};
use hunts::CountingPass;
use named_runs::{Form, Unwatched, replay_fresh, run_fresh};
use seq_objects::{Kind, wrapping_value_reply};
use std::alloc::Global;
use std::sync::Wait;
use std::test::Fail;
use std::thread::{Threads, join_mut};

const TWO_CALLS: &[u8] =
    b"script 2\nobject queue\ncallers 2\ncalls 1 1\n0 0 enq 5\n1 0 deq\nturns 0 0 0 0 0 1 1 1 1 1\nend\n";

// The status with which a run of a script over an object ends, with each caller in a thread of its
// own.
fn run<R: Threads + Sync, B: BlackBox<Pass = CountingPass> + Sync>(
    rt: &R,
    alloc: Global,
    script: &Script,
    object: &B,
) -> Result<Status, NoMemory>
    requires { (pass : CountingPass) → B.is_own object.now pass }
{
    let mut passes = CountingPass::for_script(alloc, script)?;
    let mut sink = MemorySink::new(alloc, 100, Vec::new(alloc), 100)?;
    let status = run_fresh(
        rt,
        alloc,
        script,
        object,
        &mut passes,
        Form::Counts,
        &mut Unwatched,
        &mut sink,
    );
    Ok(status)
}

fn run_register<R: Threads + Sync>(rt: &R, alloc: Global) -> Result<Status, NoMemory> {
    let script = make_script(alloc, 7, 4, 16, Kind::Register)?;
    run(rt, alloc, &script, &CellRegister::default())
}

fn run_counter<R: Threads + Sync>(rt: &R, alloc: Global) -> Result<Status, NoMemory> {
    let script = make_script(alloc, 7, 4, 16, Kind::Counter)?;
    run(rt, alloc, &script, &CellCounter::default())
}

fn run_queue<R: Threads + Wait + Sync + Copy>(rt: &R, alloc: Global) -> Result<Status, NoMemory> {
    let script = make_script(alloc, 7, 4, 16, Kind::Queue)?;
    run(rt, alloc, &script, &BoundedQueue::new(*rt, alloc, 64)?)
}

// Whatever the schedule, a run over a cell or a queue that is used rightly has no error.
#[test]
fn right_uses_are_not_caught(rt: HostRuntime) -> Result<(), Fail> {
    assert_eq!(rt; run_register(&rt, rt.alloc())?, Status::Fine);
    assert_eq!(rt; run_counter(&rt, rt.alloc())?, Status::Fine);
    assert_eq!(rt; run_queue(&rt, rt.alloc())?, Status::Fine);
    Ok(())
}

// The status with which a replay of a script's turns over two queues instead of one ends, and what
// it writes.
fn replay_twins<R: Wait + Copy>(
    rt: &R,
    alloc: Global,
    script: &Script,
) -> Result<(Status, MemorySink), NoMemory> {
    let object = TwinQueues::new(*rt, alloc, 64)?;
    let mut passes = CountingPass::for_script(alloc, script)?;
    let mut sink = MemorySink::new(alloc, 1_000, Vec::new(alloc), 1_000)?;
    let status = replay_fresh(
        alloc,
        script,
        &object,
        &mut passes,
        Form::Report,
        &mut Unwatched,
        &mut sink,
    );
    Ok((status, sink))
}

// Caller 0 has enqueued 5 before caller 1 dequeues from the queue that caller 0 doesn't use.
#[test]
fn twin_queues_are_caught_by_turns(rt: HostRuntime) -> Result<(), Fail> {
    let script = read_script(rt.alloc(), TWO_CALLS)?;
    let (status, sink) = replay_twins(&rt, rt.alloc(), &script)?;
    assert_eq!(rt; status, Status::Found);
    assert_eq!(rt;
        str::from_utf8(sink.bytes()),
        Ok(
            "report 2\nobject queue\ncallers 2\ncalls 1 1\n0 0 enq 5 done view 0:1 ok seen 0:1\n1 0 deq none view 0:1 1:1 error seen 0:1 1:1\nend\nbook 2\nobject queue\ncallers 2\ncalls 1 1\n0 0 enq 5 done view 0:1\n1 0 deq none view 0:1 1:1\nend\n"
        )
    );
    Ok(())
}

// The increment that two counters have in common.
trait Increments {
    fn increment(&self) -> u64;
}

const INCREMENT: OpWord = 1 << 32;

impl Increments for CellCounter {
    fn increment(&self) -> u64 {
        self.answer(INCREMENT)
    }
}

impl Increments for TornCounter {
    fn increment(&self) -> u64 {
        self.answer(INCREMENT)
    }
}

fn increment_often<C: Increments>(counter: &C) {
    for _ in 0..20_000 {
        counter.increment();
    }
}

// The reply of a counter to an increment after two threads have incremented it 20,000 times each,
// side by side.
fn counted<R: Threads, C: Increments + Sync>(rt: &R, counter: &C) -> u64 {
    join_mut(
        rt,
        &mut || increment_often(counter),
        &mut || increment_often(counter),
    );
    counter.increment()
}

// Whether some increments of a torn counter are lost in one of many trials.
fn loses_some<R: Threads>(rt: &R) -> bool {
    for _ in 0..10_000 {
        if counted(rt, &TornCounter::default()) != wrapping_value_reply(40_000) {
            return true;
        }
    }
    false
}

#[test]
fn a_torn_counter_loses_what_a_whole_one_counts(rt: HostRuntime) {
    assert_eq!(rt;
        counted(&rt, &CellCounter::default()),
        wrapping_value_reply(40_000)
    );
    assert!(rt; loses_some(&rt));
}

#[test]
fn passes_have_a_call_for_each_operation_and_no_more(rt: HostRuntime) -> Result<(), Fail> {
    let script = make_script(rt.alloc(), 7, 3, 5, Kind::Queue)?;
    for pass in &CountingPass::for_script(rt.alloc(), &script)? {
        assert_eq!(rt; (pass.made(), pass.cap()), (0, 5));
    }
    Ok(())
}
