//! Runs and replays over a meeting: an object of two callers, each of whom raises a flag and waits
//! a while for the other one's flag. The reply is `done` where the other flag is found up, and else
//! `bad`.
ghost use Rattle.std.specs.Prelude.{◌≡◌, length};
ghost use Rattle.run_report.specs.Passes.{AreUnusedPasses};

use book_base::{MAX_CALLS, NoMemory};
use byte_streams::{MemorySink, Status};
use client_scripts::{Script, read_script};
use drv_wrapper::{BlackBox, ObjectPass};
use named_runs::{Form, Unwatched, replay_fresh, run_and_write, run_fresh};
use row_table::Rows;
use std::alloc::Global;
use std::test::Fail;
use std::thread::Threads;
use test_objects::Meeting;
use world_core::Outside;

// Each of two callers enqueues 1. By turns, the first caller's call ends before the second's
// begins.
const TWO_CALLS: &[u8] =
    b"script 2\nobject queue\ncallers 2\ncalls 1 1\n0 0 enq 1\n1 0 enq 1\nturns 0 0 0 0 0 1 1 1 1 1\nend\n";

// The reports of two callers whose calls overlapped. The schedule decides which call was published
// first.
const MET: [&[u8]; 3] = [
    b"report 2\nobject queue\ncallers 2\ncalls 1 1\n0 0 enq 1 done view 0:1 1:1 ok seen 0:1 1:1\n1 0 enq 1 done view 0:1 1:1 ok seen 0:1 1:1\nend\n",
    b"report 2\nobject queue\ncallers 2\ncalls 1 1\n0 0 enq 1 done view 0:1 1:1 ok seen 0:1\n1 0 enq 1 done view 0:1 1:1 ok seen 0:1 1:1\nend\n",
    b"report 2\nobject queue\ncallers 2\ncalls 1 1\n0 0 enq 1 done view 0:1 1:1 ok seen 0:1 1:1\n1 0 enq 1 done view 0:1 1:1 ok seen 1:1\nend\n",
];

// The report and the witness of two callers where the first one's call ended before the second
// one's began.
const MISSED: &str =
    "report 2\nobject queue\ncallers 2\ncalls 1 1\n0 0 enq 1 bad view 0:1 error seen 0:1\n1 0 enq 1 done view 0:1 1:1 error seen 0:1 1:1\nend\nbook 2\nobject queue\ncallers 2\ncalls 1 0\n0 0 enq 1 bad view 0:1\nend\n";

// Runs a script's two callers over a meeting, each in a thread, and writes their report to `sink`.
// The answer is the status.
fn run_meeting<R: Threads + Sync>(
    rt: &R,
    alloc: Global,
    script: &Script,
    sink: &mut MemorySink,
) -> Result<Status, NoMemory>
    requires { length script.now.operations ≡ 2 }
{
    let (object, mut passes) = Meeting::open(alloc, script.callers(), MAX_CALLS)?;
    let status = run_fresh(
        rt,
        alloc,
        script,
        &object,
        &mut passes,
        Form::Report,
        &mut Unwatched,
        sink,
    );
    Ok(status)
}

// Replays a script's two callers over a meeting by the script's turns, and writes their report to
// `sink`. The answer is the status.
fn replay_meeting(alloc: Global, script: &Script, sink: &mut MemorySink) -> Result<Status, NoMemory>
    requires { length script.now.operations ≡ 2 }
{
    let (object, mut passes) = Meeting::open(alloc, script.callers(), MAX_CALLS)?;
    let status = replay_fresh(
        alloc,
        script,
        &object,
        &mut passes,
        Form::Report,
        &mut Unwatched,
        sink,
    );
    Ok(status)
}

// The count words of a table of two callers: both of N, and both of M.
type CountWords = (u64, u64, u64, u64);

// Runs a script of two callers over an object in a table of its own, and answers the table's count
// words after the run.
fn run_in_rows<R: Threads + Sync, B: BlackBox + Sync>(
    rt: &R,
    alloc: Global,
    script: &Script,
    object: &B,
    passes: &mut Vec<B::Pass>,
    sink: &mut MemorySink,
) -> Result<(Status, CountWords), NoMemory>
where
    B::Pass: Send,
    requires two { length script.now.operations ≡ 2 }
    requires passes { AreUnusedPasses (B.is_own object.now) B.Pass.caller B.Pass.made B.Pass.cap
        script.now.operations passes.old.items }
{
    let (rows, mut bench) = Rows::open(alloc, Outside, script.callers(), MAX_CALLS)?;
    let form = Form::Report;
    let status = run_and_write(
        rt, alloc, &rows, &mut bench, object, passes, script, form, sink,
    );
    let world = rows.close(alloc, bench)?;
    Ok((
        status,
        (world.word(0), world.word(1), world.word(2), world.word(3)),
    ))
}

// Runs a script of two callers over a meeting in a table of its own, and answers the table's count
// words after the run.
fn meet_in_rows<R: Threads + Sync>(
    rt: &R,
    alloc: Global,
    script: &Script,
    sink: &mut MemorySink,
) -> Result<(Status, CountWords), NoMemory>
    requires { length script.now.operations ≡ 2 }
{
    let (object, mut passes) = Meeting::open(alloc, script.callers(), MAX_CALLS)?;
    run_in_rows(rt, alloc, script, &object, &mut passes, sink)
}

#[test]
fn callers_in_threads_meet(rt: HostRuntime) -> Result<(), Fail> {
    let script = read_script(rt.alloc(), TWO_CALLS)?;
    assert_eq!(rt; script.callers(), 2);
    let mut sink = MemorySink::new(rt.alloc(), 1_000, Vec::new(rt.alloc()), 1_000)?;
    let status = run_meeting(&rt, rt.alloc(), &script, &mut sink)?;
    assert_eq!(rt; status, Status::Fine);
    assert!(rt; MET.contains(&sink.bytes()));
    Ok(())
}

#[test]
fn callers_one_after_the_other_do_not_meet(rt: HostRuntime) -> Result<(), Fail> {
    let script = read_script(rt.alloc(), TWO_CALLS)?;
    assert_eq!(rt; script.callers(), 2);
    let mut sink = MemorySink::new(rt.alloc(), 1_000, Vec::new(rt.alloc()), 1_000)?;
    let status = replay_meeting(rt.alloc(), &script, &mut sink)?;
    assert_eq!(rt; status, Status::Found);
    assert_eq!(rt; str::from_utf8(sink.bytes()), Ok(MISSED));
    Ok(())
}

#[test]
fn callers_who_met_have_counted_both_rows_of_each(rt: HostRuntime) -> Result<(), Fail> {
    let script = read_script(rt.alloc(), TWO_CALLS)?;
    assert_eq!(rt; script.callers(), 2);
    let mut sink = MemorySink::new(rt.alloc(), 1_000, Vec::new(rt.alloc()), 1_000)?;
    let (status, counts) = meet_in_rows(&rt, rt.alloc(), &script, &mut sink)?;
    assert_eq!(rt; status, Status::Fine);
    assert!(rt; MET.contains(&sink.bytes()));
    assert_eq!(rt; counts, (1, 1, 1, 1));
    Ok(())
}
