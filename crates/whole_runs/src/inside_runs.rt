//! Runs over the objects inside the world at their real sizes: the log of each kind, the tally and
//! the cell.

ghost use Rattle.std.specs.Prelude.{◌≤◌};
ghost use Rattle.book_base.specs.declared.TheConstants.{MAX_CALLERS, MAX_CALLS};
ghost use Rattle.core_objects.specs.CoreObjects.{ArePassesFor};

use book_base::{Call, MAX_CALLERS, MAX_CALLS, NoMemory};
use byte_streams::{MemorySink, Status};
use client_scripts::make_script;
use core_objects::{CoreCell, CoreLog, CoreObject, CoreTally};
use kind_search::SearchedKind;
use named_runs::{Form, Unwatched, core_fresh};
use report_lines::LineEnd;
use report_text::read_report;
use reports::Report;
use search_hints::SearchHints;
use seq_objects::{DONE, Kind, NO, NONE, YES};
use std::alloc::Global;
use std::test::Fail;
use std::thread::Threads;

// How many callers there are, how many calls each of them makes, and how many calls each may make.
#[derive(Clone, Copy)]
struct Size {
    callers: u32,
    calls: u64,
    cap: u64,
    ghost some: { 1 ≤ callers },
    ghost few: { callers ≤ MAX_CALLERS },
    ghost within: { calls ≤ cap },
    ghost some_calls: { 1 ≤ cap },
    ghost few_calls: { cap ≤ MAX_CALLS },
}

// One, two and sixteen callers: with one call each in a table for one call each, and then with
// three calls each in a table for 256.
const SIZES: [Size; 6] = [
    Size {
        callers: 1,
        calls: 1,
        cap: 1,
    },
    Size {
        callers: 2,
        calls: 1,
        cap: 1,
    },
    Size {
        callers: 16,
        calls: 1,
        cap: 1,
    },
    Size {
        callers: 1,
        calls: 3,
        cap: 256,
    },
    Size {
        callers: 2,
        calls: 3,
        cap: 256,
    },
    Size {
        callers: 16,
        calls: 3,
        cap: 256,
    },
];

// Sixteen callers with all the calls that a table may have: their log is full after the last call.
const WHOLE: Size = Size {
    callers: 16,
    calls: 256,
    cap: 256,
};

// One caller with six calls, which fill its log.
const ALONE: Size = Size {
    callers: 1,
    calls: 6,
    cap: 6,
};

// More bytes than the text of any of these runs has.
const ROOM: usize = 2_000_000;

// The replies of a report, caller by caller, where it has no error and each call of this size was
// delivered.
fn delivered(alloc: Global, report: &Report, size: Size) -> Result<Option<Vec<u64>>, NoMemory> {
    let mut replies = Vec::new(alloc);
    if report.has_error() || report.callers() != size.callers {
        return Ok(None);
    }
    for caller in 0..report.callers() {
        if report.lines(caller) != size.calls {
            return Ok(None);
        }
        for number in 0..report.lines(caller) {
            match report.line(Call { caller, number }).end {
                LineEnd::Delivered(record, _) => replies.push(record.reply)?,
                _ => return Ok(None),
            }
        }
    }
    Ok(Some(replies))
}

// The replies that the callers of a generated script get from an object inside the world, where
// each call is delivered.
fn run_made<R: Threads + Sync, O: CoreObject + Sync>(
    rt: &R,
    alloc: Global,
    object: &O,
    passes: &mut Vec<O::Pass>,
    kind: Kind,
    size: Size,
) -> Result<Option<Vec<u64>>, NoMemory>
where
    O::S: SearchHints + Sync,
    O::P: Send + Sync,
    O::Pass: Send,
    requires { ArePassesFor (O.fits object.now) size.callers size.cap passes.old.items }
{
    let script = make_script(alloc, 0, size.callers, size.calls, kind)?;
    let mut sink = MemorySink::new(alloc, ROOM, Vec::new(alloc), ROOM)?;
    let status = core_fresh(
        rt,
        alloc,
        &script,
        object,
        passes,
        size.cap,
        Form::Report,
        &mut Unwatched,
        &mut sink,
    );
    match read_report(alloc, sink.bytes()) {
        Ok(report) if status == Status::Fine => delivered(alloc, &report, size),
        _ => Ok(None),
    }
}

// The replies that the callers of a generated script get from the log of the script's kind, where
// each call is delivered.
fn run_log<R: Threads + Sync>(
    rt: &R,
    alloc: Global,
    kind: Kind,
    size: Size,
) -> Result<Option<Vec<u64>>, NoMemory> {
    let (log, mut passes) = CoreLog::open(alloc, SearchedKind { kind }, size.callers, size.cap)?;
    run_made(rt, alloc, &log, &mut passes, kind, size)
}

// The replies that the callers of a generated script get from the tally, where each call is
// delivered.
fn run_tally<R: Threads + Sync>(
    rt: &R,
    alloc: Global,
    size: Size,
) -> Result<Option<Vec<u64>>, NoMemory> {
    let (tally, mut passes) = CoreTally::open(alloc, size.callers, size.cap)?;
    run_made(rt, alloc, &tally, &mut passes, Kind::Counter, size)
}

// The replies that the callers of a generated script get from the cell, where each call is
// delivered.
fn run_cell<R: Threads + Sync>(
    rt: &R,
    alloc: Global,
    size: Size,
) -> Result<Option<Vec<u64>>, NoMemory> {
    let (cell, mut passes) = CoreCell::open(alloc, size.callers, size.cap)?;
    run_made(rt, alloc, &cell, &mut passes, Kind::Register, size)
}

// The reply word `=0`. The reply word `=V` is greater by V.
const ZERO: u64 = 2 << 32;

// How many replies there are, where they are `=0`, `=1` and so on, each once, in any order; `None`
// for other replies.
fn counted(replies: Option<Vec<u64>>) -> Option<u64> {
    let mut replies = replies?;
    replies.sort_unstable();
    let mut count = 0;
    for reply in &replies {
        if *reply != ZERO.wrapping_add(count) {
            return None;
        }
        count = count.wrapping_add(1);
    }
    Some(count)
}

// The replies that one caller gets to its six calls from the log of each kind. The values of its
// calls are their numbers.
const ALONE_IN_LOGS: [(Kind, [u64; 6]); 8] = [
    // enq 0, deq, enq 2, deq, enq 4, deq
    (Kind::Queue, [DONE, ZERO, DONE, ZERO + 2, DONE, ZERO + 4]),
    // push 0, pop, push 2, pop, push 4, pop
    (Kind::Stack, [DONE, ZERO, DONE, ZERO + 2, DONE, ZERO + 4]),
    // write 0, read, write 2, read, write 4, read
    (Kind::Register, [DONE, ZERO, DONE, ZERO + 2, DONE, ZERO + 4]),
    // six times inc
    (
        Kind::Counter,
        [ZERO, ZERO + 1, ZERO + 2, ZERO + 3, ZERO + 4, ZERO + 5],
    ),
    // add 0, has 1, remove 2, add 3, has 4, remove 5
    (Kind::IntSet, [YES, NO, NO, YES, NO, NO]),
    // insert 0, min, insert 2, min, insert 4, min
    (Kind::Pqueue, [DONE, ZERO, DONE, ZERO + 2, DONE, ZERO + 4]),
    // write 0, cas 1 2, read, write 3, cas 4 5, read
    (Kind::CasRegister, [DONE, NO, ZERO, DONE, NO, ZERO + 3]),
    // put 0 0, get 1, del 2, put 3 3, get 4, del 5
    (Kind::Map, [NONE, NONE, NONE, NONE, NONE, NONE]),
];

// One caller fills its log with its six calls.
#[test]
fn the_log_of_each_kind_serves_one_caller(rt: HostRuntime) -> Result<(), Fail> {
    for (kind, replies) in ALONE_IN_LOGS {
        let found = run_log(&rt, rt.alloc(), kind, ALONE)?;
        assert!(rt; found.is_some_and(|found| found.as_slice() == replies.as_slice()));
    }
    Ok(())
}

// Whatever the schedule, no call is an error and each is delivered.
#[test]
fn the_log_of_each_kind_delivers_all_calls(rt: HostRuntime) -> Result<(), Fail> {
    for (kind, _) in ALONE_IN_LOGS {
        for size in SIZES {
            assert!(rt; run_log(&rt, rt.alloc(), kind, size)?.is_some());
        }
    }
    Ok(())
}

// Whatever the schedule, the replies are the counts from 0 on, each once.
#[test]
fn the_tally_gives_each_count_once(rt: HostRuntime) -> Result<(), Fail> {
    for size in SIZES {
        let replies = run_tally(&rt, rt.alloc(), size)?;
        assert_eq!(rt;
            counted(replies),
            Some(u64::from(size.callers) * size.calls)
        );
    }
    assert_eq!(rt; counted(run_tally(&rt, rt.alloc(), WHOLE)?), Some(4096));
    Ok(())
}

// Sixteen callers fill the log with the most calls that a table may have.
#[test]
fn a_full_log_gives_each_count_once(rt: HostRuntime) -> Result<(), Fail> {
    assert_eq!(rt;
        counted(run_log(&rt, rt.alloc(), Kind::Counter, WHOLE)?),
        Some(4096)
    );
    Ok(())
}

// One caller reads 0, 2 and 4, which it wrote. Each call of sixteen callers is delivered.
#[test]
fn the_cell_gives_what_was_written(rt: HostRuntime) -> Result<(), Fail> {
    let found = run_cell(&rt, rt.alloc(), ALONE)?;
    assert!(rt;
        found.is_some_and(|found| found.as_slice()
            == [DONE, ZERO, DONE, ZERO + 2, DONE, ZERO + 4].as_slice())
    );
    for size in SIZES {
        assert!(rt; run_cell(&rt, rt.alloc(), size)?.is_some());
    }
    assert!(rt; run_cell(&rt, rt.alloc(), WHOLE)?.is_some());
    Ok(())
}
