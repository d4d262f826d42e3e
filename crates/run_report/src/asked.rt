ghost use Rattle.std.specs.Prelude.{IfOk};
ghost use Rattle.run_report.specs.Starts.{run_allotments, MayRun, AreFreshPasses};
ghost use Rattle.run_report.specs.Returns.{HaveReturned};
ghost use Rattle.run_report.specs.Reporting.{IsRunReport};

use crate::report::report_of;
use crate::{Pace, end_all, run_workers, settle_all, start_all};
use book_base::NoMemory;
use client_calls::{Asks, Judging, Shared};
use client_scripts::Script;
use reports::Report;
use row_table::Bench;
use search_hints::SearchHints;
use std::alloc::Global;
use std::thread::Threads;
use world_core::Program;

/// Runs all callers of a script, each in a thread of its own where one can be had. Each asks an
/// object, inside the world or outside it, and judges each of its calls by the sequential object.
/// The answer is their report, which is lawful.
///
/// Whatever the answer, the bench holds all callers again, the passes are in their order, and each
/// caller has made a prefix of its phases: all of them where a report is answered, but for those
/// after an error. Where a report is answered, each caller without an error that stopped between
/// two calls, or made all of them, is free for its next call. `NoMemory` is answered before the
/// first call, or where memory was lacking for a second judgement of a call too, which is made when
/// all callers have ended.
pub fn run_asked<
    R: Threads + Sync,
    P: Program + Send + Sync,
    T: Send,
    S: SearchHints + Sync,
    A: Asks<Program = P, Pass = T> + Sync,
>(
    rt: &R,
    alloc: Global,
    shared: &Shared<A, P>,
    bench: &mut Bench<P>,
    sequential: &S,
    passes: &mut Vec<T>,
    script: &Script,
) -> Result<Report, NoMemory>
    // The callers of the shared rows may ask the object.
    requires serves { A.serves shared.now.asks.now shared.now.rows.now }
    // The shared rows have just the script's callers, who are on the bench, unused. For each of
    // them, in order, there is a pass that fits it, unused too.
    requires begins { MayRun P.meaning shared.now.rows.now
        (AreFreshPasses shared.now.rows.now (A.fits shared.now.asks.now) A.count) script.now 0
        bench.old passes.old.items }
    // Whatever the answer, the bench holds all callers again, each of the script's after a prefix
    // of its phases, and the passes are in their order (`HaveReturned`).
    ensures returns { HaveReturned P.meaning shared.now.rows.now (A.fits shared.now.asks.now)
        A.count script.now (run_allotments script.now) bench.new passes.new.items }
    // A report that is answered is lawful and tells of the callers on the bench; each of them that
    // may go on is free, and the passes count and tell just the calls of the report
    // (`IsRunReport`).
    ensures report { IfOk result (IsRunReport (S.spec sequential.now) P.meaning shared.now.rows.now
        A.count script.now (run_allotments script.now) bench.new passes.new.items) }
{
    let ending = Judging { alloc, sequential };
    let (mut workers, lines) = start_all(alloc, shared, bench, passes, script, &ending)?;
    run_workers(rt, shared, &mut workers);
    let pace = Pace::Alone;
    settle_all(shared, script, &ending, pace, &mut workers);
    let lines = end_all(shared, script, &ending, pace, workers, lines, bench, passes)?;
    let report = report_of(shared, bench, sequential, passes, script, pace, lines);
    Ok(report)
}
