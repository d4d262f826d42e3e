ghost use Rattle.std.specs.Prelude.{IfOk};
ghost use Rattle.client_calls.specs.Asking.{own_count};
ghost use Rattle.run_report.specs.Starts.{run_allotments, MayRun};
ghost use Rattle.run_report.specs.Passes.{AreUnusedPasses};
ghost use Rattle.run_report.specs.Returns.{HaveReturnedOutside};
ghost use Rattle.run_report.specs.Reporting.{IsRunReport};

use crate::asked::run_asked;
use crate::passes::passes_are_fresh;
use book_base::NoMemory;
use client_calls::{OutsideObject, Shared};
use client_scripts::Script;
use drv_wrapper::BlackBox;
use reports::Report;
use row_table::{Bench, Rows};
use search_hints::SearchHints;
use std::alloc::Global;
use std::thread::Threads;
use world_core::{Outside, Program};

/// Runs all callers of a script, each in a thread of its own where one can be had: each calls the
/// object by its pass, and judges each of its calls by the sequential object. The answer is their
/// report, which is lawful.
///
/// Whatever the answer, the bench holds all callers again, the passes are in their order, and each
/// caller has made a prefix of its phases: all of them where a report is answered, but for those
/// after an error. Where a report is answered, each caller without an error that stopped between
/// two calls, or made all of them, is free for its next call. `NoMemory` is answered before the
/// first call, or where memory was lacking for a second judgement of a call too, which is made when
/// all callers have ended.
pub fn run_over<R: Threads + Sync, S: SearchHints + Sync, B: BlackBox + Sync>(
    rt: &R,
    alloc: Global,
    rows: &Rows,
    bench: &mut Bench,
    sequential: &S,
    object: &B,
    passes: &mut Vec<B::Pass>,
    script: &Script,
) -> Result<Report, NoMemory>
where
    B::Pass: Send,
    // The rows have just the script's callers, who are on the bench, unused. For each of them, in
    // order, there is a pass of the object's own, unused too.
    requires begins { MayRun ⟦<Outside as Program>⟧.meaning rows.now
        (AreUnusedPasses (B.is_own object.now) B.Pass.caller B.Pass.made B.Pass.cap) script.now 0
        bench.old passes.old.items }
    // Whatever the answer, the bench holds all callers again, each of the script's after a prefix
    // of its phases, and the passes are in their order (`HaveReturnedOutside`).
    ensures returns { HaveReturnedOutside ⟦<Outside as Program>⟧.meaning rows.now
        (B.is_own object.now) B.Pass.caller B.Pass.made B.Pass.cap B.Pass.told script.now
        (run_allotments script.now) bench.new passes.new.items }
    // A report that is answered is lawful and tells of the callers on the bench; each of them that
    // may go on is free, and the passes count and tell just the calls of the report
    // (`IsRunReport`).
    ensures report { IfOk result (IsRunReport (S.spec sequential.now) ⟦<Outside as Program>⟧.meaning
        rows.now (own_count B.Pass.made B.Pass.cap B.Pass.told) script.now
        (run_allotments script.now) bench.new passes.new.items) }
{
    passes_are_fresh(rows, object, passes, script);
    let asks = OutsideObject { object };
    let shared = Shared { rows, asks: &asks };
    run_asked(rt, alloc, &shared, bench, sequential, passes, script)
}
