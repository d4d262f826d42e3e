ghost use Rattle.std.specs.Prelude.{IfOk};
ghost use Rattle.client_calls.specs.Asking.{own_count};
ghost use Rattle.run_report.specs.Starts.{replay_allotments, MayRun};
ghost use Rattle.run_report.specs.Passes.{AreUnusedPasses};
ghost use Rattle.run_report.specs.Returns.{HaveReturnedOutside};
ghost use Rattle.run_report.specs.Reporting.{IsRunReport};

use crate::passes::passes_are_fresh;
use crate::report::report_of;
use crate::{Pace, end_all, settle_all, start_all, take_turns};
use book_base::NoMemory;
use client_calls::{Judging, OutsideObject, Shared};
use client_scripts::Script;
use drv_wrapper::BlackBox;
use reports::Report;
use row_table::{Bench, Rows};
use search_hints::SearchHints;
use std::alloc::Global;
use std::marker::Brand;
use std::sync::ledger::Blank;
use world_core::{Outside, Program};

/// Runs all callers of a script in one thread, by the script's turns: at each turn the caller that
/// the turn names makes its next phase, unless it has reached its stop or the end of its calls, or
/// is halted. Each call is judged by the sequential object. The answer is the callers' report,
/// which is lawful.
///
/// Whatever the answer, the bench holds all callers again, the passes are in their order, and each
/// caller has made a prefix of its phases: all of them where a report is answered, but for those
/// after an error. Where a report is answered, each caller without an error that stopped between
/// two calls, or made all of them, is free for its next call. `NoMemory` is answered before the
/// first call, or where memory was lacking for a second judgement of a call too, which is made when
/// all callers have ended.
pub fn replay_over<S: SearchHints, B: BlackBox>(
    alloc: Global,
    rows: &Rows,
    bench: &mut Bench,
    sequential: &S,
    object: &B,
    passes: &mut Vec<B::Pass>,
    script: &Script,
) -> Result<Report, NoMemory>
    // The rows have just the script's callers, who are on the bench, unused. For each of them, in
    // order, there is a pass of the object's own, unused too.
    requires begins { MayRun ⟦<Outside as Program>⟧.meaning rows.now
        (AreUnusedPasses (B.is_own object.now) B.Pass.caller B.Pass.made B.Pass.cap) script.now 0
        bench.old passes.old.items }
    // Whatever the answer, the bench holds all callers again, each of the script's after a prefix
    // of its phases, and the passes are in their order (`HaveReturnedOutside`).
    ensures returns { HaveReturnedOutside ⟦<Outside as Program>⟧.meaning rows.now
        (B.is_own object.now) B.Pass.caller B.Pass.made B.Pass.cap B.Pass.told script.now
        (replay_allotments script.now) bench.new passes.new.items }
    // A report that is answered is lawful and tells of the callers on the bench; each of them that
    // may go on is free, and the passes count and tell just the calls of the report
    // (`IsRunReport`).
    ensures report { IfOk result (IsRunReport (S.spec sequential.now) ⟦<Outside as Program>⟧.meaning
        rows.now (own_count B.Pass.made B.Pass.cap B.Pass.told) script.now
        (replay_allotments script.now) bench.new passes.new.items) }
{
    passes_are_fresh(rows, object, passes, script);
    let ending = Judging { alloc, sequential };
    let asks = OutsideObject { object };
    let shared = Shared { rows, asks: &asks };
    let (mut workers, lines) = start_all(alloc, &shared, bench, passes, script, &ending)?;
    take_turns::<_, _, _, _, Brand>(&shared, script, &ending, &mut workers, Blank::new(1));
    let pace = Pace::ByTurns;
    settle_all(&shared, script, &ending, pace, &mut workers);
    let lines = end_all(
        &shared, script, &ending, pace, workers, lines, bench, passes,
    )?;
    let report = report_of(&shared, bench, sequential, passes, script, pace, lines);
    Ok(report)
}
