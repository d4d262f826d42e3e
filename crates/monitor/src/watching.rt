//! All callers of a script at work, beside two further callers that watch them.

ghost use Rattle.std.specs.Prelude.{◌≡◌, ◌≢◌, ℕ, ◌+◌, ◌<◌, ◌≤◌, false, Some, length, vec_len, vec_capacity, IfOk};
ghost use Rattle.std.specs.List.{All, AllZip};
ghost use Rattle.world_core.specs.Local.{Local};
ghost use Rattle.row_table.specs.Callers.{on_bench, IsBenchOf, HoldsFree};
ghost use Rattle.client_calls.specs.Ends.{silent, SaysDeferred};
ghost use Rattle.reports.specs.ReportLayout.{lines_in};
ghost use Rattle.monitor.specs.Beside.{IsUnmoved, IsBackFrom};
ghost use Rattle.run_report.specs.Work.{IsReady, HasRun};
ghost use Rattle.run_report.specs.Starts.{run_allotments, course_of, IsUnused, MayRun, AreFreshPasses};
ghost use Rattle.run_report.specs.Returns.{HaveReturned, AreBack};
ghost use Rattle.monitor.specs.Monitoring.{IsMonitor, HasWatched};

use crate::{Left, watch_beside};
use book_base::NoMemory;
use client_calls::{Asks, Deferring, Shared};
use client_scripts::Script;
use reports::Own;
use row_table::Bench;
use run_report::{Pace, Worker, end_all, start_all};
use search_hints::SearchHints;
use std::alloc::Global;
use std::thread::Threads;
use world_core::Program;

// Lets all workers of a list make their phases, and beside them callers `one` and `one + 1` of the
// bench make rounds.
fn watch_in<
    'a,
    R: Threads + Sync,
    P: Program + Send + Sync,
    T: Send,
    S: SearchHints + Sync,
    A: Asks<Program = P, Pass = T> + Sync,
>(
    rt: &R,
    alloc: Global,
    shared: &Shared<A, P>,
    bench: &mut Bench<P>,
    sequential: &S,
    workers: &mut Vec<Worker<'a, P, T, Deferring>>,
    one: u32,
    rounds: u64,
) -> (Left, Left)
    requires bench { IsBenchOf P.meaning shared.now.rows.now bench.old }
    requires ready { All (IsReady P.meaning shared.now.rows.now SaysDeferred (λ deferring. silent)
        (A.fits shared.now.asks.now) A.count
        (A.serves shared.now.asks.now shared.now.rows.now)) workers.old.items }
    requires free { HoldsFree bench.old one × HoldsFree bench.old (one + 1) }
    requires few { one < 16 }
    ensures bench { IsBenchOf P.meaning shared.now.rows.now bench.new }
    ensures done { AllZip (HasRun P.meaning shared.now.rows.now SaysDeferred (λ deferring. silent)
        (A.fits shared.now.asks.now) A.count) workers.old.items workers.new.items }
    ensures others { (i : ℕ) → i ≢ one → i ≢ one + 1 → IsUnmoved bench.old bench.new i }
    ensures one { (l : Local) → on_bench bench.old one ≡ Some l → IsBackFrom
        (S.spec sequential.now) shared.now.rows.now.callers bench.new one l rounds result.0 }
    ensures other { (l : Local) → on_bench bench.old (one + 1) ≡ Some l → IsBackFrom
        (S.spec sequential.now) shared.now.rows.now.callers bench.new (one + 1) l rounds result.1 }
{
    watch_beside(
        rt,
        alloc,
        shared.rows,
        bench,
        sequential,
        shared,
        workers.as_mut_slice(),
        one,
        one + 1,
        rounds,
    )
}

/// Lets each caller make the phases that a script gives it, each in a thread of its own where one
/// can be had, while the two callers after the script's make rounds, each until one is illegal, and
/// at most `rounds`. Whatever the answer, all callers come back to their bench, and all passes to
/// their list, in order.
///
/// The answer is the lines of each of the script's callers, in order, and what the two monitors
/// left, also where one lacked memory. `NoMemory` is answered before anything is done.
pub(crate) fn watch_all<
    'a,
    R: Threads + Sync,
    P: Program + Send + Sync,
    T: Send,
    S: SearchHints + Sync,
    A: Asks<Program = P, Pass = T> + Sync,
>(
    rt: &R,
    alloc: Global,
    shared: &Shared<A, P>,
    bench: &mut Bench<P>,
    sequential: &S,
    passes: &mut Vec<T>,
    script: &'a Script,
    rounds: u64,
) -> Result<(Vec<Own>, Left, Left), NoMemory>
    requires serves { A.serves shared.now.asks.now shared.now.rows.now }
    requires begins { MayRun P.meaning shared.now.rows.now
        (AreFreshPasses shared.now.rows.now (A.fits shared.now.asks.now) A.count) script.now 2
        bench.old passes.old.items }
    ensures returns { HaveReturned P.meaning shared.now.rows.now (A.fits shared.now.asks.now)
        A.count script.now (run_allotments script.now) bench.new passes.new.items }
    ensures capacity { vec_capacity passes.old ≤ vec_capacity passes.new }
    ensures monitors { (i : ℕ) → IsMonitor script.now i → IsUnused bench.new i }
    ensures all_lines { IfOk result (λ left. vec_len left.0 ≡ length script.now.operations) }
    ensures lines { IfOk result (λ left. AreBack P.meaning shared.now.rows.now SaysDeferred
        (A.fits shared.now.asks.now) A.count
        (length script.now.operations) (length script.now.operations)
        (course_of script.now (run_allotments script.now) silent)
        bench.new passes.new.items (lines_in left.0.items) false) }
    ensures one { IfOk result (λ left. (l : Local) → on_bench bench.old
        (length script.now.operations) ≡ Some l → HasWatched (S.spec sequential.now)
        shared.now.rows.now.callers bench.new (length script.now.operations) l rounds left.1) }
    ensures other { IfOk result
        (λ left. (l : Local) → on_bench bench.old (length script.now.operations + 1) ≡ Some l
        → HasWatched (S.spec sequential.now) shared.now.rows.now.callers bench.new
        (length script.now.operations + 1) l rounds left.2) }
{
    let callers = script.callers();
    let ending = Deferring;
    let (mut workers, lines) = start_all(alloc, shared, bench, passes, script, &ending)?;
    let (one, other) = watch_in(
        rt,
        alloc,
        shared,
        bench,
        sequential,
        &mut workers,
        callers,
        rounds,
    );
    let pace = Pace::Alone;
    let lines = end_all(shared, script, &ending, pace, workers, lines, bench, passes)?;
    Ok((lines, one, other))
}
