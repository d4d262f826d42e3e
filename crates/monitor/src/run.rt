ghost use Rattle.std.specs.Prelude.{◌≡◌, ℕ, ◌+◌, ◌≤◌, ◌⊎◌, true, false, None, Some, length, vec_len, vec_capacity, IfOk, IfSome, IfNone, OnOk, OnErr};
ghost use Rattle.book_base.specs.declared.TheConstants.{MAX_CALLERS};
ghost use Rattle.book_base.specs.Book.{answered};
ghost use Rattle.book_base.specs.Cut.{IsWithin};
ghost use Rattle.report_lines.specs.Lines.{book_of_lines};
ghost use Rattle.row_table.specs.Callers.{locals_on};
ghost use Rattle.client_calls.specs.Asking.{own_count};
ghost use Rattle.reports.specs.Filling.{AreOfABook};
ghost use Rattle.reports.specs.ReportLayout.{lines_in};
ghost use Rattle.run_report.specs.Starts.{run_allotments, IsUnused, MayRun, AreFreshPasses};
ghost use Rattle.run_report.specs.Returns.{HaveReturned, HaveReturnedOutside};
ghost use Rattle.run_report.specs.Passes.{AreUnusedPasses};
ghost use Rattle.monitor.specs.Published.{IsJudgedAt, IsExactAnswer};
ghost use Rattle.monitor.specs.Monitoring.{published_for, with_monitors, IsMonitor, HaveBeenWatched};

use crate::counts::{most_rounds, published_counts};
use crate::published::judge_at;
use crate::watching::watch_all;
use crate::{Left, Witness};
use book_base::NoMemory;
use client_calls::{Asks, OutsideObject, Shared};
use client_scripts::Script;
use drv_wrapper::BlackBox;
use reports::{Own, book_of};
use row_table::{Bench, Rows};
use run_report::passes_are_fresh;
use search_hints::SearchHints;
use std::alloc::Global;
use std::thread::Threads;
use world_core::{Outside, Program};

// A witness that one of two monitors left, if one did, even where the other lacked memory. Where a
// monitor left `placed` true, it is that monitor's.
fn found_by(one: Left, other: Left) -> Result<Option<Witness>, NoMemory>
    ensures found { IfOk result
        (λ found. IfSome found (λ w. (one.own ≡ Some w) ⊎ (other.own ≡ Some w))) }
    ensures none { IfOk result (λ found. IfNone found ((one.own ≡ None) × (other.own ≡ None))) }
    ensures ends { IfOk result (λ found. IfNone found
        ((one.wants_memory ≡ false) × (other.wants_memory ≡ false))) }
    ensures lacked { OnErr result ((one.own ≡ None) × (other.own ≡ None)
        × ((one.wants_memory ≡ true) ⊎ (other.wants_memory ≡ true))) }
{
    let wants_memory = one.wants_memory || other.wants_memory;
    let (first, second) = if other.placed {
        (other.own, one.own)
    } else {
        (one.own, other.own)
    };
    let found = match first {
        Some(witness) => Some(witness),
        None => second,
    };
    if found.is_none() && wants_memory {
        return Err(NoMemory);
    }
    Ok(found)
}

// Puts an empty list of lines for each of the two monitors after those of the other callers.
fn add_monitors(alloc: Global, lines: &mut Vec<Own>) -> Result<(), NoMemory>
    ensures { OnOk result (lines_in lines.new.items ≡ with_monitors (lines_in lines.old.items)) }
{
    lines.push(Own {
        lines: Vec::new(alloc),
    })?;
    lines.push(Own {
        lines: Vec::new(alloc),
    })?;
    Ok(())
}

// Judges the book of the lines of all callers, at the cut of the records that they have published.
fn judge_lines<S: SearchHints>(
    alloc: Global,
    sequential: &S,
    script: &Script,
    lines: Vec<Own>,
) -> Result<Option<Witness>, NoMemory>
    requires lines { AreOfABook (with_monitors (lines_in lines.items)) }
    requires callers { vec_len lines ≡ length script.now.operations }
    requires few { length script.now.operations + 2 ≤ MAX_CALLERS }
    requires within { IsWithin (published_for script.now)
        (answered (book_of_lines (with_monitors (lines_in lines.items)))) }
    ensures { IfOk result (IsJudgedAt (S.spec sequential.now)
        (book_of_lines (with_monitors (lines_in lines.items))) (published_for script.now)) }
{
    let mut all = lines;
    add_monitors(alloc, &mut all)?;
    let book = book_of(alloc, &all)?;
    judge_at(alloc, sequential, &book, &published_counts(script))
}

/// Runs all callers of a script, each in a thread of its own where one can be had. They ask an
/// object, inside the world or outside it, and none judges a call. Beside them two monitors, the
/// two callers after the script's, make rounds over what is published. Each makes rounds until one
/// is illegal, and at most one more than the script has calls.
///
/// The answer is a witness exactly where the book of all published records has no legal order. With
/// an answer each caller whose allotment ends between two calls, or after all of them, is free for
/// its next call. Whatever the answer, the bench holds all callers again, and the passes are in
/// their order. `NoMemory` is answered before the first call, or where a judgement lacked memory
/// and no monitor has a witness.
pub fn monitor_asked<
    R: Threads + Sync,
    P: Program + Send + Sync,
    T: Send,
    S: SearchHints + Sync,
    A: Asks<Program = P, Pass = T> + Sync,
>(
    rt: &R,
    alloc: Global,
    shared: &Shared<A, P>,
    bench: &mut Bench<P>,
    sequential: &S,
    passes: &mut Vec<T>,
    script: &Script,
) -> Result<Option<Witness>, NoMemory>
    // The callers of the shared rows may ask the object.
    requires serves { A.serves shared.now.asks.now shared.now.rows.now }
    // The shared rows have just the script's callers and two more, all on the bench, unused. For
    // each of the script's, in order, there is a pass that fits it, unused too.
    requires begins { MayRun P.meaning shared.now.rows.now
        (AreFreshPasses shared.now.rows.now (A.fits shared.now.asks.now) A.count) script.now 2
        bench.old passes.old.items }
    // Whatever the answer, the bench holds all callers again, each of the script's after a prefix
    // of its phases, and the passes are in their order (`HaveReturned`).
    ensures returns { HaveReturned P.meaning shared.now.rows.now (A.fits shared.now.asks.now)
        A.count script.now (run_allotments script.now) bench.new passes.new.items }
    // The list of passes has at least the capacity that it had.
    ensures capacity { vec_capacity passes.old ≤ vec_capacity passes.new }
    // Both monitors are back on the bench, live and idle, without a call.
    ensures monitors { (i : ℕ) → IsMonitor script.now i → IsUnused bench.new i }
    // Where an answer is given, the callers have made all their phases, the passes count and tell
    // just the calls of these, and the monitors have made their rounds (`HaveBeenWatched`).
    ensures watched { IfOk result (λ _. HaveBeenWatched (S.spec sequential.now) A.count script.now
        bench.old bench.new passes.new.items) }
    // An answer is a witness exactly where the book of all published records has no legal order. A
    // witness is the book of all callers' calls at a cut that counts published records alone, and
    // has no legal order.
    ensures answer { IfOk result (IsExactAnswer (S.spec sequential.now) (locals_on bench.new)) }
{
    let most = most_rounds(script);
    let (lines, one, other) = watch_all(
        rt, alloc, shared, bench, sequential, passes, script, most,
    )?;
    let found = found_by(one, other)?;
    match found {
        Some(witness) => Ok(Some(witness)),
        None => judge_lines(alloc, sequential, script, lines),
    }
}

/// Runs all callers of a script over an object under test, each in a thread of its own where one
/// can be had, and none judges a call. Beside them two monitors, the two callers after the
/// script's, make rounds over what is published (Castañeda and Rodríguez 2023). Each makes rounds
/// until one is illegal, and at most one more than the script has calls. The rows have two callers
/// more than the script, and there is a pass for each of the script's.
///
/// The answer is a witness exactly where the book of all published records has no legal order.
/// Whatever the answer, the bench holds all callers again, and the passes are in their order.
/// `NoMemory` is answered before the first call, or where a judgement lacked memory and no monitor
/// has a witness.
pub fn monitor_over<R: Threads + Sync, S: SearchHints + Sync, B: BlackBox + Sync>(
    rt: &R,
    alloc: Global,
    rows: &Rows,
    bench: &mut Bench,
    sequential: &S,
    object: &B,
    passes: &mut Vec<B::Pass>,
    script: &Script,
) -> Result<Option<Witness>, NoMemory>
where
    B::Pass: Send,
    // The rows have just the script's callers and two more, all on the bench, unused. For each of
    // the script's, in order, there is a pass of the object's own, unused too.
    requires begins { MayRun ⟦<Outside as Program>⟧.meaning rows.now
        (AreUnusedPasses (B.is_own object.now) B.Pass.caller B.Pass.made B.Pass.cap) script.now 2
        bench.old passes.old.items }
    // Whatever the answer, the bench holds all callers again, each of the script's after a prefix
    // of its phases, and the passes are in their order (`HaveReturnedOutside`).
    ensures returns { HaveReturnedOutside ⟦<Outside as Program>⟧.meaning rows.now
        (B.is_own object.now) B.Pass.caller B.Pass.made B.Pass.cap B.Pass.told script.now
        (run_allotments script.now) bench.new passes.new.items }
    // The list of passes has at least the capacity that it had.
    ensures capacity { vec_capacity passes.old ≤ vec_capacity passes.new }
    // Both monitors are back on the bench, live and idle, without a call.
    ensures monitors { (i : ℕ) → IsMonitor script.now i → IsUnused bench.new i }
    // Where an answer is given, the callers have made all their phases, the passes count and tell
    // just the calls of these, and the monitors have made their rounds (`HaveBeenWatched`).
    ensures watched { IfOk result (λ _. HaveBeenWatched (S.spec sequential.now)
        (own_count B.Pass.made B.Pass.cap B.Pass.told) script.now bench.old bench.new
        passes.new.items) }
    // An answer is a witness exactly where the book of all published records has no legal order. A
    // witness is the book of all callers' calls at a cut that counts published records alone, and
    // has no legal order.
    ensures answer { IfOk result (IsExactAnswer (S.spec sequential.now) (locals_on bench.new)) }
{
    passes_are_fresh(rows, object, passes, script);
    let asks = OutsideObject { object };
    let shared = Shared { rows, asks: &asks };
    monitor_asked(rt, alloc, &shared, bench, sequential, passes, script)
}
