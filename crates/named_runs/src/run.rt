//! Whole runs and replays of a script, and what is written of them.

ghost use Rattle.std.specs.Prelude.{◌≡◌, ◌⊎◌, ◌<◌, ℕ, None, length};
ghost use Rattle.seq_objects.specs.Objects.{kind_spec};
ghost use Rattle.core_objects.specs.CoreObjects.{AreOpenedWith, ArePassesFor};
ghost use Rattle.run_report.specs.Starts.{run_allotments, replay_allotments, MayRun};
ghost use Rattle.run_report.specs.Passes.{AreUnusedPasses};
ghost use Rattle.run_report.specs.Returns.{HaveReturned, HaveReturnedOutside};
ghost use Rattle.core_runs.specs.Inside.{fits_inside};
ghost use Rattle.run_report.specs.Reporting.{IsFreeAgain};
ghost use Rattle.reports.specs.Findings.{Findings};
ghost use Rattle.byte_streams.specs.Fault.{LeavesSink};
ghost use Rattle.named_runs.specs.Runs.{RunEnds};
ghost use Rattle.named_runs.specs.Running.{IsBenchReport, IsCoreReport, IsToldBenchReport, EndsByReport};

use crate::form::Form;
use crate::report_output::write_report;
use book_base::NoMemory;
use byte_streams::{Sink, Status};
use client_scripts::Script;
use core_objects::CoreObject;
use core_runs::run_core;
use drv_wrapper::{BlackBox, ObjectPass};
use kind_search::SearchedKind;
use row_table::{Bench, Rows};
use run_report::{replay_over, run_over};
use search_hints::SearchHints;
use std::alloc::Global;
use std::thread::Threads;
use world_core::{Outside, Program};

/// Runs all callers of a script over an object under test, each in a thread of its own where one
/// can be had, and writes what the form shows of their report. The report is lawful: each call that
/// was made has its line, and all delivered replies are in one order that is legal for the script's
/// kind and keeps the views' precedence. A line is an error only where the published records have
/// no legal order, and no run over linearizable object calls leaves such records (Castañeda and
/// Rodríguez 2023).
///
/// The bench holds all callers, unused, and each has its pass of the object, unused too. Whatever
/// the answer, the bench holds them all again afterwards, and the passes are in their order.
pub fn run_and_write<R: Threads + Sync, B: BlackBox + Sync, K: Sink>(
    rt: &R,
    alloc: Global,
    rows: &Rows,
    bench: &mut Bench,
    object: &B,
    passes: &mut Vec<B::Pass>,
    script: &Script,
    form: Form,
    sink: &mut K,
) -> Status
where
    B::Pass: Send,
    // The rows have just the script's callers, who are on the bench, unused. For each of them, in
    // order, there is a pass of the object's own, unused too.
    requires begins { MayRun ⟦<Outside as Program>⟧.meaning rows.now
        (AreUnusedPasses (B.is_own object.now) B.Pass.caller B.Pass.made B.Pass.cap) script.now 0
        bench.old passes.old.items }

    // Whatever the answer, the bench holds all callers again, each of the script's after a prefix
    // of its phases, and the passes are in their order (`HaveReturnedOutside`).
    ensures returns { HaveReturnedOutside ⟦<Outside as Program>⟧.meaning rows.now
        (B.is_own object.now) B.Pass.caller B.Pass.made B.Pass.cap B.Pass.told script.now
        (run_allotments script.now) bench.new passes.new.items }

    // The headline: what the sink has taken fits the status. It is all that the form shows of a
    // lawful report of the locals on the bench; a prefix of that with `WriteFault`; and nothing
    // with `NoMemory`. Each pass counts just the calls that the object was asked for by its
    // caller's lines in this report.
    ensures ends { RunEnds (kind_spec script.now.kind)
        (IsToldBenchReport (kind_spec script.now.kind) ⟦<Outside as Program>⟧.meaning rows.now
        bench.new B.Pass.made B.Pass.told passes.new.items script.now (run_allotments script.now))
        form result (K.taken sink.old) (K.taken sink.new) }

    // Unless a write failed or memory was lacking, the status is `Found` where a line of the report
    // is an error, and `Fine` where none is. Unless memory was lacking, each caller that has no
    // error line, and stopped between two calls or made all of them, is free for its next call.
    ensures reported { EndsByReport (kind_spec script.now.kind) ⟦<Outside as Program>⟧.meaning
        rows.now bench.new script.now (run_allotments script.now) result }

    // The status is `WriteFault` only where the sink's count of faults rose in this call, and any
    // other status only where that count stayed. With `NoMemory` the sink is as it was.
    ensures faults { LeavesSink K.faults result sink.old sink.new }
{
    let kind = SearchedKind {
        kind: script.kind(),
    };
    match run_over(rt, alloc, rows, bench, &kind, object, passes, script) {
        Ok(report) => write_report(alloc, form, &kind, &report, sink),
        Err(NoMemory) => Status::NoMemory,
    }
}

/// Lets all callers of a script take its turns over an object under test, in one thread, and writes
/// what the form shows of their report, which is lawful.
///
/// The bench holds all callers, unused, and each has its pass of the object, unused too. Whatever
/// the answer, the bench holds them all again afterwards, and the passes are in their order.
pub fn replay_and_write<B: BlackBox, K: Sink>(
    alloc: Global,
    rows: &Rows,
    bench: &mut Bench,
    object: &B,
    passes: &mut Vec<B::Pass>,
    script: &Script,
    form: Form,
    sink: &mut K,
) -> Status
    // The rows have just the script's callers, who are on the bench, unused. For each of them, in
    // order, there is a pass of the object's own, unused too.
    requires begins { MayRun ⟦<Outside as Program>⟧.meaning rows.now
        (AreUnusedPasses (B.is_own object.now) B.Pass.caller B.Pass.made B.Pass.cap) script.now 0
        bench.old passes.old.items }

    // Whatever the answer, the bench holds all callers again, each of the script's after a prefix
    // of its phases, and the passes are in their order (`HaveReturnedOutside`).
    ensures returns { HaveReturnedOutside ⟦<Outside as Program>⟧.meaning rows.now
        (B.is_own object.now) B.Pass.caller B.Pass.made B.Pass.cap B.Pass.told script.now
        (replay_allotments script.now) bench.new passes.new.items }

    // The headline: what the sink has taken fits the status. It is all that the form shows of a
    // lawful report of the locals on the bench; a prefix of that with `WriteFault`; and nothing
    // with `NoMemory`. Each pass counts just the calls that the object was asked for by its
    // caller's lines in this report.
    ensures ends { RunEnds (kind_spec script.now.kind)
        (IsToldBenchReport (kind_spec script.now.kind) ⟦<Outside as Program>⟧.meaning rows.now
        bench.new B.Pass.made B.Pass.told passes.new.items script.now
        (replay_allotments script.now)) form result (K.taken sink.old) (K.taken sink.new) }

    // Unless a write failed or memory was lacking, the status is `Found` where a line of the report
    // is an error, and `Fine` where none is. Unless memory was lacking, each caller that has no
    // error line, and stopped between two calls or made all of them, is free for its next call.
    ensures reported { EndsByReport (kind_spec script.now.kind) ⟦<Outside as Program>⟧.meaning
        rows.now bench.new script.now (replay_allotments script.now) result }

    // The status is `WriteFault` only where the sink's count of faults rose in this call, and any
    // other status only where that count stayed. With `NoMemory` the sink is as it was.
    ensures faults { LeavesSink K.faults result sink.old sink.new }
{
    let kind = SearchedKind {
        kind: script.kind(),
    };
    match replay_over(alloc, rows, bench, &kind, object, passes, script) {
        Ok(report) => write_report(alloc, form, &kind, &report, sink),
        Err(NoMemory) => Status::NoMemory,
    }
}

/// Runs all callers of a script over an object inside the world, each in a thread of its own where
/// one can be had, and writes what the form shows of their report. The report is lawful and has no
/// error line: every run of the object's program is linearizable (Herlihy and Wing 1990), and no
/// such run leaves published records without a legal order (Castañeda and Rodríguez 2023). The
/// status is never `Found`.
///
/// The rows were opened with the object's program. The bench holds all callers, unused, and each
/// has its pass of the object, which fits it. Whatever the answer, the bench holds them all again
/// afterwards, and each pass fits the object steps that its caller has made.
pub fn core_and_write<R: Threads + Sync, O: CoreObject + Sync, K: Sink>(
    rt: &R,
    alloc: Global,
    rows: &Rows<O::P>,
    bench: &mut Bench<O::P>,
    object: &O,
    passes: &mut Vec<O::Pass>,
    script: &Script,
    form: Form,
    sink: &mut K,
) -> Status
where
    O::S: SearchHints + Sync,
    O::P: Send + Sync,
    O::Pass: Send,
    // The rows were opened with the program of this object.
    requires program { AreOpenedWith O.P.meaning (O.program_of object.now) rows.now }
    // The rows have just the script's callers, who are on the bench, unused. For each caller of the
    // rows, in order, there is a pass that fits it before its first object step, with the number of
    // callers and the cap of the rows.
    requires begins { MayRun O.P.meaning rows.now
        (λ _. ArePassesFor (O.fits object.now) rows.now.callers rows.now.cap) script.now 0 bench.old
        passes.old.items }

    // Whatever the answer, the bench holds all callers again, each after a prefix of its phases,
    // and the passes are in their order and fit the object steps of their callers (`HaveReturned`).
    ensures returns { HaveReturned O.P.meaning rows.now (fits_inside (O.fits object.now))
        (λ pass. None) script.now (run_allotments script.now) bench.new passes.new.items }

    // The headline: what the sink has taken fits the status. It is all that the form shows of a
    // lawful report of the locals on the bench, without an error line; a prefix of it with
    // `WriteFault`; and nothing with `NoMemory`.
    ensures ends { RunEnds (O.S.spec (O.sequential_of object.now))
        (IsCoreReport (O.S.spec (O.sequential_of object.now)) O.P.meaning rows.now bench.new
        script.now (run_allotments script.now)) form result (K.taken sink.old) (K.taken sink.new) }

    // The status is never `Found`.
    ensures right { ¬ (result ≡ Status.Found) }
    // The status is `Fine`, `WriteFault` or `NoMemory`.
    ensures fine { (result ≡ Status.Fine) ⊎ (result ≡ Status.WriteFault)
        ⊎ (result ≡ Status.NoMemory) }

    // Unless memory was lacking, each caller that has no error line in the report, and stopped
    // between two calls or made all of its calls, is free for its next one.
    ensures free { ¬ (result ≡ Status.NoMemory) → (report : Findings)
        → IsBenchReport (O.S.spec (O.sequential_of object.now)) O.P.meaning rows.now bench.new
        script.now (run_allotments script.now) report → (i : ℕ) → i < length script.now.operations
        → IsFreeAgain bench.new (run_allotments script.now) report i }

    // The status is `WriteFault` only where the sink's count of faults rose in this call, and any
    // other status only where that count stayed. With `NoMemory` the sink is as it was.
    ensures faults { LeavesSink K.faults result sink.old sink.new }
{
    match run_core(rt, alloc, rows, bench, object, passes, script) {
        Ok(report) => write_report(alloc, form, object.sequential(), &report, sink),
        Err(NoMemory) => Status::NoMemory,
    }
}
