//! Whole runs of a script that open their own table of rows: with each caller in a thread of its
//! own, over an object outside the world or inside it, by turns in one thread, and with monitors.
//! Each shows its table to an onlooker when the run has ended.

ghost use Rattle.std.specs.Prelude.{◌≡◌, ◌⊎◌, ◌≤◌, ◌+◌, length, vec_len, vec_capacity};
ghost use Rattle.book_base.specs.declared.TheConstants.{MAX_CALLERS, MAX_CALLS};
ghost use Rattle.seq_objects.specs.Objects.{kind_spec};
ghost use Rattle.row_table.specs.Callers.{shape_of, locals_on, IsBenchOf, HoldsAll};
ghost use Rattle.text_fields.specs.Counts.{AreAtMost};
ghost use Rattle.client_scripts.specs.Plans.{sizes};
ghost use Rattle.core_objects.specs.CoreObjects.{shape_with, ArePassesFor};
ghost use Rattle.run_report.specs.Places.{AreInOrder};
ghost use Rattle.run_report.specs.Starts.{run_allotments, replay_allotments};
ghost use Rattle.run_report.specs.Passes.{IsOwnPass, AreUnusedPasses};
ghost use Rattle.byte_streams.specs.Fault.{LeavesSink};
ghost use Rattle.byte_streams.specs.Writing.{EndsWriting};
ghost use Rattle.named_runs.specs.Runs.{RunEnds};
ghost use Rattle.named_runs.specs.Shown.{Sees};
ghost use Rattle.named_runs.specs.BehaviourRuns.{IsToldReport, IsInsideReport};
ghost use Rattle.named_runs.specs.Monitored.{AreToldMonitored, IsMonitorOutput};

use crate::{Form, Onlooker, core_and_write, replay_and_write, run_and_write};
use book_base::MAX_CALLS;
use byte_streams::{Sink, Status};
use client_scripts::Script;
use core_objects::CoreObject;
use drv_wrapper::{BlackBox, ObjectPass};
use monitor::monitor_and_write;
use row_table::{Bench, Rows};
use search_hints::SearchHints;
use std::alloc::Global;
use std::thread::Threads;
use world_core::{Outside, Program};

// Shows an onlooker the table on which a run has ended, and closes it.
fn close_shown<P: Program, W: Onlooker>(
    alloc: Global,
    rows: Rows<P>,
    bench: Bench<P>,
    watch: &mut W,
)
    requires bench { IsBenchOf P.meaning rows bench × HoldsAll bench }
    ensures { Sees (W.shown watch.old)
        (record { shape = shape_of P.meaning rows; locals = locals_on bench })
        (W.shown watch.new) }
{
    watch.ended(&rows, &bench);
    // Nothing is lost where no memory is left for the words of the closed table.
    let _world = rows.close(alloc, bench);
}

/// Runs all callers of a script over an object, each in a thread of its own where one can be had,
/// and writes what the form shows of their report, which is lawful. The table of rows is opened for
/// the run, with the greatest cap, and closed after the run.
///
/// Each caller has its pass of the object, unused. Afterwards the passes are in their order,
/// whatever the answer.
pub fn run_fresh<R: Threads + Sync, B: BlackBox + Sync, W: Onlooker, K: Sink>(
    rt: &R,
    alloc: Global,
    script: &Script,
    object: &B,
    passes: &mut Vec<B::Pass>,
    form: Form,
    watch: &mut W,
    sink: &mut K,
) -> Status
where
    B::Pass: Send,
    // For each caller of the script, in order, there is a pass of the object's own. No call was
    // made with it, and it may make a call for each operation of its caller.
    requires passes { AreUnusedPasses (B.is_own object.now) B.Pass.caller B.Pass.made B.Pass.cap
        script.now.operations passes.old.items }

    // Whatever the answer, there is one pass for each caller of the script.
    ensures all_passes { vec_len passes.new ≡ length script.now.operations }
    // Each pass is the object's own, and the pass of the caller at its place.
    ensures passes { AreInOrder (IsOwnPass (B.is_own object.now) B.Pass.caller) passes.new.items }

    // The returned status and the text written are those of a lawful report of the one table that
    // the onlooker was shown in this call, which agrees with the counts and the told lists of the
    // passes. After a failed write only a part of the text is written, and without memory nothing
    // is.
    ensures ends { RunEnds (kind_spec script.now.kind)
        (IsToldReport B.Pass.made B.Pass.told passes.new.items script.now
        (run_allotments script.now) (W.shown watch.old) (W.shown watch.new)) form result
        (K.taken sink.old) (K.taken sink.new) }

    // With the status `WriteFault` the sink's count of faults rose in this call; with any other
    // status the count stayed as it was. With `NoMemory` the whole sink stayed as it was.
    ensures faults { LeavesSink K.faults result sink.old sink.new }
{
    let Ok((rows, mut bench)) = Rows::open(alloc, Outside, script.callers(), MAX_CALLS) else {
        return Status::NoMemory;
    };
    let status = run_and_write(
        rt, alloc, &rows, &mut bench, object, passes, script, form, sink,
    );
    close_shown(alloc, rows, bench, watch);
    status
}

/// Runs all callers of a script over an object inside the world, each in a thread of its own where
/// one can be had, and writes what the form shows of their report, which is lawful and has no error
/// line. The table of rows is opened for the run, with the object's program and this cap: how many
/// calls each caller may make. It is closed after the run.
///
/// Each caller has its pass, with which the object wasn't asked yet. Afterwards there is a pass for
/// each caller, whatever the answer.
pub fn core_fresh<R: Threads + Sync, O: CoreObject + Sync, W: Onlooker, K: Sink>(
    rt: &R,
    alloc: Global,
    script: &Script,
    object: &O,
    passes: &mut Vec<O::Pass>,
    cap: u64,
    form: Form,
    watch: &mut W,
    sink: &mut K,
) -> Status
where
    O::S: SearchHints + Sync,
    O::P: Send + Sync,
    O::Pass: Send,
    // Each caller may make at least one call.
    requires some_calls { 1 ≤ cap }
    // The cap is at most `MAX_CALLS`.
    requires few_calls { cap ≤ MAX_CALLS }
    // No caller of the script has more operations than the cap.
    requires calls { AreAtMost cap (sizes script.now.operations) }
    // There is one pass for each caller of the script, in order. It fits the caller before its
    // first object step, with this number of callers and this cap.
    requires passes { ArePassesFor (O.fits object.now)
        (length script.now.operations) cap passes.old.items }

    // Whatever the answer, there is one pass for each caller of the script.
    ensures all_passes { vec_len passes.new ≡ length script.now.operations }

    // The returned status and the text written are those of a lawful report without an error line,
    // of the one table that the onlooker was shown in this call; the passes fit the object steps of
    // its locals. After a failed write only a part of the text is written, and without memory
    // nothing is.
    ensures ends { RunEnds (O.S.spec (O.sequential_of object.now))
        (IsInsideReport (O.S.spec (O.sequential_of object.now))
        (shape_with (O.P.meaning (O.program_of object.now)) (length script.now.operations) cap)
        (O.fits object.now) passes.new.items script.now (W.shown watch.old) (W.shown watch.new))
        form result (K.taken sink.old) (K.taken sink.new) }

    // The status is `Fine`, `WriteFault` or `NoMemory`.
    ensures fine { (result ≡ Status.Fine) ⊎ (result ≡ Status.WriteFault)
        ⊎ (result ≡ Status.NoMemory) }

    // With the status `WriteFault` the sink's count of faults rose in this call; with any other
    // status the count stayed as it was. With `NoMemory` the whole sink stayed as it was.
    ensures faults { LeavesSink K.faults result sink.old sink.new }
{
    let Ok((rows, mut bench)) = Rows::open(alloc, object.program(), script.callers(), cap) else {
        return Status::NoMemory;
    };
    let status = core_and_write(
        rt, alloc, &rows, &mut bench, object, passes, script, form, sink,
    );
    close_shown(alloc, rows, bench, watch);
    status
}

/// Lets all callers of a script take its turns over an object, in one thread, and writes what the
/// form shows of their report, which is lawful. The table of rows is opened for the replay, with
/// the greatest cap, and closed after the replay.
///
/// Each caller has its pass of the object, unused. Afterwards the passes are in their order,
/// whatever the answer.
pub fn replay_fresh<B: BlackBox, W: Onlooker, K: Sink>(
    alloc: Global,
    script: &Script,
    object: &B,
    passes: &mut Vec<B::Pass>,
    form: Form,
    watch: &mut W,
    sink: &mut K,
) -> Status
    // For each caller of the script, in order, there is a pass of the object's own. No call was
    // made with it, and it may make a call for each operation of its caller.
    requires passes { AreUnusedPasses (B.is_own object.now) B.Pass.caller B.Pass.made B.Pass.cap
        script.now.operations passes.old.items }

    // Whatever the answer, there is one pass for each caller of the script.
    ensures all_passes { vec_len passes.new ≡ length script.now.operations }
    // Each pass is the object's own, and the pass of the caller at its place.
    ensures passes { AreInOrder (IsOwnPass (B.is_own object.now) B.Pass.caller) passes.new.items }

    // The returned status and the text written are those of a lawful report of the one table that
    // the onlooker was shown in this call, which agrees with the counts and the told lists of the
    // passes. After a failed write only a part of the text is written, and without memory nothing
    // is.
    ensures ends { RunEnds (kind_spec script.now.kind)
        (IsToldReport B.Pass.made B.Pass.told passes.new.items script.now
        (replay_allotments script.now) (W.shown watch.old) (W.shown watch.new)) form result
        (K.taken sink.old) (K.taken sink.new) }

    // With the status `WriteFault` the sink's count of faults rose in this call; with any other
    // status the count stayed as it was. With `NoMemory` the whole sink stayed as it was.
    ensures faults { LeavesSink K.faults result sink.old sink.new }
{
    let Ok((rows, mut bench)) = Rows::open(alloc, Outside, script.callers(), MAX_CALLS) else {
        return Status::NoMemory;
    };
    let status = replay_and_write(alloc, &rows, &mut bench, object, passes, script, form, sink);
    close_shown(alloc, rows, bench, watch);
    status
}

/// Runs all callers of a script over an object, each in a thread of its own where one can be had,
/// while two monitors watch them, and writes what is right for the records that they published. The
/// table of rows is opened for the run, with two callers more and the greatest cap, and closed
/// after the run.
///
/// Each of the script's callers has its pass of the object, unused. Afterwards the passes are in
/// their order, whatever the answer.
pub fn monitor_fresh<R: Threads + Sync, B: BlackBox + Sync, W: Onlooker, K: Sink>(
    rt: &R,
    alloc: Global,
    script: &Script,
    object: &B,
    passes: &mut Vec<B::Pass>,
    watch: &mut W,
    sink: &mut K,
) -> Status
where
    B::Pass: Send,
    // A table can have two callers more than the script has.
    requires few { length script.now.operations + 2 ≤ MAX_CALLERS }
    // For each caller of the script, in order, there is a pass of the object's own. No call was
    // made with it, and it may make a call for each operation of its caller.
    requires passes { AreUnusedPasses (B.is_own object.now) B.Pass.caller B.Pass.made B.Pass.cap
        script.now.operations passes.old.items }

    // Whatever the answer, there is one pass for each caller of the script.
    ensures all_passes { vec_len passes.new ≡ length script.now.operations }
    // The list of passes has at least the capacity that it had.
    ensures capacity { vec_capacity passes.old ≤ vec_capacity passes.new }
    // Each pass is the object's own, and the pass of the caller at its place.
    ensures passes { AreInOrder (IsOwnPass (B.is_own object.now) B.Pass.caller) passes.new.items }

    // The returned status and the text written are right for the records of callers on the one
    // table that the onlooker was shown in this call, whose calls agree with the told lists of the
    // passes. After a failed write only a part of the text is written, and without memory nothing
    // is.
    ensures ends { EndsWriting
        (IsMonitorOutput (AreToldMonitored B.Pass.told passes.new.items script.now
        (W.shown watch.old) (W.shown watch.new)) script.now.kind)
        result (K.taken sink.old) (K.taken sink.new) }

    // With the status `WriteFault` the sink's count of faults rose in this call; with any other
    // status the count stayed as it was. With `NoMemory` the whole sink stayed as it was.
    ensures faults { LeavesSink K.faults result sink.old sink.new }
{
    let Ok((rows, mut bench)) = Rows::open(alloc, Outside, script.callers() + 2, MAX_CALLS) else {
        return Status::NoMemory;
    };
    let status = monitor_and_write(rt, alloc, &rows, &mut bench, object, passes, script, sink);
    close_shown(alloc, rows, bench, watch);
    status
}
