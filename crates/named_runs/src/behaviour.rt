//! Runs, replays and monitored runs of a script over the object of a behaviour.

ghost use Rattle.std.specs.Prelude.{◌≡◌, ◌⊎◌, ◌≤◌, ◌+◌, IsSome, length};
ghost use Rattle.book_base.specs.declared.TheConstants.{MAX_CALLERS};
ghost use Rattle.seq_objects.specs.Objects.{kind_spec};
ghost use Rattle.byte_streams.specs.Fault.{LeavesSink};
ghost use Rattle.byte_streams.specs.Writing.{EndsWriting};
ghost use Rattle.named_runs.specs.Runs.{RunEnds};
ghost use Rattle.run_report.specs.Starts.{run_allotments, replay_allotments};
ghost use Rattle.named_runs.specs.Worlds.{inside_of};
ghost use Rattle.named_runs.specs.BehaviourRuns.{IsSeenOutside, IsSeenRunReport};
ghost use Rattle.named_runs.specs.Monitored.{AreSeenMonitored, IsMonitorOutput};

use crate::inside_run::run_inside;
use crate::named::{monitor_named, replay_named, run_named};
use crate::{Form, Onlooker};
use byte_streams::{Sink, Status};
use client_scripts::Script;
use seq_objects::Kind;
use std::alloc::Global;
use std::thread::Threads;
use test_objects::{
    Behaviour, Invent, Late, LogBox, Lossy, OnePass, Plain, SplitTally, Tally, Twice, WordCell,
};

// Calls a function with the type of the object of a behaviour as its first type argument.
macro_rules! over_behaviour {
    ($behaviour:expr, $over:ident::<$($t:ty),*>($($x:expr),*)) => {
        match $behaviour {
            Behaviour::Lawful => $over::<LogBox<Plain<Kind>>, $($t),*>($($x),*),
            Behaviour::Tally => $over::<Tally, $($t),*>($($x),*),
            Behaviour::Cell => $over::<WordCell, $($t),*>($($x),*),
            Behaviour::Lossy => $over::<LogBox<Lossy<Kind>>, $($t),*>($($x),*),
            Behaviour::Twice => $over::<LogBox<Twice<Kind>>, $($t),*>($($x),*),
            Behaviour::Late => $over::<LogBox<Late<Kind>>, $($t),*>($($x),*),
            Behaviour::Invent => $over::<LogBox<Invent<Kind>>, $($t),*>($($x),*),
            Behaviour::Split => $over::<SplitTally, $($t),*>($($x),*),
            Behaviour::Onepass => $over::<OnePass, $($t),*>($($x),*),
        }
    };
}

// Runs a script over the object of a behaviour, as an object outside the world.
fn run_outside<R: Threads + Sync, W: Onlooker, K: Sink>(
    rt: &R,
    alloc: Global,
    behaviour: Behaviour,
    script: &Script,
    form: Form,
    watch: &mut W,
    sink: &mut K,
) -> Status
    ensures ends { RunEnds (kind_spec script.now.kind)
        (IsSeenOutside behaviour script.now (run_allotments script.now)
        (W.shown watch.old) (W.shown watch.new)) form result (K.taken sink.old) (K.taken sink.new) }
    ensures faults { LeavesSink K.faults result sink.old sink.new }
{
    over_behaviour!(
        behaviour,
        run_named::<R, W, K>(rt, alloc, behaviour, script, form, watch, sink)
    )
}

/// Runs all callers of a script over the object of a behaviour, each in a thread of its own where
/// one can be had, and writes what the form shows of their report, which is lawful whatever the
/// object does.
///
/// The object of `lawful` for every script, that of `tally` for a counter's script and that of
/// `cell` for a register's script are inside the world: a run over one of them has no error line.
/// In every other case the object is outside the world. The table of rows and the object are opened
/// for the script's callers with the greatest cap, and closed after the run.
pub fn run_behaviour<R: Threads + Sync, W: Onlooker, K: Sink>(
    rt: &R,
    alloc: Global,
    behaviour: Behaviour,
    script: &Script,
    form: Form,
    watch: &mut W,
    sink: &mut K,
) -> Status
    // The returned status and the text written are those of a lawful report of the one table that
    // the onlooker was shown in this call, and the object of the behaviour answered its calls.
    // After a failed write only a part of the text is written, and without memory nothing is.
    ensures ends { RunEnds (kind_spec script.now.kind)
        (IsSeenRunReport behaviour script.now (W.shown watch.old) (W.shown watch.new)) form
        result (K.taken sink.old) (K.taken sink.new) }

    // Over an object inside the world the status is `Fine`, `WriteFault` or `NoMemory`.
    ensures fine { IsSome (inside_of behaviour script.now.kind)
        → (result ≡ Status.Fine) ⊎ (result ≡ Status.WriteFault) ⊎ (result ≡ Status.NoMemory) }

    // With the status `WriteFault` the sink's count of faults rose in this call; with any other
    // status the count stayed as it was. With `NoMemory` the whole sink stayed as it was.
    ensures faults { LeavesSink K.faults result sink.old sink.new }
{
    match run_inside(rt, alloc, behaviour, script, form, watch, sink) {
        Some(status) => status,
        None => run_outside(rt, alloc, behaviour, script, form, watch, sink),
    }
}

/// Lets all callers of a script take its turns over the object of a behaviour, in one thread, and
/// writes what the form shows of their report, which is lawful whatever the object does.
///
/// The table of rows and the object are opened for the script's callers with the greatest cap, and
/// closed after the replay.
pub fn replay_behaviour<W: Onlooker, K: Sink>(
    alloc: Global,
    behaviour: Behaviour,
    script: &Script,
    form: Form,
    watch: &mut W,
    sink: &mut K,
) -> Status
    // The returned status and the text written are those of a lawful report of the one table that
    // the onlooker was shown in this call, and the object of the behaviour answered its calls.
    // After a failed write only a part of the text is written, and without memory nothing is.
    ensures ends { RunEnds (kind_spec script.now.kind)
        (IsSeenOutside behaviour script.now (replay_allotments script.now)
        (W.shown watch.old) (W.shown watch.new)) form result (K.taken sink.old) (K.taken sink.new) }

    // With the status `WriteFault` the sink's count of faults rose in this call; with any other
    // status the count stayed as it was. With `NoMemory` the whole sink stayed as it was.
    ensures faults { LeavesSink K.faults result sink.old sink.new }
{
    over_behaviour!(
        behaviour,
        replay_named::<W, K>(alloc, behaviour, script, form, watch, sink)
    )
}

/// Runs all callers of a script over the object of a behaviour, each in a thread of its own where
/// one can be had: none judges a call, and two monitors watch them. It writes `legal`, or `illegal`
/// and the text of a witness, by the book of all records that the callers published.
///
/// The table of rows is opened for two callers more than the script has, and the object for the
/// script's, with the greatest cap; both are closed after the run.
pub fn monitor_behaviour<R: Threads + Sync, W: Onlooker, K: Sink>(
    rt: &R,
    alloc: Global,
    behaviour: Behaviour,
    script: &Script,
    watch: &mut W,
    sink: &mut K,
) -> Status
    // A table can have two callers more than the script has.
    requires few { length script.now.operations + 2 ≤ MAX_CALLERS }

    // The returned status and the text written are right for the records of callers on the one
    // table that the onlooker was shown in this call, whose calls the object of the behaviour
    // answered. After a failed write only a part of the text is written, and without memory nothing
    // is.
    ensures ends { EndsWriting
        (IsMonitorOutput (AreSeenMonitored behaviour script.now
        (W.shown watch.old) (W.shown watch.new)) script.now.kind)
        result (K.taken sink.old) (K.taken sink.new) }

    // With the status `WriteFault` the sink's count of faults rose in this call; with any other
    // status the count stayed as it was. With `NoMemory` the whole sink stayed as it was.
    ensures faults { LeavesSink K.faults result sink.old sink.new }
{
    over_behaviour!(
        behaviour,
        monitor_named::<R, W, K>(rt, alloc, behaviour, script, watch, sink)
    )
}
