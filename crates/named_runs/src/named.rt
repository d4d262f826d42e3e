//! Runs, replays and monitored runs over an object outside the world that has a name. The object is
//! opened for the run, and closed after it.

ghost use Rattle.std.specs.Prelude.{◌≡◌, ◌≤◌, ◌+◌, length};
ghost use Rattle.book_base.specs.declared.TheConstants.{MAX_CALLERS};
ghost use Rattle.seq_objects.specs.Objects.{kind_spec};
ghost use Rattle.byte_streams.specs.Fault.{LeavesSink};
ghost use Rattle.byte_streams.specs.Writing.{EndsWriting};
ghost use Rattle.named_runs.specs.Runs.{RunEnds};
ghost use Rattle.run_report.specs.Starts.{run_allotments, replay_allotments};
ghost use Rattle.named_runs.specs.BehaviourRuns.{IsSeenOutside};
ghost use Rattle.named_runs.specs.Monitored.{AreSeenMonitored, IsMonitorOutput};

use crate::fresh::{monitor_fresh, replay_fresh, run_fresh};
use crate::named_object::NamedObject;
use crate::{Form, Onlooker};
use byte_streams::{Sink, Status};
use client_scripts::Script;
use std::alloc::Global;
use std::thread::Threads;
use test_objects::Behaviour;

/// Runs a script over the object of this behaviour.
pub(crate) fn run_named<O: NamedObject + Sync, R: Threads + Sync, W: Onlooker, K: Sink>(
    rt: &R,
    alloc: Global,
    _behaviour: Behaviour,
    script: &Script,
    form: Form,
    watch: &mut W,
    sink: &mut K,
) -> Status
where
    O::Pass: Send,
    requires named { _behaviour ≡ O.behaviour }
    ensures ends { RunEnds (kind_spec script.now.kind)
        (IsSeenOutside _behaviour script.now (run_allotments script.now)
        (W.shown watch.old) (W.shown watch.new)) form result (K.taken sink.old) (K.taken sink.new) }
    ensures faults { LeavesSink K.faults result sink.old sink.new }
{
    let Ok((object, mut passes)) = O::open_for(alloc, script.kind(), script.callers()) else {
        return Status::NoMemory;
    };
    let status = run_fresh(rt, alloc, script, &object, &mut passes, form, watch, sink);
    object.close_with(passes);
    status
}

/// Replays a script over the object of this behaviour.
pub(crate) fn replay_named<O: NamedObject, W: Onlooker, K: Sink>(
    alloc: Global,
    _behaviour: Behaviour,
    script: &Script,
    form: Form,
    watch: &mut W,
    sink: &mut K,
) -> Status
    requires named { _behaviour ≡ O.behaviour }
    ensures ends { RunEnds (kind_spec script.now.kind)
        (IsSeenOutside _behaviour script.now (replay_allotments script.now)
        (W.shown watch.old) (W.shown watch.new)) form result (K.taken sink.old) (K.taken sink.new) }
    ensures faults { LeavesSink K.faults result sink.old sink.new }
{
    let Ok((object, mut passes)) = O::open_for(alloc, script.kind(), script.callers()) else {
        return Status::NoMemory;
    };
    let status = replay_fresh(alloc, script, &object, &mut passes, form, watch, sink);
    object.close_with(passes);
    status
}

/// Runs a script over the object of this behaviour, while two monitors watch.
pub(crate) fn monitor_named<O: NamedObject + Sync, R: Threads + Sync, W: Onlooker, K: Sink>(
    rt: &R,
    alloc: Global,
    _behaviour: Behaviour,
    script: &Script,
    watch: &mut W,
    sink: &mut K,
) -> Status
where
    O::Pass: Send,
    requires few { length script.now.operations + 2 ≤ MAX_CALLERS }
    requires named { _behaviour ≡ O.behaviour }
    ensures ends { EndsWriting
        (IsMonitorOutput (AreSeenMonitored _behaviour script.now
        (W.shown watch.old) (W.shown watch.new)) script.now.kind)
        result (K.taken sink.old) (K.taken sink.new) }
    ensures faults { LeavesSink K.faults result sink.old sink.new }
{
    let Ok((object, mut passes)) = O::open_for(alloc, script.kind(), script.callers()) else {
        return Status::NoMemory;
    };
    let status = monitor_fresh(rt, alloc, script, &object, &mut passes, watch, sink);
    object.close_with(passes);
    status
}
