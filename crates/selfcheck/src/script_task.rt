ghost use Rattle.std.specs.Prelude.{◌≡◌, ◌≤◌};
ghost use Rattle.seq_objects.specs.Objects.{kind_spec};
ghost use Rattle.byte_streams.specs.Fault.{LeavesSink};
ghost use Rattle.named_runs.specs.Runs.{RunEnds};
ghost use Rattle.selfcheck.specs.ScriptTasks.{IsReportBy, form_by};

use byte_streams::{Sink, Status};
use client_scripts::Script;
use named_runs::{Form, Onlooker, replay_behaviour, run_behaviour};
use std::alloc::Global;
use std::thread::Threads;
use test_objects::Behaviour;

/// What a command does with the script of an input.
#[derive(Clone, Copy, Debug, PartialEq, Eq)]
pub(crate) enum ScriptTask {
    /// Runs the script, each caller in a thread, and writes the report.
    Run,
    /// Takes the script's turns in one thread, and writes the report.
    Replay,
    /// Runs the script, each caller in a thread, and writes a certificate of what was delivered.
    Certify,
}

impl ScriptTask {
    /// Does this task with a script, over the object of a behaviour.
    pub(crate) fn carry_out<R: Threads + Sync, W: Onlooker, K: Sink>(
        self,
        rt: &R,
        alloc: Global,
        behaviour: Behaviour,
        script: &Script,
        watch: &mut W,
        sink: &mut K,
    ) -> Status
        ensures ends { RunEnds (kind_spec script.now.kind)
            (IsReportBy self behaviour script.now (W.shown watch.old) (W.shown watch.new))
            (form_by self) result (K.taken sink.old) (K.taken sink.new) }
        ensures faults { LeavesSink K.faults result sink.old sink.new }
    {
        match self {
            ScriptTask::Run => {
                run_behaviour(rt, alloc, behaviour, script, Form::Report, watch, sink)
            }
            ScriptTask::Replay => {
                replay_behaviour(alloc, behaviour, script, Form::Report, watch, sink)
            }
            ScriptTask::Certify => {
                run_behaviour(rt, alloc, behaviour, script, Form::Certificate, watch, sink)
            }
        }
    }
}
