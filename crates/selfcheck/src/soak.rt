ghost use Rattle.std.specs.Prelude.{◌≡◌, ◌≤◌, []};
ghost use Rattle.byte_streams.specs.Fault.{LeavesSink};
ghost use Rattle.byte_streams.specs.Writing.{EndsWriting};
ghost use Rattle.selfcheck.specs.Watched.{IsSeenOutputOf};

use crate::command::Command;
use book_base::NoMemory;
use byte_streams::{Sink, Status};
use client_scripts::make_script;
use named_runs::{Form, Onlooker, run_behaviour};
use seq_objects::Kind;
use std::alloc::Global;
use std::thread::Threads;
use test_objects::Behaviour;

/// How many callers the script of a soak has.
const CALLERS: u32 = 4;

/// How many calls each caller of a soak makes.
const CALLS: u64 = 32;

/// Makes a soak: runs the script made from its number over the lawful object, each caller in a
/// thread, and writes the three counts of the report.
pub(crate) fn soak<R: Threads + Sync, W: Onlooker, K: Sink>(
    rt: &R,
    alloc: Global,
    number: u64,
    watch: &mut W,
    sink: &mut K,
) -> Status
    ensures ends { EndsWriting
        (IsSeenOutputOf (Command.Soak number) (W.shown watch.old) (W.shown watch.new) [])
        result (K.taken sink.old) (K.taken sink.new) }
    ensures faults { LeavesSink K.faults result sink.old sink.new }
{
    match make_script(alloc, number, CALLERS, CALLS, Kind::Queue) {
        Ok(script) => {
            let form = Form::Counts;
            run_behaviour(rt, alloc, Behaviour::Lawful, &script, form, watch, sink)
        }
        Err(NoMemory) => Status::NoMemory,
    }
}
