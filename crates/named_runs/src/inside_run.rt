//! Runs of a script over an object inside the world.

ghost use Rattle.std.specs.Prelude.{◌≡◌, ◌⊎◌, None, IfSome, IfNone};
ghost use Rattle.seq_objects.specs.Objects.{kind_spec};
ghost use Rattle.byte_streams.specs.Fault.{LeavesSink};
ghost use Rattle.named_runs.specs.Runs.{RunEnds};
ghost use Rattle.named_runs.specs.Worlds.{inside_of};
ghost use Rattle.named_runs.specs.BehaviourRuns.{IsSeenRunReport};

use crate::fresh::core_fresh;
use crate::{Form, Onlooker};
use book_base::MAX_CALLS;
use byte_streams::{Sink, Status};
use client_scripts::Script;
use core_objects::{CoreCell, CoreLog, CoreTally};
use kind_search::SearchedKind;
use seq_objects::Kind;
use std::alloc::Global;
use std::thread::Threads;
use test_objects::Behaviour;

// Runs all callers of a script over the object of a behaviour that is inside the world, each in a
// thread of its own where one can be had, and writes what the form shows of their report: over the
// lawful object for every kind, over the tally for a counter and over the cell for a register. For
// every other behaviour and kind the object is outside the world: then no run is made, and `None`
// is returned. The object and the table of rows are opened for the run, with the greatest cap.
pub(crate) fn run_inside<R: Threads + Sync, W: Onlooker, K: Sink>(
    rt: &R,
    alloc: Global,
    behaviour: Behaviour,
    script: &Script,
    form: Form,
    watch: &mut W,
    sink: &mut K,
) -> Option<Status>
    ensures ends { IfSome result (λ status. RunEnds (kind_spec script.now.kind)
        (IsSeenRunReport behaviour script.now (W.shown watch.old) (W.shown watch.new)) form status
        (K.taken sink.old) (K.taken sink.new)) }
    ensures fine { IfSome result (λ status. (status ≡ Status.Fine) ⊎ (status ≡ Status.WriteFault)
        ⊎ (status ≡ Status.NoMemory)) }
    ensures faults { IfSome result (λ status. LeavesSink K.faults status sink.old sink.new) }
    ensures outside { IfNone result
        ((inside_of behaviour script.now.kind ≡ None) × (sink.new ≡ sink.old)
        × (watch.new ≡ watch.old)) }
{
    let kind = script.kind();
    let callers = script.callers();
    match behaviour {
        Behaviour::Lawful => {
            let object = SearchedKind { kind };
            let Ok((log, mut passes)) = CoreLog::open(alloc, object, callers, MAX_CALLS) else {
                return Some(Status::NoMemory);
            };
            Some(core_fresh(
                rt,
                alloc,
                script,
                &log,
                &mut passes,
                MAX_CALLS,
                form,
                watch,
                sink,
            ))
        }
        Behaviour::Tally => match kind {
            Kind::Counter => {
                let Ok((tally, mut passes)) = CoreTally::open(alloc, callers, MAX_CALLS) else {
                    return Some(Status::NoMemory);
                };
                Some(core_fresh(
                    rt,
                    alloc,
                    script,
                    &tally,
                    &mut passes,
                    MAX_CALLS,
                    form,
                    watch,
                    sink,
                ))
            }
            _ => None,
        },
        Behaviour::Cell => match kind {
            Kind::Register => {
                let Ok((cell, mut passes)) = CoreCell::open(alloc, callers, MAX_CALLS) else {
                    return Some(Status::NoMemory);
                };
                Some(core_fresh(
                    rt,
                    alloc,
                    script,
                    &cell,
                    &mut passes,
                    MAX_CALLS,
                    form,
                    watch,
                    sink,
                ))
            }
            _ => None,
        },
        _ => None,
    }
}
