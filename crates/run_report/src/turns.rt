ghost use Rattle.std.specs.Prelude.{◌≡◌, ◌+◌, ℕ, ◌<◌, length};
ghost use Rattle.run_report.specs.Places.{AreAllDown};
ghost use Rattle.run_report.specs.Starts.{run_allotments, replay_allotments, RunCourse, course_of, IsStart};
ghost use Rattle.run_report.specs.Returns.{IsSpent};
ghost use Rattle.run_report.specs.Turns.{IsTurned, IsTurning};

use crate::worker::Worker;
use client_calls::{Asks, Ending, Shared};
use client_scripts::Script;
use row_table::Steps;
use std::sync::ledger::{Blank, Ledger};
use world_core::Program;

impl<'a, P: Program, T, E: Ending> Worker<'a, P, T, E> {
    // Makes one further phase of the client, where one is left and the client isn't halted.
    fn take_turn<A: Asks<Program = P, Pass = T>, L: Ledger>(
        &mut self,
        shared: &Shared<A, P>,
        steps: &mut Steps<L>,
    )
        requires serves { A.serves shared.now.asks.now shared.now.rows.now }
        requires turning { IsTurning P.meaning shared.now.rows.now E.says E.object
            (A.fits shared.now.asks.now) A.count self.old }
        ensures { (course : RunCourse) (i turns : ℕ)
            → IsTurned P.meaning shared.now.rows.now E.says E.object (A.fits shared.now.asks.now)
            A.count course i turns self.old
            → IsTurned P.meaning shared.now.rows.now E.says E.object (A.fits shared.now.asks.now)
            A.count course i (turns + 1) self.new }
    {
        if self.allotment == 0 {
            return;
        }
        let client = self.client.take().unwrap();
        let client = if client.stand.goes_on() {
            self.allotment -= 1;
            client.advance(shared, steps)
        } else {
            client
        };
        match self.client.replace(client) {
            None => {}
            Some(_) => unreachable!(),
        }
    }
}

/// Lets the workers of a script's callers make their phases in the order of the script's turns, in
/// one thread. At each turn the worker of the caller that the turn names makes its next phase,
/// unless the caller has reached its stop or the end of its calls, or is halted. One counter counts
/// the steps of all callers.
pub fn take_turns<'a, P: Program, T, E: Ending, A: Asks<Program = P, Pass = T>, L: Ledger>(
    shared: &Shared<A, P>,
    script: &Script,
    _ending: &E,
    workers: &mut Vec<Worker<'a, P, T, E>>,
    blank: Blank,
)
    // The blank is one for a counter of the ledger `L`, and isn't used up.
    requires blank { (blank.name ≡ L.name) × (blank.parts ≡ L.parts) × (0 < blank.parts) }
    // The callers of the shared rows may ask the object.
    requires serves { A.serves shared.now.asks.now shared.now.rows.now }
    // There is one worker for each caller of the script, the last caller's first. Each has its
    // client, before its first phase, with the operations of its caller and an allotment of all its
    // phases, up to its stop where it has one.
    requires workers { AreAllDown (length script.now.operations)
        (IsStart P.meaning shared.now.rows.now E.says E.object (A.fits shared.now.asks.now) A.count
        (course_of script.now (run_allotments script.now) (E.object _ending.now)))
        workers.old.items }
    // There is still one worker for each caller of the script, the last caller's first. The client
    // of each has made a phase for each turn that names its caller, up to its stop or the end of
    // its calls, or was halted before.
    ensures workers { AreAllDown (length script.now.operations)
        (IsSpent P.meaning shared.now.rows.now E.says E.object (A.fits shared.now.asks.now) A.count
        (course_of script.now (replay_allotments script.now) (E.object _ending.now)))
        workers.new.items }
{
    let mut steps = Steps::<L>::new(blank);
    let last = script.callers() as usize - 1;
    for turn in script.turns() {
        workers[last - *turn as usize].take_turn(shared, &mut steps);
    }
}
