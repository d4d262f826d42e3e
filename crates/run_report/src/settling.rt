//! Calls that were left unjudged for want of memory, once all callers have made their phases.

ghost use Rattle.std.specs.Prelude.{◌≡◌, ℕ, ◌+◌, ◌*◌, ◌<◌, ◌≤◌, true, is_some, length, slice_index};
ghost use Rattle.report_lines.specs.Allotments.{operations_at, turns_of};
ghost use Rattle.client_calls.specs.Clients.{phases_by, HasSpent, IsAtWork};
ghost use Rattle.client_calls.specs.Keeping.{IsSameSheet};
ghost use Rattle.client_calls.specs.Finishing.{is_unjudged};
ghost use Rattle.run_report.specs.Places.{AreAllDown, AreInOrder};
ghost use Rattle.run_report.specs.Starts.{RunCourse, allotments_by, course_of};
ghost use Rattle.run_report.specs.Returns.{IsSpent, KeepsNothing};

use crate::pace::Pace;
use crate::start::allotment_of;
use crate::worker::Worker;
use client_calls::{Asks, Client, Ending, Shared};
use client_scripts::{PHASES, Script};
use row_table::Steps;
use std::marker::Brand;
use std::sync::ledger::{Blank, Ledger};
use world_core::Program;

// How often turns name a caller.
fn named(turns: &[u32], who: u32) -> u64
    ensures { result ≡ turns_of turns.now who }
{
    let named = turns.iter().filter(|turn| **turn == who).count();
    named as u64
}

// How many phases a script gives a caller at a pace.
fn allotment_at(script: &Script, pace: Pace, who: u32) -> u64
    requires who { who < length script.now.operations }
    ensures allotment { result ≡ slice_index (allotments_by pace script.now) who }
    ensures within { result ≤ 5 * length (operations_at script.now.operations who) }
{
    let _callers = script.callers();
    let most = allotment_of(script, who);
    match pace {
        Pace::Alone => most,
        Pace::ByTurns => most.min(named(script.turns(), who)),
    }
}

impl<'a, P: Program, T, E: Ending> Worker<'a, P, T, E> {
    // Drops the book and the order that the client keeps.
    fn release<A: Asks<Program = P, Pass = T>>(&mut self, _shared: &Shared<A, P>)
        requires { is_some self.old.client ≡ true }
        ensures spent { (course : RunCourse) (i : ℕ)
            → IsSpent P.meaning _shared.now.rows.now E.says E.object (A.fits _shared.now.asks.now)
            A.count course i self.old
            → IsSpent P.meaning _shared.now.rows.now E.says E.object (A.fits _shared.now.asks.now)
            A.count course i self.new }
        ensures free { KeepsNothing self.new }
    {
        let client = self.client.take().unwrap();
        match self.client.replace(client.release()) {
            None => {}
            Some(_) => unreachable!(),
        }
    }

    // Judges a call of the client that was left unjudged once more, and lets the client make the
    // other phases of its allotment. Afterwards the client keeps no book and no order.
    fn settle<A: Asks<Program = P, Pass = T>>(
        &mut self,
        shared: &Shared<A, P>,
        script: &Script,
        _ending: &E,
        pace: Pace,
    )
        requires serves { A.serves shared.now.asks.now shared.now.rows.now }
        requires spent { (i : ℕ) × (i < length script.now.operations)
            × IsSpent P.meaning shared.now.rows.now E.says E.object (A.fits shared.now.asks.now)
            A.count (course_of script.now (allotments_by pace script.now) (E.object _ending.now))
            i self.old }
        ensures spent { (i : ℕ)
            → IsSpent P.meaning shared.now.rows.now E.says E.object (A.fits shared.now.asks.now)
            A.count (course_of script.now (allotments_by pace script.now) (E.object _ending.now))
            i self.old
            → IsSpent P.meaning shared.now.rows.now E.says E.object (A.fits shared.now.asks.now)
            A.count (course_of script.now (allotments_by pace script.now) (E.object _ending.now))
            i self.new }
        ensures free { KeepsNothing self.new }
    {
        let client = self.client.take().unwrap();
        let allotment = allotment_at(script, pace, client.sheet.who);
        let settled = settle_counted::<P, T, E, A, Brand>(shared, client, allotment, Blank::new(1));
        match self.client.replace(settled.release()) {
            None => {}
            Some(_) => unreachable!(),
        }
    }
}

// Drops the books and the orders that all clients keep.
fn release_all<'a, P: Program, T, E: Ending, A: Asks<Program = P, Pass = T>>(
    shared: &Shared<A, P>,
    _script: &Script,
    _ending: &E,
    _pace: Pace,
    workers: &mut Vec<Worker<'a, P, T, E>>,
)
    requires workers { AreAllDown (length _script.now.operations)
        (IsSpent P.meaning shared.now.rows.now E.says E.object (A.fits shared.now.asks.now) A.count
        (course_of _script.now (allotments_by _pace _script.now) (E.object _ending.now)))
        workers.old.items }
    ensures workers { AreAllDown (length _script.now.operations)
        (IsSpent P.meaning shared.now.rows.now E.says E.object (A.fits shared.now.asks.now) A.count
        (course_of _script.now (allotments_by _pace _script.now) (E.object _ending.now)))
        workers.new.items }
    ensures free { AreInOrder (λ _ w. KeepsNothing w) workers.new.items }
{
    for place in 0..workers.len() {
        workers[place].release(shared);
    }
}

// Settles the worker at a place of the list, where no client keeps a book or an order.
fn settle_at<'a, P: Program, T, E: Ending, A: Asks<Program = P, Pass = T>>(
    shared: &Shared<A, P>,
    script: &Script,
    ending: &E,
    pace: Pace,
    workers: &mut Vec<Worker<'a, P, T, E>>,
    place: usize,
)
    requires serves { A.serves shared.now.asks.now shared.now.rows.now }
    requires place { place < length workers.old.items }
    requires workers { AreAllDown (length script.now.operations)
        (IsSpent P.meaning shared.now.rows.now E.says E.object (A.fits shared.now.asks.now) A.count
        (course_of script.now (allotments_by pace script.now) (E.object ending.now)))
        workers.old.items }
    requires free { AreInOrder (λ _ w. KeepsNothing w) workers.old.items }
    ensures workers { AreAllDown (length script.now.operations)
        (IsSpent P.meaning shared.now.rows.now E.says E.object (A.fits shared.now.asks.now) A.count
        (course_of script.now (allotments_by pace script.now) (E.object ending.now)))
        workers.new.items }
    ensures free { AreInOrder (λ _ w. KeepsNothing w) workers.new.items }
{
    workers[place].settle(shared, script, ending, pace);
}

// How many phases of its allotment a client has left whose last call is unjudged.
fn left_of<P, T, E>(client: &Client<P, T, E>, allotment: u64) -> u64
    requires unjudged { is_unjudged client.now.stand ≡ true }
    requires spent { HasSpent allotment client.now }
    ensures { phases_by client.now + result ≡ allotment }
{
    allotment - PHASES * client.sheet.lines.len() as u64 - PHASES
}

// Judges a call of a client that was left unjudged once more, and lets the client make the other
// phases of its allotment. A call that is left unjudged among these is judged once more too.
fn settle_counted<'a, P: Program, T, E: Ending, A: Asks<Program = P, Pass = T>, L: Ledger>(
    shared: &Shared<A, P>,
    client: Client<'a, P, T, E>,
    allotment: u64,
    blank: Blank,
) -> Client<'a, P, T, E>
    requires blank { (blank.name ≡ L.name) × (blank.parts ≡ L.parts) × (0 < blank.parts) }
    requires serves { A.serves shared.now.asks.now shared.now.rows.now }
    requires work { IsAtWork P.meaning shared.now.rows.now E.says E.object
        (A.fits shared.now.asks.now) A.count client }
    requires spent { HasSpent allotment client }
    requires within { allotment ≤ 5 * length client.sheet.operations.now }
    ensures work { IsAtWork P.meaning shared.now.rows.now E.says E.object
        (A.fits shared.now.asks.now) A.count result }
    ensures same { IsSameSheet E.object client.entry.sheet result.sheet }
    ensures spent { HasSpent allotment result }
{
    let mut steps = Steps::<L>::new(blank);
    let mut client = client;
    for _call in 0..allotment {
        if !client.stand.is_unjudged() {
            return client;
        }
        let left = left_of(&client, allotment);
        client = client.judge_again(shared, &mut steps);
        if !client.stand.goes_on() {
            return client;
        }
        client = client.run(shared, left, &mut steps);
    }
    client
}

/// Judges each call that was left unjudged for want of memory once more, by the book at its own
/// seen cut, when all callers have made their phases. While it does so, no other client keeps a
/// book or an order: their memory is free.
///
/// After a call that is judged now and is no error, its caller makes the other phases of its
/// allotment. A call for which memory is lacking again stays unjudged. The pace says how many
/// phases each caller was given.
pub fn settle_all<'a, P: Program, T, E: Ending, A: Asks<Program = P, Pass = T>>(
    shared: &Shared<A, P>,
    script: &Script,
    ending: &E,
    pace: Pace,
    workers: &mut Vec<Worker<'a, P, T, E>>,
)
    // The callers of the shared rows may ask the object.
    requires serves { A.serves shared.now.asks.now shared.now.rows.now }
    // There is one worker for each caller of the script, the last caller's first. Each has its
    // client, with the operations of its caller and the allotment at this pace, and the client has
    // made all phases of its allotment or was halted within it.
    requires workers { AreAllDown (length script.now.operations)
        (IsSpent P.meaning shared.now.rows.now E.says E.object (A.fits shared.now.asks.now) A.count
        (course_of script.now (allotments_by pace script.now) (E.object ending.now)))
        workers.old.items }
    // There is still one worker for each caller of the script, the last caller's first. Each still
    // has its client, which has made all phases of its allotment or was halted within it.
    ensures workers { AreAllDown (length script.now.operations)
        (IsSpent P.meaning shared.now.rows.now E.says E.object (A.fits shared.now.asks.now) A.count
        (course_of script.now (allotments_by pace script.now) (E.object ending.now)))
        workers.new.items }
    // No client keeps a book or an order any more.
    ensures free { AreInOrder (λ _ w. KeepsNothing w) workers.new.items }
{
    release_all(shared, script, ending, pace, workers);
    for place in 0..workers.len() {
        settle_at(shared, script, ending, pace, workers, place);
    }
}
