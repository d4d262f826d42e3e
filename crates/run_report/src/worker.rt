ghost use Rattle.std.specs.Prelude.{◌≡◌, ◌+◌, ◌*◌, ◌<◌, ◌≤◌, length};
ghost use Rattle.std.specs.List.{All, AllZip};
ghost use Rattle.client_calls.specs.Stands.{GoesOnFrom};
ghost use Rattle.client_calls.specs.Clients.{phases_by, HasSpent, IsAtWork};
ghost use Rattle.client_calls.specs.Keeping.{IsSameSheet};
ghost use Rattle.run_report.specs.Work.{IsReady, HasRun};

use client_calls::{Asks, Client, Ending, Shared};
use row_table::Steps;
use std::marker::Brand;
use std::sync::ledger::{Blank, Ledger};
use std::thread::Threads;
use work_halves::{Work, work_all};
use world_core::Program;

/// A client, and how many further phases it is to make. The client is `None` only while it makes
/// phases.
pub struct Worker<'a, P, T, E> {
    pub client: Option<Client<'a, P, T, E>>,
    pub allotment: u64,
}

// Makes `count` further phases of the client, or fewer where it is halted within them. The steps
// are counted by a counter that is made from `blank`.
fn run_counted<'a, P: Program, T, E: Ending, A: Asks<Program = P, Pass = T>, L: Ledger>(
    client: Client<'a, P, T, E>,
    shared: &Shared<A, P>,
    count: u64,
    blank: Blank,
) -> Client<'a, P, T, E>
    requires blank { (blank.name ≡ L.name) × (blank.parts ≡ L.parts) × (0 < blank.parts) }
    requires serves { A.serves shared.now.asks.now shared.now.rows.now }
    requires work { IsAtWork P.meaning shared.now.rows.now E.says E.object
        (A.fits shared.now.asks.now) A.count client }
    requires goes { GoesOnFrom client.stand }
    requires left { phases_by client + count ≤ 5 * length client.sheet.operations.now }
    ensures work { IsAtWork P.meaning shared.now.rows.now E.says E.object
        (A.fits shared.now.asks.now) A.count result }
    ensures same { IsSameSheet E.object client.entry.sheet result.sheet }
    ensures spent { HasSpent (phases_by client.entry + count) result }
{
    let mut steps = Steps::<L>::new(blank);
    client.run(shared, count, &mut steps)
}

impl<
    'a,
    's,
    P: Program + Send + Sync,
    T: Send,
    E: Ending + Send,
    A: Asks<Program = P, Pass = T> + Sync,
> Work<Shared<'s, A, P>> for Worker<'a, P, T, E> {
    ghost ready = { λ w shared. IsReady P.meaning shared.rows.now E.says E.object
        (A.fits shared.asks.now) A.count (A.serves shared.asks.now shared.rows.now) w };

    ghost done = { λ w shared d. HasRun P.meaning shared.rows.now E.says E.object
        (A.fits shared.asks.now) A.count w d };

    fn work(&mut self, shared: &Shared<'s, A, P>) {
        let Some(client) = self.client.take() else {
            unreachable!()
        };
        let client = run_counted::<P, T, E, A, Brand>(
            client,
            shared,
            self.allotment,
            Blank::new(1),
        );
        match self.client.replace(client) {
            None => {}
            Some(_) => unreachable!(),
        }
    }
}

/// Lets all workers of a list make their phases, each in a thread of its own where one can be had.
pub fn run_workers<
    'a,
    R: Threads + Sync,
    P: Program + Send + Sync,
    T: Send,
    E: Ending + Send,
    A: Asks<Program = P, Pass = T> + Sync,
>(rt: &R, shared: &Shared<A, P>, workers: &mut Vec<Worker<'a, P, T, E>>)
    // Each worker is ready: the callers of the shared rows may ask the object, and the worker's
    // client is at work, isn't halted, and has at least as many phases left as it is to make.
    requires { All (IsReady P.meaning shared.now.rows.now E.says E.object
        (A.fits shared.now.asks.now) A.count
        (A.serves shared.now.asks.now shared.now.rows.now)) workers.old.items }
    // Each worker's client has made as many phases as the worker was to make, or was halted within
    // them.
    ensures { AllZip (HasRun P.meaning shared.now.rows.now E.says E.object
        (A.fits shared.now.asks.now) A.count) workers.old.items workers.new.items }
{
    work_all(rt, shared, workers.as_mut_slice());
}
