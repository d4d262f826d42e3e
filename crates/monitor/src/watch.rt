ghost use Rattle.std.specs.Prelude.{◌≡◌, ◌<◌};
ghost use Rattle.monitor.specs.Watching.{IsFresh, IsReady, HasGoneRound, HasWatched};

use crate::board::Board;
use crate::monitor::Monitor;
use crate::round::Round;
use book_base::NoMemory;
use row_table::{Rows, Steps};
use search_hints::SearchHints;
use std::alloc::Global;
use std::marker::Brand;
use std::sync::ledger::{Blank, Ledger};
use work_halves::Work;
use world_core::{Outside, Program};

/// What all watches of a table share: the allocator, the rows, the board, and the sequential object
/// by which they judge.
#[derive(Drop)]
pub struct Watched<'a, S, P: Program = Outside> {
    pub alloc: Global,
    pub rows: &'a Rows<P>,
    pub board: &'a Board,
    pub sequential: &'a S,
}

/// A monitor at work, how many rounds it may make, and whether it lacked memory in one of them. The
/// monitor is `None` only while it makes its rounds.
pub struct Watch<P = Outside> {
    pub monitor: Option<Monitor<P>>,
    pub rounds: u64,
    pub wants_memory: bool,
}

// Lets a monitor make rounds up to the first illegal one, at most `rounds` of them. The flag in
// the answer says whether a round ended for want of memory.
fn make_rounds<P: Program, S: SearchHints, L: Ledger>(
    monitor: Monitor<P>,
    shared: &Watched<S, P>,
    rounds: u64,
    steps: &mut Steps<L>,
) -> (Monitor<P>, bool)
    requires { IsFresh P.meaning shared.now.rows.now shared.now.board.now monitor }
    ensures { HasGoneRound (S.spec shared.now.sequential.now) P.meaning shared.now.rows.now
        shared.now.board.now rounds monitor result.0 result.1 }
{
    let mut monitor = monitor;
    let mut standing = None;
    for _i in 0..rounds {
        match monitor.round_after(
            shared.alloc,
            shared.sequential,
            shared.rows,
            shared.board,
            &mut standing,
            steps,
        ) {
            Ok(Round::Legal(_)) => {}
            Ok(Round::Illegal(_)) => return (monitor, false),
            Err(NoMemory) => return (monitor, true),
        }
    }
    (monitor, false)
}

// Makes the rounds of a monitor, with a counter of steps that is made from `blank`.
fn make_counted<P: Program, S: SearchHints, L: Ledger>(
    monitor: Monitor<P>,
    shared: &Watched<S, P>,
    rounds: u64,
    blank: Blank,
) -> (Monitor<P>, bool)
    requires blank { (blank.name ≡ L.name) × (blank.parts ≡ L.parts) × (0 < blank.parts) }
    requires fresh { IsFresh P.meaning shared.now.rows.now shared.now.board.now monitor }
    ensures { HasGoneRound (S.spec shared.now.sequential.now) P.meaning shared.now.rows.now
        shared.now.board.now rounds monitor result.0 result.1 }
{
    let mut steps = Steps::<L>::new(blank);
    make_rounds(monitor, shared, rounds, &mut steps)
}

// Makes the rounds of a monitor, with a counter of steps that this function makes.
fn make_alone<P: Program, S: SearchHints>(
    monitor: Monitor<P>,
    shared: &Watched<S, P>,
    rounds: u64,
) -> (Monitor<P>, bool)
    requires { IsFresh P.meaning shared.now.rows.now shared.now.board.now monitor }
    ensures { HasGoneRound (S.spec shared.now.sequential.now) P.meaning shared.now.rows.now
        shared.now.board.now rounds monitor result.0 result.1 }
{
    make_counted::<P, S, Brand>(monitor, shared, rounds, Blank::new(1))
}

impl<'s, P: Program + Send + Sync, S: SearchHints + Sync> Work<Watched<'s, S, P>> for Watch<P> {
    ghost ready = { λ w shared. IsReady P.meaning shared.rows.now shared.board.now w };

    ghost done = { λ w shared d. HasWatched (S.spec shared.sequential.now)
        P.meaning shared.rows.now shared.board.now w d };

    fn work(&mut self, shared: &Watched<'s, S, P>) {
        let Some(monitor) = self.monitor.take() else {
            unreachable!()
        };
        let (monitor, wants_memory) = make_alone(monitor, shared, self.rounds);
        self.wants_memory = wants_memory;
        match self.monitor.replace(monitor) {
            None => {}
            Some(_) => unreachable!(),
        }
    }
}
