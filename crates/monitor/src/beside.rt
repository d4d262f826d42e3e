ghost use Rattle.std.specs.Prelude.{◌≡◌, ◌≢◌, ℕ, true, is_some, None, Some};
ghost use Rattle.std.specs.List.{All, AllZip};
ghost use Rattle.world_core.specs.Local.{Local};
ghost use Rattle.row_table.specs.Callers.{on_bench, IsBenchOf, HoldsFree};
ghost use Rattle.monitor.specs.Watching.{IsReady, HasWatched};
ghost use Rattle.monitor.specs.Beside.{IsUnmoved, IsWatchOf, IsAtHand, ComesBack, IsBackFrom};

use crate::board::Board;
use crate::monitor::Monitor;
use crate::watch::{Watch, Watched};
use crate::witness::Witness;
use row_table::{Bench, Rows};
use search_hints::SearchHints;
use std::alloc::Global;
use std::thread::Threads;
use work_halves::{Work, work_with_two};
use world_core::Program;

/// What a monitor leaves after its rounds: its own witness, `placed`, which is true only where the
/// board took a copy of that witness, and whether the monitor lacked memory in a round.
#[derive(Debug, Drop)]
pub struct Left {
    pub own: Option<Witness>,
    pub placed: bool,
    pub wants_memory: bool,
}

// Takes a caller off its bench, and makes a watch of it that may make `rounds` rounds.
fn take_off<P: Program>(
    rows: &Rows<P>,
    bench: &mut Bench<P>,
    caller: u32,
    board: &Board,
    rounds: u64,
) -> Watch<P>
    requires bench { IsBenchOf P.meaning rows.now bench.old }
    requires free { HoldsFree bench.old caller }
    ensures bench { IsBenchOf P.meaning rows.now bench.new }
    ensures gone { on_bench bench.new caller ≡ None }
    ensures others { (i : ℕ) → i ≢ caller → IsUnmoved bench.old bench.new i }
    ensures watch { (l : Local) → on_bench bench.old caller ≡ Some l
        → IsWatchOf P.meaning rows.now board.now caller l rounds result }
{
    let caller = rows.part(bench, caller);
    Watch {
        monitor: Some(Monitor::new(caller, board)),
        rounds,
        wants_memory: false,
    }
}

// Brings the caller of a watch back to its bench, and answers what its monitor leaves.
fn bring_back<P: Program>(rows: &Rows<P>, bench: &mut Bench<P>, watch: Watch<P>) -> Left
    requires bench { IsBenchOf P.meaning rows.now bench.old }
    requires watch { IsAtHand P.meaning rows.now bench.old watch }
    ensures bench { IsBenchOf P.meaning rows.now bench.new }
    ensures back { ComesBack bench.old bench.new watch result }
    ensures placed { result.placed ≡ true → is_some result.own ≡ true }
{
    let Watch {
        monitor,
        rounds: _,
        wants_memory,
    } = watch;
    let (caller, own, placed) = monitor.unwrap().into_parts();
    rows.back(bench, caller);
    Left {
        own,
        placed,
        wants_memory,
    }
}

// Lets two watches make their rounds while the workers do their work, all side by side.
fn work_beside<
    R: Threads + Sync,
    C: Sync,
    W: Work<C>,
    P: Program + Send + Sync,
    S: SearchHints + Sync,
>(
    rt: &R,
    shared: &C,
    all: &mut [W],
    watched: &Watched<S, P>,
    mut first: Watch<P>,
    mut second: Watch<P>,
) -> (Watch<P>, Watch<P>)
    requires ready { All (λ w. W.ready w shared.now) all.old }
    requires first { IsReady P.meaning watched.now.rows.now watched.now.board.now first }
    requires second { IsReady P.meaning watched.now.rows.now watched.now.board.now second }
    ensures done { AllZip (λ w d. W.done w shared.now d) all.old all.new }
    ensures first { HasWatched (S.spec watched.now.sequential.now) P.meaning watched.now.rows.now
        watched.now.board.now first result.0 }
    ensures second { HasWatched (S.spec watched.now.sequential.now) P.meaning watched.now.rows.now
        watched.now.board.now second result.1 }
{
    work_with_two(rt, shared, all, watched, &mut first, &mut second);
    (first, second)
}

/// Lets callers `one` and `other` of a bench be monitors while the workers do their work, all side
/// by side.
///
/// When it returns, all workers are done, and both callers are back on the bench.
pub fn watch_beside<
    R: Threads + Sync,
    C: Sync,
    W: Work<C>,
    P: Program + Send + Sync,
    S: SearchHints + Sync,
>(
    rt: &R,
    alloc: Global,
    rows: &Rows<P>,
    bench: &mut Bench<P>,
    sequential: &S,
    shared: &C,
    all: &mut [W],
    one: u32,
    other: u32,
    rounds: u64,
) -> (Left, Left)
    // The bench is a bench of `rows`.
    requires bench { IsBenchOf P.meaning rows.now bench.old }
    // Each worker is ready to work with `shared`.
    requires ready { All (λ w. W.ready w shared.now) all.old }
    // `one` and `other` are two different callers.
    requires apart { one ≢ other }
    // The bench holds both callers, free for their next calls.
    requires free { HoldsFree bench.old one × HoldsFree bench.old other }
    // The bench is still a bench of `rows`.
    ensures bench { IsBenchOf P.meaning rows.now bench.new }
    // Each worker has done its work.
    ensures done { AllZip (λ w d. W.done w shared.now d) all.old all.new }
    // The bench has the local and the stance of each caller but `one` and `other` as before.
    ensures others { (i : ℕ) → i ≢ one → i ≢ other → IsUnmoved bench.old bench.new i }
    // Caller `one` is back on the bench, live and idle, with its progress as before. It made
    // `rounds` legal rounds, or at most `rounds` of which the last one alone is illegal. Or it
    // lacked memory after legal rounds, in a further one, and has no own witness.
    ensures one { (l : Local) → on_bench bench.old one ≡ Some l
        → IsBackFrom (S.spec sequential.now) rows.now.callers bench.new one l rounds result.0 }
    // Caller `other` is back on the bench, live and idle, with its progress as before. It made
    // `rounds` legal rounds, or at most `rounds` of which the last one alone is illegal. Or it
    // lacked memory after legal rounds, in a further one, and has no own witness.
    ensures other { (l : Local) → on_bench bench.old other ≡ Some l
        → IsBackFrom (S.spec sequential.now) rows.now.callers bench.new other l rounds result.1 }
    // Where a monitor left `placed` true, it left an own witness.
    ensures placed { (result.0.placed ≡ true → is_some result.0.own ≡ true)
        × (result.1.placed ≡ true → is_some result.1.own ≡ true) }
{
    let board = Board::new(alloc);
    let first = take_off(rows, bench, one, &board, rounds);
    let second = take_off(rows, bench, other, &board, rounds);
    let watched = Watched {
        alloc,
        rows,
        board: &board,
        sequential,
    };
    let (first, second) = work_beside(rt, shared, all, &watched, first, second);
    let one = bring_back(rows, bench, first);
    let other = bring_back(rows, bench, second);
    (one, other)
}
