ghost use Rattle.std.specs.Prelude.{◌≡◌, ◌<◌};
ghost use Rattle.row_table.specs.Callers.{who_of};
ghost use Rattle.monitor.specs.Monitors.{caller_of, IsOn, IsResting, IsLater};
ghost use Rattle.monitor.specs.Watching.{IsFresh};

use crate::lossy_queue::{DEQUEUE, LossyPass, call, lose_an_item};
use crate::table::{close_rows, open_rows};
use book_base::NoMemory;
use kind_search::SearchedKind;
use monitor::{Board, Monitor, Round, Witness};
use row_table::{Caller, Rows, Steps};
use seq_objects::Kind;
use std::alloc::Global;
use std::marker::Brand;
use std::sync::ledger::{Blank, Ledger};
use std::test::Fail;
use std::thread::{Threads, join_mut};
use world_core::{Outside, Program};

// Makes one round of a monitor. The answer is whether the round was illegal, or `None` where memory
// was lacking.
fn look<L: Ledger>(
    alloc: Global,
    rows: &Rows,
    board: &Board,
    monitor: &mut Monitor,
    steps: &mut Steps<L>,
) -> Option<bool>
    requires { IsFresh ⟦<Outside as Program>⟧.meaning rows.now board.now monitor.old }
    ensures { IsLater ⟦<Outside as Program>⟧.meaning rows.now board.now monitor.old monitor.new }
{
    match monitor.round(
        alloc,
        &SearchedKind { kind: Kind::Queue },
        rows,
        board,
        steps,
    ) {
        Ok(Round::Legal(_)) => Some(false),
        Ok(Round::Illegal(_)) => Some(true),
        Err(NoMemory) => None,
    }
}

// Makes one round of each of two monitors, side by side.
fn look_beside<K: Ledger + Send, L: Ledger + Send, R: Threads>(
    rt: &R,
    alloc: Global,
    rows: &Rows,
    board: &Board,
    one: &mut Monitor,
    other: &mut Monitor,
    steps: &mut Steps<K>,
    more_steps: &mut Steps<L>,
) -> (Option<bool>, Option<bool>)
    requires one { IsFresh ⟦<Outside as Program>⟧.meaning rows.now board.now one.old }
    requires other { IsFresh ⟦<Outside as Program>⟧.meaning rows.now board.now other.old }
    ensures one { IsLater ⟦<Outside as Program>⟧.meaning rows.now board.now one.old one.new }
    ensures other { IsLater ⟦<Outside as Program>⟧.meaning rows.now board.now other.old other.new }
{
    join_mut(
        rt,
        &mut || look(alloc, rows, board, one, steps),
        &mut || look(alloc, rows, board, other, more_steps),
    )
}

// When two monitors make their rounds.
#[derive(Clone, Copy)]
enum Turns {
    // Two monitors make their rounds one after the other, and between them caller 0 makes one more
    // call, where it has one left.
    CallBetween,
    // Two monitors make their rounds in two threads.
    Beside,
}

// Makes one round of each of two monitors. The answer is whether each round was illegal, or `None`
// for a round where memory was lacking.
fn make_rounds<K: Ledger + Send, L: Ledger + Send, R: Threads>(
    rt: &R,
    alloc: Global,
    rows: &Rows,
    board: &Board,
    caller: Caller,
    pass: &mut LossyPass,
    one: &mut Monitor,
    other: &mut Monitor,
    steps: &mut Steps<K>,
    more_steps: &mut Steps<L>,
    turns: Turns,
) -> (Caller, Option<bool>, Option<bool>)
    requires caller { IsResting ⟦<Outside as Program>⟧.meaning rows.now caller
        × (who_of caller ≡ 0) }
    requires pass { pass.old.caller ≡ 0 }
    requires one { IsFresh ⟦<Outside as Program>⟧.meaning rows.now board.now one.old }
    requires other { IsFresh ⟦<Outside as Program>⟧.meaning rows.now board.now other.old }
    ensures caller { IsResting ⟦<Outside as Program>⟧.meaning rows.now result.0
        × (who_of result.0 ≡ 0) }
    ensures one { IsLater ⟦<Outside as Program>⟧.meaning rows.now board.now one.old one.new }
    ensures other { IsLater ⟦<Outside as Program>⟧.meaning rows.now board.now other.old other.new }
{
    match turns {
        Turns::CallBetween => {
            let first = look(alloc, rows, board, one, steps);
            let caller = call(rows, caller, DEQUEUE, pass, steps);
            let second = look(alloc, rows, board, other, more_steps);
            (caller, first, second)
        }
        Turns::Beside => {
            let (first, second) = look_beside(
                rt, alloc, rows, board, one, other, steps, more_steps,
            );
            (caller, first, second)
        }
    }
}

/// What is shown of a witness: the counts of its cut, and how many calls and records of caller 0
/// its book has.
pub type Shown = Option<(u64, u64, u64, u64, u64)>;

/// The counts of a witness's cut, and how many calls and records of caller 0 its book has; `None`
/// where there is no witness, or not one of three callers.
pub fn shown(witness: Option<&Witness>) -> Shown {
    let Some(witness) = witness else {
        return None;
    };
    if witness.cut.n() != 3 || witness.book.callers() != 3 {
        return None;
    }
    let (cut, book) = (&witness.cut, &witness.book);
    Some((
        cut.get(0),
        cut.get(1),
        cut.get(2),
        book.calls(0),
        book.answers(0),
    ))
}

// What two monitors found: of each, whether its round was illegal, whether the board took its
// witness, its own witness, and the one that it knows to be on the board.
#[derive(Debug, Drop)]
struct MonitorFindings {
    illegal: (Option<bool>, Option<bool>),
    placed: (bool, bool),
    own: (Shown, Shown),
    known: (Shown, Shown),
}

// What two monitors of one board found, where `illegal` says whether their rounds were illegal.
fn knowledge(
    board: &Board,
    one: &mut Monitor,
    other: &mut Monitor,
    illegal: (Option<bool>, Option<bool>),
) -> MonitorFindings
    requires on { IsOn board.now one.old × IsOn board.now other.old }
    ensures callers { (caller_of one.new ≡ caller_of one.old)
        × (caller_of other.new ≡ caller_of other.old) }
{
    let placed = (one.placed(), other.placed());
    let own = (shown(one.own()), shown(other.own()));
    let known = (shown(one.known(board)), shown(other.known(board)));
    one.agree(other);
    MonitorFindings {
        illegal,
        placed,
        own,
        known,
    }
}

// Caller 0 of a lossy queue makes its first calls, at most four, and then callers 1 and 2 make a
// round each as monitors.
fn watch_lossy_queue<K: Ledger + Send, L: Ledger + Send, R: Threads>(
    rt: &R,
    alloc: Global,
    first: Blank,
    second: Blank,
    calls: u64,
    turns: Turns,
) -> Result<MonitorFindings, NoMemory>
    requires first { (first.name ≡ K.name) × (first.parts ≡ K.parts) × (0 < first.parts) }
    requires second { (second.name ≡ L.name) × (second.parts ≡ L.parts) × (0 < second.parts) }
{
    let (rows, bench, a, b, c) = open_rows(alloc)?;
    let board = Board::new(alloc);
    let mut pass = LossyPass {
        caller: 0,
        made: 0,
        cap: calls,
    };
    let mut steps = Steps::<K>::new(first);
    let mut more_steps = Steps::<L>::new(second);
    let mut one = Monitor::new(b, &board);
    let mut other = Monitor::new(c, &board);
    let a = lose_an_item(&rows, a, &mut pass, &mut steps);
    let (a, first, second) = make_rounds(
        rt,
        alloc,
        &rows,
        &board,
        a,
        &mut pass,
        &mut one,
        &mut other,
        &mut steps,
        &mut more_steps,
        turns,
    );
    let found = knowledge(&board, &mut one, &mut other, (first, second));
    close_rows(alloc, rows, bench, a, one.leave(), other.leave())?;
    Ok(found)
}

// The findings of the monitors of callers 1 and 2 of a lossy queue, each of which has a counter of
// its own for its steps.
fn findings<R: Threads>(
    rt: &R,
    alloc: Global,
    calls: u64,
    turns: Turns,
) -> Result<MonitorFindings, NoMemory> {
    watch_lossy_queue::<Brand, Brand, R>(rt, alloc, Blank::new(1), Blank::new(1), calls, turns)
}

#[test]
fn the_second_monitor_knows_the_witness_of_the_first(rt: HostRuntime) -> Result<(), Fail> {
    let found = findings(&rt, rt.alloc(), 5, Turns::CallBetween)?;
    let witness = Some((4, 0, 0, 4, 4));
    assert_eq!(rt; found.illegal, (Some(true), Some(true)));
    assert_eq!(rt; found.placed, (true, false));
    assert_eq!(rt; found.own, (witness, Some((5, 0, 0, 5, 5))));
    assert_eq!(rt; found.known, (witness, witness));
    Ok(())
}

// Caller 0 has no fifth call, so both monitors see its same four calls.
#[test]
fn of_two_monitors_in_turn_the_first_is_placed(rt: HostRuntime) -> Result<(), Fail> {
    let found = findings(&rt, rt.alloc(), 4, Turns::CallBetween)?;
    let witness = Some((4, 0, 0, 4, 4));
    assert_eq!(rt; found.illegal, (Some(true), Some(true)));
    assert_eq!(rt; found.placed, (true, false));
    assert_eq!(rt; found.own, (witness, witness));
    assert_eq!(rt; found.known, (witness, witness));
    Ok(())
}

#[test]
fn one_of_two_monitors_side_by_side_is_placed(rt: HostRuntime) -> Result<(), Fail> {
    let found = findings(&rt, rt.alloc(), 4, Turns::Beside)?;
    let witness = Some((4, 0, 0, 4, 4));
    assert_eq!(rt; found.illegal, (Some(true), Some(true)));
    assert!(rt; found.placed.0 != found.placed.1);
    assert_eq!(rt; found.own, (witness, witness));
    assert_eq!(rt; found.known, (witness, witness));
    Ok(())
}

// Caller 0's first three calls have a legal order: that the item is lost shows only in the fourth.
#[test]
fn legal_rounds_have_no_witness(rt: HostRuntime) -> Result<(), Fail> {
    let found = findings(&rt, rt.alloc(), 3, Turns::CallBetween)?;
    assert_eq!(rt; found.illegal, (Some(false), Some(false)));
    assert_eq!(rt; found.placed, (false, false));
    assert_eq!(rt; found.own, (None, None));
    assert_eq!(rt; found.known, (None, None));
    Ok(())
}
