ghost use Rattle.std.specs.Prelude.{◌≡◌, ◌<◌, ◌≤◌, [], All, Some, None, IsSome, IfOk, vec_capacity};
ghost use Rattle.row_table.specs.Callers.{who_of, on_bench, IsCallerOf, IsBenchOf};
ghost use Rattle.test_objects.specs.Passes.{callers_in, caller_of_pass, IsPassOf, ArePassesOf, IsFresh};
ghost use Rattle.whole_runs.specs.Seated.{IsAt, IsNew, IsThere, IsNewAt, IsFor, IsUnused};

use book_base::{Cut, NoMemory, OpWord, Place, Record};
use drv_wrapper::ObjectPass;
use enforcer::{CallVerdict, Gathered, Outcome, Unjudged, call_and_see, enforce, judge_seen};
use frontier_check::{Guide, KeptOrder};
use kind_search::SearchedKind;
use row_table::{Bench, Caller, Rows, Steps};
use seq_objects::{DONE, Kind};
use std::alloc::Global;
use std::sync::ledger::{Blank, Ledger};
use std::thread::{Threads, join_mut};
use test_objects::{Entry, LogBox, LogPass, Machine, Plain};
use world_core::{Outside, Program};

const ENQUEUE_5: OpWord = 4294967301;

const DEQUEUE: OpWord = 8589934592;

/// How a call ended.
#[derive(Debug, Drop)]
pub enum End {
    /// The reply was delivered, with the order that explains it.
    Delivered(Vec<Place>),
    /// No order explains the published replies.
    Illegal,
    /// The judgement found no memory.
    Unjudged,
}

/// What one of two callers found of its call.
#[derive(Debug, Drop)]
pub struct CallFindings {
    pub end: End,
    /// Whether the caller may make a further call.
    pub live: bool,
    pub reply: u64,
    /// The counts of both callers in the view.
    pub view: (u64, u64),
    /// The counts of both callers in the seen cut.
    pub seen: (u64, u64),
}

/// How the calls of two callers are ordered.
#[derive(Clone, Copy, Debug, PartialEq, Eq)]
pub enum Turns {
    EnqueueFirst,
    DequeueFirst,
    /// Both callers call beside one another, in two threads.
    Beside,
    /// The first caller calls before the second. Each call is judged by its caller's kept order,
    /// and neither caller has one yet.
    AfterWhatStands,
}

impl CallFindings {
    /// Whether the reply was delivered and the caller may make further calls.
    pub fn is_delivered(&self) -> bool {
        self.live && matches!(self.end, End::Delivered(_))
    }

    /// Whether the judgement found no memory and the caller is halted.
    pub fn is_unjudged(&self) -> bool {
        !self.live && matches!(self.end, End::Unjudged)
    }
}

// The two counts of a cut of two callers; `u64::MAX` twice for a cut of another number of callers.
fn counts(cut: &Cut) -> (u64, u64) {
    if cut.n() != 2 {
        return (u64::MAX, u64::MAX);
    }
    (cut.get(0), cut.get(1))
}

// The findings of a call that was judged.
fn found_of(outcome: Outcome, live: bool) -> CallFindings {
    match outcome {
        Outcome::Delivered {
            reply,
            view,
            seen,
            order,
        } => CallFindings {
            end: End::Delivered(order),
            live,
            reply,
            view: counts(&view),
            seen: counts(&seen),
        },
        Outcome::Illegal {
            reply,
            view,
            seen,
            book: _,
        } => CallFindings {
            end: End::Illegal,
            live,
            reply,
            view: counts(&view),
            seen: counts(&seen),
        },
    }
}

// How a call ended that was judged by a kept order, where `standing` is the order that is kept after
// the judgement, if any.
fn end_after(alloc: Global, verdict: CallVerdict, standing: Option<KeptOrder>) -> End {
    match verdict {
        CallVerdict::Delivered => End::Delivered(order_in(alloc, standing)),
        CallVerdict::Illegal(_) => End::Illegal,
    }
}

// The places of a kept order; no places where none is kept.
fn order_in(alloc: Global, standing: Option<KeptOrder>) -> Vec<Place> {
    match standing {
        Some(KeptOrder { order, marks: _ }) => order,
        None => Vec::new(alloc),
    }
}

// The findings of a call that wasn't judged.
fn unjudged(live: bool, reply: u64, view: &Cut, seen: &Cut) -> CallFindings {
    CallFindings {
        end: End::Unjudged,
        live,
        reply,
        view: counts(view),
        seen: counts(seen),
    }
}

// A caller with its pass, the book and the guide that its judgements use, and its counter of steps.
// The caller is absent while it makes a call.
struct Seat<L: Ledger> {
    caller: Option<Caller>,
    pass: LogPass,
    gathered: Option<Gathered>,
    guide: Guide,
    steps: Steps<L>,
}

impl<L: Ledger> Seat<L> {
    // The caller of a seat, which has to have one, and its pass.
    fn leave(self) -> (Caller, LogPass)
        requires { IsSome self.caller }
        ensures { (self.caller ≡ Some result.0) × (result.1 ≡ self.pass) }
    {
        let Seat {
            caller,
            pass,
            gathered: _,
            guide: _,
            steps: _,
        } = self;
        let Some(caller) = caller else { unreachable!() };
        (caller, pass)
    }
}

// Makes the first call of a seat's caller, which checks itself against a queue. The caller leaves
// its seat for the call, and comes back.
fn call<M: Machine, L: Ledger>(
    alloc: Global,
    rows: &Rows,
    object: &LogBox<M>,
    seat: &mut Seat<L>,
    op: OpWord,
) -> CallFindings
    requires caller { IsNewAt ⟦<Outside as Program>⟧.meaning rows.now
        (caller_of_pass seat.old.pass) seat.old.caller }
    requires pass { IsPassOf M.reply_to M.has_seen object.now seat.old.pass
        × IsUnused seat.old.pass }
    requires gathered { seat.old.gathered ≡ None }
    ensures caller { IsThere ⟦<Outside as Program>⟧.meaning rows.now
        (caller_of_pass seat.old.pass) seat.new.caller }
    ensures pass { IsFor M.reply_to M.has_seen object.now
        (caller_of_pass seat.old.pass) seat.new.pass }
{
    let Some(caller) = seat.caller.take() else {
        unreachable!()
    };
    let (caller, found) = match enforce(
        alloc,
        rows,
        caller,
        op,
        &SearchedKind { kind: Kind::Queue },
        object,
        &mut seat.pass,
        &mut seat.gathered,
        &mut seat.guide,
        &mut seat.steps,
    ) {
        Ok((caller, outcome)) => {
            let live = caller.live();
            (caller, found_of(outcome, live))
        }
        Err(
            Unjudged {
                caller,
                reply,
                view,
                seen,
            },
        ) => {
            let live = caller.live();
            (caller, unjudged(live, reply, &view, &seen))
        }
    };
    match seat.caller.replace(caller) {
        None => found,
        Some(_) => unreachable!(),
    }
}

// Makes the first call of a seat's caller, which checks itself against a queue by the caller's kept
// order; there is none yet. The caller leaves its seat for the call, and comes back.
fn call_after<M: Machine, L: Ledger>(
    alloc: Global,
    rows: &Rows,
    object: &LogBox<M>,
    seat: &mut Seat<L>,
    op: OpWord,
) -> CallFindings
    requires caller { IsNewAt ⟦<Outside as Program>⟧.meaning rows.now
        (caller_of_pass seat.old.pass) seat.old.caller }
    requires pass { IsPassOf M.reply_to M.has_seen object.now seat.old.pass
        × IsUnused seat.old.pass }
    requires gathered { seat.old.gathered ≡ None }
    ensures caller { IsThere ⟦<Outside as Program>⟧.meaning rows.now
        (caller_of_pass seat.old.pass) seat.new.caller }
    ensures pass { IsFor M.reply_to M.has_seen object.now
        (caller_of_pass seat.old.pass) seat.new.pass }
{
    let Some(caller) = seat.caller.take() else {
        unreachable!()
    };
    let mut standing = None;
    let seen = call_and_see(caller, rows, op, object, &mut seat.pass, &mut seat.steps);
    let (Record { reply, view }, cut) = (seen.record(), seen.cut());
    let (caller, end) = match judge_seen(
        alloc,
        &SearchedKind { kind: Kind::Queue },
        rows,
        seen,
        &mut seat.gathered,
        &mut standing,
        &mut seat.steps,
    ) {
        Ok((caller, verdict)) => (caller, end_after(alloc, verdict, standing)),
        Err(seen) => (seen.stop(), End::Unjudged),
    };
    let found = CallFindings {
        end,
        live: caller.live(),
        reply,
        view: counts(&view),
        seen: counts(&cut),
    };
    match seat.caller.replace(caller) {
        None => found,
        Some(_) => unreachable!(),
    }
}

// Two callers call the log object, the first to enqueue 5 and the second to dequeue.
fn call_both<M: Machine + Sync, K: Ledger + Send, L: Ledger + Send, R: Threads>(
    rt: &R,
    alloc: Global,
    rows: &Rows,
    object: &LogBox<M>,
    a: &mut Seat<K>,
    b: &mut Seat<L>,
    turns: Turns,
) -> (CallFindings, CallFindings)
    requires callers { IsNewAt ⟦<Outside as Program>⟧.meaning rows.now 0 a.old.caller
        × IsNewAt ⟦<Outside as Program>⟧.meaning rows.now 1 b.old.caller }
    requires passes { IsFor M.reply_to M.has_seen object.now 0 a.old.pass
        × IsFor M.reply_to M.has_seen object.now 1 b.old.pass }
    requires unused { IsUnused a.old.pass × IsUnused b.old.pass }
    requires gathered { (a.old.gathered ≡ None) × (b.old.gathered ≡ None) }
    ensures callers { IsThere ⟦<Outside as Program>⟧.meaning rows.now 0 a.new.caller
        × IsThere ⟦<Outside as Program>⟧.meaning rows.now 1 b.new.caller }
    ensures passes { IsFor M.reply_to M.has_seen object.now 0 a.new.pass
        × IsFor M.reply_to M.has_seen object.now 1 b.new.pass }
{
    match turns {
        Turns::EnqueueFirst => {
            let first = call(alloc, rows, object, a, ENQUEUE_5);
            let second = call(alloc, rows, object, b, DEQUEUE);
            (first, second)
        }
        Turns::DequeueFirst => {
            let second = call(alloc, rows, object, b, DEQUEUE);
            let first = call(alloc, rows, object, a, ENQUEUE_5);
            (first, second)
        }
        Turns::AfterWhatStands => {
            let first = call_after(alloc, rows, object, a, ENQUEUE_5);
            let second = call_after(alloc, rows, object, b, DEQUEUE);
            (first, second)
        }
        Turns::Beside => join_mut(
            rt,
            &mut || call(alloc, rows, object, a, ENQUEUE_5),
            &mut || call(alloc, rows, object, b, DEQUEUE),
        ),
    }
}

// A table for two callers with four calls each, the bench that both callers have left, and the two
// callers.
fn open_rows(alloc: Global) -> Result<(Rows, Bench, Caller, Caller), NoMemory>
    ensures bench { IfOk result
        (λ r. IsBenchOf ⟦<Outside as Program>⟧.meaning r.0 r.1 × (r.0.callers ≡ 2)) }
    ensures gone { IfOk result (λ r. (on_bench r.1 0 ≡ None) × (on_bench r.1 1 ≡ None)) }
    ensures a { IfOk result (λ r. IsAt ⟦<Outside as Program>⟧.meaning r.0 0 r.2 × IsNew r.2) }
    ensures b { IfOk result (λ r. IsAt ⟦<Outside as Program>⟧.meaning r.0 1 r.3 × IsNew r.3) }
{
    let (rows, mut bench) = Rows::open(alloc, Outside, 2, 4)?;
    let a = rows.part(&mut bench, 0);
    let b = rows.part(&mut bench, 1);
    Ok((rows, bench, a, b))
}

// Puts both callers back on the bench, and closes the table.
fn close_rows(
    alloc: Global,
    rows: Rows,
    mut bench: Bench,
    a: Caller,
    b: Caller,
) -> Result<(), NoMemory>
    requires bench { IsBenchOf ⟦<Outside as Program>⟧.meaning rows bench × (rows.callers ≡ 2) }
    requires gone { (on_bench bench 0 ≡ None) × (on_bench bench 1 ≡ None) }
    requires a { IsAt ⟦<Outside as Program>⟧.meaning rows 0 a }
    requires b { IsAt ⟦<Outside as Program>⟧.meaning rows 1 b }
{
    rows.back(&mut bench, a);
    rows.back(&mut bench, b);
    rows.close(alloc, bench)?;
    Ok(())
}

// The passes of both callers of a log object, and the list that they were taken from.
fn take_passes<M: Machine>(
    object: &LogBox<M>,
    mut passes: Vec<LogPass>,
) -> (LogPass, LogPass, Vec<LogPass>)
    requires two { callers_in object.now ≡ 2 }
    requires passes { ArePassesOf M.reply_to M.has_seen object.now passes.items }
    requires fresh { All (IsFresh 4) passes.items }
    ensures a { IsFor M.reply_to M.has_seen object.now 0 result.0 × IsUnused result.0 }
    ensures b { IsFor M.reply_to M.has_seen object.now 1 result.1 × IsUnused result.1 }
    ensures rest { (result.2.items ≡ []) × (2 ≤ vec_capacity result.2) }
{
    let Some(b) = passes.pop() else {
        unreachable!()
    };
    let Some(a) = passes.pop() else {
        unreachable!()
    };
    (a, b, passes)
}

// Gives the passes of both callers of a log object back in order, and closes the object. The answer
// is its log.
fn close_box<M: Machine + Drop>(
    object: LogBox<M>,
    mut passes: Vec<LogPass>,
    a: LogPass,
    b: LogPass,
) -> Vec<Entry>
    requires two { callers_in object ≡ 2 }
    requires room { (passes.items ≡ []) × (2 ≤ vec_capacity passes) }
    requires a { IsFor M.reply_to M.has_seen object 0 a }
    requires b { IsFor M.reply_to M.has_seen object 1 b }
{
    passes.push(a).unwrap();
    passes.push(b).unwrap();
    object.close(passes)
}

/// The findings of both callers of a queue, how many calls each pass made, and the log.
pub type Calls = ((CallFindings, CallFindings), (u64, u64), Vec<Entry>);

/// Two callers of a queue on one log call it once each: the first enqueues 5, and the second
/// dequeues. Each call checks itself.
pub fn queue_calls<K: Ledger + Send, L: Ledger + Send, R: Threads>(
    rt: &R,
    alloc: Global,
    first: Blank,
    second: Blank,
    turns: Turns,
) -> Result<Calls, NoMemory>
    // The first blank has the name and all parts of the ledger `K`, at least one.
    requires first { (first.name ≡ K.name) × (first.parts ≡ K.parts) × (0 < first.parts) }
    // The second blank has the name and all parts of the ledger `L`, at least one.
    requires second { (second.name ≡ L.name) × (second.parts ≡ L.parts) × (0 < second.parts) }
{
    calls_on::<K, L, R>(rt, alloc, Kind::Queue, first, second, turns)
}

// Makes the calls of two callers of a queue on the log object of any kind, whose replies may be
// none that a queue gives.
pub(crate) fn calls_on<K: Ledger + Send, L: Ledger + Send, R: Threads>(
    rt: &R,
    alloc: Global,
    object: Kind,
    first: Blank,
    second: Blank,
    turns: Turns,
) -> Result<Calls, NoMemory>
    requires first { (first.name ≡ K.name) × (first.parts ≡ K.parts) × (0 < first.parts) }
    requires second { (second.name ≡ L.name) × (second.parts ≡ L.parts) × (0 < second.parts) }
{
    let machine = Plain { object };
    let (guide_a, guide_b) = (Guide::new(alloc)?, Guide::new(alloc)?);
    let (rows, bench, a, b) = open_rows(alloc)?;
    let (object, passes) = match LogBox::open(alloc, machine, 2, 4) {
        Ok(opened) => opened,
        Err(failed) => {
            close_rows(alloc, rows, bench, a, b)?;
            return Err(failed);
        }
    };
    let (pass_a, pass_b, passes) = take_passes(&object, passes);
    let mut a = Seat {
        caller: Some(a),
        pass: pass_a,
        gathered: None,
        guide: guide_a,
        steps: Steps::<K>::new(first),
    };
    let mut b = Seat {
        caller: Some(b),
        pass: pass_b,
        gathered: None,
        guide: guide_b,
        steps: Steps::<L>::new(second),
    };
    let found = call_both(rt, alloc, &rows, &object, &mut a, &mut b, turns);
    let made = (a.pass.made(), b.pass.made());
    let (a, pass_a) = a.leave();
    let (b, pass_b) = b.leave();
    let log = close_box(object, passes, pass_a, pass_b);
    close_rows(alloc, rows, bench, a, b)?;
    Ok((found, made, log))
}
