ghost use Rattle.std.specs.Prelude.{◌≡◌, ℕ, ◌<◌, ◌≤◌, ◌↔◌, List, length, replicate, slice_set, IfOk, IfSome, IfNone, IsTrue, IsFalse, Some};
ghost use Rattle.book_base.specs.declared.call.Record.{Record};
ghost use Rattle.book_base.specs.declared.TheConstants.{MAX_CALLERS, MAX_CALLS};
ghost use Rattle.book_base.specs.Book.{Page, IsCall, record_of};
ghost use Rattle.book_base.specs.Next.{next_call, HoldsAnswered};
ghost use Rattle.book_base.specs.Pruning.{IsLeast};
ghost use Rattle.legal_orders.specs.Standing.{word_of};
ghost use Rattle.search_hints.specs.Marks.{IsMarked, IsMarkedWithin, MarksAllNext};
ghost use Rattle.told_models.specs.Table.{Table, told_step, IsPromised};
ghost use Rattle.told_models.specs.Walking.{IsWalk, IsRightStep, IsRecorded, IsSpared, IsLeftOut, Serves, Enters, order_of};
ghost use Rattle.told_models.specs.Weighing.{number_marked, weight, weight_at, most_weight, IsLighter};

use crate::table::{ToldTable, Transition};
use book_base::{Book, Call, Cut, MAX_CALLERS, NoMemory, OpWord, Place};
use frontier_check::Memo;
use search_hints::{MarkedCallers, all_next, cut_of, first_view, has_one_open, least_open};
use std::alloc::Global;

/// A place that was put, the state before it, and the callers whose next calls were waiting there,
/// that of the place among them.
#[derive(Clone, Copy, Drop)]
pub struct Frame {
    pub place: Place,
    pub state: u64,
    pub waiting: MarkedCallers,
}

/// Where a search is: the frames that lead from the beginning to a cut and a state, the counts of
/// the cut, the callers whose next calls are still to be tried there, the dead ends that were found,
/// the turns of the callers' next calls, and how many promises these know.
#[derive(Drop)]
pub struct Walk {
    pub frames: Vec<Frame>,
    pub counts: Vec<u16>,
    pub state: u64,
    pub waiting: MarkedCallers,
    pub memo: Memo,
    pub one_open: bool,
    pub turns: [u64; MAX_CALLERS],
    pub promises: usize,
}

/// What one step of a search comes to.
#[derive(Drop)]
pub enum Step {
    /// This order is legal.
    Found(Vec<Place>),
    /// There is no legal order.
    NoneLeft,
    /// What this operation does at this state isn't told.
    Asks(u64, OpWord),
    /// The search takes another step.
    GoesOn,
}

impl Walk {
    /// The walk without frames. `None` comes where the book has no answered call, so that the empty
    /// order is legal.
    pub fn begin(alloc: Global, table: &ToldTable, book: &Book) -> Result<Option<Walk>, NoMemory>
        ensures walk { IfOk result (λ begun. IfSome begun (IsWalk table.now book.now)) }
        ensures none { IfOk result
            (λ begun. IfNone begun (HoldsAnswered book.now (replicate (length book.now) 0))) }
        ensures weight { IfOk result (λ begun. weight_at book.now begun ≤ most_weight book.now) }
    {
        let counts = vec![in alloc; 0; book.callers() as usize]?;
        let Some(first) = least_open(book, &counts) else {
            return Ok(None);
        };
        let waiting = next_callers(book, &counts, first);
        let memo = Memo::new(alloc, counts.len());
        let turns = turns_of(table, book, &counts);
        Ok(Some(Walk {
            frames: Vec::new(alloc),
            counts,
            state: table.init(),
            waiting,
            memo,
            one_open: has_one_open(book),
            turns,
            promises: table.number_of_promises(),
        }))
    }

    /// Sets the turns anew where more was promised.
    pub fn see_promises(&mut self, table: &ToldTable, book: &Book)
        requires walk { IsWalk table.now book.now self.old }
        ensures walk { IsWalk table.now book.now self.new }
        ensures weight { weight book.now self.new ≡ weight book.now self.old }
    {
        let promises = table.number_of_promises();
        if promises == self.promises {
            return;
        }
        self.turns = turns_of(table, book, &self.counts);
        self.promises = promises;
    }

    /// Makes one step: tries the next call of a waiting caller, or goes back where none waits.
    pub fn advance(
        &mut self,
        alloc: Global,
        table: &ToldTable,
        book: &Book,
    ) -> Result<Step, NoMemory>
        requires walk { IsWalk table.now book.now self.old }
        ensures walk { IfOk result (λ _. IsWalk table.now book.now self.new) }
        ensures step { IfOk result (IsRightStep table.now book.now) }
        ensures lighter { IfOk result (λ step. IsLighter book.now self.old step self.new) }
    {
        let Some(caller) = self.pick(table, book) else {
            self.memo.remember(alloc, &self.counts, &[self.state])?;
            return Ok(self.retreat(table, book));
        };
        let number = u64::from(self.counts[caller as usize]);
        let op = book.op(Call { caller, number });
        let Some(transition) = table.get(self.state, op) else {
            return Ok(Step::Asks(self.state, op));
        };
        if self.is_left_out(book, caller, transition) {
            self.waiting = self.waiting.without(caller);
            return Ok(Step::GoesOn);
        }
        self.waiting = self.to_try(table, book, caller, transition);
        let place = Place {
            caller,
            number,
            reply: transition.reply,
        };
        self.enter(alloc, table, book, place, transition.next)
    }

    // A waiting caller whose next call is to be tried: that with the least turn where it is 0, or
    // its step is told; else of those whose steps are told the one with the least turn, where there
    // is one. No clause says which one it is: that only decides how long a search takes.
    fn pick(&self, table: &ToldTable, book: &Book) -> Option<u32>
        requires { IsWalk table.now book.now self.now }
        ensures some { IfSome result (IsMarked self.now.waiting) }
        ensures none { IfNone result ((i : ℕ) → IsMarked self.now.waiting i → ⊥) }
    {
        let first = self.least_turn(book, self.waiting)?;
        if self.turns[first as usize] == 0 || self.is_told(table, book, first) {
            return Some(first);
        }
        let mut left = self.waiting.without(first);
        for _other in 1..book.callers() {
            let Some(caller) = self.least_turn(book, left) else {
                break;
            };
            if self.is_told(table, book, caller) {
                return Some(caller);
            }
            left = left.without(caller);
        }
        Some(first)
    }

    // The one with the least turn among some of the waiting callers.
    fn least_turn(&self, book: &Book, among: MarkedCallers) -> Option<u32>
        requires walk { (table : Table) × IsWalk table book.now self.now }
        requires waiting { IsMarkedWithin among self.now.waiting }
        ensures some { IfSome result (IsMarked among) }
        ensures none { IfNone result ((i : ℕ) → IsMarked among i → ⊥) }
    {
        let mut best = None;
        let mut least = u64::MAX;
        for caller in 0..book.callers() {
            if among.has(caller) {
                let turn = self.turns[caller as usize];
                if best.is_none() || turn < least {
                    best = Some(caller);
                    least = turn;
                }
            }
        }
        best
    }

    // Whether the step of a waiting caller's next call is told.
    fn is_told(&self, table: &ToldTable, book: &Book, caller: u32) -> bool
        requires walk { IsWalk table.now book.now self.now }
        requires waiting { IsMarked self.now.waiting caller }
    {
        let number = u64::from(self.counts[caller as usize]);
        table
            .get(self.state, book.op(Call { caller, number }))
            .is_some()
    }

    // Whether a waiting caller's next call, which makes this transition, needn't be tried.
    fn is_left_out(&self, book: &Book, caller: u32, transition: Transition) -> bool
        requires walk { (table : Table) × IsWalk table book.now self.now }
        requires waiting { IsMarked self.now.waiting caller }
        ensures left_out { IsTrue result → IsLeftOut book.now self.now caller transition }
        ensures recorded { IsFalse result
            → IsRecorded book.now (next_call self.now.counts.items caller) transition.reply }
    {
        let number = u64::from(self.counts[caller as usize]);
        let call = Call { caller, number };
        if !is_recorded(book, call, transition.reply) {
            return true;
        }
        self.one_open && self.is_spared(book, call, transition)
    }

    // The callers that are still to be tried where the next call of a waiting caller makes this
    // transition, with its recorded reply: this caller alone, where its call is promised to change
    // no state, since the call may be taken at once then.
    fn to_try(
        &self,
        table: &ToldTable,
        book: &Book,
        caller: u32,
        transition: Transition,
    ) -> MarkedCallers
        requires walk { IsWalk table.now book.now self.now }
        requires waiting { IsMarked self.now.waiting caller }
        requires told { told_step table.now self.now.state
            (word_of book.now (next_call self.now.counts.items caller)) ≡ Some transition }
        requires recorded { IsRecorded book.now (next_call self.now.counts.items caller)
            transition.reply }
        ensures walk { IsWalk table.now book.now (record self.now { waiting = result }) }
        ensures marked { IsMarked result caller }
        ensures fewer { number_marked result ≤ number_marked self.now.waiting }
    {
        let number = u64::from(self.counts[caller as usize]);
        if self.turns[caller as usize] == 0 && is_promised(table, book, Call { caller, number }) {
            MarkedCallers::only(caller)
        } else {
            self.waiting
        }
    }

    // Whether a next call, which makes this transition, may be spared in a book with one open.
    fn is_spared(&self, book: &Book, call: Call, transition: Transition) -> bool
        requires walk { (table : Table) × IsWalk table book.now self.now }
        requires call { IsCall book.now call }
        ensures { IsTrue result → IsSpared book.now self.now call transition }
    {
        if call.number >= book.answers(call.caller) && transition.next == self.state {
            return true;
        }
        for other in 0..book.callers() {
            if other != call.caller
                && self.waiting.has(other)
                && self.serves(book, other, call, transition.reply)
            {
                return true;
            }
        }
        false
    }

    // Whether the next call of the waiting caller `other` serves for a call, which gets this reply:
    // it has the operation of the call, and it is answered with the reply, and with a view within
    // that of the call where the call is answered; or neither is answered.
    fn serves(&self, book: &Book, other: u32, call: Call, reply: u64) -> bool
        requires wide { length self.now.counts.items ≡ length book.now }
        requires other { IsCall book.now (next_call self.now.counts.items other) }
        requires call { IsCall book.now call }
        ensures { IsTrue result
            → Serves book.now (next_call self.now.counts.items other) call reply }
    {
        let number = u64::from(self.counts[other as usize]);
        let server = Call {
            caller: other,
            number,
        };
        if book.op(server) != book.op(call) {
            return false;
        }
        let answered = call.number < book.answers(call.caller);
        if number >= book.answers(other) {
            return !answered;
        }
        let record = book.record(server);
        record.reply == reply && (!answered || record.view.within(book.view(call)))
    }

    // Puts a place, whose call makes a step to the state `next`, unless that leads to a remembered
    // dead end: then the caller waits no more.
    fn enter(
        &mut self,
        alloc: Global,
        table: &ToldTable,
        book: &Book,
        place: Place,
        next: u64,
    ) -> Result<Step, NoMemory>
        requires walk { IsWalk table.now book.now self.old }
        requires waiting { IsMarked self.old.waiting place.caller }
        requires enters { Enters table.now book.now self.old.counts.items self.old.state place next }
        ensures { IfOk result (λ step. IsWalk table.now book.now self.new
            × IsRightStep table.now book.now step × IsLighter book.now self.old step self.new) }
    {
        let before = self.waiting;
        set_count(&mut self.counts, place.caller, place.number + 1);
        let Some(first) = least_open(book, &self.counts) else {
            let mut order = places(alloc, &self.frames)?;
            order.push(place)?;
            set_count(&mut self.counts, place.caller, place.number);
            return Ok(Step::Found(order));
        };
        if self.memo.remembers(&self.counts, &[next]) {
            set_count(&mut self.counts, place.caller, place.number);
            self.waiting = before.without(place.caller);
            return Ok(Step::GoesOn);
        }
        let waiting = next_callers(book, &self.counts, first);
        self.frames.push(Frame {
            place,
            state: self.state,
            waiting: before,
        })?;
        self.state = next;
        self.waiting = waiting;
        self.turns[place.caller as usize] = turn_of(table, book, &self.counts, place.caller);
        Ok(Step::GoesOn)
    }

    // Goes back by one frame from a dead end; `NoneLeft` comes where the walk has no frame.
    fn retreat(&mut self, table: &ToldTable, book: &Book) -> Step
        requires walk { IsWalk table.now book.now self.old }
        requires none { (i : ℕ) → IsMarked self.old.waiting i → ⊥ }
        ensures { IsWalk table.now book.now self.new × IsRightStep table.now book.now result
            × IsLighter book.now self.old result self.new }
    {
        let Some(frame) = self.frames.pop() else {
            return Step::NoneLeft;
        };
        let Frame {
            place,
            state,
            waiting,
        } = frame;
        set_count(&mut self.counts, place.caller, place.number);
        self.state = state;
        self.waiting = waiting.without(place.caller);
        self.turns[place.caller as usize] = turn_of(table, book, &self.counts, place.caller);
        Step::GoesOn
    }
}

// Whether a call is unanswered, or `reply` is its recorded reply.
fn is_recorded(book: &Book, call: Call, reply: u64) -> bool
    requires { IsCall book.now call }
    ensures { IsTrue result ↔ IsRecorded book.now call reply }
{
    call.number >= book.answers(call.caller) || book.record(call).reply == reply
}

// Whether a call is answered, and promised to change no state at which it has its recorded reply.
fn is_promised(table: &ToldTable, book: &Book, call: Call) -> bool
    requires { IsCall book.now call }
    ensures { IsTrue result → (r : Record) × (record_of book.now call ≡ Some r)
        × IsPromised table.now (word_of book.now call) r.reply }
{
    call.number < book.answers(call.caller) && table.is_promised(book.op(call), book.reply(call))
}

// The turns of all callers' next calls after a cut.
fn turns_of(table: &ToldTable, book: &Book, counts: &[u16]) -> [u64; MAX_CALLERS]
    requires wide { length counts.now ≡ length book.now }
    requires few { length book.now ≤ MAX_CALLERS }
{
    let mut turns = [u64::MAX; MAX_CALLERS];
    for caller in 0..book.callers() {
        turns[caller as usize] = turn_of(table, book, counts, caller);
    }
    turns
}

// The turn of a caller's next call after a cut: of the calls that wait, the one with the least turn
// is tried first. It is 0 for a call that is promised to change no state, else how many calls an
// answered call's view counts, then that of unanswered calls, and last that of a caller without a
// next call.
fn turn_of(table: &ToldTable, book: &Book, counts: &[u16], caller: u32) -> u64
    requires wide { length counts.now ≡ length book.now }
    requires caller { caller < length book.now }
{
    let number = u64::from(counts[caller as usize]);
    if number >= book.calls(caller) {
        return u64::MAX;
    }
    let call = Call { caller, number };
    if is_promised(table, book, call) {
        0
    } else if number < book.answers(caller) {
        calls_in(book.view(call))
    } else {
        UNANSWERED
    }
}

// The turn of an unanswered call, later than that of all answered ones.
const UNANSWERED: u64 = 1 << 32;

// How many calls a view counts, of all callers together.
fn calls_in(view: &Cut) -> u64 {
    let mut calls = 0u64;
    for count in view.counts() {
        calls = calls.saturating_add(*count);
    }
    calls
}

// The callers whose next calls may come next after a cut that lacks an answered call.
fn next_callers(book: &Book, counts: &[u16], first: u32) -> MarkedCallers
    requires wide { length counts.now ≡ length book.now }
    requires few { length counts.now ≤ MAX_CALLERS }
    requires first { IsLeast book.now counts.now (length book.now) first }
    ensures { MarksAllNext book.now counts.now result }
{
    let cut = cut_of(counts);
    all_next(book, &cut, first_view(book, counts, first), first)
}

// The places of some frames, in their order.
fn places(alloc: Global, frames: &[Frame]) -> Result<Vec<Place>, NoMemory>
    ensures { IfOk result (λ order. order.items ≡ order_of frames.now) }
{
    let mut order = Vec::with_capacity(alloc, frames.len() + 1)?;
    for frame in frames {
        order.push(frame.place)?;
    }
    Ok(order)
}

// Makes `number` the count of a caller. All other counts stay.
fn set_count(counts: &mut Vec<u16>, caller: u32, number: u64)
    requires caller { caller < length counts.old.items }
    requires number { number ≤ MAX_CALLS }
    ensures { counts.new.items ≡ slice_set counts.old.items caller number }
{
    counts[caller as usize] = number as u16;
}
