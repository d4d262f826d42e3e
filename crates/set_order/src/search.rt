ghost use Rattle.std.specs.Prelude.{◌≡◌, ℕ, ◌+◌, ◌<◌, ◌≤◌, ◌↔◌, ◌^◌, length, IfOk, IfSome, IfNone, IsTrue, Some};
ghost use Rattle.std.specs.List.{AllByRecursion};
ghost use Rattle.book_base.specs.declared.TheConstants.{MAX_CALLERS};
ghost use Rattle.book_base.specs.Book.{IsValid, IsSmall, IsCall, record_of};
ghost use Rattle.book_base.specs.declared.call.Record.{Record};
ghost use Rattle.book_base.specs.Next.{next_call, HoldsAnswered, MayComeNext};
ghost use Rattle.set_order.specs.SetOrder.{callers_of, IsLegalSetOrder, HasLegalSetOrder};
ghost use Rattle.set_order.specs.Search.{IsBookCapacity, raised_by, picked, MayStandTogether, AreCandidates, CannotStand, IsDeadEnd, IsWalk, IsRightOutcome, next_operations, ArePlaced, HasWrongReply, weigh, weight};

use crate::place_set::PlaceSet;
use crate::set_object::SetObject;
use crate::walk::{MOST_CALLS, SetFrame, SetWalk, StepOutcome, greatest, part_of, raised, sets};
use book_base::{Book, Call, MAX_CALLERS, NoMemory, OpWord, Place, State};
use frontier_check::{Memo, load};
use std::alloc::Global;
use std::mem;

/// A search for a legal set order of a book of an object that serves sets.
pub struct SetSearch<'a, O> {
    pub alloc: Global,
    pub object: &'a O,
    pub book: &'a Book,
}

impl<O> Drop for SetSearch<'_, O> {
    fn drop(self) {
        let SetSearch {
            alloc: _,
            object: _,
            book: _,
        } = self;
    }
}

impl<O: SetObject> SetSearch<'_, O> {
    /// Finds the sets of a legal set order, if there is one.
    pub fn run(&self) -> Result<Option<Vec<PlaceSet>>, NoMemory>
        ensures found { IfOk result
            (λ found. IfSome found (λ order. IsLegalSetOrder (O.init self.now.object.now)
            (O.served self.now.object.now) self.now.book.now order.items)) }
        ensures none { IfOk result (λ found. IfNone found (HasLegalSetOrder
            (O.init self.now.object.now) (O.served self.now.object.now) self.now.book.now → ⊥)) }
    {
        let callers = self.book.callers() as usize;
        let counts = vec![in self.alloc; 0; callers]?;
        if self.holds_answered(&counts) {
            return Ok(Some(Vec::new(self.alloc)));
        }
        let mut here = self.empty_state()?;
        let mut spare = self.empty_state()?;
        let mut replies = State::with_room(self.alloc, MAX_CALLERS as u64)?;
        self.object.reset(&mut here);
        let candidates = self.candidates(&counts)?;
        let left = greatest(&candidates);
        let mut walk = SetWalk {
            frames: Vec::new(self.alloc),
            counts,
            here,
            callers: candidates,
            left,
            memo: Memo::new(self.alloc, callers),
        };
        self.go_on(&mut walk, &mut spare, &mut replies)
    }

    // An empty state with capacity for each list that the object reaches in a book.
    fn empty_state(&self) -> Result<State, NoMemory>
        ensures { IfOk result (λ state. IsBookCapacity (O.init self.now.object.now)
            (O.served self.now.object.now) state.room) }
    {
        State::with_room(self.alloc, self.object.capacity(MOST_CALLS))
    }

    // Continues a walk until it has found a legal set order, or all is tried.
    fn go_on(
        &self,
        walk: &mut SetWalk,
        spare: &mut State,
        replies: &mut State,
    ) -> Result<Option<Vec<PlaceSet>>, NoMemory>
        requires valid { IsValid self.now.book.now }
        requires small { IsSmall self.now.book.now }
        requires walk { IsWalk (O.init self.now.object.now)
            (O.served self.now.object.now) self.now.book.now walk.old }
        requires spare { IsBookCapacity (O.init self.now.object.now)
            (O.served self.now.object.now) spare.old.room }
        requires replies { replies.old.room ≡ MAX_CALLERS }
        ensures found { IfOk result
            (λ found. IfSome found (λ order. IsLegalSetOrder (O.init self.now.object.now)
            (O.served self.now.object.now) self.now.book.now order.items)) }
        ensures none { IfOk result (λ found. IfNone found (HasLegalSetOrder
            (O.init self.now.object.now) (O.served self.now.object.now) self.now.book.now → ⊥)) }
    {
        'steps: loop {
            match self.advance(walk, spare, replies)? {
                StepOutcome::Found => return Ok(Some(sets(self.alloc, &walk.frames)?)),
                StepOutcome::NoneLeft => return Ok(None),
                StepOutcome::GoesOn => {}
            }
        }
    }

    // Tries the set of the next calls of the callers that the walk's number `left` picks; where
    // `left` is 0, remembers the walk's cut and list as a dead end, and goes back by one frame.
    fn advance(
        &self,
        walk: &mut SetWalk,
        spare: &mut State,
        replies: &mut State,
    ) -> Result<StepOutcome, NoMemory>
        requires valid { IsValid self.now.book.now }
        requires small { IsSmall self.now.book.now }
        requires walk { IsWalk (O.init self.now.object.now)
            (O.served self.now.object.now) self.now.book.now walk.old }
        requires spare { IsBookCapacity (O.init self.now.object.now)
            (O.served self.now.object.now) spare.old.room }
        requires replies { replies.old.room ≡ MAX_CALLERS }
        ensures spare { spare.new.room ≡ spare.old.room }
        ensures replies { replies.new.room ≡ MAX_CALLERS }
        ensures outcome { IfOk result (IsRightOutcome (O.init self.now.object.now)
            (O.served self.now.object.now) self.now.book.now (weight walk.old) walk.new) }
    {
        if walk.left == 0 {
            walk.memo
                .remember(self.alloc, &walk.counts, walk.here.words())?;
            return Ok(self.retreat(walk));
        }
        match self.next_set(walk, spare, replies)? {
            None => {
                walk.left -= 1;
                Ok(StepOutcome::GoesOn)
            }
            Some(set) => self.enter(walk, spare, set),
        }
    }

    // The set of the next calls of the callers that the walk's number `left` picks, where this set
    // may come next. Where it may, the spare state has the list after the set.
    fn next_set(
        &self,
        walk: &SetWalk,
        spare: &mut State,
        replies: &mut State,
    ) -> Result<Option<PlaceSet>, NoMemory>
        requires small { IsSmall self.now.book.now }
        requires walk { IsWalk (O.init self.now.object.now)
            (O.served self.now.object.now) self.now.book.now walk.now }
        requires left { 1 ≤ walk.now.left }
        requires spare { IsBookCapacity (O.init self.now.object.now)
            (O.served self.now.object.now) spare.old.room }
        requires replies { replies.old.room ≡ MAX_CALLERS }
        ensures spare { spare.new.room ≡ spare.old.room }
        ensures replies { replies.new.room ≡ MAX_CALLERS }
        ensures callers { IfOk result (λ found.
            IfSome found (λ set. callers_of set ≡ picked walk.now.left walk.now.callers.items)) }
        ensures some { IfOk result (λ found. IfSome found (λ set.
            MayStandTogether (O.served self.now.object.now) self.now.book.now walk.now.counts.items
            walk.now.here.words set spare.new.words)) }
        ensures none { IfOk result
            (λ found. IfNone found (CannotStand (O.served self.now.object.now) self.now.book.now
            walk.now.counts.items walk.now.here.words
            (picked walk.now.left walk.now.callers.items))) }
    {
        let part = part_of(self.alloc, &walk.callers, walk.left)?;
        let operations = self.operations(&walk.counts, &part)?;
        spare.copy_from(&walk.here);
        if !self.object.serve(spare, &operations, replies) {
            return Ok(None);
        }
        self.places(&walk.counts, &part, replies)
    }

    // The operations of some callers' next calls after the cut with the counts `counts`.
    fn operations(&self, counts: &[u16], callers: &[u32]) -> Result<Vec<OpWord>, NoMemory>
        requires inside { AllByRecursion (λ i. i < length counts.now) callers.now }
        requires calls { AllByRecursion (λ i. IsCall self.now.book.now (next_call counts.now i))
            callers.now }
        ensures { IfOk result (λ operations.
            operations.items ≡ next_operations self.now.book.now counts.now callers.now) }
    {
        let mut operations = Vec::with_capacity(self.alloc, callers.len())?;
        for caller in callers {
            let number = u64::from(counts[*caller as usize]);
            operations.push(
                self.book.op(Call {
                    caller: *caller,
                    number,
                }),
            )?;
        }
        Ok(operations)
    }

    // The set of some callers' next calls with the replies `replies`, unless one of these differs
    // from the recorded reply of its call.
    fn places(
        &self,
        counts: &[u16],
        callers: &[u32],
        replies: &State,
    ) -> Result<Option<PlaceSet>, NoMemory>
        requires inside { AllByRecursion (λ i. i < length counts.now) callers.now }
        requires calls { AllByRecursion (λ i. IsCall self.now.book.now (next_call counts.now i))
            callers.now }
        requires replies { length replies.now.words ≡ length callers.now }
        ensures some { IfOk result (λ found.
            IfSome found (ArePlaced self.now.book.now counts.now callers.now replies.now.words)) }
        ensures none { IfOk result (λ found. IfNone found
            (HasWrongReply self.now.book.now counts.now callers.now replies.now.words)) }
    {
        let mut places = Vec::with_capacity(self.alloc, callers.len())?;
        for (at, caller) in callers.iter().enumerate() {
            let number = u64::from(counts[*caller as usize]);
            let reply = replies.get(at as u64);
            let call = Call {
                caller: *caller,
                number,
            };
            if !is_recorded(self.book, call, reply) {
                return Ok(None);
            }
            places.push(Place {
                caller: *caller,
                number,
                reply,
            })?;
        }
        Ok(Some(PlaceSet::new(places)))
    }

    // Takes a set as the next one, unless that leads to a dead end: a remembered one, or one where
    // an answered call can't get its recorded reply any more. The spare state has the list after
    // the set.
    fn enter(
        &self,
        walk: &mut SetWalk,
        spare: &State,
        set: PlaceSet,
    ) -> Result<StepOutcome, NoMemory>
        requires valid { IsValid self.now.book.now }
        requires small { IsSmall self.now.book.now }
        requires walk { IsWalk (O.init self.now.object.now)
            (O.served self.now.object.now) self.now.book.now walk.old }
        requires left { 1 ≤ walk.old.left }
        requires callers { callers_of set ≡ picked walk.old.left walk.old.callers.items }
        requires stands { MayStandTogether (O.served self.now.object.now) self.now.book.now
            walk.old.counts.items walk.old.here.words set spare.now.words }
        ensures outcome { IfOk result (IsRightOutcome (O.init self.now.object.now)
            (O.served self.now.object.now) self.now.book.now (weight walk.old) walk.new) }
    {
        let counts = raised(self.alloc, &walk.counts, set.places())?;
        if walk.memo.remembers(&counts, spare.words()) {
            walk.left -= 1;
            return Ok(StepOutcome::GoesOn);
        }
        if self.is_lost(&counts, spare) {
            walk.left -= 1;
            return Ok(StepOutcome::GoesOn);
        }
        self.descend(walk, spare, set, counts)
    }

    // Takes a set as the next one, with the counts and the list after it.
    fn descend(
        &self,
        walk: &mut SetWalk,
        spare: &State,
        set: PlaceSet,
        counts: Vec<u16>,
    ) -> Result<StepOutcome, NoMemory>
        requires valid { IsValid self.now.book.now }
        requires small { IsSmall self.now.book.now }
        requires walk { IsWalk (O.init self.now.object.now)
            (O.served self.now.object.now) self.now.book.now walk.old }
        requires left { 1 ≤ walk.old.left }
        requires callers { callers_of set ≡ picked walk.old.left walk.old.callers.items }
        requires stands { MayStandTogether (O.served self.now.object.now) self.now.book.now
            walk.old.counts.items walk.old.here.words set spare.now.words }
        requires counts { counts.items ≡ raised_by walk.old.counts.items set }
        ensures outcome { IfOk result (IsRightOutcome (O.init self.now.object.now)
            (O.served self.now.object.now) self.now.book.now (weight walk.old) walk.new) }
    {
        let ended = self.holds_answered(&counts);
        let callers = self.candidates(&counts)?;
        let words = Vec::from_slice(self.alloc, walk.here.words())?;
        let left = mem::replace(&mut walk.left, greatest(&callers)) - 1;
        let frame = SetFrame {
            counts: mem::replace(&mut walk.counts, counts),
            words,
            set,
            callers: mem::replace(&mut walk.callers, callers),
            left,
        };
        walk.here.copy_from(spare);
        walk.frames.push(frame)?;
        if ended {
            Ok(StepOutcome::Found)
        } else {
            Ok(StepOutcome::GoesOn)
        }
    }

    // Goes back by one frame from a dead end. `NoneLeft` comes where the walk has no frame.
    fn retreat(&self, walk: &mut SetWalk) -> StepOutcome
        requires small { IsSmall self.now.book.now }
        requires walk { IsWalk (O.init self.now.object.now)
            (O.served self.now.object.now) self.now.book.now walk.old }
        requires left { walk.old.left ≡ 0 }
        ensures { IsRightOutcome (O.init self.now.object.now)
            (O.served self.now.object.now) self.now.book.now (weight walk.old) walk.new result }
    {
        let Some(frame) = walk.frames.pop() else {
            return StepOutcome::NoneLeft;
        };
        let SetFrame {
            counts,
            words,
            set: _,
            callers,
            left,
        } = frame;
        walk.counts = counts;
        load(&mut walk.here, &words);
        walk.callers = callers;
        walk.left = left;
        StepOutcome::GoesOn
    }

    // Whether the cut with the counts `counts` holds all answered calls.
    fn holds_answered(&self, counts: &[u16]) -> bool
        requires { length counts.now ≡ length self.now.book.now }
        ensures { IsTrue result ↔ HoldsAnswered self.now.book.now counts.now }
    {
        for caller in 0..self.book.callers() {
            if u64::from(counts[caller as usize]) < self.book.answers(caller) {
                return false;
            }
        }
        true
    }

    // The callers whose next calls may come next after the cut with the counts `counts`.
    fn candidates(&self, counts: &[u16]) -> Result<Vec<u32>, NoMemory>
        requires { length counts.now ≡ length self.now.book.now }
        ensures candidates { IfOk result
            (λ callers. AreCandidates self.now.book.now counts.now callers.items) }
        ensures few { IfOk result (λ callers. length callers.items ≤ length self.now.book.now) }
    {
        let mut candidates = Vec::new(self.alloc);
        for caller in 0..self.book.callers() {
            if self.may_come(counts, caller) {
                candidates.push(caller)?;
            }
        }
        Ok(candidates)
    }

    // Whether a caller's next call may come next: it is a call of the book, and no call outside the
    // cut precedes it.
    fn may_come(&self, counts: &[u16], caller: u32) -> bool
        requires wide { length counts.now ≡ length self.now.book.now }
        requires caller { caller < length counts.now }
        ensures { IsTrue result
            ↔ MayComeNext self.now.book.now counts.now (next_call counts.now caller) }
    {
        let number = u64::from(counts[caller as usize]);
        if number >= self.book.calls(caller) {
            return false;
        }
        let call = Call { caller, number };
        for other in 0..self.book.callers() {
            let first = Call {
                caller: other,
                number: u64::from(counts[other as usize]),
            };
            if first.number < self.book.answers(other) && self.book.precedes(first, call) {
                return false;
            }
        }
        true
    }

    // Whether an answered call outside the cut can't get its recorded reply any more. Only the
    // callers' next calls are looked at.
    fn is_lost(&self, counts: &[u16], here: &State) -> bool
        requires { length counts.now ≡ length self.now.book.now }
        ensures { IsTrue result
            → IsDeadEnd (O.served self.now.object.now) self.now.book.now counts.now here.now.words }
    {
        for caller in 0..self.book.callers() {
            let number = u64::from(counts[caller as usize]);
            if number < self.book.answers(caller) {
                let call = Call { caller, number };
                let reply = self.book.record(call).reply;
                if !self.object.may_reply(here, self.book.op(call), reply) {
                    return true;
                }
            }
        }
        false
    }
}

// Whether a call is unanswered, or `reply` is its recorded reply.
fn is_recorded(book: &Book, call: Call, reply: u64) -> bool
    requires { IsCall book.now call }
    ensures { IsTrue result ↔ ((r : Record) → record_of book.now call ≡ Some r → r.reply ≡ reply) }
{
    call.number >= book.answers(call.caller) || book.record(call).reply == reply
}
