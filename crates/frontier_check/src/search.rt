ghost use Rattle.std.specs.Prelude.{◌≡◌, ◌≢◌, ℕ, ◌+◌, ◌<◌, ◌≤◌, ◌↔◌, ◌∷◌, ◌++◌, [], List, length, slice_index, IfOk, IfSome, IfNone, IsTrue, Some, OnOk};
ghost use Rattle.std.specs.List.{AllByRecursion};
ghost use Rattle.book_base.specs.declared.call.Place.{Place};
ghost use Rattle.book_base.specs.declared.call.Record.{Record};
ghost use Rattle.book_base.specs.Book.{IsCall, IsAnswered, IsValid, record_of};
ghost use Rattle.book_base.specs.Order.{IsLegalOrder};
ghost use Rattle.book_base.specs.declared.TheConstants.{MAX_CALLERS, MAX_CALLS};
ghost use Rattle.book_base.specs.Next.{next_call, raised, list_after, HoldsAnswered, MayComeNext, MayStandNext};
ghost use Rattle.frontier_check.specs.Prefix.{IsBookCapacity, IsPrefix};
ghost use Rattle.book_base.specs.Pruning.{HasOneOpen, IsLeast, IsDeadEnd, ViewsAreWithin, IsReached, StandsAtOnce};
ghost use Rattle.search_hints.specs.Marks.{MarksAllNext};
ghost use Rattle.search_hints.specs.declared.decision.Decision.{Decision};
ghost use Rattle.frontier_check.specs.Search.{places_of, AreToTry, IsOneMore, IsOpen, IsWalk, IsRightAfter, IsRightOutcome, MayGrow, weigh, weight};

use crate::call_turns::CallTurns;
use crate::choice::Choice;
use crate::memo::Memo;
use crate::prefix::Prefix;
use crate::twins::choose;
use crate::walk::{MOST_CALLS, StepOutcome, Walk, WalkFrame, empty_state, load, places, set_count};
use book_base::{Book, Call, Cut, NoMemory, Place, State};
use search_hints::{
    Decision, MarkedCallers, SearchHints, Sight, all_next, cut_of, first_view, least_open,
};
use std::alloc::Global;
use std::mem;

/// A search for a legal order of a book of a sequential object, which begins with the places of a
/// prefix.
pub struct Search<'a, S> {
    pub alloc: Global,
    pub object: &'a S,
    pub book: &'a Book,
    pub one_open: bool,
    pub sight: &'a Option<Sight>,
    pub call_turns: &'a CallTurns,
    pub prefix: &'a Prefix,
}

impl<S> Drop for Search<'_, S> {
    fn drop(self) {
        let Search {
            alloc: _,
            object: _,
            book: _,
            one_open: _,
            sight: _,
            call_turns: _,
            prefix: _,
        } = self;
    }
}

impl<S: SearchHints> Search<'_, S> {
    /// Finds places that make a legal order after those of the prefix, if there are any. Where a
    /// number of steps is given, it makes so many at the most, and says nothing where they end
    /// first: no clause says how far it looks with them.
    pub fn run(&self, steps: Option<u64>) -> Result<Decision, NoMemory>
        requires open { IsTrue self.now.one_open → HasOneOpen self.now.book.now }
        requires sight { IfSome self.now.sight.now (λ sight. HasOneOpen self.now.book.now
            × S.sees self.now.object.now self.now.book.now sight) }
        requires prefix { IsPrefix (S.spec self.now.object.now) self.now.book.now
            self.now.prefix.now }
        ensures right { IfOk result (IsRightAfter (S.spec self.now.object.now) self.now.book.now
            self.now.prefix.now) }
        ensures unlimited { IfNone steps (IfOk result (λ decision. decision ≢ Decision.Unsaid)) }
    {
        let mut spare = empty_state(self.alloc, self.object)?;
        match self.begin(&mut spare)? {
            None => Ok(Decision::Order(Vec::new(self.alloc))),
            Some(mut walk) => self.go_on(&mut walk, &mut spare, steps),
        }
    }

    // The walk without frames, at the cut and the list of the prefix. `None` comes where that cut
    // holds all answered calls.
    fn begin(&self, spare: &mut State) -> Result<Option<Walk>, NoMemory>
        requires open { IsTrue self.now.one_open → HasOneOpen self.now.book.now }
        requires sight { IfSome self.now.sight.now (λ sight. HasOneOpen self.now.book.now
            × S.sees self.now.object.now self.now.book.now sight) }
        requires prefix { IsPrefix (S.spec self.now.object.now) self.now.book.now
            self.now.prefix.now }
        requires room { IsBookCapacity (S.spec self.now.object.now) spare.old.room }
        ensures room { spare.new.room ≡ spare.old.room }
        ensures walk { IfOk result (λ begun. IfSome begun (λ walk. IsWalk self.now.book.now
            self.now.prefix.now (S.spec self.now.object.now) walk (places_of walk.choices.items))) }
        ensures none { IfOk result
            (λ begun. IfNone begun (HoldsAnswered self.now.book.now self.now.prefix.now.cut)) }
    {
        let counts = counts_of(self.alloc, &self.prefix.cut)?;
        let Some(first) = least_open(self.book, &counts) else {
            return Ok(None);
        };
        let mut here = empty_state(self.alloc, self.object)?;
        here.copy_from(&self.prefix.here);
        let choices = self.choices(&counts, &here, spare, first)?;
        let memo = Memo::new(self.alloc, counts.len());
        Ok(Some(Walk {
            frames: Vec::new(self.alloc),
            counts,
            here,
            choices,
            memo,
        }))
    }

    // Makes steps of a walk until a legal order is found or nothing is left to try, or until so many
    // are made, where a number is given.
    fn go_on(
        &self,
        walk: &mut Walk,
        spare: &mut State,
        steps: Option<u64>,
    ) -> Result<Decision, NoMemory>
        requires open { IsTrue self.now.one_open → HasOneOpen self.now.book.now }
        requires sight { IfSome self.now.sight.now (λ sight. HasOneOpen self.now.book.now
            × S.sees self.now.object.now self.now.book.now sight) }
        requires walk { IsWalk self.now.book.now self.now.prefix.now
            (S.spec self.now.object.now) walk.old (places_of walk.old.choices.items) }
        requires room { IsBookCapacity (S.spec self.now.object.now) spare.old.room }
        ensures right { IfOk result (IsRightAfter (S.spec self.now.object.now) self.now.book.now
            self.now.prefix.now) }
        ensures unlimited { IfNone steps (IfOk result (λ decision. decision ≢ Decision.Unsaid)) }
    {
        let mut left = steps;
        'steps: loop {
            match left {
                Some(0) => return Ok(Decision::Unsaid),
                Some(more) => left = Some(more - 1),
                None => {}
            }
            match self.advance(walk, spare)? {
                StepOutcome::Found => {
                    return Ok(Decision::Order(places(self.alloc, &walk.frames)?));
                }
                StepOutcome::NoneLeft => return Ok(Decision::NoOrder),
                StepOutcome::GoesOn => {}
            }
        }
    }

    // Makes one step of a walk: it tries the last choice, which is the best one; where no choice is
    // left, it remembers the cut and the list as a dead end and goes back by one frame.
    fn advance(&self, walk: &mut Walk, spare: &mut State) -> Result<StepOutcome, NoMemory>
        requires open { IsTrue self.now.one_open → HasOneOpen self.now.book.now }
        requires sight { IfSome self.now.sight.now (λ sight. HasOneOpen self.now.book.now
            × S.sees self.now.object.now self.now.book.now sight) }
        requires walk { IsWalk self.now.book.now self.now.prefix.now
            (S.spec self.now.object.now) walk.old (places_of walk.old.choices.items) }
        requires room { IsBookCapacity (S.spec self.now.object.now) spare.old.room }
        ensures room { spare.new.room ≡ spare.old.room }
        ensures outcome { IfOk result (IsRightOutcome self.now.book.now self.now.prefix.now
            (S.spec self.now.object.now) (weight walk.old) walk.new) }
    {
        match walk.choices.pop() {
            Some(choice) => self.enter(walk, spare, choice.place),
            None => {
                walk.memo
                    .remember(self.alloc, &walk.counts, walk.here.words())?;
                Ok(self.retreat(walk))
            }
        }
    }

    // Puts a place next, unless that leads to a remembered dead end: then the walk stays where it
    // is.
    fn enter(
        &self,
        walk: &mut Walk,
        spare: &mut State,
        place: Place,
    ) -> Result<StepOutcome, NoMemory>
        requires open { IsTrue self.now.one_open → HasOneOpen self.now.book.now }
        requires sight { IfSome self.now.sight.now (λ sight. HasOneOpen self.now.book.now
            × S.sees self.now.object.now self.now.book.now sight) }
        requires walk { IsWalk self.now.book.now self.now.prefix.now
            (S.spec self.now.object.now) walk.old (place ∷ places_of walk.old.choices.items) }
        requires room { IsBookCapacity (S.spec self.now.object.now) spare.old.room }
        ensures room { spare.new.room ≡ spare.old.room }
        ensures outcome { IfOk result
            (IsRightOutcome self.now.book.now self.now.prefix.now (S.spec self.now.object.now)
            (weigh MOST_CALLS walk.old.frames.items (length walk.old.choices.items + 1)) walk.new) }
    {
        self.step(walk, spare, place);
        if walk.memo.remembers(&walk.counts, walk.here.words()) {
            set_count(&mut walk.counts, place.caller, place.number);
            walk.here.copy_from(spare);
            return Ok(StepOutcome::GoesOn);
        }
        let words = Vec::from_slice(self.alloc, spare.words())?;
        match least_open(self.book, &walk.counts) {
            None => {
                let choices = mem::replace(&mut walk.choices, Vec::new(self.alloc));
                walk.frames.push(WalkFrame {
                    place,
                    words,
                    choices,
                })?;
                Ok(StepOutcome::Found)
            }
            Some(first) => {
                let fresh = self.choices(&walk.counts, &walk.here, spare, first)?;
                let choices = mem::replace(&mut walk.choices, fresh);
                walk.frames.push(WalkFrame {
                    place,
                    words,
                    choices,
                })?;
                Ok(StepOutcome::GoesOn)
            }
        }
    }

    // Applies the operation of a place that may come next to the list of a walk, and raises the
    // count of its caller. The spare state keeps the list before.
    fn step(&self, walk: &mut Walk, spare: &mut State, place: Place)
        requires walk { IsWalk self.now.book.now self.now.prefix.now
            (S.spec self.now.object.now) walk.old (place ∷ places_of walk.old.choices.items) }
        requires room { IsBookCapacity (S.spec self.now.object.now) spare.old.room }
        ensures spare { spare.new ≡ record spare.old { words = walk.old.here.words } }
        ensures here { walk.new.here ≡ record walk.old.here {
          words =
              list_after self.now.book.now
              (S.spec self.now.object.now).next walk.old.here.words place;
        } }
        ensures counts { walk.new.counts.items ≡ raised walk.old.counts.items place.caller }
        ensures frames { walk.new.frames ≡ walk.old.frames }
        ensures choices { walk.new.choices ≡ walk.old.choices }
        ensures memo { walk.new.memo ≡ walk.old.memo }
    {
        let op = self.book.op(Call {
            caller: place.caller,
            number: place.number,
        });
        spare.copy_from(&walk.here);
        let _reply = self.object.step(&mut walk.here, op);
        set_count(&mut walk.counts, place.caller, place.number + 1);
    }

    // Goes back by one frame from a dead end: the walk has the cut, the list and the choices of its
    // last frame again. `NoneLeft` comes where the walk has no frame.
    fn retreat(&self, walk: &mut Walk) -> StepOutcome
        requires walk { IsWalk self.now.book.now self.now.prefix.now
            (S.spec self.now.object.now) walk.old [] }
        ensures { IsRightOutcome self.now.book.now self.now.prefix.now (S.spec self.now.object.now)
            (weigh MOST_CALLS walk.old.frames.items 0) walk.new result }
    {
        let Some(frame) = walk.frames.pop() else {
            return StepOutcome::NoneLeft;
        };
        let WalkFrame {
            place,
            words,
            choices,
        } = frame;
        set_count(&mut walk.counts, place.caller, place.number);
        load(&mut walk.here, &words);
        walk.choices = choices;
        StepOutcome::GoesOn
    }

    // The choices that are to be tried after a cut and at a list of the object, the best one last.
    // Where an answered call may be put at once, as `at_once` says, its place is the only choice.
    // Else there is a choice for the next call of each caller that is to be tried, if its place may
    // come next and no other choice serves for it; in a book with one open an unanswered call that
    // leaves the list as it is gets no choice.
    //
    // The next call of the caller `first` is answered and has the least view of all answered next
    // calls, so that a next call may come next exactly where this view holds it.
    fn choices(
        &self,
        counts: &[u16],
        here: &State,
        spare: &mut State,
        first: u32,
    ) -> Result<Vec<Choice>, NoMemory>
        requires open { IsTrue self.now.one_open → HasOneOpen self.now.book.now }
        requires sight { IfSome self.now.sight.now (λ sight. HasOneOpen self.now.book.now
            × S.sees self.now.object.now self.now.book.now sight) }
        requires reached { IsReached (S.spec self.now.object.now) self.now.book.now counts.now
            here.now.words }
        requires wide { length counts.now ≡ length self.now.book.now }
        requires first { IsLeast self.now.book.now counts.now (length self.now.book.now) first }
        requires fits { MayGrow (S.spec self.now.object.now).next here.now.words spare.old.room }
        ensures room { spare.new.room ≡ spare.old.room }
        ensures open { IfOk result (λ choices. IsOpen self.now.book.now
            (S.spec self.now.object.now).next counts.now here.now.words (places_of choices.items)) }
        ensures few { IfOk result (λ choices. length choices.items ≤ length self.now.book.now) }
    {
        let _callers = self.book.callers();
        let view = first_view(self.book, counts, first);
        let mut choices = Vec::new(self.alloc);
        if let Some(place) = self.at_once(counts, view, here, spare, first) {
            choices.push(Choice { turn: 0, place })?;
            return Ok(choices);
        }
        let cut = cut_of(counts);
        let marks = self.to_try(&cut, view, here, first);
        for caller in 0..self.book.callers() {
            if marks.has(caller) {
                self.consider(counts, caller, here, spare, &mut choices)?;
            }
        }
        Ok(choices)
    }

    // Marks on the callers that are to be tried after a cut and at a list: all whose next calls may
    // come next, or fewer that suffice, where the object narrows them.
    fn to_try(&self, cut: &Cut, view: &Cut, here: &State, first: u32) -> MarkedCallers
        requires sight { IfSome self.now.sight.now (λ sight. HasOneOpen self.now.book.now
            × S.sees self.now.object.now self.now.book.now sight) }
        requires reached { IsReached (S.spec self.now.object.now) self.now.book.now cut.now
            here.now.words }
        requires wide { length cut.now ≡ length self.now.book.now }
        requires first { IsLeast self.now.book.now cut.now (length self.now.book.now) first }
        requires view { (r : Record)
            → record_of self.now.book.now (next_call cut.now first) ≡ Some r → r.view ≡ view.now }
        requires views { length view.now ≡ length self.now.book.now }
        ensures { AreToTry self.now.book.now
            (S.spec self.now.object.now).next cut.now here.now.words result }
    {
        let marks = all_next(self.book, cut, view, first);
        match self.sight {
            Some(sight) => self
                .object
                .narrow(sight, self.book, cut, here.words(), first, marks),
            None => marks,
        }
    }

    // The place of an answered read-only call that may come next after a cut and gets its recorded
    // reply at a list, if one is found: it may be put at once, before anything else.
    fn at_once(
        &self,
        counts: &[u16],
        view: &Cut,
        here: &State,
        spare: &mut State,
        first: u32,
    ) -> Option<Place>
        requires wide { length counts.now ≡ length self.now.book.now }
        requires first { IsLeast self.now.book.now counts.now (length self.now.book.now) first }
        requires view { (r : Record) → record_of self.now.book.now (next_call counts.now first)
            ≡ Some r → r.view ≡ view.now }
        requires views { length view.now ≡ length self.now.book.now }
        requires fits { MayGrow (S.spec self.now.object.now).next here.now.words spare.old.room }
        ensures room { spare.new.room ≡ spare.old.room }
        ensures some { IfSome result (StandsAtOnce self.now.book.now
            (S.spec self.now.object.now).next counts.now here.now.words) }
    {
        for caller in 0..self.book.callers() {
            if u64::from(counts[caller as usize]) < view.get(caller) {
                let place = self.read_only(counts, caller, here, spare);
                if place.is_some() {
                    return place;
                }
            }
        }
        None
    }

    // The place of a caller's next call, which may come next, if the call is answered and read-only
    // with its recorded reply, and the object gives this reply at the list. The object makes a step
    // only where it says that the call is read-only.
    fn read_only(
        &self,
        counts: &[u16],
        caller: u32,
        here: &State,
        spare: &mut State,
    ) -> Option<Place>
        requires wide { length counts.now ≡ length self.now.book.now }
        requires caller { caller < length counts.now }
        requires may { MayComeNext self.now.book.now counts.now (next_call counts.now caller) }
        requires fits { MayGrow (S.spec self.now.object.now).next here.now.words spare.old.room }
        ensures room { spare.new.room ≡ spare.old.room }
        ensures some { IfSome result (StandsAtOnce self.now.book.now
            (S.spec self.now.object.now).next counts.now here.now.words) }
    {
        let number = u64::from(counts[caller as usize]);
        if number >= self.book.answers(caller) {
            return None;
        }
        let call = Call { caller, number };
        let op = self.book.op(call);
        let reply = self.book.record(call).reply;
        if !self.object.leaves(op, reply) {
            return None;
        }
        spare.copy_from(here);
        if self.object.step(spare, op) != reply {
            return None;
        }
        Some(Place {
            caller,
            number,
            reply,
        })
    }

    // Adds a choice for a caller's next call, which may come next, if the call is unanswered or the
    // object gives the recorded reply. In a book with one open an unanswered call that leaves the
    // list as it is isn't added, and of two choices with one operation only the one is kept that
    // serves for the other.
    fn consider(
        &self,
        counts: &[u16],
        caller: u32,
        here: &State,
        spare: &mut State,
        choices: &mut Vec<Choice>,
    ) -> Result<(), NoMemory>
        requires valid { IsValid self.now.book.now }
        requires open { IsTrue self.now.one_open → HasOneOpen self.now.book.now }
        requires wide { length counts.now ≡ length self.now.book.now }
        requires caller { caller < length counts.now }
        requires may { MayComeNext self.now.book.now counts.now (next_call counts.now caller) }
        requires fits { MayGrow (S.spec self.now.object.now).next here.now.words spare.old.room }
        requires sound { AllByRecursion (MayStandNext self.now.book.now
            (S.spec self.now.object.now).next counts.now here.now.words)
            (places_of choices.old.items) }
        ensures room { spare.new.room ≡ spare.old.room }
        ensures more { OnOk result
            (IsOneMore self.now.book.now (S.spec self.now.object.now).next counts.now here.now.words
            caller (places_of choices.old.items) (places_of choices.new.items)) }
        ensures few { length choices.new.items ≤ length choices.old.items + 1 }
    {
        let number = u64::from(counts[caller as usize]);
        let call = Call { caller, number };
        spare.copy_from(here);
        let reply = self.object.step(spare, self.book.op(call));
        if !is_recorded(self.book, call, reply) {
            return Ok(());
        }
        let answered = number < self.book.answers(caller);
        let leaves = spare.words() == here.words();
        if self.one_open && leaves && !answered {
            return Ok(());
        }
        let turn = self.call_turns.turn(caller, number, leaves && answered);
        let place = Place {
            caller,
            number,
            reply,
        };
        choose(self.book, self.one_open, choices, Choice { turn, place })
    }
}

// The counts of a cut, in the numbers that a walk keeps.
fn counts_of(alloc: Global, cut: &Cut) -> Result<Vec<u16>, NoMemory>
    requires { (i : ℕ) → slice_index cut.now i ≤ MAX_CALLS }
    ensures { IfOk result (λ counts. counts.items ≡ cut.now) }
{
    let mut counts = Vec::with_capacity(alloc, cut.n() as usize)?;
    for count in cut.counts() {
        counts.push(*count as u16)?;
    }
    Ok(counts)
}

// Whether a call is unanswered, or `reply` is its recorded reply.
fn is_recorded(book: &Book, call: Call, reply: u64) -> bool
    requires { IsCall book.now call }
    ensures { IsTrue result ↔ ((r : Record) → record_of book.now call ≡ Some r → r.reply ≡ reply) }
{
    call.number >= book.answers(call.caller) || book.record(call).reply == reply
}
