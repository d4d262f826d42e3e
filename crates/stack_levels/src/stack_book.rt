ghost use Rattle.std.specs.Prelude.{◌≡◌, ◌≢◌, ℕ, ◌<◌, false, List, None, Some, length, IfSome, IsTrue};
ghost use Rattle.book_base.specs.Book.{IsAnswered, IsCall};
ghost use Rattle.book_base.specs.Pruning.{HasOneOpen};
ghost use Rattle.search_hints.specs.Marks.{IsMarkedWithin, MarksAllNext, MarksSuffice};
ghost use Rattle.legal_orders.specs.Calls.{IsNeverTaken, TakesOut};
ghost use Rattle.stack_levels.specs.Levels.{AreAnsweredAlike, LeavesTop, ServesAtLevel, ShowsAnother};
ghost use Rattle.list_pruning.specs.LastFirst.{GivesLastFirst, HasTop};
ghost use Rattle.list_pruning.specs.Sights.{ListsValues};

use book_base::{Book, Call, Cut};
use legal_orders::{Reader, Role};
use list_pruning::{Top, is_read, narrow_by_top, value_taken};
use search_hints::{MarkedCallers, Sight, all_next, cut_of, first_view, least_open};

/// A stack's book, how it is read, and for each value the calls that put it in or take it out.
pub struct StackBook<'a, R> {
    pub reader: &'a R,
    pub sight: &'a Sight,
    pub book: &'a Book,
}

impl<R> Drop for StackBook<'_, R> {
    fn drop(self) {
        let StackBook {
            reader: _,
            sight: _,
            book: _,
        } = self;
    }
}

/// A cut, the callers whose next calls may come next after it, and those of them whose next calls
/// have to be tried.
#[derive(Drop)]
pub struct NextCallers {
    pub cut: Cut,
    pub all: MarkedCallers,
    pub marks: MarkedCallers,
}

impl<R: Reader> StackBook<'_, R> {
    /// The callers whose next calls may come next after a cut, and those of them whose next calls
    /// have to be tried at a list with the top `top`. Answers `None` where the cut holds all
    /// answered calls.
    pub fn look(&self, counts: &[u16], top: Top) -> Option<NextCallers>
        // The sight lists each call of the book that puts in a value, and each answered one that
        // takes it out.
        requires sight { ListsValues (R.reading self.now.reader.now) self.now.book.now
            self.now.sight.now }
        // Each view of the book holds at most one unanswered call of each caller.
        requires open { HasOneOpen self.now.book.now }
        // The cut has a count for each caller of the book.
        requires wide { length counts.now ≡ length self.now.book.now }
        // The answer has the cut with the counts `counts`.
        ensures cut { IfSome result (λ look. look.cut ≡ counts.now) }
        // Exactly those callers are marked in `all` whose next calls may come next after the cut.
        ensures all { IfSome result (λ look. MarksAllNext self.now.book.now look.cut look.all) }
        // Each caller whose next call has to be tried is one whose next call may come next.
        ensures fewer { IfSome result (λ look. IsMarkedWithin look.marks look.all) }
        // The marks in `marks` suffice for each object that gives its last value first, at each
        // list with the top `top`.
        ensures suffice { IfSome result
            (λ look. (next : List ℕ → ℕ → List ℕ × ℕ) (bound : ℕ) (list : List ℕ)
            → GivesLastFirst (R.reading self.now.reader.now) next bound
            → HasTop (R.reading self.now.reader.now) self.now.book.now look.cut bound top list
            → MarksSuffice self.now.book.now next look.cut list look.marks) }
    {
        let _callers = self.book.callers();
        let first = least_open(self.book, counts)?;
        let cut = cut_of(counts);
        let view = first_view(self.book, counts, first);
        let all = all_next(self.book, &cut, view, first);
        let marks = narrow_by_top(self.reader, self.sight, self.book, &cut, top, first, all);
        Some(NextCallers { cut, all, marks })
    }

    /// Whether a call is an answered take that shows something other than `last`, the last word of
    /// a list.
    pub fn shows_another(&self, last: Option<u64>, call: Call) -> bool
        // The call is one of the book's.
        requires caller { call.caller < length self.now.book.now }
        requires call { IsCall self.now.book.now call }
        ensures { IsTrue result
            → ShowsAnother (R.reading self.now.reader.now) self.now.book.now last call }
    {
        if call.number >= self.book.answers(call.caller) {
            return false;
        }
        match self.reader.role(self.book.op(call)) {
            Role::Take => is_another(self.reader.shown(self.book.record(call).reply), last),
            Role::Put(_) | Role::Other => false,
        }
    }

    /// Whether a call is unanswered and doesn't change a list whose last word is `last`.
    pub fn leaves_top(&self, last: Option<u64>, call: Call) -> bool
        // The call is one of the book's.
        requires caller { call.caller < length self.now.book.now }
        requires call { IsCall self.now.book.now call }
        ensures { IsTrue result
            → LeavesTop (R.reading self.now.reader.now) self.now.book.now last call }
    {
        if call.number < self.book.answers(call.caller) {
            return false;
        }
        match self.reader.role(self.book.op(call)) {
            Role::Take => is_none(last),
            Role::Other => true,
            Role::Put(_) => false,
        }
    }

    /// Whether call `one` serves for call `other`, which is another caller's, at each list whose
    /// last word is `last`.
    pub fn serves(&self, last: Option<u64>, one: Call, other: Call) -> bool
        // Both calls are calls of the book.
        requires one_caller { one.caller < length self.now.book.now }
        requires one { IsCall self.now.book.now one }
        requires other_caller { other.caller < length self.now.book.now }
        requires other { IsCall self.now.book.now other }
        ensures { IsTrue result
            → ServesAtLevel (R.reading self.now.reader.now) self.now.book.now last one other }
    {
        if one.caller == other.caller {
            return false;
        }
        if self.book.op(one) != self.book.op(other) {
            return false;
        }
        if one.number >= self.book.answers(one.caller) {
            return other.number >= self.book.answers(other.caller);
        }
        if other.number >= self.book.answers(other.caller) {
            return self.takes_last(last, one);
        }
        self.are_alike(one, other)
    }

    /// Whether some answered call takes `value`.
    pub fn is_taken(&self, value: u64) -> bool
        // The sight lists each call of the book that puts in a value, and each answered one that
        // takes it out.
        requires sight { ListsValues (R.reading self.now.reader.now) self.now.book.now
            self.now.sight.now }
        // `false` is answered only where no answered call takes the value.
        ensures { result ≡ false
            → IsNeverTaken (R.reading self.now.reader.now) self.now.book.now value }
    {
        let none = Cut::zero(self.book.callers());
        is_read(self.reader, self.sight, self.book, &none, value)
    }

    // Whether a call is an answered take that shows `last`, the last word of a list.
    fn takes_last(&self, last: Option<u64>, call: Call) -> bool
        ensures { IsTrue result → (v : ℕ) × (last ≡ Some v)
            × TakesOut (R.reading self.now.reader.now) self.now.book.now call v }
    {
        match last {
            Some(value) => self.takes(value, call),
            None => false,
        }
    }

    // Whether a call is an answered take that shows `value`.
    fn takes(&self, value: u64, call: Call) -> bool
        ensures { IsTrue result
            → TakesOut (R.reading self.now.reader.now) self.now.book.now call value }
    {
        match value_taken(self.reader, self.book, call) {
            Some(shown) => shown == value,
            None => false,
        }
    }

    // Whether two answered calls have the same reply, and the view of the first is within that of
    // the second.
    fn are_alike(&self, one: Call, other: Call) -> bool
        requires one { IsAnswered self.now.book.now one }
        requires other { IsAnswered self.now.book.now other }
        ensures { IsTrue result → AreAnsweredAlike self.now.book.now one other }
    {
        let mine = self.book.record(one);
        let its = self.book.record(other);
        mine.reply == its.reply && mine.view.within(&its.view)
    }
}

// Whether a list has no last word: `last` is `None`.
fn is_none(last: Option<u64>) -> bool
    ensures { IsTrue result → last ≡ None }
{
    match last {
        Some(_) => false,
        None => true,
    }
}

// Whether a take shows something other than `last`, the last word of a list: another value, or
// nothing where the list has a last word.
fn is_another(shown: Option<u64>, last: Option<u64>) -> bool
    ensures { IsTrue result → shown ≢ last }
{
    match shown {
        Some(value) => match last {
            Some(other) => value != other,
            None => true,
        },
        None => last.is_some(),
    }
}
