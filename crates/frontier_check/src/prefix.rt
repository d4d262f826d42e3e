ghost use Rattle.std.specs.Prelude.{◌≡◌, ℕ, ◌+◌, ◌<◌, ◌⊎◌, [], ◌∷◌, ◌++◌, List, length, slice_index, IfOk, IsTrue, OnOk, Some};
ghost use Rattle.book_base.specs.declared.call.Record.{Record};
ghost use Rattle.book_base.specs.Cut.{IsWithin};
ghost use Rattle.book_base.specs.Book.{answered, record_of};
ghost use Rattle.book_base.specs.Order.{call_at};
ghost use Rattle.book_base.specs.Next.{next_call};
ghost use Rattle.frontier_check.specs.Prefix.{no_calls, IsBookCapacity, IsNext, IsPut, IsPrefix, LeavesOpen};
ghost use Rattle.frontier_check.specs.Standing.{AreMarks, IsMarkAtEnd, AddsMarks};

use crate::kept_order::OrderMark;
use crate::walk::empty_state;
use book_base::{Book, Call, Cut, NoMemory, Place, SeqObject, State};
use std::alloc::Global;

/// A prefix of an order: its places, and the cut and the object's list that they lead to.
#[derive(Drop)]
pub struct Prefix {
    pub places: Vec<Place>,
    pub cut: Cut,
    pub here: State,
}

impl Prefix {
    /// The prefix without places, at the cut without calls and the object's first list.
    pub fn new<S: SeqObject>(alloc: Global, object: &S, book: &Book) -> Result<Prefix, NoMemory>
        ensures put { IfOk result (IsPut (S.spec object.now) book.now) }
        ensures prefix { IfOk result (IsPrefix (S.spec object.now) book.now) }
        ensures places { IfOk result (λ prefix. prefix.places.items ≡ []) }
        ensures cut { IfOk result (λ prefix. prefix.cut ≡ no_calls book.now) }
        ensures list { IfOk result (λ prefix. prefix.here.words ≡ (S.spec object.now).init) }
        ensures room { IfOk result
            (λ prefix. IsBookCapacity (S.spec object.now) prefix.here.room) }
    {
        let mut here = empty_state(alloc, object)?;
        object.reset(&mut here);
        Ok(Prefix {
            places: Vec::new(alloc),
            cut: Cut::zero(book.callers()),
            here,
        })
    }

    /// Puts `places` after the prefix's own places, up to the first one that isn't next after those
    /// before it, or whose call the cut `limit` lacks. Leaves a mark wherever the number of places
    /// is a multiple of `INTERVAL`. Answers whether the object gave the reply of each place that
    /// was put.
    pub fn put_marked<S: SeqObject>(
        &mut self,
        alloc: Global,
        object: &S,
        book: &Book,
        limit: &Cut,
        places: &[Place],
        marks: &mut Vec<OrderMark>,
    ) -> Result<bool, NoMemory>
        requires limit { length limit.now ≡ length book.now }
        requires put { IsPut (S.spec object.now) book.now self.old }
        requires room { IsBookCapacity (S.spec object.now) self.old.here.room }
        requires marks { AreMarks (S.spec object.now) book.now self.old.places.items 0
            marks.old.items }
        ensures put { IfOk result
            (λ given. IsTrue given → IsPut (S.spec object.now) book.now self.new) }
        ensures room { IfOk result
            (λ given. IsTrue given → self.new.here.room ≡ self.old.here.room) }
        ensures marks { IfOk result (λ given. IsTrue given
            → AreMarks (S.spec object.now) book.now self.new.places.items 0 marks.new.items) }
    {
        let answered = answers_in(book);
        for place in places {
            if !self.may_take(book, limit, *place) {
                return Ok(true);
            }
            if !self.put(object, book, *place)? {
                return Ok(false);
            }
            self.mark_at_interval(alloc, &answered, marks)?;
        }
        Ok(true)
    }

    /// Leaves a mark at the end of the prefix, with the numbers `records` of records, if the number
    /// of places is a multiple of `INTERVAL`. Where this makes more than `MOST_MARKS` marks, one of
    /// the earlier half is removed, each time at another index, so that fewer marks are at earlier
    /// places.
    pub fn mark_at_interval(
        &self,
        alloc: Global,
        records: &Cut,
        marks: &mut Vec<OrderMark>,
    ) -> Result<(), NoMemory>
        ensures { OnOk result (AddsMarks self.now records.now marks.old.items marks.new.items) }
    {
        if self.places.len() % INTERVAL == 0 {
            self.leave_mark(alloc, records, marks)?;
        }
        Ok(())
    }

    // Leaves a mark at the end of the prefix, with the numbers `records` of records. Where this
    // makes more than `MOST_MARKS` marks, one of the earlier half is removed.
    fn leave_mark(
        &self,
        alloc: Global,
        records: &Cut,
        marks: &mut Vec<OrderMark>,
    ) -> Result<(), NoMemory>
        ensures { OnOk result (AddsMarks self.now records.now marks.old.items marks.new.items) }
    {
        let mark = self.mark(alloc, records)?;
        marks.push(mark)?;
        if marks.len() > MOST_MARKS {
            marks.remove(self.places.len() / INTERVAL % (MOST_MARKS / 2));
        }
        Ok(())
    }

    /// Leaves a mark at the end of the prefix, with the numbers `records` of records, where the
    /// number of places isn't a multiple of `INTERVAL`. Where it is one, a mark was left when the
    /// last place was put, or the prefix has no places.
    pub fn mark_end(
        &self,
        alloc: Global,
        records: &Cut,
        marks: &mut Vec<OrderMark>,
    ) -> Result<(), NoMemory>
        ensures { OnOk result (AddsMarks self.now records.now marks.old.items marks.new.items) }
    {
        if self.places.len() % INTERVAL != 0 {
            let mark = self.mark(alloc, records)?;
            marks.push(mark)?;
        }
        Ok(())
    }

    // A mark at the end of the prefix, with the numbers `records` of records.
    fn mark(&self, alloc: Global, records: &Cut) -> Result<OrderMark, NoMemory>
        ensures { IfOk result (IsMarkAtEnd self.now records.now) }
    {
        Ok(OrderMark {
            len: self.places.len(),
            cut: self.cut,
            words: Vec::from_slice(alloc, self.here.words())?,
            answered: *records,
        })
    }

    /// Whether the call at a place is its caller's next call in the book after the prefix's cut and
    /// the cut `limit` holds it; and, where the call is answered, whether the place has the
    /// recorded reply and the view holds the prefix's cut.
    pub fn may_take(&self, book: &Book, limit: &Cut, place: Place) -> bool
        requires wide { length self.now.cut ≡ length book.now }
        requires limit { length limit.now ≡ length book.now }
        ensures { IsTrue result → IsNext book.now self.now.cut place }
    {
        let Place {
            caller,
            number,
            reply,
        } = place;
        if caller >= book.callers() || number != self.cut.get(caller) {
            return false;
        }
        if number >= book.calls(caller) || number >= limit.get(caller) {
            return false;
        }
        if number >= book.answers(caller) {
            return true;
        }
        let call = Call { caller, number };
        book.reply(call) == reply && self.cut.within(book.view(call))
    }

    /// Puts a place after the prefix's own places; the prefix's cut and list become those after its
    /// call. Answers whether the object gave the reply of the place, which is put in either case.
    pub fn put<S: SeqObject>(
        &mut self,
        object: &S,
        book: &Book,
        place: Place,
    ) -> Result<bool, NoMemory>
        requires put { IsPut (S.spec object.now) book.now self.old }
        requires next { IsNext book.now self.old.cut place }
        requires room { IsBookCapacity (S.spec object.now) self.old.here.room }
        ensures put { IfOk result
            (λ given. IsTrue given → IsPut (S.spec object.now) book.now self.new) }
        ensures places { OnOk result (self.new.places.items ≡ self.old.places.items ++ place ∷ []) }
        ensures room { self.new.here.room ≡ self.old.here.room }
    {
        let op = book.op(Call {
            caller: place.caller,
            number: place.number,
        });
        let reply = object.step(&mut self.here, op);
        self.cut.set(place.caller, place.number + 1);
        self.places.push(place)?;
        Ok(reply == place.reply)
    }
}

/// How many places are put between two marks: while places are put one by one, a mark is left
/// wherever their number is a multiple of `INTERVAL`. Such a mark may be removed later, where there
/// are more than `MOST_MARKS`. A mark at another number of places is dropped when places are put
/// after it.
pub const INTERVAL: usize = 32;

/// How many marks are kept at most when one is left at an interval, since each has a copy of the
/// object's list. One more may be left at the end of a prefix.
const MOST_MARKS: usize = 32;

/// Whether each answered call that is its caller's next after a cut has a view that holds the cut.
pub fn leaves_open(book: &Book, cut: &Cut) -> bool
    requires { length cut.now ≡ length book.now }
    ensures { IsTrue result → LeavesOpen book.now cut.now }
{
    for caller in 0..book.callers() {
        let number = cut.get(caller);
        if number < book.answers(caller) && !cut.within(book.view(Call { caller, number })) {
            return false;
        }
    }
    true
}

/// How many records of each caller a book has.
pub fn answers_in(book: &Book) -> Cut
    ensures { result ≡ answered book.now }
{
    let mut answered = Cut::zero(book.callers());
    for caller in 0..book.callers() {
        answered.set(caller, book.answers(caller));
    }
    answered
}

// A cut that counts for each caller the calls up to the one at the caller's last place in `places`,
// or as many as `cut` where no place is the caller's. It counts the calls in `cut` and at the
// places, where the calls at the places follow `cut`.
fn calls_at(cut: &Cut, places: &[Place]) -> Cut
    ensures { length result ≡ length cut.now }
{
    let mut calls = *cut;
    for place in places {
        if place.caller < calls.n() {
            calls.set(place.caller, place.number.saturating_add(1));
        }
    }
    calls
}

/// A limit for putting `places` after a cut, as a cut itself. It counts for each caller the
/// caller's calls in `cut` and at the places, but no more than the view of any answered call that
/// is its caller's next after all the places. A call that the limit lacks is preceded by one of
/// these answered calls, or is at none of the places. No clause says so: the limit only decides how
/// long a search takes.
pub fn limit_of(book: &Book, cut: &Cut, places: &[Place]) -> Cut
    requires { length cut.now ≡ length book.now }
    ensures { length result ≡ length book.now }
{
    let calls = calls_at(cut, places);
    let mut limit = calls;
    for caller in 0..book.callers() {
        let number = calls.get(caller);
        if number < book.answers(caller) {
            limit = least_of(&limit, book.view(Call { caller, number }));
        }
    }
    limit
}

// The cut that has for each caller the lesser one of the counts of two cuts.
fn least_of(a: &Cut, b: &Cut) -> Cut
    requires { length a.now ≡ length b.now }
    ensures { length result ≡ length a.now }
{
    let mut least = *a;
    for caller in 0..a.n() {
        least.set(caller, a.get(caller).min(b.get(caller)));
    }
    least
}
