ghost use Rattle.std.specs.Prelude.{◌≡◌, ℕ, ◌+◌, ◌<◌, ◌≤◌, ◌⊎◌, ◌↔◌, [], length, replicate, take, slice_index, IfOk, IfErr, IfSome, IfNone, IsSomeAnd, OnOk, OnErr, IsTrue, IsErrOf};
ghost use Rattle.book_base.specs.declared.call.Call.{Call};
ghost use Rattle.book_base.specs.declared.call.Record.{Record};
ghost use Rattle.book_base.specs.declared.fault.BookFault.{BookFault};
ghost use Rattle.book_base.specs.Cut.{IsWithin, AreComparable};
ghost use Rattle.book_base.specs.Book.{calls_of, answers_of, announced, answered, operation_of, record_of, IsCall, IsAnswered, IsValid, IsSmall, Precedes, unanswered_page, unanswered_book, with_call, with_operation, with_answer};
ghost use Rattle.book_base.specs.BookAt.{IsHeldBySomeView, IsBookAt};
ghost use Rattle.book_base.specs.BookLayout.{page};
ghost use Rattle.book_base.specs.Rising.{AreViewsWithin};
ghost use Rattle.book_base.specs.Refusal.{MayAnswer, IsFirstFault};
ghost use Rattle.book_base.specs.declared.TheConstants.{MAX_CALLERS, MAX_CALLS};

use crate::call::{Call, Record};
use crate::cut::Cut;
use crate::fault::{BookFault, NoMemory};
use crate::{MAX_CALLERS, MAX_CALLS, OpWord};
use std::alloc::Global;
use std::marker::Model;

/// One caller's page: the operation words of its calls, and the records of those that are answered.
#[derive(Debug, Drop)]
struct CallerPage {
    operations: Vec<OpWord>,
    records: Vec<Record>,
}

/// A book: for each caller the operation words of its calls, and the records of those that are
/// answered.
///
/// Clauses see it as the list of its pages, one a caller. It is valid at all times: its records fit
/// its calls, and its views fit one another as the views of snapshots do (Castañeda and Rodríguez
/// 2023).
#[derive(Debug, Drop)]
pub struct Book {
    rows: Vec<CallerPage>,
}

impl CallerPage {
    // The page of `calls` unanswered calls, each with the operation word 0, with capacity for their
    // records.
    fn unanswered(alloc: Global, calls: u64) -> Result<CallerPage, NoMemory>
        requires { calls ≤ MAX_CALLS }
        ensures { IfOk result (λ rows. page rows ≡ unanswered_page calls) }
    {
        Ok(CallerPage {
            operations: vec![in alloc; 0; calls as usize]?,
            records: Vec::with_capacity(alloc, calls as usize)?,
        })
    }

    // The page with the first `calls` calls and the first `answers` records of this page.
    fn prefix(&self, alloc: Global, calls: u64, answers: u64) -> Result<CallerPage, NoMemory>
        requires calls { calls ≤ length self.now.operations.items }
        requires answers { answers ≤ length self.now.records.items }
        ensures { IfOk result (λ rows. page rows ≡ record {
          operations = take calls self.now.operations.items;
          records = take answers self.now.records.items;
        }) }
    {
        Ok(CallerPage {
            operations: Vec::from_slice(alloc, &self.operations[..calls as usize])?,
            records: Vec::from_slice(alloc, &self.records[..answers as usize])?,
        })
    }
}

impl Model for Book {
    ghost use Rattle.std.specs.Prelude.{List};
    ghost use Rattle.book_base.specs.Book.{Page, IsValid, IsSmall};

    ghost Value = { List Page };

    ghost use Rattle.book_base.specs.BookLayout.{pages};

    ghost view = { λ b. pages b.rows.items };

    ghost invariant = { λ b. IsValid (pages b.rows.items) × IsSmall (pages b.rows.items) };
}

impl Book {
    /// The book of `n` callers without calls.
    pub fn new(alloc: Global, n: u32) -> Result<Book, NoMemory>
        // There is at least one caller.
        requires some { 1 ≤ n }
        // There are at most `MAX_CALLERS` callers.
        requires few { n ≤ MAX_CALLERS }
        ensures { IfOk result
            (λ book. book ≡ replicate n (record { operations = []; records = [] })) }
    {
        let mut rows = Vec::new(alloc);
        for _ in 0..n {
            rows.push(CallerPage {
                operations: Vec::new(alloc),
                records: Vec::new(alloc),
            })?;
        }
        Ok(Book { rows })
    }

    /// The book in which each caller made as many calls as `calls` counts for it, none answered.
    /// Each call has the operation word 0 until [`Book::set_op`] puts in another, and memory for
    /// all answers is taken with the calls.
    pub fn with_calls(alloc: Global, calls: &Cut) -> Result<Book, NoMemory>
        // `calls` counts at most `MAX_CALLS` calls of each caller.
        requires { (i : ℕ) → slice_index calls.now i ≤ MAX_CALLS }
        // Each caller has as many calls as `calls` counts for it, each with the operation word 0,
        // and none is answered.
        ensures { IfOk result (λ book. book ≡ unanswered_book calls.now) }
    {
        let mut rows = Vec::new(alloc);
        for i in 0..calls.n() {
            rows.push(CallerPage::unanswered(alloc, calls.get(i))?)?;
        }
        Ok(Book { rows })
    }

    /// Adds a call at the end of a caller's calls. A refusal leaves the book as it was.
    pub fn add_call(&mut self, caller: u32, op: OpWord) -> Result<(), BookFault>
        // The book has a caller with this number.
        requires { caller < length self.old }
        // After an answer Ok the book has a call with the operation word `op` as the last of the
        // caller's calls, and is as before besides.
        ensures ok { OnOk result (self.new ≡ with_call self.old caller op) }
        // The answer is `TooManyCalls` exactly where the caller has `MAX_CALLS` calls.
        ensures full { IsErrOf result BookFault.TooManyCalls
            ↔ (calls_of self.old caller ≡ MAX_CALLS) }
        // A refusal is `TooManyCalls` or want of memory.
        ensures causes { IfErr result
            (λ e. (e ≡ BookFault.TooManyCalls) ⊎ (e ≡ BookFault.NoMemory)) }
        // A refusal leaves the book as it was.
        ensures err { OnErr result (self.new ≡ self.old) }
    {
        let operations = &mut self.rows[caller as usize].operations;
        if operations.len() as u64 >= MAX_CALLS {
            return Err(BookFault::TooManyCalls);
        }
        operations.push(op)?;
        Ok(())
    }

    /// Puts in the operation word of a call, and changes nothing else.
    pub fn set_op(&mut self, call: Call, op: OpWord)
        // The call is one of the book's.
        requires { IsCall self.old call }
        ensures { self.new ≡ with_operation self.old call op }
    {
        self.rows[call.caller as usize].operations[call.number as usize] = op;
    }

    /// Records the answer of a caller's first unanswered call. The first test that the answer fails
    /// is the refusal, and a refusal leaves the book as it was.
    pub fn add_answer(&mut self, caller: u32, reply: u64, view: Cut) -> Result<(), BookFault>
        // The book has a caller with this number.
        requires caller { caller < length self.old }
        // The view has a count for each caller of the book.
        requires wide { length view ≡ length self.old }
        // After an answer Ok the caller's first unanswered call has this reply and this view, and
        // the book is as before besides.
        ensures ok { OnOk result
            (self.new ≡ with_answer self.old caller (record { reply = reply; view = view })) }
        // The result is Ok only where the caller's answer with this view keeps the book valid.
        ensures may { OnOk result (MayAnswer self.old caller view) }
        // The first test that the answer fails is the refusal.
        ensures refused { (fault : BookFault) → IsFirstFault self.old caller view fault
            → result ≡ Err fault }
        // A refusal is the first test that the answer fails, or want of memory.
        ensures causes { IfErr result
            (λ e. IsFirstFault self.old caller view e ⊎ (e ≡ BookFault.NoMemory)) }
        // A refusal leaves the book as it was.
        ensures err { OnErr result (self.new ≡ self.old) }
    {
        if let Some(fault) = self.first_fault(caller, &view) {
            return Err(fault);
        }
        match self.put_answer(caller, reply, view) {
            Ok(()) => Ok(()),
            Err(NoMemory) => Err(BookFault::NoMemory),
        }
    }

    /// Records the answer of a caller's first unanswered call as [`Book::add_answer`] does, but
    /// makes no test, since the answer is known to pass each.
    pub fn put_answer(&mut self, caller: u32, reply: u64, view: Cut) -> Result<(), NoMemory>
        // The book has a caller with this number.
        requires caller { caller < length self.old }
        // The view has a count for each caller of the book.
        requires wide { length view ≡ length self.old }
        // The answer keeps the book valid.
        requires may { MayAnswer self.old caller view }
        // After an answer Ok the caller's first unanswered call has this reply and this view, and
        // the book is as before besides.
        ensures ok { OnOk result
            (self.new ≡ with_answer self.old caller (record { reply = reply; view = view })) }
        // A refusal leaves the book as it was.
        ensures err { OnErr result (self.new ≡ self.old) }
    {
        self.rows[caller as usize]
            .records
            .push(Record { reply, view })?;
        Ok(())
    }

    // The first test that an answer with this view fails.
    fn first_fault(&self, caller: u32, view: &Cut) -> Option<BookFault>
        requires caller { caller < length self.now }
        requires wide { length view.now ≡ length self.now }
        ensures fault { IfSome result (IsFirstFault self.now caller view.now) }
        ensures none { IfNone result (MayAnswer self.now caller view.now) }
    {
        let made = self.answers(caller);
        if self.calls(caller) <= made {
            return Some(BookFault::NoSuchCall);
        }
        if let Some(other) = self.first_outside(view) {
            return Some(BookFault::ViewOutside(other));
        }
        let own = view.get(caller);
        if own < made + 1 {
            return Some(BookFault::ViewLacksOwn(own));
        }
        if own > made + 1 {
            return Some(BookFault::ViewHasLater(own));
        }
        match self.first_crossing(view) {
            Some(call) => Some(BookFault::ViewsCross(call)),
            None => None,
        }
    }

    // The least caller of whom the view counts more calls than it made.
    fn first_outside(&self, view: &Cut) -> Option<u32>
        requires { length view.now ≡ length self.now }
        ensures outside { IfSome result
            (λ j. (j < length self.now) × (calls_of self.now j < slice_index view.now j)) }
        ensures least { IfSome result
            (λ j. (k : ℕ) → k < j → slice_index view.now k ≤ calls_of self.now k) }
        ensures none { IfNone result (IsWithin view.now (announced self.now)) }
    {
        for j in 0..self.callers() {
            if view.get(j) > self.calls(j) {
                return Some(j);
            }
        }
        None
    }

    // The least call, by caller and then by number, whose view and `view` aren't comparable.
    fn first_crossing(&self, view: &Cut) -> Option<Call>
        requires { length view.now ≡ length self.now }
        ensures crossing { IfSome result
            (λ call. IsSomeAnd (record_of self.now call) (λ r. ¬ AreComparable view.now r.view)) }
        ensures least { IfSome result
            (λ call. (other : Call) (r : Record) → record_of self.now other ≡ Some r
            → (other.caller < call.caller)
            ⊎ ((other.caller ≡ call.caller) × (other.number < call.number))
            → AreComparable view.now r.view) }
        ensures none { IfNone result ((call : Call) (r : Record) → record_of self.now call ≡ Some r
            → AreComparable view.now r.view) }
    {
        for caller in 0..self.callers() {
            if let Some(number) = self.first_crossing_of(caller, view) {
                return Some(Call { caller, number });
            }
        }
        None
    }

    // The least call of a caller whose view and `view` aren't comparable. Only the first call whose
    // view isn't within `view` can be that call: where `view` is within its view, it is within
    // those of all later calls of the caller, since a caller's views rise.
    fn first_crossing_of(&self, caller: u32, view: &Cut) -> Option<u64>
        requires valid { IsValid self.now }
        requires caller { caller < length self.now }
        requires wide { length view.now ≡ length self.now }
        ensures crossing { IfSome result (λ number. IsSomeAnd (record_of self.now
            (record { caller = caller; number = number })) (λ r. ¬ AreComparable view.now r.view)) }
        ensures least { IfSome result
            (λ number. (k : ℕ) (r : Record) → k < number → record_of self.now
            (record { caller = caller; number = k }) ≡ Some r → AreComparable view.now r.view) }
        ensures none { IfNone result ((k : ℕ) (r : Record) → record_of self.now
            (record { caller = caller; number = k }) ≡ Some r → AreComparable view.now r.view) }
    {
        let number = self.views_within(caller, view);
        if number >= self.answers(caller) {
            return None;
        }
        if view.within(self.view(Call { caller, number })) {
            return None;
        }
        Some(number)
    }

    // How many of a caller's views are within `view`. They are the caller's first views, since a
    // caller's views rise. A new view mostly contains all of them, so the search goes backwards
    // from the last one, at distances that double.
    fn views_within(&self, caller: u32, view: &Cut) -> u64
        requires valid { IsValid self.now }
        requires caller { caller < length self.now }
        requires wide { length view.now ≡ length self.now }
        ensures count { AreViewsWithin self.now caller view.now result result }
    {
        let mut high = self.answers(caller);
        let mut distance: u64 = 1;
        while high > 0 {
            let number = high.saturating_sub(distance);
            if self.is_within(caller, number, view) {
                return self.views_within_between(caller, view, number + 1, high);
            }
            high = number;
            distance = distance.saturating_mul(2);
        }
        0
    }

    // How many of a caller's views are within `view`, found by bisection where this number is known
    // to lie between `lower` and `higher`.
    fn views_within_between(&self, caller: u32, view: &Cut, lower: u64, higher: u64) -> u64
        requires valid { IsValid self.now }
        requires caller { caller < length self.now }
        requires wide { length view.now ≡ length self.now }
        requires between { AreViewsWithin self.now caller view.now lower higher }
        ensures count { AreViewsWithin self.now caller view.now result result }
    {
        let mut low = lower;
        let mut high = higher;
        while low < high {
            let middle = low + (high - low) / 2;
            if self.is_within(caller, middle, view) {
                low = middle + 1;
            } else {
                high = middle;
            }
        }
        low
    }

    /// The book at a cut: of each caller as many first records as the cut counts, and the calls
    /// that some of their views hold (Castañeda and Rodríguez 2023).
    pub fn at(&self, alloc: Global, cut: &Cut) -> Result<Book, NoMemory>
        // The cut has a count for each caller of the book.
        requires wide { length cut.now ≡ length self.now }
        // The cut holds no more records of a caller than the book has.
        requires answered { IsWithin cut.now (answered self.now) }
        ensures { IfOk result (λ book. IsBookAt self.now cut.now book) }
    {
        let mut rows = Vec::new(alloc);
        for caller in 0..self.callers() {
            let row = &self.rows[caller as usize];
            rows.push(row.prefix(alloc, self.held_calls(cut, caller), cut.get(caller))?)?;
        }
        Ok(Book { rows })
    }

    // How many calls of a caller are held by the views of the records that a cut holds. Since the
    // views of each caller rise, only that of each caller's last record in the cut is looked at.
    fn held_calls(&self, cut: &Cut, caller: u32) -> u64
        requires wide { length cut.now ≡ length self.now }
        requires answered { IsWithin cut.now (answered self.now) }
        requires caller { caller < length self.now }
        ensures held { (number : ℕ) → number < result
            ↔ IsHeldBySomeView self.now cut.now (record { caller = caller; number = number }) }
        ensures few { result ≤ calls_of self.now caller }
    {
        let mut held: u64 = 0;
        for other in 0..self.callers() {
            held = held.max(self.held_by_last(cut, other, caller));
        }
        held
    }

    // How many calls of `caller` are held by the view of the last record of the caller `other` that
    // a cut holds: 0 where the cut holds no record of `other`.
    fn held_by_last(&self, cut: &Cut, other: u32, caller: u32) -> u64
        requires valid { IsValid self.now }
        requires wide { length cut.now ≡ length self.now }
        requires answered { IsWithin cut.now (answered self.now) }
        requires other { other < length self.now }
        requires caller { caller < length self.now }
        ensures held { (number : ℕ) → number < result
            → IsHeldBySomeView self.now cut.now (record { caller = caller; number = number }) }
        ensures most { (number : ℕ) (r : Record) → number < slice_index cut.now other
            → record_of self.now (record { caller = other; number = number }) ≡ Some r
            → slice_index r.view caller ≤ result }
    {
        let taken = cut.get(other);
        if taken == 0 {
            return 0;
        }
        let last = Call {
            caller: other,
            number: taken - 1,
        };
        self.view(last).get(caller)
    }

    /// A copy of the book.
    pub fn copy(&self, alloc: Global) -> Result<Book, NoMemory>
        ensures { IfOk result (λ book. book ≡ self.now) }
    {
        let mut rows = Vec::new(alloc);
        for row in &self.rows {
            rows.push(row.prefix(alloc, row.operations.len() as u64, row.records.len() as u64)?)?;
        }
        Ok(Book { rows })
    }

    /// The number of callers.
    pub fn callers(&self) -> u32
        // The answer is how many callers the book has.
        ensures count { result ≡ length self.now }
        // The book is valid: its records fit its calls, and its views fit one another.
        ensures valid { IsValid self.now }
        // The book has at least one caller, and no more callers and calls of each than a book may
        // have.
        ensures small { IsSmall self.now }
    {
        self.rows.len() as u32
    }

    /// How many calls a caller made.
    pub fn calls(&self, i: u32) -> u64
        // The book has a caller with this number.
        requires { i < length self.now }
        ensures { result ≡ calls_of self.now i }
    {
        self.rows[i as usize].operations.len() as u64
    }

    /// How many of a caller's calls are answered.
    pub fn answers(&self, i: u32) -> u64
        // The book has a caller with this number.
        requires { i < length self.now }
        ensures { result ≡ answers_of self.now i }
    {
        self.rows[i as usize].records.len() as u64
    }

    /// The operation word of a call.
    pub fn op(&self, call: Call) -> OpWord
        // The call is one of the book's.
        requires { IsCall self.now call }
        ensures { operation_of self.now call ≡ Some result }
    {
        self.rows[call.caller as usize].operations[call.number as usize]
    }

    /// The record of an answered call.
    pub fn record(&self, call: Call) -> Record
        // The call is one that is answered in the book.
        requires { IsAnswered self.now call }
        // The answer is the record that answers the call.
        ensures record { record_of self.now call ≡ Some result }
        // The view of the record has a count for each caller of the book.
        ensures wide { length result.view ≡ length self.now }
    {
        self.rows[call.caller as usize].records[call.number as usize]
    }

    /// The reply of an answered call.
    pub fn reply(&self, call: Call) -> u64
        // The call is one that is answered in the book.
        requires { IsAnswered self.now call }
        // The answer is the reply of the record that answers the call.
        ensures { IsSomeAnd (record_of self.now call) (λ r. result ≡ r.reply) }
    {
        self.rows[call.caller as usize].records[call.number as usize].reply
    }

    /// The view of an answered call.
    pub fn view(&self, call: Call) -> &Cut
        // The call is one that is answered in the book.
        requires { IsAnswered self.now call }
        // The answer is the view of the record that answers the call.
        ensures view { IsSomeAnd (record_of self.now call) (λ r. result.now ≡ r.view) }
        // The view has a count for each caller of the book.
        ensures wide { length result.now ≡ length self.now }
    {
        &self.rows[call.caller as usize].records[call.number as usize].view
    }

    /// Whether a call precedes another: it is answered and its view doesn't hold the other, or it
    /// is an earlier call of the same caller (Castañeda and Rodríguez 2023).
    pub fn precedes(&self, a: Call, b: Call) -> bool
        // The first call is one of the book's.
        requires first { IsCall self.now a }
        // The second call is one of the book's.
        requires second { IsCall self.now b }
        ensures { IsTrue result ↔ Precedes self.now a b }
    {
        let earlier = a.caller == b.caller && a.number < b.number;
        earlier || (self.is_answered(a) && !self.view(a).holds(b.caller, b.number))
    }

    // Whether the view of a caller's record with this number is within `view`.
    fn is_within(&self, caller: u32, number: u64, view: &Cut) -> bool
        requires answered { number < answers_of self.now caller }
        requires wide { length view.now ≡ length self.now }
        ensures { IsSomeAnd (record_of self.now (record { caller = caller; number = number }))
            (λ r. IsTrue result ↔ IsWithin r.view view.now) }
    {
        self.view(Call { caller, number }).within(view)
    }

    fn is_answered(&self, call: Call) -> bool
        requires { IsCall self.now call }
        ensures { IsTrue result ↔ IsAnswered self.now call }
    {
        call.number < self.answers(call.caller)
    }
}
