ghost use Rattle.std.specs.Prelude.{◌≡◌, ℕ, ◌+◌, ◌<◌, ◌∷◌, ◌++◌, [], true, false, IfOk, OnOk, IsTrue, ◌↔◌, length, slice_get, slice_index, slice_index_or, None};
ghost use Rattle.book_base.specs.declared.TheConstants.{MAX_CALLERS};
ghost use Rattle.book_base.specs.Book.{IsCall, calls_of};
ghost use Rattle.legal_orders.specs.Deals.{deal_of, take_of};
ghost use Rattle.queue_pairs.specs.Tables.{known_deal, is_find, is_put, is_take, put_at, rows_of, take_at, timed_at, IsTimed, IsRowTo, AreFindsTo, IsTable, IsFirstFrom};
ghost use Rattle.queue_pairs.specs.NextEntries.{first_after, last_after, IsLeastOf};

use crate::NEVER;
use crate::spans::{Span, span_of};
use book_base::{Book, Call, MAX_CALLERS, NoMemory};
use legal_orders::{Reader, Role};
use std::alloc::Global;

/// What a call did: it put a value in, it took one out or found nothing, it is an unanswered take,
/// or it is neither.
#[derive(Clone, Copy)]
pub enum QueueDeal {
    Put(u64),
    Took(u64),
    FoundNothing,
    OpenTake,
    Other,
}

impl QueueDeal {
    /// Whether the call puts a value in.
    pub fn is_put(self) -> bool
        ensures { result ≡ is_put self }
    {
        matches!(self, QueueDeal::Put(_))
    }

    /// Whether the call takes a value out, or is an unanswered take.
    pub fn is_take(self) -> bool
        ensures { result ≡ is_take self }
    {
        matches!(self, QueueDeal::Took(_) | QueueDeal::OpenTake)
    }

    /// Whether the call takes and finds nothing.
    pub fn is_find(self) -> bool
        ensures { result ≡ is_find self }
    {
        matches!(self, QueueDeal::FoundNothing)
    }

    /// Whether two calls did the same, with the same value.
    pub fn is_same(self, other: QueueDeal) -> bool
        ensures { IsTrue result → self ≡ other }
    {
        match (self, other) {
            (QueueDeal::Put(value), QueueDeal::Put(others)) => value == others,
            (QueueDeal::Took(value), QueueDeal::Took(others)) => value == others,
            (QueueDeal::FoundNothing, QueueDeal::FoundNothing) => true,
            (QueueDeal::OpenTake, QueueDeal::OpenTake) => true,
            (QueueDeal::Other, QueueDeal::Other) => true,
            _ => false,
        }
    }
}

/// A call, what it did, and when it may take effect.
#[derive(Clone, Copy)]
pub struct TimedCall {
    pub call: Call,
    pub deal: QueueDeal,
    pub span: Span,
}

impl TimedCall {
    /// Whether the call is answered.
    pub fn is_answered(&self) -> bool
        ensures { IsTrue result ↔ (self.now.span.last < NEVER) }
    {
        self.span.last < NEVER
    }

    /// Whether some view holds the call.
    pub fn is_held(&self) -> bool
        ensures { IsTrue result ↔ (self.now.span.first < NEVER) }
    {
        self.span.first < NEVER
    }
}

/// The calls of a queue's book, with what they did and when they may take effect: in `rows` all
/// calls, by caller and number, and in `finds` once more those that take and find nothing.
#[derive(Drop)]
pub struct Table {
    pub rows: Vec<Vec<TimedCall>>,
    pub finds: Vec<TimedCall>,
}

impl Table {
    /// The table of a book's calls.
    pub fn of<R: Reader>(alloc: Global, reader: &R, book: &Book) -> Result<Table, NoMemory>
        ensures { IfOk result (IsTable (R.reading reader.now) book.now) }
    {
        let mut rows = Vec::new(alloc);
        let mut finds = Vec::new(alloc);
        for caller in 0..book.callers() {
            let row = row_of(alloc, reader, book, caller, &mut finds)?;
            rows.push(row)?;
        }
        Ok(Table { rows, finds })
    }

    /// How many calls of a caller the table has.
    pub fn calls(&self, caller: usize) -> usize
        ensures { result ≡ length (slice_index_or (rows_of self.now) caller []) }
    {
        match self.rows.get(caller) {
            Some(row) => row.len(),
            None => 0,
        }
    }

    /// The entry of a caller's call with this number, where there is one.
    pub fn at(&self, caller: usize, number: usize) -> Option<TimedCall>
        ensures { result ≡ timed_at self.now caller number }
    {
        match self.rows.get(caller) {
            Some(row) => match row.get(number) {
                Some(timed) => Some(*timed),
                None => None,
            },
            None => None,
        }
    }

    // The entry of a caller's call with this number, if it is a put.
    fn put_at(&self, caller: usize, number: usize) -> Option<TimedCall>
        ensures { result ≡ put_at self.now caller number }
    {
        match self.at(caller, number) {
            Some(timed) => {
                if timed.deal.is_put() {
                    Some(timed)
                } else {
                    None
                }
            }
            None => None,
        }
    }

    // The entry of a caller's call with this number, if it is a take that shows a value or is
    // unanswered.
    fn take_at(&self, caller: usize, number: usize) -> Option<TimedCall>
        ensures { result ≡ take_at self.now caller number }
    {
        match self.at(caller, number) {
            Some(timed) => {
                if timed.deal.is_take() {
                    Some(timed)
                } else {
                    None
                }
            }
            None => None,
        }
    }

    /// The first put of a caller from a number on.
    pub fn next_put(&self, caller: usize, from: u16) -> Option<TimedCall>
        ensures { IsFirstFrom (λ n. put_at self.now caller n) from result }
    {
        for number in from as usize..self.calls(caller) {
            if let Some(put) = self.put_at(caller, number) {
                return Some(put);
            }
        }
        None
    }

    /// The first take of a caller from a number on that shows a value or is unanswered.
    pub fn next_take(&self, caller: usize, from: u16) -> Option<TimedCall>
        ensures { IsFirstFrom (λ n. take_at self.now caller n) from result }
    {
        for number in from as usize..self.calls(caller) {
            if let Some(take) = self.take_at(caller, number) {
                return Some(take);
            }
        }
        None
    }

    /// The first put of each caller from the number on that `from` has for the caller.
    pub fn next_puts(&self, from: &[u16; MAX_CALLERS]) -> [Option<TimedCall>; MAX_CALLERS]
        ensures { (i : ℕ) → i < MAX_CALLERS
            → IsFirstFrom (λ n. put_at self.now i n) (slice_index from.now i)
            (slice_index_or result i None) }
    {
        let mut puts: [Option<TimedCall>; MAX_CALLERS] = [None; MAX_CALLERS];
        for caller in 0..MAX_CALLERS {
            puts[caller] = self.next_put(caller, from[caller]);
        }
        puts
    }

    /// The first take of each caller that shows a value or is unanswered, from the number on that
    /// `from` has for the caller.
    pub fn next_takes(&self, from: &[u16; MAX_CALLERS]) -> [Option<TimedCall>; MAX_CALLERS]
        ensures { (i : ℕ) → i < MAX_CALLERS
            → IsFirstFrom (λ n. take_at self.now i n) (slice_index from.now i)
            (slice_index_or result i None) }
    {
        let mut takes: [Option<TimedCall>; MAX_CALLERS] = [None; MAX_CALLERS];
        for caller in 0..MAX_CALLERS {
            takes[caller] = self.next_take(caller, from[caller]);
        }
        takes
    }

    /// The least first moment of all calls that take and find nothing and that no view holds up to
    /// the moment `found`, or `NEVER` where there are no such calls.
    pub fn find_first(&self, found: u64) -> u64
        ensures { IsLeastOf (λ k. first_after found (slice_get self.now.finds.items k))
            (length self.now.finds.items) result }
    {
        let mut least = NEVER;
        for k in 0..self.finds.len() {
            least = least.min(self.first_after(found, k));
        }
        least
    }

    /// The least of the last moments of all calls that take and find nothing and that no view holds
    /// up to the moment `found`, or `NEVER` where there are no such calls.
    pub fn find_limit(&self, found: u64) -> u64
        ensures { IsLeastOf (λ k. last_after found (slice_get self.now.finds.items k))
            (length self.now.finds.items) result }
    {
        let mut least = NEVER;
        for k in 0..self.finds.len() {
            least = least.min(self.last_after(found, k));
        }
        least
    }

    // The first moment of entry `k` of the takes that find nothing, or `NEVER` where there is none,
    // or some view holds its call up to the moment `found`.
    fn first_after(&self, found: u64, k: usize) -> u64
        ensures { result ≡ first_after found (slice_get self.now.finds.items k) }
    {
        match self.finds.get(k) {
            Some(find) => {
                if found < find.span.first {
                    find.span.first
                } else {
                    NEVER
                }
            }
            None => NEVER,
        }
    }

    // The last moment of entry `k` of the takes that find nothing, or `NEVER` where there is none,
    // or some view holds its call up to the moment `found`.
    fn last_after(&self, found: u64, k: usize) -> u64
        ensures { result ≡ last_after found (slice_get self.now.finds.items k) }
    {
        match self.finds.get(k) {
            Some(find) => {
                if found < find.span.first {
                    find.span.last
                } else {
                    NEVER
                }
            }
            None => NEVER,
        }
    }
}

// The row of a table with the calls of a caller. Those that take and find nothing are added to
// `finds`.
fn row_of<R: Reader>(
    alloc: Global,
    reader: &R,
    book: &Book,
    caller: u32,
    finds: &mut Vec<TimedCall>,
) -> Result<Vec<TimedCall>, NoMemory>
    requires caller { caller < length book.now }
    requires finds { AreFindsTo (R.reading reader.now) book.now caller 0 finds.old.items }
    ensures row { IfOk result (λ row.
        IsRowTo (R.reading reader.now) book.now caller (calls_of book.now caller) row.items) }
    ensures finds { OnOk result
        (AreFindsTo (R.reading reader.now) book.now (caller + 1) 0 finds.new.items) }
{
    let mut row = Vec::new(alloc);
    for number in 0..book.calls(caller) {
        let timed = timed(reader, book, Call { caller, number });
        row.push(timed)?;
        add_find(timed, finds)?;
    }
    Ok(row)
}

// Adds a call to `finds` if it takes and finds nothing.
fn add_find(timed: TimedCall, finds: &mut Vec<TimedCall>) -> Result<(), NoMemory>
    ensures found { OnOk result
        (is_find timed.deal ≡ true → finds.new.items ≡ finds.old.items ++ timed ∷ []) }
    ensures other { OnOk result (is_find timed.deal ≡ false → finds.new.items ≡ finds.old.items) }
{
    if !timed.deal.is_find() {
        return Ok(());
    }
    finds.push(timed)?;
    Ok(())
}

// A call of a book, with what it did and when it may take effect.
fn timed<R: Reader>(reader: &R, book: &Book, call: Call) -> TimedCall
    requires { IsCall book.now call }
    ensures { IsTimed (R.reading reader.now) book.now call result }
{
    let deal = deal_of(reader, book, call);
    let span = span_of(book, call);
    TimedCall { call, deal, span }
}

// What a call of a book did.
fn deal_of<R: Reader>(reader: &R, book: &Book, call: Call) -> QueueDeal
    requires { IsCall book.now call }
    ensures { known_deal result ≡ deal_of (R.reading reader.now) book.now call }
{
    match reader.role(book.op(call)) {
        Role::Put(value) => QueueDeal::Put(value),
        Role::Take => take_of(reader, book, call),
        Role::Other => QueueDeal::Other,
    }
}

// What a call whose operation takes did.
fn take_of<R: Reader>(reader: &R, book: &Book, call: Call) -> QueueDeal
    requires { IsCall book.now call }
    ensures { known_deal result ≡ take_of (R.reading reader.now) book.now call }
{
    if call.number >= book.answers(call.caller) {
        return QueueDeal::OpenTake;
    }
    match reader.shown(book.record(call).reply) {
        Some(value) => QueueDeal::Took(value),
        None => QueueDeal::FoundNothing,
    }
}
