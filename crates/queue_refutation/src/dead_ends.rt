ghost use Rattle.std.specs.Prelude.{◌≡◌, ℕ, ◌⊎◌, ◌<◌, ◌≤◌, List, Some, IsTrue, slice_get};
ghost use Rattle.book_base.specs.declared.TheConstants.{MAX_CALLERS, MAX_CALLS};
ghost use Rattle.book_base.specs.Book.{Page};
ghost use Rattle.legal_orders.specs.Container.{Reading};
ghost use Rattle.queue_pairs.specs.declared.TheConstants.{NEVER};
ghost use Rattle.queue_pairs.specs.declared.standing.PairState.{PairState};
ghost use Rattle.queue_pairs.specs.Pairs.{Pairs, after};
ghost use Rattle.queue_pairs.specs.Tables.{put_at, take_at, IsTable};
ghost use Rattle.queue_pairs.specs.NextEntries.{paired, pair_of, AreNextEntries, IsNextEntry, IsNextPair};
ghost use Rattle.queue_refutation.specs.Closed.{IsOnePaired, AreClosed};
ghost use Rattle.queue_refutation.specs.DeadEnds.{listed, QueueHasNoOrder, Lead, IsOf, IsOfTaker, IsOfPut, IsOfPutter, IsAny, FindsLeadOn, StandAtOnce, ClosedAt, IsServed};

use book_base::{Book, Call, MAX_CALLERS, MAX_CALLS};
use indexmap::IndexSet;
use queue_pairs::{NEVER, NextEntries, PairState, QueueDeal, Table, TimedCall, TimedPair};
use search_hints::has_one_open;

/// Standings that a search entered, to be checked once more. Where whatever may come next at each
/// of them leads to one of them, or needn't be tried, no steps lead from any of them to a whole
/// standing.
pub struct DeadEnds<'a> {
    pub table: &'a Table,
    pub standings: &'a IndexSet<PairState>,
}

impl Drop for DeadEnds<'_> {
    fn drop(self) {
        let DeadEnds {
            table: _,
            standings: _,
        } = self;
    }
}

impl DeadEnds<'_> {
    /// Whether the standings show that a queue's book has no legal order: they have the one that
    /// covers no call, and each of them leads to standings of the search alone. No clause says that
    /// they show this wherever the book has no legal order.
    pub fn refute(&self, book: &Book) -> bool
        ensures { IsTrue result → QueueHasNoOrder self.now.table.now book.now }
    {
        if !has_one_open(book) {
            return false;
        }
        if !self.has(&PairState::start()) {
            return false;
        }
        self.are_closed()
    }

    // Whether each standing of the search leads to standings of the search alone.
    fn are_closed(&self) -> bool
        ensures { IsTrue result → (reading : Reading) (book : List Page)
            → IsTable reading book self.now.table.now
            → AreClosed reading book (listed self.now.standings.now.keys) }
    {
        for place in 0..self.standings.len() {
            if !self.is_closed_at(place) {
                return false;
            }
        }
        true
    }

    // Whether the standing of the search at this place leads to standings of the search alone.
    fn is_closed_at(&self, place: usize) -> bool
        ensures { IsTrue result → (s : PairState)
            → slice_get self.now.standings.now.keys place ≡ Some s
            → ClosedAt self.now.table.now (listed self.now.standings.now.keys) s }
    {
        match self.standings.get_index(place) {
            Some(standing) => self.is_closed(standing),
            None => true,
        }
    }

    // Whether a standing leads to standings of the search alone.
    fn is_closed(&self, standing: &PairState) -> bool
        ensures { IsTrue result
            → ClosedAt self.now.table.now (listed self.now.standings.now.keys) standing.now }
    {
        let _here = *standing;
        if standing.take_moment >= NEVER {
            return false;
        }
        let next_entries = NextEntries::of(self.table, standing);
        if self.finds_stand_at_once(standing, &next_entries) {
            return true;
        }
        if standing.put_moment > standing.take_moment {
            return false;
        }
        if next_entries.is_whole(standing) {
            return false;
        }
        if !self.finds_lead(standing, &next_entries) {
            return false;
        }
        self.pairs_lead(standing, &next_entries)
    }

    // Whether a standing is one of those that the search entered.
    fn has(&self, standing: &PairState) -> bool
        ensures { IsTrue result
            → IsOnePaired (listed self.now.standings.now.keys) (paired standing.now) }
    {
        match self.standings.get_full(standing) {
            Some((_, kept)) => kept.is_same(standing),
            None => false,
        }
    }

    // Whether takes that find nothing may be covered at once, which delays no other call, and lead
    // to one of the standings.
    fn finds_stand_at_once(&self, standing: &PairState, next_entries: &NextEntries) -> bool
        requires next_entries { AreNextEntries self.now.table.now standing.now next_entries.now }
        requires few { standing.now.take_moment < NEVER }
        ensures { IsTrue result
            → StandAtOnce self.now.table.now (listed self.now.standings.now.keys) standing.now }
    {
        if next_entries.find_first > standing.take_moment {
            return false;
        }
        if next_entries.put_limit < standing.take_moment {
            return false;
        }
        self.has(&standing.with_finds(standing.take_moment))
    }

    // Whether the takes that find nothing and may come next lead to one of the standings, or
    // needn't be tried.
    fn finds_lead(&self, standing: &PairState, next_entries: &NextEntries) -> bool
        requires next_entries { AreNextEntries self.now.table.now standing.now next_entries.now }
        requires few { standing.now.take_moment < NEVER }
        ensures { IsTrue result
            → FindsLeadOn self.now.table.now (listed self.now.standings.now.keys) standing.now }
    {
        if next_entries.find_first >= NEVER {
            return true;
        }
        let moment = standing.take_moment.max(next_entries.find_first);
        if next_entries.is_past(moment, moment) {
            return true;
        }
        self.has(&standing.with_finds(moment))
    }

    // Whether each pair that may come next leads to one of the standings, or needn't be tried.
    fn pairs_lead(&self, standing: &PairState, next_entries: &NextEntries) -> bool
        requires next_entries { AreNextEntries self.now.table.now standing.now next_entries.now }
        requires turn { standing.now.put_moment ≤ standing.now.take_moment }
        requires few { standing.now.take_moment < NEVER }
        ensures { IsTrue result
            → Lead IsAny self.now.table.now (listed self.now.standings.now.keys) standing.now }
    {
        for caller in 0..MAX_CALLERS {
            if !self.putter_leads(standing, next_entries, caller) {
                return false;
            }
        }
        true
    }

    // Whether each pair of a caller's next put leads to one of the standings, or needn't be tried.
    fn putter_leads(&self, standing: &PairState, next_entries: &NextEntries, caller: usize) -> bool
        requires next_entries { AreNextEntries self.now.table.now standing.now next_entries.now }
        requires turn { standing.now.put_moment ≤ standing.now.take_moment }
        requires few { standing.now.take_moment < NEVER }
        requires caller { caller < MAX_CALLERS }
        ensures { IsTrue result → Lead (IsOfPutter caller) self.now.table.now
            (listed self.now.standings.now.keys) standing.now }
    {
        match next_entries.put(caller) {
            Some(put) => self.put_leads(standing, next_entries, put),
            None => true,
        }
    }

    // Whether each pair of a put that may come next leads to one of the standings, or needn't be
    // tried.
    fn put_leads(&self, standing: &PairState, next_entries: &NextEntries, put: TimedCall) -> bool
        requires next_entries { AreNextEntries self.now.table.now standing.now next_entries.now }
        requires turn { standing.now.put_moment ≤ standing.now.take_moment }
        requires few { standing.now.take_moment < NEVER }
        requires put { IsNextEntry (λ i n. put_at self.now.table.now i n) standing.now.puts put }
        ensures { IsTrue result → Lead (IsOfPut put.call) self.now.table.now
            (listed self.now.standings.now.keys) standing.now }
    {
        for caller in 0..MAX_CALLERS {
            if !self.taker_leads(standing, next_entries, put, caller) {
                return false;
            }
        }
        true
    }

    // Whether the pair of a put and a caller's next take leads to one of the standings, or needn't
    // be tried.
    fn taker_leads(
        &self,
        standing: &PairState,
        next_entries: &NextEntries,
        put: TimedCall,
        caller: usize,
    ) -> bool
        requires next_entries { AreNextEntries self.now.table.now standing.now next_entries.now }
        requires turn { standing.now.put_moment ≤ standing.now.take_moment }
        requires few { standing.now.take_moment < NEVER }
        requires put { IsNextEntry (λ i n. put_at self.now.table.now i n) standing.now.puts put }
        requires caller { caller < MAX_CALLERS }
        ensures { IsTrue result → Lead (IsOfTaker put.call caller) self.now.table.now
            (listed self.now.standings.now.keys) standing.now }
    {
        match next_entries.take(caller) {
            Some(take) => self.calls_lead(standing, next_entries, put, take),
            None => true,
        }
    }

    // Whether the pair of a put and a take leads to one of the standings, or needn't be tried. It
    // needn't be tried where one of its calls is held by no view, where the take may not take the
    // put's value, or where neither call is answered.
    fn calls_lead(
        &self,
        standing: &PairState,
        next_entries: &NextEntries,
        put: TimedCall,
        take: TimedCall,
    ) -> bool
        requires next_entries { AreNextEntries self.now.table.now standing.now next_entries.now }
        requires turn { standing.now.put_moment ≤ standing.now.take_moment }
        requires few { standing.now.take_moment < NEVER }
        requires put { IsNextEntry (λ i n. put_at self.now.table.now i n) standing.now.puts put }
        requires take { IsNextEntry (λ i n. take_at self.now.table.now i n)
            standing.now.takes take }
        ensures { IsTrue result → Lead (IsOf put.call take.call) self.now.table.now
            (listed self.now.standings.now.keys) standing.now }
    {
        if !put.is_held() {
            return true;
        }
        if !take.is_held() {
            return true;
        }
        if !may_take(put.deal, take.deal) {
            return true;
        }
        if is_idle(put, take) {
            return true;
        }
        let pair = TimedPair::earliest(standing, put, take);
        self.pair_leads(standing, next_entries, &pair)
    }

    // Whether a pair at its earliest moments leads to one of the standings, or needn't be tried.
    fn pair_leads(&self, standing: &PairState, next_entries: &NextEntries, pair: &TimedPair) -> bool
        requires next_entries { AreNextEntries self.now.table.now standing.now next_entries.now }
        requires turn { standing.now.put_moment ≤ standing.now.take_moment }
        requires few { standing.now.take_moment < NEVER }
        requires pair { IsNextPair self.now.table.now standing.now pair.now }
        ensures { IsTrue result → Lead (IsOf pair.now.put.call pair.now.take.call)
            self.now.table.now (listed self.now.standings.now.keys) standing.now }
    {
        if next_entries.is_past(pair.put_moment, pair.take_moment) {
            return true;
        }
        if self.leads(standing, pair) {
            return true;
        }
        self.is_served(standing, next_entries, pair)
    }

    // Whether the standing after a pair is one of those that the search entered.
    fn leads(&self, standing: &PairState, pair: &TimedPair) -> bool
        ensures { IsTrue result → IsOnePaired (listed self.now.standings.now.keys)
            (after (paired standing.now) (Pairs (pair_of pair.now))) }
    {
        if !is_small(pair.put.call) {
            return false;
        }
        if !is_small(pair.take.call) {
            return false;
        }
        self.has(&standing.with_pair(pair))
    }

    // Whether a pair of next calls that serves for the given pair leads to one of the standings.
    fn is_served(&self, standing: &PairState, next_entries: &NextEntries, pair: &TimedPair) -> bool
        requires next_entries { AreNextEntries self.now.table.now standing.now next_entries.now }
        ensures { IsTrue result → IsServed self.now.table.now
            (listed self.now.standings.now.keys) standing.now pair.now }
    {
        for caller in 0..MAX_CALLERS {
            if self.putter_serves(standing, next_entries, pair, caller) {
                return true;
            }
        }
        false
    }

    // Whether a pair of a caller's next put serves for a given pair, and leads to one of the
    // standings.
    fn putter_serves(
        &self,
        standing: &PairState,
        next_entries: &NextEntries,
        pair: &TimedPair,
        caller: usize,
    ) -> bool
        requires next_entries { AreNextEntries self.now.table.now standing.now next_entries.now }
        requires caller { caller < MAX_CALLERS }
        ensures { IsTrue result → IsServed self.now.table.now
            (listed self.now.standings.now.keys) standing.now pair.now }
    {
        match next_entries.put(caller) {
            Some(put) => self.put_serves(standing, next_entries, pair, put),
            None => false,
        }
    }

    // Whether a pair of a put serves for a given pair, and leads to one of the standings.
    fn put_serves(
        &self,
        standing: &PairState,
        next_entries: &NextEntries,
        pair: &TimedPair,
        put: TimedCall,
    ) -> bool
        requires next_entries { AreNextEntries self.now.table.now standing.now next_entries.now }
        requires put { IsNextEntry (λ i n. put_at self.now.table.now i n) standing.now.puts put }
        ensures { IsTrue result → IsServed self.now.table.now
            (listed self.now.standings.now.keys) standing.now pair.now }
    {
        if !put.is_held() {
            return false;
        }
        if !put.deal.is_same(pair.put.deal) {
            return false;
        }
        for caller in 0..MAX_CALLERS {
            if self.taker_serves(standing, next_entries, pair, put, caller) {
                return true;
            }
        }
        false
    }

    // Whether the pair of a put and a caller's next take serves for a given pair, and leads to one
    // of the standings.
    fn taker_serves(
        &self,
        standing: &PairState,
        next_entries: &NextEntries,
        pair: &TimedPair,
        put: TimedCall,
        caller: usize,
    ) -> bool
        requires next_entries { AreNextEntries self.now.table.now standing.now next_entries.now }
        requires put { IsNextEntry (λ i n. put_at self.now.table.now i n) standing.now.puts put }
        requires held { put.span.first < NEVER }
        requires caller { caller < MAX_CALLERS }
        ensures { IsTrue result → IsServed self.now.table.now
            (listed self.now.standings.now.keys) standing.now pair.now }
    {
        match next_entries.take(caller) {
            Some(take) => self.calls_serve(standing, pair, put, take),
            None => false,
        }
    }

    // Whether the pair of a put and a take serves for a given pair, and leads to one of the
    // standings.
    fn calls_serve(
        &self,
        standing: &PairState,
        pair: &TimedPair,
        put: TimedCall,
        take: TimedCall,
    ) -> bool
        requires put { IsNextEntry (λ i n. put_at self.now.table.now i n) standing.now.puts put }
        requires held { put.span.first < NEVER }
        requires take { IsNextEntry (λ i n. take_at self.now.table.now i n)
            standing.now.takes take }
        ensures { IsTrue result → IsServed self.now.table.now
            (listed self.now.standings.now.keys) standing.now pair.now }
    {
        if !take.is_held() {
            return false;
        }
        let other = TimedPair::earliest(standing, put, take);
        if !other.serves(pair) {
            return false;
        }
        self.leads(standing, &other)
    }
}

// Whether a take may take out what a put puts in: it shows this value, or is unanswered.
fn may_take(put: QueueDeal, take: QueueDeal) -> bool
    ensures { (v : ℕ) → put ≡ QueueDeal.Put v → (take ≡ QueueDeal.Took v)
        ⊎ (take ≡ QueueDeal.OpenTake)
        → IsTrue result }
{
    match (put, take) {
        (QueueDeal::Put(value), QueueDeal::Took(shown)) => value == shown,
        (QueueDeal::Put(_), QueueDeal::OpenTake) => true,
        _ => false,
    }
}

// Whether neither of two calls is answered.
fn is_idle(put: TimedCall, take: TimedCall) -> bool
    ensures { IsTrue result → (NEVER ≤ put.span.last) × (NEVER ≤ take.span.last) }
{
    !put.is_answered() && !take.is_answered()
}

// Whether a call's caller and number are below the limits of a book.
fn is_small(call: Call) -> bool
    ensures { IsTrue result → (call.caller < MAX_CALLERS) × (call.number < MAX_CALLS) }
{
    (call.caller as usize) < MAX_CALLERS && call.number < MAX_CALLS
}
