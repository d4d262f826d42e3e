ghost use Rattle.std.specs.Prelude.{◌≡◌, ℕ, ◌<◌, ◌≤◌, ◌↔◌, ◌⊎◌, None, IsTrue, max, slice_index_or};
ghost use Rattle.book_base.specs.declared.TheConstants.{MAX_CALLERS};
ghost use Rattle.queue_pairs.specs.NextEntries.{last_of, AreNextEntries, IsLeastOf, IsPast, CanReplace};

use crate::NEVER;
use crate::standing::PairState;
use crate::table::{Table, TimedCall};
use book_base::MAX_CALLERS;

/// The next calls of all callers after those that a standing covers, and the latest moments that
/// the remaining calls may have: the least `last` of all puts, of all takes that show a value, and
/// of all takes that find nothing.
#[derive(Clone, Copy)]
pub struct NextEntries {
    pub puts: [Option<TimedCall>; MAX_CALLERS],
    pub takes: [Option<TimedCall>; MAX_CALLERS],
    /// The first moment of the remaining takes that find nothing.
    pub find_first: u64,
    pub put_limit: u64,
    pub take_limit: u64,
    pub find_limit: u64,
}

/// A put and a take, with the moments at which they take effect.
#[derive(Clone, Copy)]
pub struct TimedPair {
    pub put: TimedCall,
    pub take: TimedCall,
    pub put_moment: u64,
    pub take_moment: u64,
}

impl TimedPair {
    /// The pair of a put and a take, at the earliest moments that they may have after a standing.
    pub fn earliest(standing: &PairState, put: TimedCall, take: TimedCall) -> TimedPair
        // The put of the answer is `put`.
        ensures put { result.put ≡ put }
        // The take of the answer is `take`.
        ensures take { result.take ≡ take }
        // The put takes effect at the first moment at which a view holds it, or at that of the last
        // put so far, where this is later.
        ensures put_moment { result.put_moment ≡ max standing.now.put_moment put.span.first }
        // The take takes effect at the first moment at which a view holds it, or at that of its put
        // or of the last take so far, where one of these is later.
        ensures take_moment { result.take_moment ≡ max
            (max standing.now.take_moment result.put_moment) take.span.first }
    {
        let put_moment = standing.put_moment.max(put.span.first);
        TimedPair {
            put,
            take,
            put_moment,
            take_moment: standing.take_moment.max(put_moment).max(take.span.first),
        }
    }

    /// Whether a pair serves for another one, so that it may be tried instead of the other: its
    /// calls did the same, its moments are no later, and the latest moments at which its calls may
    /// take effect are no later.
    pub fn serves(&self, other: &TimedPair) -> bool
        ensures { IsTrue result → CanReplace self.now other.now }
    {
        if !self.put.deal.is_same(other.put.deal) || !self.take.deal.is_same(other.take.deal) {
            return false;
        }
        if self.put_moment > other.put_moment || self.take_moment > other.take_moment {
            return false;
        }
        self.put.span.last <= other.put.span.last && self.take.span.last <= other.take.span.last
    }
}

impl NextEntries {
    /// The next entries of a table at a standing.
    pub fn of(table: &Table, standing: &PairState) -> NextEntries
        ensures { AreNextEntries table.now standing.now result }
    {
        let puts = table.next_puts(&standing.puts);
        let takes = table.next_takes(&standing.takes);
        let put_limit = least_last(&puts);
        let take_limit = least_last(&takes);
        let find_first = table.find_first(standing.found);
        let find_limit = table.find_limit(standing.found);
        NextEntries {
            puts,
            takes,
            find_first,
            put_limit,
            take_limit,
            find_limit,
        }
    }

    /// The next put of a caller.
    pub fn put(&self, caller: usize) -> Option<TimedCall>
        ensures { result ≡ slice_index_or self.now.puts caller None }
    {
        if caller < MAX_CALLERS {
            self.puts[caller]
        } else {
            None
        }
    }

    /// The next take of a caller.
    pub fn take(&self, caller: usize) -> Option<TimedCall>
        ensures { result ≡ slice_index_or self.now.takes caller None }
    {
        if caller < MAX_CALLERS {
            self.takes[caller]
        } else {
            None
        }
    }

    /// Whether a standing with these next entries covers all answered takes, and the answered puts
    /// that it doesn't cover may still take effect.
    pub fn is_whole(&self, standing: &PairState) -> bool
        ensures { IsTrue result ↔ ((NEVER ≤ self.now.find_first) × (NEVER ≤ self.now.take_limit)
            × (standing.now.put_moment ≤ self.now.put_limit)) }
    {
        self.find_first >= NEVER
            && self.take_limit >= NEVER
            && standing.put_moment <= self.put_limit
    }

    /// Whether the latest moment of some remaining put is before `put_moment`, or that of some
    /// remaining take is before `take_moment`, so that no step may come next at these moments.
    pub fn is_past(&self, put_moment: u64, take_moment: u64) -> bool
        ensures { IsTrue result ↔ IsPast self.now put_moment take_moment }
    {
        put_moment > self.put_limit
            || take_moment > self.take_limit
            || take_moment > self.find_limit
    }
}

// The least of the latest moments at which `calls` may take effect, or `NEVER` where there are no
// calls.
fn least_last(calls: &[Option<TimedCall>; MAX_CALLERS]) -> u64
    ensures { IsLeastOf (λ i. last_of (slice_index_or calls.now i None)) MAX_CALLERS result }
{
    let mut least = NEVER;
    for i in 0..MAX_CALLERS {
        least = least.min(last_of(calls[i]));
    }
    least
}

// The latest moment at which a call may take effect, or `NEVER` where there is no call.
fn last_of(timed: Option<TimedCall>) -> u64
    ensures { result ≡ last_of timed }
{
    match timed {
        Some(timed) => timed.span.last,
        None => NEVER,
    }
}
