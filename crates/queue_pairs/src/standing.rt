ghost use Rattle.std.specs.Prelude.{◌≡◌, ◌<◌, IsTrue, ◌+◌, slice_set};
ghost use Rattle.book_base.specs.declared.TheConstants.{MAX_CALLERS, MAX_CALLS};
ghost use Rattle.queue_pairs.specs.NextEntries.{paired, pair_of};
ghost use Rattle.queue_pairs.specs.Pairs.{Pairs, FindNothing, after, none_paired};

use crate::next_entries::TimedPair;
use book_base::{Call, MAX_CALLERS, MAX_CALLS};

/// A standing: how far a queue's book has been paired. It covers of each caller the puts and the
/// takes below a number, and the takes that find nothing and that some view holds up to a moment;
/// and it has the moments of the last put and of the last take.
///
/// A search gives each pair the earliest moments that it may have. Whatever steps lead on from a
/// standing with the same calls and later moments lead on from the one with the earliest too.
#[derive(Clone, Copy, Debug, PartialEq, Eq, Hash)]
pub struct PairState {
    pub puts: [u16; MAX_CALLERS],
    pub takes: [u16; MAX_CALLERS],
    pub found: u64,
    pub put_moment: u64,
    pub take_moment: u64,
}

impl PairState {
    /// The standing that covers no call.
    pub fn start() -> PairState
        ensures { paired result ≡ none_paired MAX_CALLERS }
    {
        PairState {
            puts: [0; MAX_CALLERS],
            takes: [0; MAX_CALLERS],
            found: 0,
            put_moment: 0,
            take_moment: 0,
        }
    }

    /// The standing that covers a pair too.
    pub fn with_pair(self, pair: &TimedPair) -> PairState
        ensures { pair.now.put.call.caller < MAX_CALLERS → pair.now.put.call.number < MAX_CALLS
            → pair.now.take.call.caller < MAX_CALLERS → pair.now.take.call.number < MAX_CALLS
            → paired result ≡ after (paired self) (Pairs (pair_of pair.now)) }
    {
        let mut standing = self;
        raise(&mut standing.puts, pair.put.call);
        raise(&mut standing.takes, pair.take.call);
        standing.put_moment = pair.put_moment;
        standing.take_moment = pair.take_moment;
        standing
    }

    /// The standing that also covers the takes that find nothing and that some view holds up to a
    /// moment. A later put or take has no earlier moment.
    pub fn with_finds(self, moment: u64) -> PairState
        ensures { paired result ≡ after (paired self) (FindNothing moment) }
    {
        let mut standing = self;
        standing.found = moment;
        standing.put_moment = moment;
        standing.take_moment = moment;
        standing
    }

    /// Whether two standings cover the same calls with the same moments.
    pub fn is_same(&self, other: &PairState) -> bool
        ensures { IsTrue result → self.now ≡ other.now }
    {
        if self.puts != other.puts || self.takes != other.takes {
            return false;
        }
        self.found == other.found
            && self.put_moment == other.put_moment
            && self.take_moment == other.take_moment
    }
}

// Sets the number of a call's caller to the call's number plus 1, so that it covers the call and
// all earlier calls of the caller. Nothing changes where the call's caller isn't below
// `MAX_CALLERS`, or its number isn't below `MAX_CALLS`.
fn raise(numbers: &mut [u16; MAX_CALLERS], call: Call)
    ensures { call.caller < MAX_CALLERS → call.number < MAX_CALLS
        → numbers.new ≡ slice_set numbers.old call.caller (call.number + 1) }
{
    let caller = call.caller as usize;
    if caller < MAX_CALLERS && call.number < MAX_CALLS {
        numbers[caller] = call.number as u16 + 1;
    }
}
