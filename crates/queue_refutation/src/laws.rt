//! Laws of closed lists of standings, and of counts of calls. Each is the contract of a function
//! with nothing in it.

ghost use Rattle.queue_refutation.specs.CountLaws.{TakesFollowPuts};
ghost use Rattle.queue_refutation.specs.RefutationLaws.{
  ClosedStandingsAreDead,
  ClosedStartsHaveNoOrder,
  PairsServeForThemselves,
  SuccessorsSuffice,
  UnansweredPairsAreIdle,
};

/// In a valid book with one open, no steps lead from a standing of a closed list to one that is
/// whole. If some did, fewer steps would lead to a whole one from some standing of the list, or no
/// more from a standing of it that covers more takes that find nothing, and so on without an end.
pub fn closed_standings_are_dead()
    // In a valid book with one open, no steps lead from a standing of a closed list to a whole one.
    ensures { ClosedStandingsAreDead }
{}

/// A valid book with one open has no legal order for a queue that begins empty, where a closed list
/// of standings has the one that covers no call.
pub fn closed_starts_have_no_order()
    // A valid book with one open has no legal order for a queue that begins empty, where a closed
    // list of standings has the one that covers no call.
    ensures { ClosedStartsHaveNoOrder }
{}

/// Steps lead from a standing, with counts for all callers of a book with one open, to a whole one.
/// Where their first step is a pair of unanswered calls, the steps after it lead from the same
/// standing to a whole one.
pub fn unanswered_pairs_are_idle()
    // Where steps from a standing, with counts for all callers of a book with one open, to a whole
    // one begin with a pair of unanswered calls, the steps after this pair lead from the same
    // standing to a whole one.
    ensures { UnansweredPairsAreIdle }
{}

/// A pair that may come next at a standing serves for itself there: it is as good as one that may
/// be tried in its stead. So a list of standings is closed where each of them has counts for all
/// callers of the book and isn't whole, its last put has no later moment than its last take, and
/// the list has the standing after each step that may come next at it.
pub fn successors_suffice()
    // A pair that may come next at a standing serves for itself there (`PairServesFor`): it meets
    // all demands on a pair that is tried in its stead.
    ensures serves { PairsServeForThemselves }
    // A list of standings is closed where each of them has counts for all callers of the book and
    // isn't whole, its last put has no later moment than its last take, and the list has the
    // standing after each step that may come next at it.
    ensures closed { SuccessorsSuffice }
{}

/// In a queue's book that has pairs, the values put in by one moment and those taken out by another
/// one are prefixes of one list. So where takes of a value by one moment are ahead of its puts by
/// another moment, the takes' moment is the later one, and no value's puts by the puts' moment are
/// ahead of the same value's takes by the takes' moment.
pub fn takes_follow_puts()
    ensures { TakesFollowPuts }
{}
