//! The moves at a standing, as the next entries of a table tell them.

ghost use Rattle.std.specs.Prelude.{◌≡◌, ◌↔◌, ℕ, ◌<◌, List, IfSome, IfNone, IsTrue};
ghost use Rattle.book_base.specs.Book.{Page};
ghost use Rattle.legal_orders.specs.Container.{Reading};
ghost use Rattle.queue_pairs.specs.declared.TheConstants.{NEVER};
ghost use Rattle.queue_pairs.specs.Pairs.{Pair};
ghost use Rattle.queue_pairs.specs.NextEntries.{paired, pair_of, IsNextPair, CanReplace};
ghost use Rattle.queue_pairs.specs.Tables.{IsTable};
ghost use Rattle.pair_refutations.specs.Moves.{IsPairMove, IsFindMove, IsOfCallers};
ghost use Rattle.pair_refutations.specs.Closed.{IsLate, IsWholeStanding};
ghost use Rattle.pair_refutations.specs.Tabled.{IsEarly, MayTake, MakesMove, OfEach};

use book_base::MAX_CALLERS;
use queue_pairs::{NEVER, NextEntries, PairState, QueueDeal, Table, TimedPair};

/// The move by the next put of one caller and the next take of another, where there is one.
pub(crate) fn pair_move(
    standing: &PairState,
    next: &NextEntries,
    putter: u64,
    taker: u64,
) -> Option<TimedPair>
    requires { IsEarly standing.now }
    ensures next { IfSome result (λ pair. OfEach standing.now next.now (λ reading book table.
        IsNextPair table standing.now pair)) }
    ensures pair { IfSome result (λ pair. OfEach standing.now next.now (λ reading book table.
        IsOfCallers putter taker (pair_of pair)
        × IsPairMove reading book (paired standing.now) (pair_of pair))) }
    ensures early { IfSome result (λ pair.
        (pair.put_moment < NEVER) × (pair.take_moment < NEVER)) }
    ensures none { IfNone result (OfEach standing.now next.now (λ reading book table.
        (pair : Pair) → IsOfCallers putter taker pair
        → IsPairMove reading book (paired standing.now) pair → ⊥)) }
{
    if putter >= MAX_CALLERS as u64 || taker >= MAX_CALLERS as u64 {
        return None;
    }
    let Some(put) = next.put(putter as usize) else {
        return None;
    };
    let Some(take) = next.take(taker as usize) else {
        return None;
    };
    let pair = TimedPair::earliest(standing, put, take);
    if makes_move(&pair) { Some(pair) } else { None }
}

// Whether a pair's calls make a move at its moments.
fn makes_move(pair: &TimedPair) -> bool
    ensures { IsTrue result ↔ MakesMove pair.now }
{
    let put = &pair.put;
    let take = &pair.take;
    if !put.is_held() || !take.is_held() || !may_take(put.deal, take.deal) {
        return false;
    }
    if !put.is_answered() && !take.is_answered() {
        return false;
    }
    pair.put_moment <= put.span.last && pair.take_moment <= take.span.last
}

// Whether a take may take out what a put puts in: it shows this value, or is unanswered.
fn may_take(put: QueueDeal, take: QueueDeal) -> bool
    ensures { IsTrue result ↔ MayTake put take }
{
    match (put, take) {
        (QueueDeal::Put(value), QueueDeal::Took(shown)) => value == shown,
        (QueueDeal::Put(_), QueueDeal::OpenTake) => true,
        _ => false,
    }
}

/// The moment of the move by takes that find nothing, where there is one.
pub(crate) fn find_move(standing: &PairState, next: &NextEntries) -> Option<u64>
    ensures find { IfSome result (λ g. OfEach standing.now next.now (λ reading book table.
        IsFindMove reading book (paired standing.now) g)) }
    ensures early { IfSome result (λ g. IsEarly standing.now → g < NEVER) }
    ensures none { IfNone result (OfEach standing.now next.now (λ reading book table.
        (g : ℕ) → IsFindMove reading book (paired standing.now) g → ⊥)) }
{
    if next.find_first >= NEVER {
        return None;
    }
    Some(standing.take_moment.max(next.find_first))
}

/// Whether a standing with these next entries is whole.
pub(crate) fn is_whole(standing: &PairState, next: &NextEntries) -> bool
    ensures { OfEach standing.now next.now (λ reading book table.
        IsTrue result ↔ IsWholeStanding reading book (paired standing.now)) }
{
    let _standing = standing;
    if next.find_first < NEVER {
        return false;
    }
    if next.take_limit < NEVER {
        return false;
    }
    true
}

/// Whether a standing is late.
pub(crate) fn is_late(table: &Table, standing: &PairState) -> bool
    ensures { IsEarly standing.now → (reading : Reading) (book : List Page)
        → IsTable reading book table.now
        → IsTrue result ↔ IsLate reading book (paired standing.now) }
{
    let next = NextEntries::of(table, standing);
    next.is_past(standing.put_moment, standing.take_moment)
}

/// Whether a pair may be tried in place of another one: its calls did the same, its moments are no
/// later, and its calls are due no later.
pub(crate) fn can_replace(other: &TimedPair, pair: &TimedPair) -> bool
    ensures { IsTrue result ↔ CanReplace other.now pair.now }
{
    is_same(other.put.deal, pair.put.deal)
        && is_same(other.take.deal, pair.take.deal)
        && other.put_moment <= pair.put_moment
        && other.take_moment <= pair.take_moment
        && other.put.span.last <= pair.put.span.last
        && other.take.span.last <= pair.take.span.last
}

// Whether two calls did the same, with the same value.
fn is_same(one: QueueDeal, other: QueueDeal) -> bool
    ensures { IsTrue result ↔ (one ≡ other) }
{
    match (one, other) {
        (QueueDeal::Put(value), QueueDeal::Put(others)) => value == others,
        (QueueDeal::Took(value), QueueDeal::Took(others)) => value == others,
        (QueueDeal::FoundNothing, QueueDeal::FoundNothing) => true,
        (QueueDeal::OpenTake, QueueDeal::OpenTake) => true,
        (QueueDeal::Other, QueueDeal::Other) => true,
        _ => false,
    }
}
