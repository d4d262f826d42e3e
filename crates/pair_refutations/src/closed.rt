ghost use Rattle.std.specs.Prelude.{◌≡◌, ◌↔◌, ℕ, ◌+◌, ◌<◌, ◌≤◌, List, length, slice_get, Some, IfOk, IfErr, IfSome, IfNone, OnOk, IsOk, IsTrue, IsFalse};
ghost use Rattle.book_base.specs.declared.TheConstants.{MAX_CALLERS};
ghost use Rattle.book_base.specs.Book.{Page};
ghost use Rattle.legal_orders.specs.Container.{Reading};
ghost use Rattle.queue_pairs.specs.NextEntries.{paired, AreNextEntries, CanReplace};
ghost use Rattle.queue_pairs.specs.Pairs.{Paired, Pair, Pairs, FindNothing, after};
ghost use Rattle.queue_pairs.specs.Tables.{IsTable};
ghost use Rattle.pair_refutations.specs.Moves.{IsPairMove, IsOfCallers};
ghost use Rattle.pair_refutations.specs.Closed.{LeadsOn, IsServed, GoesOn, IsClosedStanding, MakesOf};
ghost use Rattle.pair_refutations.specs.Tabled.{standings_of, AreKnown, IsEarly, AreEarly, OfEach, IsOfBook, AreGoodTo, IsOpenAt, IsFirstOpen};

use crate::entry::{Move, PairEntry};
use crate::moves::{can_replace, find_move, is_late, is_whole, pair_move};
use crate::standings::Standings;
use book_base::{MAX_CALLERS, NoMemory};
use queue_pairs::{NextEntries, PairState, Table, TimedPair};
use std::alloc::Global;

/// Why a list of standings isn't closed.
#[derive(Clone, Copy)]
pub enum OpenFault {
    /// The standing with this number is whole.
    Whole(u64),
    /// This move at the standing with this number leads out of the list.
    Leads(u64, Move),
}

/// The standing that an entry makes, where it makes one.
pub(crate) fn made_by(table: &Table, standings: &Standings, entry: PairEntry) -> Option<PairState>
    requires table { IsOfBook table.now }
    requires early { AreEarly standings.now }
    ensures made { IfSome result (λ next. (reading : Reading) (book : List Page)
        → IsTable reading book table.now
        → MakesOf reading book (standings_of standings.now) entry (paired next)) }
    ensures early { IfSome result IsEarly }
    ensures none { IfNone result ((reading : Reading) (book : List Page) (next : Paired)
        → IsTable reading book table.now
        → MakesOf reading book (standings_of standings.now) entry next → ⊥) }
{
    let Some(base) = standings.get(entry.item) else {
        return None;
    };
    let next = NextEntries::of(table, &base);
    match entry.by {
        Move::Finds => match find_move(&base, &next) {
            Some(moment) => Some(base.with_finds(moment)),
            None => None,
        },
        Move::Callers(putter, taker) => match pair_move(&base, &next, putter, taker) {
            Some(pair) => Some(base.with_pair(&pair)),
            None => None,
        },
    }
}

/// Why a list of standings isn't closed: the first test that fails.
pub(crate) fn first_open(
    alloc: Global,
    table: &Table,
    standings: &Standings,
) -> Result<Option<OpenFault>, NoMemory>
    requires table { IsOfBook table.now }
    requires known { AreKnown standings.now }
    requires early { AreEarly standings.now }
    ensures fault { IfOk result (λ found. IfSome found (λ fault.
        (reading : Reading) (book : List Page) → IsTable reading book table.now
        → IsFirstOpen reading book (standings_of standings.now) fault)) }
    ensures closed { IfOk result (λ found. IfNone found ((number : ℕ) (s : Paired)
        → slice_get (standings_of standings.now) number ≡ Some s
        → (reading : Reading) (book : List Page) → IsTable reading book table.now
        → IsClosedStanding reading book (standings_of standings.now) s)) }
{
    let mut good = Vec::new(alloc);
    for number in 0..standings.all.len() as u64 {
        if let Some(fault) = first_open_at(table, standings, number, &mut good)? {
            return Ok(Some(fault));
        }
    }
    Ok(None)
}

// Why a list of standings isn't closed at the one with this number. What `good` has on entry goes.
fn first_open_at(
    table: &Table,
    standings: &Standings,
    number: u64,
    good: &mut Vec<TimedPair>,
) -> Result<Option<OpenFault>, NoMemory>
    requires table { IsOfBook table.now }
    requires known { AreKnown standings.now }
    requires early { AreEarly standings.now }
    ensures fault { IfOk result (λ found. IfSome found (λ fault.
        (reading : Reading) (book : List Page) → IsTable reading book table.now → (s : Paired)
        × (slice_get (standings_of standings.now) number ≡ Some s)
        × IsOpenAt reading book (standings_of standings.now) number s fault)) }
    ensures closed { IfOk result (λ found. IfNone found ((s : Paired)
        → slice_get (standings_of standings.now) number ≡ Some s
        → (reading : Reading) (book : List Page) → IsTable reading book table.now
        → IsClosedStanding reading book (standings_of standings.now) s)) }
{
    let Some(standing) = standings.get(number) else {
        return Ok(None);
    };
    let next = NextEntries::of(table, &standing);
    if is_whole(&standing, &next) {
        return Ok(Some(OpenFault::Whole(number)));
    }
    if !finds_lead(table, standings, &standing, &next) {
        return Ok(Some(OpenFault::Leads(number, Move::Finds)));
    }
    good_pairs(table, standings, &standing, &next, good)?;
    for putter in 0..MAX_CALLERS as u64 {
        if let Some(taker) = first_unserved(&standing, &next, good, putter) {
            return Ok(Some(OpenFault::Leads(number, Move::Callers(putter, taker))));
        }
    }
    Ok(None)
}

// Whether the move by takes that find nothing, where there is one, leads to one of the list or to a
// late standing.
fn finds_lead(
    table: &Table,
    standings: &Standings,
    standing: &PairState,
    next: &NextEntries,
) -> bool
    requires known { AreKnown standings.now }
    requires early { IsEarly standing.now }
    requires next { AreNextEntries table.now standing.now next.now }
    ensures { (reading : Reading) (book : List Page) → IsTable reading book table.now
        → IsTrue result
        ↔ GoesOn reading book (standings_of standings.now) (paired standing.now) Move.Finds }
{
    match find_move(standing, next) {
        Some(moment) => leads_on(table, standings, &standing.with_finds(moment)),
        None => true,
    }
}

// Whether a standing is one of the list, or late.
fn leads_on(table: &Table, standings: &Standings, standing: &PairState) -> bool
    requires known { AreKnown standings.now }
    requires early { IsEarly standing.now }
    ensures { (reading : Reading) (book : List Page) → IsTable reading book table.now
        → IsTrue result ↔ LeadsOn reading book (standings_of standings.now) (paired standing.now) }
{
    standings.has(standing) || is_late(table, standing)
}

// Makes `good` the moves by pairs that lead to one of the list or to a late standing.
fn good_pairs(
    table: &Table,
    standings: &Standings,
    standing: &PairState,
    next: &NextEntries,
    good: &mut Vec<TimedPair>,
) -> Result<(), NoMemory>
    requires table { IsOfBook table.now }
    requires known { AreKnown standings.now }
    requires early { IsEarly standing.now }
    requires next { AreNextEntries table.now standing.now next.now }
    ensures { OnOk result ((reading : Reading) (book : List Page) → IsTable reading book table.now
        → AreGoodTo reading book table.now (standings_of standings.now) standing.now MAX_CALLERS 0
        good.new.items) }
{
    good.clear();
    for putter in 0..MAX_CALLERS as u64 {
        add_good_of(table, standings, standing, next, good, putter)?;
    }
    Ok(())
}

// Adds the moves by pairs of a caller's next put that lead to one of the list or to a late
// standing.
fn add_good_of(
    table: &Table,
    standings: &Standings,
    standing: &PairState,
    next: &NextEntries,
    good: &mut Vec<TimedPair>,
    putter: u64,
) -> Result<(), NoMemory>
    requires table { IsOfBook table.now }
    requires known { AreKnown standings.now }
    requires early { IsEarly standing.now }
    requires next { AreNextEntries table.now standing.now next.now }
    ensures { OnOk result ((reading : Reading) (book : List Page) → IsTable reading book table.now
        → AreGoodTo reading book table.now (standings_of standings.now) standing.now putter 0
        good.old.items
        → AreGoodTo reading book table.now (standings_of standings.now) standing.now (putter + 1) 0
        good.new.items) }
{
    for taker in 0..MAX_CALLERS as u64 {
        add_good(table, standings, standing, next, good, putter, taker)?;
    }
    Ok(())
}

// Adds the move by a pair of these callers, where there is one and it leads to one of the list or
// to a late standing.
fn add_good(
    table: &Table,
    standings: &Standings,
    standing: &PairState,
    next: &NextEntries,
    good: &mut Vec<TimedPair>,
    putter: u64,
    taker: u64,
) -> Result<(), NoMemory>
    requires table { IsOfBook table.now }
    requires known { AreKnown standings.now }
    requires early { IsEarly standing.now }
    requires next { AreNextEntries table.now standing.now next.now }
    ensures { OnOk result ((reading : Reading) (book : List Page) → IsTable reading book table.now
        → AreGoodTo reading book table.now (standings_of standings.now) standing.now putter taker
        good.old.items
        → AreGoodTo reading book table.now (standings_of standings.now) standing.now putter
        (taker + 1) good.new.items) }
{
    let Some(pair) = pair_move(standing, next, putter, taker) else {
        return Ok(());
    };
    if !leads_on(table, standings, &standing.with_pair(&pair)) {
        return Ok(());
    }
    good.push(pair)?;
    Ok(())
}

// The first caller whose next take makes, with the next put of a given caller, a move for which no
// good one serves.
fn first_unserved(
    standing: &PairState,
    next: &NextEntries,
    good: &[TimedPair],
    putter: u64,
) -> Option<u64>
    requires { IsEarly standing.now }
    ensures some { IfSome result (λ taker. OfEach standing.now next.now (λ reading book table.
        (standings : List Paired)
        → AreGoodTo reading book table standings standing.now MAX_CALLERS 0 good.now
        → (GoesOn reading book standings (paired standing.now) (Move.Callers putter taker) → ⊥)
        × ((j : ℕ) → j < taker
        → GoesOn reading book standings (paired standing.now) (Move.Callers putter j)))) }
    ensures none { IfNone result (OfEach standing.now next.now (λ reading book table.
        (standings : List Paired)
        → AreGoodTo reading book table standings standing.now MAX_CALLERS 0 good.now
        → (j : ℕ) → GoesOn reading book standings (paired standing.now) (Move.Callers putter j))) }
{
    for taker in 0..MAX_CALLERS as u64 {
        if !is_served(standing, next, good, putter, taker) {
            return Some(taker);
        }
    }
    None
}

// Whether some good move serves for the one by a pair of these callers, where there is one.
fn is_served(
    standing: &PairState,
    next: &NextEntries,
    good: &[TimedPair],
    putter: u64,
    taker: u64,
) -> bool
    requires { IsEarly standing.now }
    ensures { OfEach standing.now next.now (λ reading book table. (standings : List Paired)
        → AreGoodTo reading book table standings standing.now MAX_CALLERS 0 good.now
        → IsTrue result
        ↔ GoesOn reading book standings (paired standing.now) (Move.Callers putter taker)) }
{
    match pair_move(standing, next, putter, taker) {
        Some(pair) => some_replaces(good, &pair),
        None => true,
    }
}

// Whether one of these pairs may be tried in place of a given one.
fn some_replaces(good: &[TimedPair], pair: &TimedPair) -> bool
    ensures { IsTrue result ↔ ((k : ℕ) × (other : TimedPair)
        × (slice_get good.now k ≡ Some other) × CanReplace other pair.now) }
{
    for other in good {
        if can_replace(other, pair) {
            return true;
        }
    }
    false
}
