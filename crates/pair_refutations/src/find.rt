ghost use Rattle.std.specs.Prelude.{IfOk, IfSome, OnOk};
ghost use Rattle.pair_refutations.specs.Fault.{Refute};
ghost use Rattle.pair_refutations.specs.Tabled.{AreKnown, IsEarly, AreEarly, IsOfBook};

use crate::check::check_pairs;
use crate::closed::made_by;
use crate::entry::{Move, PairEntry};
use crate::moves::{can_replace, find_move, is_late, is_whole, pair_move};
use crate::standings::Standings;
use book_base::{Book, MAX_CALLERS, NoMemory};
use kind_search::QueueReader;
use queue_pairs::{NextEntries, PairState, Table, TimedPair};
use std::alloc::Global;

// The move by a pair of the next put of one caller and the next take of another.
#[derive(Clone, Copy)]
struct Pairing {
    putter: u64,
    taker: u64,
    pair: TimedPair,
}

/// Searches for entries that refute a queue's book, by breadth from the standing that covers no
/// call. Where a move serves for another one, this isn't made. The answer is `None` where the search
/// comes to a whole standing, as it does in each book with a legal order, or to more than `limit`
/// standings, or where the book isn't one that entries may refute.
///
/// The search isn't trusted: what it finds is judged. No clause says how often it finds entries.
pub fn find_pairs(
    alloc: Global,
    book: &Book,
    limit: u64,
) -> Result<Option<Vec<PairEntry>>, NoMemory>
    // The entries in the answer refute the book.
    ensures { IfOk result (λ found. IfSome found (λ entries. Refute book.now entries.items)) }
{
    let Some(entries) = search(alloc, book, limit)? else {
        return Ok(None);
    };
    match check_pairs(alloc, book, &entries)? {
        Ok(()) => Ok(Some(entries)),
        Err(_) => Ok(None),
    }
}

// The entries of all standings that a search by breadth comes to.
fn search(alloc: Global, book: &Book, limit: u64) -> Result<Option<Vec<PairEntry>>, NoMemory> {
    let table = Table::of(alloc, &QueueReader, book)?;
    let mut reached = Standings::start(alloc)?;
    let mut entries = Vec::new(alloc);
    for number in 0..limit {
        let Some(standing) = reached.get(number) else {
            return Ok(Some(entries));
        };
        if !expand(alloc, &table, &mut reached, &mut entries, number, &standing)? {
            return Ok(None);
        }
    }
    Ok(None)
}

// Adds the standings to which moves lead from the one with this number, with their entries. The
// answer is false where that one is whole.
fn expand(
    alloc: Global,
    table: &Table,
    reached: &mut Standings,
    entries: &mut Vec<PairEntry>,
    number: u64,
    standing: &PairState,
) -> Result<bool, NoMemory>
    requires table { IsOfBook table.now }
    requires known { AreKnown reached.old }
    requires early { AreEarly reached.old }
    requires here { IsEarly standing.now }
    ensures known { OnOk result (AreKnown reached.new) }
    ensures early { OnOk result (AreEarly reached.new) }
{
    let next = NextEntries::of(table, standing);
    if is_whole(standing, &next) {
        return Ok(false);
    }
    if find_move(standing, &next).is_some() {
        let entry = PairEntry {
            item: number,
            by: Move::Finds,
        };
        reach(table, reached, entries, entry)?;
    }
    let pairings = pairings_at(alloc, standing, &next)?;
    for putter in 0..MAX_CALLERS as u64 {
        reach_of(
            table, reached, entries, number, standing, &next, &pairings, putter,
        )?;
    }
    Ok(true)
}

// Adds the standings to which moves by pairs of a caller's next put lead.
fn reach_of(
    table: &Table,
    reached: &mut Standings,
    entries: &mut Vec<PairEntry>,
    number: u64,
    standing: &PairState,
    next: &NextEntries,
    pairings: &[Pairing],
    putter: u64,
) -> Result<(), NoMemory>
    requires table { IsOfBook table.now }
    requires known { AreKnown reached.old }
    requires early { AreEarly reached.old }
    requires here { IsEarly standing.now }
    ensures known { OnOk result (AreKnown reached.new) }
    ensures early { OnOk result (AreEarly reached.new) }
{
    for taker in 0..MAX_CALLERS as u64 {
        reach_by(
            table, reached, entries, number, standing, next, pairings, putter, taker,
        )?;
    }
    Ok(())
}

// Adds the standing to which the move by a pair of these callers leads, where there is one and no
// other one serves for it.
fn reach_by(
    table: &Table,
    reached: &mut Standings,
    entries: &mut Vec<PairEntry>,
    number: u64,
    standing: &PairState,
    next: &NextEntries,
    pairings: &[Pairing],
    putter: u64,
    taker: u64,
) -> Result<(), NoMemory>
    requires table { IsOfBook table.now }
    requires known { AreKnown reached.old }
    requires early { AreEarly reached.old }
    requires here { IsEarly standing.now }
    ensures known { OnOk result (AreKnown reached.new) }
    ensures early { OnOk result (AreEarly reached.new) }
{
    let Some(pair) = pair_move(standing, next, putter, taker) else {
        return Ok(());
    };
    let one = Pairing {
        putter,
        taker,
        pair,
    };
    if is_replaced(pairings, &one) {
        return Ok(());
    }
    let entry = PairEntry {
        item: number,
        by: Move::Callers(putter, taker),
    };
    reach(table, reached, entries, entry)
}

// Adds the standing that an entry makes, with the entry, where it is neither late nor reached before.
fn reach(
    table: &Table,
    reached: &mut Standings,
    entries: &mut Vec<PairEntry>,
    entry: PairEntry,
) -> Result<(), NoMemory>
    requires table { IsOfBook table.now }
    requires known { AreKnown reached.old }
    requires early { AreEarly reached.old }
    ensures known { OnOk result (AreKnown reached.new) }
    ensures early { OnOk result (AreEarly reached.new) }
{
    let Some(standing) = made_by(table, reached, entry) else {
        return Ok(());
    };
    if is_late(table, &standing) || reached.has(&standing) {
        return Ok(());
    }
    reached.push(standing)?;
    entries.push(entry)?;
    Ok(())
}

// The moves by pairs at a standing.
fn pairings_at(
    alloc: Global,
    standing: &PairState,
    next: &NextEntries,
) -> Result<Vec<Pairing>, NoMemory>
    requires { IsEarly standing.now }
{
    let mut pairings = Vec::new(alloc);
    for putter in 0..MAX_CALLERS as u64 {
        for taker in 0..MAX_CALLERS as u64 {
            if let Some(pair) = pair_move(standing, next, putter, taker) {
                pairings.push(Pairing {
                    putter,
                    taker,
                    pair,
                })?;
            }
        }
    }
    Ok(pairings)
}

// Whether another move serves for one of these; of two that serve for each other, the first one is
// made.
fn is_replaced(pairings: &[Pairing], one: &Pairing) -> bool {
    let mut is_before = true;
    for other in pairings {
        if other.putter == one.putter && other.taker == one.taker {
            is_before = false;
            continue;
        }
        if can_replace(&other.pair, &one.pair)
            && (is_before || !can_replace(&one.pair, &other.pair))
        {
            return true;
        }
    }
    false
}
