ghost use Rattle.std.specs.Prelude.{◌≡◌, [], IfOk, IsTrue};
ghost use Rattle.search_hints.specs.Decision.{IsRightDecision};
ghost use Rattle.legal_orders.specs.Container.{IsQueue};
ghost use Rattle.queue_refutation.specs.DeadEnds.{QueueHasNoOrder};

use crate::clashes::refute_by_counts;
use crate::dead_ends::DeadEnds;
use book_base::{Book, NoMemory, SeqObject};
use indexmap::IndexSet;
use legal_orders::Reader;
use order_check::check_order;
use queue_pairs::{
    PairSearch, PairState, PairWalk, PairsFound, Surplus, Table, calls_in_order, places_of,
};
use search_hints::Decision;
use std::alloc::Global;

// The greatest number of steps of the search for pairs.
const STEPS: u64 = 500_000;

// The greatest number of steps of a second search, in which unanswered takes may take any value.
const STEPS_ANEW: u64 = 200_000;

/// Decides by pairs of puts and takes whether a queue's book has a legal order, or answers `Unsaid`
/// (after Henzinger, Sezgin and Vafeiadis 2013, whose order of puts and takes the pairs keep).
///
/// Counts of puts and takes are compared first: where they contradict one another, the book has no
/// legal order, and there is no search.
///
/// The search isn't trusted: the order that it finds is judged, and is answered only where it is
/// legal; and the standings that it entered without finding an order are checked once more. No
/// clause says how often the answer is a decision, since an undecided book costs time alone.
pub fn decide_queue<S: SeqObject, R: Reader>(
    alloc: Global,
    queue: &S,
    reader: &R,
    book: &Book,
) -> Result<Decision, NoMemory>
    // The object is a queue, as the reader reads it.
    requires queue { IsQueue (R.reading reader.now) (S.spec queue.now).next }
    // The object begins empty.
    requires empty { (R.reading reader.now).values (S.spec queue.now).init ≡ [] }
    // The decision is right for the object and the book.
    ensures { IfOk result (IsRightDecision (S.spec queue.now) book.now) }
{
    let table = Table::of(alloc, reader, book)?;
    if queue_pairs::refute_by_counts(alloc, &table)? {
        return Ok(Decision::NoOrder);
    }
    if refute_by_counts(alloc, &table, book)? {
        return Ok(Decision::NoOrder);
    }
    let surplus = Surplus::of(alloc, &table)?;
    let search = PairSearch {
        alloc,
        table: &table,
        surplus: &surplus,
        by_surplus: true,
        steps: STEPS,
    };
    match search.run()? {
        PairsFound::Pairs(walk) => order_of(alloc, queue, book, &table, &walk),
        PairsFound::DeadEnds(standings) => {
            if refute(book, &table, &standings) {
                return Ok(Decision::NoOrder);
            }
            if refute_anew(alloc, book, &table, &surplus)? {
                return Ok(Decision::NoOrder);
            }
            Ok(Decision::Unsaid)
        }
        PairsFound::Unsaid => Ok(Decision::Unsaid),
    }
}

// Whether the standings of a search in which unanswered takes may take any value show that the book
// has no legal order.
fn refute_anew(
    alloc: Global,
    book: &Book,
    table: &Table,
    surplus: &Surplus,
) -> Result<bool, NoMemory>
    ensures { IfOk result (λ refuted. IsTrue refuted → QueueHasNoOrder table.now book.now) }
{
    let search = PairSearch {
        alloc,
        table,
        surplus,
        by_surplus: false,
        steps: STEPS_ANEW,
    };
    match search.run()? {
        PairsFound::DeadEnds(standings) => Ok(refute(book, table, &standings)),
        PairsFound::Pairs(_) | PairsFound::Unsaid => Ok(false),
    }
}

// Whether the standings that a search entered show that the book has no legal order.
fn refute(book: &Book, table: &Table, standings: &IndexSet<PairState>) -> bool
    ensures { IsTrue result → QueueHasNoOrder table.now book.now }
{
    let ends = DeadEnds { table, standings };
    ends.refute(book)
}

// The decision by the order that the pairs of a walk make: that order if it is legal, else
// `Unsaid`.
fn order_of<S: SeqObject>(
    alloc: Global,
    queue: &S,
    book: &Book,
    table: &Table,
    walk: &PairWalk,
) -> Result<Decision, NoMemory>
    ensures { IfOk result (IsRightDecision (S.spec queue.now) book.now) }
{
    let order = calls_in_order(alloc, table, walk)?;
    let Some(places) = places_of(alloc, queue, book, &order)? else {
        return Ok(Decision::Unsaid);
    };
    match check_order(alloc, queue, book, &places)? {
        Ok(()) => Ok(Decision::Order(places)),
        Err(_) => Ok(Decision::Unsaid),
    }
}
