ghost use Rattle.std.specs.Prelude.{◌≡◌, ℕ, [], IfOk};
ghost use Rattle.search_hints.specs.Decision.{IsRightDecision};
ghost use Rattle.legal_orders.specs.Container.{IsContainer};
ghost use Rattle.list_pruning.specs.LastFirst.{GivesLastFirst};

use crate::closure::Closure;
use crate::order::calls_to;
use crate::runs::RunSearch;
use crate::search::{LevelSearch, LevelsFound};
use crate::stack_book::StackBook;
use crate::table::LevelTable;
use book_base::{Book, NoMemory, SeqObject};
use legal_orders::Reader;
use list_pruning::sight_of_values;
use order_check::check_order;
use queue_pairs::{Table, places_of, refute_by_counts};
use search_hints::{Decision, has_one_open};
use std::alloc::Global;

/// Decides a stack's book by a search of pairs of a level and a cut, as pushdown systems are
/// searched (Bouajjani, Esparza and Maler 1997). The search keeps no lists of the stack.
///
/// Counts of puts and takes are compared first: where they contradict one another, the book has no
/// legal order, and there is no search.
///
/// The search isn't trusted: an order that it finds is judged, and isn't delivered where it isn't
/// legal; and a table of pairs from which it finds no order is checked once more. No clause says
/// for which books a decision is made: where none is made, only time is lost.
pub fn decide_stack<S: SeqObject, R: Reader>(
    alloc: Global,
    stack: &S,
    reader: &R,
    book: &Book,
) -> Result<Decision, NoMemory>
    // The object gives its last value first, as the reader reads it, and its values are below a
    // bound.
    requires stack { (bound : ℕ)
        × GivesLastFirst (R.reading reader.now) (S.spec stack.now).next bound }
    // The object begins with the empty list.
    requires empty { (S.spec stack.now).init ≡ [] }
    // The object is a container: it gives out only what was put in.
    requires container { IsContainer (R.reading reader.now) (S.spec stack.now).next }
    // The first list of the object holds no value.
    requires nothing { (R.reading reader.now).values (S.spec stack.now).init ≡ [] }
    // `Order` is answered with a legal order of the book, and `NoOrder` only where the book has
    // none.
    ensures { IfOk result (IsRightDecision (S.spec stack.now) book.now) }
{
    if !has_one_open(book) {
        return Ok(Decision::Unsaid);
    }
    let sight = sight_of_values(alloc, reader, book)?;
    let calls = Table::of(alloc, reader, book)?;
    if refute_by_counts(alloc, &calls)? {
        return Ok(Decision::NoOrder);
    }
    let on = StackBook {
        reader,
        sight: &sight,
        book,
    };
    let runs = RunSearch {
        levels: LevelSearch { alloc, on: &on },
        calls: &calls,
    };
    if let LevelsFound::Whole(table, place) = runs.run()? {
        return order_of(alloc, stack, book, &table, place);
    }
    let search = LevelSearch { alloc, on: &on };
    match search.run()? {
        LevelsFound::Whole(table, place) => order_of(alloc, stack, book, &table, place),
        LevelsFound::DeadEnds(table) => {
            let closure = Closure {
                on: &on,
                table: &table,
            };
            if closure.refute() {
                return Ok(Decision::NoOrder);
            }
            Ok(Decision::Unsaid)
        }
        LevelsFound::Unsaid => Ok(Decision::Unsaid),
    }
}

// The decision with the calls that lead from the start to a node, in order, where this order is
// legal; else `Unsaid`.
fn order_of<S: SeqObject>(
    alloc: Global,
    stack: &S,
    book: &Book,
    table: &LevelTable,
    place: usize,
) -> Result<Decision, NoMemory>
    ensures { IfOk result (IsRightDecision (S.spec stack.now) book.now) }
{
    let calls = calls_to(alloc, table, place)?;
    let Some(places) = places_of(alloc, stack, book, &calls)? else {
        return Ok(Decision::Unsaid);
    };
    match check_order(alloc, stack, book, &places)? {
        Ok(()) => Ok(Decision::Order(places)),
        Err(_) => Ok(Decision::Unsaid),
    }
}
