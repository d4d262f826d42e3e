ghost use Rattle.std.specs.Prelude.{IfOk};
ghost use Rattle.frontier_check.specs.Verdict.{IsRight};
ghost use Rattle.own_objects.specs.Objects.{object_of};

use crate::object::OwnObject;
use crate::telling::{promise_reads, tell_step};
use book_base::{Book, NoMemory};
use frontier_check::Verdict;
use indexmap::IndexSet;
use std::alloc::Global;
use told_models::{Answer, ToldSearch, ToldTable};

/// Judges a book by an object of one's own.
///
/// The search asks for the steps that it lacks, and each is made by the object. States that compare
/// as equal are one to the search, so few states are judged soon. An object with many states and
/// many overlapping calls may take very long.
pub fn judge_own<O: OwnObject>(alloc: Global, object: &O, book: &Book) -> Result<Verdict, NoMemory>
    // A verdict `Legal` carries a legal order of the book for the object, and with `Illegal` the
    // book has none.
    ensures verdict { IfOk result
        (IsRight (object_of (O.initial object.now) (O.next object.now)) book.now) }
{
    let mut states = IndexSet::new(alloc);
    states.insert(object.initial(alloc)?)?;
    let mut table = ToldTable::new(alloc, 0);
    promise_reads(object, &states, &mut table, book)?;
    let mut search = ToldSearch::begin(alloc, &table, book)?;
    'asking: loop {
        let _init = table.init();
        match search.go_on(alloc, &table, book, u64::MAX)? {
            Some(Answer::Legal(order)) => return Ok(Verdict::Legal(order)),
            Some(Answer::Illegal) => return Ok(Verdict::Illegal),
            Some(Answer::Ask(state, op)) => {
                tell_step(alloc, object, &mut states, &mut table, state, op)?;
            }
            None => {}
        }
    }
}
