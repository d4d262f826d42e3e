ghost use Rattle.std.specs.Prelude.{IfOk};
ghost use Rattle.set_order.specs.Verdict.{IsRightSetVerdict};

use crate::place_set::PlaceSet;
use crate::search::SetSearch;
use crate::set_object::SetObject;
use book_base::{Book, NoMemory};
use std::alloc::Global;

/// Whether a book has a legal set order.
#[derive(Debug, Drop)]
pub enum SetVerdict {
    /// The book has this legal set order.
    Legal(Vec<PlaceSet>),
    /// The book has no legal set order.
    Illegal,
}

/// Looks for a legal set order of a book: `Legal` carries one, and `Illegal` is the answer where
/// there is none.
///
/// The search goes depth first through the pairs of a cut and a list, and remembers those that are
/// dead ends (after Wing and Gong 1993, and Lowe 2017). A set is taken of the callers' next calls
/// that no call outside the cut precedes, and the search gives a pair up where an answered call
/// can't get its reply any more.
pub fn check_sets<O: SetObject>(
    alloc: Global,
    object: &O,
    book: &Book,
) -> Result<SetVerdict, NoMemory>
    // The answer `Legal` carries a legal set order of the book, and `Illegal` comes only where the
    // book has none.
    ensures verdict { IfOk result (λ verdict.
        IsRightSetVerdict (O.init object.now) (O.served object.now) book.now verdict) }
{
    let search = SetSearch {
        alloc,
        object,
        book,
    };
    match search.run()? {
        None => Ok(SetVerdict::Illegal),
        Some(order) => Ok(SetVerdict::Legal(order)),
    }
}
