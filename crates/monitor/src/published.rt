ghost use Rattle.std.specs.Prelude.{◌≡◌, length, IfOk};
ghost use Rattle.book_base.specs.Cut.{IsWithin};
ghost use Rattle.book_base.specs.Book.{answered};
ghost use Rattle.monitor.specs.Published.{IsJudgedAt};

use crate::Witness;
use book_base::{Book, Cut, NoMemory};
use frontier_check::{Verdict, check};
use search_hints::SearchHints;
use std::alloc::Global;

/// Judges the book at a cut of `book`. The answer is a witness where the book at the cut has no
/// legal order, and `None` where it has one.
pub fn judge_at<S: SearchHints>(
    alloc: Global,
    object: &S,
    book: &Book,
    cut: &Cut,
) -> Result<Option<Witness>, NoMemory>
    // The cut has one count for each caller of the book.
    requires wide { length cut.now ≡ length book.now }
    // Each record that the cut holds is in the book.
    requires within { IsWithin cut.now (answered book.now) }
    // The answer is the book at the cut where this has no legal order, and no witness where it has
    // one.
    ensures { IfOk result (IsJudgedAt (S.spec object.now) book.now cut.now) }
{
    let part = book.at(alloc, cut)?;
    match check(alloc, object, &part)? {
        Verdict::Legal(_) => Ok(None),
        Verdict::Illegal => Ok(Some(Witness {
            cut: *cut,
            book: part,
        })),
    }
}
