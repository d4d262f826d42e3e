ghost use Rattle.std.specs.Prelude.{◌≡◌, List, length, IfOk, IfSome};
ghost use Rattle.book_base.specs.Book.{Page};
ghost use Rattle.book_base.specs.Pruning.{HasOneOpen, IsForced, IsReached};
ghost use Rattle.search_hints.specs.declared.sight.Sight.{Sight};
ghost use Rattle.search_hints.specs.Decision.{IsRightDecision};
ghost use Rattle.search_hints.specs.Marks.{IsMarkedWithin, MarksAllNext, MarksSuffice};

use crate::decision::Decision;
use crate::marked_callers::MarkedCallers;
use crate::sight::Sight;
use book_base::{Book, Cut, NoMemory, SeqObject};
use std::alloc::Global;

/// A sequential object with what a search for a legal order may be told of its books. All methods
/// have defaults that tell nothing, so that an empty `impl` suffices for an object of one's own.
pub trait SearchHints: SeqObject {
    /// What the object promises of a sight that it prepares of a book.
    ghost sees: { Self → List Page → Sight → Type 0 } = { λ _ _ _. Unit {0} };

    /// What [`SearchHints::narrow`] looks at, made once for each book. The default prepares nothing,
    /// and an object that prepares nothing isn't asked to narrow.
    fn prepare(&self, alloc: Global, book: &Book) -> Result<Option<Sight>, NoMemory>
        // Where the answer is a sight, the object's `sees` holds of it and of the book.
        ensures { IfOk result (λ found. IfSome found (sees self.now book.now)) }
    {
        Ok(None)
    }

    /// The callers whose next calls a search is to try, after a cut and at a list: of the marked
    /// callers some that suffice. Often one caller alone suffices, and at a dead end none is
    /// needed. No clause says how few callers are left; the fewer, the less is tried. The forced
    /// caller is the one whose first call outside the cut has the least view of all answered calls
    /// outside it.
    fn narrow(
        &self,
        sight: &Sight,
        book: &Book,
        cut: &Cut,
        words: &[u64],
        forced: u32,
        marks: MarkedCallers,
    ) -> MarkedCallers
        // The object's `sees` holds of the book and the sight, as of each sight that it prepares.
        requires sight { sees self.now book.now sight.now }
        // Each view of the book holds at most one unanswered call of each caller.
        requires open { HasOneOpen book.now }
        // The cut has a count for each caller of the book.
        requires wide { length cut.now ≡ length book.now }
        // Some order reaches the cut and the list, and whatever places continue it make a legal
        // order with it.
        requires reached { IsReached (Self.spec self.now) book.now cut.now words.now }
        // Of all answered calls outside the cut the forced caller's first one has the least view.
        requires forced { IsForced book.now cut.now forced }
        // Exactly those callers are marked whose next calls after the cut may come next.
        requires marks { MarksAllNext book.now cut.now marks }
        // Each caller that the answer marks was marked.
        ensures fewer { IsMarkedWithin result marks }
        // Where places continue an order from the cut and the list, as many or fewer that begin
        // with the next call of a caller that the answer marks do too.
        ensures suffice { MarksSuffice book.now (Self.spec self.now).next cut.now words.now result }
    {
        marks
    }

    /// What the object says of a whole book without a search. The default says nothing.
    fn decide(&self, alloc: Global, book: &Book) -> Result<Decision, NoMemory>
        // An order in the answer is a legal one of the book, and the answer is `NoOrder` only where
        // the book has none.
        ensures { IfOk result (IsRightDecision (Self.spec self.now) book.now) }
    {
        Ok(Decision::Unsaid)
    }
}
