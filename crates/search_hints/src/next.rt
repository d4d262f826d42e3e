ghost use Rattle.std.specs.Prelude.{◌≡◌, ℕ, ◌<◌, ◌≤◌, ◌↔◌, length, slice_index, IfSome, IfNone, IsTrue, Some};
ghost use Rattle.book_base.specs.declared.TheConstants.{MAX_CALLERS};
ghost use Rattle.book_base.specs.declared.call.Record.{Record};
ghost use Rattle.book_base.specs.Book.{IsAnswered, record_of};
ghost use Rattle.book_base.specs.Next.{next_call, HoldsAnswered};
ghost use Rattle.book_base.specs.Pruning.{IsLeast, ViewsAreWithin};
ghost use Rattle.search_hints.specs.Marks.{MarksAllNext};

use crate::MarkedCallers;
use book_base::{Book, Call, Cut};

/// The caller whose first call outside a cut has the least view of all answered calls outside it;
/// there is none where the cut holds all answered calls.
pub fn least_open(book: &Book, counts: &[u16]) -> Option<u32>
    // The cut has a count for each caller of the book.
    requires { length counts.now ≡ length book.now }
    // Where the answer is a caller, its first call outside the cut is answered, with a view
    // within that of each answered call outside the cut.
    ensures least { IfSome result (IsLeast book.now counts.now (length book.now)) }
    // The answer is `None` only where the cut holds all answered calls.
    ensures none { IfNone result (HoldsAnswered book.now counts.now) }
{
    let mut least = None;
    for caller in 0..book.callers() {
        if u64::from(counts[caller as usize]) < book.answers(caller)
            && is_before(book, counts, caller, least)
        {
            least = Some(caller);
        }
    }
    least
}

// Whether the view of a caller's first call outside a cut is within that of the first call outside
// the cut of `other`. It is true where there is no other caller.
fn is_before(book: &Book, counts: &[u16], caller: u32, other: Option<u32>) -> bool
    requires wide { length counts.now ≡ length book.now }
    requires answered { IsAnswered book.now (next_call counts.now caller) }
    requires other { IfSome other (λ o. IsAnswered book.now (next_call counts.now o)) }
    ensures { IsTrue result ↔ IfSome other
        (λ o. ViewsAreWithin book.now (next_call counts.now caller) (next_call counts.now o)) }
{
    match other {
        None => true,
        Some(other) => {
            let view = first_view(book, counts, caller);
            view.within(first_view(book, counts, other))
        }
    }
}

/// The view of a caller's first call outside a cut.
pub fn first_view<'b>(book: &'b Book, counts: &[u16], caller: u32) -> &'b Cut
    // The cut has a count for each caller of the book.
    requires wide { length counts.now ≡ length book.now }
    // The caller's first call outside the cut is answered.
    requires answered { IsAnswered book.now (next_call counts.now caller) }
    // The answer is the view that the caller's first call outside the cut recorded.
    ensures view { (r : Record) → record_of book.now (next_call counts.now caller) ≡ Some r
        → r.view ≡ result.now }
    // The answer has a count for each caller of the book.
    ensures wide { length result.now ≡ length book.now }
{
    let number = u64::from(counts[caller as usize]);
    book.view(Call { caller, number })
}

/// The callers whose next calls may come next after a cut, where `first` is the caller whose first
/// call outside the cut has the least view of all answered calls outside it.
pub fn all_next(book: &Book, cut: &Cut, view: &Cut, first: u32) -> MarkedCallers
    // The cut has a count for each caller of the book.
    requires wide { length cut.now ≡ length book.now }
    // Of all answered calls outside the cut, the first one of the caller `first` has the least
    // view.
    requires first { IsLeast book.now cut.now (length book.now) first }
    // The given view is the view of the first call of `first` outside the cut.
    requires view { (r : Record) → record_of book.now (next_call cut.now first) ≡ Some r
        → r.view ≡ view.now }
    // The view has a count for each caller of the book.
    requires views { length view.now ≡ length book.now }
    // The answer marks exactly the callers whose next calls may come next.
    ensures { MarksAllNext book.now cut.now result }
{
    let mut marks = MarkedCallers::none();
    for caller in 0..book.callers() {
        if cut.get(caller) < view.get(caller) {
            marks = marks.with(caller);
        }
    }
    marks
}

/// The cut with these counts.
pub fn cut_of(counts: &[u16]) -> Cut
    // There is at least one count.
    requires some { 1 ≤ length counts.now }
    // There are no more counts than a book may have callers.
    requires few { length counts.now ≤ MAX_CALLERS }
    ensures { result ≡ counts.now }
{
    let callers = counts.len() as u32;
    let mut cut = Cut::zero(callers);
    for caller in 0..callers {
        cut.set(caller, u64::from(counts[caller as usize]));
    }
    cut
}
