ghost use Rattle.std.specs.Prelude.{◌≡◌, ◌↔◌, ◌⊎◌, ℕ, ◌<◌, List, length, IfSome, IsTrue};
ghost use Rattle.book_base.specs.Book.{IsCall, IsAnswered};
ghost use Rattle.book_base.specs.Next.{next_call};
ghost use Rattle.book_base.specs.Pruning.{HasOneOpen, IsForced};
ghost use Rattle.search_hints.specs.Marks.{IsMarked, IsMarkedWithin, MarksAllNext, MarksSuffice};
ghost use Rattle.list_pruning.specs.Sights.{ListsValues};
ghost use Rattle.list_pruning.specs.HoldsLast.{HoldsLast, IsIrreplaceable, IsNeedless, IsRead, IsUnreadWrite, IsWritten, WritesAnother, WritesUnread};

use crate::outside::{is_read, is_written};
use crate::values::value_put;
use book_base::{Book, Call, Cut};
use legal_orders::Reader;
use search_hints::{MarkedCallers, Sight};

/// The callers whose next calls a search has to try, in the book of a register that holds a value:
/// some of the marked callers, and these marks suffice. No clause says which.
///
/// - Where no answered call outside the cut reads the value held, and a marked caller's next call
///   is an answered write of a value that no answered call outside the cut reads either, the answer
///   is one such caller alone.
/// - Otherwise the answer is all marked callers but some whose next calls are writes. Left out are
///   unanswered writes of a value that no answered call outside the cut reads. Where an answered
///   call outside the cut reads the value held, and no call outside it writes that value, all
///   writes of other values are left out too.
pub fn narrow_holds_last<R: Reader>(
    reader: &R,
    sight: &Sight,
    book: &Book,
    cut: &Cut,
    held: u64,
    forced: u32,
    marks: MarkedCallers,
) -> MarkedCallers
    // The sight lists each call of the book that puts in a value, and each answered one that takes
    // it out.
    requires sight { ListsValues (R.reading reader.now) book.now sight.now }
    // Each view of the book holds at most one unanswered call of each caller.
    requires open { HasOneOpen book.now }
    // The cut has a count for each caller of the book.
    requires wide { length cut.now ≡ length book.now }
    // Of all answered calls outside the cut the forced caller's first one has the least view.
    requires forced { IsForced book.now cut.now forced }
    // Exactly those callers are marked whose next calls after the cut may come next.
    requires marks { MarksAllNext book.now cut.now marks }
    // Each caller that the answer marks was marked.
    ensures fewer { IsMarkedWithin result marks }
    // For each object that holds the value written last, and each list at which it holds `held`:
    // where places continue an order from the cut and the list, as many places or fewer that begin
    // with the next call of a caller that the answer marks do too.
    ensures suffice { (held_in : List ℕ → ℕ) (next : List ℕ → ℕ → List ℕ × ℕ) (list : List ℕ)
        → HoldsLast (R.reading reader.now) held_in next
        → held_in list ≡ held → MarksSuffice book.now next cut.now list result }
{
    let _callers = book.callers();
    match unread_write(reader, sight, book, cut, held, marks) {
        Some(caller) => MarkedCallers::only(caller),
        None => without_needless(reader, sight, book, cut, held, marks),
    }
}

// A marked caller whose next call is answered and writes a value that no answered call outside the
// cut reads, where no answered call outside the cut reads the value held.
fn unread_write<R: Reader>(
    reader: &R,
    sight: &Sight,
    book: &Book,
    cut: &Cut,
    held: u64,
    marks: MarkedCallers,
) -> Option<u32>
    requires sight { ListsValues (R.reading reader.now) book.now sight.now }
    requires wide { length cut.now ≡ length book.now }
    requires marks { MarksAllNext book.now cut.now marks }
    ensures caller { IfSome result (λ i. i < length book.now) }
    ensures marked { IfSome result (IsMarked marks) }
    ensures write { IfSome result (WritesUnread (R.reading reader.now) book.now cut.now held) }
{
    if is_read(reader, sight, book, cut, held) {
        return None;
    }
    for caller in 0..book.callers() {
        if marks.has(caller) && writes_unread(reader, sight, book, cut, caller) {
            return Some(caller);
        }
    }
    None
}

// Whether a caller's next call is answered and writes a value that no answered call outside the cut
// reads.
fn writes_unread<R: Reader>(reader: &R, sight: &Sight, book: &Book, cut: &Cut, caller: u32) -> bool
    requires sight { ListsValues (R.reading reader.now) book.now sight.now }
    requires wide { length cut.now ≡ length book.now }
    requires caller { caller < length book.now }
    requires call { IsCall book.now (next_call cut.now caller) }
    ensures { IsTrue result
        → IsUnreadWrite (R.reading reader.now) book.now cut.now (next_call cut.now caller)
        × IsAnswered book.now (next_call cut.now caller) }
{
    let number = cut.get(caller);
    if number >= book.answers(caller) {
        return false;
    }
    is_unread_write(reader, sight, book, cut, Call { caller, number })
}

// The marked callers but those whose next calls needn't be tried at a register that holds `held`.
fn without_needless<R: Reader>(
    reader: &R,
    sight: &Sight,
    book: &Book,
    cut: &Cut,
    held: u64,
    marks: MarkedCallers,
) -> MarkedCallers
    requires sight { ListsValues (R.reading reader.now) book.now sight.now }
    requires wide { length cut.now ≡ length book.now }
    requires marks { MarksAllNext book.now cut.now marks }
    ensures fewer { IsMarkedWithin result marks }
    ensures needless { (i : ℕ) → IsMarked marks i → IsMarked result i
        ⊎ IsNeedless (R.reading reader.now) book.now cut.now held i }
{
    let irreplaceable = is_irreplaceable(reader, sight, book, cut, held);
    let mut left = marks;
    for caller in 0..book.callers() {
        if marks.has(caller) && is_needless(reader, sight, book, cut, held, irreplaceable, caller) {
            left = left.without(caller);
        }
    }
    left
}

// Whether a caller's next call writes another value than `held` where `held` is irreplaceable,
// since calls outside the cut read it and none writes it, or is unanswered and writes a value that
// no answered call outside the cut reads.
fn is_needless<R: Reader>(
    reader: &R,
    sight: &Sight,
    book: &Book,
    cut: &Cut,
    held: u64,
    irreplaceable: bool,
    caller: u32,
) -> bool
    requires sight { ListsValues (R.reading reader.now) book.now sight.now }
    requires wide { length cut.now ≡ length book.now }
    requires irreplaceable { IsTrue irreplaceable
        → IsIrreplaceable (R.reading reader.now) book.now cut.now held }
    requires caller { caller < length book.now }
    requires call { IsCall book.now (next_call cut.now caller) }
    ensures { IsTrue result → IsNeedless (R.reading reader.now) book.now cut.now held caller }
{
    let number = cut.get(caller);
    let call = Call { caller, number };
    if irreplaceable && writes_another(reader, book, call, held) {
        return true;
    }
    if number < book.answers(caller) {
        return false;
    }
    is_unread_write(reader, sight, book, cut, call)
}

// Whether a call writes another value than `held`.
fn writes_another<R: Reader>(reader: &R, book: &Book, call: Call, held: u64) -> bool
    requires { IsCall book.now call }
    ensures { IsTrue result → WritesAnother (R.reading reader.now) book.now call held }
{
    match value_put(reader, book, call) {
        Some(value) => value != held,
        None => false,
    }
}

// Whether a call writes a value that no answered call outside a cut reads.
fn is_unread_write<R: Reader>(reader: &R, sight: &Sight, book: &Book, cut: &Cut, call: Call) -> bool
    requires sight { ListsValues (R.reading reader.now) book.now sight.now }
    requires wide { length cut.now ≡ length book.now }
    requires call { IsCall book.now call }
    ensures { IsTrue result → IsUnreadWrite (R.reading reader.now) book.now cut.now call }
{
    match value_put(reader, book, call) {
        Some(value) => !is_read(reader, sight, book, cut, value),
        None => false,
    }
}

// Whether a value is read by an answered call outside a cut, and written by no call outside it.
fn is_irreplaceable<R: Reader>(
    reader: &R,
    sight: &Sight,
    book: &Book,
    cut: &Cut,
    value: u64,
) -> bool
    requires sight { ListsValues (R.reading reader.now) book.now sight.now }
    requires wide { length cut.now ≡ length book.now }
    ensures { IsTrue result ↔ IsIrreplaceable (R.reading reader.now) book.now cut.now value }
{
    is_read(reader, sight, book, cut, value) && !is_written(reader, sight, book, cut, value)
}
