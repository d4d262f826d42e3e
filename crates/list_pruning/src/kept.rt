ghost use Rattle.std.specs.Prelude.{◌≡◌, ℕ, ◌<◌, ◌≤◌, false, length, slice_index, IfSome, IsTrue};
ghost use Rattle.std.specs.List.{AllByRecursion};
ghost use Rattle.book_base.specs.Book.{IsAnswered, IsCall};
ghost use Rattle.search_hints.specs.Marks.{IsMarked, MarksAllNext};
ghost use Rattle.legal_orders.specs.Calls.{FindsNothing};
ghost use Rattle.list_pruning.specs.HoldsLast.{IsUnreadWrite};
ghost use Rattle.list_pruning.specs.Sights.{ListsValues};
ghost use Rattle.list_pruning.specs.LastFirst.{IsKept, IsKeptPut, IsNeverEmpty, PutsKept};

use crate::{is_read, value_put};
use book_base::{Book, Call, Cut};
use legal_orders::{Reader, Role};
use search_hints::{MarkedCallers, Sight};

/// A marked caller whose next call is answered and puts in a value that no answered call outside
/// the cut takes, where no answered call outside the cut takes any of `words`, and none finds
/// nothing. No clause says that such a caller is found: where none is, only time is lost.
pub fn kept_put<R: Reader>(
    reader: &R,
    sight: &Sight,
    book: &Book,
    cut: &Cut,
    words: &[u64],
    marks: MarkedCallers,
) -> Option<u32>
    requires sight { ListsValues (R.reading reader.now) book.now sight.now }
    requires wide { length cut.now ≡ length book.now }
    requires marks { MarksAllNext book.now cut.now marks }
    ensures caller { IfSome result (λ i. i < length book.now) }
    ensures marked { IfSome result (IsMarked marks) }
    ensures put { IfSome result (PutsKept (R.reading reader.now) book.now cut.now words.now) }
{
    let caller = next_kept_put(reader, sight, book, cut, marks)?;
    if !are_kept(reader, sight, book, cut, words) {
        return None;
    }
    if is_found_empty(reader, book, cut) {
        return None;
    }
    Some(caller)
}

// A marked caller whose next call is answered and puts in a value that no answered call outside the
// cut takes.
fn next_kept_put<R: Reader>(
    reader: &R,
    sight: &Sight,
    book: &Book,
    cut: &Cut,
    marks: MarkedCallers,
) -> Option<u32>
    requires sight { ListsValues (R.reading reader.now) book.now sight.now }
    requires wide { length cut.now ≡ length book.now }
    ensures caller { IfSome result (λ i. i < length book.now) }
    ensures marked { IfSome result (IsMarked marks) }
    ensures put { IfSome result (IsKeptPut (R.reading reader.now) book.now cut.now) }
{
    for caller in 0..book.callers() {
        if marks.has(caller) && is_kept_put(reader, sight, book, cut, caller) {
            return Some(caller);
        }
    }
    None
}

// Whether a caller's next call is answered and puts in a value that no answered call outside the
// cut takes.
fn is_kept_put<R: Reader>(reader: &R, sight: &Sight, book: &Book, cut: &Cut, caller: u32) -> bool
    requires sight { ListsValues (R.reading reader.now) book.now sight.now }
    requires wide { length cut.now ≡ length book.now }
    requires caller { caller < length book.now }
    ensures { IsTrue result → IsKeptPut (R.reading reader.now) book.now cut.now caller }
{
    let _callers = book.callers();
    let number = cut.get(caller);
    if number >= book.answers(caller) {
        return false;
    }
    puts_kept(reader, sight, book, cut, Call { caller, number })
}

// Whether a call puts in a value that no answered call outside the cut takes.
fn puts_kept<R: Reader>(reader: &R, sight: &Sight, book: &Book, cut: &Cut, call: Call) -> bool
    requires sight { ListsValues (R.reading reader.now) book.now sight.now }
    requires wide { length cut.now ≡ length book.now }
    requires call { IsCall book.now call }
    ensures { IsTrue result → IsUnreadWrite (R.reading reader.now) book.now cut.now call }
{
    match value_put(reader, book, call) {
        Some(value) => !is_read(reader, sight, book, cut, value),
        None => false,
    }
}

// Whether no answered call outside a cut takes any of `words`.
fn are_kept<R: Reader>(reader: &R, sight: &Sight, book: &Book, cut: &Cut, words: &[u64]) -> bool
    requires sight { ListsValues (R.reading reader.now) book.now sight.now }
    requires wide { length cut.now ≡ length book.now }
    ensures { IsTrue result
        → AllByRecursion (IsKept (R.reading reader.now) book.now cut.now) words.now }
{
    for k in 0..words.len() {
        if is_read(reader, sight, book, cut, words[k]) {
            return false;
        }
    }
    true
}

// Whether some answered call outside a cut is a take that finds nothing.
fn is_found_empty<R: Reader>(reader: &R, book: &Book, cut: &Cut) -> bool
    requires wide { length cut.now ≡ length book.now }
    ensures { result ≡ false → IsNeverEmpty (R.reading reader.now) book.now cut.now }
{
    for caller in 0..book.callers() {
        if caller_finds_nothing(reader, book, cut, caller) {
            return true;
        }
    }
    false
}

// Whether some answered call of a caller outside a cut is a take that finds nothing.
fn caller_finds_nothing<R: Reader>(reader: &R, book: &Book, cut: &Cut, caller: u32) -> bool
    requires wide { length cut.now ≡ length book.now }
    requires caller { caller < length book.now }
    ensures { result ≡ false → (number : ℕ) → slice_index cut.now caller ≤ number
        → FindsNothing (R.reading reader.now) book.now (record { caller = caller; number = number })
        → ⊥ }
{
    for number in cut.get(caller)..book.answers(caller) {
        if finds_nothing(reader, book, Call { caller, number }) {
            return true;
        }
    }
    false
}

// Whether an answered call is a take that finds nothing.
fn finds_nothing<R: Reader>(reader: &R, book: &Book, call: Call) -> bool
    requires { IsAnswered book.now call }
    ensures { result ≡ false → FindsNothing (R.reading reader.now) book.now call → ⊥ }
{
    let _callers = book.callers();
    match reader.role(book.op(call)) {
        Role::Take => reader.shown(book.record(call).reply).is_none(),
        Role::Put(_) | Role::Other => false,
    }
}
