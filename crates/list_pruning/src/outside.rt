ghost use Rattle.std.specs.Prelude.{◌≡◌, ◌↔◌, length, IsFalse, IsTrue};
ghost use Rattle.book_base.specs.declared.call.Call.{Call};
ghost use Rattle.list_pruning.specs.Sights.{IsListed, ListsValues};
ghost use Rattle.list_pruning.specs.HoldsLast.{IsRead, IsWritten, ReadsOutside, WritesOutside};

use crate::sight::{is_outside, labelled_of};
use crate::values::{value_put, value_taken};
use book_base::{Book, Call, Cut};
use legal_orders::Reader;
use search_hints::Sight;

/// Whether some answered call outside a cut reads the value `value`.
pub fn is_read<R: Reader>(reader: &R, sight: &Sight, book: &Book, cut: &Cut, value: u64) -> bool
    // The sight lists each call of the book that puts in a value, and each answered one that takes
    // it out.
    requires sight { ListsValues (R.reading reader.now) book.now sight.now }
    // The cut has a count for each caller of the book.
    requires wide { length cut.now ≡ length book.now }
    ensures { IsTrue result ↔ IsRead (R.reading reader.now) book.now cut.now value }
{
    match labelled_of(sight, value) {
        Some(labelled) => some_reads(reader, book, cut, &labelled.shows, value),
        None => false,
    }
}

/// Whether some call outside a cut writes the value `value`.
pub fn is_written<R: Reader>(reader: &R, sight: &Sight, book: &Book, cut: &Cut, value: u64) -> bool
    // The sight lists each call of the book that puts in a value, and each answered one that takes
    // it out.
    requires sight { ListsValues (R.reading reader.now) book.now sight.now }
    // The cut has a count for each caller of the book.
    requires wide { length cut.now ≡ length book.now }
    ensures { IsTrue result ↔ IsWritten (R.reading reader.now) book.now cut.now value }
{
    match labelled_of(sight, value) {
        Some(labelled) => some_writes(reader, book, cut, &labelled.puts, value),
        None => false,
    }
}

// Whether one of `calls` is answered, is outside a cut and reads the value `value`.
fn some_reads<R: Reader>(reader: &R, book: &Book, cut: &Cut, calls: &[Call], value: u64) -> bool
    requires wide { length cut.now ≡ length book.now }
    ensures found { IsTrue result → IsRead (R.reading reader.now) book.now cut.now value }
    ensures none { IsFalse result → (call : Call) → IsListed calls.now call
        → ReadsOutside (R.reading reader.now) book.now cut.now value call → ⊥ }
{
    for k in 0..calls.len() {
        if reads_outside(reader, book, cut, calls[k], value) {
            return true;
        }
    }
    false
}

// Whether one of `calls` is outside a cut and writes the value `value`.
fn some_writes<R: Reader>(reader: &R, book: &Book, cut: &Cut, calls: &[Call], value: u64) -> bool
    requires wide { length cut.now ≡ length book.now }
    ensures found { IsTrue result → IsWritten (R.reading reader.now) book.now cut.now value }
    ensures none { IsFalse result → (call : Call) → IsListed calls.now call
        → WritesOutside (R.reading reader.now) book.now cut.now value call → ⊥ }
{
    for k in 0..calls.len() {
        if writes_outside(reader, book, cut, calls[k], value) {
            return true;
        }
    }
    false
}

/// Whether a call is answered, is outside a cut, and reads the value `value`.
pub fn reads_outside<R: Reader>(reader: &R, book: &Book, cut: &Cut, call: Call, value: u64) -> bool
    // The cut has a count for each caller of the book.
    requires wide { length cut.now ≡ length book.now }
    ensures { IsTrue result ↔ ReadsOutside (R.reading reader.now) book.now cut.now value call }
{
    if !is_outside(book, cut, call) {
        return false;
    }
    match value_taken(reader, book, call) {
        Some(shown) => shown == value,
        None => false,
    }
}

// Whether a call is outside a cut and writes the value `value`.
fn writes_outside<R: Reader>(reader: &R, book: &Book, cut: &Cut, call: Call, value: u64) -> bool
    requires wide { length cut.now ≡ length book.now }
    ensures { IsTrue result ↔ WritesOutside (R.reading reader.now) book.now cut.now value call }
{
    if call.caller >= book.callers() || call.number >= book.calls(call.caller) {
        return false;
    }
    if cut.holds(call.caller, call.number) {
        return false;
    }
    match value_put(reader, book, call) {
        Some(written) => written == value,
        None => false,
    }
}
