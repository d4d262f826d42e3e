ghost use Rattle.std.specs.Prelude.{◌≡◌, ◌≢◌, ◌⊎◌, ℕ, ◌<◌, length, Some, IfSome, IsTrue};
ghost use Rattle.book_base.specs.Book.{IsCall};
ghost use Rattle.book_base.specs.Next.{next_call};
ghost use Rattle.book_base.specs.Pruning.{IsForced};
ghost use Rattle.search_hints.specs.Marks.{IsMarked, IsMarkedWithin, MarksAllNext};
ghost use Rattle.legal_orders.specs.Calls.{TakesShowing};
ghost use Rattle.list_pruning.specs.LastFirst.{EndsWith, PutsNeedless};

use crate::value_put;
use crate::words::last_word;
use book_base::{Book, Call, Cut};
use legal_orders::{Reader, Role};
use search_hints::MarkedCallers;

/// What the forced caller's next call shows, where it is a take: a value, or nothing. No clause
/// says that an answer is given for each take: where none is, only time is lost.
pub fn forced_take<R: Reader>(
    reader: &R,
    book: &Book,
    cut: &Cut,
    forced: u32,
) -> Option<Option<u64>>
    requires wide { length cut.now ≡ length book.now }
    requires forced { IsForced book.now cut.now forced }
    ensures { IfSome result
        (TakesShowing (R.reading reader.now) book.now (next_call cut.now forced)) }
{
    if forced >= book.callers() {
        return None;
    }
    let call = Call {
        caller: forced,
        number: cut.get(forced),
    };
    match reader.role(book.op(call)) {
        Role::Take => Some(reader.shown(book.record(call).reply)),
        Role::Put(_) | Role::Other => None,
    }
}

/// The marks without those on callers whose next calls put in a value that the forced take doesn't
/// show, or one that is the last of `words` already. What this take shows is `shown`: a value, or
/// `None` where it finds nothing.
pub fn without_needless<R: Reader>(
    reader: &R,
    book: &Book,
    cut: &Cut,
    words: &[u64],
    shown: Option<u64>,
    marks: MarkedCallers,
) -> MarkedCallers
    requires wide { length cut.now ≡ length book.now }
    requires marks { MarksAllNext book.now cut.now marks }
    ensures fewer { IsMarkedWithin result marks }
    ensures needless { (i : ℕ) → IsMarked marks i → IsMarked result i
        ⊎ PutsNeedless (R.reading reader.now) book.now cut.now words.now shown i }
{
    let mut left = marks;
    for caller in 0..book.callers() {
        if marks.has(caller) && puts_needless(reader, book, cut, words, shown, caller) {
            left = left.without(caller);
        }
    }
    left
}

// Whether a caller's next call puts in a value other than that of `shown`, which is what the forced
// take shows, or one that is the last of `words` already.
fn puts_needless<R: Reader>(
    reader: &R,
    book: &Book,
    cut: &Cut,
    words: &[u64],
    shown: Option<u64>,
    caller: u32,
) -> bool
    requires wide { length cut.now ≡ length book.now }
    requires caller { caller < length book.now }
    requires call { IsCall book.now (next_call cut.now caller) }
    ensures { IsTrue result
        → PutsNeedless (R.reading reader.now) book.now cut.now words.now shown caller }
{
    let call = Call {
        caller,
        number: cut.get(caller),
    };
    match value_put(reader, book, call) {
        Some(value) => shows_another(shown, value) || ends_with(words, value),
        None => false,
    }
}

// Whether a take shows another value than this one, or shows that nothing was there.
fn shows_another(shown: Option<u64>, value: u64) -> bool
    ensures { IsTrue result → shown ≢ Some value }
{
    match shown {
        Some(other) => other != value,
        None => true,
    }
}

// Whether a value is the last of `words`.
fn ends_with(words: &[u64], value: u64) -> bool
    ensures { IsTrue result → EndsWith words.now value }
{
    match last_word(words) {
        Some(last) => last == value,
        None => false,
    }
}
