ghost use Rattle.std.specs.Prelude.{◌≡◌, ℕ, ◌+◌, ◌<◌, ◌≤◌, false, length, slice_index, IsTrue};
ghost use Rattle.book_base.specs.Book.{answers_of};
ghost use Rattle.book_base.specs.Pruning.{HasOneOpen};

use book_base::{Book, Call, Cut};

/// Whether each view of a book holds at most one unanswered call of each caller, as in each book
/// that a run gathers. Of each caller only the last view is looked at, since it contains the
/// caller's earlier views.
pub fn has_one_open(book: &Book) -> bool
    // The answer is `true` only where each view holds at most one unanswered call of each caller.
    ensures one { IsTrue result → HasOneOpen book.now }
    // The answer is `false` only where some view holds more than one unanswered call of one caller.
    ensures more { result ≡ false → ¬ HasOneOpen book.now }
{
    for caller in 0..book.callers() {
        let answers = book.answers(caller);
        if answers > 0 {
            let last = Call {
                caller,
                number: answers - 1,
            };
            if !holds_one_open(book, &book.record(last).view) {
                return false;
            }
        }
    }
    true
}

// Whether a view holds at most one unanswered call of each caller.
fn holds_one_open(book: &Book, view: &Cut) -> bool
    requires { length view.now ≡ length book.now }
    ensures one { IsTrue result → (i : ℕ) → slice_index view.now i ≤ answers_of book.now i + 1 }
    ensures more { result ≡ false → (i : ℕ) × (answers_of book.now i + 1 < slice_index view.now i) }
{
    for caller in 0..book.callers() {
        if view.get(caller).saturating_sub(1) > book.answers(caller) {
            return false;
        }
    }
    true
}
