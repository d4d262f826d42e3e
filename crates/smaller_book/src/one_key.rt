//! Books of one key of a set or a map.
ghost use Rattle.std.specs.Prelude.{◌≡◌, ◌<◌, ℕ, ◌↔◌, length, Some, IfSome, IfNone, IsTrue};
ghost use Rattle.book_base.specs.declared.call.Call.{Call};
ghost use Rattle.book_base.specs.Book.{IsCall, calls_of};
ghost use Rattle.smaller_book.specs.Keys.{key_of_call};
ghost use Rattle.smaller_book.specs.OneKey.{is_set_or_map, IsOfOneKey};
ghost use Rattle.smaller_book.specs.Settings.{SetsLists};

use crate::keys::key_of;
use book_base::{Book, Call};
use seq_objects::Kind;

/// Whether the calls of a book set whole lists: of a set or a map, whether all calls are about one
/// key; of the other kinds always.
pub fn sets_lists(kind: Kind, book: &Book) -> bool
    ensures { IsTrue result ↔ SetsLists kind book.now }
{
    !is_set_or_map(kind) || is_of_one_key(kind, book)
}

/// Whether a kind is that of sets or of maps.
pub fn is_set_or_map(kind: Kind) -> bool
    ensures { result ≡ is_set_or_map kind }
{
    match kind {
        Kind::IntSet | Kind::Map => true,
        Kind::Register | Kind::CasRegister | Kind::Queue => false,
        Kind::Stack | Kind::Pqueue | Kind::Counter => false,
    }
}

// Whether a book of a set or a map has calls, and all are about one key.
fn is_of_one_key(kind: Kind, book: &Book) -> bool
    requires { IsTrue (is_set_or_map kind) }
    ensures { IsTrue result ↔ ((key : ℕ) × IsOfOneKey kind book.now key) }
{
    match first_call(book) {
        None => false,
        Some(call) => match key_of(kind, book, call) {
            None => false,
            Some(key) => are_about(kind, book, key),
        },
    }
}

// The first call of a book, by its caller.
fn first_call(book: &Book) -> Option<Call>
    ensures call { IfSome result (IsCall book.now) }
    ensures none { IfNone result ((call : Call) → ¬ IsCall book.now call) }
{
    for caller in 0..book.callers() {
        if book.calls(caller) > 0 {
            return Some(Call { caller, number: 0 });
        }
    }
    None
}

// Whether all calls of a book are about a key.
fn are_about(kind: Kind, book: &Book, key: u64) -> bool
    ensures { IsTrue result ↔ ((call : Call) → IsCall book.now call
        → key_of_call kind book.now call ≡ Some key) }
{
    for caller in 0..book.callers() {
        if !are_about_of(kind, book, key, caller) {
            return false;
        }
    }
    true
}

// Whether all calls of a caller are about a key.
fn are_about_of(kind: Kind, book: &Book, key: u64, caller: u32) -> bool
    requires { caller < length book.now }
    ensures { IsTrue result ↔ ((number : ℕ) → number < calls_of book.now caller
        → key_of_call kind book.now (record { caller = caller; number = number }) ≡ Some key) }
{
    for number in 0..book.calls(caller) {
        if key_of(kind, book, Call { caller, number }) != Some(key) {
            return false;
        }
    }
    true
}
