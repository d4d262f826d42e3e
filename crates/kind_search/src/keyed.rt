ghost use Rattle.std.specs.Prelude.{◌≡◌, ◌↔◌, ◌<◌, ℕ, List, length, Option, Some, IsTrue};
ghost use Rattle.book_base.specs.Book.{IsCall};
ghost use Rattle.book_base.specs.Next.{next_call};
ghost use Rattle.book_base.specs.Pruning.{HasOneOpen, IsForced};
ghost use Rattle.search_hints.specs.Marks.{MarksAllNext, MarksSuffice, IsMarkedWithin};
ghost use Rattle.legal_orders.specs.Keys.{IsKeyed};
ghost use Rattle.kind_search.specs.Keys.{next_word, IsNarrowedToKey, map_key, set_key};

use book_base::{Book, Call, Cut, OpWord};
use search_hints::{MarkedCallers, Sight};
use seq_objects::{IntSetOperation, MapOperation};
use std::alloc::Global;
use std::collections::BTreeMap;

/// How an object of keys is read: each of its operations sees and changes only what belongs to one
/// key, which is read off the operation word.
pub trait Keyed {
    /// The key of an operation word, where the word has one.
    ghost key_of: { Self → ℕ → Option ℕ };

    /// The key of an operation word, where the word has one.
    fn key(&self, op: OpWord) -> Option<u32>
        ensures { result ≡ key_of self.now op };
}

/// The keys of a set: the value that is added, removed or looked for.
pub struct SetKeys;

impl Keyed for SetKeys {
    ghost key_of = { λ _. set_key };

    fn key(&self, op: OpWord) -> Option<u32> {
        match IntSetOperation::from_word(op) {
            Some(IntSetOperation::Add(value)) => Some(value),
            Some(IntSetOperation::Remove(value)) => Some(value),
            Some(IntSetOperation::Has(value)) => Some(value),
            None => None,
        }
    }
}

/// The keys of a map: the key that is put, got or deleted.
pub struct MapKeys;

impl Keyed for MapKeys {
    ghost key_of = { λ _. map_key };

    fn key(&self, op: OpWord) -> Option<u32> {
        match MapOperation::from_word(op) {
            Some(MapOperation::Put(key, _)) => Some(key),
            Some(MapOperation::Get(key)) => Some(key),
            Some(MapOperation::Delete(key)) => Some(key),
            None => None,
        }
    }
}

/// A sight that lists nothing, for an object that narrows by the book alone.
pub fn empty_sight(alloc: Global) -> Sight {
    Sight {
        labelled: Vec::new(alloc),
        places: BTreeMap::new(alloc),
    }
}

/// The marked callers whose next calls have the key of the forced caller's next call; all marked
/// callers where that call has no key.
///
/// The marks that stay suffice: where places continue an order, the first of these places whose
/// call has this key may be put before the others, since this call may come next (after Herlihy and
/// Wing 1990, on locality).
pub fn narrow_to_key<K: Keyed>(
    object: &K,
    book: &Book,
    cut: &Cut,
    forced: u32,
    marks: MarkedCallers,
) -> MarkedCallers
    requires open { HasOneOpen book.now }
    requires wide { length cut.now ≡ length book.now }
    requires forced { IsForced book.now cut.now forced }
    requires marks { MarksAllNext book.now cut.now marks }
    ensures narrowed { IsNarrowedToKey (K.key_of object.now) book.now cut.now forced marks result }
    ensures fewer { IsMarkedWithin result marks }
    ensures suffice { (part : ℕ → List ℕ → List ℕ) (next : List ℕ → ℕ → List ℕ × ℕ) (list : List ℕ)
        → IsKeyed (K.key_of object.now) part next → MarksSuffice book.now next cut.now list result }
{
    let callers = book.callers();
    let Some(key) = next_key(object, book, cut, forced) else {
        return marks;
    };
    let mut kept = MarkedCallers::none();
    for caller in 0..callers {
        if marks.has(caller) && is_next_on(object, book, cut, caller, key) {
            kept = kept.with(caller);
        }
    }
    kept
}

/// A caller's next call after a cut.
pub fn next_of(cut: &Cut, caller: u32) -> Call
    requires { caller < length cut.now }
    ensures { result ≡ next_call cut.now caller }
{
    Call {
        caller,
        number: cut.get(caller),
    }
}

/// The key of a caller's next call after a cut, where it has one.
fn next_key<K: Keyed>(object: &K, book: &Book, cut: &Cut, caller: u32) -> Option<u32>
    requires caller { caller < length cut.now }
    requires call { IsCall book.now (next_call cut.now caller) }
    ensures { result ≡ K.key_of object.now (next_word book.now cut.now caller) }
{
    object.key(book.op(next_of(cut, caller)))
}

/// Whether a caller's next call after a cut has the key `key`.
fn is_next_on<K: Keyed>(object: &K, book: &Book, cut: &Cut, caller: u32, key: u32) -> bool
    requires caller { caller < length cut.now }
    requires call { IsCall book.now (next_call cut.now caller) }
    ensures { IsTrue result ↔ (K.key_of object.now (next_word book.now cut.now caller) ≡ Some key) }
{
    match next_key(object, book, cut, caller) {
        Some(other) => other == key,
        None => false,
    }
}
