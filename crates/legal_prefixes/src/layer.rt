//! Layers of the search: from the legal prefixes of one length those with one more place.

ghost use Rattle.std.specs.Prelude.{◌≡◌, ℕ, ◌+◌, ◌<◌, ◌≤◌, ◌↔◌, [], ◌∷◌, ◌++◌, false, length, slice_get, Some, IfOk, IsTrue, OnOk};
ghost use Rattle.book_base.specs.Next.{HoldsAnswered};
ghost use Rattle.legal_prefixes.specs.declared.TheConstants.{LIST_ROOM};
ghost use Rattle.legal_prefixes.specs.declared.prefix.LegalPrefix.{LegalPrefix};
ghost use Rattle.legal_prefixes.specs.Layers.{IsPrefixOf, ArePrefixesOf, IsListed, AreApart, AddsCall, AddsNext, ListNext};

use crate::LIST_ROOM;
use crate::next_calls::{holds_answered, is_recorded, may_come};
use crate::prefix::LegalPrefix;
use book_base::{Book, Call, Cut, NoMemory, Place, SeqObject, State};
use seq_objects::Kind;
use std::alloc::Global;

/// The legal prefixes with one more place than those of a layer, one for each cut and list to which
/// such prefixes lead.
pub(crate) fn next_layer(
    alloc: Global,
    kind: Kind,
    book: &Book,
    here: &mut State,
    count: u64,
    layer: &[LegalPrefix],
) -> Result<Vec<LegalPrefix>, NoMemory>
    requires room { here.old.room ≡ LIST_ROOM }
    requires few { count + 2 ≤ LIST_ROOM }
    requires layer { ArePrefixesOf kind book.now count layer.now }
    ensures room { here.new.room ≡ LIST_ROOM }
    ensures right { IfOk result (λ next. ArePrefixesOf kind book.now (count + 1) next.items) }
    ensures apart { IfOk result (λ next. AreApart next.items) }
    ensures all { IfOk result (λ next.
        ListNext kind book.now layer.now (length layer.now) next.items) }
{
    let mut next = Vec::new(alloc);
    for prefix in layer {
        push_next(alloc, kind, book, here, count, prefix, &mut next)?;
    }
    Ok(next)
}

// Adds what comes of a prefix by one more call.
fn push_next(
    alloc: Global,
    kind: Kind,
    book: &Book,
    here: &mut State,
    count: u64,
    prefix: &LegalPrefix,
    next: &mut Vec<LegalPrefix>,
) -> Result<(), NoMemory>
    requires room { here.old.room ≡ LIST_ROOM }
    requires few { count + 2 ≤ LIST_ROOM }
    requires prefix { IsPrefixOf kind book.now count prefix.now }
    requires right { ArePrefixesOf kind book.now (count + 1) next.old.items }
    requires apart { AreApart next.old.items }
    ensures room { here.new.room ≡ LIST_ROOM }
    ensures right { OnOk result (ArePrefixesOf kind book.now (count + 1) next.new.items) }
    ensures apart { OnOk result (AreApart next.new.items) }
    ensures added { OnOk result
        (AddsNext kind book.now prefix.now (length book.now) next.old.items next.new.items) }
{
    for caller in 0..book.callers() {
        push_call(alloc, kind, book, here, count, prefix, caller, next)?;
    }
    Ok(())
}

// Adds what comes of a prefix by the next call of a caller, where this call may come next, the object
// gives it its recorded reply, and no listed prefix leads to the same cut and list.
fn push_call(
    alloc: Global,
    kind: Kind,
    book: &Book,
    here: &mut State,
    count: u64,
    prefix: &LegalPrefix,
    caller: u32,
    next: &mut Vec<LegalPrefix>,
) -> Result<(), NoMemory>
    requires room { here.old.room ≡ LIST_ROOM }
    requires few { count + 2 ≤ LIST_ROOM }
    requires prefix { IsPrefixOf kind book.now count prefix.now }
    requires caller { caller < length book.now }
    requires right { ArePrefixesOf kind book.now (count + 1) next.old.items }
    requires apart { AreApart next.old.items }
    ensures room { here.new.room ≡ LIST_ROOM }
    ensures right { OnOk result (ArePrefixesOf kind book.now (count + 1) next.new.items) }
    ensures apart { OnOk result (AreApart next.new.items) }
    ensures added { OnOk result
        (AddsCall kind book.now prefix.now caller next.old.items next.new.items) }
{
    let _callers = book.callers();
    if !may_come(book, &prefix.cut, caller) {
        return Ok(());
    }
    let call = Call {
        caller,
        number: prefix.cut.get(caller),
    };
    load(here, &prefix.words);
    let reply = kind.step(here, book.op(call));
    if !is_recorded(book, call, reply) {
        return Ok(());
    }
    let mut cut = prefix.cut;
    cut.set(caller, call.number + 1);
    if is_listed(next, &cut, here.words()) {
        return Ok(());
    }
    let place = Place {
        caller,
        number: call.number,
        reply,
    };
    next.push(LegalPrefix {
        places: with_place(alloc, &prefix.places, place)?,
        cut,
        words: Vec::from_slice(alloc, here.words())?,
    })?;
    Ok(())
}

// Whether one of some prefixes leads to a cut and a list.
fn is_listed(prefixes: &[LegalPrefix], cut: &Cut, words: &[u64]) -> bool
    requires { (k : ℕ) (prefix : LegalPrefix) → slice_get prefixes.now k ≡ Some prefix
        → length prefix.cut ≡ length cut.now }
    ensures listed { IsTrue result → IsListed prefixes.now cut.now words.now }
    ensures none { result ≡ false → IsListed prefixes.now cut.now words.now → ⊥ }
{
    for prefix in prefixes {
        if leads_to(prefix, cut, words) {
            return true;
        }
    }
    false
}

// Whether a prefix leads to a cut and a list.
fn leads_to(prefix: &LegalPrefix, cut: &Cut, words: &[u64]) -> bool
    requires { length prefix.now.cut ≡ length cut.now }
    ensures { IsTrue result ↔ (prefix.now.cut ≡ cut.now) × (prefix.now.words.items ≡ words.now) }
{
    prefix.cut.equals(cut) && prefix.words.as_slice() == words
}

// The places, and one more after them.
fn with_place(alloc: Global, places: &[Place], place: Place) -> Result<Vec<Place>, NoMemory>
    ensures { IfOk result (λ longer. longer.items ≡ places.now ++ place ∷ []) }
{
    let mut longer = Vec::with_capacity(alloc, places.len().saturating_add(1))?;
    longer.extend_from_slice(places)?;
    longer.push(place)?;
    Ok(longer)
}

/// Makes `words` the list of a state, which keeps its capacity.
pub(crate) fn load(state: &mut State, words: &[u64])
    requires { length words.now ≤ state.old.room }
    ensures { state.new ≡ record state.old { words = words.now } }
{
    state.clear();
    for word in words {
        state.push(*word);
    }
}

/// Whether one of some prefixes holds all answered calls.
pub(crate) fn is_one_whole(book: &Book, layer: &[LegalPrefix]) -> bool
    requires { (k : ℕ) (prefix : LegalPrefix) → slice_get layer.now k ≡ Some prefix
        → length prefix.cut ≡ length book.now }
    ensures whole { IsTrue result → (k : ℕ) × (prefix : LegalPrefix)
        × (slice_get layer.now k ≡ Some prefix) × HoldsAnswered book.now prefix.cut }
    ensures none { result ≡ false → (k : ℕ) (prefix : LegalPrefix)
        → slice_get layer.now k ≡ Some prefix → HoldsAnswered book.now prefix.cut → ⊥ }
{
    for prefix in layer {
        if holds_answered(book, &prefix.cut) {
            return true;
        }
    }
    false
}
