//! The words of a line after the title of a refutation, read as one form of line.

ghost use Rattle.std.specs.Prelude.{◌≡◌, ◌≢◌, ◌↔◌, ℕ, ◌<◌, ◌^◌, ◌∷◌, ◌++◌, [], List, length, map, decimal, codes, IfOk, IfSome, IfNone, IsTrue};
ghost use Rattle.std.specs.List.{AllByRecursion, flat_map};
ghost use Rattle.book_base.specs.declared.call.Call.{Call};
ghost use Rattle.refutations.specs.declared.entry.Entry.{Entry};
ghost use Rattle.pair_refutations.specs.declared.entry.Move.{Move};
ghost use Rattle.pair_refutations.specs.declared.entry.PairEntry.{PairEntry};
ghost use Rattle.text_fields.specs.Counts.{AreNumbers, pair_words};
ghost use Rattle.book_text.specs.CallLines.{place_words};
ghost use Rattle.certificate_text.specs.Grammar.{IsNamed};
ghost use Rattle.refutation_text.specs.Grammar.{AreCounts, AreValues, IsAnyCall, IsValueAt, IsEntry, IsMove, IsPairEntry, move_words, pair_entry_words, takes_words, find_words};

use crate::STEP_CALLERS;
use book_base::{Call, Cut, NoMemory};
use book_text::take_word;
use certificate_text::take_call;
use pair_refutations::{Move, PairEntry};
use refutations::Entry;
use std::alloc::Global;
use text_fields::{Words, next_number, read_pairs};

/// The word `at`, and pairs of a caller below 16 and a count above 0, by rising callers.
pub(crate) fn counts_of(words: &mut Words) -> Option<Cut>
    ensures found { IfSome result (λ counts.
        AreCounts counts × (words.old ≡ codes "at" ∷ pair_words 0 counts)) }
    ensures none { IfNone result ((counts : List ℕ) → AreCounts counts
        → words.old ≢ codes "at" ∷ pair_words 0 counts) }
{
    take_word(words, b"at")?;
    let counts = read_pairs(words, STEP_CALLERS)?;
    match words.next() {
        None => Some(counts),
        Some(_) => None,
    }
}

/// A first word, and numbers.
pub(crate) fn keys_of(
    alloc: Global,
    words: &mut Words,
    first: &[u8],
) -> Result<Option<Vec<u64>>, NoMemory>
    ensures found { IfOk result (λ found. IfSome found (λ keys.
        AreNumbers keys.items × (words.old ≡ first.now ∷ map decimal keys.items))) }
    ensures none { IfOk result (λ found. IfNone found ((keys : List ℕ) → AreNumbers keys
        → words.old ≢ first.now ∷ map decimal keys)) }
{
    match take_word(words, first) {
        Some(()) => numbers_of(alloc, words),
        None => Ok(None),
    }
}

/// All words as numbers.
pub(crate) fn numbers_of(alloc: Global, words: &mut Words) -> Result<Option<Vec<u64>>, NoMemory>
    ensures found { IfOk result (λ found. IfSome found (λ keys.
        AreNumbers keys.items × (words.old ≡ map decimal keys.items))) }
    ensures none { IfOk result (λ found. IfNone found ((keys : List ℕ) → AreNumbers keys
        → words.old ≢ map decimal keys)) }
{
    let mut keys = Vec::new(alloc);
    loop {
        if words.copy().next().is_none() {
            return Ok(Some(keys));
        }
        match next_number(words, u64::MAX) {
            Some(key) => keys.push(key)?,
            None => return Ok(None),
        }
    }
}

/// A first word, and a caller and a number, whether or not a book has such a call.
pub(crate) fn call_of(words: &mut Words, first: &[u8]) -> Option<Call>
    ensures found { IfSome result (λ call.
        IsNamed call × (words.old ≡ first.now ∷ place_words call)) }
    ensures none { IfNone result ((call : Call) → IsNamed call
        → words.old ≢ first.now ∷ place_words call) }
{
    take_word(words, first)?;
    let call = take_call(words)?;
    match words.next() {
        None => Some(call),
        Some(_) => None,
    }
}

/// A first word, and callers and numbers, whether or not a book has such calls.
pub(crate) fn calls_of(
    alloc: Global,
    words: &mut Words,
    first: &[u8],
) -> Result<Option<Vec<Call>>, NoMemory>
    ensures found { IfOk result (λ found. IfSome found (λ calls.
        AllByRecursion IsNamed calls.items
        × (words.old ≡ first.now ∷ flat_map place_words calls.items))) }
    ensures none { IfOk result (λ found. IfNone found ((calls : List Call)
        → AllByRecursion IsNamed calls → words.old ≢ first.now ∷ flat_map place_words calls)) }
{
    match take_word(words, first) {
        Some(()) => all_calls_of(alloc, words),
        None => Ok(None),
    }
}

/// All words as callers and numbers.
fn all_calls_of(alloc: Global, words: &mut Words) -> Result<Option<Vec<Call>>, NoMemory>
    ensures found { IfOk result (λ found. IfSome found (λ calls.
        AllByRecursion IsNamed calls.items × (words.old ≡ flat_map place_words calls.items))) }
    ensures none { IfOk result (λ found. IfNone found ((calls : List Call)
        → AllByRecursion IsNamed calls → words.old ≢ flat_map place_words calls)) }
{
    let mut calls = Vec::new(alloc);
    loop {
        if words.copy().next().is_none() {
            return Ok(Some(calls));
        }
        match take_call(words) {
            Some(call) => calls.push(call)?,
            None => return Ok(None),
        }
    }
}

/// The words `counts takes`, a value below 2^32 and a moment.
pub(crate) fn takes_of(words: &mut Words) -> Option<(u64, u64)>
    ensures found { IfSome result (λ (value, moment).
        (value < 2 ^ 32) × (moment < 2 ^ 64) × (words.old ≡ takes_words value moment)) }
    ensures none { IfNone result ((value moment : ℕ) → value < 2 ^ 32 → moment < 2 ^ 64
        → words.old ≢ takes_words value moment) }
{
    take_word(words, b"counts")?;
    take_word(words, b"takes")?;
    let value = next_number(words, u64::from(u32::MAX))?;
    let moment = next_number(words, u64::MAX)?;
    match words.next() {
        None => Some((value, moment)),
        Some(_) => None,
    }
}

/// The words `counts find`, a caller, a number, and rising values below 2^32, of which there is at
/// least one.
pub(crate) fn find_of(
    alloc: Global,
    words: &mut Words,
) -> Result<Option<(u64, u64, Vec<u64>)>, NoMemory>
    ensures found { IfOk result (λ found. IfSome found (λ (caller, number, values).
        IsAnyCall (record { caller = caller; number = number }) × AreValues values.items
        × (words.old
        ≡ find_words (record { caller = caller; number = number }) values.items))) }
    ensures none { IfOk result (λ found. IfNone found ((call : Call) (values : List ℕ)
        → IsAnyCall call → AreValues values → words.old ≢ find_words call values)) }
{
    let Some((caller, number)) = find_call_of(words) else {
        return Ok(None);
    };
    match numbers_of(alloc, words)? {
        Some(values) => {
            if !are_values(&values) {
                return Ok(None);
            }
            Ok(Some((caller, number, values)))
        }
        None => Ok(None),
    }
}

/// The words `counts find`, a caller and a number; the other words are left.
fn find_call_of(words: &mut Words) -> Option<(u64, u64)>
    ensures found { IfSome result (λ (caller, number).
        IsAnyCall (record { caller = caller; number = number })
        × (words.old ≡ find_words (record { caller = caller; number = number }) [] ++ words.new)) }
    ensures none { IfNone result ((call : Call) (values : List ℕ) → IsAnyCall call
        → words.old ≢ find_words call values) }
{
    take_word(words, b"counts")?;
    take_word(words, b"find")?;
    let caller = next_number(words, u64::MAX)?;
    let number = next_number(words, u64::MAX)?;
    Some((caller, number))
}

/// Whether there is a value, each is below 2^32, and they rise.
pub fn are_values(values: &[u64]) -> bool
    ensures { IsTrue result ↔ AreValues values.now }
{
    for k in 0..values.len() {
        if !is_value_at(values, k) {
            return false;
        }
    }
    !values.is_empty()
}

/// Whether the value at a place is below 2^32, and above the one before.
fn is_value_at(values: &[u64], k: usize) -> bool
    requires { k < length values.now }
    ensures { IsTrue result ↔ IsValueAt values.now k }
{
    if values[k] > u64::from(u32::MAX) {
        return false;
    }
    if k == 0 {
        return true;
    }
    values[k - 1] < values[k]
}

/// The number of an item and a caller, as an entry.
pub(crate) fn entry_of(words: &mut Words) -> Option<Entry>
    ensures found { IfSome result (λ entry. IsEntry entry
        × (words.old ≡ decimal entry.item ∷ decimal entry.caller ∷ [])) }
    ensures none { IfNone result ((entry : Entry) → IsEntry entry
        → words.old ≢ decimal entry.item ∷ decimal entry.caller ∷ []) }
{
    let item = next_number(words, u64::MAX)?;
    let caller = next_number(words, u64::MAX)?;
    match words.next() {
        None => Some(Entry { item, caller }),
        Some(_) => None,
    }
}

/// The number of a standing and a move, as an entry.
pub(crate) fn pair_entry_of(words: &mut Words) -> Option<PairEntry>
    ensures found { IfSome result (λ entry. IsPairEntry entry
        × (words.old ≡ pair_entry_words entry)) }
    ensures none { IfNone result ((entry : PairEntry) → IsPairEntry entry
        → words.old ≢ pair_entry_words entry) }
{
    let item = next_number(words, u64::MAX)?;
    let by = move_of(words)?;
    Some(PairEntry { item, by })
}

/// The word `find`, or the callers of a put and of a take, as a move.
fn move_of(words: &mut Words) -> Option<Move>
    ensures found { IfSome result (λ by. IsMove by × (words.old ≡ move_words by)) }
    ensures none { IfNone result ((by : Move) → IsMove by → words.old ≢ move_words by) }
{
    if is_find(&mut words.copy()) {
        return Some(Move::Finds);
    }
    let (putter, taker) = callers_of(words)?;
    Some(Move::Callers(putter, taker))
}

/// Whether the word is `find`, and the only one.
fn is_find(words: &mut Words) -> bool
    ensures { IsTrue result ↔ (words.old ≡ codes "find" ∷ []) }
{
    words.next() == Some(b"find".as_slice()) && words.next().is_none()
}

/// Two numbers.
pub(crate) fn callers_of(words: &mut Words) -> Option<(u64, u64)>
    ensures found { IfSome result (λ (i, j). (i < 2 ^ 64) × (j < 2 ^ 64)
        × (words.old ≡ decimal i ∷ decimal j ∷ [])) }
    ensures none { IfNone result ((i j : ℕ) → i < 2 ^ 64 → j < 2 ^ 64
        → words.old ≢ decimal i ∷ decimal j ∷ []) }
{
    let putter = next_number(words, u64::MAX)?;
    let taker = next_number(words, u64::MAX)?;
    match words.next() {
        None => Some((putter, taker)),
        Some(_) => None,
    }
}
