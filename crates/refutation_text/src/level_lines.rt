//! The line of an entry of a table of levels.

ghost use Rattle.std.specs.Prelude.{◌≡◌, ◌≢◌, ℕ, ◌<◌, ◌≤◌, ◌^◌, ◌∷◌, ◌++◌, [], List, map, decimal, codes, IfOk, IfSome, IfNone};
ghost use Rattle.level_refutations.specs.Said.{EntrySaid, entry_said};
ghost use Rattle.refutation_text.specs.Grammar.{AreSome, IsTableEntry, table_words};

use crate::fields::{callers_of, numbers_of};
use book_base::NoMemory;
use book_text::take_word;
use level_refutations::LevelEntry;
use std::alloc::Global;
use text_fields::{Words, next_number};

/// The entry that words say.
pub(crate) fn level_entry_of(alloc: Global, words: &Words) -> Result<Option<LevelEntry>, NoMemory>
    ensures found { IfOk result (λ found. IfSome found (λ entry. IsTableEntry (entry_said entry)
        × (words.now ≡ table_words (entry_said entry)))) }
    ensures none { IfOk result (λ found. IfNone found ((entry : EntrySaid) → IsTableEntry entry
        → words.now ≢ table_words entry)) }
{
    if let Some((from, caller)) = cut_entry_of(&mut words.copy()) {
        return Ok(Some(LevelEntry::Cut(from, caller)));
    }
    let most = u64::from(u32::MAX);
    if let Some((value, below)) = list_entry_of(alloc, &mut words.copy(), b"level", most)? {
        return Ok(Some(LevelEntry::Level(value as u32, below)));
    }
    match list_entry_of(alloc, &mut words.copy(), b"at", u64::MAX)? {
        Some((level, cuts)) => Ok(Some(LevelEntry::At(level, cuts))),
        None => Ok(None),
    }
}

/// The word `cut`, and two numbers.
fn cut_entry_of(words: &mut Words) -> Option<(u64, u64)>
    ensures found { IfSome result (λ (from, caller). (from < 2 ^ 64) × (caller < 2 ^ 64)
        × (words.old ≡ codes "cut" ∷ decimal from ∷ decimal caller ∷ [])) }
    ensures none { IfNone result ((p i : ℕ) → p < 2 ^ 64 → i < 2 ^ 64
        → words.old ≢ codes "cut" ∷ decimal p ∷ decimal i ∷ []) }
{
    take_word(words, b"cut")?;
    callers_of(words)
}

/// A first word, a number that is at most `most`, and numbers, of which there is at least one.
fn list_entry_of(
    alloc: Global,
    words: &mut Words,
    first: &[u8],
    most: u64,
) -> Result<Option<(u64, Vec<u64>)>, NoMemory>
    ensures found { IfOk result (λ found. IfSome found (λ (number, others).
        (number ≤ most) × AreSome others.items
        × (words.old ≡ first.now ∷ decimal number ∷ map decimal others.items))) }
    ensures none { IfOk result (λ found. IfNone found ((number : ℕ) (others : List ℕ)
        → number ≤ most → AreSome others
        → words.old ≢ first.now ∷ decimal number ∷ map decimal others)) }
{
    let Some(number) = named_number(words, first, most) else {
        return Ok(None);
    };
    match some_numbers_of(alloc, words)? {
        Some(others) => Ok(Some((number, others))),
        None => Ok(None),
    }
}

/// A first word, and a number that is at most `most`; the other words are left.
fn named_number(words: &mut Words, first: &[u8], most: u64) -> Option<u64>
    ensures found { IfSome result (λ number. (number ≤ most)
        × (words.old ≡ first.now ∷ decimal number ∷ words.new)) }
    ensures none { IfNone result ((number : ℕ) (suffix : List (List ℕ)) → number ≤ most
        → words.old ≢ first.now ∷ decimal number ∷ suffix) }
{
    take_word(words, first)?;
    next_number(words, most)
}

/// All words as numbers, of which there is at least one.
fn some_numbers_of(alloc: Global, words: &mut Words) -> Result<Option<Vec<u64>>, NoMemory>
    ensures found { IfOk result (λ found. IfSome found (λ numbers.
        AreSome numbers.items × (words.old ≡ map decimal numbers.items))) }
    ensures none { IfOk result (λ found. IfNone found ((numbers : List ℕ) → AreSome numbers
        → words.old ≢ map decimal numbers)) }
{
    if words.copy().next().is_none() {
        return Ok(None);
    }
    numbers_of(alloc, words)
}
