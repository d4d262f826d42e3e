//! Cuts as pairs: a caller and its count, for each count that isn't 0.

ghost use Rattle.std.specs.Prelude.{◌≡◌, ℕ, ◌≤◌, ◌∷◌, ◌++◌, List, length, IfSome, IfNone};
ghost use Rattle.book_base.specs.declared.TheConstants.{MAX_CALLERS};
ghost use Rattle.text_fields.specs.Counts.{AreNumbers, AreParts, IsPair, pair_words, HasBadPair, NoPairFirst};

use crate::cut_at::cut_at;
use crate::words::Words;
use book_base::Cut;
use seq_objects::number;

/// Reads the pairs of a cut, up to the next word without a colon or to the end of the line.
///
/// `None` comes exactly where one of these words is no pair of a caller below `n` and a count above
/// 0 and below 2^64, or its caller isn't above that of the pair before it.
pub fn read_pairs(words: &mut Words, n: u32) -> Option<Cut>
    // There is at least one caller.
    requires some { 1 ≤ n }
    // There are at most `MAX_CALLERS` callers.
    requires few { n ≤ MAX_CALLERS }
    // A cut that was found has one count for each caller, each below 2^64, and the words of its
    // pairs are taken.
    ensures found { IfSome result
        (λ cut. (length cut ≡ n) × AreNumbers cut × (words.old ≡ pair_words 0 cut ++ words.new)) }
    // The words after the pairs of a cut don't begin with a word with a colon.
    ensures whole { IfSome result (λ cut. NoPairFirst words.new) }
    // No cut is found only where, of the words up to the first one without a colon, one is no pair
    // of a caller below `n` and a count above 0 and below 2^64, or its caller isn't above that of
    // the pair before it.
    ensures none { IfNone result (HasBadPair n 0 words.old) }
{
    let mut cut = Cut::zero(n);
    let mut least = 0;
    loop {
        let Some((caller, count)) = next_parts(words) else {
            return Some(cut);
        };
        let (j, count) = pair(caller, count, n)?;
        if j < least {
            return None;
        }
        cut.set(j, count);
        least = j + 1;
    }
}

/// Takes the next word, where it has a colon: its parts before and after its first colon.
fn next_parts<'a>(words: &mut Words<'a>) -> Option<(&'a [u8], &'a [u8])>
    ensures found { IfSome result
        (λ (prefix, suffix). (words.old ≡ (prefix.now ++ 58 ∷ suffix.now) ∷ words.new)
        × AreParts prefix.now suffix.now) }
    ensures none { IfNone result (NoPairFirst words.old × (words.new ≡ words.old)) }
{
    let mut suffix = words.copy();
    let parts = cut_at(b':', suffix.next()?)?;
    *words = suffix;
    Some(parts)
}

/// The caller and the count of a pair, from the parts before and after its colon.
fn pair(caller: &[u8], count: &[u8], n: u32) -> Option<(u32, u64)>
    requires { AreParts caller.now count.now }
    ensures found { IfSome result (λ (j, c). IsPair n (caller.now ++ 58 ∷ count.now) j c) }
    ensures none { IfNone result ((j c : ℕ) → IsPair n (caller.now ++ 58 ∷ count.now) j c → ⊥) }
{
    let j = number(caller)?;
    let count = number(count)?;
    if count == 0 {
        return None;
    }
    if j < u64::from(n) {
        Some((j as u32, count))
    } else {
        None
    }
}
