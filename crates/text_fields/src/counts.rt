//! The words of a line, read as one number or as a number for each caller.

ghost use Rattle.std.specs.Prelude.{◌≡◌, ◌≢◌, ℕ, ◌≤◌, List, [], ◌∷◌, length, map, decimal, IfSome, IfNone};
ghost use Rattle.book_base.specs.declared.TheConstants.{MAX_CALLERS};
ghost use Rattle.text_fields.specs.Counts.{AreAtMost};

use crate::words::Words;
use book_base::Cut;
use seq_objects::number;

/// The next word as a number that is at most `most`.
pub fn next_number(words: &mut Words, most: u64) -> Option<u64>
    // A number that was found is at most `most`, and its digits were the next word, which is taken.
    ensures found { IfSome result (λ n. (n ≤ most) × (words.old ≡ decimal n ∷ words.new)) }
    // No number is found only where no word is left, or the next word is no number, or one above
    // `most`.
    ensures none { IfNone result
        ((n : ℕ) (suffix : List (List ℕ)) → n ≤ most → words.old ≢ decimal n ∷ suffix) }
{
    let n = number(words.next()?)?;
    if n <= most { Some(n) } else { None }
}

/// All words of a line as counts: a number for each of `n` callers, each at most `most`, and no
/// further word.
pub fn read_counts(words: &mut Words, n: u32, most: u64) -> Option<Cut>
    // There is at least one caller.
    requires some { 1 ≤ n }
    // There are at most `MAX_CALLERS` callers.
    requires few { n ≤ MAX_CALLERS }
    // Counts that were found are one for each caller, each at most `most`, and the words were
    // exactly their digits.
    ensures found { IfSome result
        (λ counts. (length counts ≡ n) × AreAtMost most counts × (words.old ≡ map decimal counts)) }
    // No counts are found only where the words aren't one number for each caller, each at most
    // `most`.
    ensures none { IfNone result ((counts : List ℕ) → length counts ≡ n → AreAtMost most counts
        → words.old ≢ map decimal counts) }
{
    let mut counts = Cut::zero(n);
    for i in 0..n {
        counts.set(i, next_number(words, most)?);
    }
    if words.next().is_none() {
        Some(counts)
    } else {
        None
    }
}
