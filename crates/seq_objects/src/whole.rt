ghost use Rattle.std.specs.Prelude.{◌≡◌, ◌≢◌, ℕ, ◌∷◌, ◌++◌, IfSome, IfNone, OnOk, OnErr};
ghost use Rattle.list_laws.proofs.Splits.{Lacks};
ghost use Rattle.book_base.specs.OperationWord.{IsOperationWord};
ghost use Rattle.seq_objects.specs.Words.{whole_digits, AppendsPrefix};

use crate::digits::{number, put_marked};
use book_base::{NoMemory, OpWord, high, join, low};

/// The part of a word before its first byte `mark`, and the part after this byte, where the word
/// has such a byte.
fn split_at_mark(mark: u8, word: &[u8]) -> Option<(&[u8], &[u8])>
    ensures found { IfSome result (λ (before, suffix).
        (word.now ≡ before.now ++ mark ∷ suffix.now) × Lacks mark before.now) }
    ensures none { IfNone result (Lacks mark word.now) }
{
    let place = word.iter().position(|&byte| byte == mark)?;
    Some((&word[..place], &word[place + 1..]))
}

/// The operation word that digits spell: its low word, and after a colon its high word where this
/// isn't 0.
pub fn whole(digits: &[u8]) -> Option<OpWord>
    ensures found { IfSome result (λ word. whole_digits word ≡ digits.now) }
    ensures none { IfNone result
        ((word : ℕ) → IsOperationWord word → whole_digits word ≢ digits.now) }
{
    let Some((low_digits, high_digits)) = split_at_mark(b':', digits) else {
        return Some(join(number(digits)?, 0));
    };
    let low = number(low_digits)?;
    let high = number(high_digits)?;
    if high == 0 {
        None
    } else {
        Some(join(low, high))
    }
}

/// Appends a byte, and after it an operation word in digits.
pub fn put_whole(out: &mut Vec<u8>, mark: u8, op: OpWord) -> Result<(), NoMemory>
    ensures ok { OnOk result (out.new.items ≡ out.old.items ++ mark ∷ whole_digits op) }
    ensures err { OnErr result
        (AppendsPrefix out.old.items out.new.items (mark ∷ whole_digits op)) }
{
    put_marked(out, mark, low(op))?;
    if high(op) == 0 {
        return Ok(());
    }
    put_marked(out, b':', high(op))
}
