ghost use Rattle.std.specs.Prelude.{◌≡◌, ◌≢◌, ℕ, ◌^◌, ◌<◌, [], ◌∷◌, ◌++◌, ◌⊎◌, ◌↔◌, decimal, slice_index, IsTrue, IfSome, IfNone, MatchOption, List, OnOk, OnErr};
ghost use Rattle.std.specs.Int.{IsInRange};
ghost use Rattle.seq_objects.specs.Words.{AppendsPrefix};

use book_base::NoMemory;
use itoa::Buffer;

/// Whether a word begins as a number does: it is `0`, or its first byte is a digit above 0.
fn begins_as_number(word: &[u8]) -> bool
    ensures { IsTrue result ↔ ((word.now ≡ 48 ∷ []) ⊎ IsInRange 49 57 (slice_index word.now 0)) }
{
    matches!(word, [b'0'] | [b'1'..=b'9', ..])
}

/// The number below 2^64 that a word spells in decimal digits, without a leading zero.
pub fn number(word: &[u8]) -> Option<u64>
    // A number that is answered is the one whose decimal digits the word is.
    ensures found { IfSome result (λ n. decimal n ≡ word.now) }
    // None is answered only where the word is the decimal digits of no number below 2^64.
    ensures none { IfNone result ((n : ℕ) → n < 2 ^ 64 → decimal n ≢ word.now) }
{
    if !begins_as_number(word) {
        return None;
    }
    let Ok(text) = str::from_utf8(word) else {
        return None;
    };
    text.parse().ok()
}

/// The argument that a word spells: a number below 2^32.
pub fn argument(word: &[u8]) -> Option<u32>
    ensures found { IfSome result (λ n. decimal n ≡ word.now) }
    ensures none { IfNone result ((n : ℕ) → n < 2 ^ 32 → decimal n ≢ word.now) }
{
    u32::try_from(number(word)?).ok()
}

/// Appends a number in decimal digits.
pub fn put_number(out: &mut Vec<u8>, n: u64) -> Result<(), NoMemory>
    // After an answer Ok the vector has the digits of the number after what it held.
    ensures ok { OnOk result (out.new.items ≡ out.old.items ++ decimal n) }
    // After want of memory the vector has what it held.
    ensures err { OnErr result (out.new.items ≡ out.old.items) }
{
    out.extend_from_slice(Buffer::new().format(n).as_bytes())?;
    Ok(())
}

/// Appends a byte, and after it a number in decimal digits.
pub fn put_marked(out: &mut Vec<u8>, mark: u8, n: u64) -> Result<(), NoMemory>
    ensures ok { OnOk result (out.new.items ≡ out.old.items ++ mark ∷ decimal n) }
    ensures err { OnErr result (AppendsPrefix out.old.items out.new.items (mark ∷ decimal n)) }
{
    out.push(mark)?;
    put_number(out, n)
}

/// The bytes after the first one of a word, where the first one is `mark`.
pub fn suffix(mark: u8, word: &[u8]) -> Option<&[u8]>
    ensures found { IfSome result (λ rest. word.now ≡ mark ∷ rest.now) }
    ensures none { IfNone result ((rest : List ℕ) → word.now ≢ mark ∷ rest) }
{
    match word {
        [first, rest @ ..] if *first == mark => Some(rest),
        _ => None,
    }
}
