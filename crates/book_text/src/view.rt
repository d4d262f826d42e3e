//! The view in the line of a call.

ghost use Rattle.std.specs.Prelude.{◌≡◌, ◌≢◌, ℕ, ◌≤◌, ◌∷◌, List, IfSome, IfNone};
ghost use Rattle.book_base.specs.declared.TheConstants.{MAX_CALLERS};
ghost use Rattle.text_fields.specs.declared.version.Version.TheVariants.{First, Second};
ghost use Rattle.book_text.specs.CallLines.{AreView, IsNoView};

use book_base::Cut;
use text_fields::{Version, Words, read_counts, read_pairs};

/// The view after a reply, which nothing may follow.
pub(crate) fn read_view(version: Version, words: &mut Words, n: u32) -> Option<Cut>
    requires some { 1 ≤ n }
    requires few { n ≤ MAX_CALLERS }
    ensures found { IfSome result (λ view. AreView version n view words.old) }
    ensures none { IfNone result (IsNoView version n words.old) }
{
    match version {
        Version::First => first_view(words, n),
        Version::Second => second_view(words, n),
    }
}

/// A view that is written as all its counts.
fn first_view(words: &mut Words, n: u32) -> Option<Cut>
    requires some { 1 ≤ n }
    requires few { n ≤ MAX_CALLERS }
    ensures found { IfSome result (λ view. AreView First n view words.old) }
    ensures none { IfNone result (IsNoView First n words.old) }
{
    take_word(words, b"view")?;
    read_counts(words, n, u64::MAX)
}

/// A view that is written as pairs.
fn second_view(words: &mut Words, n: u32) -> Option<Cut>
    requires some { 1 ≤ n }
    requires few { n ≤ MAX_CALLERS }
    ensures found { IfSome result (λ view. AreView Second n view words.old) }
    ensures none { IfNone result (IsNoView Second n words.old) }
{
    take_word(words, b"view")?;
    let view = read_pairs(words, n)?;
    match words.next() {
        None => Some(view),
        Some(_) => None,
    }
}

/// Takes the next word, which is to be `wanted`.
pub fn take_word(words: &mut Words, wanted: &[u8]) -> Option<()>
    // An answer Some comes only where the next word was `wanted`, and it is taken.
    ensures found { IfSome result (λ _. words.old ≡ wanted.now ∷ words.new) }
    // An answer None comes only where the next word isn't `wanted`.
    ensures none { IfNone result ((suffix : List (List ℕ)) → words.old ≢ wanted.now ∷ suffix) }
{
    if words.next()? == wanted {
        Some(())
    } else {
        None
    }
}
