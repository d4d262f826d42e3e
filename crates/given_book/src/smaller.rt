ghost use Rattle.std.specs.Prelude.{◌≡◌, ◌⊎◌, IfOk, IfErr, IsSome, IsNone, MatchOption, MatchResult};
ghost use Rattle.book_base.specs.declared.fault.TextFault.{TextFault};
ghost use Rattle.given_book.specs.Given.{IsFirstGivenFault, IsNotGiven};
ghost use Rattle.given_book.specs.Texts.{IsLegalGiven, IsIllegalGiven, IsSmallerWitness};

use crate::read_given;
use book_base::ReadFault;
use book_text::write_book;
use smaller_book::shrink;
use std::alloc::Global;

/// The text of a smaller book without a legal order, a part of the book that the bytes give; `None`
/// where the given book has a legal order.
///
/// A text fault names the first line that is wrong, counted from the title of the book, and the
/// first test that this line fails.
pub fn smaller_text(alloc: Global, bytes: &[u8]) -> Result<Option<Vec<u8>>, ReadFault>
    // With `None` the bytes give a book that has a legal order. With a text they give a book that
    // has none, and the text is that of a minimal part of it without a legal order.
    ensures smaller { IfOk result (λ found.
        MatchOption found (IsLegalGiven bytes.now)
        (λ text. IsSmallerWitness bytes.now text.items)) }
    // An error is the first fault of the bytes, which then give no book, or that memory ran out.
    ensures refused { IfErr result (IsNotGiven bytes.now) }
    // A given book with a legal order has no smaller text, unless memory runs out.
    ensures legal { IsLegalGiven bytes.now
        → MatchResult result IsNone (λ e. e ≡ ReadFault.NoMemory) }
    // A given book without a legal order has a smaller text, unless memory runs out.
    ensures illegal { IsIllegalGiven bytes.now
        → MatchResult result IsSome (λ e. e ≡ ReadFault.NoMemory) }
    // Where the bytes have a first fault, the answer is that fault, unless memory runs out.
    ensures first { (fault : TextFault) → IsFirstGivenFault bytes.now fault
        → MatchResult result (λ _. ⊥)
        (λ e. (e ≡ ReadFault.Text fault) ⊎ (e ≡ ReadFault.NoMemory)) }
{
    written(alloc, bytes)
}

// Reads the bytes, and writes a smaller book of the book that they give, where this has no legal
// order.
fn written(alloc: Global, bytes: &[u8]) -> Result<Option<Vec<u8>>, ReadFault>
    ensures smaller { IfOk result (λ found.
        MatchOption found (IsLegalGiven bytes.now)
        (λ text. IsSmallerWitness bytes.now text.items)) }
    ensures refused { IfErr result (IsNotGiven bytes.now) }
{
    let (kind, book) = read_given(alloc, bytes)?;
    match shrink(alloc, kind, &book)? {
        Some(smaller) => Ok(Some(write_book(alloc, kind, &smaller.book)?)),
        None => Ok(None),
    }
}
