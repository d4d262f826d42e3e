ghost use Rattle.std.specs.Prelude.{◌≡◌, ◌⊎◌, IfOk, IfErr, IsSome, IsNone, MatchOption, MatchResult};
ghost use Rattle.book_base.specs.declared.fault.TextFault.{TextFault};
ghost use Rattle.book_text.specs.BookRules.{IsFirstBookFault};
ghost use Rattle.text_fields.specs.declared.version.Version.TheVariants.{Second};
ghost use Rattle.text_fields.specs.Faults.{IsFaultOf};
ghost use Rattle.certificate_text.specs.Books.{Certifies, IsLegalBook, IsIllegalBook};

use crate::write_certificate;
use book_base::ReadFault;
use book_text::read_book;
use frontier_check::{Verdict, check};
use kind_search::SearchedKind;
use std::alloc::Global;

/// Reads the book whose text the bytes are, and answers the text of a certificate: the book with a
/// legal order of it. No text is answered where the book has no legal order.
///
/// A text fault names the first wrong line, and the first test that this line fails.
pub fn certify(alloc: Global, bytes: &[u8]) -> Result<Option<Vec<u8>>, ReadFault>
    // A text that is answered is one of a certificate with a legal order, for the book whose text
    // the bytes are. No text is answered only where that book has no legal order.
    ensures certificate { IfOk result (λ found.
        MatchOption found (IsIllegalBook bytes.now) (λ text. Certifies bytes.now text.items)) }
    // A refusal has the first fault of the bytes as the text of a book, or says want of memory.
    ensures refused { IfErr result (IsFaultOf (IsFirstBookFault Second bytes.now)) }
    // Where the bytes are the text of a book with a legal order, a certificate is answered, unless
    // memory runs out.
    ensures legal { IsLegalBook bytes.now
        → MatchResult result IsSome (λ e. e ≡ ReadFault.NoMemory) }
    // Where the bytes are the text of a book without a legal order, no certificate is answered, or
    // memory runs out.
    ensures illegal { IsIllegalBook bytes.now
        → MatchResult result IsNone (λ e. e ≡ ReadFault.NoMemory) }
    // Where the bytes have a first fault, the answer is that fault, unless memory runs out.
    ensures first { (fault : TextFault) → IsFirstBookFault Second bytes.now fault
        → MatchResult result (λ _. ⊥)
        (λ e. (e ≡ ReadFault.Text fault) ⊎ (e ≡ ReadFault.NoMemory)) }
{
    written(alloc, bytes)
}

/// Reads the book, looks for a legal order of it, and writes the certificate.
#[tactic(auto, unfolding(crate::specs::Books::Certifies, crate::specs::Books::IsIllegalBook))]
fn written(alloc: Global, bytes: &[u8]) -> Result<Option<Vec<u8>>, ReadFault>
    ensures certificate { IfOk result (λ found.
        MatchOption found (IsIllegalBook bytes.now) (λ text. Certifies bytes.now text.items)) }
    ensures refused { IfErr result (IsFaultOf (IsFirstBookFault Second bytes.now)) }
{
    let (kind, book) = read_book(alloc, bytes)?;
    match check(alloc, &SearchedKind { kind }, &book)? {
        Verdict::Legal(order) => Ok(Some(write_certificate(alloc, kind, &book, &order)?)),
        Verdict::Illegal => Ok(None),
    }
}
