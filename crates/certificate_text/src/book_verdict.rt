ghost use Rattle.std.specs.Prelude.{◌≡◌, ◌≢◌, ◌⊎◌, None, IfOk, IfErr, IfSome, IfNone, MatchOption, MatchResult};
ghost use Rattle.book_base.specs.declared.fault.TextFault.{TextFault};
ghost use Rattle.book_text.specs.BookRules.{IsFirstBookFault};
ghost use Rattle.text_fields.specs.declared.version.Version.TheVariants.{Second};
ghost use Rattle.text_fields.specs.Faults.{IsFaultOf};
ghost use Rattle.certificate_text.specs.Books.{IsBookVerdict, IsTextOfBook};

use book_base::ReadFault;
use book_text::read_book;
use frontier_check::{Verdict, check_within};
use kind_search::SearchedKind;
use std::alloc::Global;

/// Whether a book has a legal order.
#[derive(Clone, Copy, Debug, PartialEq, Eq)]
pub enum BookVerdict {
    Legal,
    Illegal,
}

/// Judges the book that the bytes are the text of.
///
/// A text fault names the first wrong line, and the first test that this line fails.
pub fn verify(alloc: Global, bytes: &[u8]) -> Result<BookVerdict, ReadFault>
    // A verdict that is answered is the one on the book whose text the bytes are.
    ensures verdict { IfOk result (IsBookVerdict bytes.now) }
    // A refusal has the first fault of the bytes as the text of a book, or says want of memory.
    ensures refused { IfErr result (IsFaultOf (IsFirstBookFault Second bytes.now)) }
    // Where the bytes are the text of a book, the answer is whether it has a legal order, unless
    // memory runs out.
    ensures only { (verdict : BookVerdict) → IsBookVerdict bytes.now verdict
        → MatchResult result (λ v. v ≡ verdict) (λ e. e ≡ ReadFault.NoMemory) }
    // Where the bytes have a first fault, the answer is that fault, unless memory runs out.
    ensures first { (fault : TextFault) → IsFirstBookFault Second bytes.now fault
        → MatchResult result (λ _. ⊥)
        (λ e. (e ≡ ReadFault.Text fault) ⊎ (e ≡ ReadFault.NoMemory)) }
{
    match verify_within(alloc, bytes, None)? {
        Some(verdict) => Ok(verdict),
        None => unreachable!(),
    }
}

/// Judges the book that the bytes are the text of, as `verify` does, by a search of so many steps at
/// the most, where a number is given. `None` is answered where the steps ended first, as
/// `frontier_check::check_within` has it.
pub fn verify_within(
    alloc: Global,
    bytes: &[u8],
    steps: Option<u64>,
) -> Result<Option<BookVerdict>, ReadFault>
    // A verdict that is answered is the one on the book whose text the bytes are. `None` is answered
    // only where they are the text of a book.
    ensures verdict { IfOk result (λ said.
        MatchOption said (IsTextOfBook bytes.now) (IsBookVerdict bytes.now)) }
    // Where no number of steps is given, a verdict is answered.
    ensures unlimited { IfNone steps (IfOk result (λ said. said ≢ None)) }
    // A refusal has the first fault of the bytes as the text of a book, or says want of memory.
    ensures refused { IfErr result (IsFaultOf (IsFirstBookFault Second bytes.now)) }
    // Where the bytes are the text of a book, no answer but `None` differs from the verdict on it,
    // unless memory runs out.
    ensures only { (verdict : BookVerdict) → IsBookVerdict bytes.now verdict
        → MatchResult result (λ said. IfSome said (λ v. v ≡ verdict))
        (λ e. e ≡ ReadFault.NoMemory) }
    // Where the bytes have a first fault, the answer is that fault, unless memory runs out.
    ensures first { (fault : TextFault) → IsFirstBookFault Second bytes.now fault
        → MatchResult result (λ _. ⊥)
        (λ e. (e ≡ ReadFault.Text fault) ⊎ (e ≡ ReadFault.NoMemory)) }
{
    judged(alloc, bytes, steps)
}

/// Reads the book, and looks for a legal order of it.
#[tactic(auto, unfolding(crate::specs::Books::IsTextOfBook, crate::specs::Books::IsLegalBook, crate::specs::Books::IsIllegalBook))]
fn judged(alloc: Global, bytes: &[u8], steps: Option<u64>) -> Result<Option<BookVerdict>, ReadFault>
    ensures verdict { IfOk result (λ said.
        MatchOption said (IsTextOfBook bytes.now) (IsBookVerdict bytes.now)) }
    ensures unlimited { IfNone steps (IfOk result (λ said. said ≢ None)) }
    ensures refused { IfErr result (IsFaultOf (IsFirstBookFault Second bytes.now)) }
{
    let (kind, book) = read_book(alloc, bytes)?;
    match check_within(alloc, &SearchedKind { kind }, &book, steps)? {
        Some(Verdict::Legal(_)) => Ok(Some(BookVerdict::Legal)),
        Some(Verdict::Illegal) => Ok(Some(BookVerdict::Illegal)),
        None => Ok(None),
    }
}
