ghost use Rattle.std.specs.Prelude.{◌≡◌, ◌⊎◌, List, IfOk, IfErr, MatchResult};
ghost use Rattle.book_base.specs.Book.{Page};
ghost use Rattle.book_base.specs.declared.fault.TextFault.{TextFault};
ghost use Rattle.seq_objects.specs.declared.kind.Kind.{Kind};
ghost use Rattle.given_book.specs.Given.{IsGiven, IsNotGiven, IsFirstGivenFault};

use crate::part::book_part;
use book_base::{Book, ReadFault};
use book_text::{read_book, read_book1};
use seq_objects::Kind;
use std::alloc::Global;
use text_fields::Version;

/// The book that an input gives, and the kind of its object. It is the book of a book's text, in
/// version 1 or 2, or the witness that the whole output of a run has after its report, or that of
/// monitors after their verdict.
///
/// A text fault names the first line that is wrong, counted from the title of the book, and the
/// first test that this line fails. A report or a verdict without a witness is refused as a book's
/// text that is cut in line 1.
pub fn read_given(alloc: Global, bytes: &[u8]) -> Result<(Kind, Book), ReadFault>
    // A kind and a book that are answered are those that the input gives.
    ensures found { IfOk result (λ (kind, book). IsGiven bytes.now kind book) }
    // The book that an input gives is what is read of it, unless memory runs out.
    ensures only { (kind : Kind) (book : List Page) → IsGiven bytes.now kind book
        → MatchResult result (λ (k, b). (k ≡ kind) × (b ≡ book)) (λ e. e ≡ ReadFault.NoMemory) }
    // A refusal is the input's first fault, or want of memory.
    ensures refused { IfErr result (IsNotGiven bytes.now) }
    // Where an input has a first fault, the answer is that fault, unless memory runs out.
    ensures first { (fault : TextFault) → IsFirstGivenFault bytes.now fault
        → MatchResult result (λ _. ⊥)
        (λ e. (e ≡ ReadFault.Text fault) ⊎ (e ≡ ReadFault.NoMemory)) }
{
    let part = book_part(bytes);
    match part.version {
        Version::First => read_book1(alloc, part.bytes),
        Version::Second => read_book(alloc, part.bytes),
    }
}
