ghost use Rattle.std.specs.Prelude.{◌≡◌, ◌⊎◌, List, string_bytes, IfOk, IfErr, MatchResult};
ghost use Rattle.book_base.specs.declared.fault.TextFault.{TextFault};
ghost use Rattle.book_base.specs.Book.{Page};
ghost use Rattle.seq_objects.specs.declared.kind.Kind.{Kind};
ghost use Rattle.given_book.specs.Given.{IsGiven, IsFirstGivenFault, IsNotGiven};
ghost use Rattle.given_book.specs.Texts.{IsPictureOf};

use crate::marking::marks_for;
use crate::{first_error, read_given};
use book_base::ReadFault;
use book_picture::draw_book;
use frontier_check::check;
use kind_search::SearchedKind;
use std::alloc::Global;

/// The picture, as SVG, of the book that the bytes give.
///
/// A text fault names the first line that is wrong, counted from the title of the book, and the
/// first test that this line fails.
pub fn picture_text(alloc: Global, bytes: &[u8]) -> Result<String, ReadFault>
    // The text is a picture of the book that the bytes give.
    ensures shown { IfOk result (λ text. IsPictureOf bytes.now (string_bytes text)) }
    // An error is the first fault of the bytes, which then give no book, or that memory ran out.
    ensures refused { IfErr result (IsNotGiven bytes.now) }
    // A given book is drawn, unless memory runs out.
    ensures drawn { (kind : Kind) (book : List Page) → IsGiven bytes.now kind book
        → IfErr result (λ e. e ≡ ReadFault.NoMemory) }
    // Where the bytes have a first fault, the answer is that fault, unless memory runs out.
    ensures first { (fault : TextFault) → IsFirstGivenFault bytes.now fault
        → MatchResult result (λ _. ⊥)
        (λ e. (e ≡ ReadFault.Text fault) ⊎ (e ≡ ReadFault.NoMemory)) }
{
    drawn(alloc, bytes)
}

// Reads the bytes, judges the book that they give, and draws it.
fn drawn(alloc: Global, bytes: &[u8]) -> Result<String, ReadFault>
    ensures shown { IfOk result (λ text. IsPictureOf bytes.now (string_bytes text)) }
    ensures refused { IfErr result (IsNotGiven bytes.now) }
{
    let (kind, book) = read_given(alloc, bytes)?;
    let error = first_error(alloc, bytes)?;
    let verdict = check(alloc, &SearchedKind { kind }, &book)?;
    let marks = marks_for(alloc, kind, &book, &verdict);
    Ok(draw_book(alloc, kind, &book, &verdict, &marks, error)?)
}
