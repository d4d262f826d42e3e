//! Whole texts of books.

ghost use Rattle.std.specs.Prelude.{◌≡◌, ◌⊎◌, List, IfOk, IfErr, MatchResult};
ghost use Rattle.book_base.specs.declared.fault.TextFault.{TextFault};
ghost use Rattle.book_base.specs.Book.{Page};
ghost use Rattle.seq_objects.specs.declared.kind.Kind.{Kind};
ghost use Rattle.text_fields.specs.declared.version.Version.TheVariants.{First, Second};
ghost use Rattle.text_fields.specs.Faults.{StopsFor};
ghost use Rattle.text_fields.specs.Head.{TitleDue};
ghost use Rattle.book_text.specs.BookRules.{InHead, book_rules, whole_text, IsBookText, IsNoBookText, IsFirstBookFault};

use crate::calls::read_calls_of;
use crate::ending::read_end;
use book_base::{Book, ReadFault};
use seq_objects::Kind;
use std::alloc::Global;
use text_fields::{KindWords, Lines, Version, read_head_of};

/// The book that the bytes are the text of, in version 2, and the kind of its object.
///
/// A text fault names the first wrong line, and the first test that this line fails.
pub fn read_book(alloc: Global, bytes: &[u8]) -> Result<(Kind, Book), ReadFault>
    // A book that was read is the one that the bytes are the text of.
    ensures found { IfOk result (λ (kind, book). IsBookText Second bytes.now kind book) }
    // A text of a book is read as that book, unless memory runs out.
    ensures only { (kind : Kind) (book : List Page) → IsBookText Second bytes.now kind book
        → MatchResult result (λ (k, b). (k ≡ kind) × (b ≡ book)) (λ e. e ≡ ReadFault.NoMemory) }
    // A fault of the text is the first fault of bytes that are no book's text.
    ensures refused { IfErr result (λ e. (e ≡ ReadFault.NoMemory)
        ⊎ ((fault : TextFault) × (e ≡ ReadFault.Text fault)
        × IsFirstBookFault Second bytes.now fault × IsNoBookText Second bytes.now)) }
    // Where the bytes have a first fault, the answer is that fault, unless memory runs out.
    ensures first { (fault : TextFault) → IsFirstBookFault Second bytes.now fault
        → MatchResult result (λ _. ⊥)
        (λ e. (e ≡ ReadFault.Text fault) ⊎ (e ≡ ReadFault.NoMemory)) }
{
    read_version(Version::Second, alloc, bytes)
}

/// The book that the bytes are the text of, in version 1, and the kind of its object.
///
/// A text fault names the first wrong line, and the first test that this line fails.
pub fn read_book1(alloc: Global, bytes: &[u8]) -> Result<(Kind, Book), ReadFault>
    // A book that was read is the one that the bytes are the text of.
    ensures found { IfOk result (λ (kind, book). IsBookText First bytes.now kind book) }
    // A text of a book is read as that book, unless memory runs out.
    ensures only { (kind : Kind) (book : List Page) → IsBookText First bytes.now kind book
        → MatchResult result (λ (k, b). (k ≡ kind) × (b ≡ book)) (λ e. e ≡ ReadFault.NoMemory) }
    // A fault of the text is the first fault of bytes that are no book's text.
    ensures refused { IfErr result (λ e. (e ≡ ReadFault.NoMemory)
        ⊎ ((fault : TextFault) × (e ≡ ReadFault.Text fault)
        × IsFirstBookFault First bytes.now fault × IsNoBookText First bytes.now)) }
    // Where the bytes have a first fault, the answer is that fault, unless memory runs out.
    ensures first { (fault : TextFault) → IsFirstBookFault First bytes.now fault
        → MatchResult result (λ _. ⊥)
        (λ e. (e ≡ ReadFault.Text fault) ⊎ (e ≡ ReadFault.NoMemory)) }
{
    read_version(Version::First, alloc, bytes)
}

/// The book that the bytes are the text of, in this version, and the kind of its object.
pub(crate) fn read_version(
    version: Version,
    alloc: Global,
    bytes: &[u8],
) -> Result<(Kind, Book), ReadFault>
    ensures found { IfOk result (λ (kind, book). IsBookText version bytes.now kind book) }
    ensures refused { IfErr result (λ e.
        StopsFor (book_rules version) (InHead TitleDue) (whole_text bytes.now) e) }
{
    let mut lines = Lines::new(bytes);
    let head = read_head_of(version, &mut lines, b"book")?;
    let operations = KindWords {
        version,
        kind: head.kind,
    };
    let book = read_calls_of(version, alloc, &mut lines, &head.calls, &operations)?;
    read_end(&mut lines)?;
    Ok((head.kind, book))
}
