//! The lines of a book that other lines follow.

ghost use Rattle.std.specs.Prelude.{◌≡◌, ◌↔◌, IsTrue, IfOk, IfErr};
ghost use Rattle.book_text.specs.Grammar.{end_words};
ghost use Rattle.certificate_text.specs.Reading.{IsBookRead, IsNoBook, IsBookEnd, IsNoBookEnd};

use book_base::{Book, ReadFault, TextFault, What};
use book_text::read_calls;
use seq_objects::Kind;
use std::alloc::Global;
use text_fields::{Lines, Words, read_head};

/// The book that the lines begin with, up to its end, and the kind of its object; the lines after
/// it are left.
pub fn read_book_lines(alloc: Global, lines: &mut Lines) -> Result<(Kind, Book), ReadFault>
    // A book that was read is the one whose lines, with its end, the text begins with; they are
    // taken.
    ensures found { IfOk result (λ (kind, book). IsBookRead lines.old kind book lines.new) }
    // An error is the first fault of the book's lines, or want of memory.
    ensures refused { IfErr result (IsNoBook lines.old) }
{
    let head = read_head(lines, b"book")?;
    let book = read_calls(alloc, lines, head.n, &head.calls, &head.kind)?;
    read_book_end(lines)?;
    Ok((head.kind, book))
}

/// Reads the line after a book's calls.
fn read_book_end(lines: &mut Lines) -> Result<(), TextFault>
    ensures found { IfOk result (λ _. IsBookEnd lines.old lines.new) }
    ensures refused { IfErr result (IsNoBookEnd lines.old) }
{
    let line = lines.number();
    let mut words = Words::new(lines.line()?);
    if is_end(&mut words) {
        Ok(())
    } else {
        Err(TextFault {
            line,
            what: What::End,
        })
    }
}

/// Whether the words are those of the last line of a book, or of what follows one.
pub fn is_end(words: &mut Words) -> bool
    // `true` is answered exactly for the word `end` alone.
    ensures { IsTrue result ↔ (words.old ≡ end_words) }
{
    words.next() == Some(b"end".as_slice()) && words.next().is_none()
}
