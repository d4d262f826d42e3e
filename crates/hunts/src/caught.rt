//! The texts of what a hunt caught.

ghost use Rattle.std.specs.Prelude.{◌≡◌, None, IfOk};
ghost use Rattle.book_picture.specs.Elements.{IsPicture};
ghost use Rattle.book_picture.specs.declared.marked_calls.MarkedCalls.TheVariants.{Unasked};
ghost use Rattle.book_base.specs.Order.{HasLegalOrder};
ghost use Rattle.seq_objects.specs.Objects.{kind_spec};
ghost use Rattle.hunts.specs.Caught.{IsSmallerWitness, IsSmallerText};
ghost use Rattle.hunts.specs.Caught.{IsSmallerPicture, IsReportShown, IsFindingShown, IsShown};

use crate::Catch;
use crate::shown::Shown;
use book_base::{Book, NoMemory};
use book_picture::{MarkedCalls, draw_book};
use book_text::write_book;
use frontier_check::Verdict;
use report_text::report_text;
use seq_objects::Kind;
use smaller_book::shrink;
use std::alloc::Global;

/// The text of a catch over an object of this kind, in the form in which it is to be shown.
pub(crate) fn caught_text<T>(
    alloc: Global,
    kind: Kind,
    shown: Shown,
    catch: &Catch<T>,
) -> Result<Vec<u8>, NoMemory>
    requires { ¬ HasLegalOrder (kind_spec kind) catch.now.witness }
    ensures { IfOk result (λ text. IsShown kind catch.now shown text.items) }
{
    match shown {
        Shown::Smaller => smaller_text(alloc, kind, &catch.witness),
        Shown::Report => report_and_witness(alloc, kind, catch),
        Shown::Picture => picture(alloc, kind, &catch.witness),
        Shown::Finding => finding(alloc, kind, catch),
    }
}

/// The text of a catch's report, and after it that of its witness.
fn report_and_witness<T>(alloc: Global, kind: Kind, catch: &Catch<T>) -> Result<Vec<u8>, NoMemory>
    ensures { IfOk result (λ text. IsReportShown kind catch.now text.items) }
{
    let mut text = report_text(alloc, &catch.report)?;
    let witness = write_book(alloc, kind, &catch.witness)?;
    text.extend_from_slice(&witness)?;
    Ok(text)
}

/// The smaller book of a witness: a minimal part of it without a legal order.
fn smaller(alloc: Global, kind: Kind, witness: &Book) -> Result<Book, NoMemory>
    requires { ¬ HasLegalOrder (kind_spec kind) witness.now }
    ensures { IfOk result (IsSmallerWitness kind witness.now) }
{
    match shrink(alloc, kind, witness)? {
        Some(smaller) => Ok(smaller.book),
        None => unreachable!(),
    }
}

/// The text of the smaller book of a witness.
fn smaller_text(alloc: Global, kind: Kind, witness: &Book) -> Result<Vec<u8>, NoMemory>
    requires { ¬ HasLegalOrder (kind_spec kind) witness.now }
    ensures { IfOk result (λ text. IsSmallerText kind witness.now text.items) }
{
    let book = smaller(alloc, kind, witness)?;
    let text = write_book(alloc, kind, &book)?;
    Ok(text)
}

/// The texts of a catch's report, of its witness and of the smaller book, and the picture of this
/// one.
fn finding<T>(alloc: Global, kind: Kind, catch: &Catch<T>) -> Result<Vec<u8>, NoMemory>
    requires { ¬ HasLegalOrder (kind_spec kind) catch.now.witness }
    ensures { IfOk result (λ text. IsFindingShown kind catch.now text.items) }
{
    let mut text = report_and_witness(alloc, kind, catch)?;
    let book = smaller(alloc, kind, &catch.witness)?;
    let small = write_book(alloc, kind, &book)?;
    let drawn = drawn(alloc, kind, &book)?;
    text.extend_from_slice(&small)?;
    text.extend_from_slice(&drawn)?;
    Ok(text)
}

/// The picture of the smaller book of a witness.
fn picture(alloc: Global, kind: Kind, witness: &Book) -> Result<Vec<u8>, NoMemory>
    requires { ¬ HasLegalOrder (kind_spec kind) witness.now }
    ensures { IfOk result (λ text. IsSmallerPicture kind witness.now text.items) }
{
    let book = smaller(alloc, kind, witness)?;
    drawn(alloc, kind, &book)
}

/// The picture of a book without a legal order, without numbers and marks.
fn drawn(alloc: Global, kind: Kind, book: &Book) -> Result<Vec<u8>, NoMemory>
    requires { ¬ HasLegalOrder (kind_spec kind) book.now }
    ensures { IfOk result (λ text. IsPicture kind book.now None Unasked None text.items) }
{
    let text = draw_book(
        alloc,
        kind,
        book,
        &Verdict::Illegal,
        &MarkedCalls::Unasked,
        None,
    )?;
    Ok(text.into_bytes())
}
