//! Whole texts of certificates.

ghost use Rattle.std.specs.Prelude.{◌≡◌, ◌⊎◌, ℕ, [], List, IfOk, IfErr, MatchResult};
ghost use Rattle.book_base.specs.declared.call.Place.{Place};
ghost use Rattle.book_base.specs.declared.fault.TextFault.{TextFault};
ghost use Rattle.book_base.specs.Book.{Page};
ghost use Rattle.seq_objects.specs.declared.kind.Kind.{Kind};
ghost use Rattle.book_text.specs.BookRules.{whole_text};
ghost use Rattle.certificate_text.specs.CertificateRules.{nothing_read, IsCertificateText, IsNoCertificateText, IsFirstCertificateFault};
ghost use Rattle.certificate_text.specs.Reading.{Stops, IsRest};

use crate::book_lines::read_book_lines;
use crate::certificate::Certificate;
use crate::places::{read_places, read_title};
use book_base::{ReadFault, TextFault, What};
use std::alloc::Global;
use text_fields::Lines;

/// The certificate that the bytes are the text of.
///
/// A text fault names the first wrong line, and the first test that this line fails. The lines of
/// the book are refused as in a book's text. The order may name calls that the book doesn't have:
/// no test of the text looks for that.
pub fn read_certificate(alloc: Global, bytes: &[u8]) -> Result<Certificate, ReadFault>
    // A certificate that was read is the one that the bytes are the text of.
    ensures found { IfOk result (λ read.
        IsCertificateText bytes.now read.kind read.book read.order.items) }
    // A text of a certificate is read as that certificate, unless memory runs out.
    ensures only { (kind : Kind) (book : List Page) (order : List Place)
        → IsCertificateText bytes.now kind book order → MatchResult result (λ read.
        (read.kind ≡ kind) × (read.book ≡ book) × (read.order.items ≡ order))
        (λ e. e ≡ ReadFault.NoMemory) }
    // A fault of the text is the first fault of bytes that are no certificate's text.
    ensures refused { IfErr result (λ e. (e ≡ ReadFault.NoMemory)
        ⊎ ((fault : TextFault) × (e ≡ ReadFault.Text fault)
        × IsFirstCertificateFault bytes.now fault × IsNoCertificateText bytes.now)) }
    // Where the bytes have a first fault, the answer is that fault, unless memory runs out.
    ensures first { (fault : TextFault) → IsFirstCertificateFault bytes.now fault
        → MatchResult result (λ _. ⊥)
        (λ e. (e ≡ ReadFault.Text fault) ⊎ (e ≡ ReadFault.NoMemory)) }
{
    read_parts(alloc, bytes)
}

/// The book and the order that the bytes are the text of.
fn read_parts(alloc: Global, bytes: &[u8]) -> Result<Certificate, ReadFault>
    ensures found { IfOk result (λ read.
        IsCertificateText bytes.now read.kind read.book read.order.items) }
    ensures refused { IfErr result (Stops nothing_read (whole_text bytes.now)) }
{
    let mut lines = Lines::new(bytes);
    let (kind, book) = read_book_lines(alloc, &mut lines)?;
    read_title(&mut lines)?;
    let order = read_places(alloc, &mut lines)?;
    no_more(&lines)?;
    Ok(Certificate { kind, book, order })
}

/// Refuses bytes after the end.
fn no_more(lines: &Lines) -> Result<(), TextFault>
    ensures whole { IfOk result (λ _. lines.now.bytes ≡ []) }
    ensures refused { IfErr result (IsRest lines.now) }
{
    if lines.at_end() {
        Ok(())
    } else {
        Err(TextFault {
            line: lines.number(),
            what: What::Rest,
        })
    }
}
