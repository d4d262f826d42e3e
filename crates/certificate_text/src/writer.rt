//! The text of a certificate.

ghost use Rattle.std.specs.Prelude.{◌≡◌, ◌++◌, IfOk, OnOk};
ghost use Rattle.text_fields.specs.Lines.{line_text};
ghost use Rattle.certificate_text.specs.Grammar.{place_line, IsPlace, IsWrittenCertificate};
ghost use Rattle.certificate_text.specs.CertificateRules.{IsCertificateText};

use book_base::{Book, NoMemory, Place};
use book_text::fields::{put_spaced, put_title};
use book_text::write_book;
use seq_objects::{Kind, put_number, put_reply};
use std::alloc::Global;

/// The one text of a certificate: of a book, for an object of this kind, and a list of places. Any
/// list can be written, whether it is a legal order of the book or not.
pub fn write_certificate(
    alloc: Global,
    kind: Kind,
    book: &Book,
    order: &[Place],
) -> Result<Vec<u8>, NoMemory>
    // The bytes are what is written of the certificate.
    ensures written { IfOk result (λ bytes.
        IsWrittenCertificate bytes.items kind book.now order.now) }
    // A reader reads the bytes as the kind, the book and the places.
    ensures read { IfOk result (λ bytes. IsCertificateText bytes.items kind book.now order.now) }
{
    let mut out = write_book(alloc, kind, book)?;
    put_title(&mut out, b"order")?;
    for place in order {
        put_place_line(&mut out, *place)?;
    }
    out.extend_from_slice(b"end\n")?;
    Ok(out)
}

/// Appends the line of a place.
fn put_place_line(out: &mut Vec<u8>, place: Place) -> Result<(), NoMemory>
    ensures ok { OnOk result (out.new.items ≡ out.old.items ++ line_text (place_line place)) }
    ensures may { OnOk result (IsPlace place) }
{
    put_number(out, u64::from(place.caller))?;
    put_spaced(out, place.number)?;
    out.push(b' ')?;
    put_reply(out, place.reply)?;
    out.push(b'\n')?;
    Ok(())
}
