//! Verdicts on texts, smaller books, explanations and pictures, calls that check themselves or that
//! monitors judge, and checks of histories by models, for programs in other languages: exports over
//! numbers, slices, and places for handles.
#![tactic(auto)]

ghost use Rattle.std.specs.Prelude.{◌≡◌, ◌⊎◌, ℕ, ◌<◌, ◌≤◌, List, drop, length, take};
ghost use Rattle.book_base.specs.declared.fault.TextFault.{TextFault};
ghost use Rattle.book_text.specs.BookRules.{IsFirstBookFault};
ghost use Rattle.certificate_text.specs.CertificateRules.{IsFirstCertificateFault};
ghost use Rattle.text_fields.specs.declared.version.Version.TheVariants.{Second};
ghost use Rattle.certificate_text.specs.Books.{IsTextOfBook, IsLegalBook, IsIllegalBook, Certifies};
ghost use Rattle.certificate_text.specs.Certificates.{IsLegalCertificate, IsIllegalCertificate};
ghost use Rattle.selfcheck_c.specs.Refusals.{IsBookRefusal, IsCertificateRefusal};

mod buffer;
mod crossing;
mod handles;
mod logs;
mod models;
mod placed;
mod refusal;
mod witnesses;

use crate::buffer::put;
pub use crate::refusal::Refusal;
use book_base::ReadFault;
use certificate_text::{BookVerdict, OrderVerdict, certify, order, verify, verify_within};
use std::alloc::Global;

/// The book is legal, or the order of the certificate is.
pub const LEGAL: u32 = 0;
/// The book is illegal, or the order of the certificate is.
pub const ILLEGAL: u32 = 1;
/// The bytes are no text of the wanted form.
pub const REFUSED: u32 = 3;
/// Memory was lacking.
pub const NO_MEMORY: u32 = 6;
/// The buffer is too short for the text that the call would write.
pub const NO_ROOM: u32 = 8;
/// The steps are used up, and nothing is said of the book.
pub const UNKNOWN: u32 = 11;
/// The version: 65536 times the major number, 256 times the minor one, and the patch.
pub const VERSION: u32 = 0x00_01_00;

/// The version of the library, 0.1.0: 65536 times the major number, 256 times the minor one, and
/// the patch.
#[unsafe(no_mangle)]
pub extern "C" fn selfcheck_version() -> u32
    ensures { result ≡ 256 }
{
    VERSION
}

/// Judges the book that the bytes are the text of. Where the text is refused, `refusal` says why;
/// otherwise it stays as it was.
#[unsafe(no_mangle)]
pub extern "C" fn selfcheck_verify(alloc: Global, text: &[u8], refusal: &mut Refusal) -> u32
    // With `LEGAL` the bytes are the text of a book that has a legal order.
    ensures legal { result ≡ LEGAL → IsLegalBook text.now }
    // With `ILLEGAL` the bytes are the text of a book that has no legal order.
    ensures illegal { result ≡ ILLEGAL → IsIllegalBook text.now }
    // With `REFUSED` the bytes are no book's text, and the refusal has the line and the number of
    // their first fault.
    ensures refused { result ≡ REFUSED → IsBookRefusal text.now refusal.new }
    // The status is `LEGAL`, `ILLEGAL`, `REFUSED` or `NO_MEMORY`.
    ensures ends { (result ≡ LEGAL) ⊎ (result ≡ ILLEGAL) ⊎ (result ≡ REFUSED)
        ⊎ (result ≡ NO_MEMORY) }
    // With each status but `REFUSED` the refusal is as it was.
    ensures kept { ¬ (result ≡ REFUSED) → refusal.new ≡ refusal.old }
    // The text of a book with a legal order has the status `LEGAL`, unless memory runs out.
    ensures legal_told { IsLegalBook text.now → (result ≡ LEGAL) ⊎ (result ≡ NO_MEMORY) }
    // The text of a book without a legal order has the status `ILLEGAL`, unless memory runs out.
    ensures illegal_told { IsIllegalBook text.now → (result ≡ ILLEGAL) ⊎ (result ≡ NO_MEMORY) }
    // Bytes that have a first fault have the status `REFUSED`, unless memory runs out.
    ensures fault_told { (fault : TextFault) → IsFirstBookFault Second text.now fault →
        (result ≡ REFUSED) ⊎ (result ≡ NO_MEMORY) }
{
    match verify(alloc, text) {
        Ok(BookVerdict::Legal) => LEGAL,
        Ok(BookVerdict::Illegal) => ILLEGAL,
        Err(ReadFault::Text(fault)) => {
            *refusal = Refusal::from(fault);
            REFUSED
        }
        Err(ReadFault::NoMemory) => NO_MEMORY,
    }
}

/// Judges the book that the bytes are the text of, as `selfcheck_verify` does, by a search of so many
/// steps at the most, as `frontier_check::check_within` counts them.
#[unsafe(no_mangle)]
pub extern "C" fn selfcheck_verify_within(
    alloc: Global,
    text: &[u8],
    steps: u64,
    refusal: &mut Refusal,
) -> u32
    // With `LEGAL` the bytes are the text of a book that has a legal order.
    ensures legal { result ≡ LEGAL → IsLegalBook text.now }
    // With `ILLEGAL` the bytes are the text of a book that has no legal order.
    ensures illegal { result ≡ ILLEGAL → IsIllegalBook text.now }
    // With `UNKNOWN` the bytes are the text of a book, of which nothing else is said.
    ensures unknown { result ≡ UNKNOWN → IsTextOfBook text.now }
    // With `REFUSED` the bytes are no book's text, and the refusal has the line and the number of
    // their first fault.
    ensures refused { result ≡ REFUSED → IsBookRefusal text.now refusal.new }
    // The status is `LEGAL`, `ILLEGAL`, `UNKNOWN`, `REFUSED` or `NO_MEMORY`.
    ensures ends { (result ≡ LEGAL) ⊎ (result ≡ ILLEGAL) ⊎ (result ≡ UNKNOWN) ⊎ (result ≡ REFUSED)
        ⊎ (result ≡ NO_MEMORY) }
    // With each status but `REFUSED` the refusal is as it was.
    ensures kept { ¬ (result ≡ REFUSED) → refusal.new ≡ refusal.old }
    // The text of a book with a legal order has the status `LEGAL` or `UNKNOWN`, unless memory runs
    // out.
    ensures legal_told { IsLegalBook text.now →
        (result ≡ LEGAL) ⊎ (result ≡ UNKNOWN) ⊎ (result ≡ NO_MEMORY) }
    // The text of a book without a legal order has the status `ILLEGAL` or `UNKNOWN`, unless memory
    // runs out.
    ensures illegal_told { IsIllegalBook text.now →
        (result ≡ ILLEGAL) ⊎ (result ≡ UNKNOWN) ⊎ (result ≡ NO_MEMORY) }
    // Bytes that have a first fault have the status `REFUSED`, unless memory runs out.
    ensures fault_told { (fault : TextFault) → IsFirstBookFault Second text.now fault →
        (result ≡ REFUSED) ⊎ (result ≡ NO_MEMORY) }
{
    match verify_within(alloc, text, Some(steps)) {
        Ok(Some(BookVerdict::Legal)) => LEGAL,
        Ok(Some(BookVerdict::Illegal)) => ILLEGAL,
        Ok(None) => UNKNOWN,
        Err(ReadFault::Text(fault)) => {
            *refusal = Refusal::from(fault);
            REFUSED
        }
        Err(ReadFault::NoMemory) => NO_MEMORY,
    }
}

/// Judges the certificate that the bytes are the text of. Where the text is refused, `refusal` says
/// why; otherwise it stays as it was.
#[unsafe(no_mangle)]
pub extern "C" fn selfcheck_order(alloc: Global, text: &[u8], refusal: &mut Refusal) -> u32
    // With `LEGAL` the bytes are the text of a certificate whose order is a legal order of its
    // book.
    ensures legal { result ≡ LEGAL → IsLegalCertificate text.now }
    // With `ILLEGAL` the bytes are the text of a certificate whose order is no legal order of its
    // book.
    ensures illegal { result ≡ ILLEGAL → IsIllegalCertificate text.now }
    // With `REFUSED` the bytes are no certificate's text, and the refusal has the line and the
    // number of their first fault.
    ensures refused { result ≡ REFUSED → IsCertificateRefusal text.now refusal.new }
    // The status is `LEGAL`, `ILLEGAL`, `REFUSED` or `NO_MEMORY`.
    ensures ends { (result ≡ LEGAL) ⊎ (result ≡ ILLEGAL) ⊎ (result ≡ REFUSED)
        ⊎ (result ≡ NO_MEMORY) }
    // With each status but `REFUSED` the refusal is as it was.
    ensures kept { ¬ (result ≡ REFUSED) → refusal.new ≡ refusal.old }
    // A certificate whose order is legal has the status `LEGAL`, unless memory runs out.
    ensures legal_told { IsLegalCertificate text.now → (result ≡ LEGAL) ⊎ (result ≡ NO_MEMORY) }
    // A certificate whose order isn't legal has the status `ILLEGAL`, unless memory runs out.
    ensures illegal_told { IsIllegalCertificate text.now → (result ≡ ILLEGAL)
        ⊎ (result ≡ NO_MEMORY) }
    // Bytes that have a first fault have the status `REFUSED`, unless memory runs out.
    ensures fault_told { (fault : TextFault) → IsFirstCertificateFault text.now fault →
        (result ≡ REFUSED) ⊎ (result ≡ NO_MEMORY) }
{
    match order(alloc, text) {
        Ok(OrderVerdict::Legal) => LEGAL,
        Ok(OrderVerdict::Faulty(_)) => ILLEGAL,
        Err(ReadFault::Text(fault)) => {
            *refusal = Refusal::from(fault);
            REFUSED
        }
        Err(ReadFault::NoMemory) => NO_MEMORY,
    }
}

/// Writes into a buffer the certificate of the book that the bytes are the text of: the book's text
/// with a legal order of it. `written` is the certificate's length, even where the buffer can't
/// hold it and nothing is written. Where the text is refused, `refusal` says why.
#[unsafe(no_mangle)]
pub extern "C" fn selfcheck_certify(
    alloc: Global,
    text: &[u8],
    buffer: &mut [u8],
    written: &mut usize,
    refusal: &mut Refusal,
) -> u32
    // With `LEGAL` the certificate fits the buffer.
    ensures held { result ≡ LEGAL → written.new ≤ length buffer.new }
    // With `LEGAL` the first `written` bytes of the buffer are the text of the book with a legal
    // order of it.
    ensures legal { result ≡ LEGAL → Certifies text.now (take written.new buffer.new) }
    // With `LEGAL` the bytes of the buffer after the first `written` are as they were.
    ensures rest { result ≡ LEGAL → drop written.new buffer.new ≡ drop written.new buffer.old }
    // With `ILLEGAL` the bytes are the text of a book that has no legal order.
    ensures illegal { result ≡ ILLEGAL → IsIllegalBook text.now }
    // With `REFUSED` the bytes are no book's text, and the refusal has the line and the number of
    // their first fault.
    ensures refused { result ≡ REFUSED → IsBookRefusal text.now refusal.new }
    // With `NO_ROOM` the count `written` is greater than the length of the buffer.
    ensures no_room { result ≡ NO_ROOM → length buffer.old < written.new }
    // With `NO_ROOM` there is a certificate, `written` bytes long, of the book.
    ensures unheld { result ≡ NO_ROOM → (wanted : List ℕ) × Certifies text.now wanted
        × (length wanted ≡ written.new) }
    // The status is `LEGAL`, `ILLEGAL`, `REFUSED`, `NO_MEMORY` or `NO_ROOM`.
    ensures ends { (result ≡ LEGAL) ⊎ (result ≡ ILLEGAL) ⊎ (result ≡ REFUSED) ⊎ (result ≡ NO_MEMORY)
        ⊎ (result ≡ NO_ROOM) }
    // With each status but `LEGAL` the buffer is as it was.
    ensures unwritten { ¬ (result ≡ LEGAL) → buffer.new ≡ buffer.old }
    // With each status but `REFUSED` the refusal is as it was.
    ensures kept { ¬ (result ≡ REFUSED) → refusal.new ≡ refusal.old }
    // With each status but `LEGAL` and `NO_ROOM` the count `written` is as it was.
    ensures uncounted { ¬ (result ≡ LEGAL) → ¬ (result ≡ NO_ROOM) → written.new ≡ written.old }
    // The text of a book with a legal order has the status `LEGAL` or `NO_ROOM`, unless memory runs
    // out.
    ensures legal_told { IsLegalBook text.now →
        (result ≡ LEGAL) ⊎ (result ≡ NO_ROOM) ⊎ (result ≡ NO_MEMORY) }
    // The text of a book without a legal order has the status `ILLEGAL`, unless memory runs out.
    ensures illegal_told { IsIllegalBook text.now → (result ≡ ILLEGAL) ⊎ (result ≡ NO_MEMORY) }
    // Bytes that have a first fault have the status `REFUSED`, unless memory runs out.
    ensures fault_told { (fault : TextFault) → IsFirstBookFault Second text.now fault →
        (result ≡ REFUSED) ⊎ (result ≡ NO_MEMORY) }
{
    match certify(alloc, text) {
        Ok(Some(certificate)) => {
            *written = certificate.len();
            if put(buffer, &certificate) {
                LEGAL
            } else {
                NO_ROOM
            }
        }
        Ok(None) => ILLEGAL,
        Err(ReadFault::Text(fault)) => {
            *refusal = Refusal::from(fault);
            REFUSED
        }
        Err(ReadFault::NoMemory) => NO_MEMORY,
    }
}
