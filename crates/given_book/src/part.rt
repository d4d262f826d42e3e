//! Which part of an input is a book's text, and in which version.

ghost use Rattle.std.specs.Prelude.{◌↔◌, ◌+◌, ◌<◌, ◌≤◌, drop, length, IsTrue, IsNone, IfSome, List, ℕ};
ghost use Rattle.given_book.specs.FirstError.{IsReportPart};
ghost use Rattle.given_book.specs.Given.{BeginsAsReport, BeginsAsOldBook, IsAfterVerdict, BeginsAsVerdict, HasEndAt, HasNoEnd, IsWitnessPart, IsBookPart};

use text_fields::Version;

/// The part of an input that is read as a book's text, and the version that it is read in.
#[derive(Clone, Copy)]
pub(crate) struct BookPart<'a> {
    pub(crate) version: Version,
    pub(crate) bytes: &'a [u8],
}

/// The part of the bytes that is read as a book's text, and the version that it is read in.
pub(crate) fn book_part(bytes: &[u8]) -> BookPart
    ensures { IsBookPart bytes.now result.version result.bytes.now }
{
    if begins_as_report(bytes) {
        BookPart {
            version: Version::Second,
            bytes: after_end(bytes),
        }
    } else if let Some(rest) = after_verdict(bytes) {
        BookPart {
            version: Version::Second,
            bytes: rest,
        }
    } else if begins_as_old_book(bytes) {
        BookPart {
            version: Version::First,
            bytes,
        }
    } else {
        BookPart {
            version: Version::Second,
            bytes,
        }
    }
}

// The bytes after the first line, where that is a verdict.
fn after_verdict(bytes: &[u8]) -> Option<&[u8]>
    ensures found { IfSome result (λ rest. IsAfterVerdict bytes.now rest.now) }
    ensures none { IsNone result → ¬ (BeginsAsVerdict bytes.now) }
{
    match bytes.strip_prefix(b"illegal\n") {
        Some(rest) => Some(rest),
        None => bytes.strip_prefix(b"legal\n"),
    }
}

fn begins_as_report(bytes: &[u8]) -> bool
    ensures { IsTrue result ↔ BeginsAsReport bytes.now }
{
    bytes.starts_with(b"report 2\n")
}

fn begins_as_old_book(bytes: &[u8]) -> bool
    ensures { IsTrue result ↔ BeginsAsOldBook bytes.now }
{
    bytes.starts_with(b"book 1\n")
}

// The bytes after the first line `end` that isn't the first line of all; no bytes where no line
// after the first is `end`.
fn after_end(bytes: &[u8]) -> &[u8]
    ensures { IsWitnessPart bytes.now result.now }
{
    match place_of_end(bytes) {
        Some(at) => &bytes[at + 5..],
        None => &bytes[bytes.len()..],
    }
}

/// What may be the text of a report at the beginning of the bytes: the bytes up to and with the
/// first line `end` that isn't the first line of all, or all bytes where no line after the first is
/// `end`.
pub(crate) fn report_part(bytes: &[u8]) -> &[u8]
    ensures { IsReportPart bytes.now result.now }
{
    match place_of_end(bytes) {
        Some(at) => &bytes[..at + 5],
        None => bytes,
    }
}

// The first place at which a line feed stands before a line `end`.
fn place_of_end(bytes: &[u8]) -> Option<usize>
    ensures within { IfSome result (λ at. at + 5 ≤ length bytes.now) }
    ensures found { IfSome result (λ at. HasEndAt bytes.now at (drop (at + 5) bytes.now)) }
    ensures first { IfSome result (λ at.
        (i : ℕ) (rest : List ℕ) → i < at → ¬ (HasEndAt bytes.now i rest)) }
    ensures none { IsNone result → HasNoEnd bytes.now }
{
    for at in 0..bytes.len() {
        if has_end_at(bytes, at) {
            return Some(at);
        }
    }
    None
}

fn has_end_at(bytes: &[u8], at: usize) -> bool
    requires { at < length bytes.now }
    ensures within { IsTrue result → at + 5 ≤ length bytes.now }
    ensures has { IsTrue result ↔ ((rest : List ℕ) × HasEndAt bytes.now at rest) }
{
    bytes[at..].starts_with(b"\nend\n")
}
