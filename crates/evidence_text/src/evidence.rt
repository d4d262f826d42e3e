//! Evidence for the verdict on the book that bytes are the text of.

ghost use Rattle.std.specs.Prelude.{◌≡◌, ◌⊎◌, IfOk, IfErr, MatchResult};
ghost use Rattle.book_base.specs.declared.fault.TextFault.{TextFault};
ghost use Rattle.text_fields.specs.declared.version.Version.TheVariants.{Second};
ghost use Rattle.text_fields.specs.Faults.{IsFaultOf};
ghost use Rattle.book_text.specs.BookRules.{IsFirstBookFault};
ghost use Rattle.certificate_text.specs.Books.{IsLegalBook, IsIllegalBook};
ghost use Rattle.evidence_text.specs.Evidence.{IsEvidenceFor, IsCertificate, IsNoCertificate, HasImpossibleReply, IsNamedBy, evidence_of};

use crate::finding::refutation_of;
use book_base::ReadFault;
use book_text::read_book;
use certificate_text::certify;
use std::alloc::Global;

/// How long a refutation may be.
#[derive(Clone, Copy, Debug)]
pub struct Limits {
    /// How many items its list may have.
    pub items: u64,
    /// How many bytes its text may have.
    pub bytes: u64,
}

/// Which limit was met.
#[derive(Clone, Copy, Debug, PartialEq, Eq)]
pub enum Limit {
    Items,
    Bytes,
}

/// Evidence for the verdict on a book.
#[derive(Debug, Drop)]
pub enum Evidence {
    /// The text of a certificate: the book has a legal order.
    Certificate(Vec<u8>),
    /// The text of a refutation: the book has no legal order.
    Refutation(Vec<u8>),
    /// The book has no legal order, and no refutation was found within this limit.
    NotFound(Limit),
}

/// Reads the book whose text the bytes are, and answers evidence for the verdict on it.
///
/// The search for a refutation isn't trusted: what it finds is judged as the text that it is. No
/// clause says how often it finds one where each reply is possible.
///
/// A text fault names the first wrong line, and the first test that this line fails.
pub fn evidence_for(alloc: Global, bytes: &[u8], limits: Limits) -> Result<Evidence, ReadFault>
    // A certificate is one of this book with a legal order. A refutation is a right one of this
    // book, within the limit of bytes. `NotFound` is answered only where the book has no legal
    // order; by the limit of bytes only where a right refutation is longer.
    ensures evidence { IfOk result (IsEvidenceFor bytes.now limits) }
    // A refusal has the first fault of the bytes as the text of a book, or says want of memory.
    ensures refused { IfErr result (IsFaultOf (IsFirstBookFault Second bytes.now)) }
    // Where the bytes are the text of a book with a legal order, a certificate is answered, unless
    // memory runs out.
    ensures legal { IsLegalBook bytes.now
        → MatchResult result IsCertificate (λ e. e ≡ ReadFault.NoMemory) }
    // Where the bytes are the text of a book without a legal order, no certificate is answered.
    ensures illegal { IsIllegalBook bytes.now
        → MatchResult result IsNoCertificate (λ e. e ≡ ReadFault.NoMemory) }
    // Where a reply of the book is impossible, the refutation that names the first such call,
    // without a step, is answered if its text is within the limit, unless memory runs out.
    ensures impossible { HasImpossibleReply bytes.now
        → MatchResult result (IsNamedBy bytes.now limits) (λ e. e ≡ ReadFault.NoMemory) }
    // Where the bytes have a first fault, the answer is that fault, unless memory runs out.
    ensures first { (fault : TextFault) → IsFirstBookFault Second bytes.now fault
        → MatchResult result (λ _. ⊥)
        (λ e. (e ≡ ReadFault.Text fault) ⊎ (e ≡ ReadFault.NoMemory)) }
{
    found(alloc, bytes, limits)
}

// Looks for a certificate, and else for a refutation.
#[tactic(auto, using(crate::proofs::Answers::certified_possible))]
fn found(alloc: Global, bytes: &[u8], limits: Limits) -> Result<Evidence, ReadFault>
    ensures evidence { IfOk result (IsEvidenceFor bytes.now limits) }
    ensures refused { IfErr result (IsFaultOf (IsFirstBookFault Second bytes.now)) }
    ensures impossible { IfOk result (λ e. HasImpossibleReply bytes.now
        → IsNamedBy bytes.now limits e) }
{
    match certify(alloc, bytes)? {
        Some(text) => Ok(Evidence::Certificate(text)),
        None => refuted(alloc, bytes, limits),
    }
}

// Looks for a refutation of a book that has no legal order.
#[tactic(auto, using(crate::proofs::Answers::evidence_from))]
fn refuted(alloc: Global, bytes: &[u8], limits: Limits) -> Result<Evidence, ReadFault>
    requires { IsIllegalBook bytes.now }
    ensures evidence { IfOk result (IsEvidenceFor bytes.now limits) }
    ensures refused { IfErr result (IsFaultOf (IsFirstBookFault Second bytes.now)) }
    ensures impossible { IfOk result (λ e. HasImpossibleReply bytes.now
        → IsNamedBy bytes.now limits e) }
{
    let (kind, book) = read_book(alloc, bytes)?;
    Ok(evidence_of(refutation_of(alloc, kind, &book, limits)?))
}

// The evidence that a search for a refutation gives.
fn evidence_of(found: Result<Vec<u8>, Limit>) -> Evidence
    ensures { result ≡ evidence_of found }
{
    match found {
        Ok(text) => Evidence::Refutation(text),
        Err(limit) => Evidence::NotFound(limit),
    }
}
