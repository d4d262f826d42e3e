ghost use Rattle.std.specs.Prelude.{◌≡◌, ◌⊎◌, IfOk, IfErr, MatchResult};
ghost use Rattle.book_base.specs.declared.fault.TextFault.{TextFault};
ghost use Rattle.certificate_text.specs.CertificateRules.{IsFirstCertificateFault};
ghost use Rattle.text_fields.specs.Faults.{IsFaultOf};
ghost use Rattle.certificate_text.specs.Certificates.{IsOrderVerdict};

use crate::read_certificate;
use book_base::ReadFault;
use order_check::{OrderFault, check_order};
use std::alloc::Global;

/// Whether a list of places is a legal order of its book, and if not its first fault.
#[derive(Clone, Copy, Debug, PartialEq, Eq)]
pub enum OrderVerdict {
    Legal,
    Faulty(OrderFault),
}

/// Judges the certificate that the bytes are the text of.
///
/// A text fault names the first wrong line, and the first test that this line fails.
pub fn order(alloc: Global, bytes: &[u8]) -> Result<OrderVerdict, ReadFault>
    // A verdict that is answered is the one on the certificate whose text the bytes are.
    ensures verdict { IfOk result (IsOrderVerdict bytes.now) }
    // A refusal has the first fault of the bytes as the text of a certificate, or says want of
    // memory.
    ensures refused { IfErr result (IsFaultOf (IsFirstCertificateFault bytes.now)) }
    // Where the bytes are the text of a certificate, the answer is the verdict on it, unless memory
    // runs out.
    ensures only { (verdict : OrderVerdict) → IsOrderVerdict bytes.now verdict
        → MatchResult result (λ v. v ≡ verdict) (λ e. e ≡ ReadFault.NoMemory) }
    // Where the bytes have a first fault, the answer is that fault, unless memory runs out.
    ensures first { (fault : TextFault) → IsFirstCertificateFault bytes.now fault
        → MatchResult result (λ _. ⊥)
        (λ e. (e ≡ ReadFault.Text fault) ⊎ (e ≡ ReadFault.NoMemory)) }
{
    judged(alloc, bytes)
}

/// Reads the certificate, and tests whether its list of places is a legal order of its book.
#[tactic(auto, using(crate::proofs::CertificateLemmas::certificate_is_legal, crate::proofs::CertificateLemmas::certificate_is_faulty))]
fn judged(alloc: Global, bytes: &[u8]) -> Result<OrderVerdict, ReadFault>
    ensures verdict { IfOk result (IsOrderVerdict bytes.now) }
    ensures refused { IfErr result (IsFaultOf (IsFirstCertificateFault bytes.now)) }
{
    let read = read_certificate(alloc, bytes)?;
    match check_order(alloc, &read.kind, &read.book, &read.order)? {
        Ok(()) => Ok(OrderVerdict::Legal),
        Err(fault) => Ok(OrderVerdict::Faulty(fault)),
    }
}
