//! The certificate of a report.

ghost use Rattle.std.specs.Prelude.{IfOk, IfSome, IfNone};
ghost use Rattle.named_runs.specs.Certificates.{HasDeliveredOrder, IsCertificate};

use crate::delivered::delivered_book;
use book_base::NoMemory;
use certificate_text::write_certificate;
use frontier_check::{Verdict, check};
use reports::Report;
use search_hints::SearchHints;
use std::alloc::Global;

/// A certificate of a report: the text of the book at the greatest seen cut of the delivered lines,
/// and of an order of it that is legal for the sequential object. `None` is answered exactly where
/// that book has no legal order; the book of a lawful report has one.
pub fn report_certificate<S: SearchHints>(
    alloc: Global,
    object: &S,
    report: &Report,
) -> Result<Option<Vec<u8>>, NoMemory>
    // A text that is answered is a certificate of the report.
    ensures certificate { IfOk result
        (λ found. IfSome found (λ text. IsCertificate (S.spec object.now) report.now text.items)) }
    // None is answered only where the book of what was delivered has no legal order.
    ensures none { IfOk result
        (λ found. IfNone found (¬ HasDeliveredOrder (S.spec object.now) report.now.lines)) }
{
    let book = delivered_book(alloc, report)?;
    match check(alloc, object, &book)? {
        Verdict::Legal(order) => Ok(Some(write_certificate(alloc, report.kind(), &book, &order)?)),
        Verdict::Illegal => Ok(None),
    }
}
