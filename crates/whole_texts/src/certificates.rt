//! Certificates of reports, and orders that are found and accepted.
use book_text::read_book;
use frontier_check::{Verdict, check};
use kind_search::SearchedKind;
use named_runs::report_certificate;
use order_check::check_order;
use report_text::read_report;
use std::alloc::Global;
use std::test::Fail;

// The second caller's line has the greatest seen cut of the delivered ones. The third caller's
// error has a still greater one, and the fourth caller stopped.
const FOUR_CALLERS: &[u8] =
    b"report 2\nobject queue\ncallers 4\ncalls 2 1 1 1\n0 0 enq 5 done view 0:1 ok seen 0:1\n0 1 deq pending\n1 0 deq =5 view 0:1 1:1 ok seen 0:1 1:1\n2 0 deq =5 view 0:1 1:1 2:1 error seen 0:1 1:1 2:1\n3 0 enq 6 done view 0:1 1:1 2:1 3:1 unchecked\nend\n";

const FOUR_CERTIFIED: &str =
    "book 2\nobject queue\ncallers 4\ncalls 1 1 0 0\n0 0 enq 5 done view 0:1\n1 0 deq =5 view 0:1 1:1\nend\norder 2\n0 0 done\n1 0 =5\nend\n";

// A report that no run makes, since its one delivered reply has no legal order.
const NOT_LAWFUL: &[u8] =
    b"report 2\nobject queue\ncallers 1\ncalls 1\n0 0 deq =5 view 0:1 ok seen 0:1\nend\n";

// The certificate of the report with this text, where it has one.
fn certificate_of(alloc: Global, text: &[u8]) -> Result<Option<Vec<u8>>, Fail> {
    let report = read_report(alloc, text)?;
    Ok(report_certificate(
        alloc,
        &SearchedKind {
            kind: report.kind(),
        },
        &report,
    )?)
}

#[test]
fn what_was_delivered_is_certified(rt: HostRuntime) -> Result<(), Fail> {
    let Some(certificate) = certificate_of(rt.alloc(), FOUR_CALLERS)? else {
        assert!(rt; false);
        return Ok(());
    };
    assert_eq!(rt; str::from_utf8(&certificate), Ok(FOUR_CERTIFIED));
    assert!(rt; certificate_of(rt.alloc(), NOT_LAWFUL)?.is_none());
    Ok(())
}

// Whether the search finds an order of the book with this text, and the test of orders accepts it.
fn has_accepted_order(alloc: Global, text: &[u8]) -> Result<bool, Fail> {
    let (kind, book) = read_book(alloc, text)?;
    match check(alloc, &SearchedKind { kind }, &book)? {
        Verdict::Legal(order) => Ok(check_order(alloc, &kind, &book, &order)?.is_ok()),
        Verdict::Illegal => Ok(false),
    }
}

#[test]
fn an_order_that_is_found_is_accepted(rt: HostRuntime) -> Result<(), Fail> {
    assert!(rt;
        has_accepted_order(
            rt.alloc(),
            b"book 2\nobject queue\ncallers 2\ncalls 1 1\n0 0 enq 5 done view 0:1 1:1\n1 0 deq =5 view 0:1 1:1\nend\n",
        )?
    );
    assert!(rt;
        !has_accepted_order(
            rt.alloc(),
            b"book 2\nobject queue\ncallers 1\ncalls 1\n0 0 deq =1 view 0:1\nend\n",
        )?
    );
    Ok(())
}
