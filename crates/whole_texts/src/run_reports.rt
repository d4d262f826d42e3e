//! Reports: the text of one, its book and its witness, and texts that are no report's.
use book_base::{ReadFault, TextFault, What};
use book_text::write_book;
use report_text::{read_report, report_text};
use reports::cases::worked_report;
use std::test::Fail;

// One call is delivered, one is an error, one wasn't judged, and one is under way. The witness has
// neither the call that is under way nor the third caller's record.
#[test]
fn a_report_has_its_text_its_book_and_its_witness(rt: HostRuntime) -> Result<(), Fail> {
    let report = worked_report(rt.alloc())?;
    let text = report_text(rt.alloc(), &report)?;
    assert_eq!(rt;
        str::from_utf8(&text),
        Ok(
            "report 2\nobject queue\ncallers 3\ncalls 2 1 1\n0 0 #5 #50 view 0:1 ok seen 0:1\n0 1 #7 pending\n1 0 #6 #61 view 0:1 1:1 error seen 0:1 1:1\n2 0 #8 #80 view 0:1 1:1 2:1 unchecked\nend\n"
        )
    );
    let book = report.book(rt.alloc())?;
    let text = write_book(rt.alloc(), report.kind(), &book)?;
    assert_eq!(rt;
        str::from_utf8(&text),
        Ok(
            "book 2\nobject queue\ncallers 3\ncalls 2 1 1\n0 0 #5 #50 view 0:1\n0 1 #7\n1 0 #6 #61 view 0:1 1:1\n2 0 #8 #80 view 0:1 1:1 2:1\nend\n"
        )
    );
    let Some(witness) = report.witness(rt.alloc())? else {
        assert!(rt; false);
        return Ok(());
    };
    let text = write_book(rt.alloc(), report.kind(), &witness)?;
    assert_eq!(rt;
        str::from_utf8(&text),
        Ok(
            "book 2\nobject queue\ncallers 3\ncalls 1 1 0\n0 0 #5 #50 view 0:1\n1 0 #6 #61 view 0:1 1:1\nend\n"
        )
    );
    Ok(())
}

// Texts that are no report's, with their first faults. Where a line fails two tests the first one
// is answered, so a wrong view comes before a wrong mark and before a wrong seen cut.
#[test]
fn a_text_is_refused_for_its_first_fault(rt: HostRuntime) {
    let cases: [(&[u8], u64, What); 30] = [
        (b"report 1\n", 1, What::Head),
        (b"report 2\nobject heap\n", 2, What::Object),
        (b"report 2\nobject counter\ncallers 17\n", 3, What::Callers),
        (
            b"report 2\nobject counter\ncallers 1\ncalls 257\n",
            4,
            What::Calls,
        ),
        (
            b"report 2\nobject counter\ncallers 1\ncalls 1\nend\n",
            5,
            What::Place,
        ),
        (
            b"report 2\nobject counter\ncallers 1\ncalls 1\n0 0 deq pending\nend\n",
            5,
            What::Op,
        ),
        (
            b"report 2\nobject counter\ncallers 1\ncalls 1\n0 0 inc\nend\n",
            5,
            What::Reply,
        ),
        (
            b"report 2\nobject counter\ncallers 1\ncalls 1\n0 0 inc pending 1\nend\n",
            5,
            What::Reply,
        ),
        (
            b"report 2\nobject counter\ncallers 1\ncalls 1\n0 0 inc =07 view 0:1 unchecked\nend\n",
            5,
            What::Reply,
        ),
        (
            b"report 2\nobject counter\ncallers 1\ncalls 1\n0 0 inc =0 unchecked\nend\n",
            5,
            What::View,
        ),
        (
            b"report 2\nobject counter\ncallers 1\ncalls 1\n0 0 inc =0 view 0:2 done\nend\n",
            5,
            What::ViewOutside,
        ),
        (
            b"report 2\nobject counter\ncallers 1\ncalls 1\n0 0 inc =0 view ok seen 0:01\nend\n",
            5,
            What::ViewLacksOwn,
        ),
        (
            b"report 2\nobject counter\ncallers 1\ncalls 2\n0 0 inc =0 view 0:2 ok seen 1:1\nend\n",
            5,
            What::ViewHasLater,
        ),
        (
            b"report 2\nobject counter\ncallers 2\ncalls 1 1\n0 0 inc =0 view 0:1 unchecked\n1 0 inc =0 view 1:1 error seen 1:1 1\nend\n",
            6,
            What::ViewsCross,
        ),
        (
            b"report 2\nobject counter\ncallers 1\ncalls 1\n0 0 inc =0 view 0:1\nend\n",
            5,
            What::Mark,
        ),
        (
            b"report 2\nobject counter\ncallers 1\ncalls 1\n0 0 inc =0 view 0:1 unchecked 1\nend\n",
            5,
            What::Mark,
        ),
        (
            b"report 2\nobject counter\ncallers 1\ncalls 1\n0 0 inc =0 view 0:1 fine seen 0:1\nend\n",
            5,
            What::Mark,
        ),
        (
            b"report 2\nobject counter\ncallers 1\ncalls 1\n0 0 inc =0 view 0:1 ok seen\nend\n",
            5,
            What::Seen,
        ),
        (
            b"report 2\nobject counter\ncallers 1\ncalls 1\n0 0 inc =0 view 0:1 ok seen 0:2\nend\n",
            5,
            What::Seen,
        ),
        (
            b"report 2\nobject counter\ncallers 1\ncalls 1\n0 0 inc =0 view 0:1 error seen 0:1 1\nend\n",
            5,
            What::Seen,
        ),
        (
            b"report 2\nobject counter\ncallers 2\ncalls 1 1\n0 0 inc pending\n1 0 inc =0 view 0:1 1:1 ok seen 0:1 1:1\nend\n",
            6,
            What::Seen,
        ),
        (
            b"report 2\nobject counter\ncallers 2\ncalls 1 1\n0 0 inc =0 view 0:1 ok seen 0:1 1:1\n1 0 inc pending\nend\n",
            6,
            What::Seen,
        ),
        (
            b"report 2\nobject counter\ncallers 1\ncalls 2\n0 0 inc pending\n0 1 inc pending\nend\n",
            5,
            What::Last,
        ),
        (
            b"report 2\nobject counter\ncallers 1\ncalls 2\n0 0 inc =0 view 0:1 unchecked\n0 1 inc pending\nend\n",
            5,
            What::Last,
        ),
        (
            b"report 2\nobject counter\ncallers 1\ncalls 2\n0 0 inc =0 view 0:1 error seen 0:1\n0 1 inc pending\nend\n",
            5,
            What::Last,
        ),
        (
            b"report 2\nobject counter\ncallers 1\ncalls 1\n0 0 inc pending\n",
            6,
            What::Cut,
        ),
        (
            b"report 2\nobject counter\ncallers 1\ncalls 1\n0 0 inc pending\n0 1 inc pending\n",
            6,
            What::End,
        ),
        (
            b"report 2\nobject counter\ncallers 1\ncalls 1\n0 0 inc pending\nend \n",
            6,
            What::End,
        ),
        (
            b"report 2\nobject counter\ncallers 1\ncalls 0\nend\nend",
            6,
            What::Rest,
        ),
        (
            b"report 2\nobject counter\ncallers 1\ncalls 0\n\n",
            5,
            What::End,
        ),
    ];
    for (text, line, what) in cases {
        let fault = ReadFault::Text(TextFault { line, what });
        assert_eq!(rt; read_report(rt.alloc(), text).err(), Some(fault));
    }
}
