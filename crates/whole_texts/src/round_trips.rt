//! Texts that are read, and written again as they were.
use book_text::{read_book, write_book};
use certificate_text::{read_certificate, write_certificate};
use client_scripts::{read_script, write_script};
use report_text::{read_report, report_text};
use std::test::Fail;

// Among the operations of the books are some with two values, and one that the book's kind doesn't
// know; and one of the replies has no name.
#[test]
fn books_are_written_as_they_were_read(rt: HostRuntime) -> Result<(), Fail> {
    let texts: [&[u8]; 4] = [
        b"book 2\nobject casreg\ncallers 2\ncalls 1 2\n0 0 cas 0 5 yes view 0:1\n1 0 cas 0 7 no view 0:1 1:1\n1 1 read =5 view 0:1 1:2\nend\n",
        b"book 2\nobject counter\ncallers 3\ncalls 0 2 1\n1 0 inc =0 view 1:1\n1 1 #1:5 bad view 1:2 2:1\n2 0 inc\nend\n",
        b"book 2\nobject set\ncallers 1\ncalls 3\n0 0 add 3 #18446744073709551615 view 0:1\n0 1 has 4294967295 none view 0:2\n0 2 remove 0\nend\n",
        b"book 2\nobject pqueue\ncallers 16\ncalls 0 0 0 0 0 0 0 0 0 0 0 0 0 0 0 1\n15 0 min none view 15:1\nend\n",
    ];
    for text in texts {
        let (kind, book) = read_book(rt.alloc(), text)?;
        let written = write_book(rt.alloc(), kind, &book)?;
        assert_eq!(rt; str::from_utf8(&written), str::from_utf8(text));
    }
    Ok(())
}

// The certificate has places of a caller and of a number that no book has, in an order that isn't
// by caller.
#[test]
fn a_certificate_is_written_as_it_was_read(rt: HostRuntime) -> Result<(), Fail> {
    let text: &[u8] =
        b"book 2\nobject set\ncallers 2\ncalls 0 1\n1 0 #7\nend\norder 2\n4294967295 18446744073709551615 #18446744073709551615\n0 3 yes\nend\n";
    let read = read_certificate(rt.alloc(), text)?;
    let written = write_certificate(rt.alloc(), read.kind, &read.book, &read.order)?;
    assert_eq!(rt; str::from_utf8(&written), str::from_utf8(text));
    Ok(())
}

// The scripts have a put of two values, an operation that the kind doesn't know, a caller without
// calls, and stops of some callers.
#[test]
fn scripts_are_written_as_they_were_read(rt: HostRuntime) -> Result<(), Fail> {
    let texts: [&[u8]; 2] = [
        b"script 2\nobject map\ncallers 4\ncalls 4 0 1 1\n0 0 put 3 9\n0 1 put 3 4\n0 2 get 3\n0 3 del 3\n2 0 #7\n3 0 get 0\nstop 0 19\nstop 3 0\nturns\nend\n",
        b"script 2\nobject queue\ncallers 2\ncalls 1 1\n0 0 enq 5\n1 0 deq\nturns 0 0 0 0 0 1 1 1 1 1\nend\n",
    ];
    for text in texts {
        let script = read_script(rt.alloc(), text)?;
        let written = write_script(rt.alloc(), &script)?;
        assert_eq!(rt; str::from_utf8(&written), str::from_utf8(text));
    }
    Ok(())
}

// The report has lines with all four ends, and a caller without calls.
#[test]
fn a_report_is_written_as_it_was_read(rt: HostRuntime) -> Result<(), Fail> {
    let text: &[u8] =
        b"report 2\nobject queue\ncallers 4\ncalls 2 1 1 0\n0 0 enq 5 done view 0:1 ok seen 0:1\n0 1 deq pending\n1 0 deq =5 view 0:1 1:1 error seen 0:1 1:1\n2 0 #7 bad view 0:1 1:1 2:1 unchecked\nend\n";
    let report = read_report(rt.alloc(), text)?;
    let written = report_text(rt.alloc(), &report)?;
    assert_eq!(rt; str::from_utf8(&written), str::from_utf8(text));
    Ok(())
}
